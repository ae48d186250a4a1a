// Which part of a volume a device call touches.
ghost use Rattle.std.specs.Prelude.{◌/◌, ◌<◌, ◌≤◌};
ghost use Rattle.volume_codec.specs.Layout.{first_home};
ghost use Rattle.volume_codec.specs.Super.{block_count};
ghost use Rattle.crash_states.specs.Parts.{IsPartOf};

use page_entry::PAGE;
use std::alloc::Allocator;
use volume_codec::Super;

/// A part of a volume. Journals, their record slots, starts and positions of a log are counted from 0.
#[derive(Clone, Copy)]
pub enum Part {
    Super,
    Gate(u32),
    Descriptor(u32),
    Record { journal: u32, slot: u32 },
    /// The block that selects the start of the log that is in use.
    Selector,
    /// A start of a log.
    Start(u32),
    /// The block at a position of a log.
    Log(u32),
    /// A home block that belongs to no file.
    Home(u32),
    /// The home block of a file's page.
    Page { file: usize, page: u32 },
    /// Past the volume.
    Outside,
}

/// Where the parts of a volume are.
#[derive(Drop)]
pub struct Places<A: Allocator + Copy> {
    pub table: Super<A>,
}

impl<A: Allocator + Copy> Places<A> {
    /// Returns the part of the volume that contains the byte at offset `at`.
    pub fn part_of(&self, at: u64) -> Part
        ensures { IsPartOf self.now.table (at / 4096) result }
    {
        let block = at / PAGE;
        if block >= u64::from(self.table.block_count()) {
            return Part::Outside;
        }
        self.part_of_block(block as u32)
    }

    // Returns the part of the volume that contains a block.
    fn part_of_block(&self, block: u32) -> Part
        requires { block < block_count self.now.table }
        ensures { IsPartOf self.now.table block result }
    {
        let geometry = self.table.geometry();
        if block == 0 {
            return Part::Super;
        }
        let slots = geometry.slots();
        for journal in 0..geometry.journals() {
            if block == geometry.gate_block(journal) {
                return Part::Gate(journal);
            }
            let first = geometry.record_block(journal, 0);
            if block >= geometry.descriptor_block(journal) && block < first {
                return Part::Descriptor(journal);
            }
            if block >= first && block - first < slots {
                return Part::Record {
                    journal,
                    slot: block - first,
                };
            }
        }
        self.home_of(block)
    }

    // Returns the page of a file that has this home block, or `Part::Home` if no file has it.
    fn home_of(&self, block: u32) -> Part
        requires low { first_home self.now.table.layout self.now.table.slots ≤ block }
        requires high { block < block_count self.now.table }
        ensures { IsPartOf self.now.table block result }
    {
        for file in 0..self.table.file_count() {
            let first = self.table.first_home(file);
            if block >= first && block - first < self.table.pages(file) {
                return Part::Page {
                    file,
                    page: block - first,
                };
            }
        }
        Part::Home(block)
    }
}
