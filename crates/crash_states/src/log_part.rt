// Which part of a volume with a log a device call touches.
ghost use Rattle.std.specs.Prelude.{◌/◌, ◌<◌, ◌≤◌};
ghost use Rattle.log_codec.specs.Log.{first_log_home};
ghost use Rattle.log_volume.specs.Super.{log_of};
ghost use Rattle.crash_states.specs.LogParts.{IsLogPartOf};

use crate::part::Part;
use log_volume::LogSuper;
use page_entry::PAGE;
use std::alloc::Allocator;

// The first block of the log.
const FIRST_OF_LOG: u32 = 4;

/// Where the parts of a volume with a log are.
#[derive(Drop)]
pub struct LogPlaces<A: Allocator + Copy> {
    pub table: LogSuper<A>,
}

impl<A: Allocator + Copy> LogPlaces<A> {
    /// Returns the part of the volume that contains the byte at offset `at`.
    pub fn part_of(&self, at: u64) -> Part
        ensures { IsLogPartOf self.now.table (at / 4096) result }
    {
        let block = at / PAGE;
        if block >= u64::from(self.table.log().block_count()) {
            return Part::Outside;
        }
        self.part_of_block(block as u32)
    }

    // Returns the part of the volume that contains a block.
    fn part_of_block(&self, block: u32) -> Part
        requires { block < (log_of self.now.table).blocks }
        ensures { IsLogPartOf self.now.table block result }
    {
        if block == 0 {
            return Part::Super;
        }
        if block == 1 {
            return Part::Selector;
        }
        if block < FIRST_OF_LOG {
            return Part::Start(block - 2);
        }
        if block < self.table.log().first_home() {
            return Part::Log(block - FIRST_OF_LOG);
        }
        self.home_of(block)
    }

    // Returns the page of a file that has this home block, or `Part::Home` if no file has it.
    fn home_of(&self, block: u32) -> Part
        requires low { first_log_home self.now.table.ring ≤ block }
        requires high { block < (log_of self.now.table).blocks }
        ensures { IsLogPartOf self.now.table block result }
    {
        let log = self.table.log();
        let table = self.table.table();
        // A home block's number is that of the table, plus the blocks of the log and one for the lengths.
        let said = block - log.ring() - 1;
        for file in 0..table.file_count() {
            let first = table.first_home(file);
            if said >= first && said - first < table.pages(file) {
                return Part::Page {
                    file,
                    page: said - first,
                };
            }
        }
        Part::Home(block)
    }
}
