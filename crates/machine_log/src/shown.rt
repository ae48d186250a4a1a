// The volume and its open journals.
ghost use Rattle.std.specs.Prelude.{◌≡◌, ◌↔◌, ◌<◌, ◌+◌, ◌*◌, ℕ, List, [], ◌∷◌, IsTrue, IfSome, IfNone, OnOk, OnErr};
ghost use Rattle.std.specs.Prelude.{length};
ghost use Rattle.std.specs.Option.{option_copied};
ghost use Rattle.device.specs.Device.{written};
ghost use Rattle.volume_codec.specs.Layout.{GeometryValue, journals_of, gate_block};
ghost use Rattle.volume_codec.specs.Recovery.{Batch, has_journal};
ghost use Rattle.kept_blocks.specs.Blocks.{bytes_in};
ghost use Rattle.journal.specs.WriteOut.{IsBatch};
ghost use Rattle.machine_log.specs.Shown.{HasHomeBlock, IsNoGate, IsOfJournal, IsOfNoJournal};

use crate::opened::OpenJournal;
use kept_blocks::Blocks;
use std::alloc::Allocator;
use std::marker::Model;
use volume_codec::Geometry;

/// A volume whose journals are closed at first. It keeps the blocks that are written.
#[derive(Drop)]
pub struct ShownVolume<A: Allocator + Copy> {
    pub(crate) alloc: A,
    pub(crate) geometry: Geometry,
    pub(crate) blocks: Blocks<A>,
    // The open journals, the newest first.
    pub(crate) opened: Vec<OpenJournal<A>, A>,
}

impl<A: Allocator + Copy> Model for ShownVolume<A> {
    ghost use Rattle.std.specs.List.{AllByRecursion};
    ghost use Rattle.journal.specs.WriteOut.{IsBatch};
    ghost use Rattle.machine_log.specs.Shown.{ShownValue};

    ghost Value = { ShownValue };

    ghost view = { λ s. record { geometry = s.geometry; blocks = s.blocks; opened = s.opened.items } };

    ghost invariant = { λ s. AllByRecursion (λ batch. IsBatch s.geometry batch) s.opened.items };
}

impl<A: Allocator + Copy> ShownVolume<A> {
    /// Returns a volume with this geometry, which keeps no block.
    pub fn new(alloc: A, geometry: Geometry) -> Self
        ensures { result ≡ record { geometry = geometry; blocks = []; opened = [] } }
    {
        ShownVolume {
            alloc,
            geometry,
            blocks: Blocks::new(alloc),
            opened: Vec::new(alloc),
        }
    }

    /// Returns the geometry of the volume.
    pub fn geometry(&self) -> &Geometry
        ensures { result.now ≡ self.now.geometry }
    {
        &self.geometry
    }

    /// Returns the bytes of a block, if it is kept.
    pub fn block(&self, block: u32) -> Option<&[u8; 4096]>
        ensures { option_copied result ≡ bytes_in self.now.blocks block }
    {
        self.blocks.get(block)
    }

    /// Whether the gate of a journal is open.
    pub fn is_open(&self, journal: u32) -> bool
        ensures { result ≡ has_journal self.now.opened journal }
    {
        has_journal(&self.opened, journal)
    }

    /// Whether an open journal has a record of a home block.
    pub fn has_record_of(&self, home: u32) -> bool
        ensures { IsTrue result ↔ HasHomeBlock self.now.opened home }
    {
        has_record(&self.opened, home)
    }

    /// Returns the journal whose gate this block is, if there is one.
    pub fn journal_of_gate(&self, block: u32) -> Option<u32>
        ensures some { IfSome result (λ j. (j < journals_of self.now.geometry.layout)
            × (block ≡ gate_block self.now.geometry.slots j)) }
        ensures none { IfNone result (IsNoGate self.now.geometry block) }
    {
        for journal in 0..self.geometry.journals() {
            let gate = self.geometry.gate_block(journal);
            if gate == block {
                return Some(journal);
            }
        }
        None
    }

    /// Returns the journal to whose descriptor or record slots a block belongs, if there is one.
    pub fn journal_of(&self, block: u32) -> Option<u32>
        ensures some { IfSome result (λ j. (j < journals_of self.now.geometry.layout)
            × IsOfJournal self.now.geometry j block) }
        ensures none { IfNone result (IsOfNoJournal self.now.geometry block) }
    {
        for journal in 0..self.geometry.journals() {
            if is_of_journal(&self.geometry, journal, block) {
                return Some(journal);
            }
        }
        None
    }
}

// Whether a block belongs to the descriptor or the record slots of a journal.
fn is_of_journal(geometry: &Geometry, journal: u32, block: u32) -> bool
    requires { journal < journals_of geometry.now.layout }
    ensures { IsTrue result ↔ IsOfJournal geometry.now journal block }
{
    let first = geometry.descriptor_block(journal);
    let count = geometry.descriptor_blocks() + geometry.slots();
    if block < first {
        return false;
    }
    if block - first >= count {
        return false;
    }
    true
}

// Whether a journal is one of these.
pub(crate) fn has_journal<A: Allocator + Copy>(opened: &[OpenJournal<A>], journal: u32) -> bool
    ensures { result ≡ has_journal opened.now journal }
{
    opened.iter().any(|one| one.journal() == journal)
}

// Whether one of these journals has a record of a home block.
pub(crate) fn has_record<A: Allocator + Copy>(opened: &[OpenJournal<A>], home: u32) -> bool
    ensures { IsTrue result ↔ HasHomeBlock opened.now home }
{
    for one in opened {
        if one.has_block(home) {
            return true;
        }
    }
    false
}
