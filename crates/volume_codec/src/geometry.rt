// The places of a volume's parts. Block 0 is the super block. The journals follow, and then the home blocks. A journal
// has a gate block, its descriptor's blocks and its record slots. A block has 4,096 bytes. No other file computes a
// block's number.
ghost use Rattle.std.specs.Prelude.{◌≡◌, ◌<◌, ◌≤◌, ◌+◌, ◌^◌};
ghost use Rattle.volume_codec.specs.Layout.{IsGeometry, journals_of, descriptor_blocks as blocks_of, journal_blocks as in_journal, gate_block as gate, descriptor_block as descriptor, record_block as record_slot, first_home as home, first_file_home as file_home, max_frames as frames};

use crate::layout::Layout;
use std::marker::Model;

/// Returns the number of blocks of a journal's descriptor, if the journal has this number of record slots.
fn descriptor_length(slots: u32) -> u32
    requires { slots ≤ 65535 }
    ensures value { result ≡ blocks_of slots }
    ensures small { result ≤ 65 }
{
    (4 * slots + 4111) / 4096
}

/// Returns the number of blocks of a journal with this number of record slots.
fn journal_length(slots: u32) -> u32
    requires { slots ≤ 65535 }
    ensures value { result ≡ in_journal slots }
    ensures small { result ≤ 65601 }
{
    1 + descriptor_length(slots) + slots
}

/// Returns the first home block in a layout whose journals have this number of record slots.
fn first_home_block(layout: Layout, slots: u32) -> u32
    requires { slots ≤ 65535 }
    ensures value { result ≡ home layout slots }
    ensures small { result + 1 < 2 ^ 19 }
{
    1 + layout.journals() * journal_length(slots)
}

/// Returns the first home block of the files in a layout whose journals have this number of record slots.
pub(crate) fn first_file_home_block(layout: Layout, slots: u32) -> u32
    requires { slots ≤ 65535 }
    ensures value { result ≡ file_home layout slots }
    ensures small { result < 2 ^ 19 }
{
    first_home_block(layout, slots) + layout.lengths_blocks()
}

/// The places of a volume's parts. Journals, and the record slots of each, are counted from 0.
#[derive(Clone, Copy, Debug)]
pub struct Geometry {
    layout: Layout,
    slots: u32,
    blocks: u32,
}

impl Model for Geometry {
    ghost use Rattle.volume_codec.specs.Layout.{GeometryValue, IsGeometry};

    ghost Value = { GeometryValue };

    ghost view = { λ g. record { layout = g.layout; slots = g.slots; blocks = g.blocks } };

    ghost invariant = { λ g. IsGeometry (record { layout = g.layout; slots = g.slots; blocks = g.blocks }) };

    ghost inverse = { λ v. record { layout = v.layout; slots = v.slots; blocks = v.blocks } };
}

impl Geometry {
    /// Returns the geometry of a volume with this number of blocks.
    pub(crate) fn new(layout: Layout, slots: u32, blocks: u32) -> Geometry
        requires { IsGeometry (record { layout = layout; slots = slots; blocks = blocks }) }
        ensures { result ≡ record { layout = layout; slots = slots; blocks = blocks } }
    {
        Geometry {
            layout,
            slots,
            blocks,
        }
    }

    /// Returns the volume's layout.
    pub fn layout(&self) -> Layout
        ensures value { result ≡ self.now.layout }
        ensures geometry { IsGeometry self.now }
    {
        self.layout
    }

    /// Returns the number of record slots of each journal, from 1 to the layout's largest number.
    pub fn slots(&self) -> u32
        ensures value { result ≡ self.now.slots }
        ensures geometry { IsGeometry self.now }
    {
        self.slots
    }

    /// Returns the number of blocks of the volume, at most 2^32 - 1.
    pub fn block_count(&self) -> u32
        ensures value { result ≡ self.now.blocks }
        ensures geometry { IsGeometry self.now }
    {
        self.blocks
    }

    /// Returns the number of journals.
    pub fn journals(&self) -> u32
        ensures value { result ≡ journals_of self.now.layout }
        ensures geometry { IsGeometry self.now }
    {
        self.layout.journals()
    }

    /// Returns the block of a journal's gate. Its first byte opens and closes the gate.
    pub fn gate_block(&self, journal: u32) -> u32
        requires { journal < journals_of self.now.layout }
        ensures value { result ≡ gate self.now.slots journal }
        ensures low { result < home self.now.layout self.now.slots }
        ensures geometry { IsGeometry self.now }
    {
        1 + journal * journal_length(self.slots)
    }

    /// Returns the number of blocks of each journal's descriptor, at least 1.
    pub fn descriptor_blocks(&self) -> u32
        ensures value { result ≡ blocks_of self.now.slots }
        ensures geometry { IsGeometry self.now }
    {
        descriptor_length(self.slots)
    }

    /// Returns the first block of a journal's descriptor.
    pub fn descriptor_block(&self, journal: u32) -> u32
        requires { journal < journals_of self.now.layout }
        ensures value { result ≡ descriptor self.now.slots journal }
        ensures low { result < home self.now.layout self.now.slots }
        ensures geometry { IsGeometry self.now }
    {
        2 + journal * journal_length(self.slots)
    }

    /// Returns the block of a record slot of a journal.
    pub fn record_block(&self, journal: u32, slot: u32) -> u32
        requires there { journal < journals_of self.now.layout }
        requires within { slot < self.now.slots }
        ensures value { result ≡ record_slot self.now.slots journal slot }
        ensures low { result < home self.now.layout self.now.slots }
        ensures geometry { IsGeometry self.now }
    {
        2 + descriptor_length(self.slots) + journal * journal_length(self.slots) + slot
    }

    /// Returns the first home block, which is the first block that a descriptor may name.
    pub fn first_home(&self) -> u32
        ensures value { result ≡ home self.now.layout self.now.slots }
        ensures geometry { IsGeometry self.now }
    {
        first_home_block(self.layout, self.slots)
    }

    /// Returns the first home block of the files.
    pub fn first_file_home(&self) -> u32
        ensures value { result ≡ file_home self.now.layout self.now.slots }
        ensures geometry { IsGeometry self.now }
    {
        first_file_home_block(self.layout, self.slots)
    }

    /// Returns the largest number of frames of a machine over the volume. A batch needs a record slot for the page of
    /// each frame, and one for the lengths.
    pub fn max_frames(&self) -> u32
        ensures { result ≡ frames self.now.layout self.now.slots }
    {
        self.slots - self.layout.lengths_blocks()
    }
}
