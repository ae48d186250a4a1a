// Which part of a volume in any layout a device call touches.
ghost use Rattle.std.specs.Prelude.{◌/◌};
ghost use Rattle.crash_states.specs.LogParts.{IsAnyPartOf};

use crate::log_part::LogPlaces;
use crate::part::{Part, Places};
use std::alloc::Allocator;
use volume_codec::Super;

/// Where the parts of a volume are.
#[derive(Drop)]
pub enum VolumePlaces<A: Allocator + Copy> {
    /// A volume with journals, in layouts 1 to 4.
    Journals(Places<A>),
    /// A volume with a log, in layout 5 or 6.
    Log(LogPlaces<A>),
}

impl<A: Allocator + Copy> VolumePlaces<A> {
    /// Returns the part of the volume that contains the byte at offset `at`.
    pub fn part_of(&self, at: u64) -> Part
        ensures { IsAnyPartOf self.now (at / 4096) result }
    {
        match self {
            VolumePlaces::Journals(places) => places.part_of(at),
            VolumePlaces::Log(places) => places.part_of(at),
        }
    }

    /// Returns the table of files, which contains their names.
    pub fn table(&self) -> &Super<A> {
        match self {
            VolumePlaces::Journals(places) => &places.table,
            VolumePlaces::Log(places) => places.table.table(),
        }
    }
}
