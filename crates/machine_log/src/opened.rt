// An open journal.
ghost use Rattle.std.specs.Prelude.{◌≡◌, ◌↔◌, ◌<◌, IsTrue, length};
ghost use Rattle.std.specs.List.{Contains};
ghost use Rattle.volume_codec.specs.Recovery.{Batch};
ghost use Rattle.journal.specs.WriteOut.{IsBatch};

use std::alloc::Allocator;
use std::marker::Model;
use volume_codec::{Descriptor, Geometry};

/// A journal, counted from 0, and the batch of blocks in its descriptor.
#[derive(Drop)]
pub struct OpenJournal<A: Allocator + Copy> {
    geometry: Geometry,
    journal: u32,
    descriptor: Descriptor<A>,
}

impl<A: Allocator + Copy> Model for OpenJournal<A> {
    ghost use Rattle.volume_codec.specs.Recovery.{Batch};
    ghost use Rattle.journal.specs.WriteOut.{IsBatch};

    ghost Value = { Batch };

    ghost view = { λ o. record { journal = o.journal; mark = o.descriptor.mark; homes = o.descriptor.homes } };

    ghost invariant = { λ o. IsBatch o.geometry
        (record { journal = o.journal; mark = o.descriptor.mark; homes = o.descriptor.homes }) };
}

impl<A: Allocator + Copy> OpenJournal<A> {
    /// Returns the open journal for this descriptor, in a volume with this geometry.
    pub(crate) fn new(geometry: Geometry, journal: u32, descriptor: Descriptor<A>) -> Self
        requires { IsBatch geometry
            (record { journal = journal; mark = descriptor.mark; homes = descriptor.homes }) }
        ensures { result ≡ record { journal = journal; mark = descriptor.mark; homes = descriptor.homes } }
    {
        OpenJournal {
            geometry,
            journal,
            descriptor,
        }
    }

    /// Returns the number of the journal, counted from 0.
    pub fn journal(&self) -> u32
        ensures { result ≡ self.now.journal }
    {
        self.journal
    }

    /// Returns the mark under which the batch is committed.
    pub fn mark(&self) -> u64
        ensures { result ≡ self.now.mark }
    {
        self.descriptor.mark()
    }

    /// Returns the home blocks, in ascending order. Record i is for the block at place i.
    pub fn homes(&self) -> &[u32]
        ensures { result.now ≡ self.now.homes }
    {
        self.descriptor.homes()
    }

    /// Whether a home block belongs to the batch.
    pub fn has_block(&self, home: u32) -> bool
        ensures { IsTrue result ↔ Contains self.now.homes home }
    {
        self.descriptor.homes().binary_search(&home).is_ok()
    }
}
