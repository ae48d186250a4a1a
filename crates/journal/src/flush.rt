// One write-out.
ghost use Rattle.std.specs.Prelude.{◌≡◌, ◌↔◌, ◌⊎◌, ℕ, ◌*◌, ◌<◌, ◌≤◌, true, IsTrue, IsSome, List, length, Contains, Some, IfSome};
ghost use Rattle.std.specs.Vec.{vec_capacity};
ghost use Rattle.device.specs.Device.{LeavesOnly};
ghost use Rattle.device.specs.Did.{Did};
ghost use Rattle.volume_codec.specs.Super.{SuperValue};
ghost use Rattle.journal.specs.Work.{has_done};
ghost use Rattle.journal.specs.WriteOut.{next_stage, has_committed};
ghost use Rattle.journal.specs.WriteOut.{IsBatch, flush_of, flush_record, flush_home, flush_work, flush_answer, flush_after};
ghost use Rattle.journal.specs.Crash.{LeftWithin};
ghost use Rattle.journal.specs.Alone.{HasLedAlone};
ghost use Rattle.journal.specs.inside.Queued.{committed_of};

use crate::queued::Queued;
use crate::{Flushed, Stage};
use device::Device;
use std::alloc::Allocator;
use std::marker::Model;
use volume_codec::Geometry;

/// A write-out: a batch of blocks on its way through a journal to its home blocks, one step at a time.
#[derive(Drop)]
pub struct Flush<A: Allocator + Copy> {
    geometry: Geometry,
    queued: Queued<A>,
    broken: bool,
}

impl<A: Allocator + Copy> Model for Flush<A> {
    ghost use Rattle.journal.specs.WriteOut.{FlushValue};
    ghost use Rattle.journal.specs.inside.Sound.{IsFlush};

    ghost Value = { FlushValue };

    ghost view = { λ f. record {
      geometry = f.geometry;
      write_out = f.queued.write_out;
      broken = f.broken;
      room = f.queued.room;
    } };

    ghost invariant = { λ f. IsFlush f.geometry f.queued.write_out };
}

impl<A: Allocator + Copy> Flush<A> {
    /// Returns the write-out of a batch before its first step. The home blocks are in rising order. The batch goes
    /// through this journal, and commits under this mark. It allocates no memory.
    pub fn new(geometry: Geometry, journal: u32, mark: u64, homes: Vec<u32, A>) -> Self
        requires { IsBatch geometry (record { journal = journal; mark = mark; homes = homes.items }) }
        ensures { result ≡ flush_of geometry
            (record { journal = journal; mark = mark; homes = homes.items }) (vec_capacity homes) }
    {
        let queued = Queued::new(&geometry, journal, mark, homes);
        Flush {
            geometry,
            queued,
            broken: false,
        }
    }

    /// Sets the write-out to the first step after the commit: the gate is open, and the records are to be written home.
    pub(crate) fn set_committed(&mut self)
        ensures { self.new ≡ record self.old { write_out = committed_of self.old.write_out } }
    {
        self.queued.set_committed();
    }

    /// Returns the journal, counted from 0.
    pub fn journal(&self) -> u32
        ensures { result ≡ self.now.write_out.batch.journal }
    {
        self.queued.journal()
    }

    /// Returns the mark under which the batch commits.
    pub fn mark(&self) -> u64
        ensures { result ≡ self.now.write_out.batch.mark }
    {
        self.queued.mark()
    }

    /// Returns the home blocks, in rising order. Record i is for the block at place i.
    pub fn homes(&self) -> &[u32]
        ensures { result.now ≡ self.now.write_out.batch.homes }
    {
        self.queued.homes()
    }

    /// Returns the stage of the next step, or `None` if the write-out is done.
    pub fn stage(&self) -> Option<Stage>
        ensures { result ≡ next_stage self.now.write_out }
    {
        self.queued.stage()
    }

    /// Whether a device call failed in a step.
    pub fn is_broken(&self) -> bool
        ensures { result ≡ self.now.broken }
    {
        self.broken
    }

    /// Whether the batch is committed.
    pub fn is_committed(&self) -> bool
        ensures { result ≡ has_committed self.now.write_out }
    {
        self.queued.is_committed()
    }

    /// Returns the place of the record that the next step writes. Returns `None` if that step writes no record, or if a
    /// device call has failed.
    pub fn next_record(&self) -> Option<u32>
        ensures place { result ≡ flush_record self.now }
        ensures within { IfSome result (λ place. place < length self.now.write_out.batch.homes) }
    {
        if self.broken {
            return None;
        }
        self.queued.next_record()
    }

    /// Returns the home block of the record that the next step writes. The caller passes its new bytes to that step.
    pub fn next_home(&self) -> Option<u32>
        ensures { result ≡ flush_home self.now }
    {
        if self.broken {
            return None;
        }
        self.queued.next_home()
    }

    /// Whether the home block belongs to the batch.
    pub fn has_block(&self, home: u32) -> bool
        ensures { IsTrue result ↔ Contains self.now.write_out.batch.homes home }
    {
        self.queued.has_block(home)
    }

    /// Makes the next step, which does the work of its stage, and returns that stage's result. `bytes` are the new
    /// bytes of the block `next_home`, if there is one. A record that is written home is first read into `buffer`. The
    /// call allocates no memory.
    ///
    /// Returns `Device` if a device call failed. The write-out is broken then: every later step returns `Broken`, makes
    /// no device call and changes nothing.
    pub fn step<D: Device>(
        &mut self,
        device: &mut D,
        bytes: &[u8; 4096],
        buffer: &mut [u8; 4096],
    ) -> Flushed
        requires long { 4096 * self.old.geometry.blocks ≤ length (D.seen device.old) }
        requires going { IsSome (next_stage self.old.write_out) }
        ensures answer { (result ≡ flush_answer self.old) ⊎ (result ≡ Flushed.Device) }
        ensures broken { self.old.broken ≡ true → (result ≡ Flushed.Broken) × (device.new ≡ device.old) }
        ensures value { self.new ≡ flush_after self.old result }
        ensures did { Did D.Device device.old (flush_work self.old bytes.now) (has_done result) device.new }

        // With the same Old and New this still holds after the step. A crash within the step leaves only what it may
        // leave.
        ensures leads { (v : SuperValue) (old new : ℕ → List ℕ) → D.is_honest device.old
            → HasLedAlone D.Device v self.old old new device.old
            → ((home : ℕ) → flush_home self.old ≡ Some home → bytes.now ≡ new home)
            → HasLedAlone D.Device v self.new old new device.new }
        ensures crash { (v : SuperValue) (old new : ℕ → List ℕ)
            → HasLedAlone D.Device v self.old old new device.old
            → ((home : ℕ) → flush_home self.old ≡ Some home → bytes.now ≡ new home)
            → LeavesOnly D.moment D.left_since device.old device.new
            (LeftWithin v old new (next_stage self.old.write_out)) }
    {
        if self.broken {
            return Flushed::Broken;
        }
        let answer = self.queued.step(&self.geometry, device, bytes, buffer);
        if let Flushed::Device = answer {
            self.broken = true;
        }
        answer
    }

    /// Returns the list of home blocks, so that its memory can be reused.
    pub fn into_homes(self) -> Vec<u32, A>
        ensures items { result.items ≡ self.write_out.batch.homes }
        ensures room { vec_capacity result ≡ self.room }
    {
        let Flush {
            geometry: _,
            queued,
            broken: _,
        } = self;
        queued.into_homes()
    }
}
