// A batch in a list of write-outs. The list keeps the volume's geometry once for all of them.
ghost use Rattle.std.specs.Prelude.{◌≡◌, ◌≢◌, ◌↔◌, ◌⊎◌, ◌*◌, ◌<◌, ◌≤◌, is_ok, IsTrue, IsSome, length, slice_index, Contains, Some, IfSome};
ghost use Rattle.std.specs.Vec.{vec_capacity};
ghost use Rattle.device.specs.Did.{Did};
ghost use Rattle.volume_codec.specs.Layout.{GeometryValue, IsHome, descriptor_blocks};
ghost use Rattle.journal.specs.Stage.{has_writes, is_ahead as ahead};
ghost use Rattle.journal.specs.Work.{work_at, has_done};
ghost use Rattle.journal.specs.WriteOut.{IsBatch, next_stage, has_committed, next_record, next_home, work_of, answer_of};
ghost use Rattle.journal.specs.WriteOuts.{is_at};
ghost use Rattle.journal.specs.inside.Sound.{IsFlush, IsWriteOut};
ghost use Rattle.journal.specs.inside.Queued.{queued_of, committed_of, queued_advanced, queued_after};

use crate::copying::apply_record;
use crate::gate::write_gate;
use crate::{Flushed, Stage, stage_at};
use device::{Device, DeviceFault, make_durable, write_at};
use std::alloc::Allocator;
use std::marker::Model;
use volume_codec::{CLOSED_GATE, Geometry, OPEN_GATE, write_descriptor};

/// A batch, and the number of steps that its write-out has made.
#[derive(Drop)]
pub(crate) struct Queued<A: Allocator + Copy> {
    journal: u32,
    mark: u64,
    homes: Vec<u32, A>,
    // The number of blocks of the journal's descriptor.
    described: u32,
    steps: u32,
}

impl<A: Allocator + Copy> Model for Queued<A> {
    ghost use Rattle.std.specs.Vec.{vec_capacity};
    ghost use Rattle.volume_codec.specs.Layout.{GeometryValue};
    ghost use Rattle.journal.specs.inside.Queued.{QueuedWriteOut};
    ghost use Rattle.journal.specs.inside.Sound.{IsFlush};

    ghost Value = { QueuedWriteOut };

    ghost view = { λ w. record {
      write_out = record {
        batch = record { journal = w.journal; mark = w.mark; homes = w.homes.items };
        described = w.described;
        steps = w.steps;
      };
      room = vec_capacity w.homes;
    } };

    // This is the write-out of a batch of some volume.
    ghost invariant = { λ w. (g : GeometryValue) × IsFlush g (record {
      batch = record { journal = w.journal; mark = w.mark; homes = w.homes.items };
      described = w.described;
      steps = w.steps;
    }) };
}

impl<A: Allocator + Copy> Queued<A> {
    /// Returns a batch before its first step. The home blocks are in rising order. The batch goes through this journal,
    /// and commits under this mark.
    pub(crate) fn new(geometry: &Geometry, journal: u32, mark: u64, homes: Vec<u32, A>) -> Self
        requires { IsBatch geometry.now (record { journal = journal; mark = mark; homes = homes.items }) }
        ensures { result ≡ queued_of geometry.now.slots
            (record { journal = journal; mark = mark; homes = homes.items }) (vec_capacity homes) }
    {
        prove!(geometry.slots() <= 65535);
        Queued {
            journal,
            mark,
            homes,
            described: geometry.descriptor_blocks(),
            steps: 0,
        }
    }

    /// Sets the batch to the first step after its commit.
    pub(crate) fn set_committed(&mut self)
        ensures { self.new ≡ record self.old { write_out = committed_of self.old.write_out } }
    {
        self.steps = self.homes.len() as u32 + self.described + 3;
    }

    /// Returns the journal, counted from 0.
    pub(crate) fn journal(&self) -> u32
        ensures { result ≡ self.now.write_out.batch.journal }
    {
        self.journal
    }

    /// Returns the mark under which the batch commits.
    pub(crate) fn mark(&self) -> u64
        ensures { result ≡ self.now.write_out.batch.mark }
    {
        self.mark
    }

    /// Returns the home blocks, in rising order.
    pub(crate) fn homes(&self) -> &[u32]
        ensures { result.now ≡ self.now.write_out.batch.homes }
    {
        &self.homes
    }

    /// Returns the stage of the next step, or `None` if the write-out is done.
    pub(crate) fn stage(&self) -> Option<Stage>
        ensures { result ≡ next_stage self.now.write_out }
    {
        stage_at(self.homes.len() as u32, self.described, self.steps)
    }

    /// Whether the batch is committed.
    pub(crate) fn is_committed(&self) -> bool
        ensures { result ≡ has_committed self.now.write_out }
    {
        match self.stage() {
            Some(stage) => stage.is_committed(),
            None => true,
        }
    }

    /// Whether the next step writes.
    pub(crate) fn writes(&self) -> bool
        ensures { result ≡ is_at has_writes self.now.write_out }
    {
        match self.stage() {
            Some(stage) => stage.writes(),
            None => false,
        }
    }

    /// Whether the batch isn't committed, and the next step isn't the sync of its records.
    pub(crate) fn is_ahead(&self) -> bool
        ensures { result ≡ is_at ahead self.now.write_out }
    {
        match self.stage() {
            Some(stage) => stage.is_ahead(),
            None => false,
        }
    }

    /// Returns the place of the record that the next step writes, or `None` if that step writes no record.
    pub(crate) fn next_record(&self) -> Option<u32>
        ensures place { result ≡ next_record self.now.write_out }
        ensures within { IfSome result (λ place. place < length self.now.write_out.batch.homes) }
    {
        match self.stage() {
            Some(Stage::Recording(record)) => Some(record),
            _ => None,
        }
    }

    /// Returns the home block of the record that the next step writes.
    pub(crate) fn next_home(&self) -> Option<u32>
        ensures { result ≡ next_home self.now.write_out }
    {
        let record = self.next_record()?;
        Some(self.home_at(record))
    }

    // Returns the home block at a place.
    fn home_at(&self, place: u32) -> u32
        requires { place < length self.now.write_out.batch.homes }
        ensures value { result ≡ slice_index self.now.write_out.batch.homes place }
        ensures home { (g : GeometryValue) → IsBatch g self.now.write_out.batch → IsHome g result }
    {
        self.homes[place as usize]
    }

    /// Whether the home block belongs to the batch.
    pub(crate) fn has_block(&self, home: u32) -> bool
        ensures { IsTrue result ↔ Contains self.now.write_out.batch.homes home }
    {
        self.homes.binary_search(&home).is_ok()
    }

    // Does the work of this stage on the device.
    fn carry_out<D: Device>(
        &self,
        geometry: &Geometry,
        device: &mut D,
        stage: Stage,
        bytes: &[u8; 4096],
        buffer: &mut [u8; 4096],
    ) -> Result<(), DeviceFault>
        requires long { 4096 * geometry.now.blocks ≤ length (D.seen device.old) }
        requires batch { IsBatch geometry.now self.now.write_out.batch }
        requires described { self.now.write_out.described ≡ descriptor_blocks geometry.now.slots }
        requires stage { next_stage self.now.write_out ≡ Some stage }
        ensures { Did D.Device device.old (work_at geometry.now self.now.write_out.batch bytes.now stage)
            (is_ok result) device.new }
    {
        match stage {
            Stage::Recording(slot) => {
                let block = geometry.record_block(self.journal, slot);
                prove!(block < geometry.block_count());
                write_at(device, 4096 * u64::from(block), bytes)
            }
            Stage::Describing(index) => {
                let block = geometry.descriptor_block(self.journal) + index;
                prove!(block < geometry.block_count());
                let bytes = write_descriptor(geometry, self.mark, &self.homes, index);
                write_at(device, 4096 * u64::from(block), &bytes)
            }
            Stage::Opening => write_gate(device, geometry, self.journal, OPEN_GATE),
            Stage::Applying(slot) => {
                let home = self.home_at(slot);
                apply_record(device, geometry, self.journal, slot, home, buffer)
            }
            Stage::Closing => write_gate(device, geometry, self.journal, CLOSED_GATE),
            Stage::SyncingRecords | Stage::Committing | Stage::SyncingHomes | Stage::Finishing =>
                make_durable(device),
        }
    }

    /// Returns the result of the next step if no device call fails.
    pub(crate) fn answer(&self) -> Flushed
        requires { IsSome (next_stage self.now.write_out) }
        ensures { result ≡ answer_of self.now.write_out }
    {
        self.stage().unwrap().answer(self.mark)
    }

    /// Counts the next step as made.
    pub(crate) fn advance(&mut self)
        requires { IsSome (next_stage self.old.write_out) }
        ensures { self.new ≡ queued_advanced self.old }
    {
        self.steps += 1;
    }

    /// Makes the next step, which does the work of its stage, and returns that stage's result. Returns `Device` if a
    /// device call failed. `bytes` are the new bytes of the block `next_home`, if there is one. A record that is
    /// written home is first read into `buffer`. The call allocates no memory.
    pub(crate) fn step<D: Device>(
        &mut self,
        geometry: &Geometry,
        device: &mut D,
        bytes: &[u8; 4096],
        buffer: &mut [u8; 4096],
    ) -> Flushed
        requires long { 4096 * geometry.now.blocks ≤ length (D.seen device.old) }
        requires under_way { IsWriteOut geometry.now self.old.write_out }
        ensures answer { (result ≡ answer_of self.old.write_out) ⊎ (result ≡ Flushed.Device) }
        ensures sane { result ≢ Flushed.Broken }
        ensures value { self.new ≡ queued_after self.old result }
        ensures did { Did D.Device device.old (work_of geometry.now bytes.now self.old.write_out)
            (has_done result) device.new }
    {
        let stage = self.stage().unwrap();
        match self.carry_out(geometry, device, stage, bytes, buffer) {
            Ok(()) => {
                self.advance();
                stage.answer(self.mark)
            }
            Err(_) => Flushed::Device,
        }
    }

    /// Returns the list of home blocks, so that its memory can be reused.
    pub(crate) fn into_homes(self) -> Vec<u32, A>
        ensures items { result.items ≡ self.write_out.batch.homes }
        ensures room { vec_capacity result ≡ self.room }
    {
        let Queued {
            journal: _,
            mark: _,
            homes,
            described: _,
            steps: _,
        } = self;
        homes
    }
}
