// The calls of the disk.
ghost use Rattle.std.specs.Prelude.{◌≡◌, ◌⊎◌, ℕ, ◌+◌, ◌*◌, ◌^◌, ◌<◌, ◌≤◌, [], ◌∷◌, length, slice_range, IsOk, IsErr};
ghost use Rattle.std.specs.Prelude.{IfSome, OnOk};
ghost use Rattle.device.specs.Memory.{seen_of};
ghost use Rattle.device.specs.Memory.DiskChange.{write, sync};
ghost use Rattle.volume_codec.specs.Layout.{block_at, first_home, journals_of, gate_block};
ghost use Rattle.volume_codec.specs.Super.{block_count};
ghost use Rattle.log_codec.specs.Log.{first_log_home};
ghost use Rattle.machine_log.specs.inside.Keeping.{ReadsOn, WritesOn};

use crate::committing::{Firsts, moved_home, put_batch};
use crate::parts::DiskParts;
use crate::past::Past;
use device::{Device, DeviceFault};
use log_room::commit_with_room;
use std::alloc::Allocator;
use volume_codec::{one_reading, recovered_from};

impl<D: Device, A: Allocator + Copy> DiskParts<D, A> {
    // Returns the first home blocks of the disk and of the volume.
    fn firsts(&self) -> Firsts
        ensures shown { result.shown ≡ first_home self.now.table.layout self.now.table.slots }
        ensures volume { result.volume ≡ first_log_home self.now.volume.ring }
        ensures fits { block_count self.now.table + result.volume ≤ result.shown + 2 ^ 32 }
    {
        Firsts {
            shown: self.table.geometry().first_home(),
            volume: self.volume.log().first_home(),
        }
    }

    // Returns the journal whose gate this block is.
    pub(crate) fn gate_of(&self, block: u32) -> Option<u32>
        ensures { IfSome result (λ j. (j < journals_of self.now.table.layout)
            × (block ≡ gate_block self.now.table.slots j)) }
    {
        if self.failed {
            return None;
        }
        self.shown.journal_of_gate(block)
    }

    // Opens the gate of a journal, and commits its batch to the log. If this fails, a crash may leave the gate open or
    // closed.
    pub(crate) fn open_gate(
        &mut self,
        journal: u32,
        at: u64,
        bytes: &[u8],
    ) -> Result<(), DeviceFault>
        requires there { journal < journals_of self.old.table.layout }
        requires at { at ≡ 4096 * gate_block self.old.table.slots journal }
        requires fits { at + 1 ≤ length (seen_of self.old.memory) }
        requires byte { bytes.now ≡ 0xA7 ∷ [] }
        ensures { (IsErr result × (self.new ≡ self.old)) ⊎ WritesOn D.Device self.old (write at bytes.now) self.new }
    {
        let firsts = self.firsts();
        if self.failed {
            return Err(DeviceFault);
        }
        let Ok(Some(batch)) = self.shown.batch_in(journal) else {
            return Err(DeviceFault);
        };
        one_reading();
        self.failed = true;
        put_batch(&mut self.pager, &mut self.shown, batch, firsts)?;
        let outcome = commit_with_room(&mut self.pager);
        self.failed = outcome.is_err();
        self.past = Past::with_write(&self.past, &at, bytes, self.pager.device());
        match outcome {
            Ok(()) => Ok(()),
            Err(_) => Err(DeviceFault),
        }
    }

    // Closes the gate of a journal.
    pub(crate) fn close_gate(
        &mut self,
        journal: u32,
        at: u64,
        bytes: &[u8],
    ) -> Result<(), DeviceFault>
        requires there { journal < journals_of self.old.table.layout }
        requires at { at ≡ 4096 * gate_block self.old.table.slots journal }
        requires fits { at + 1 ≤ length (seen_of self.old.memory) }
        requires byte { bytes.now ≡ 0 ∷ [] }
        ensures { (IsErr result × (self.new ≡ self.old)) ⊎ WritesOn D.Device self.old (write at bytes.now) self.new }
    {
        if self.failed {
            return Err(DeviceFault);
        }
        if !self.shown.close(journal) {
            return Err(DeviceFault);
        }
        one_reading();
        self.past = Past::with_write(&self.past, &at, bytes, self.pager.device());
        Ok(())
    }

    // Writes a block that recovery doesn't read.
    pub(crate) fn write_block(
        &mut self,
        block: u32,
        at: u64,
        bytes: &[u8; 4096],
    ) -> Result<(), DeviceFault>
        requires at { at ≡ 4096 * block }
        requires fits { at + 4096 ≤ length (seen_of self.old.memory) }
        ensures { (IsErr result × (self.new ≡ self.old)) ⊎ WritesOn D.Device self.old (write at bytes.now) self.new }
    {
        if self.failed {
            return Err(DeviceFault);
        }
        if !self.shown.admits(block) {
            return Err(DeviceFault);
        }
        match self.shown.write(block, bytes) {
            Ok(()) => {}
            Err(_) => return Err(DeviceFault),
        }
        one_reading();
        self.past = Past::with_write(&self.past, &at, &bytes[..], self.pager.device());
        Ok(())
    }

    // Makes writes durable. What a gate committed is durable already, and the rest is kept in memory.
    pub(crate) fn settle(&mut self) -> Result<(), DeviceFault>
        ensures { (IsErr result × (self.new ≡ self.old)) ⊎ WritesOn D.Device self.old sync self.new }
    {
        if self.failed {
            return Err(DeviceFault);
        }
        self.past = Past::with_sync(&self.past, self.pager.device());
        Ok(())
    }

    // Reads a home block that has no record in an open journal.
    fn read_home(&mut self, block: u32, buffer: &mut [u8; 4096]) -> Result<(), DeviceFault>
        requires within { block < block_count self.old.table }
        ensures on { (IsErr result × (self.new ≡ self.old)) ⊎ ReadsOn D.Device self.old self.new }
        ensures bytes { D.is_honest self.old.device
            → OnOk result (buffer.new ≡ block_at (seen_of self.old.memory) block) }
    {
        let firsts = self.firsts();
        if self.failed {
            return Err(DeviceFault);
        }
        if block < firsts.shown {
            return Err(DeviceFault);
        }
        if self.shown.has_record_of(block) {
            return Err(DeviceFault);
        }
        recovered_from();
        let outcome = self.pager.read(moved_home(firsts, block), buffer);
        self.past = Past::with_calls(&self.past, self.pager.device());
        match outcome {
            Ok(()) => Ok(()),
            Err(_) => Err(DeviceFault),
        }
    }

    // Reads a block that is known.
    pub(crate) fn read_block(
        &mut self,
        block: u32,
        buffer: &mut [u8; 4096],
    ) -> Result<(), DeviceFault>
        requires within { block < block_count self.old.table }
        ensures on { (self.new ≡ self.old) ⊎ ReadsOn D.Device self.old self.new }
        ensures bytes { D.is_honest self.old.device
            → OnOk result (buffer.new ≡ block_at (seen_of self.old.memory) block) }
    {
        if self.failed {
            return Err(DeviceFault);
        }
        if block == 0 {
            *buffer = self.table.to_block();
            return Ok(());
        }
        if let Some(bytes) = self.shown.block(block) {
            *buffer = *bytes;
            return Ok(());
        }
        self.read_home(block, buffer)
    }
}
