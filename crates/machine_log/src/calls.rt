// The calls of the disk, before they are counted.
ghost use Rattle.std.specs.Prelude.{◌≡◌, ◌⊎◌, ℕ, ◌+◌, ◌*◌, ◌^◌, ◌<◌, ◌≤◌, [], ◌∷◌, length, slice_index, slice_range};
ghost use Rattle.std.specs.Prelude.{is_ok, IsErr, IfSome, OnOk, if◌then◌else◌};
ghost use Rattle.device.specs.Count.{raised};
ghost use Rattle.device.specs.Memory.{seen_of, moment_of};
ghost use Rattle.device.specs.Memory.DiskChange.{write, sync};
ghost use Rattle.volume_codec.specs.Super.{block_count};
ghost use Rattle.machine_log.specs.inside.Keeping.{AreMoments, ReadsOn, WritesOn, with_counts};

use crate::parts::DiskParts;
use device::{Device, DeviceFault, raise};
use page_entry::PAGE;
use std::alloc::Allocator;

// The byte that opens a gate, and the byte that closes it.
const OPEN: u8 = 0xA7;

const CLOSED: u8 = 0;

impl<D: Device, A: Allocator + Copy> DiskParts<D, A> {
    // States the length of the disk: that of its table's blocks, which are fewer than 2^32.
    pub(crate) fn is_long(&self)
        ensures long { length (seen_of self.now.memory) ≡ 4096 * block_count self.now.table }
        ensures small { block_count self.now.table < 2 ^ 32 }
    {
        let _ = &self.alloc;
    }

    // States that the moments of the disk and of the device are in order.
    pub(crate) fn is_timed(&self)
        ensures { AreMoments (moment_of self.now.memory) (D.moment self.now.device) self.now.moments }
    {
        let _ = &self.alloc;
    }

    // Returns the byte of a gate, if the block is one.
    fn gate_byte(&self, block: u32) -> Option<u8>
        ensures { IfSome result (λ byte. slice_index (seen_of self.now.memory) (4096 * block) ≡ byte) }
    {
        if self.failed {
            return None;
        }
        let Some(journal) = self.gate_of(block) else {
            return None;
        };
        if self.shown.is_open(journal) {
            return Some(OPEN);
        }
        Some(CLOSED)
    }

    // Reads a byte of a gate, or a block.
    pub(crate) fn fetch(&mut self, at: u64, buffer: &mut [u8]) -> Result<(), DeviceFault>
        requires within { at + length buffer.old ≤ length (seen_of self.old.memory) }
        ensures on { (self.new ≡ self.old) ⊎ ReadsOn D.Device self.old self.new }
        ensures bytes { D.is_honest self.old.device → OnOk result
            (buffer.new ≡ slice_range (seen_of self.old.memory) at (at + length buffer.old)) }
    {
        self.is_long();
        if at % PAGE != 0 {
            return Err(DeviceFault);
        }
        if buffer.len() == 1 {
            let Some(byte) = self.gate_byte((at / PAGE) as u32) else {
                return Err(DeviceFault);
            };
            buffer[0] = byte;
            return Ok(());
        }
        if buffer.len() != PAGE as usize {
            return Err(DeviceFault);
        }
        let mut bytes = [0; 4096];
        match self.read_block((at / PAGE) as u32, &mut bytes) {
            Ok(()) => {}
            Err(fault) => return Err(fault),
        }
        buffer.copy_from_slice(&bytes);
        Ok(())
    }

    // Opens or closes a gate.
    fn turn_gate(&mut self, block: u32, at: u64, bytes: &[u8]) -> Result<(), DeviceFault>
        requires one { length bytes.now ≡ 1 }
        requires at { at ≡ 4096 * block }
        requires fits { at + 1 ≤ length (seen_of self.old.memory) }
        ensures { (IsErr result × (self.new ≡ self.old)) ⊎ WritesOn D.Device self.old (write at bytes.now) self.new }
    {
        let Some(journal) = self.gate_of(block) else {
            return Err(DeviceFault);
        };
        if bytes[0] == OPEN {
            return self.open_gate(journal, at, bytes);
        }
        if bytes[0] == CLOSED {
            return self.close_gate(journal, at, bytes);
        }
        Err(DeviceFault)
    }

    // Writes a byte of a gate, or a block.
    pub(crate) fn store(&mut self, at: u64, bytes: &[u8]) -> Result<(), DeviceFault>
        requires within { at + length bytes.now ≤ length (seen_of self.old.memory) }
        ensures { (IsErr result × (self.new ≡ self.old)) ⊎ WritesOn D.Device self.old (write at bytes.now) self.new }
    {
        self.is_long();
        if at % PAGE != 0 {
            return Err(DeviceFault);
        }
        if bytes.len() == 1 {
            return self.turn_gate((at / PAGE) as u32, at, bytes);
        }
        if bytes.len() != PAGE as usize {
            return Err(DeviceFault);
        }
        let mut block = [0; 4096];
        block.copy_from_slice(bytes);
        self.write_block((at / PAGE) as u32, at, &block)
    }

    // Counts a call, and returns its outcome.
    pub(crate) fn count(&mut self, outcome: Result<(), DeviceFault>) -> Result<(), DeviceFault>
        ensures same { result ≡ outcome }
        ensures counted { self.new ≡ with_counts self.old (raised self.old.memory.calls)
            (if is_ok outcome then self.old.memory.faults else raised self.old.memory.faults) }
    {
        raise(&mut self.calls);
        if outcome.is_err() {
            raise(&mut self.faults);
        }
        outcome
    }
}
