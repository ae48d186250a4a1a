// Loads and stores of many bytes of a page at once.
ghost use Rattle.std.specs.Prelude.{◌≡◌, true, false, length, take};
ghost use Rattle.cpu.specs.AtOnce.{frame_cached, count_at_once};
ghost use Rattle.machine.specs.AtOnce.{load_steps, load_replies, store_steps, store_replies};
ghost use Rattle.machine.specs.Runs.{StepsTaken};

use crate::Machine;
use device::Device;
use page_entry::ProcessorNumber;
use std::alloc::Allocator;

impl<D: Device, A: Allocator + Copy> Machine<D, A> {
    /// Returns up to `count` bytes from an address of a processor's current space, up to the end of its page. The
    /// processor must be able to load and store, and its TLB must have an entry of the page. The result equals the
    /// replies to separate load steps, so whatever holds of steps holds of it. The machine stays unchanged. Otherwise
    /// returns no bytes, and `enter` reports the reason.
    pub fn load_run(&self, p: ProcessorNumber, va: u64, count: usize) -> &[u8]
        ensures loaded { StepsTaken D.Device self.now (load_steps p va result.now) (load_replies result.now) self.now }
        ensures count { length result.now
            ≡ count_at_once (frame_cached self.now.state.hardware.shootdown p va false) va count }
    {
        cpu::load_run(&self.layers.shootdown, &self.layers.frames, p, va, count)
    }

    /// Stores bytes at an address of a processor's current space, up to the end of its page, and returns the number of
    /// bytes stored. The processor must be able to load and store. Its TLB must have a writable and dirty entry of the
    /// page, as it has after a store there. The effect equals that of separate store steps, so whatever holds of steps
    /// holds of it. Otherwise stores nothing, and `enter` reports the reason.
    pub fn store_run(&mut self, p: ProcessorNumber, va: u64, bytes: &[u8]) -> usize
        ensures stored { StepsTaken D.Device self.old (store_steps p va (take result bytes.now))
            (store_replies (take result bytes.now)) self.new }
        ensures count { result
            ≡ count_at_once (frame_cached self.old.state.hardware.shootdown p va true) va (length bytes.now) }
    {
        cpu::store_run(
            &self.layers.shootdown,
            &mut self.layers.frames,
            p,
            va,
            bytes,
        )
    }
}
