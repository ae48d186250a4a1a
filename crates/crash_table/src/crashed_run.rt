// A run that is made again for each crash.
ghost use Rattle.std.specs.Prelude.{◌≡◌, ℕ, List, length, IfOk};
ghost use Rattle.machine.specs.declared.act.Reply.{Reply};
ghost use Rattle.crash_states.specs.Calls.{DeviceCall, device_calls_of};
ghost use Rattle.crash_states.specs.declared.crash_fault.CrashFault.{CrashFault};
ghost use Rattle.crash_table.specs.Calls.{steps_before};

use crash_states::{Call, CrashFault};
use machine::Reply;
use std::alloc::Allocator;

/// A run on a copy of a disk, which is made again for each crash: up to a device call, and within it.
pub trait CrashedRun<A: Allocator + Copy> {
    /// The bytes of the disk before the run.
    ghost bytes: { Self → List ℕ };

    /// The device calls of the run.
    ghost made: { Self → List DeviceCall };

    /// The replies of the run.
    ghost replied: { Self → List Reply };

    /// The number of device calls after each step.
    ghost counted: { Self → List ℕ };

    /// A crash within the device call of this number, which leaves these bytes in unsynced places, leaves the files at
    /// this mark.
    ghost leaves: { Self → ℕ → List ℕ → ℕ → Type 0 };

    /// This may be the cause if a row can't be made.
    ghost may_fail: { Self → CrashFault → Type 0 };

    /// Returns the bytes of the disk before the run.
    fn image(&self) -> &[u8]
        ensures { result.now ≡ bytes self.now };

    /// Returns the device calls of the run, in order. The first ones open the volume.
    fn calls(&self) -> &[Call<A>]
        ensures calls { device_calls_of result.now ≡ made self.now };

    /// Returns the number of device calls of the run.
    fn call_count(&self) -> usize
        ensures { result ≡ length (made self.now) };

    /// Returns the replies of the run.
    fn replies(&self) -> &[Reply]
        ensures { result.now ≡ replied self.now };

    /// Returns the number of replies before the device call of this number, counted from 1.
    fn replies_before(&self, call: u64) -> usize
        ensures { result ≡ steps_before (counted self.now) call };

    /// Makes the run again. Its device call with the number `fails`, counted from 1, fails. If there is no such call,
    /// no call fails. Then a crash leaves the bytes `choice` in the places that were written and not synced, and the
    /// disk is opened. Returns the newest mark whose files are found, or 0 for the files before the run.
    fn crash(&self, fails: u64, choice: &[u8]) -> Result<u32, CrashFault>
        ensures leaves { IfOk result (leaves self.now fails choice.now) };

    /// Returns the cause if a row can't be made because of this fault.
    fn cause(&self, fault: CrashFault) -> CrashFault
        ensures { may_fail self.now result };
}
