// A run that was made once, and what a crash leaves of it when it is made again.
ghost use Rattle.std.specs.Prelude.{◌≡◌, ◌↔◌, ◌<◌, ◌≤◌, IsTrue, IfOk, length};
ghost use Rattle.crash_states.specs.Calls.{device_calls_of};
ghost use Rattle.crash_table.specs.Calls.{steps_before};
ghost use Rattle.crash_table.specs.Crashes.{IsStopped};

use crate::same::are_same_replies;
use crash_states::{Call, CrashFault, Listing, are_until};
use device::{Device, MemDisk};
use machine::{Reply, Step};
use std::alloc::Allocator;

/// A run that was made once: its replies, and its device calls.
#[derive(Drop)]
pub struct FirstRun<A: Allocator + Copy> {
    pub replies: Vec<Reply, A>,
    /// The number of device calls after each step.
    pub counts: Vec<u64, A>,
    pub calls: Vec<Call<A>, A>,
}

impl<A: Allocator + Copy> FirstRun<A> {
    /// Returns the disk that a crash leaves when the same run was made again, up to the device call with the number
    /// `fails`. That run ended with the disk `after` and with `replies`. The crash leaves the bytes `choice` in the
    /// places that were written and not synced. Fails with `Otherwise` if the run isn't the first run up to there, or
    /// if `choice` and the disk differ in length.
    pub fn stopped(
        &self,
        fails: u64,
        steps: &[Step],
        after: Listing<A>,
        replies: &[Reply],
        choice: &[u8],
    ) -> Result<MemDisk<A>, CrashFault>
        ensures { IfOk result (IsStopped (device_calls_of self.now.calls.items) fails steps.now replies.now choice.now
            after) }
    {
        let is_up_to_call = self.is_up_to(
            fails,
            steps.len(),
            after.calls(),
            after.faults(),
            replies.len(),
        );
        let (inner, calls) = after.into_parts()?;
        let are_its_calls = are_until(&calls, &self.calls, fails);
        if choice.len() != inner.bytes().len()
            || !is_up_to_call
            || !are_its_calls
            || !self.is_same(fails, replies)
        {
            return Err(CrashFault::Otherwise);
        }
        let mut disk = inner;
        disk.stop(choice);
        Ok(disk)
    }

    // Whether a run was made up to the device call with the number `fails`, which failed. If there is no such call,
    // whether the run was made up to its end. The other arguments count the steps, the calls, the failed calls and the
    // replies of the run.
    fn is_up_to(&self, fails: u64, steps: usize, calls: u64, faults: u64, replies: usize) -> bool
        ensures failed { 0 < fails → fails ≤ length self.now.calls.items
            → (IsTrue result ↔ ((calls ≡ fails) × (faults ≡ 1))) }
        ensures none { fails ≡ 0 → (IsTrue result ↔ ((faults ≡ 0) × (replies ≡ steps))) }
        ensures past { length self.now.calls.items < fails → (IsTrue result ↔ ((faults ≡ 0) × (replies ≡ steps))) }
    {
        if fails > 0 && fails <= self.calls.len() as u64 {
            calls == fails && faults == 1
        } else {
            faults == 0 && replies == steps
        }
    }

    // Whether these replies are those of the first run, up to the device call of this number.
    fn is_same(&self, fails: u64, replies: &[Reply]) -> bool {
        let before = steps_before(&self.counts, fails);
        match (self.replies.get(0..before), replies.get(0..before)) {
            (Some(first), Some(again)) => are_same_replies(first, again),
            _ => false,
        }
    }
}

/// Returns the number of steps that were answered before the device call of this number. `counts` contains the number
/// of calls after each step.
pub fn steps_before(counts: &[u64], call: u64) -> usize
    ensures { result ≡ steps_before counts.now call }
{
    for i in 0..counts.len() {
        if counts[i] >= call {
            return i;
        }
    }
    counts.len()
}
