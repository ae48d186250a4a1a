// A run over a volume with a log. It is made once to learn its calls and replies, and again for each crash.
ghost use Rattle.std.specs.Prelude.{◌≡◌, ◌≢◌, ◌↔◌, ◌<◌, ◌≤◌, ℕ, List, length, map, slice_get, Some, Err};
ghost use Rattle.std.specs.Prelude.{IfOk, IfErr, IsTrue};
ghost use Rattle.device.specs.Memory.{seen_of};
ghost use Rattle.volume_codec.specs.Files.{File};
ghost use Rattle.log_volume.specs.Files.{RecoversToLog};
ghost use Rattle.machine.specs.declared.act.Reply.TheVariants.{Committed};
ghost use Rattle.crash_states.specs.Calls.{device_calls_of};
ghost use Rattle.crash_table.specs.LogTrials.{HasItsCallsByLog, HasNoTrialByLog, IsAtMarkByLog, LeavesByLog, MayFail};

use crate::crashed_run::CrashedRun;
use crate::files::are_same;
use crate::first_run::{FirstRun, steps_before};
use crate::log_reading::read_files;
use crate::running::{list, run_by_log};
use crate::trial::Trial;
use crate::twin::Twin;
use crash_states::{Call, CrashFault, Listing};
use device::MemDisk;
use machine::{Reply, Shape, Step};
use std::alloc::Allocator;
use std::marker::Model;

/// A run on a copy of a disk that has a volume with a log, with its replies and the calls of the disk.
#[derive(Drop)]
pub struct LogTrial<'a, A: Allocator + Copy> {
    alloc: A,
    twin: &'a Twin<'a, A>,
    shape: Shape,
    steps: &'a [Step],
    listed: FirstRun<A>,
    // The same run over the volume in layout 4, which has the files at the marks.
    other: Trial<'a, A>,
}

impl<'a, A: Allocator + Copy> Model for LogTrial<'a, A> {
    ghost use Rattle.std.specs.Prelude.{◌≡◌};
    ghost use Rattle.crash_states.specs.Calls.{device_calls_of};
    ghost use Rattle.crash_table.specs.Trials.{TrialValue};
    ghost use Rattle.crash_table.specs.Runs.{AreCallsByLog};

    ghost Value = { TrialValue };

    ghost view = { λ t. record {
      image = t.twin.now.image;
      shape = t.shape;
      steps = t.steps.now;
      replies = t.listed.replies.items;
      counts = t.listed.counts.items;
      calls = device_calls_of t.listed.calls.items;
    } };

    ghost invariant = { λ t. (t.other.image ≡ t.twin.now.shown) × (t.other.shape ≡ t.shape)
        × (t.other.steps ≡ t.steps.now)
        × AreCallsByLog t.twin.now.image t.shape t.steps.now t.listed.replies.items t.listed.counts.items
        (device_calls_of t.listed.calls.items) };
}

impl<'a, A: Allocator + Copy> LogTrial<'a, A> {
    /// Makes a run on a copy of a disk that has this volume with a log.
    ///
    /// Fails with `Refused` if the volume can't be opened, or if `engine::start` refuses the disk that shows it, for
    /// another cause than memory. Otherwise it can fail only with `Memory`.
    pub fn new(
        alloc: A,
        twin: &'a Twin<'a, A>,
        shape: Shape,
        steps: &'a [Step],
    ) -> Result<Self, CrashFault>
        ensures made { IfOk result (λ trial. (trial.image ≡ twin.now.image) × (trial.shape ≡ shape)
            × (trial.steps ≡ steps.now)) }
        ensures calls { IfOk result HasItsCallsByLog }
        ensures refused { IfErr result (HasNoTrialByLog twin.now shape) }
    {
        let listed = match list(alloc, twin.image(), shape, steps) {
            Ok(listed) => listed,
            Err(fault) => return Err(fault),
        };
        match Trial::new(alloc, twin.shown(), shape, steps) {
            Ok(other) => Ok(LogTrial {
                alloc,
                twin,
                shape,
                steps,
                listed,
                other,
            }),
            Err(fault) => Err(fault),
        }
    }

    // Makes the run again, and returns the mark whose files the crash left. Fails with the cause if there is no such
    // mark.
    fn left(&self, fails: u64, choice: &[u8]) -> Result<u32, CrashFault>
        ensures { IfOk result (LeavesByLog self.now fails choice.now) }
    {
        let copy = Listing::new(self.alloc, self.twin.image(), fails)?;
        let (after, replies) = run_by_log(self.alloc, copy, self.shape, self.steps)?;
        let mut disk = self
            .listed
            .stopped(fails, self.steps, after, &replies, choice)?;
        self.mark_in(&replies, &mut disk)
    }

    // Returns the mark whose files a disk has, by these replies.
    fn mark_in(&self, replies: &[Reply], disk: &mut MemDisk<A>) -> Result<u32, CrashFault>
        ensures { IfOk result (λ number. (files : List File) × RecoversToLog self.now.image files
            × (found : List File) × RecoversToLog (seen_of disk.old) found
            × IsAtMarkByLog files self.now.shape self.now.steps replies.now found number) }
    {
        let found = read_files(self.alloc, disk)?;
        let before = self.twin.files();
        let number = self.other.mark_of(replies, &found)?;
        if !are_first(number, before, &found) {
            return Err(CrashFault::Otherwise);
        }
        if !is_durable(replies, number) {
            return Err(CrashFault::Otherwise);
        }
        Ok(number)
    }
}

impl<'a, A: Allocator + Copy> CrashedRun<A> for LogTrial<'a, A> {
    ghost use Rattle.crash_table.specs.LogTrials.{LeavesByLog, MayFail};

    ghost bytes = { λ trial. trial.image };

    ghost made = { λ trial. trial.calls };

    ghost replied = { λ trial. trial.replies };

    ghost counted = { λ trial. trial.counts };

    ghost leaves = { λ trial. LeavesByLog trial };

    ghost may_fail = { λ trial why. MayFail why };

    fn image(&self) -> &[u8] {
        self.twin.image()
    }

    fn calls(&self) -> &[Call<A>]
        ensures calls { device_calls_of result.now ≡ self.now.calls }
        ensures run { HasItsCallsByLog self.now }
    {
        &self.listed.calls
    }

    fn call_count(&self) -> usize {
        self.listed.calls.len()
    }

    fn replies(&self) -> &[Reply] {
        &self.listed.replies
    }

    fn replies_before(&self, call: u64) -> usize {
        steps_before(&self.listed.counts, call)
    }

    /// Fails with `Otherwise` if one of these holds:
    ///
    /// * The choice isn't as long as the disk.
    /// * The repeated run had other replies.
    /// * The files found are at no mark, or at a mark older than the last acknowledged one.
    ///
    /// Otherwise it can fail only with `Memory`.
    fn crash(&self, fails: u64, choice: &[u8]) -> Result<u32, CrashFault>
        ensures leaves { IfOk result (LeavesByLog self.now fails choice.now) }
        ensures otherwise { length choice.now ≢ length self.now.image → result ≡ Err CrashFault.Otherwise }
        ensures cause { IfErr result MayFail }
    {
        if choice.len() != self.image().len() {
            return Err(CrashFault::Otherwise);
        }
        match self.left(fails, choice) {
            Ok(mark) => Ok(mark),
            Err(fault) => Err(self.cause(fault)),
        }
    }

    // A volume that isn't opened again counts as a run with other replies.
    fn cause(&self, fault: CrashFault) -> CrashFault {
        match fault {
            CrashFault::Memory(cause) => CrashFault::Memory(cause),
            CrashFault::Refused(_) | CrashFault::Otherwise => CrashFault::Otherwise,
        }
    }
}

// Whether the found files are those before the run, if they are at no mark.
fn are_first<A: Allocator + Copy>(number: u32, before: &[Vec<u8, A>], found: &[Vec<u8, A>]) -> bool
    ensures { IsTrue result → number ≡ 0 → map (λ v. v.items) before.now ≡ map (λ v. v.items) found.now }
{
    number > 0 || are_same(before, found)
}

// Whether these replies acknowledge no later mark than this one.
fn is_durable(replies: &[Reply], number: u32) -> bool
    ensures { IsTrue result ↔ ((i k : ℕ) → slice_get replies.now i ≡ Some (Committed k) → k ≤ number) }
{
    for reply in replies {
        if is_later(reply, number) {
            return false;
        }
    }
    true
}

// Whether a reply acknowledges a later mark.
fn is_later(reply: &Reply, number: u32) -> bool
    ensures later { IsTrue result → (k : ℕ) × (reply.now ≡ Committed k) × (number < k) }
    ensures only { (k : ℕ) → reply.now ≡ Committed k → number < k → IsTrue result }
{
    if let Reply::Committed(later) = reply {
        number < *later
    } else {
        false
    }
}
