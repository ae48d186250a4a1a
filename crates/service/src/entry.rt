// An entry of a trace, and whether it counts as progress.
ghost use Rattle.std.specs.Prelude.{◌≡◌, ◌<◌, ◌+◌, if◌then◌else◌};
ghost use Rattle.service.specs.Trace.{has_done, is_progress, may_be_seen};

use machine::{Access, Act, Outcome, Reply, Step};
use page_entry::{ProcessorNumber, Refusal};

/// A step that was made, and its reply.
#[derive(Clone, Copy, PartialEq, Eq)]
pub struct Entry {
    pub step: Step,
    pub reply: Reply,
}

impl Entry {
    // Returns the entry of a step and its reply.
    pub(crate) fn of(step: &Step, reply: &Reply) -> Self
        ensures { result ≡ record { step = step.now; reply = reply.now } }
    {
        Entry {
            step: *step,
            reply: *reply,
        }
    }
}

// Returns the step with which a processor does this act.
pub(crate) fn step_of(p: ProcessorNumber, act: &Act) -> Step
    ensures { result ≡ record { p = p; act = act.now } }
{
    Step { p, act: *act }
}

// Whether a waiting processor may have waited for this act.
fn is_progress(act: &Act, reply: &Reply) -> bool
    ensures { result ≡ is_progress act.now reply.now }
{
    may_be_seen(act) && has_done(reply)
}

// Whether the reply reports that something was done, or that a device call failed.
fn has_done(reply: &Reply) -> bool
    ensures { result ≡ has_done reply.now }
{
    match reply.outcome() {
        Outcome::Refused(refusal) => matches!(refusal, Refusal::Device),
        Outcome::Nothing => false,
        Outcome::Unmarked | Outcome::Marked(_) | Outcome::Committed(_) | Outcome::Other => true,
    }
}

// Whether an act may change something that another processor sees.
fn may_be_seen(act: &Act) -> bool
    ensures { result ≡ may_be_seen act.now }
{
    match act.access() {
        Access::Load(_) | Access::Translation => false,
        Access::Store(_) | Access::Other => true,
    }
}

// Returns the number of entries that are progress, after one more entry.
pub(crate) fn progress_with(progress: u64, act: &Act, reply: &Reply) -> u64
    requires { progress < 1000000 }
    ensures { result ≡ progress + (if is_progress act.now reply.now then 1 else 0) }
{
    if is_progress(act, reply) {
        progress + 1
    } else {
        progress
    }
}
