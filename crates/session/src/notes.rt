// What a session notes about the steps that were made.
ghost use Rattle.std.specs.Prelude.{ℕ, ◌≡◌, false, List, length};
ghost use Rattle.machine.specs.AtOnce.{store_replies};
ghost use Rattle.session.specs.Notes.{noted_after, noted_all, failed_by};

use machine::{Outcome, Reply};
use page_entry::Refusal;

/// What a session has to know about earlier steps.
#[derive(Clone, Copy, Debug, PartialEq, Eq)]
pub struct Notes {
    /// Whether a store or a new length isn't in any mark yet.
    pub has_unmarked: bool,
    /// Whether a reply reported that the device failed.
    pub has_failed: bool,
}

impl Notes {
    /// Returns the notes before any step.
    pub(crate) fn new() -> Self
        ensures { result ≡ record { has_unmarked = false; has_failed = false } }
    {
        Notes {
            has_unmarked: false,
            has_failed: false,
        }
    }

    /// Returns these notes, updated by one more reply.
    pub(crate) fn after(self, reply: &Reply) -> Self
        ensures { result ≡ noted_after self reply.now }
    {
        Notes {
            has_unmarked: reply.leaves_unmarked(self.has_unmarked),
            has_failed: failed_by(self.has_failed, reply),
        }
    }
}

impl Notes {
    /// Returns these notes, updated by `count` stores.
    pub(crate) fn after_stores(self, count: usize) -> Self
        ensures { (bytes : List ℕ) → length bytes ≡ count → result ≡ noted_all self (store_replies bytes) }
    {
        if count == 0 {
            self
        } else {
            self.after(&Reply::Stored)
        }
    }
}

// Whether the device failed in a step, after one more reply.
fn failed_by(before: bool, reply: &Reply) -> bool
    ensures { result ≡ failed_by before reply.now }
{
    match reply.outcome() {
        Outcome::Refused(refusal) => before || matches!(refusal, Refusal::Device),
        Outcome::Unmarked
        | Outcome::Marked(_)
        | Outcome::Committed(_)
        | Outcome::Other
        | Outcome::Nothing => before,
    }
}
