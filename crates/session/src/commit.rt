// A commit, from the beginning of its mark to its acknowledgement.
ghost use Rattle.std.specs.Prelude.{ℕ, ◌≡◌, ◌≢◌, ◌↔◌, true, false, IfSome, IfNone, IsTrue};
ghost use Rattle.page_entry.specs.declared.refusal.Refusal.{Refusal};
ghost use Rattle.spaces.specs.declared.change.Change.TheVariants.{Checkpoint};
ghost use Rattle.machine.specs.declared.act.Reply.TheVariants as replied;
ghost use Rattle.session.specs.CarriedOut.{CarriesOut};
ghost use Rattle.session.specs.Commits.{BeginsMark, RefusesMark, WritesUntil, AnswersCommit, reports_unmade};
ghost use Rattle.session.specs.Lengths.{reports_begun, EndsWaiting};
ghost use Rattle.session.specs.inside.Changing.{BeginsChange};
ghost use Rattle.session.specs.inside.Made.{Waits};

use crate::paging::{is_begun, is_flushed};
use crate::requests::Requests;
use device::Device;
use machine::{Act, MsyncFlags, Reply, Step};
use page_entry::{ProcessorNumber, Refusal};
use std::alloc::Allocator;

impl<D: Device, A: Allocator + Copy> Requests<D, A> {
    /// Commits all stores. Returns the number of the mark, which is durable. Otherwise fails with the reply to the step
    /// that stopped the commit: a refusal, or that there was nothing to do.
    pub fn commit(&mut self, p: ProcessorNumber) -> Result<u32, Reply>
        ensures answers { CarriesOut D.Device self.old.machine self.old.notes (AnswersCommit p self.old.notes result)
            self.new.machine self.new.notes }
        ensures files { self.new.files ≡ self.old.files }
    {
        let begun = self.begin_mark(p);
        if !is_begun(&begun) {
            return Err(begun);
        }
        let before = self.notes();
        let changed = self.change(p);
        let Some(mark) = mark_of(&changed) else {
            return Err(changed);
        };
        if !before.has_unmarked {
            return Ok(mark);
        }
        let written = self.write_out(p, mark);
        if !is_committed(&written, mark) {
            return Err(written);
        }
        Ok(mark)
    }

    // Begins a mark. If write-outs must be done first, it makes write-out steps.
    fn begin_mark(&mut self, p: ProcessorNumber) -> Reply
        ensures begins { reports_begun result ≡ true → BeginsChange D.Device self.old.machine self.old.notes
            (BeginsMark p) p Checkpoint self.new.machine self.new.notes }
        ensures refuses { reports_begun result ≡ false → CarriesOut D.Device self.old.machine self.old.notes
            (RefusesMark p result) self.new.machine self.new.notes }
        ensures files { self.new.files ≡ self.old.files }
    {
        let msync = Step {
            p,
            act: Act::Msync {
                va: 0,
                len: 0,
                flags: MsyncFlags::SYNC,
            },
        };
        loop {
            self.has_phases();
            let begun = self.make(&msync);
            if !is_busy(&begun) {
                return begun;
            }
            if let Some(answer) = self.wait(p) {
                return answer;
            }
        }
    }

    /// Makes the write-out step that a busy attempt waits for. Returns `None` if this step was made.
    ///
    /// Otherwise no other attempt follows, and it returns the answer to the attempt: that it was busy, or the refusal
    /// of this step.
    pub(crate) fn wait(&mut self, p: ProcessorNumber) -> Option<Reply>
        ensures ends { IfSome result (λ answer. CarriesOut D.Device self.old.machine self.old.notes
            (EndsWaiting p answer) self.new.machine self.new.notes) }
        ensures unbegun { IfSome result (λ answer. reports_begun answer ≡ false) }
        ensures waits { IfNone result (CarriesOut D.Device self.old.machine self.old.notes (Waits p)
            self.new.machine self.new.notes) }
        ensures files { self.new.files ≡ self.old.files }
    {
        let flushed = self.flush(p);
        if is_flushed(&flushed) {
            return None;
        }
        if is_nothing(&flushed) {
            return Some(Reply::Refused(Refusal::Busy));
        }
        Some(flushed)
    }

    // Makes write-out steps until one commits the mark, or isn't made. Returns the reply to the last one.
    fn write_out(&mut self, p: ProcessorNumber, mark: u32) -> Reply
        ensures writes { CarriesOut D.Device self.old.machine self.old.notes (WritesUntil p mark result)
            self.new.machine self.new.notes }
        ensures ends { result ≢ replied.Committed mark → reports_unmade result ≡ true }
        ensures files { self.new.files ≡ self.old.files }
    {
        loop {
            let flushed = self.flush(p);
            if is_committed(&flushed, mark) {
                return flushed;
            }
            if !is_flushed(&flushed) {
                return flushed;
            }
        }
    }
}

// Returns the mark that was made, if a reply reports it.
fn mark_of(reply: &Reply) -> Option<u32>
    ensures some { IfSome result (λ mark. reply.now ≡ replied.Marked mark) }
    ensures none { IfNone result ((mark : ℕ) → reply.now ≢ replied.Marked mark) }
{
    if let Reply::Marked(mark) = reply {
        Some(*mark)
    } else {
        None
    }
}

// Whether a mark was committed.
fn is_committed(reply: &Reply, mark: u32) -> bool
    ensures { IsTrue result ↔ (reply.now ≡ replied.Committed mark) }
{
    matches!(reply, Reply::Committed(committed) if *committed == mark)
}

/// Whether a reply is `Busy`: commits must be done first.
pub(crate) fn is_busy(reply: &Reply) -> bool
    ensures { IsTrue result ↔ (reply.now ≡ replied.Refused Refusal.Busy) }
{
    matches!(reply, Reply::Refused(Refusal::Busy))
}

// Whether there was nothing to do.
fn is_nothing(reply: &Reply) -> bool
    ensures { IsTrue result ↔ (reply.now ≡ replied.Nothing) }
{
    matches!(reply, Reply::Nothing)
}
