// Steps that a session makes beyond the requested ones: they serve faults and free frames.
ghost use Rattle.std.specs.Prelude.{◌≡◌, ◌↔◌, [], ◌∷◌, true, false, IsTrue};
ghost use Rattle.page_entry.specs.declared.refusal.Refusal.{Refusal};
ghost use Rattle.spaces.specs.declared.change.Change.{Change};
ghost use Rattle.shootdown.specs.declared.proc_state.ProcState.TheVariants.{Interrupted};
ghost use Rattle.shootdown.specs.Shootdown.{state_of};
ghost use Rattle.machine.specs.declared.act.Act.TheVariants as acts;
ghost use Rattle.machine.specs.declared.act.Reply.TheVariants as replied;
ghost use Rattle.session.specs.CarriedOut.{CarriesOut};
ghost use Rattle.session.specs.Ends.{MakesRoom, reports_reclaimed};
ghost use Rattle.session.specs.Lengths.{reports_begun, AnswersChange};
ghost use Rattle.session.specs.Ranges.{MakesStepsThat};
ghost use Rattle.session.specs.Steps.{Makes, reports_fixed, reports_flushed};
ghost use Rattle.session.specs.Turns.{InTurn};
ghost use Rattle.session.specs.inside.Paging.{Serves, IsUnservedPaging};
ghost use Rattle.session.specs.inside.Changing.{AreCalm, HoldsLock, IsOver, reports_made};
ghost use Rattle.session.specs.inside.Trying.{MakesRoomLater, Tries, TriesPage, WritesHome};

use crate::requests::Requests;
use device::Device;
use machine::{Act, ProcState, Reply, Step};
use page_entry::{FilePage, ProcessorNumber, Refusal};
use std::alloc::Allocator;

/// The largest number of processors of a machine.
const PROCESSORS: u8 = 16;

impl<D: Device, A: Allocator + Copy> Requests<D, A> {
    /// Serves a processor's fault. If no frame is free for it, frees one first. Returns `Fixed`, or the reply to the
    /// last attempt to serve it.
    pub(crate) fn fix(&mut self, p: ProcessorNumber, va: u64, write: bool) -> Reply
        ensures served { reports_fixed result ≡ true → CarriesOut D.Device self.old.machine self.old.notes
            (InTurn self.old.files (λ _. Serves p va write) self.new.files) self.new.machine self.new.notes }
        ensures ends { reports_fixed result ≡ false → CarriesOut D.Device self.old.machine self.old.notes
            (InTurn self.old.files (IsUnservedPaging p va write result) self.new.files)
            self.new.machine self.new.notes }
    {
        let fix = Step {
            p,
            act: Act::Fix { va, write },
        };
        let reply = self.make(&fix);
        if !is_no_frame(&reply) {
            return reply;
        }
        if !self.make_room(p) {
            return reply;
        }
        self.make(&fix)
    }

    /// Frees a frame, if this is possible. Returns whether a frame became free.
    pub(crate) fn make_room(&mut self, p: ProcessorNumber) -> bool
        ensures { CarriesOut D.Device self.old.machine self.old.notes
            (InTurn self.old.files (MakesRoom p result) self.new.files) self.new.machine self.new.notes }
    {
        if self.take_next_out(p) {
            return true;
        }
        self.make_room_later(p)
    }

    // Finishes the write-outs, then frees a frame. A page of a write-out stays in memory until the write-out is done.
    fn make_room_later(&mut self, p: ProcessorNumber) -> bool
        ensures { CarriesOut D.Device self.old.machine self.old.notes
            (InTurn self.old.files (MakesRoomLater p result) self.new.files) self.new.machine self.new.notes }
    {
        if !self.write_home(p) {
            return false;
        }
        self.take_next_out(p)
    }

    // Reclaims the next clean page. Returns whether there was one. If not, all pages were tried.
    fn take_next_out(&mut self, p: ProcessorNumber) -> bool
        ensures { CarriesOut D.Device self.old.machine self.old.notes
            (InTurn self.old.files (Tries p result) self.new.files) self.new.machine self.new.notes }
    {
        for _tried in 0..self.files().pages() {
            if self.try_next(p) {
                return true;
            }
        }
        false
    }

    // Makes all write-out steps that are left. Returns whether there was one.
    fn write_home(&mut self, p: ProcessorNumber) -> bool
        ensures { CarriesOut D.Device self.old.machine self.old.notes
            (InTurn self.old.files (λ _. WritesHome p result) self.new.files) self.new.machine self.new.notes }
    {
        let mut has_made = false;
        loop {
            let flushed = self.flush(p);
            if !is_flushed(&flushed) {
                return has_made;
            }
            has_made = true;
        }
    }

    /// Makes a write-out step.
    pub(crate) fn flush(&mut self, p: ProcessorNumber) -> Reply
        ensures makes { Makes D.Device self.old.machine self.old.notes (record { p = p; act = acts.Flush } ∷ [])
            (result ∷ []) self.new.machine self.new.notes }
        ensures files { self.new.files ≡ self.old.files }
    {
        let flush = Step { p, act: Act::Flush };
        self.make(&flush)
    }

    // Reclaims the page whose turn it is, if it is in memory and clean. Returns whether it was.
    fn try_next(&mut self, p: ProcessorNumber) -> bool
        ensures { CarriesOut D.Device self.old.machine self.old.notes
            (InTurn self.old.files (λ _. Tries p result 1) self.new.files) self.new.machine self.new.notes }
    {
        let page = self.turn();
        self.take_out(p, page)
    }

    // Reclaims a page, if it is in memory and clean. Returns whether it was.
    fn take_out(&mut self, p: ProcessorNumber, page: FilePage) -> bool
        ensures tries { CarriesOut D.Device self.old.machine self.old.notes (TriesPage p page result)
            self.new.machine self.new.notes }
        ensures files { self.new.files ≡ self.old.files }
    {
        let reclaim = Step {
            p,
            act: Act::Reclaim {
                file: page.file,
                page: page.page,
            },
        };
        self.has_phases();
        let begun = self.make(&reclaim);
        if !is_begun(&begun) {
            return false;
        }
        let changed = self.change(p);
        is_reclaimed(&changed)
    }

    /// Makes the change that a processor began. The processors that the change interrupted stall before it, and resume
    /// after it.
    pub(crate) fn change(&mut self, p: ProcessorNumber) -> Reply
        requires { (change : Change) × HoldsLock p change self.old.machine.state }
        ensures answers { MakesStepsThat D.Device self.old.machine self.old.notes (AnswersChange p result)
            self.new.machine self.new.notes }
        ensures over { IsOver self.old.machine.state self.new.machine.state }
        ensures files { self.new.files ≡ self.old.files }
        ensures made { (change : Change) → HoldsLock p change self.old.machine.state
            → reports_made change result ≡ true }
    {
        self.change_from(p, 0)
    }

    // Does the same, if no processor below number `next` is interrupted.
    fn change_from(&mut self, p: ProcessorNumber, next: ProcessorNumber) -> Reply
        requires held { (change : Change) × HoldsLock p change self.old.machine.state }
        requires calm { AreCalm next self.old.machine.state }
        ensures answers { MakesStepsThat D.Device self.old.machine self.old.notes (AnswersChange p result)
            self.new.machine self.new.notes }
        ensures over { IsOver self.old.machine.state self.new.machine.state }
        ensures files { self.new.files ≡ self.old.files }
        ensures made { (change : Change) → HoldsLock p change self.old.machine.state
            → reports_made change result ≡ true }
    {
        if next >= PROCESSORS {
            return self.make_change(p);
        }
        self.has_phases();
        if !self.is_interrupted(next) {
            return self.change_from(p, next + 1);
        }
        let ack = Step {
            p: next,
            act: Act::Ack,
        };
        self.make(&ack);
        let reply = self.change_from(p, next + 1);
        let resume = Step {
            p: next,
            act: Act::Resume,
        };
        self.make(&resume);
        reply
    }

    // Does the same, if no processor is interrupted.
    fn make_change(&mut self, p: ProcessorNumber) -> Reply
        requires held { (change : Change) × HoldsLock p change self.old.machine.state }
        requires calm { AreCalm 16 self.old.machine.state }
        ensures answers { MakesStepsThat D.Device self.old.machine self.old.notes (AnswersChange p result)
            self.new.machine self.new.notes }
        ensures over { IsOver self.old.machine.state self.new.machine.state }
        ensures files { self.new.files ≡ self.old.files }
        ensures made { (change : Change) → HoldsLock p change self.old.machine.state
            → reports_made change result ≡ true }
    {
        self.has_phases();
        let change = Step {
            p,
            act: Act::Change,
        };
        self.make(&change)
    }

    fn is_interrupted(&self, p: ProcessorNumber) -> bool
        ensures { IsTrue result ↔ (state_of self.now.machine.state.hardware.shootdown p ≡ Interrupted) }
    {
        matches!(self.machine().state(p), Ok(ProcState::Interrupted))
    }
}

/// Whether a change was begun.
pub(crate) fn is_begun(reply: &Reply) -> bool
    ensures { result ≡ reports_begun reply.now }
{
    matches!(reply, Reply::Begun)
}

// Whether a page left memory.
fn is_reclaimed(reply: &Reply) -> bool
    ensures { result ≡ reports_reclaimed reply.now }
{
    matches!(reply, Reply::Reclaimed)
}

/// Whether too few frames were free.
pub(crate) fn is_no_frame(reply: &Reply) -> bool
    ensures { IsTrue result ↔ (reply.now ≡ replied.Refused Refusal.NoFrame) }
{
    matches!(reply, Reply::Refused(Refusal::NoFrame))
}

/// Whether a write-out step was made.
pub(crate) fn is_flushed(reply: &Reply) -> bool
    ensures { result ≡ reports_flushed reply.now }
{
    matches!(reply, Reply::Going | Reply::Committed(_) | Reply::Done(_))
}
