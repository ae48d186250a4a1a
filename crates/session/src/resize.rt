// A new length of a file, from the beginning to the end of its change.
ghost use Rattle.std.specs.Prelude.{◌≡◌, true, false};
ghost use Rattle.page_entry.specs.declared.refusal.Refusal.{Refusal};
ghost use Rattle.spaces.specs.declared.change.Change.TheVariants.{SetLength};
ghost use Rattle.machine.specs.declared.act.Reply.TheVariants as replied;
ghost use Rattle.session.specs.CarriedOut.{CarriesOut};
ghost use Rattle.session.specs.Lengths.{reports_begun, AnswersLength, RefusesLength};
ghost use Rattle.session.specs.Turns.{InTurn};
ghost use Rattle.session.specs.inside.Changing.{BeginsChange};
ghost use Rattle.session.specs.inside.Made.{BeginsLength, AttemptsLength};

use crate::commit::is_busy;
use crate::paging::{is_begun, is_no_frame};
use crate::requests::Requests;
use device::Device;
use machine::{Act, Reply, Step};
use page_entry::ProcessorNumber;
use std::alloc::Allocator;

impl<D: Device, A: Allocator + Copy> Requests<D, A> {
    /// Sets the length of a file, and returns the reply to the change. The new length isn't committed.
    ///
    /// If no change was begun, it returns the reply to the last step that would have begun it. The reply is `Fine` if
    /// the file has this length already. Otherwise it is a refusal. If this step was busy, and the write-out step that
    /// it waits for was refused, it returns that refusal.
    pub fn set_length(&mut self, p: ProcessorNumber, file: u16, length: u64) -> Reply
        ensures { CarriesOut D.Device self.old.machine self.old.notes
            (InTurn self.old.files (AnswersLength p file length result) self.new.files)
            self.new.machine self.new.notes }
    {
        let begun = self.begin_length(p, file, length);
        if !is_begun(&begun) {
            return begun;
        }
        self.change(p)
    }

    // Begins to set a length. If write-outs must be done first, it makes write-out steps.
    fn begin_length(&mut self, p: ProcessorNumber, file: u16, length: u64) -> Reply
        ensures begins { reports_begun result ≡ true → BeginsChange D.Device self.old.machine self.old.notes
            (InTurn self.old.files (λ _. BeginsLength p file length) self.new.files) p (SetLength file length)
            self.new.machine self.new.notes }
        ensures refuses { reports_begun result ≡ false → CarriesOut D.Device self.old.machine self.old.notes
            (InTurn self.old.files (RefusesLength p file length result) self.new.files)
            self.new.machine self.new.notes }
    {
        loop {
            let begun = self.begin_in_room(p, file, length);
            if !is_busy(&begun) {
                return begun;
            }
            if let Some(answer) = self.wait(p) {
                return answer;
            }
        }
    }

    // Begins to set a length. If too few frames are free for the file's new pages, it frees more.
    fn begin_in_room(&mut self, p: ProcessorNumber, file: u16, length: u64) -> Reply
        ensures begins { reports_begun result ≡ true → BeginsChange D.Device self.old.machine self.old.notes
            (InTurn self.old.files (AttemptsLength p file length result) self.new.files) p (SetLength file length)
            self.new.machine self.new.notes }
        ensures refuses { reports_begun result ≡ false → CarriesOut D.Device self.old.machine self.old.notes
            (InTurn self.old.files (AttemptsLength p file length result) self.new.files)
            self.new.machine self.new.notes }
    {
        let set = Step {
            p,
            act: Act::SetLength { file, length },
        };
        loop {
            self.has_phases();
            let begun = self.make(&set);
            if !is_no_frame(&begun) {
                return begun;
            }
            if !self.make_room(p) {
                return begun;
            }
        }
    }
}
