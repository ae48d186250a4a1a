// Marks, to each of which all stores so far belong.
ghost use Rattle.std.specs.Prelude.{ℕ, List, ◌≡◌, ◌<◌, length, Some, Ok};
ghost use Rattle.std.specs.List.{All};
ghost use Rattle.spaces.specs.declared.change.Change.TheVariants.{Checkpoint};
ghost use Rattle.shootdown.specs.Calls.{HandsOut};
ghost use Rattle.machine.specs.declared.act.Act.TheVariants.{Change};
ghost use Rattle.machine.specs.inside.Sound.{IsSound};
ghost use Rattle.machine.specs.Rules.{Answers, mark_homes};
ghost use Rattle.machine.specs.inside.Layers.{state_in, IsQuiet, with_homes};
ghost use Rattle.journal.specs.LedTo.{MayBegin};
ghost use Rattle.journal.specs.Pages.{HasHome};

use crate::Reply;
use crate::layers::Layers;
use device::Device;
use page_entry::ProcessorNumber;
use std::alloc::Allocator;

impl<D: Device, A: Allocator + Copy> Layers<D, A> {
    // Begins to write out a batch of the last mark, if there is anything to write. The batch has the frozen pages, and
    // the lengths if one was set.
    fn write_out(&mut self)
        requires pages { All (HasHome self.old.table) self.old.checkpoint.frozen }
        requires batch { 0 < length (mark_homes (state_in self.old) self.old.checkpoint.frozen)
            → MayBegin self.old.write_outs self.old.marks
            (mark_homes (state_in self.old) self.old.checkpoint.frozen) }
        ensures { self.new ≡ record self.old {
          write_outs = with_homes self.old.write_outs self.old.marks
              (mark_homes (state_in self.old) self.old.checkpoint.frozen);
        } }
    {
        let pages = self.checkpoint.frozen();
        if !self.resized && pages.is_empty() {
            return;
        }
        self.write_outs
            .begin(u64::from(self.marks), &self.table, self.resized, pages);
    }

    // Rule: empty mark
    // Makes the next mark, to which all stores so far belong. The dirty pages are gathered. Stores can't reach them
    // until their records are written.
    pub(crate) fn mark(&mut self, p: ProcessorNumber) -> Reply
        requires sound { IsSound (state_in self.old) }
        requires held { HandsOut self.old.shootdown p (Ok (Some Checkpoint)) }
        ensures rules { (disk : List ℕ) → Answers (state_in self.old) disk p Change result (state_in self.new) }
        ensures quiet { IsQuiet self.old self.new }
    {
        let freezes = !self.write_outs.is_broken();
        self.checkpoint.gather(&self.spaces, &self.frames, freezes);
        self.checkpoint.protect_all(&mut self.spaces);
        self.marks += 1;
        self.write_out();
        self.resized = false;
        self.shootdown.finish(p);
        Reply::Marked(self.marks)
    }
}
