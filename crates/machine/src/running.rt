// Runs: makes steps one at a time, and states what holds of all of them together.
ghost use Rattle.std.specs.Prelude.{ℕ, ◌≡◌, ◌≢◌, ◌↔◌, ◌++◌, ◌≤◌, true, false, List, [], ◌∷◌, length, Contains};
ghost use Rattle.page_entry.specs.declared.numbers.FilePage.{FilePage};
ghost use Rattle.page_entry.specs.declared.refusal.Refusal.{Refusal};
ghost use Rattle.frames.specs.Frames.{frame_at, bytes_of};
ghost use Rattle.checkpoint.specs.Checkpoint.{Holds};
ghost use Rattle.device.specs.Device.{LeavesOnly, Only};
ghost use Rattle.machine.specs.declared.act.Reply.{Reply};
ghost use Rattle.machine.specs.declared.act.Step.{Step};
ghost use Rattle.volume_codec.specs.Files.{File};
ghost use Rattle.machine.specs.State.{State, Whole};
ghost use Rattle.machine.specs.Rules.{MarkMade, WantsMemory, mark_homes};
ghost use Rattle.machine.specs.Durability.{AreFrozenProtected, HasPart, IsInFile};
ghost use Rattle.machine.specs.Crashes.{Begins, StepIsSafe, Throughout};
ghost use Rattle.history.specs.History.{after, has_unmarked, is_touched, memory_of};
ghost use Rattle.machine.specs.Observed.{observe_all};
ghost use Rattle.machine.specs.Laws.{EachStep, FaultsAreServed, IsLawful};
ghost use Rattle.history.specs.Reading.{ReadsBack};
ghost use Rattle.machine.specs.Steps.{observed_first};
ghost use Rattle.machine.specs.Reached.{IsReached};
ghost use Rattle.history.specs.Stops.{Stops, StopsInStep};
ghost use Rattle.machine.specs.Runs.{StepTaken, StepsTaken};

use crate::{Machine, Reply, Step};
use device::Device;
use std::alloc::Allocator;

impl<D: Device, A: Allocator + Copy> Machine<D, A> {
    /// A machine that was just booted over a volume at rest is reached by a run without steps.
    pub fn begin(&self)
        ensures { (files : List File) → Begins D.Device files self.now
            → IsReached D.Device files self.now [] [] self.now }
    {}

    /// Makes one step and returns its reply, for a caller that makes one step at a time. The step and its reply extend
    /// any steps that led to this machine, from any start and over any device (`longer`). So a machine that a run
    /// reached is reached by a longer run.
    ///
    /// After a run, a crash within this step leaves bytes that read back by the history before it. A crash after the
    /// step leaves bytes that read back by the history with it (`safe`). The stage of the write-out determines whether
    /// a crash within the step leaves its old or its new files (`stops`).
    pub fn enter(&mut self, step: &Step) -> Reply
        ensures not_full { result ≢ Reply.Refused Refusal.TraceFull }
        ensures memory { result ≡ Reply.Refused Refusal.OutOfMemory
            → WantsMemory self.old.state step.now.p step.now.act }
        ensures taken { StepTaken D.Device self.old step.now result self.new }
        ensures longer { (start : Whole D) (steps : List Step) (replies : List Reply)
            → StepsTaken D.Device start steps replies self.old
            → StepsTaken D.Device start (steps ++ step.now ∷ []) (replies ++ result ∷ []) self.new }
        ensures safe { (files : List File) (start : Whole D) (steps : List Step) (replies : List Reply)
            → IsReached D.Device files start steps replies self.old
            → StepIsSafe D.Device files (observe_all (observed_first files start.state) steps replies)
            self.old step.now result self.new }
        ensures stops { (files : List File) (start : Whole D) (steps : List Step) (replies : List Reply)
            → IsReached D.Device files start steps replies self.old
            → LeavesOnly D.moment D.left_since self.old.device self.new.device (StopsInStep files
            (observe_all (observed_first files start.state) steps replies).history self.old.state.write_outs) }
    {
        self.step(step)
    }

    /// States the laws of a run, once it has led to this machine:
    ///
    /// - `headline`: Each reply obeys the rules. A crash at any moment of any step, or after it, leaves bytes that
    ///   recover to the files after a durable prefix. It is a prefix of the history up to that moment.
    /// - `lawful`: Loads, stores and faults are answered by what was observed before them.
    /// - `left`: A crash now leaves bytes that recover to the files after a durable prefix of the history.
    /// - `served`: A fault that was served is really served. An access to its page that follows at once is answered.
    pub fn keeps_the_laws(&self)
        ensures headline { (files : List File) (start : Whole D) (steps : List Step) (replies : List Reply)
            → IsReached D.Device files start steps replies self.now
            → Throughout (StepIsSafe D.Device files) (observed_first files start.state) start steps replies self.now }
        ensures lawful { (files : List File) (start : Whole D) (steps : List Step) (replies : List Reply)
            → IsReached D.Device files start steps replies self.now
            → EachStep (IsLawful files) (observed_first files start.state) steps replies }
        ensures left { (files : List File) (start : Whole D) (steps : List Step) (replies : List Reply) (c : List ℕ)
            → IsReached D.Device files start steps replies self.now → D.may_leave self.now.device c
            → ReadsBack files (observe_all (observed_first files start.state) steps replies).history c }
        ensures served { (files : List File) (start : Whole D) (steps : List Step) (replies : List Reply)
            → IsReached D.Device files start steps replies self.now
            → FaultsAreServed steps replies }
    {}

    /// States what a crash leaves after a run. Consider the write-out of the mark that isn't committed, or else the
    /// oldest write-out. A durable prefix without its mark gives the old files, and a durable prefix with it the new
    /// files.
    ///
    /// - Until the step that writes its gate begins, a crash leaves the old files.
    /// - From then on until the mark is committed, a crash leaves the old or the new files.
    /// - Once the mark is committed, a crash leaves the new files.
    /// - If there is no write-out, a crash leaves the files at the last acknowledged mark.
    /// - If a device call failed, the same holds as within the step that failed.
    ///
    /// For a crash within a step, see `enter`.
    pub fn commits_at_once(&self)
        ensures { (files : List File) (start : Whole D) (steps : List Step) (replies : List Reply) (c : List ℕ)
            → IsReached D.Device files start steps replies self.now → D.may_leave self.now.device c
            → Stops files (observe_all (observed_first files start.state) steps replies).history
            self.now.state.write_outs c }
    {}

    /// After a run, stores can't reach a page that a mark gathered until one of these happens: its record is written,
    /// its bytes are copied, or a device call of a write-out fails.
    pub fn protects_frozen_pages(&self)
        ensures { (files : List File) (start : Whole D) (steps : List Step) (replies : List Reply)
            → IsReached D.Device files start steps replies self.now
            → AreFrozenProtected self.now.state }
    {}

    /// After a run, consider a page of a file that a mark doesn't gather, in memory or not. Each crash state of the
    /// device recovers to contents with the page's bytes after the history, up to the file's end (`kept`). If a page is
    /// in memory, its frame contains these bytes (`framed`).
    pub fn keeps_other_pages(&self)
        ensures kept { (files : List File) (start : Whole D) (steps : List Step) (replies : List Reply)
            (p number : ℕ) (new : State) (mark : MarkMade self.now.state p number new) (owner : FilePage) (c : List ℕ)
            → IsReached D.Device files start steps replies self.now
            → IsInFile self.now.state owner → (Contains mark.pages owner → ⊥)
            → D.may_leave self.now.device c
            → HasPart self.now.state owner (after (memory_of files)
            (observe_all (observed_first files start.state) steps replies).history owner.file owner.page) c }
        ensures framed { (files : List File) (start : Whole D) (steps : List Step) (replies : List Reply)
            (frame : ℕ) (owner : FilePage)
            → IsReached D.Device files start steps replies self.now
            → Holds self.now.state.hardware.memory frame owner
            → IsInFile self.now.state owner
            × (bytes_of (frame_at self.now.state.hardware.memory frame) ≡ after (memory_of files)
            (observe_all (observed_first files start.state) steps replies).history owner.file owner.page) }
    {}

    /// After a run, a mark gathers the pages that a store or a growth of their file touched since the previous mark.
    /// Before the first mark, since the start. The pages must begin before their file's end, and it gathers no others
    /// (`pages`). A mark writes nothing exactly if the history has no store and no change of a length since then
    /// (`nothing`).
    pub fn gathers_what_was_stored(&self)
        ensures pages { (files : List File) (start : Whole D) (steps : List Step) (replies : List Reply)
            (p number : ℕ) (new : State) (mark : MarkMade self.now.state p number new) (owner : FilePage)
            → IsReached D.Device files start steps replies self.now
            → (Contains mark.pages owner) ↔ (IsInFile self.now.state owner × (is_touched
            (observe_all (observed_first files start.state) steps replies).history owner.file owner.page ≡ true)) }
        ensures nothing { (files : List File) (start : Whole D) (steps : List Step) (replies : List Reply)
            (p number : ℕ) (new : State) (mark : MarkMade self.now.state p number new)
            → IsReached D.Device files start steps replies self.now
            → (mark_homes self.now.state mark.pages ≡ []) ↔ (has_unmarked
            (observe_all (observed_first files start.state) steps replies).history ≡ false) }
    {}

    /// Makes the steps in order, and stores the reply of each at its place.
    ///
    /// Let the machine be just booted over a volume at rest, on an honest device. Then each reply obeys the rules
    /// (`headline`) and what was observed before it (`lawful`, `served`). A crash at any moment of any step, or after
    /// it, leaves bytes that recover to the files after a durable prefix. It is a prefix of the history up to that
    /// moment (`headline`). This holds for any steps, even if device calls fail.
    pub fn run(&mut self, steps: &[Step], replies: &mut [Reply])
        requires { length replies.old ≡ length steps.now }
        ensures sized { length replies.new ≡ length steps.now }
        // These hold over any device.
        ensures taken { StepsTaken D.Device self.old steps.now replies.new self.new }
        ensures honest { D.is_honest self.new.device ↔ D.is_honest self.old.device }
        ensures len { length (D.seen self.new.device) ≡ length (D.seen self.old.device) }
        ensures headline { (files : List File) → Begins D.Device files self.old
            → Throughout (StepIsSafe D.Device files) (observed_first files self.old.state)
            self.old steps.now replies.new self.new }
        ensures lawful { (files : List File) → Begins D.Device files self.old
            → EachStep (IsLawful files) (observed_first files self.old.state) steps.now replies.new }
        ensures served { (files : List File) → Begins D.Device files self.old
            → FaultsAreServed steps.now replies.new }
        // This also holds in the middle of a run.
        ensures longer { (start : Whole D) (earlier : List Step) (replied : List Reply)
            → StepsTaken D.Device start earlier replied self.old
            → StepsTaken D.Device start (earlier ++ steps.now) (replied ++ replies.new) self.new }
    {
        self.make_all(steps, replies);
        self.keeps_the_laws();
    }
}
