// Consequences of a run: how many device calls it made, and what a crash leaves of it.
ghost use Rattle.std.specs.Prelude.{ℕ, ◌≡◌, ◌+◌, ◌-◌, ◌*◌, ◌^◌, ◌<◌, List, [], ◌∷◌, ◌++◌, length, sum_by};
ghost use Rattle.volume_codec.specs.Files.{File};
ghost use Rattle.volume_codec.specs.Layout.{descriptor_blocks};
ghost use Rattle.machine.specs.declared.act.Reply.{Reply};
ghost use Rattle.machine.specs.declared.act.Reply.TheVariants.{Committed, Done};
ghost use Rattle.machine.specs.declared.act.Step.{Step};
ghost use Rattle.machine.specs.State.{Whole};
ghost use Rattle.machine.specs.Rules.{MarkMade, mark_homes};
ghost use Rattle.machine.specs.Crashes.{StepIsSafe, Throughout};
ghost use Rattle.machine.specs.Laws.{EachStep, FaultsAreServed, IsLawful, ReadsBackSince};
ghost use Rattle.history.specs.Reading.{ReadsBack};
ghost use Rattle.journal.specs.Work.{Work, calls_of};
ghost use Rattle.machine.specs.Reached.{IsReached};
ghost use Rattle.machine.specs.Runs.{StepTaken, StepsTaken};
ghost use Rattle.machine.specs.Steps.{observed_first};
ghost use Rattle.machine.specs.Sums.{CallsAddUp, AskFor};
ghost use Rattle.machine.specs.Observed.{observe_all};

use device::Device;

/// What holds of each run over an honest device, even if nothing is known of its last machine.
///
/// - `headline`, `lawful` and `left`: The laws of `Machine::keeps_the_laws` hold.
/// - `since`: A crash since any machine of the run leaves bytes that read back as the files after a durable prefix. It
///   is a prefix of the history observed up to that machine, extended by some of the later steps.
pub fn runs_keep_the_laws<D: Device>(device: &D)
    ensures headline { (files : List File) (start last : Whole D) (steps : List Step) (replies : List Reply)
        → IsReached D.Device files start steps replies last
        → Throughout (StepIsSafe D.Device files) (observed_first files start.state) start steps replies last }
    ensures lawful { (files : List File) (start last : Whole D) (steps : List Step) (replies : List Reply)
        → IsReached D.Device files start steps replies last
        → EachStep (IsLawful files) (observed_first files start.state) steps replies }
    ensures left { (files : List File) (start last : Whole D) (steps : List Step) (replies : List Reply) (c : List ℕ)
        → IsReached D.Device files start steps replies last → D.may_leave last.device c
        → ReadsBack files (observe_all (observed_first files start.state) steps replies).history c }
    ensures since { (files : List File) (start mid last : Whole D) (earlier later : List Step)
        (replied more : List Reply) (c : List ℕ) → IsReached D.Device files start earlier replied mid
        → StepsTaken D.Device mid later more last → D.left_since last.device (D.moment mid.device) c
        → ReadsBackSince files (observe_all (observed_first files start.state) earlier replied) later more c }
{}

/// Steps that were made, and further steps after them, are one run of steps.
pub fn steps_after_steps<D: Device>(device: &D)
    ensures { (old mid new : Whole D) (steps later : List Step) (replies replied : List Reply)
        → StepsTaken D.Device old steps replies mid → StepsTaken D.Device mid later replied new
        → StepsTaken D.Device old (steps ++ later) (replies ++ replied) new }
{}

/// Over any device, honest or not, a fault that was served is really served. If the same processor's access to the page
/// follows at once, it is answered.
pub fn faults_are_served<D: Device>(device: &D)
    ensures { (old new : Whole D) (steps : List Step) (replies : List Reply)
        → StepsTaken D.Device old steps replies new → FaultsAreServed steps replies }
{}

/// The number of device calls of consecutive steps is the sum of what each step makes. The same holds of the failed
/// calls. Both counts, at two calls for each step, must stay below the end of 64 bits.
pub fn calls_of_steps<D: Device>(device: &D)
    ensures { (old new : Whole D) (steps : List Step) (replies : List Reply)
        → D.calls_made old.device + 2 * length steps < 2 ^ 64 - 2
        → D.faults_met old.device + length steps < 2 ^ 64 - 1
        → StepsTaken D.Device old steps replies new → CallsAddUp D.Device old steps replies new }
{}

/// The number of steps and device calls of each write-out of a run. Let a mark write k home blocks, in a volume whose
/// descriptors have d blocks.
///
/// - `committed`: The steps up to the reply that the mark is committed make k + d + 3 device calls for its write-out,
///   one call each.
/// - `done`: The steps up to the reply that the write-out is done make 3k + d + 6 device calls for it. They are in 2k +
///   d + 6 steps of the write-out.
///
/// This holds with any other steps between them, even of another write-out. A shared sync counts for each write-out
/// that shares it, so the counts are the same in all layouts.
pub fn counts_of_a_write_out<D: Device>(device: &D)
    ensures committed { (files : List File) (start old marked last new : Whole D) (earlier steps : List Step)
        (replied replies : List Reply) (p number : ℕ) (mark : MarkMade old.state p number marked.state) (step : Step)
        → IsReached D.Device files start earlier replied old
        → StepsTaken D.Device marked steps replies last → StepTaken D.Device last step (Committed number) new
        → (works : List Work)
        × AskFor D.Device number marked (steps ++ step ∷ []) (replies ++ Committed number ∷ []) new works
        × (length works ≡ length (mark_homes old.state mark.pages) + descriptor_blocks old.state.table.slots + 3)
        × (sum_by calls_of works ≡ length (mark_homes old.state mark.pages)
        + descriptor_blocks old.state.table.slots + 3) }
    ensures done { (files : List File) (start old marked last new : Whole D) (earlier steps : List Step)
        (replied replies : List Reply) (p number : ℕ) (mark : MarkMade old.state p number marked.state) (step : Step)
        → IsReached D.Device files start earlier replied old
        → StepsTaken D.Device marked steps replies last → StepTaken D.Device last step (Done number) new
        → (works : List Work)
        × AskFor D.Device number marked (steps ++ step ∷ []) (replies ++ Done number ∷ []) new works
        × (length works ≡ 2 * length (mark_homes old.state mark.pages)
        + descriptor_blocks old.state.table.slots + 6)
        × (sum_by calls_of works ≡ 3 * length (mark_homes old.state mark.pages)
        + descriptor_blocks old.state.table.slots + 6) }
{}
