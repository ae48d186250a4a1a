// Consequences of the definitions alone: rounds of steps end.
ghost use Rattle.std.specs.Prelude.{◌≡◌, ◌≢◌, ◌<◌};
ghost use Rattle.log_store.specs.declared.fault.Progress.{Progress};
ghost use Rattle.log_store.specs.declared.fault.Progress.TheVariants.{Idle, Moved};
ghost use Rattle.log_store.specs.Rounds.{IsOfAll, IsResting, round_left};
ghost use Rattle.log_store.specs.Store.{StepsBy, StoreValue};

/// Each step comes nearer to the step that moves the start (`nearer`), unless each commit is home (`idle`). If no round
/// was under way, the new round is of all commits (`begun`, `goes`), and afterwards the log is empty (`moved`).
pub fn rounds_end()
    ensures nearer { (old new : StoreValue) (progress : Progress) → StepsBy old old.stage new progress
        → progress ≢ Idle → progress ≢ Moved → round_left new < round_left old }
    ensures begun { (s : StoreValue) → IsResting s → IsOfAll s }
    ensures goes { (old new : StoreValue) (progress : Progress) → StepsBy old old.stage new progress
        → progress ≢ Idle → progress ≢ Moved → IsOfAll old → IsOfAll new }
    ensures moved { (old new : StoreValue) → StepsBy old old.stage new Moved
        → IsResting new × (IsOfAll old → new.tail.used ≡ 0) }
    ensures idle { (old new : StoreValue) → StepsBy old old.stage new Idle → (old.tail.used ≡ 0) × IsResting old }
{}
