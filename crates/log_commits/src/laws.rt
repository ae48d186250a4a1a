// Facts that follow from the definitions alone.
ghost use Rattle.std.specs.Prelude.{◌≡◌, ◌⊎◌, ◌++◌, ℕ, List, [], ◌∷◌, Bool};
ghost use Rattle.volume_codec.specs.Layout.{block_at};
ghost use Rattle.log_codec.specs.declared.sealing.Sealing.TheVariants.{ByDigest};
ghost use Rattle.log_codec.specs.declared.start.LogStart.{LogStart};
ghost use Rattle.log_codec.specs.Log.{LogValue, IsLog};
ghost use Rattle.log_codec.specs.Commit.{LogDescriptor};
ghost use Rattle.log_codec.specs.Chain.{HasLog, IsLogHome, LogRecovers};
ghost use Rattle.log_commits.specs.Tail.{TailValue, EndsAtTail, HoldsLog, HoldsUpTo, tail_at};
ghost use Rattle.log_commits.specs.Told.{IsThis, TellsTorn};
ghost use Rattle.log_commits.specs.declared.behind.OldCommits.{OldCommits};
ghost use Rattle.log_commits.specs.Commit.{committed_to, next_logged, tail_after};
ghost use Rattle.log_commits.specs.Homes.{AreWrittenHome, DiffersInHomes, MayStartBehind, tail_from};
ghost use Rattle.log_commits.specs.Behind.{HoldsCommits, IsReadyToMove, IsSameOutside};

use log_codec::one_log;

/// States that bytes which contain a log up to a tail recover to its contents, if no further commit follows it. With a
/// byte seal none follows. A log without commits has the contents of its home blocks.
pub fn held_log()
    ensures recovers { (t : TailValue) (contents : ℕ → List ℕ) (bytes : List ℕ) → HoldsLog t contents bytes
        → EndsAtTail t bytes → LogRecovers t.log contents bytes }
    ensures up_to { (t : TailValue) (contents : ℕ → List ℕ) (bytes : List ℕ) → HoldsLog t contents bytes
        → HoldsUpTo t.log t.number contents bytes }
    ensures at_start { (g : LogValue) (s : LogStart) (spent : Bool) (bytes : List ℕ) → HasLog g s [] bytes
        → HoldsLog (tail_at g s spent) (block_at bytes) bytes }
    ensures ends_at_start { (g : LogValue) (s : LogStart) (spent : Bool) (bytes : List ℕ) → HasLog g s [] bytes
        → EndsAtTail (tail_at g s spent) bytes }
{}

/// States that bytes which contain the commits below a number have one list of contents by these commits.
pub fn one_held()
    ensures { (g : LogValue) (number : ℕ) (contents others : ℕ → List ℕ) (bytes : List ℕ) (b : ℕ) → IsLog g
        → HoldsUpTo g number contents bytes → HoldsUpTo g number others bytes → IsLogHome g b
        → contents b ≡ others b }
{
    one_log();
}

/// States to which contents bytes recover with a digest seal, if they contain the commits below a number. Premise: at
/// most the next commit can be read from this number on. The contents are those without the next commit, or those with
/// it.
pub fn told_commit()
    ensures { (t : TailValue) (contents : ℕ → List ℕ) (homes records bytes : List ℕ) (key : ℕ)
        → t.log.sealing ≡ ByDigest key → HoldsUpTo t.log t.number contents bytes
        → TellsTorn (IsThis (next_logged t homes) records) t.log t.number bytes
        → LogRecovers t.log contents bytes ⊎ LogRecovers t.log (committed_to contents homes records) bytes }
{}

/// States what writing commits home may do. A home block that a commit of the log has may contain any bytes. So a crash
/// within its write changes no contents. A start after the oldest commits may be selected once each of their home
/// blocks has its recovered bytes, or a younger commit has it.
pub fn written_home()
    ensures any_bytes { (t : TailValue) (contents : ℕ → List ℕ) (old new : List ℕ) → IsLog t.log
        → (held : HoldsLog t contents old) → DiffersInHomes t.log held.chain old new → HoldsLog t contents new }
    ensures next_start { (t : TailValue) (contents : ℕ → List ℕ) (old new : List ℕ) → IsLog t.log
        → (held : HoldsLog t contents old) → (ds younger : List LogDescriptor) → held.chain ≡ ds ++ younger
        → MayStartBehind t contents ds younger old new → HoldsLog (tail_from t ds) contents new }
{}

/// States what a commit keeps while older commits are written home. A home block that is written home remains so, or
/// the new commit has it as well. Once the start after the older commits is written and they are home, it remains
/// ready.
pub fn committing_keeps()
    ensures written { (t : TailValue) (contents : ℕ → List ℕ) (ds younger : List LogDescriptor)
        (homes records old new : List ℕ) → IsSameOutside t.log old new
        → AreWrittenHome t.log contents ds younger old
        → AreWrittenHome t.log (committed_to contents homes records) ds (younger ++ next_logged t homes ∷ []) new }
    ensures ready { (second : Bool) (t : TailValue) (oldest : OldCommits) (contents : ℕ → List ℕ)
        (ds younger : List LogDescriptor) (homes records old new : List ℕ) → IsSameOutside t.log old new
        → IsReadyToMove second t oldest contents ds younger old
        → HoldsCommits second (tail_after t homes) (committed_to contents homes records)
        ((ds ++ younger) ++ next_logged t homes ∷ []) new
        → IsReadyToMove second (tail_after t homes) oldest (committed_to contents homes records) ds
        (younger ++ next_logged t homes ∷ []) new }
{}
