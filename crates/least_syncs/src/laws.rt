// The least number of syncs of a commit.
ghost use Rattle.std.specs.Prelude.{◌≡◌, ◌≢◌, ◌≤◌, ◌+◌, ◌^◌, ◌∷◌, [], List, ℕ, length, replicate};
ghost use Rattle.device.specs.Memory.{DiskChange, Recorded, new_disk, seen_of};
ghost use Rattle.least_syncs.specs.Commit.{AreByOneSync, IsCommit, WriteTheSamePlaces, WritesOver, syncs_of};
ghost use Rattle.least_syncs.specs.Examples.{flag_at, flag_made, flagged, gate_made, gate_over, gated};

use crate::Recovery;

/// States that one sync is too few. One sync makes the places that a commit wrote durable, but not which bytes they
/// have. Until it succeeds, a crash may leave any bytes in these places. They can be the bytes that another commit
/// syncs there, and from which that commit is recovered.
///
/// Let two commits begin on one disk, whatever was written and synced before. Their contents differ from each other and
/// from the old ones.
///
/// * If they write the same places before they first sync, each makes at least two syncs (`same`).
/// * Let a commit have changed, by its first sync, only places that the other one has unsynced before its own. Then it
///   makes at least two syncs (`over`).
///
/// Commits by one sync each lead a disk of n bytes to at most 2^n contents, the number of sets of its places (`many`).
/// The bytes can have 256^n contents. No commit does without a sync, unless its contents are recovered from what was
/// there before it (`none`).
pub fn one_sync_is_too_few<R: Recovery>()
    ensures same { (old one other : R.Contents) (begun a b : Recorded) (these others : List DiskChange)
        → IsCommit R.recovers old one begun these a → IsCommit R.recovers old other begun others b
        → WriteTheSamePlaces begun these others → one ≢ old → other ≢ old → one ≢ other
        → (2 ≤ syncs_of these) × (2 ≤ syncs_of others) }
    ensures over { (old one other : R.Contents) (begun a b : Recorded) (these others : List DiskChange)
        → IsCommit R.recovers old one begun these a → IsCommit R.recovers old other begun others b
        → WritesOver begun these others → other ≢ old → other ≢ one → 2 ≤ syncs_of others }
    ensures many { (old : R.Contents) (begun : Recorded) (n : ℕ) (new : ℕ → R.Contents)
        (calls : ℕ → List DiskChange) (ended : ℕ → Recorded)
        → AreByOneSync R.recovers old begun n new calls ended → n ≤ 2 ^ length (seen_of begun) }
    ensures none { (old new : R.Contents) (begun ended : Recorded) (calls : List DiskChange)
        → IsCommit R.recovers old new begun calls ended → (R.recovers (seen_of begun) new → ⊥) → 1 ≤ syncs_of calls }
{}

/// States that the premise of equal places is needed, and that two syncs are enough. By one sync each, a disk of n
/// zeros is led to n contents, since each commit writes another place (`places`). By two syncs each, a disk of two
/// bytes is led to each value of its second byte. All of these commits write the same places before they first sync
/// (`bytes`).
pub fn what_few_syncs_do()
    ensures places { (n : ℕ) → AreByOneSync (λ c found. flagged c ≡ found) 0 (new_disk (replicate n 0)) n
        (λ i. i + 1) flag_at (flag_made n) }
    ensures bytes { (byte other : ℕ) → let begun = new_disk (0 ∷ 0 ∷ []) in
        IsCommit (λ c found. gated c ≡ found) 0 byte begun (gate_over byte) (gate_made byte)
        × (syncs_of (gate_over byte) ≡ 2) × WriteTheSamePlaces begun (gate_over byte) (gate_over other) }
{}
