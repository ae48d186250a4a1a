// Consequences of the definitions alone.
ghost use Rattle.std.specs.Prelude.{◌≡◌, ◌+◌, ◌%◌, ◌++◌, ℕ, Bool, List, [], ◌∷◌, length};
ghost use Rattle.log_codec.specs.Log.{LogValue, log_descriptor_blocks};
ghost use Rattle.log_codec.specs.Commit.{LogDescriptor};
ghost use Rattle.log_codec.specs.Chain.{chain_end};
ghost use Rattle.log_commits.specs.declared.behind.OldCommits.{OldCommits};
ghost use Rattle.log_commits.specs.Tail.{TailValue};
ghost use Rattle.log_commits.specs.Commit.{committed_to, next_logged};
ghost use Rattle.log_commits.specs.Homes.{AreWrittenHome};
ghost use Rattle.log_commits.specs.Behind.{HoldsCommits, AreOldest, IsSameOutside, start_behind};
ghost use Rattle.log_home.specs.Index.{Entries, IsIndexOf, find_in, from_number, indexed_homes, recorded_or};
ghost use Rattle.log_home.specs.Work.{AreHome};

/// An index still belongs to the log's commits after two changes. A commit was noted, or the start moved behind the
/// oldest commits and these were forgotten.
pub fn index_stays()
    ensures empty { (g : LogValue) (p : ℕ) → IsIndexOf g p [] [] }
    ensures noted { (g : LogValue) (p position records : ℕ) (chain : List LogDescriptor) (d : LogDescriptor)
        (old new : Entries) → IsIndexOf g p chain old → position ≡ chain_end p chain % g.ring
        → records ≡ (position + log_descriptor_blocks (length d.homes)) % g.ring
        → ((b : ℕ) → find_in new b ≡ recorded_or g.ring (find_in old b) records d.number d.homes b)
        → IsIndexOf g p (chain ++ d ∷ []) new }
    ensures forgotten { (second : Bool) (t : TailValue) (contents : ℕ → List ℕ) (oldest : OldCommits)
        (ds younger : List LogDescriptor) (bytes : List ℕ) (old new : Entries)
        → HoldsCommits second t contents (ds ++ younger) bytes → AreOldest t oldest ds
        → IsIndexOf t.log t.start.position (ds ++ younger) old
        → ((b : ℕ) → find_in new b ≡ from_number oldest.below (find_in old b))
        → (let s = start_behind t oldest in IsIndexOf t.log s.position younger new) }
{}

/// Home blocks that are written stay written in a commit, or the commit contains them, too. When the work has done
/// every home block of the index that it began with, all home blocks of its commits are written.
pub fn home_stays()
    ensures by_commit { (t : TailValue) (contents : ℕ → List ℕ) (ds younger : List LogDescriptor)
        (done homes records old new : List ℕ) → IsSameOutside t.log old new
        → AreHome t.log contents ds younger done old
        → AreHome t.log (committed_to contents homes records) ds (younger ++ next_logged t homes ∷ []) done new }
    ensures all { (g : LogValue) (p : ℕ) (contents : ℕ → List ℕ) (ds younger : List LogDescriptor)
        (entries : Entries) (bytes : List ℕ) → IsIndexOf g p ds entries
        → AreHome g contents ds younger (indexed_homes entries) bytes
        → AreWrittenHome g contents ds younger bytes }
{}
