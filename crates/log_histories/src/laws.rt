// Consequences of the calls' contracts.
ghost use Rattle.std.specs.Prelude.{◌≡◌, ◌⊎◌, ◌↔◌, ◌+◌, ℕ, List, [], ◌∷◌, ◌++◌, Bool, None};
ghost use Rattle.page_entry.specs.declared.numbers.FilePage.{FilePage};
ghost use Rattle.device.specs.Device.{LeavesOnly};
ghost use Rattle.volume_codec.specs.Files.{File};
ghost use Rattle.history.specs.History.{Event, Mark, memory_of, after};
ghost use Rattle.pager.specs.State.{up_to_end};
ghost use Rattle.pager.specs.Calls.{page_refusal};
ghost use Rattle.log_codec.specs.declared.sealing.Sealing.TheVariants.{ByByte};
ghost use Rattle.log_codec.specs.Commit.{LogDescriptor};
ghost use Rattle.log_commits.specs.Told.{IsNone};
ghost use Rattle.log_pager.specs.Pager.{IsPagerOver, contents_put};
ghost use Rattle.log_files.specs.State.{LogFilesState, log_home_of};
ghost use Rattle.log_histories.specs.Histories.{HasComeLog, HasGoneLog, IsCommitPut, IsLogCommitting, IsLogStepping};
ghost use Rattle.log_histories.specs.Histories.{ReadsBackLog, TellsSince};
ghost use Rattle.log_histories.specs.Runs.{IsMadeIn, ReadsBackAmongLog, TellsRun, TellsNext};

use device::Device;
use log_commits::one_held;

/// What a crash leaves of a volume with a log, after any calls since it was opened with these files.
///
/// In layout 6, where a digest seals commits, this has a premise on the remaining bytes (`TellsSince`). From the number
/// of the next commit on, they must contain no readable commit except the commit under way. In layout 5, where a byte
/// seals, all bytes fulfil the premise (`by_byte`).
///
/// - `left`: After the calls, a crash leaves bytes that recover to the files after a durable prefix of the history.
///   That prefix is empty or ends with a mark, and contains every acknowledged mark.
/// - `commit`: The same holds at any moment within the next commit, even if a device call of it fails. The prefix may
///   then contain that commit's own mark.
/// - `step`: The same holds at any moment within the next step.
/// - `over`: The home blocks have some contents.
/// - `reads`: With any such contents, callers read in each page the bytes that were put last. This has no premise.
pub fn what_log_files_leave<D: Device>(device: &D)
    ensures left { (files : List File) (history : List Event) (s : LogFilesState D)
        → HasComeLog D.Device files history s → (c : List ℕ) → D.may_leave s.pager.device c → TellsSince s IsNone c
        → ReadsBackLog files history c }
    ensures commit { (files : List File) (history : List Event) (s : LogFilesState D) (done : Bool) (next : D)
        → HasComeLog D.Device files history s → IsLogCommitting D.Device s done next
        → LeavesOnly D.moment D.left_since s.pager.device next
        (λ c. TellsSince s (IsCommitPut s) c → ReadsBackLog files (history ++ Mark (s.marks + 1) ∷ []) c) }
    ensures step { (files : List File) (history : List Event) (s : LogFilesState D) (done : Bool) (next : D)
        → HasComeLog D.Device files history s → IsLogStepping D.Device s done next
        → LeavesOnly D.moment D.left_since s.pager.device next
        (λ c. TellsSince s IsNone c → ReadsBackLog files history c) }
    ensures by_byte { (files : List File) (history : List Event) (s : LogFilesState D)
        → HasComeLog D.Device files history s → s.table.sealing ≡ ByByte
        → (c : List ℕ) → TellsSince s IsNone c × TellsSince s (IsCommitPut s) c }
    ensures over { (files : List File) (history : List Event) (s : LogFilesState D)
        → HasComeLog D.Device files history s → (contents : ℕ → List ℕ) × IsPagerOver D.Device s.pager contents }
    ensures reads { (files : List File) (history : List Event) (s : LogFilesState D) (contents : ℕ → List ℕ)
        (owner : FilePage) → HasComeLog D.Device files history s → D.is_honest s.pager.device
        → IsPagerOver D.Device s.pager contents → page_refusal s.lengths owner ≡ None
        → up_to_end s.lengths owner (contents_put contents s.pager.staged (log_home_of s.table owner))
        ≡ up_to_end s.lengths owner (after (memory_of files) history owner.file owner.page) }
{
    one_held();
}

/// What a crash leaves between two states, if calls led from one to the other: a run.
///
/// In layout 6 this has a premise on the remaining bytes. It concerns each readable commit in them that has the number
/// of the first state's next commit or a later number. The run made this commit (`TellsRun`), or the commit follows the
/// run (`TellsNext`). In layout 5 all bytes fulfil both (`by_byte`).
///
/// - `come`: A run adds its events to the history of the calls before it.
/// - `on`: Two consecutive runs are one run, with the commits of both.
/// - `since`: A crash between the run's first and last states leaves bytes that recover to the files after a durable
///   prefix. It is a prefix of the history extended by some of the run's events.
/// - `within_commit`, `within_step`: The same holds up to any moment within the commit or the step that follows the
///   run, even if a device call of it fails.
pub fn what_log_runs_leave<D: Device>(device: &D)
    ensures come { (files : List File) (history events : List Event) (s t : LogFilesState D)
        → HasComeLog D.Device files history s → HasGoneLog D.Device s events t
        → HasComeLog D.Device files (history ++ events) t }
    ensures on { (a b c : LogFilesState D) (events more : List Event)
        → (first : HasGoneLog D.Device a events b) → (next : HasGoneLog D.Device b more c)
        → (all : HasGoneLog D.Device a (events ++ more) c) × ((d : LogDescriptor) (records : List ℕ)
        → IsMadeIn all d records ↔ (IsMadeIn first d records ⊎ IsMadeIn next d records)) }
    ensures since { (files : List File) (history events : List Event) (s t : LogFilesState D)
        → HasComeLog D.Device files history s → (gone : HasGoneLog D.Device s events t)
        → LeavesOnly D.moment D.left_since s.pager.device t.pager.device
        (λ c. TellsRun gone c → ReadsBackAmongLog files history events c) }
    ensures within_commit { (files : List File) (history events : List Event) (s t : LogFilesState D) (done : Bool)
        (next : D) → HasComeLog D.Device files history s → (gone : HasGoneLog D.Device s events t)
        → IsLogCommitting D.Device t done next → LeavesOnly D.moment D.left_since s.pager.device next
        (λ c. TellsNext gone c → ReadsBackAmongLog files history (events ++ Mark (t.marks + 1) ∷ []) c) }
    ensures within_step { (files : List File) (history events : List Event) (s t : LogFilesState D) (done : Bool)
        (next : D) → HasComeLog D.Device files history s → (gone : HasGoneLog D.Device s events t)
        → IsLogStepping D.Device t done next → LeavesOnly D.moment D.left_since s.pager.device next
        (λ c. TellsRun gone c → ReadsBackAmongLog files history events c) }
    ensures by_byte { (files : List File) (history events : List Event) (s t : LogFilesState D)
        → HasComeLog D.Device files history s → s.table.sealing ≡ ByByte → (gone : HasGoneLog D.Device s events t)
        → (c : List ℕ) → TellsRun gone c × TellsNext gone c }
{}
