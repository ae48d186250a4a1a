// Theorems that follow from the contracts of the calls.
ghost use Rattle.std.specs.Prelude.{◌≡◌, ℕ, false, List, ◌++◌, None};
ghost use Rattle.device.specs.Device.{LeavesOnly};
ghost use Rattle.page_entry.specs.declared.numbers.FilePage.{FilePage};
ghost use Rattle.volume_codec.specs.Files.{File};
ghost use Rattle.journal.specs.Pages.{home_of};
ghost use Rattle.journal.specs.declared.flushed.Flushed.{Flushed};
ghost use Rattle.history.specs.History.{Event, memory_of, after};
ghost use Rattle.history.specs.Reading.{ReadsBack};
ghost use Rattle.pager.specs.State.{PagerState, current_in, up_to_end};
ghost use Rattle.pager.specs.Calls.{page_refusal};
ghost use Rattle.pager.specs.Histories.{IsPagerStep, HasCome, HasGone};
ghost use Rattle.pager.specs.Runs.{ReadsBackAmong};

use device::Device;

/// Holds for each pager that calls have led to, from a volume at rest with these files.
///
/// `left`: a crash after the calls leaves bytes that recover to the files after a durable prefix of their history. This
/// prefix is empty or ends with a mark. It contains every acknowledged mark.
///
/// `within`: the same holds of a crash at any moment within the next step, even if one of its device calls fails.
///
/// `reads`: while no device call of a write-out has failed, callers see in each page the bytes after the whole history.
pub fn what_pagers_leave<D: Device>(device: &D)
    ensures left { (files : List File) (history : List Event) (s : PagerState D)
        → HasCome D.Device files history s → (c : List ℕ) → D.may_leave s.device c → ReadsBack files history c }
    ensures within { (files : List File) (history : List Event) (s : PagerState D) (answer : Flushed) (next : D)
        → HasCome D.Device files history s → IsPagerStep D.Device s answer next
        → LeavesOnly D.moment D.left_since s.device next (ReadsBack files history) }
    ensures reads { (files : List File) (history : List Event) (s : PagerState D) (owner : FilePage)
        → HasCome D.Device files history s → s.write_outs.broken ≡ false → page_refusal s.lengths owner ≡ None
        → up_to_end s.lengths owner (current_in s.staged s.records (D.seen s.device) (home_of s.table owner))
        ≡ up_to_end s.lengths owner (after (memory_of files) history owner.file owner.page) }
{}

/// A run leads from one state of a pager to another.
///
/// `come`: if a run follows the calls that led to its first state, its events are added to their history.
///
/// `on`: two runs, one after the other, form one run.
///
/// `since`: a crash between a run's first and last state leaves bytes that recover to the files after a durable prefix.
/// It is a prefix of the history and some of the run's events.
///
/// `within`: the same holds up to any moment within the step that follows, even if one of its device calls fails.
#[tactic(auto, using(crate::proofs::Runs::come_on))]
pub fn what_runs_leave<D: Device>(device: &D)
    ensures come { (files : List File) (history events : List Event) (s t : PagerState D)
        → HasCome D.Device files history s → HasGone D.Device s events t
        → HasCome D.Device files (history ++ events) t }
    ensures on { (a b c : PagerState D) (events more : List Event)
        → HasGone D.Device a events b → HasGone D.Device b more c → HasGone D.Device a (events ++ more) c }
    ensures since { (files : List File) (history events : List Event) (s t : PagerState D)
        → HasCome D.Device files history s → HasGone D.Device s events t
        → LeavesOnly D.moment D.left_since s.device t.device (ReadsBackAmong files history events) }
    ensures within { (files : List File) (history events : List Event) (s t : PagerState D) (answer : Flushed)
        (next : D) → HasCome D.Device files history s → HasGone D.Device s events t → IsPagerStep D.Device t answer next
        → LeavesOnly D.moment D.left_since s.device next (ReadsBackAmong files history events) }
{}
