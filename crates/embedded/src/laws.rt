// What a crash leaves on the device on which a host makes the calls.
ghost use Rattle.std.specs.Prelude.{ℕ, Bool, ◌≤◌, List, Option, Some};
ghost use Rattle.deferred_disk.specs.Carrying.{CarriedOut};
ghost use Rattle.deferred_disk.specs.Deferred.{Deferred, as_memory, carried_moment, IsBehind, IsSuppliedWell};
ghost use Rattle.device.specs.Device.{LeavesOnly};
ghost use Rattle.device.specs.Memory.{moment_of, seen_of};
ghost use Rattle.volume_codec.specs.Files.{File};
ghost use Rattle.volume_codec.specs.Recovery.{RecoversTo};
ghost use Rattle.history.specs.History.{Event};
ghost use Rattle.pager.specs.State.{PagerState};
ghost use Rattle.pager.specs.Histories.{HasCome, HasGone};
ghost use Rattle.pager.specs.Runs.{ReadsBackAmong};
ghost use Rattle.embedded.specs.Embedded.{HasPassedMark, ServesWell};
ghost use Rattle.embedded.specs.Hosting.{KeepsMark};
ghost use Rattle.embedded.specs.Recorded.{deferred_disk};

use deferred_disk::DeferredDisk;
use device::Device;
use pager::what_runs_leave;
use std::alloc::Allocator;

/// States what a crash leaves on the host's own device, on which the host makes the waiting calls in order. That device
/// was behind the disk.
///
/// The crash may come at any moment, within a call or between two. It leaves the files of the opened volume after a
/// durable prefix of a history (`left`). The history contains the calls up to a pager whose recorded device calls the
/// host had made before, and some later calls. This holds for any such pager.
///
/// So the crash keeps each mark that was acknowledged in the history of such a pager (`mark`). It also keeps the mark
/// that an embedded volume acknowledges (`acknowledged`).
pub fn crashed_on_the_host<D: Device, A: Allocator + Copy>(device: &D, disk: &DeferredDisk<A>)
    ensures left { (files : List File) (history events : List Event) (mid pager : PagerState Deferred) (old new : D)
        (done : Bool) (left : ℕ)
        → HasCome deferred_disk files history mid → HasGone deferred_disk mid events pager
        → moment_of (as_memory mid.device) ≤ carried_moment pager.device
        → IsBehind D.is_honest D.seen D.may_leave old pager.device
        → CarriedOut D.Device old pager.device done new left
        → LeavesOnly D.moment D.left_since old new (ReadsBackAmong files history events) }
    ensures mark { (files : List File) (mark : ℕ) (pager : PagerState Deferred) (old new : D) (done : Bool) (left : ℕ)
        (reached : HasPassedMark files mark pager)
        → moment_of (as_memory reached.mid.device) ≤ carried_moment pager.device
        → IsBehind D.is_honest D.seen D.may_leave old pager.device
        → CarriedOut D.Device old pager.device done new left
        → LeavesOnly D.moment D.left_since old new (KeepsMark files mark pager reached) }
    ensures acknowledged { (pager : PagerState Deferred) (last : Option ℕ) (due mark : ℕ) (old new : D) (done : Bool)
        (left : ℕ) → IsSuppliedWell pager.device → ServesWell pager last due (Some mark)
        → IsBehind D.is_honest D.seen D.may_leave old pager.device
        → CarriedOut D.Device old pager.device done new left
        → (before : Deferred) × (files : List File) × RecoversTo (seen_of (as_memory before)) files
        × (reached : HasPassedMark files mark pager)
        × LeavesOnly D.moment D.left_since old new (KeepsMark files mark pager reached) }
{
    what_runs_leave(disk);
}
