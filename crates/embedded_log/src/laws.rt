// What a crash leaves of the device on which a host makes the calls.
ghost use Rattle.std.specs.Prelude.{ℕ, Bool, ◌≡◌, ◌≤◌, List, Option, Some};
ghost use Rattle.deferred_disk.specs.Carrying.{CarriedOut};
ghost use Rattle.deferred_disk.specs.Deferred.{Deferred, as_memory, carried_moment, IsBehind, IsSuppliedWell};
ghost use Rattle.device.specs.Device.{LeavesOnly};
ghost use Rattle.device.specs.Memory.{moment_of};
ghost use Rattle.volume_codec.specs.Files.{File};
ghost use Rattle.history.specs.History.{Event};
ghost use Rattle.log_codec.specs.declared.sealing.Sealing.TheVariants.{ByByte};
ghost use Rattle.log_files.specs.State.{LogFilesState};
ghost use Rattle.log_histories.specs.Histories.{HasComeLog};
ghost use Rattle.log_histories.specs.Runs.{ReadsBackAmongLog};
ghost use Rattle.embedded.specs.Recorded.{deferred_disk};
ghost use Rattle.embedded_log.specs.Runs.{HasServedLog, TellsServed};
ghost use Rattle.embedded_log.specs.Serving.{HasPassedLogMark, ServesLogWell};
ghost use Rattle.embedded_log.specs.Hosting.{KeepsLogMark};

use deferred_disk::DeferredDisk;
use device::Device;
use log_histories::what_log_runs_leave;
use std::alloc::Allocator;

/// States what a crash leaves while a host makes the waiting calls, in order, on its own device. The device had made a
/// prefix of the disk's calls before. The crash may come at any moment, within a call or between two.
///
/// The bytes that it leaves read back as the volume's files, as opened, after a durable prefix of a history (`left`).
/// Take any state whose recorded device calls the host had made before. The history consists of the events up to that
/// state, and of some later ones. So the bytes keep each mark that was acknowledged by that state (`mark`), and the
/// mark that an embedded volume acknowledges (`acknowledged`).
///
/// Each of these has one premise on the bytes that the crash leaves (`TellsServed`): each commit since that state that
/// can be read from them was made. In layout 6 this means that the digest detected each torn commit.
pub fn crashed_on_the_host<D: Device, A: Allocator + Copy>(device: &D, disk: &DeferredDisk<A>)
    ensures left { (files : List File) (history events : List Event) (mid s : LogFilesState Deferred) (old new : D)
        (done : Bool) (left : ℕ)
        → HasComeLog deferred_disk files history mid → (served : HasServedLog mid events s)
        → moment_of (as_memory mid.pager.device) ≤ carried_moment s.pager.device
        → IsBehind D.is_honest D.seen D.may_leave old s.pager.device
        → CarriedOut D.Device old s.pager.device done new left
        → LeavesOnly D.moment D.left_since old new
        (λ c. TellsServed served c → ReadsBackAmongLog files history events c) }
    ensures mark { (files : List File) (mark : ℕ) (s : LogFilesState Deferred) (old new : D) (done : Bool) (left : ℕ)
        (reached : HasPassedLogMark files mark s)
        → moment_of (as_memory reached.mid.pager.device) ≤ carried_moment s.pager.device
        → IsBehind D.is_honest D.seen D.may_leave old s.pager.device
        → CarriedOut D.Device old s.pager.device done new left
        → LeavesOnly D.moment D.left_since old new
        (λ c. TellsServed reached.served c → KeepsLogMark files mark s reached c) }
    ensures acknowledged { (s : LogFilesState Deferred) (last : Option ℕ) (due mark : ℕ) (old new : D) (done : Bool)
        (left : ℕ) → IsSuppliedWell s.pager.device → ServesLogWell s last due (Some mark)
        → IsBehind D.is_honest D.seen D.may_leave old s.pager.device
        → CarriedOut D.Device old s.pager.device done new left
        → (files : List File) × (reached : HasPassedLogMark files mark s)
        × LeavesOnly D.moment D.left_since old new
        (λ c. TellsServed reached.served c → KeepsLogMark files mark s reached c) }
{
    what_log_runs_leave(disk);
}

/// In layout 5, which seals with a byte, all bytes fulfil the premise of `crashed_on_the_host`.
pub fn told_by_byte()
    ensures { (files : List File) (mark : ℕ) (s : LogFilesState Deferred) (reached : HasPassedLogMark files mark s)
        → reached.first.table.sealing ≡ ByByte
        → (c : List ℕ) → TellsServed reached.served c }
{}
