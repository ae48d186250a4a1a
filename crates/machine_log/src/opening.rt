// Opening the volume of a device as a disk.
ghost use Rattle.std.specs.Prelude.{◌≡◌, ◌≢◌, ◌*◌, ◌≤◌, ℕ, List, IfOk, IfErr, length, take};
ghost use Rattle.device.specs.Device.{LeavesOnly, Only};
ghost use Rattle.device.specs.Memory.{may_leave_of, seen_of};
ghost use Rattle.volume_codec.specs.Files.{File, asked_by};
ghost use Rattle.volume_codec.specs.Layout.{block_at};
ghost use Rattle.volume_codec.specs.Recovery.{RecoversTo};
ghost use Rattle.volume_codec.specs.Super.{Fits};
ghost use Rattle.log_codec.specs.Chain.{LogRecovers};
ghost use Rattle.log_volume.specs.Super.{IsLogSuper, log_of};
ghost use Rattle.log_volume.specs.Files.{RecoversToLog};
ghost use Rattle.log_opening.specs.Opening.{HasWrittenNothing};
ghost use Rattle.log_opening.specs.Volume.{LeftByOpeningVolume};
ghost use Rattle.machine_log.specs.Opening.{opened_disk, HasOpenedDisk, RefusesShown, RefusesDisk, IsCountedDisk};
ghost use Rattle.machine_log.specs.Opening.{disk_result, disk_leaves};
ghost use Rattle.machine_log.specs.Laws.{Works};
ghost use Rattle.machine_log.specs.Serving.{IsShownTable};
ghost use Rattle.machine_log.specs.inside.Opened.{asked_whole, IsOpenedLog};

use crate::disk::LogDisk;
use crate::parts::DiskParts;
use crate::past::Past;
use crate::shown::ShownVolume;
use device::Device;
use kept_blocks::has_whole_block;
use log_codec::one_log;
use log_commits::{LogTail, held_log};
use log_opening::{OpenedLog, open_log_volume};
use log_pager::LogPager;
use log_store::{LogStore, opened_store};
use log_volume::{LogSuper, one_log_super};
use page_entry::Refusal;
use std::alloc::Allocator;
use volume_codec::{FileSpec, Super, one_reading};

// Returns the files of a volume as a request for them, in the first places.
fn specs_of<A: Allocator + Copy>(table: &Super<A>) -> [FileSpec<'_>; 64]
    ensures specs { asked_by (take (length table.now.files) result) ≡ asked_whole table.now.files }
    ensures fits { Fits table.now }
{
    let mut specs = [FileSpec {
        name: "",
        length: 0,
        capacity: 0,
    }; 64];
    for file in 0..table.file_count() {
        specs[file] = FileSpec {
            name: table.name(file),
            length: table.capacity(file),
            capacity: table.capacity(file),
        };
    }
    specs
}

// Returns the table of the disk that shows a volume. Fails with `BadShape` if it would have 2^32 blocks or more.
fn shown_table<A: Allocator + Copy>(alloc: A, volume: &LogSuper<A>) -> Result<Super<A>, Refusal>
    ensures ok { IfOk result (IsShownTable volume.now) }
    ensures refused { IfErr result (RefusesShown volume.now) }
{
    let specs = specs_of(volume.table());
    let slots = volume.log().most_records();
    let files = &specs[..volume.table().file_count()];
    match Super::new(alloc, 4, files, u64::from(slots)) {
        Ok(table) => Ok(table),
        Err(refusal) => Err(refusal),
    }
}

impl<D: Device, A: Allocator + Copy> LogDisk<D, A> {
    /// Opens the volume of a device, as `open_log_volume` does, and shows it as a disk. The disk has the files to which
    /// the device recovers. All of it counts as synced, and its journals are closed.
    ///
    /// Fails with `BadShape` if the disk would have 2^32 blocks or more. Otherwise fails as `open_log_volume` does. A
    /// failure returns the device.
    pub fn open(alloc: A, mut device: D) -> Result<Self, (Refusal, D)>
        ensures opened { D.is_honest device → IfOk result (HasOpenedDisk D.Device device) }
        ensures fresh { IfOk result (λ disk. disk
            ≡ opened_disk D.Device disk.volume disk.table disk.log_start disk.device) }
        ensures shown { IfOk result (λ disk. IsShownTable disk.volume disk.table) }
        ensures files { D.is_honest device → IfOk result (λ disk. (files : List File)
            → RecoversToLog (D.seen device) files → RecoversTo (seen_of disk.memory) files) }
        ensures synced { IfOk result (λ disk. Only (may_leave_of disk.memory) (seen_of disk.memory)) }
        ensures refused { D.is_honest device → IfErr result (λ e. RefusesDisk (D.seen device) e.0) }
        ensures unwritten { IfErr result (λ e. e.0 ≢ Refusal.Device → e.0 ≢ Refusal.BadShape
            → e.0 ≢ Refusal.OutOfMemory → HasWrittenNothing D.Device device e.1) }
        ensures crash { D.is_honest device → LeavesOnly D.moment D.left_since device (disk_leaves result)
            (LeftByOpeningVolume D.Device device) }
        ensures counted { IsCountedDisk D.Device device (disk_result result) (disk_leaves result) }
    {
        one_log();
        one_log_super();
        let opened = match open_log_volume(alloc, &mut device) {
            Ok(opened) => opened,
            Err(refusal) => return Err((refusal, device)),
        };
        let table = match shown_table(alloc, &opened.table) {
            Ok(table) => table,
            Err(refusal) => return Err((refusal, device)),
        };
        Ok(LogDisk {
            disk: DiskParts::over(alloc, opened, table, device),
        })
    }
}

impl<D: Device, A: Allocator + Copy> DiskParts<D, A> {
    // Returns the parts of the disk that shows an opened volume.
    fn over(alloc: A, opened: OpenedLog<A>, table: Super<A>, device: D) -> Self
        requires shown { IsShownTable opened.table table }
        requires long { 4096 * (log_of opened.table).blocks ≤ length (D.seen device) }
        requires opened { D.is_honest device
            → IsOpenedLog D.Device opened.table opened.start opened.second device }
        ensures value { result ≡ opened_disk D.Device opened.table table opened.start device }
        ensures files { D.is_honest device → (old : List ℕ) (files : List File)
            → IsLogSuper opened.table (block_at old 0)
            → LogRecovers (log_of opened.table) (block_at (D.seen device)) old
            → RecoversToLog old files → RecoversTo (seen_of result.memory) files }
        ensures works { Works D.Device result }
    {
        opened_store(&device);
        held_log();
        one_reading();
        one_log();
        one_log_super();
        let OpenedLog {
            table: volume,
            lengths: _,
            start,
            second,
        } = opened;
        let past = Past::begin(&volume, &table, &device);
        let _first = volume.to_block();
        let shown = table.to_block();
        has_whole_block(&shown);
        let store = LogStore::new(alloc, LogTail::new(volume.log(), start), second);
        DiskParts {
            alloc,
            shown: ShownVolume::new(alloc, table.geometry()),
            volume,
            table,
            log_start: start,
            pager: LogPager::new(alloc, store, device),
            failed: false,
            past,
            calls: 0,
            faults: 0,
        }
    }
}
