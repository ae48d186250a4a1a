// The disk of a volume over its file, and the printing of a volume's files.
ghost use Rattle.std.specs.Prelude.{◌≡◌, List, IfErr, OnOk};
ghost use Rattle.std.specs.Io.KnownBytes.{Appends};
ghost use Rattle.volume_codec.specs.Files.{File as VolumeFile};
ghost use Rattle.recovery.specs.Reading.{IsOnlyRead};
ghost use Rattle.volume_reading.specs.Faults.{IsOfDevice};
ghost use Rattle.volume_reading.specs.Volume.{RecoversToAny, RefusesAny};
ghost use Rattle.volume_files.specs.Dump.{dump_text};
ghost use Rattle.volume_files.specs.Failures.{IsOfVolume};

use crate::cause::{Cause, Refused, refused_to_open, refused_to_read};
use crate::failure::FileFailure;
use crate::listing::DumpLines;
use crate::marker::Marker;
use crate::suspect_flag::SuspectFlag;
use crate::sync_note::SyncNote;
use crate::volume_file::{Access, off_streams, open_locked};
use crate::watched_file::WatchedFile;
use device::{Device, FileDisk, OverlayDisk};
use page_entry::Refusal;
use std::alloc::{AllocError, Allocator};
use std::fs::{File, Files};
use std::io::{Read, Write};
use volume_reading::{ListFault, WriteFault, list_any};

/// The disk over the file of a volume.
pub type VolumeDisk<'a, R> = FileDisk<WatchedFile<File, Marker<'a, R>>>;

// Rule: suspect volume
/// Opens the file of a volume at a place, locks it and syncs it. A volume that is marked as suspect is opened only if
/// `trust` is set. A failure contains `path`. If a sync failed, `note` contains the message about it.
pub fn open_disk<'a, 'b, R: Files<File = File> + AllocGlobal>(
    rt: &'b R,
    path: &'a str,
    place: &'b str,
    access: Access,
    trust: bool,
    note: &mut SyncNote,
) -> Result<VolumeDisk<'b, R>, FileFailure<'a>> {
    let file = open_locked(rt, path, place, access)?;
    let mark = SuspectFlag::of(rt, place)?;
    if !trust && mark.is_there() {
        return Err(FileFailure::Suspect {
            path,
            mark: mark.into_path(),
        });
    }
    match FileDisk::over(WatchedFile::new(file, Marker::new(mark))) {
        Ok(disk) => Ok(disk),
        Err((cause, file)) => {
            *note = file.into_note();
            Err(FileFailure::Unsynced { path, cause })
        }
    }
}

/// Opens the file of a volume at a place for writing. If `trust` is set, the volume isn't marked as suspect any more.
pub fn open_to_write<'a, 'b, R: Files<File = File> + AllocGlobal>(
    rt: &'b R,
    path: &'a str,
    place: &'b str,
    trust: bool,
    note: &mut SyncNote,
) -> Result<VolumeDisk<'b, R>, FileFailure<'a>> {
    let disk = open_disk(rt, path, place, Access::Write, trust, note)?;
    if trust {
        // It was synced, so what is read from here on is on the disk.
        SuspectFlag::of(rt, place)?
            .remove()
            .map_err(|cause| FileFailure::File { path, cause })?;
    }
    Ok(disk)
}

/// Prints the files of the volume of a device, as it recovers. The device is only read. A failure contains `path`.
pub fn dump<'a, D: Device, A: Allocator + Copy, W: Write>(
    alloc: A,
    path: &'a str,
    device: &mut D,
    out: &mut W,
) -> Result<(), FileFailure<'a>>
    ensures printed { D.is_honest device.old → OnOk result ((files : List VolumeFile)
        × RecoversToAny (D.seen device.old) files
        × Appends (W.contents out.old) (W.contents out.new) (dump_text files)) }
    ensures refused { D.is_honest device.old
        → IfErr result (IsOfVolume path.now (RefusesAny (D.seen device.old))) }
    ensures read { IsOnlyRead D.Device device.old device.new }
{
    match list_any(alloc, device, &DumpLines, out) {
        Ok(Ok(())) => Ok(()),
        Ok(Err(fault)) => Err(not_listed(path, fault)),
        Err(refusal) => Err(not_read(alloc, path, refusal, device)),
    }
}

/// Returns why the volume of a device at a path wasn't read. The device is only read.
pub fn not_read<'a, D: Device, A: Allocator + Copy>(
    alloc: A,
    path: &'a str,
    refusal: Refusal,
    device: &mut D,
) -> FileFailure<'a>
    ensures told { IsOfVolume path.now (λ told. told ≡ refusal) result }
    ensures still { refusal ≡ Refusal.Device → device.new ≡ device.old }
    ensures read { IsOnlyRead D.Device device.old device.new }
{
    not_opened(path, refused_to_read(alloc, refusal, device))
}

/// Returns why the files of the volume at a path weren't printed.
pub fn not_listed(path: &str, fault: ListFault) -> FileFailure<'_>
    ensures { IsOfDevice fault → IsOfVolume path.now (λ refusal. refusal ≡ Refusal.Device) result }
{
    match fault {
        ListFault::Unreadable(refusal) => unreadable(path, refusal),
        ListFault::Unwritten(WriteFault::Output(fault)) => FileFailure::Output(fault),
        ListFault::Unwritten(WriteFault::Memory(fault)) => FileFailure::Memory(fault),
    }
}

/// Returns why a file of the volume at a path couldn't be read.
pub fn unreadable(path: &str, refusal: Refusal) -> FileFailure<'_>
    ensures { IsOfVolume path.now (λ told. told ≡ refusal) result }
{
    FileFailure::Disk {
        path,
        cause: Refused {
            refusal,
            cause: Some(Cause::Call),
        },
    }
}

/// Returns why the volume at a path wasn't opened on a copy that keeps its writes in memory.
pub fn refused_on_copy<'a>(
    path: &'a str,
    was_refused_memory: bool,
    cause: Refused<'a>,
) -> FileFailure<'a>
    ensures { IsOfVolume path.now (λ told. told ≡ cause.entry.refusal) result }
{
    if was_refused_memory && cause.refusal == Refusal::Device {
        FileFailure::Memory(AllocError)
    } else {
        FileFailure::Disk { path, cause }
    }
}

/// Returns why the volume at a path wasn't opened.
pub fn not_opened<'a>(path: &'a str, cause: Refused<'a>) -> FileFailure<'a>
    ensures { IsOfVolume path.now (λ told. told ≡ cause.entry.refusal) result }
{
    match cause.refusal {
        Refusal::OutOfMemory => FileFailure::Memory(AllocError),
        _ => FileFailure::Disk { path, cause },
    }
}

/// Returns why the volume at a path wasn't opened on this copy of its disk, which keeps its writes in memory.
pub fn not_opened_on_copy<'a, D: Device, A: Allocator + Copy>(
    alloc: A,
    path: &'a str,
    refusal: Refusal,
    copy: &mut OverlayDisk<D, A>,
) -> FileFailure<'a>
    ensures { IsOfVolume path.now (λ told. told ≡ refusal) result }
{
    let was_refused_memory = copy.was_refused_memory();
    let cause = refused_to_open(alloc, refusal, copy);
    refused_on_copy(path, was_refused_memory, cause)
}

/// Returns the bytes of a file, which may be a pipe.
pub fn read_file<'a, R, A>(rt: &R, alloc: A, path: &'a str) -> Result<Vec<u8, A>, FileFailure<'a>>
where
    R: Files<File = File>,
    A: Allocator + Copy,
{
    let refused = |cause| FileFailure::File { path, cause };
    let mut bytes = Vec::new(alloc);
    let mut file = File::open(rt, path).and_then(off_streams).map_err(refused)?;
    file.read_to_end(&mut bytes).map_err(refused)?;
    Ok(bytes)
}
