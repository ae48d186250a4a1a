// Copies a file out of a volume: to a new file, which takes the requested name once it is whole.
ghost use Rattle.recovery.specs.Reading.{IsOnlyRead};

use crate::copying::{CopyFault, copy_file};
use crate::disk::{not_read, open_disk, unreadable};
use crate::failure::FileFailure;
use crate::sync_note::SyncNote;
use crate::target::{Target, new_file, take_after};
use crate::volume_file::{Access, apart, found_at, off_streams, other_kind, place};
use device::Device;
use new_volume::WriteListener;
use std::alloc::Allocator;
use std::fs::{File, Files, Metadata, TryLockError};
use std::{fs, io};
use volume_reading::{ListFault, WriteFault};

/// An export: the path of the volume's file, the name of the file in the volume, and the path of the copy.
#[derive(Clone, Copy)]
pub struct ExportPlan<'a> {
    pub disk: &'a str,
    pub file: &'a str,
    pub out: &'a str,
}

/// Copies a file of a volume as opening the volume would find it, and returns its number of bytes. The volume's file is
/// only read.
///
/// The copy is made in another file beside its place, `.new`. This file takes the name once all of it is on the disk.
/// If this fails before, or is cut off, a file that had the name is unchanged. A copy doesn't replace the file of the
/// volume, a file that another process has locked, or anything that isn't a regular file. A listener is notified of the
/// writes.
pub fn export<'a, R, A, L>(
    rt: &R,
    alloc: A,
    plan: ExportPlan<'a>,
    trust: bool,
    note: &mut SyncNote,
    listener: L,
) -> Result<u64, FileFailure<'a>>
where
    R: Files<File = File> + AllocGlobal,
    A: Allocator + Copy,
    L: WriteListener + Drop,
{
    let from = place(rt, plan.disk)?;
    let mut disk = open_disk(rt, plan.disk, &from, Access::Read, trust, note)?;
    copied_out(rt, alloc, plan, &mut disk, &from, listener)
}

// Copies a file of the volume of a disk to the requested path. The disk's own file is at `from`. The disk is only read.
fn copied_out<'a, R, D, A, L>(
    rt: &R,
    alloc: A,
    plan: ExportPlan<'a>,
    disk: &mut D,
    from: &str,
    listener: L,
) -> Result<u64, FileFailure<'a>>
where
    R: Files<File = File> + AllocGlobal,
    D: Device,
    A: Allocator + Copy,
    L: WriteListener + Drop,
    ensures { IsOnlyRead D.Device disk.old disk.new }
{
    let to = place(rt, plan.out)?;
    let target = Target {
        rt,
        path: plan.out,
        place: &to,
    };
    // Both files stay locked until the end.
    let old = old_copy(&target, from)?;
    let (count, _file) = named_copy(&target, alloc, plan, disk, old.as_ref(), listener)?;
    target.sync_name()?;
    Ok(count)
}

// Makes the copy in another file, and gives this file the requested name. If it wasn't made, or can't take the name, it
// is removed. If this fails too, the next export finds that it exists.
fn named_copy<'a, R, D, A, L>(
    target: &Target<'a, '_, R>,
    alloc: A,
    plan: ExportPlan<'a>,
    disk: &mut D,
    old: Option<&File>,
    listener: L,
) -> Result<(u64, File), FileFailure<'a>>
where
    R: Files<File = File> + AllocGlobal,
    D: Device,
    A: Allocator + Copy,
    L: WriteListener + Drop,
    ensures { IsOnlyRead D.Device disk.old disk.new }
{
    let new = target.new_path()?;
    let Some(file) = new_file(target.rt, &new)? else {
        return Err(FileFailure::CopyIsThere {
            path: plan.out,
            new,
        });
    };
    match copied(alloc, plan, disk, old, file, listener) {
        Ok((count, file)) => {
            let file = target.named(&new, Ok(file))?;
            Ok((count, file))
        }
        Err(failure) => {
            let _ = fs::remove_file(target.rt, new.as_str());
            Err(failure)
        }
    }
}

// Returns the file that a copy is to replace, locked, if there is one.
fn old_copy<'a, R: Files<File = File> + AllocGlobal>(
    target: &Target<'a, '_, R>,
    from: &str,
) -> Result<Option<File>, FileFailure<'a>> {
    match found_at(target.rt, target.path, target.place)? {
        Some(found) => {
            judge_replaced(target, from, &found)?;
            Ok(Some(locked_copy(target)?))
        }
        None => Ok(None),
    }
}

// Checks that a copy may replace what was found: a regular file, and not that of the volume.
fn judge_replaced<'a, R: Files<File = File> + AllocGlobal>(
    target: &Target<'a, '_, R>,
    from: &str,
    found: &Metadata,
) -> Result<(), FileFailure<'a>> {
    let path = target.path;
    if let Some(kind) = other_kind(found) {
        return Err(FileFailure::NotReplaced { path, kind });
    }
    match fs::metadata(target.rt, from) {
        Ok(volume) => apart(path, found, &volume),
        Err(cause) => Err(target.failed(cause)),
    }
}

// Returns the file that a copy is to replace, locked.
fn locked_copy<'a, R: Files<File = File> + AllocGlobal>(
    target: &Target<'a, '_, R>,
) -> Result<File, FileFailure<'a>> {
    match File::open(target.rt, target.place).and_then(off_streams) {
        Ok(file) => locked(target.path, file),
        Err(cause) => Err(target.failed(cause)),
    }
}

fn locked(out: &str, file: File) -> Result<File, FileFailure<'_>> {
    match file.try_lock() {
        Ok(()) => Ok(file),
        Err(TryLockError::WouldBlock) => Err(FileFailure::CopyInUse { path: out }),
        Err(TryLockError::Error(cause)) => Err(FileFailure::File { path: out, cause }),
    }
}

// Makes the copy in a new file, puts all of it on the disk, and returns its number of bytes.
fn copied<'a, D: Device, A: Allocator + Copy, L: WriteListener + Drop>(
    alloc: A,
    plan: ExportPlan<'a>,
    disk: &mut D,
    old: Option<&File>,
    file: File,
    listener: L,
) -> Result<(u64, File), FileFailure<'a>>
    ensures { IsOnlyRead D.Device disk.old disk.new }
{
    let path = plan.out;
    let failed = |cause| FileFailure::File { path, cause };
    after(old, &file).map_err(failed)?;
    let (count, file) = written(alloc, plan, disk, file, listener)?;
    file.sync_all().map_err(failed)?;
    Ok((count, file))
}

// Copies to a new file the owner and mode of an old one, if there is one.
fn after(old: Option<&File>, file: &File) -> io::Result<()> {
    match old {
        Some(old) => take_after(file, old),
        None => Ok(()),
    }
}

// Writes the bytes of the file in the volume of a disk to a file, and returns their number.
fn written<'a, D: Device, A: Allocator + Copy, L: WriteListener + Drop>(
    alloc: A,
    plan: ExportPlan<'a>,
    disk: &mut D,
    file: File,
    listener: L,
) -> Result<(u64, File), FileFailure<'a>>
    ensures { IsOnlyRead D.Device disk.old disk.new }
{
    match copy_file(alloc, disk, plan.file, file, listener) {
        Ok(Ok(made)) => Ok(made),
        Ok(Err(fault)) => Err(not_copied(plan, fault)),
        Err(refusal) => Err(not_read(alloc, plan.disk, refusal, disk)),
    }
}

// Returns why the copy at a path couldn't be written.
fn unwritten(out: &str, fault: WriteFault) -> FileFailure<'_> {
    match fault {
        WriteFault::Output(cause) => FileFailure::File { path: out, cause },
        WriteFault::Memory(fault) => FileFailure::Memory(fault),
    }
}

// Returns why a file of a volume wasn't copied.
fn not_copied<'a>(plan: ExportPlan<'a>, fault: CopyFault) -> FileFailure<'a> {
    match fault {
        CopyFault::NoFile => FileFailure::NoFile {
            path: plan.disk,
            file: plan.file,
        },
        CopyFault::Pages(ListFault::Unreadable(refusal)) => unreadable(plan.disk, refusal),
        CopyFault::Pages(ListFault::Unwritten(fault)) => unwritten(plan.out, fault),
    }
}
