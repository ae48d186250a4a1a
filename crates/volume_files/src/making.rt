// Makes a whole volume in a new file, which then takes the old file's name.
ghost use Rattle.std.specs.Prelude.{IfOk, OnOk};
ghost use Rattle.volume_codec.specs.Files.{asked_by};
ghost use Rattle.recovery.specs.Format.{HasFormatted};
ghost use Rattle.new_volume.specs.Formatting.{IsZero};

use crate::cause::refused_to_format;
use crate::failure::FileFailure;
use crate::target::Target;
use crate::volume_file::place;
use device::{Device, FileDisk};
use new_volume::format_new;
use page_entry::Refusal;
use std::alloc::Allocator;
use std::fs::{File, Files};
use volume_codec::FileSpec;

/// A volume to be made: the number of its layout, its files, the number of record slots of each journal, and whether
/// disk space for its blocks is allocated at once.
#[derive(Clone, Copy)]
pub struct Plan<'a, 'b> {
    pub layout: u64,
    pub files: &'b [FileSpec<'a>],
    pub slots: u64,
    pub preallocate: bool,
}

impl<'a> Plan<'a, '_> {
    // Returns why no volume was made.
    fn refused(&self, path: &'a str, refusal: Refusal) -> FileFailure<'a> {
        FileFailure::Disk {
            path,
            cause: refused_to_format(refusal, self.layout, self.files, self.slots),
        }
    }
}

/// Replaces or makes the file at a path with the volume of a plan, and returns the number of its blocks. The volume is
/// made in another file beside it, `.new`. This file takes the name once all of it is on the disk. If this fails
/// before, or is cut off, the old file is unchanged.
pub fn format<'a, R: Files<File = File> + AllocGlobal, A: Allocator + Copy>(
    rt: &R,
    alloc: A,
    path: &'a str,
    plan: Plan<'a, '_>,
) -> Result<u64, FileFailure<'a>> {
    let blocks = match recovery::blocks_as(plan.layout, plan.files, plan.slots) {
        Ok(blocks) => blocks,
        Err(refusal) => return Err(plan.refused(path, refusal)),
    };
    let place = place(rt, path)?;
    let target = Target {
        rt,
        path,
        place: &place,
    };
    // Both files stay locked until the end.
    let old = target.old_volume()?;
    let _file = named_volume(&target, alloc, plan, blocks, old.as_ref())?;
    target.durably_name()?;
    Ok(blocks)
}

// Makes the volume of a plan, which has this number of blocks, in a new file, and gives this file the old one's name.
fn named_volume<'a, R: Files<File = File> + AllocGlobal, A: Allocator + Copy>(
    target: &Target<'a, '_, R>,
    alloc: A,
    plan: Plan<'a, '_>,
    blocks: u64,
    old: Option<&File>,
) -> Result<File, FileFailure<'a>> {
    let (new, file) = target.new_volume()?;
    let volume = match target.whole(alloc, blocks, plan.preallocate, old, file) {
        Ok(file) => made_in(target, alloc, plan, file),
        Err(failure) => Err(failure),
    };
    target.named(&new, volume)
}

// Makes the volume in a new file, in which all bytes are 0.
fn made_in<'a, R: Files<File = File> + AllocGlobal, A: Allocator + Copy>(
    target: &Target<'a, '_, R>,
    alloc: A,
    plan: Plan<'a, '_>,
    file: File,
) -> Result<File, FileFailure<'a>> {
    let disk = target.disk(file)?;
    made(alloc, target.path, plan, disk).map(FileDisk::into_file)
}

// Makes the volume on a new device, in which all bytes are 0. It returns the device only if all of the volume is on it.
// So after a failure there is no file that could take a name.
fn made<'a, D: Device + Drop, A: Allocator + Copy>(
    alloc: A,
    path: &'a str,
    plan: Plan<'a, '_>,
    mut new: D,
) -> Result<D, FileFailure<'a>>
    ensures { D.is_honest new → IsZero (D.seen new) → IfOk result
        (λ made. HasFormatted D.Device plan.entry.layout (asked_by plan.entry.files.now)
        plan.entry.slots new made) }
{
    match format_on(alloc, plan, &mut new) {
        Ok(()) => Ok(new),
        Err(refusal) => Err(plan.refused(path, refusal)),
    }
}

// Makes the volume on a device in which all bytes are 0.
fn format_on<D: Device, A: Allocator + Copy>(
    alloc: A,
    plan: Plan<'_, '_>,
    new: &mut D,
) -> Result<(), Refusal>
    ensures { D.is_honest new.old → IsZero (D.seen new.old) → OnOk result
        (HasFormatted D.Device plan.entry.layout (asked_by plan.entry.files.now) plan.entry.slots new.old new.new) }
{
    format_new(alloc, new, plan.layout, plan.files, plan.slots)
}
