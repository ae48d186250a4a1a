// Migrates a volume. Its files are copied to a new volume in which files can grow, with journals or with a log. The new
// volume is made in its own file, as `format` makes one.
ghost use Rattle.std.specs.Prelude.{◌≡◌, ◌↔◌, IsTrue, IfOk, IfErr, OnOk, length};
ghost use Rattle.volume_codec.specs.Super.{SuperValue, IsAsked, block_count};
ghost use Rattle.recovery.specs.Migration.{asked_of};
ghost use Rattle.new_volume.specs.Formatting.{IsZero};
ghost use Rattle.log_format.specs.Asked.{RefusesLogFormat};
ghost use Rattle.log_format.specs.Migration.{HasMigratedToLog};
ghost use Rattle.volume_files.specs.Layouts.{MayMigrate};
ghost use Rattle.volume_files.specs.Migration.{HasNewBlocks, HasNoBlocks, HasBecome, RefusesToBecome};

use crate::cause::{Cause, Refused, refused_to_migrate, refused_to_open};
use crate::disk::{not_opened, open_to_write};
use crate::failure::FileFailure;
use crate::marker::Noted;
use crate::sync_note::SyncNote;
use crate::target::Target;
use crate::volume_file::{apart, found_at, place};
use device::Device;
use log_codec::Sealing;
use log_format::{migrate_to_log, migrated_log_blocks};
use new_volume::{NewFile, WriteListener};
use page_entry::{PAGE, Refusal};
use recovery::Volume;
use std::alloc::{AllocError, Allocator};
use std::fs;
use std::fs::{File, Files};
use volume_codec::Layout;

/// What a new volume has besides its files: journals in the layout of this number, or a log. The layout is 3 or 4 and
/// not below the old one's, and each journal has `slots` record slots. The log has `ring` blocks, and `sealing` seals
/// its commits.
#[derive(Clone, Copy)]
pub enum NewVolume {
    Journals { layout: u64, slots: u64 },
    Log { sealing: Sealing, ring: u64 },
}

impl NewVolume {
    // Returns why no new volume was made from a volume in this layout.
    fn refused(&self, refusal: Refusal, old: Layout) -> Refused<'static> {
        match self {
            NewVolume::Journals { layout, slots } => {
                refused_to_migrate(refusal, old, *layout, *slots)
            }
            NewVolume::Log { ring, .. } => Refused {
                refusal,
                cause: cause_in_log(refusal, *ring),
            },
        }
    }
}

// Returns what is outside the limits in a migration to a log of `ring` blocks, or what failed.
fn cause_in_log(refusal: Refusal, ring: u64) -> Option<Cause<'static>> {
    match refusal {
        Refusal::BadShape if (4..=1 << 24).contains(&ring) => Some(Cause::TooManyBlocks),
        Refusal::BadShape => Some(Cause::Blocks(ring)),
        Refusal::Device => Some(Cause::Call),
        _ => None,
    }
}

/// A migration: the paths of the two files, what the new volume has, and whether disk space for its blocks is allocated
/// at once.
#[derive(Clone, Copy)]
pub struct MigrationPlan<'a> {
    pub old: &'a str,
    pub new: &'a str,
    pub volume: NewVolume,
    pub preallocate: bool,
}

impl<'a> MigrationPlan<'a> {
    // Returns why the new volume wasn't made from one in this layout. If a device failed, it names the new one's path
    // if a call to the new one failed, and otherwise the old one's.
    fn refused(&self, refusal: Refusal, old: Layout, new_failed: bool) -> FileFailure<'a> {
        let path = match refusal {
            Refusal::OutOfMemory => return FileFailure::Memory(AllocError),
            Refusal::Device if !new_failed => self.old,
            _ => self.new,
        };
        FileFailure::Disk {
            path,
            cause: self.volume.refused(refusal, old),
        }
    }
}

/// Opens a volume, and makes a new volume with the same files in the plan's layout. It replaces or makes the file at
/// the other path, and returns the number of the new volume's blocks. Only the opening writes to the old volume.
///
/// The new volume is made in another file beside its place, `.new`. This file takes the name once all of it is on the
/// disk. If this fails before, or is cut off, a file that had the name is unchanged. If both paths name one file, it
/// fails before anything is changed. A listener is notified of the writes to the new volume.
pub fn migrate<'a, R, A, L>(
    rt: &R,
    alloc: A,
    plan: MigrationPlan<'a>,
    trust: bool,
    note: &mut SyncNote,
    listener: L,
) -> Result<u64, FileFailure<'a>>
where
    R: Files<File = File> + AllocGlobal,
    A: Allocator + Copy,
    L: WriteListener + Drop,
{
    let from = place(rt, plan.old)?;
    let to = place(rt, plan.new)?;
    let target = Target {
        rt,
        path: plan.new,
        place: &to,
    };
    judge_apart(&target, plan, &from)?;
    let disk = open_to_write(rt, plan.old, &from, trust, note)?;
    migrate_disk(&target, alloc, plan, disk, note, listener)
}

// Makes the new volume from the one on a disk.
fn migrate_disk<'a, R, D, A, L>(
    target: &Target<'a, '_, R>,
    alloc: A,
    plan: MigrationPlan<'a>,
    disk: D,
    note: &mut SyncNote,
    listener: L,
) -> Result<u64, FileFailure<'a>>
where
    R: Files<File = File> + AllocGlobal,
    D: Device + Noted,
    A: Allocator + Copy,
    L: WriteListener + Drop,
{
    match recovery::open(alloc, disk) {
        Ok(mut volume) => {
            let blocks = made_of(target, alloc, plan, &mut volume, listener);
            *note = volume.into_device().into_note();
            blocks
        }
        Err((refusal, mut disk)) => {
            let cause = refused_to_open(alloc, refusal, &mut disk);
            *note = disk.into_note();
            Err(not_opened(plan.old, cause))
        }
    }
}

// Checks that the two paths lead to two files.
fn judge_apart<'a, R: Files<File = File>>(
    target: &Target<'a, '_, R>,
    plan: MigrationPlan<'a>,
    from: &str,
) -> Result<(), FileFailure<'a>> {
    let Some(new) = found_at(target.rt, plan.new, target.place)? else {
        return Ok(());
    };
    match fs::metadata(target.rt, from) {
        Ok(old) => apart(plan.new, &new, &old),
        Err(cause) => Err(FileFailure::File {
            path: plan.old,
            cause,
        }),
    }
}

// Whether a volume in a layout may be migrated to the layout of this number. Files must be able to grow there, and it
// must not be lower.
fn may_migrate(old: Layout, number: u64) -> bool
    ensures { IsTrue result ↔ MayMigrate old number }
{
    match Layout::from_number(number) {
        Some(new) => new.lengths_blocks() > 0 && old.number() <= number,
        None => false,
    }
}

// Returns the number of blocks of a new volume with journals. Fails with `BadShape` if there is no such shape, or if
// the volume may not be migrated to this layout.
fn blocks_with_journals<D: Device, A: Allocator + Copy>(
    volume: &Volume<D, A>,
    layout: u64,
    slots: u64,
) -> Result<u64, Refusal>
    ensures ok { IfOk result (λ blocks. MayMigrate volume.now.table.layout layout × (v : SuperValue)
        × IsAsked layout (asked_of volume.now) slots v × (blocks ≡ block_count v)) }
    ensures err { IfErr result (λ refusal. (refusal ≡ Refusal.BadShape)
        × (MayMigrate volume.now.table.layout layout → (v : SuperValue)
        → IsAsked layout (asked_of volume.now) slots v → ⊥)) }
{
    if !may_migrate(volume.layout(), layout) {
        return Err(Refusal::BadShape);
    }
    recovery::migrated_blocks(volume, layout, slots)
}

// Returns the number of blocks of the new volume. Fails with `BadShape` if there is no volume of the plan's shape, or
// if the old volume may not be migrated to its layout.
fn blocks_of<D: Device, A: Allocator + Copy>(
    new: &NewVolume,
    volume: &Volume<D, A>,
) -> Result<u64, Refusal>
    ensures ok { IfOk result (HasNewBlocks new.now volume.now) }
    ensures err { IfErr result (λ refusal. (refusal ≡ Refusal.BadShape) × HasNoBlocks new.now volume.now) }
{
    match new {
        NewVolume::Journals { layout, slots } => blocks_with_journals(volume, *layout, *slots),
        NewVolume::Log { sealing, ring } => migrated_log_blocks(volume, *sealing, *ring),
    }
}

// Makes the new volume, if its shape is accepted, and returns the number of its blocks.
fn made_of<'a, R, D, A, L>(
    target: &Target<'a, '_, R>,
    alloc: A,
    plan: MigrationPlan<'a>,
    volume: &mut Volume<D, A>,
    mut listener: L,
) -> Result<u64, FileFailure<'a>>
where
    R: Files<File = File> + AllocGlobal,
    D: Device,
    A: Allocator + Copy,
    L: WriteListener + Drop,
{
    let blocks = match blocks_of(&plan.volume, volume) {
        Ok(blocks) => blocks,
        Err(refusal) => return Err(plan.refused(refusal, volume.layout(), false)),
    };
    listener.expect(
        blocks
            .saturating_mul(PAGE)
            .saturating_add(lengths_of(volume)),
    );
    // Both files stay locked until the end.
    let old = target.old_volume()?;
    let _file = named_copy(target, alloc, plan, blocks, old.as_ref(), volume, listener)?;
    target.durably_name()?;
    Ok(blocks)
}

// Returns the number of bytes of a volume's files.
fn lengths_of<D: Device, A: Allocator + Copy>(volume: &Volume<D, A>) -> u64 {
    let mut bytes = 0u64;
    for &length in volume.lengths() {
        bytes = bytes.saturating_add(length);
    }
    bytes
}

// Makes the new volume, which has this number of blocks, in a new file, and gives this file the old one's name.
fn named_copy<'a, R, D, A, L>(
    target: &Target<'a, '_, R>,
    alloc: A,
    plan: MigrationPlan<'a>,
    blocks: u64,
    old: Option<&File>,
    volume: &mut Volume<D, A>,
    listener: L,
) -> Result<File, FileFailure<'a>>
where
    R: Files<File = File> + AllocGlobal,
    D: Device,
    A: Allocator + Copy,
    L: WriteListener + Drop,
{
    let (new, file) = target.new_volume()?;
    let made = match target.whole(alloc, blocks, plan.preallocate, old, file) {
        Ok(file) => copied_to(target, alloc, plan, volume, file, listener),
        Err(failure) => Err(failure),
    };
    target.named(&new, made)
}

// Makes the new volume in a new file, in which all bytes are 0. Zeros past all that was written stay holes.
fn copied_to<'a, R, D, A, L>(
    target: &Target<'a, '_, R>,
    alloc: A,
    plan: MigrationPlan<'a>,
    volume: &mut Volume<D, A>,
    file: File,
    listener: L,
) -> Result<File, FileFailure<'a>>
where
    R: Files<File = File> + AllocGlobal,
    D: Device,
    A: Allocator + Copy,
    L: WriteListener + Drop,
{
    let file = target.claimed(alloc, file)?;
    let disk = target.disk(NewFile::over(file, listener))?;
    let made = copied(alloc, plan, volume, disk)?;
    Ok(made.into_file().into_parts().0)
}

// Copies the volume to a new device, in which all bytes are 0 if the new volume has a log. It returns the device only
// if all of the volume is on it. So after a failure there is no file that could take a name.
fn copied<'a, D: Device, E: Device + Drop, A: Allocator + Copy>(
    alloc: A,
    plan: MigrationPlan<'a>,
    volume: &mut Volume<D, A>,
    mut new: E,
) -> Result<E, FileFailure<'a>>
    ensures { D.is_honest volume.old.device → E.is_honest new → IfOk result
        (λ made. HasBecome D.Device E.Device plan.entry.volume volume.old new made) }
{
    let old = volume.layout();
    match copy(alloc, &plan.volume, volume, &mut new) {
        Ok(()) => Ok(new),
        Err(refusal) => {
            let new_failed = new.faults() > 0;
            Err(plan.refused(refusal, old, new_failed))
        }
    }
}

// Makes the new volume on a device.
fn copy<D: Device, E: Device, A: Allocator + Copy>(
    alloc: A,
    plan: &NewVolume,
    volume: &mut Volume<D, A>,
    new: &mut E,
) -> Result<(), Refusal>
    ensures migrated { D.is_honest volume.old.device → E.is_honest new.old
        → OnOk result (HasBecome D.Device E.Device plan.now volume.old new.old new.new) }
    ensures refused { IfErr result (RefusesToBecome plan.now volume.old (length (E.seen new.old))) }
{
    match plan {
        NewVolume::Journals { layout, slots } => {
            recovery::migrate(alloc, volume, new, *layout, *slots)
        }
        NewVolume::Log { sealing, ring } => copy_to_log(alloc, volume, new, *sealing, *ring),
    }
}

// Makes a new volume with a log on a device.
fn copy_to_log<D: Device, E: Device, A: Allocator + Copy>(
    alloc: A,
    volume: &mut Volume<D, A>,
    new: &mut E,
    sealing: Sealing,
    ring: u64,
) -> Result<(), Refusal>
    ensures migrated { D.is_honest volume.old.device → E.is_honest new.old → OnOk result (IsZero (E.seen new.old)
        → HasMigratedToLog D.Device E.Device sealing ring volume.old new.old new.new) }
    ensures refused { IfErr result (RefusesLogFormat sealing (asked_of volume.old) ring (length (E.seen new.old))) }
{
    match migrate_to_log(alloc, volume, new, sealing, ring) {
        Ok(()) => Ok(()),
        Err(refusal) => Err(refusal),
    }
}
