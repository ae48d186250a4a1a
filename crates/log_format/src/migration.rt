// Migrates a volume to a volume with a log, on another device.
ghost use Rattle.std.specs.Prelude.{◌≡◌, ◌⊎◌, ◌≤◌, ℕ, length, slice_index, is_ok, IfOk, IfErr, OnOk};
ghost use Rattle.device.specs.Device.{LeavesOnly};
ghost use Rattle.recovery.specs.Migration.{asked_of, AreAccounted};
ghost use Rattle.recovery.specs.Opening.{IsUnwritten};
ghost use Rattle.recovery.specs.Volume.{IsWellFormed};
ghost use Rattle.new_volume.specs.Formatting.{IsZero, DidAll};
ghost use Rattle.log_volume.specs.Super.{LogSuperValue, log_of, log_super_text};
ghost use Rattle.log_format.specs.Asked.{IsLogAsked, RefusesLogFormat};
ghost use Rattle.log_format.specs.Formatting.{finishing_works};
ghost use Rattle.log_format.specs.Migration.{IsWrittenByMigration, LeftByLogMigration, HasMigratedToLog};
ghost use Rattle.log_format.specs.inside.Copying.{HasLaid};

use crate::asked::log_block_count;
use crate::formatting::{finish_log, lay_log, log_shape};
use device::Device;
use log_codec::Sealing;
use log_volume::LogSuper;
use page_entry::Refusal;
use recovery::{Volume, copy_files, specs_of};
use std::alloc::Allocator;

/// Returns the number of blocks of the volume that `migrate_to_log` makes of this one, with a log of `ring` blocks.
/// Takes no memory. Fails with `BadShape` if there is no such volume.
pub fn migrated_log_blocks<D: Device, A: Allocator + Copy>(
    volume: &Volume<D, A>,
    sealing: Sealing,
    ring: u64,
) -> Result<u64, Refusal>
    ensures ok { IfOk result (λ blocks. (v : LogSuperValue) × IsLogAsked sealing (asked_of volume.now) ring v
        × (blocks ≡ (log_of v).blocks)) }
    ensures err { IfErr result (λ refusal. (refusal ≡ Refusal.BadShape)
        × ((v : LogSuperValue) → IsLogAsked sealing (asked_of volume.now) ring v → ⊥)) }
{
    let specs = specs_of(volume);
    log_block_count(sealing, &specs[..volume.file_count()], ring)
}

/// Writes the start of the log and the lengths of the new volume. Block 0 and the files aren't written yet.
fn begin<D: Device, E: Device, A: Allocator + Copy>(
    alloc: A,
    old: &Volume<D, A>,
    new: &mut E,
    sealing: Sealing,
    ring: u64,
) -> Result<LogSuper<A>, Refusal>
    ensures laid { HasLaid E.Device sealing old.now ring new.old result new.new }
    ensures well_formed { IsWellFormed D.Device old.now }
{
    let specs = specs_of(old);
    let files = &specs[..old.file_count()];
    let table = match log_shape(alloc, new.len(), sealing, files, ring) {
        Ok(table) => table,
        Err(refusal) => return Err(refusal),
    };
    match lay_log(new, &table, files) {
        Ok(()) => {}
        Err(_) => return Err(Refusal::Device),
    }
    Ok(table)
}

/// Finishes a volume with a log, of which all but the super block is written. Syncs, writes the super block, and syncs
/// again.
fn finish<D: Device, A: Allocator + Copy>(
    device: &mut D,
    table: &LogSuper<A>,
) -> Result<(), Refusal>
    requires { 4096 ≤ length (D.seen device.old) }
    ensures did { DidAll D.Device device.old (finishing_works table.now) (is_ok result) device.new }
    ensures whole { length (log_super_text table.now) ≡ 4096 }
    ensures fault { IfErr result (λ refusal. refusal ≡ Refusal.Device) }
{
    match finish_log(device, table) {
        Ok(()) => Ok(()),
        Err(_) => Err(Refusal::Device),
    }
}

/// Makes a volume with a log of `ring` blocks, on another device whose bytes are all 0. Its files have the same names,
/// lengths, capacities and bytes as those of the old volume. It is in layout 5 if a byte seals commits, and in layout 6
/// if a digest does. The log has no commit.
///
/// Fails with:
///
/// - `BadShape` if no volume has these files and this log, or if the other device is shorter than the volume. Then no
///   memory was taken and no device call was made.
/// - `OutOfMemory` before any device call.
/// - `Device` if a call of one of the two devices failed.
///
/// The old volume is never written, even if the call fails or the other device isn't honest. On the other device, the
/// start of the log and the lengths are written first. Then the files are copied, 32,768 bytes at a time and each up to
/// its length. All this is synced before the super block is written and synced. A crash meanwhile leaves block 0 as it
/// was, or any bytes in it with the rest of the volume complete. Block 1, block 3, the log, and the bytes past the
/// volume stay unchanged.
pub fn migrate_to_log<D: Device, E: Device, A: Allocator + Copy>(
    alloc: A,
    old: &mut Volume<D, A>,
    new: &mut E,
    sealing: Sealing,
    ring: u64,
) -> Result<(), Refusal>
    ensures migrated { D.is_honest old.old.device → E.is_honest new.old → IsZero (E.seen new.old)
        → OnOk result (HasMigratedToLog D.Device E.Device sealing ring old.old new.old new.new) }

    // The old volume stays as it is, and is never written.
    ensures table { old.new.table ≡ old.old.table }
    ensures lengths { old.new.lengths ≡ old.old.lengths }
    ensures unwritten { D.is_honest old.old.device → IsUnwritten D.Device old.old.device old.new.device }

    ensures others { E.is_honest new.old → (i : ℕ)
        → ((table : LogSuperValue) → IsLogAsked sealing (asked_of old.old) ring table → ¬ IsWrittenByMigration table i)
        → slice_index (E.seen new.new) i ≡ slice_index (E.seen new.old) i }
    ensures crash { E.is_honest new.old → IsZero (E.seen new.old)
        → LeavesOnly E.moment E.left_since new.old new.new
        (LeftByLogMigration D.Device E.Device sealing ring old.old new.old) }
    ensures refused { IfErr result (RefusesLogFormat sealing (asked_of old.old) ring (length (E.seen new.old))) }
    ensures unchanged { IfErr result (λ refusal. (refusal ≡ Refusal.Device)
        ⊎ ((new.new ≡ new.old) × (old.new ≡ old.old))) }
    ensures kept { AreAccounted D.Device E.Device old.old.device new.old result old.new.device new.new }
{
    let table = match begin(alloc, old, new, sealing, ring) {
        Ok(table) => table,
        Err(refusal) => return Err(refusal),
    };
    match copy_files(old, new, table.log().first_file_home()) {
        Ok(()) => {}
        Err(refusal) => return Err(refusal),
    }
    finish(new, &table)
}
