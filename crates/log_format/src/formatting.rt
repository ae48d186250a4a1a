// Makes a volume with a log on a device whose bytes are all 0.
ghost use Rattle.std.specs.Prelude.{◌≡◌, ◌⊎◌, ◌*◌, ◌≤◌, ◌+◌, ℕ, length, slice_index, is_ok, IfOk, IfErr, OnOk};
ghost use Rattle.device.specs.Device.{LeavesOnly};
ghost use Rattle.device.specs.Did.{Did};
ghost use Rattle.device.specs.Work.{WriteAt};
ghost use Rattle.volume_codec.specs.Files.{asked_by, lengths_asked};
ghost use Rattle.volume_codec.specs.Lengths.{lengths_text};
ghost use Rattle.new_volume.specs.Formatting.{IsZero, DidAll};
ghost use Rattle.log_codec.specs.Log.{first_log_home};
ghost use Rattle.log_codec.specs.Start.{start_text};
ghost use Rattle.log_volume.specs.Super.{LogSuperValue, log_of, log_super_text};
ghost use Rattle.log_format.specs.Asked.{IsLogAsked, HasLogShape, RefusesLogFormat};
ghost use Rattle.log_format.specs.Fresh.{first_log_start};
ghost use Rattle.log_format.specs.Formatting.{log_works, laying_works, finishing_works, IsWrittenInLog, HasAskedLog, HasFormattedLog, LeftByLogFormat};

use crate::asked::{asked_super, log_block_count};
use device::{Device, DeviceFault, write_at};
use log_codec::{LogGeometry, LogStart, Sealing, encode_start};
use log_volume::LogSuper;
use new_volume::finish_new;
use page_entry::{PAGE, Refusal};
use std::alloc::Allocator;
use volume_codec::{FileSpec, write_lengths_of};

/// The start of a new log.
const FIRST_START: LogStart = LogStart {
    position: 0,
    number: 1,
    epoch: 1,
};

/// Makes a volume with a log of `ring` blocks on a device whose bytes are all 0. The log has no commit, and the files
/// have these lengths and only zeros. The call writes the start in block 2 and the lengths block, and syncs. Then it
/// writes block 0 and syncs. No other byte changes, even if the call fails.
///
/// Fails with:
///
/// - `BadShape` if no volume has these files and this log (`log_block_count`), or if the device is shorter than the
///   volume. Then no memory was taken and no device call was made.
/// - `OutOfMemory` before any device call.
/// - `Device` if a device call failed. Then the later calls weren't made.
pub fn format_log<D: Device, A: Allocator + Copy>(
    alloc: A,
    device: &mut D,
    sealing: Sealing,
    files: &[FileSpec],
    ring: u64,
) -> Result<(), Refusal>
    ensures formatted { D.is_honest device.old → IsZero (D.seen device.old)
        → OnOk result (HasFormattedLog D.Device sealing (asked_by files.now) ring device.old device.new) }
    ensures others { D.is_honest device.old → (i : ℕ)
        → ((table : LogSuperValue) → IsLogAsked sealing (asked_by files.now) ring table → ¬ IsWrittenInLog table i)
        → slice_index (D.seen device.new) i ≡ slice_index (D.seen device.old) i }
    ensures asked { HasAskedLog D.Device sealing (asked_by files.now) ring device.old result device.new }
    ensures crash { D.is_honest device.old → IsZero (D.seen device.old)
        → LeavesOnly D.moment D.left_since device.old device.new
        (LeftByLogFormat D.Device sealing (asked_by files.now) ring device.old) }
{
    let table = log_shape(alloc, device.len(), sealing, files, ring)?;
    match write_fresh(device, &table, files) {
        Ok(()) => Ok(()),
        Err(_) => Err(Refusal::Device),
    }
}

/// Returns the super block of these files in a volume with a log of `ring` blocks, on a device of `bytes` bytes. Fails
/// with `BadShape`, before it takes memory, if there is no such volume or the device is shorter than it.
pub fn log_shape<A: Allocator + Copy>(
    alloc: A,
    bytes: u64,
    sealing: Sealing,
    files: &[FileSpec],
    ring: u64,
) -> Result<LogSuper<A>, Refusal>
    ensures ok { IfOk result (HasLogShape sealing (asked_by files.now) ring bytes) }
    ensures refused { IfErr result (RefusesLogFormat sealing (asked_by files.now) ring bytes) }
    ensures early { IfErr result (λ refusal. (refusal ≡ Refusal.BadShape) ⊎ (refusal ≡ Refusal.OutOfMemory)) }
{
    let blocks = log_block_count(sealing, files, ring)?;
    if bytes < PAGE * blocks {
        return Err(Refusal::BadShape);
    }
    asked_super(alloc, sealing, files, ring)
}

// Writes the first start, the lengths of these files, and their super block.
fn write_fresh<D: Device, A: Allocator + Copy>(
    device: &mut D,
    table: &LogSuper<A>,
    files: &[FileSpec],
) -> Result<(), DeviceFault>
    requires long { 4096 * (log_of table.now).blocks ≤ length (D.seen device.old) }
    requires few { length files.now ≤ 64 }
    ensures did { DidAll D.Device device.old (log_works table.now (lengths_asked (asked_by files.now)))
        (is_ok result) device.new }
    ensures table { length (log_super_text table.now) ≡ 4096 }
    ensures lengths { length (lengths_text (lengths_asked (asked_by files.now))) ≡ 4096 }
    ensures start { length (start_text first_log_start) ≡ 4096 }
{
    let _block = table.to_block();
    match lay_log(device, table, files) {
        Ok(()) => {}
        Err(fault) => return Err(fault),
    }
    finish_log(device, table)
}

/// Writes the first start and the lengths of these files. Apart from block 0, everything else before the first home
/// block of a file stays zero in a new volume. The device must be long enough for the volume.
pub fn lay_log<D: Device, A: Allocator + Copy>(
    device: &mut D,
    table: &LogSuper<A>,
    files: &[FileSpec],
) -> Result<(), DeviceFault>
    requires long { 4096 * (log_of table.now).blocks ≤ length (D.seen device.old) }
    requires few { length files.now ≤ 64 }
    ensures did { DidAll D.Device device.old (laying_works table.now (lengths_asked (asked_by files.now)))
        (is_ok result) device.new }
    ensures lengths { length (lengths_text (lengths_asked (asked_by files.now))) ≡ 4096 }
    ensures start { length (start_text first_log_start) ≡ 4096 }
{
    let lengths = write_lengths_of(files);
    match put_start(device, &table.log()) {
        Ok(()) => {}
        Err(fault) => return Err(fault),
    }
    put_lengths(device, &table.log(), &lengths)
}

/// Finishes a volume with a log, of which all but the super block is written. Syncs, writes the super block, and syncs
/// again.
pub fn finish_log<D: Device, A: Allocator + Copy>(
    device: &mut D,
    table: &LogSuper<A>,
) -> Result<(), DeviceFault>
    requires { 4096 ≤ length (D.seen device.old) }
    ensures did { DidAll D.Device device.old (finishing_works table.now) (is_ok result) device.new }
    ensures table { length (log_super_text table.now) ≡ 4096 }
{
    let block = table.to_block();
    finish_new(device, &block)
}

// Writes the start of a new log.
fn put_start<D: Device>(device: &mut D, log: &LogGeometry) -> Result<(), DeviceFault>
    requires { 4096 * log.now.blocks ≤ length (D.seen device.old) }
    ensures did { Did D.Device device.old (WriteAt 8192 (start_text first_log_start)) (is_ok result) device.new }
    ensures start { length (start_text first_log_start) ≡ 4096 }
{
    let _ring = log.ring();
    let start = encode_start(&FIRST_START);
    write_at(device, 2 * PAGE, &start)
}

// Writes the lengths block.
fn put_lengths<D: Device>(
    device: &mut D,
    log: &LogGeometry,
    lengths: &[u8; 4096],
) -> Result<(), DeviceFault>
    requires { 4096 * log.now.blocks ≤ length (D.seen device.old) }
    ensures { Did D.Device device.old (WriteAt (4096 * first_log_home log.now.ring) lengths.now) (is_ok result)
        device.new }
{
    write_at(device, PAGE * u64::from(log.first_home()), lengths)
}
