// Opens a device whose super block describes a volume with a log.
ghost use Rattle.std.specs.Prelude.{◌≡◌, ◌≢◌, ◌⊎◌, ◌*◌, ◌<◌, ◌≤◌, length, slice_index, IfOk, IfErr, OnOk};
ghost use Rattle.device.specs.Device.{LeavesOnly};
ghost use Rattle.volume_codec.specs.Layout.{block_at};
ghost use Rattle.volume_codec.specs.Lengths.{AreLengths};
ghost use Rattle.log_codec.specs.Start.{IsLogStart, counts_second};
ghost use Rattle.log_volume.specs.Super.{IsLogSuper, RefusesLogSuper, table_of, log_of};
ghost use Rattle.log_recovery.specs.Reading.{ReadsAlone, IsFoundLog};
ghost use Rattle.log_opening.specs.Opening.{HasWrittenNothing, IsCounted, HasFaults};
ghost use Rattle.log_opening.specs.inside.Found.{IsFoundVolume};
ghost use Rattle.log_opening.specs.Volume.{HasOpenedVolume, RefusesVolume, LeftByOpeningVolume};

use crate::lengths::find_lengths;
use crate::looking::{Looked, look};
use crate::opening::finish;
use device::Device;
use log_codec::{LogStart, one_log};
use log_recovery::read_block;
use log_volume::{LogSuper, one_log_super, read_log_super};
use page_entry::Refusal;
use std::alloc::Allocator;

/// An opened volume with a log: the contents of its super block, and the length of each file. Its log has no commit.
/// `start` is the log's start, and `second` is true if it is the second of the two starts.
#[derive(Drop)]
pub struct OpenedLog<A: Allocator + Copy> {
    pub table: LogSuper<A>,
    pub lengths: Vec<u64, A>,
    pub start: LogStart,
    pub second: bool,
}

/// Reads the super block of a device that has at least one block. Only reads the device. Fails with `NotAVolume` if the
/// super block has no magic of a layout with a log. Fails with `Damaged` if it breaks another rule, and with `Device`
/// if it couldn't be read.
pub fn read_first<D: Device, A: Allocator + Copy>(
    alloc: A,
    device: &mut D,
) -> Result<LogSuper<A>, Refusal>
    requires long { 4096 ≤ length (D.seen device.old) }
    ensures ok { D.is_honest device.old → IfOk result (λ table. IsLogSuper table (block_at (D.seen device.old) 0)) }
    ensures refused { D.is_honest device.old → IfErr result (λ refusal. (refusal ≡ Refusal.Device)
        ⊎ RefusesLogSuper (block_at (D.seen device.old) 0) refusal) }
    ensures read { ReadsAlone D.Device device.old device.new }
    ensures faults { HasFaults (D.faults_met device.old) (D.faults_met device.new) result }
{
    let block = match read_block(device, 0) {
        Ok(block) => block,
        Err(refusal) => return Err(refusal),
    };
    match read_log_super(alloc, &block) {
        Ok(table) => Ok(table),
        Err(refusal) => Err(refusal),
    }
}

/// A volume with a log that was found on a device: the contents of its super block, the lengths of its files, and its
/// log.
#[derive(Drop)]
struct FoundVolume<A: Allocator + Copy> {
    table: LogSuper<A>,
    lengths: Vec<u64, A>,
    looked: Looked<A>,
}

/// Finds the volume with a log on a device, and makes the device's bytes durable. Writes nothing.
fn find_volume<D: Device, A: Allocator + Copy>(
    alloc: A,
    device: &mut D,
) -> Result<FoundVolume<A>, Refusal>
    ensures found { D.is_honest device.old → IfOk result (λ found. IsFoundVolume D.Device device.old found device.new) }
    ensures log { IfOk result (λ found. IsFoundLog (log_of found.table) found.looked.found) }
    ensures start { IfOk result (λ found. IsLogStart found.table.ring found.looked.next) }
    ensures fit { IfOk result (λ found. AreLengths (table_of found.table) found.lengths.items) }
    ensures long { IfOk result (λ found. 4096 * (log_of found.table).blocks ≤ length (D.seen device.old)) }
    ensures refused { D.is_honest device.old → IfErr result (RefusesVolume (D.seen device.old)) }
    ensures unwritten { HasWrittenNothing D.Device device.old device.new }
    ensures counted { IsCounted D.Device device.old result device.new }
{
    one_log();
    one_log_super();
    if device.len() < 4096 {
        return Err(Refusal::NotAVolume);
    }
    let table = match read_first(alloc, device) {
        Ok(table) => table,
        Err(refusal) => return Err(refusal),
    };
    let log = table.log();
    let looked = match look(alloc, device, &log) {
        Ok(looked) => looked,
        Err(refusal) => return Err(refusal),
    };
    let lengths = match find_lengths(alloc, device, &log, &looked.found, table.table()) {
        Ok(lengths) => lengths,
        Err(refusal) => return Err(refusal),
    };
    Ok(FoundVolume {
        table,
        lengths,
        looked,
    })
}

/// Opens a device that contains a volume with a log. The log then has no commit, each home block has its newest record,
/// and all of this is synced.
///
/// The call reads block 0, syncs, and reads the log and the lengths. Then it continues as `open_log` does.
///
/// Fails with:
///
/// - `NotAVolume` if the device has no block 0, or not the magic of a layout with a log.
/// - `Damaged` if it has the magic, but recovers to no files.
/// - `Busy` if no epoch is left.
/// - `OutOfMemory` if there is too little memory.
/// - `Device` if a device call failed.
///
/// All errors but `Device` leave the device unwritten.
pub fn open_log_volume<D: Device, A: Allocator + Copy>(
    alloc: A,
    device: &mut D,
) -> Result<OpenedLog<A>, Refusal>
    ensures opened { D.is_honest device.old → IfOk result (λ opened.
        HasOpenedVolume D.Device device.old opened.table opened.lengths.items opened.start device.new) }
    ensures second { D.is_honest device.old → IfOk result (λ opened.
        opened.second ≡ counts_second (slice_index (D.seen device.new) 4096)) }
    ensures fit { IfOk result (λ opened. AreLengths (table_of opened.table) opened.lengths.items) }
    ensures long { IfOk result (λ opened. 4096 * (log_of opened.table).blocks ≤ length (D.seen device.new)) }
    ensures refused { D.is_honest device.old → IfErr result (RefusesVolume (D.seen device.old)) }
    ensures unwritten { IfErr result (λ refusal. refusal ≢ Refusal.Device
        → HasWrittenNothing D.Device device.old device.new) }
    ensures crash { D.is_honest device.old → LeavesOnly D.moment D.left_since device.old device.new
        (LeftByOpeningVolume D.Device device.old) }
    ensures counted { IsCounted D.Device device.old result device.new }
{
    one_log();
    let found = match find_volume(alloc, device) {
        Ok(found) => found,
        Err(refusal) => return Err(refusal),
    };
    let log = found.table.log();
    match finish(alloc, device, &log, &found.looked) {
        Ok(()) => {}
        Err(refusal) => return Err(refusal),
    }
    let start = found.looked.next;
    let second = !found.looked.found.second;
    let FoundVolume { table, lengths, .. } = found;
    Ok(OpenedLog {
        table,
        lengths,
        start,
        second,
    })
}
