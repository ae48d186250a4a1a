// Reads a volume with a log.
ghost use Rattle.std.specs.Prelude.{◌≡◌, ◌*◌, ◌≤◌, ℕ, List, length, IfOk, IfErr};
ghost use Rattle.volume_codec.specs.Lengths.{AreLengths};
ghost use Rattle.log_volume.specs.Super.{table_of, log_of};
ghost use Rattle.log_recovery.specs.Reading.{ReadsAlone, IsFoundLog};
ghost use Rattle.log_opening.specs.Opening.{HasFaults};
ghost use Rattle.volume_reading.specs.Logged.{IsLoggedVolume, RefusesLogReading};

use device::Device;
use log_codec::one_log;
use log_opening::{find_lengths, read_first};
use log_recovery::{FoundLog, read_log};
use log_volume::{LogSuper, one_log_super};
use page_entry::Refusal;
use std::alloc::Allocator;

/// A volume with a log that was read: the contents of its super block, the recovered length of each file, and its log.
#[derive(Drop)]
pub struct LoggedVolume<A: Allocator + Copy> {
    /// How commits are sealed, the blocks of the log, and the files.
    pub table: LogSuper<A>,
    /// The length of each file in bytes.
    pub lengths: Vec<u64, A>,
    /// The start that counts, and the commits. An opening writes the commits home.
    pub log: FoundLog<A>,
}

/// Reads a volume with a log as it recovers. Only reads the device.
///
/// Fails with:
///
/// - `NotAVolume` if the device has no block 0, or not the magic of a layout with a log.
/// - `Damaged` if it has the magic, but recovers to no files.
/// - `Device` if a device call failed.
/// - `OutOfMemory` if there is too little memory. This error may replace any of the others.
pub fn read_log_volume<D: Device, A: Allocator + Copy>(
    alloc: A,
    device: &mut D,
) -> Result<LoggedVolume<A>, Refusal>
    ensures found { D.is_honest device.old → IfOk result (IsLoggedVolume (D.seen device.old)) }
    ensures log { IfOk result (λ found. IsFoundLog (log_of found.table) found.log) }
    ensures long { IfOk result (λ found. 4096 * (log_of found.table).blocks ≤ length (D.seen device.old)) }
    ensures lengths { IfOk result (λ found. AreLengths (table_of found.table) found.lengths.items) }
    ensures count { IfOk result (λ found. length found.lengths.items ≡ length found.table.files) }
    ensures refused { D.is_honest device.old → IfErr result (RefusesLogReading (D.seen device.old)) }
    ensures read { ReadsAlone D.Device device.old device.new }
    ensures faults { HasFaults (D.faults_met device.old) (D.faults_met device.new) result }
{
    one_log();
    one_log_super();
    if device.len() < 4096 {
        return Err(Refusal::NotAVolume);
    }
    let table = match read_first(alloc, device) {
        Ok(table) => table,
        Err(refusal) => return Err(refusal),
    };
    let geometry = table.log();
    let log = match read_log(alloc, device, &geometry) {
        Ok(log) => log,
        Err(refusal) => return Err(refusal),
    };
    let lengths = match find_lengths(alloc, device, &geometry, &log, table.table()) {
        Ok(lengths) => lengths,
        Err(refusal) => return Err(refusal),
    };
    Ok(LoggedVolume {
        table,
        lengths,
        log,
    })
}
