// Whether a volume with a log is undamaged, and whether its log has commits.
ghost use Rattle.std.specs.Prelude.{IfOk, IfErr};
ghost use Rattle.log_recovery.specs.Reading.{ReadsAlone};
ghost use Rattle.volume_reading.specs.Logged.{RefusesLogReading};
ghost use Rattle.inspection.specs.LogHealth.{IsLogHealth};

use crate::health::Health;
use device::Device;
use page_entry::Refusal;
use std::alloc::Allocator;
use volume_reading::read_log_volume;

/// Returns the state of the volume with a log on a device. The device is only read.
///
/// Fails as reading fails: with `NotAVolume` if the bytes are no volume with a log, and with `Damaged` if they are a
/// damaged one. It may fail instead with `Device`, if a device call failed, or with `OutOfMemory`.
pub fn examine_log<D: Device, A: Allocator + Copy>(
    alloc: A,
    device: &mut D,
) -> Result<Health, Refusal>
    ensures health { D.is_honest device.old → IfOk result (IsLogHealth (D.seen device.old)) }
    ensures refused { D.is_honest device.old → IfErr result (RefusesLogReading (D.seen device.old)) }
    ensures read { ReadsAlone D.Device device.old device.new }
{
    match read_log_volume(alloc, device) {
        Ok(found) => {
            if found.log.commits.len() == 0 {
                Ok(Health::Clean)
            } else {
                Ok(Health::NeedsOpening)
            }
        }
        Err(refusal) => Err(refusal),
    }
}
