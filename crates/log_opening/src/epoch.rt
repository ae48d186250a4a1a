// The epoch of a new session.
ghost use Rattle.std.specs.Prelude.{◌≡◌, ℕ, ◌*◌, ◌<◌, ◌≤◌, ◌^◌, length, IfOk, IfErr};
ghost use Rattle.log_codec.specs.Log.{IsLog};
ghost use Rattle.log_codec.specs.Chain.{LogEndsAt};
ghost use Rattle.log_recovery.specs.Reading.{ReadsAlone};
ghost use Rattle.log_opening.specs.Opening.{HasFaults};
ghost use Rattle.log_opening.specs.inside.Keeping.{RefusesEpoch};

use device::Device;
use log_codec::LogGeometry;
use log_recovery::ends_at;
use page_entry::Refusal;
use std::alloc::Allocator;

/// Returns the first epoch after `last` in which a log that begins at this position, with this number, has no commit.
/// Fails with `Busy` if no epoch is left. Only reads the device.
pub fn free_epoch<D: Device, A: Allocator + Copy>(
    alloc: A,
    device: &mut D,
    log: &LogGeometry,
    last: u64,
    position: u32,
    number: u64,
) -> Result<u64, Refusal>
    requires long { 4096 * log.now.blocks ≤ length (D.seen device.old) }
    ensures later { IfOk result (λ epoch. last < epoch) }
    ensures ends { D.is_honest device.old → IfOk result (λ epoch.
        LogEndsAt log.now.sealing log.now epoch position number log.now.ring (D.seen device.old)) }
    ensures first { D.is_honest device.old → IfOk result (λ epoch. (e : ℕ) → last < e → e < epoch
        → LogEndsAt log.now.sealing log.now e position number log.now.ring (D.seen device.old) → ⊥) }
    ensures refused { D.is_honest device.old
        → IfErr result (RefusesEpoch log.now last position number (D.seen device.old)) }
    ensures read { ReadsAlone D.Device device.old device.new }
    ensures len { length (D.seen device.new) ≡ length (D.seen device.old) }
    ensures faults { HasFaults (D.faults_met device.old) (D.faults_met device.new) result }
{
    let mut epoch = last;
    while epoch != u64::MAX {
        epoch += 1;
        match ends_at(alloc, device, log, epoch, position, number) {
            Ok(true) => return Ok(epoch),
            Ok(false) => {}
            Err(refusal) => return Err(refusal),
        }
    }
    Err(Refusal::Busy)
}
