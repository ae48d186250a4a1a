// Whether a log would end at a position in another epoch.
ghost use Rattle.std.specs.Prelude.{◌≡◌, ◌↔◌, ◌*◌, ◌≤◌, length, IsTrue, IfOk, IfErr};
ghost use Rattle.log_codec.specs.declared.sealing.Sealing.TheVariants.{ByByte};
ghost use Rattle.log_codec.specs.Log.{IsLog};
ghost use Rattle.log_codec.specs.Chain.{LogEndsAt};
ghost use Rattle.log_recovery.specs.Reading.{ReadsAlone, HasFaultsBy};

use crate::commit::read_next;
use device::Device;
use log_codec::LogGeometry;
use page_entry::Refusal;
use std::alloc::Allocator;

/// Whether a log that begins at this position, with this number and in this epoch, has no commit. Only reads the
/// device. Fails with `Damaged` if there is neither a commit nor the end of a log. This doesn't happen if a digest
/// seals commits.
pub fn ends_at<D: Device, A: Allocator + Copy>(
    alloc: A,
    device: &mut D,
    log: &LogGeometry,
    epoch: u64,
    position: u32,
    number: u64,
) -> Result<bool, Refusal>
    requires long { 4096 * log.now.blocks ≤ length (D.seen device.old) }
    ensures ends { D.is_honest device.old → IfOk result (λ ends. IsTrue ends
        ↔ LogEndsAt log.now.sealing log.now epoch position number log.now.ring (D.seen device.old)) }
    ensures refused { D.is_honest device.old → IfErr result (λ refusal. refusal ≡ Refusal.Damaged
        → LogEndsAt log.now.sealing log.now epoch position number log.now.ring (D.seen device.old) → ⊥) }
    ensures byte { IfErr result (λ refusal. refusal ≡ Refusal.Damaged → log.now.sealing ≡ ByByte) }
    ensures read { ReadsAlone D.Device device.old device.new }
    ensures faults { HasFaultsBy (D.faults_met device.old) (D.faults_met device.new) result }
    ensures log { IsLog log.now }
    ensures len { length (D.seen device.new) ≡ length (D.seen device.old) }
{
    let ring = log.ring();
    match read_next(alloc, device, log, epoch, position, number, ring) {
        Ok(Some(_)) => Ok(false),
        Ok(None) => Ok(true),
        Err(refusal) => Err(refusal),
    }
}
