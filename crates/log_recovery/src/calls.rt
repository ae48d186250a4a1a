// Device calls whose faults are refusals.
ghost use Rattle.std.specs.Prelude.{◌≡◌, ◌+◌, ◌*◌, ◌≤◌, length, IfOk, IfErr};
ghost use Rattle.volume_codec.specs.Layout.{block_at};
ghost use Rattle.log_recovery.specs.Reading.{ReadsAlone, HasFaultsBy};

use device::Device;
use page_entry::{PAGE, Refusal};

/// Reads a block. Fails with `Device` if the device call failed.
pub fn read_block<D: Device>(device: &mut D, block: u32) -> Result<[u8; 4096], Refusal>
    requires { 4096 * block + 4096 ≤ length (D.seen device.old) }
    ensures bytes { D.is_honest device.old → IfOk result (λ bytes. bytes ≡ block_at (D.seen device.old) block) }
    ensures read { ReadsAlone D.Device device.old device.new }
    ensures len { length (D.seen device.new) ≡ length (D.seen device.old) }
    ensures faults { HasFaultsBy (D.faults_met device.old) (D.faults_met device.new) result }
    ensures fault { IfErr result (λ refusal. refusal ≡ Refusal.Device) }
{
    let mut bytes = [0; 4096];
    match device.read(PAGE * u64::from(block), &mut bytes) {
        Ok(()) => Ok(bytes),
        Err(_) => Err(Refusal::Device),
    }
}
