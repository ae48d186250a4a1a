// Whether a device contains a volume with a log.
ghost use Rattle.std.specs.Prelude.{◌≡◌, ◌↔◌, IsTrue, IfOk, IfErr};
ghost use Rattle.recovery.specs.Reading.{IsOnlyRead};
ghost use Rattle.volume_files.specs.Layouts.{HasLogMagic};

use crate::cause::begins_with_log_magic;
use device::Device;
use page_entry::{PAGE, Refusal};
use recovery::reading::read;

/// Whether the first block of a device begins with the magic of a layout with a log. Fails with `Device` if the block
/// couldn't be read. The device is only read.
pub fn has_log<D: Device>(device: &mut D) -> Result<bool, Refusal>
    ensures found { D.is_honest device.old → IfOk result (λ found. IsTrue found ↔ HasLogMagic (D.seen device.old)) }
    ensures refused { IfErr result (λ refusal. refusal ≡ Refusal.Device) }
    ensures read { IsOnlyRead D.Device device.old device.new }
{
    if device.len() < PAGE {
        return Ok(false);
    }
    let mut block = [0; PAGE as usize];
    match read(device, 0, &mut block) {
        Ok(()) => Ok(begins_with_log_magic(&block)),
        Err(refusal) => Err(refusal),
    }
}
