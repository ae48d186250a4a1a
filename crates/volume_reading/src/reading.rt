// A page of a file.
ghost use Rattle.std.specs.Prelude.{◌≡◌, ◌<◌, ◌-◌, ◌*◌, ◌≤◌, length, min, OnOk, IfErr};
ghost use Rattle.recovery.specs.Counts.{IsAccounted};
ghost use Rattle.recovery.specs.Reading.{IsOnlyRead};
ghost use Rattle.recovery.specs.Volume.{bytes_of};
ghost use Rattle.volume_reading.specs.Reading.{part_of};

use crate::found::FoundFiles;
use device::Device;
use page_entry::{PAGE, Refusal};
use recovery::reading::read;

/// Reads a page of a file of `bytes` bytes into `part`. Of the last page it reads only the bytes up to the file's end.
/// Fails with `Device` if the read fails.
pub fn read_page<V: FoundFiles, D: Device>(
    volume: &V,
    device: &mut D,
    file: usize,
    bytes: u64,
    page: u64,
    part: &mut [u8],
) -> Result<(), Refusal>
    requires sound { V.is_sound volume.now }
    requires there { file < V.count volume.now }
    requires size { V.size volume.now file ≡ bytes }
    requires within { 4096 * page < bytes }
    requires room { length part.old ≡ min (bytes - 4096 * page) 4096 }
    requires long { 4096 * V.blocks volume.now ≤ length (D.seen device.old) }
    requires found { D.is_honest device.old → V.is_in volume.now (D.seen device.old) }
    ensures page { D.is_honest device.old → OnOk result
        (part.new ≡ part_of (bytes_of (V.files volume.now (D.seen device.old)) file) page) }
    ensures read { IsOnlyRead D.Device device.old device.new }
    ensures kept { IsAccounted D.Device device.old result device.new }
    ensures fault { IfErr result (λ refusal. refusal ≡ Refusal.Device) }
{
    let block = volume.block_of(file, page);
    read(device, PAGE * u64::from(block), part)
}
