// Copying a record to its home block.
ghost use Rattle.std.specs.Prelude.{◌*◌, ◌<◌, ◌≤◌, is_ok, length};
ghost use Rattle.device.specs.Did.{Did};
ghost use Rattle.device.specs.Work.{CopyBlock};
ghost use Rattle.volume_codec.specs.Layout.{IsHome, journals_of, record_block};

use device::{Device, DeviceFault, copy_block};
use volume_codec::Geometry;

/// Copies record `slot` of a journal to a home block: reads the record into `buffer`, and then writes it.
pub(crate) fn apply_record<D: Device>(
    device: &mut D,
    geometry: &Geometry,
    journal: u32,
    slot: u32,
    home: u32,
    buffer: &mut [u8; 4096],
) -> Result<(), DeviceFault>
    requires long { 4096 * geometry.now.blocks ≤ length (D.seen device.old) }
    requires there { journal < journals_of geometry.now.layout }
    requires within { slot < geometry.now.slots }
    requires home { IsHome geometry.now home }
    ensures { Did D.Device device.old (CopyBlock (record_block geometry.now.slots journal slot) home)
        (is_ok result) device.new }
{
    copy_block(device, geometry.record_block(journal, slot), home, buffer)
}
