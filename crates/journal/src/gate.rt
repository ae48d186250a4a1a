// Opening or closing a gate by its first byte.
ghost use Rattle.std.specs.Prelude.{◌*◌, ◌<◌, ◌≤◌, [], ◌∷◌, is_ok, length};
ghost use Rattle.device.specs.Did.{Did};
ghost use Rattle.device.specs.Work.{WriteAt};
ghost use Rattle.volume_codec.specs.Layout.{journals_of, gate_block};

use device::{Device, DeviceFault, write_at};
use volume_codec::Geometry;

/// Writes the byte that opens or closes the gate of a journal. The byte is durable after the next successful sync.
pub(crate) fn write_gate<D: Device>(
    device: &mut D,
    geometry: &Geometry,
    journal: u32,
    byte: u8,
) -> Result<(), DeviceFault>
    requires long { 4096 * geometry.now.blocks ≤ length (D.seen device.old) }
    requires there { journal < journals_of geometry.now.layout }
    ensures { Did D.Device device.old (WriteAt (4096 * gate_block geometry.now.slots journal) (byte ∷ []))
        (is_ok result) device.new }
{
    let gate = geometry.gate_block(journal);
    prove!(gate < geometry.block_count());
    write_at(device, 4096 * u64::from(gate), &[byte])
}
