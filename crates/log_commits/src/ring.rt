// Writes that wrap at the end of a log's ring.
ghost use Rattle.std.specs.Prelude.{◌<◌, ◌≤◌, ◌+◌, ◌*◌, is_ok, length};
ghost use Rattle.log_commits.specs.Calls.{DidAll};
ghost use Rattle.log_commits.specs.Ring.{ring_works};

use device::{Device, DeviceFault, write_at};
use log_codec::LogGeometry;

/// The offset of the first block of the log, in bytes.
const FIRST: u64 = 16384;

/// Writes all bytes but the first `from` at a position of the log. It makes one write, or two if the ring wraps.
pub fn write_ring<D: Device>(
    device: &mut D,
    log: &LogGeometry,
    position: u32,
    from: usize,
    bytes: &[u8],
) -> Result<(), DeviceFault>
    requires long { 4096 * log.now.blocks ≤ length (D.seen device.old) }
    requires few { from < 4096 }
    requires some { from ≤ length bytes.now }
    requires fits { length bytes.now ≤ 4096 * log.now.ring }
    ensures { DidAll D.Device device.old (ring_works log.now.ring position from bytes.now) (is_ok result) device.new }
{
    let _ring = log.ring();
    let at = 4096 * u64::from(log.block_behind(position, 0)) + from as u64;
    let ahead = 4096 * log.blocks_ahead(position) as usize;
    if bytes.len() <= ahead {
        return write_at(device, at, &bytes[from..]);
    }
    match write_at(device, at, &bytes[from..ahead]) {
        Ok(()) => write_at(device, FIRST, &bytes[ahead..]),
        Err(fault) => Err(fault),
    }
}
