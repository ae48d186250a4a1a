// Device calls whose effect is stated in one clause.
ghost use Rattle.std.specs.Prelude.{◌+◌, ◌*◌, ◌≤◌, is_ok, length};
ghost use Rattle.device.specs.Did.{Did};
ghost use Rattle.device.specs.Work.{CopyBlock, Sync, WriteAt};

use crate::{Device, DeviceFault};

/// Writes bytes from an offset on.
pub fn write_at<D: Device>(device: &mut D, at: u64, bytes: &[u8]) -> Result<(), DeviceFault>
    requires { at + length bytes.now ≤ length (D.seen device.old) }
    ensures { Did D.Device device.old (WriteAt at bytes.now) (is_ok result) device.new }
{
    match device.write(at, bytes) {
        Ok(()) => Ok(()),
        Err(fault) => Err(fault),
    }
}

/// Makes the written bytes durable.
pub fn make_durable<D: Device>(device: &mut D) -> Result<(), DeviceFault>
    ensures { Did D.Device device.old Sync (is_ok result) device.new }
{
    match device.sync() {
        Ok(()) => Ok(()),
        Err(fault) => Err(fault),
    }
}

/// Copies the block `from` to the block `to`. Block i has 4,096 bytes and begins at 4,096 times i. That is two device
/// calls, a read into `buffer` and a write, or one if the read fails. A read that fails doesn't change the device's
/// bytes.
pub fn copy_block<D: Device>(
    device: &mut D,
    from: u32,
    to: u32,
    buffer: &mut [u8; 4096],
) -> Result<(), DeviceFault>
    requires from { 4096 * from + 4096 ≤ length (D.seen device.old) }
    requires to { 4096 * to + 4096 ≤ length (D.seen device.old) }
    ensures { Did D.Device device.old (CopyBlock from to) (is_ok result) device.new }
{
    match device.read(4096 * u64::from(from), buffer) {
        Ok(()) => {}
        Err(fault) => return Err(fault),
    }
    match device.write(4096 * u64::from(to), buffer) {
        Ok(()) => Ok(()),
        Err(fault) => Err(fault),
    }
}
