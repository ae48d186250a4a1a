// The device calls that formatting and opening make. A fault becomes the refusal `Device`.
ghost use Rattle.std.specs.Prelude.{◌≡◌, ◌+◌, ◌*◌, ◌≤◌, length, slice_range, is_ok, IfOk, IfErr, OnOk};
ghost use Rattle.device.specs.Did.{Did};
ghost use Rattle.device.specs.Work.{Sync, WriteAt};
ghost use Rattle.volume_codec.specs.Layout.{block_at, blocks_at};
ghost use Rattle.volume_codec.specs.Text.{zeros};
ghost use Rattle.recovery.specs.Counts.{Rises, IsAccounted};
ghost use Rattle.recovery.specs.Reading.{IsOnlyRead};
ghost use Rattle.recovery.specs.inside.Writing.{DidBoth};

use device::{Device, make_durable, write_at};
use page_entry::{PAGE, Refusal};

/// Returns a block of zeros.
pub fn zero_block() -> [u8; 4096]
    ensures { result ≡ zeros 4096 }
{
    [0; 4096]
}

/// Fills the buffer with the device's bytes from offset `at` on. Fails with `Device` if the device call fails.
pub fn read<D: Device>(device: &mut D, at: u64, buffer: &mut [u8]) -> Result<(), Refusal>
    requires { at + length buffer.old ≤ length (D.seen device.old) }

    ensures bytes { D.is_honest device.old
        → OnOk result (buffer.new ≡ slice_range (D.seen device.old) at (at + length buffer.old)) }
    ensures read { IsOnlyRead D.Device device.old device.new }
    ensures kept { IsAccounted D.Device device.old result device.new }
    ensures carried { D.carried device.new ≡ D.carried device.old }
    ensures fault { IfErr result (λ refusal. refusal ≡ Refusal.Device) }
    ensures calls { Rises 1 (D.calls_made device.old) (D.calls_made device.new) }
    ensures size { length buffer.new ≡ length buffer.old }
{
    match device.read(at, buffer) {
        Ok(()) => Ok(()),
        Err(_) => Err(Refusal::Device),
    }
}

/// Returns the bytes of a block. Fails with `Device` if the device call fails.
pub fn read_block<D: Device>(device: &mut D, block: u32) -> Result<[u8; 4096], Refusal>
    requires { 4096 * block + 4096 ≤ length (D.seen device.old) }

    ensures bytes { D.is_honest device.old → IfOk result (λ bytes. bytes ≡ block_at (D.seen device.old) block) }
    ensures read { IsOnlyRead D.Device device.old device.new }
    ensures kept { IsAccounted D.Device device.old result device.new }
    ensures fault { IfErr result (λ refusal. refusal ≡ Refusal.Device) }
    ensures calls { Rises 1 (D.calls_made device.old) (D.calls_made device.new) }
{
    let mut bytes = zero_block();
    read(device, PAGE * u64::from(block), &mut bytes)?;
    Ok(bytes)
}

/// Reads `count` blocks, from `block` on, into a buffer of that size. Makes one device call. Fails with `Device` if it
/// fails.
pub fn read_blocks<D: Device>(
    device: &mut D,
    block: u32,
    count: u32,
    buffer: &mut [u8],
) -> Result<(), Refusal>
    requires long { 4096 * block + 4096 * count ≤ length (D.seen device.old) }
    requires size { length buffer.old ≡ 4096 * count }

    ensures bytes { D.is_honest device.old
        → OnOk result (buffer.new ≡ blocks_at (D.seen device.old) block count) }
    ensures read { IsOnlyRead D.Device device.old device.new }
    ensures kept { IsAccounted D.Device device.old result device.new }
    ensures fault { IfErr result (λ refusal. refusal ≡ Refusal.Device) }
    ensures calls { Rises 1 (D.calls_made device.old) (D.calls_made device.new) }
    ensures size { length buffer.new ≡ length buffer.old }
{
    read(device, PAGE * u64::from(block), buffer)?;
    Ok(())
}

/// Writes bytes from offset `at` on. Fails with `Device` if the device call fails.
pub fn write<D: Device>(device: &mut D, at: u64, bytes: &[u8]) -> Result<(), Refusal>
    requires { at + length bytes.now ≤ length (D.seen device.old) }
    ensures did { Did D.Device device.old (WriteAt at bytes.now) (is_ok result) device.new }
    ensures fault { IfErr result (λ refusal. refusal ≡ Refusal.Device) }
{
    match write_at(device, at, bytes) {
        Ok(()) => Ok(()),
        Err(_) => Err(Refusal::Device),
    }
}

/// Makes all written bytes durable. Fails with `Device` if the device call fails.
pub fn sync<D: Device>(device: &mut D) -> Result<(), Refusal>
    ensures did { Did D.Device device.old Sync (is_ok result) device.new }
    ensures fault { IfErr result (λ refusal. refusal ≡ Refusal.Device) }
{
    match make_durable(device) {
        Ok(()) => Ok(()),
        Err(_) => Err(Refusal::Device),
    }
}

/// Writes bytes from offset `at` on, and makes them durable. Fails with `Device` if a device call fails.
pub fn write_synced<D: Device>(device: &mut D, at: u64, bytes: &[u8]) -> Result<(), Refusal>
    requires { at + length bytes.now ≤ length (D.seen device.old) }
    ensures did { DidBoth D.Device device.old (WriteAt at bytes.now) Sync (is_ok result) device.new }
    ensures fault { IfErr result (λ refusal. refusal ≡ Refusal.Device) }
{
    write(device, at, bytes)?;
    sync(device)
}
