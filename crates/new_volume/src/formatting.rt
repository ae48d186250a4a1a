// Makes a volume on a device whose bytes are all 0.
ghost use Rattle.std.specs.Prelude.{◌≡◌, ◌*◌, ◌≤◌, ℕ, length, slice_index, is_ok, OnOk};
ghost use Rattle.device.specs.Did.{Did};
ghost use Rattle.volume_codec.specs.Files.{asked_by, lengths_asked};
ghost use Rattle.volume_codec.specs.Layout.{lengths_blocks, first_home};
ghost use Rattle.volume_codec.specs.Lengths.{lengths_text};
ghost use Rattle.volume_codec.specs.Super.{SuperValue, IsAsked, super_text, block_count};
ghost use Rattle.recovery.specs.Format.{HasFormatted};
ghost use Rattle.new_volume.specs.Formatting.{IsZero, IsWritten, DidAll, HasAsked, write_if, super_works, new_works};

use device::{Device, DeviceFault, make_durable, write_at};
use page_entry::{PAGE, Refusal};
use recovery::shape;
use std::alloc::Allocator;
use volume_codec::{FileSpec, Geometry, Super, write_lengths_of};

/// Makes a volume on a device whose bytes are all 0, like `recovery::format_as`, but writes only the lengths and the
/// table. It writes the lengths block if the layout has one, and syncs. Then it writes the super block and syncs. No
/// other byte changes, even if the call fails.
///
/// Fails with:
///
/// - `BadShape` if no volume has these files and slots, or if the device is shorter than the volume. Then no memory was
///   taken and no device call was made.
/// - `OutOfMemory` before any device call.
/// - `Device` if a device call failed. Then the later calls weren't made.
pub fn format_new<D: Device, A: Allocator + Copy>(
    alloc: A,
    device: &mut D,
    layout: u64,
    files: &[FileSpec],
    slots: u64,
) -> Result<(), Refusal>
    ensures formatted { D.is_honest device.old → IsZero (D.seen device.old)
        → OnOk result (HasFormatted D.Device layout (asked_by files.now) slots device.old device.new) }
    ensures others { D.is_honest device.old → (i : ℕ)
        → ((table : SuperValue) → IsAsked layout (asked_by files.now) slots table → ¬ IsWritten table i)
        → slice_index (D.seen device.new) i ≡ slice_index (D.seen device.old) i }
    ensures asked { HasAsked D.Device layout (asked_by files.now) slots device.old result device.new }
{
    let table = shape(alloc, device.len(), layout, files, slots)?;
    match write_new(device, &table, files) {
        Ok(()) => Ok(()),
        Err(_) => Err(Refusal::Device),
    }
}

// Writes the lengths of these files and their table, each synced.
fn write_new<D: Device, A: Allocator + Copy>(
    device: &mut D,
    table: &Super<A>,
    files: &[FileSpec],
) -> Result<(), DeviceFault>
    requires long { 4096 * block_count table.now ≤ length (D.seen device.old) }
    requires few { length files.now ≤ 64 }
    ensures did { DidAll D.Device device.old (new_works table.now (lengths_asked (asked_by files.now))) (is_ok result)
        device.new }
    ensures table { length (super_text table.now) ≡ 4096 }
    ensures lengths { length (lengths_text (lengths_asked (asked_by files.now))) ≡ 4096 }
{
    let block = table.to_block();
    let lengths = write_lengths_of(files);
    match put_lengths(device, &table.geometry(), &lengths) {
        Ok(()) => {}
        Err(fault) => return Err(fault),
    }
    finish_new(device, &block)
}

/// Writes the super block of a volume, of which everything else is written. Syncs, writes the block, and syncs again.
pub fn finish_new<D: Device>(device: &mut D, block: &[u8; 4096]) -> Result<(), DeviceFault>
    requires { 4096 ≤ length (D.seen device.old) }
    ensures { DidAll D.Device device.old (super_works block.now) (is_ok result) device.new }
{
    match make_durable(device) {
        Ok(()) => {}
        Err(fault) => return Err(fault),
    }
    match write_at(device, 0, block) {
        Ok(()) => {}
        Err(fault) => return Err(fault),
    }
    make_durable(device)
}

// Writes the lengths block, if the layout has one.
fn put_lengths<D: Device>(
    device: &mut D,
    geometry: &Geometry,
    lengths: &[u8; 4096],
) -> Result<(), DeviceFault>
    requires { 4096 * geometry.now.blocks ≤ length (D.seen device.old) }
    ensures { Did D.Device device.old (write_if (lengths_blocks geometry.now.layout)
        (4096 * first_home geometry.now.layout geometry.now.slots) lengths.now) (is_ok result) device.new }
{
    if geometry.layout().lengths_blocks() == 0 {
        return Ok(());
    }
    write_at(device, PAGE * u64::from(geometry.first_home()), lengths)
}
