// Makes a volume on a device.
ghost use Rattle.std.specs.Prelude.{◌≡◌, ◌⊎◌, ◌+◌, ◌-◌, ◌*◌, ◌/◌, ◌<◌, ◌≤◌, ℕ, length, slice_index, IfOk, IfErr, OnOk};
ghost use Rattle.device.specs.Device.{Only, LeavesOnly};
ghost use Rattle.volume_codec.specs.Files.{asked_by, asked_by_pairs, lengths_asked};
ghost use Rattle.volume_codec.specs.Layout.{GeometryValue, IsGeometry, journals_of, lengths_blocks, gate_block, first_home, block_at};
ghost use Rattle.volume_codec.specs.Text.{zeros};
ghost use Rattle.volume_codec.specs.Super.{SuperValue, IsAsked, Fits, super_text, block_count, geometry_of};
ghost use Rattle.recovery.specs.Counts.{Rises, RisesWithin, IsAccounted};
ghost use Rattle.recovery.specs.Format.{HasShape, IsEmptied, IsBlank, IsPartlyFormatted, HasFormatted, LeftByFormat, RefusesFormat, format_calls};
ghost use Rattle.recovery.specs.inside.Erasing.{IsErased, AreClosed, AreEmptied};
ghost use Rattle.recovery.specs.inside.Writing.{HasRoom, HasOverwritten, HasFinished, laying_calls};

use crate::calls::{sync, write, write_synced};
use device::Device;
use page_entry::{PAGE, Refusal};
use std::alloc::Allocator;
use volume_codec::{
    CLOSED_GATE, FileSpec, Geometry, MAX_FILES, Super, block_count_as, block_count_of, specs_of,
    write_lengths_of,
};

/// The largest number of bytes that one device call erases or copies.
pub(crate) const PIECE: usize = 32_768;

/// Returns the number of blocks of a volume in layout `layout`, with these files and `slots` record slots for each
/// journal. Fails with `BadShape` if there is no such volume. Allocates no memory.
pub fn blocks_as(layout: u64, files: &[FileSpec], slots: u64) -> Result<u64, Refusal>
    ensures ok { IfOk result (λ blocks.
        (v : SuperValue) × IsAsked layout (asked_by files.now) slots v × (blocks ≡ block_count v)) }
    ensures err { IfErr result (λ refusal.
        (refusal ≡ Refusal.BadShape) × ((v : SuperValue) → IsAsked layout (asked_by files.now) slots v → ⊥)) }
{
    block_count_as(layout, files, slots)
}

/// Returns the number of blocks of a volume in layout 1, with these files and `slots` record slots. Each file has a
/// name and a length in bytes. Fails with `BadShape` if there is no such volume. Allocates no memory.
pub fn blocks(files: &[(&str, u64)], slots: u64) -> Result<u64, Refusal>
    ensures ok { IfOk result (λ blocks.
        (v : SuperValue) × IsAsked 1 (asked_by_pairs files.now) slots v × (blocks ≡ block_count v)) }
    ensures err { IfErr result (λ refusal.
        (refusal ≡ Refusal.BadShape) × ((v : SuperValue) → IsAsked 1 (asked_by_pairs files.now) slots v → ⊥)) }
{
    block_count_of(files, slots)
}

/// Returns the zeros for one device call that erases.
pub(crate) fn zero_piece() -> [u8; PIECE]
    ensures { result ≡ zeros PIECE }
{
    [0; PIECE]
}

/// Writes zeros from offset `from` up to, but not including, `to`.
fn erase<D: Device>(device: &mut D, from: u64, to: u64) -> Result<(), Refusal>
    requires order { from ≤ to }
    requires room { to ≤ length (D.seen device.old) }
    ensures erased { D.is_honest device.old → OnOk result (IsErased from to (D.seen device.old) (D.seen device.new)) }
    ensures overwrites { HasOverwritten D.Device from (to - from) ((to - from + 32767) / 32768)
        device.old result device.new }
    ensures fault { IfErr result (λ refusal. refusal ≡ Refusal.Device) }
{
    let zeros = zero_piece();
    let mut at = from;
    while at < to {
        let piece = (to - at).min(PIECE as u64);
        write(device, at, &zeros[..piece as usize])?;
        at += piece;
    }
    Ok(())
}

/// Writes the lengths block, if the layout has one.
fn put_lengths<D: Device>(
    device: &mut D,
    geometry: &Geometry,
    lengths: &[u8; 4096],
) -> Result<(), Refusal>
    requires { 4096 * geometry.now.blocks ≤ length (D.seen device.old) }
    ensures said { D.is_honest device.old → OnOk result (0 < lengths_blocks geometry.now.layout
        → block_at (D.seen device.new) (first_home geometry.now.layout geometry.now.slots) ≡ lengths.now) }
    ensures overwrites { HasOverwritten D.Device (4096 * first_home geometry.now.layout geometry.now.slots)
        (4096 * lengths_blocks geometry.now.layout) (lengths_blocks geometry.now.layout) device.old result device.new }
    ensures fault { IfErr result (λ refusal. refusal ≡ Refusal.Device) }
    ensures geometry { IsGeometry geometry.now }
{
    let home = geometry.first_home();
    if geometry.layout().lengths_blocks() == 0 {
        return Ok(());
    }
    write(device, PAGE * u64::from(home), lengths)
}

/// Writes the home blocks of a volume with these files: the lengths block, if the layout has one, and zeros.
fn empty_homes<D: Device>(
    device: &mut D,
    geometry: &Geometry,
    files: &[FileSpec],
) -> Result<(), Refusal>
    requires { HasRoom geometry.now.blocks files.now (D.seen device.old) }
    ensures emptied { D.is_honest device.old → OnOk result (AreEmptied geometry.now
        (lengths_asked (asked_by files.now)) (D.seen device.old) (D.seen device.new)) }
    ensures overwrites { HasOverwritten D.Device (4096 * first_home geometry.now.layout geometry.now.slots)
        (4096 * geometry.now.blocks - 4096 * first_home geometry.now.layout geometry.now.slots)
        ((geometry.now.blocks - first_home geometry.now.layout geometry.now.slots + 7) / 8
        + lengths_blocks geometry.now.layout) device.old result device.new }
    ensures fault { IfErr result (λ refusal. refusal ≡ Refusal.Device) }
{
    let homes = PAGE * u64::from(geometry.first_home());
    erase(device, homes, PAGE * u64::from(geometry.block_count()))?;
    put_lengths(device, geometry, &write_lengths_of(files))
}

/// Closes the gates of all journals.
fn close_gates<D: Device>(device: &mut D, geometry: &Geometry) -> Result<(), Refusal>
    requires { 4096 * geometry.now.blocks ≤ length (D.seen device.old) }
    ensures closed { D.is_honest device.old → OnOk result
        (AreClosed geometry.now.slots (journals_of geometry.now.layout) (D.seen device.old) (D.seen device.new)) }
    ensures overwrites { HasOverwritten D.Device 4096 (4096 * geometry.now.blocks - 4096)
        (journals_of geometry.now.layout) device.old result device.new }
    ensures fault { IfErr result (λ refusal. refusal ≡ Refusal.Device) }
{
    for journal in 0..geometry.journals() {
        let gate = geometry.gate_block(journal);
        write(device, PAGE * u64::from(gate), &[CLOSED_GATE])?;
    }
    Ok(())
}

/// Lays out a volume on a device that is long enough: the lengths of these files, zeros in their home blocks, and
/// closed gates. Block 0 is unchanged, so the device has no volume with this table until `finish`.
pub(crate) fn lay_out<D: Device, A: Allocator + Copy>(
    device: &mut D,
    table: &Super<A>,
    files: &[FileSpec],
) -> Result<(), Refusal>
    requires { HasRoom (block_count table.now) files.now (D.seen device.old) }
    ensures emptied { D.is_honest device.old → OnOk result
        (IsEmptied table.now (lengths_asked (asked_by files.now)) (D.seen device.new)) }
    ensures overwrites { HasOverwritten D.Device 4096 (4096 * block_count table.now - 4096) (laying_calls table.now)
        device.old result device.new }
    ensures fault { IfErr result (λ refusal. refusal ≡ Refusal.Device) }
{
    let geometry = table.geometry();
    empty_homes(device, &geometry, files)?;
    close_gates(device, &geometry)
}

/// Finishes a volume that was laid out. Makes the written bytes durable, then writes the table to block 0 and makes it
/// durable.
pub(crate) fn finish<D: Device, A: Allocator + Copy>(
    device: &mut D,
    table: &Super<A>,
) -> Result<(), Refusal>
    requires long { 4096 ≤ length (D.seen device.old) }
    requires fits { Fits table.now }
    ensures finishes { HasFinished D.Device (super_text table.now) device.old result device.new }
    ensures fault { IfErr result (λ refusal. refusal ≡ Refusal.Device) }
{
    sync(device)?;
    write_synced(device, 0, &table.to_block())
}

/// Writes a volume with this table to a device that is long enough. The home blocks, with the lengths of these files,
/// and the closed gates are durable before the super block is written.
fn write_table<D: Device, A: Allocator + Copy>(
    device: &mut D,
    table: &Super<A>,
    files: &[FileSpec],
) -> Result<(), Refusal>
    requires room { HasRoom (block_count table.now) files.now (D.seen device.old) }
    requires fits { Fits table.now }
    ensures blank { D.is_honest device.old → OnOk result
        (IsBlank table.now (lengths_asked (asked_by files.now)) (D.seen device.new)) }
    ensures synced { D.is_honest device.old → OnOk result (Only (D.may_leave device.new) (D.seen device.new)) }
    ensures past { D.is_honest device.old → (i : ℕ) → 4096 * block_count table.now ≤ i
        → slice_index (D.seen device.new) i ≡ slice_index (D.seen device.old) i }
    ensures crash { D.is_honest device.old → LeavesOnly D.moment D.left_since device.old device.new
        (IsPartlyFormatted table.now (lengths_asked (asked_by files.now)) (D.may_leave device.old)) }
    ensures kept { IsAccounted D.Device device.old result device.new }
    ensures fault { IfErr result (λ refusal. refusal ≡ Refusal.Device) }
    ensures calls { OnOk result
        (Rises (format_calls table.now) (D.calls_made device.old) (D.calls_made device.new)) }
    ensures most { RisesWithin (format_calls table.now) (D.calls_made device.old) (D.calls_made device.new) }
{
    lay_out(device, table, files)?;
    finish(device, table)
}

/// Returns the table of these files on a device of `bytes` bytes, in layout `layout`, with `slots` record slots for
/// each journal.
///
/// Fails with `BadShape`, before it allocates memory, if there is no such volume or the device is shorter than its
/// blocks. Fails with `OutOfMemory` if memory runs out.
pub fn shape<A: Allocator + Copy>(
    alloc: A,
    bytes: u64,
    layout: u64,
    files: &[FileSpec],
    slots: u64,
) -> Result<Super<A>, Refusal>
    ensures ok { IfOk result (HasShape layout (asked_by files.now) slots bytes) }
    ensures refused { IfErr result (RefusesFormat layout (asked_by files.now) slots bytes) }
    ensures early { IfErr result (λ refusal. (refusal ≡ Refusal.BadShape) ⊎ (refusal ≡ Refusal.OutOfMemory)) }
{
    let blocks = block_count_as(layout, files, slots)?;
    if bytes < PAGE * blocks {
        return Err(Refusal::BadShape);
    }
    Super::new(alloc, layout, files, slots)
}

/// Makes a volume in layout `layout`, with these files and `slots` record slots for each journal. Each file has the
/// length that was asked for, and all its bytes are zero. Bytes past the volume stay, even after a failure.
///
/// Writes zeros over all home blocks, at most 32,768 bytes at a time. Then writes the lengths block, if the layout has
/// one, and closes each gate. Then syncs, writes the super block, and syncs again. A failed call makes no more device
/// calls than a successful one.
///
/// A crash meanwhile changes only bytes of the volume. Block 0 is as it was, or else all other blocks of the volume are
/// empty. They then contain the lengths that were asked for, home blocks of zeros, and closed gates.
///
/// Fails with:
///
/// - `BadShape` if there is no such volume or the device is shorter than its blocks, before it allocates memory or
///   makes a device call;
/// - `OutOfMemory` if memory runs out, before it makes a device call;
/// - `Device` if a device call fails.
pub fn format_as<D: Device, A: Allocator + Copy>(
    alloc: A,
    device: &mut D,
    layout: u64,
    files: &[FileSpec],
    slots: u64,
) -> Result<(), Refusal>
    ensures formatted { D.is_honest device.old
        → OnOk result (HasFormatted D.Device layout (asked_by files.now) slots device.old device.new) }
    ensures past { D.is_honest device.old → (table : SuperValue) (i : ℕ)
        → IsAsked layout (asked_by files.now) slots table → 4096 * block_count table ≤ i
        → slice_index (D.seen device.new) i ≡ slice_index (D.seen device.old) i }
    ensures crash { D.is_honest device.old → LeavesOnly D.moment D.left_since device.old device.new
        (LeftByFormat D.Device layout (asked_by files.now) slots device.old) }
    ensures calls { OnOk result ((table : SuperValue) → IsAsked layout (asked_by files.now) slots table
        → Rises (format_calls table) (D.calls_made device.old) (D.calls_made device.new)) }
    ensures most { (table : SuperValue) → IsAsked layout (asked_by files.now) slots table
        → RisesWithin (format_calls table) (D.calls_made device.old) (D.calls_made device.new) }
    ensures refused { IfErr result (RefusesFormat layout (asked_by files.now) slots (length (D.seen device.old))) }
    ensures unchanged { IfErr result (λ refusal. (refusal ≡ Refusal.Device) ⊎ (device.new ≡ device.old)) }
    ensures kept { IsAccounted D.Device device.old result device.new }
{
    let table = shape(alloc, device.len(), layout, files, slots)?;
    write_table(device, &table, files)
}

/// Makes a volume in layout 1 with these files and `slots` record slots, by the rules of `format_as`. Each file has a
/// name and a length in bytes, and all its bytes are zero.
pub fn format<D: Device, A: Allocator + Copy>(
    alloc: A,
    device: &mut D,
    files: &[(&str, u64)],
    slots: u64,
) -> Result<(), Refusal>
    ensures formatted { D.is_honest device.old
        → OnOk result (HasFormatted D.Device 1 (asked_by_pairs files.now) slots device.old device.new) }
    ensures past { D.is_honest device.old → (table : SuperValue) (i : ℕ)
        → IsAsked 1 (asked_by_pairs files.now) slots table → 4096 * block_count table ≤ i
        → slice_index (D.seen device.new) i ≡ slice_index (D.seen device.old) i }
    ensures crash { D.is_honest device.old → LeavesOnly D.moment D.left_since device.old device.new
        (LeftByFormat D.Device 1 (asked_by_pairs files.now) slots device.old) }
    ensures calls { OnOk result ((table : SuperValue) → IsAsked 1 (asked_by_pairs files.now) slots table
        → Rises (format_calls table) (D.calls_made device.old) (D.calls_made device.new)) }
    ensures most { (table : SuperValue) → IsAsked 1 (asked_by_pairs files.now) slots table
        → RisesWithin (format_calls table) (D.calls_made device.old) (D.calls_made device.new) }
    ensures refused { IfErr result (RefusesFormat 1 (asked_by_pairs files.now) slots (length (D.seen device.old))) }
    ensures unchanged { IfErr result (λ refusal. (refusal ≡ Refusal.Device) ⊎ (device.new ≡ device.old)) }
    ensures kept { IsAccounted D.Device device.old result device.new }
{
    if files.len() > MAX_FILES {
        return Err(Refusal::BadShape);
    }
    let specs = specs_of(files);
    format_as(alloc, device, 1, &specs[..files.len()], slots)
}
