// Copies a volume to another device, in another layout.
ghost use Rattle.std.specs.Prelude.{◌≡◌, ◌⊎◌, ◌+◌, ◌-◌, ◌*◌, ◌^◌, ◌<◌, ◌≤◌, ℕ, List, length, take, slice_index};
ghost use Rattle.std.specs.Prelude.{slice_range, IfOk, IfErr, OnOk};
ghost use Rattle.device.specs.Device.{written, Torn, TornFrom, LeavesOnly};
ghost use Rattle.volume_codec.specs.Files.{asked_by};
ghost use Rattle.volume_codec.specs.Super.{SuperValue, IsAsked, block_count, total_pages};
ghost use Rattle.recovery.specs.Counts.{IsAccounted};
ghost use Rattle.recovery.specs.Format.{HasShape, IsEmptied, RefusesFormat};
ghost use Rattle.recovery.specs.Migration.{asked_of, home_at, AreAccounted, Copies, AreCopied, HasMigrated};
ghost use Rattle.recovery.specs.Migration.{LeftByMigration};
ghost use Rattle.recovery.specs.Opening.{IsUnwritten};
ghost use Rattle.recovery.specs.Volume.{IsWellFormed, files_of, bytes_of};
ghost use Rattle.recovery.specs.inside.Copying.{LeftByLaying};

use crate::calls::write;
use crate::formatting::{PIECE, finish, lay_out, shape, zero_piece};
use crate::volume::Volume;
use device::Device;
use page_entry::{PAGE, Refusal};
use std::alloc::Allocator;
use volume_codec::{FileSpec, Super, block_count_as};

/// Returns the files of a volume as they are asked for, in the first elements of the array.
pub fn specs_of<D: Device, A: Allocator + Copy>(volume: &Volume<D, A>) -> [FileSpec<'_>; 64]
    ensures specs { asked_by (take (length volume.now.table.files) result) ≡ asked_of volume.now }
    ensures well_formed { IsWellFormed D.Device volume.now }
{
    let mut specs = [FileSpec {
        name: "",
        length: 0,
        capacity: 0,
    }; 64];
    for file in 0..volume.file_count() {
        specs[file] = FileSpec {
            name: volume.name(file),
            length: volume.length(file),
            capacity: volume.capacity(file),
        };
    }
    specs
}

/// Returns the number of blocks of the volume that `migrate` makes from this one, in layout `layout`, with `slots`
/// record slots for each journal. Fails with `BadShape` if there is no such volume. Allocates no memory.
pub fn migrated_blocks<D: Device, A: Allocator + Copy>(
    volume: &Volume<D, A>,
    layout: u64,
    slots: u64,
) -> Result<u64, Refusal>
    ensures ok { IfOk result (λ blocks.
        (v : SuperValue) × IsAsked layout (asked_of volume.now) slots v × (blocks ≡ block_count v)) }
    ensures err { IfErr result (λ refusal.
        (refusal ≡ Refusal.BadShape) × ((v : SuperValue) → IsAsked layout (asked_of volume.now) slots v → ⊥)) }
{
    let specs = specs_of(volume);
    block_count_as(layout, &specs[..volume.file_count()], slots)
}

/// Lays out a volume in layout `layout`, with the files of another volume, on a device.
fn begin<D: Device, E: Device, A: Allocator + Copy>(
    alloc: A,
    old: &Volume<D, A>,
    new: &mut E,
    layout: u64,
    slots: u64,
) -> Result<Super<A>, Refusal>
    ensures ok { IfOk result (HasShape layout (asked_of old.now) slots (length (E.seen new.old))) }
    ensures well_formed { IsWellFormed D.Device old.now }
    ensures emptied { E.is_honest new.old → IfOk result (λ table. IsEmptied table old.now.lengths (E.seen new.new)) }
    ensures torn { E.is_honest new.old → (table : SuperValue) → IsAsked layout (asked_of old.now) slots table
        → Torn 4096 (4096 * block_count table - 4096) (E.seen new.old) (E.seen new.new) }
    ensures left { IfOk result (λ table. (c : List ℕ) → E.may_leave new.new c
        → TornFrom 4096 (4096 * block_count table - 4096) (E.may_leave new.old) c) }
    ensures time { LeavesOnly E.moment E.left_since new.old new.new
        (LeftByLaying E.Device layout (asked_of old.now) slots new.old) }
    ensures kept { IsAccounted E.Device new.old result new.new }
    ensures refused { IfErr result (RefusesFormat layout (asked_of old.now) slots (length (E.seen new.old))) }
    ensures unchanged { IfErr result (λ refusal. (refusal ≡ Refusal.Device) ⊎ (new.new ≡ new.old)) }
{
    let specs = specs_of(old);
    let files = &specs[..old.file_count()];
    let table = shape(alloc, new.len(), layout, files, slots)?;
    lay_out(new, &table, files)?;
    Ok(table)
}

/// Copies `size` bytes of a file, from offset `at` on, to offset `to` of another device.
fn copy_piece<D: Device, E: Device, A: Allocator + Copy>(
    old: &mut Volume<D, A>,
    new: &mut E,
    file: usize,
    at: u64,
    size: u64,
    to: u64,
) -> Result<(), Refusal>
    requires there { file < length old.old.table.files }
    requires within { at + size ≤ slice_index old.old.lengths file }
    requires few { size ≤ PIECE }
    requires room { to + size ≤ length (E.seen new.old) }
    ensures copied { D.is_honest old.old.device → E.is_honest new.old → OnOk result (E.seen new.new
        ≡ written (E.seen new.old) to (slice_range
        (bytes_of (files_of old.old.table (D.seen old.old.device)) file) at (at + size))) }
    ensures copies { Copies D.Device E.Device to size old.old new.old result old.new new.new }
    ensures fault { IfErr result (λ refusal. refusal ≡ Refusal.Device) }
{
    let mut piece = zero_piece();
    let part = &mut piece[..size as usize];
    old.read_file(file, at, part)?;
    write(new, to, part)
}

/// Copies the bytes of a file to offset `to` of another device.
fn copy_file<D: Device, E: Device, A: Allocator + Copy>(
    old: &mut Volume<D, A>,
    new: &mut E,
    file: usize,
    to: u64,
) -> Result<(), Refusal>
    requires there { file < length old.old.table.files }
    requires small { to + slice_index old.old.lengths file < 2 ^ 64 }
    requires room { to + slice_index old.old.lengths file ≤ length (E.seen new.old) }
    ensures copied { D.is_honest old.old.device → E.is_honest new.old → OnOk result (E.seen new.new
        ≡ written (E.seen new.old) to (bytes_of (files_of old.old.table (D.seen old.old.device)) file)) }
    ensures copies { Copies D.Device E.Device to (slice_index old.old.lengths file)
        old.old new.old result old.new new.new }
    ensures fault { IfErr result (λ refusal. refusal ≡ Refusal.Device) }
{
    let size = old.lengths()[file];
    let mut at = 0;
    while at < size {
        let piece = (size - at).min(PIECE as u64);
        copy_piece(old, new, file, at, piece, to + at)?;
        at += piece;
    }
    Ok(())
}

/// Returns the first block of a file on a device on which the blocks of all files begin at block `first`.
fn file_home<D: Device, A: Allocator + Copy>(volume: &Volume<D, A>, first: u32, file: usize) -> u64
    requires { file < length volume.now.table.files }
    ensures home { result ≡ home_at first volume.now.table.files file }
    ensures small { result < 2 ^ 33 }
{
    let table = volume.table();
    let before = table.first_home(file) - table.geometry().first_file_home();
    u64::from(first) + u64::from(before)
}

/// Copies the bytes of all files of a volume to another device, one file after another from block `first` on. Each file
/// has as many blocks there as in the volume.
///
/// The volume isn't written. On the other device only the bytes of each file are written, at most 32,768 at a time.
/// They aren't synced. Fails with `Device` if a call of one of the two devices fails.
pub fn copy_files<D: Device, E: Device, A: Allocator + Copy>(
    old: &mut Volume<D, A>,
    new: &mut E,
    first: u32,
) -> Result<(), Refusal>
    requires { 4096 * (first + total_pages old.old.table.files) ≤ length (E.seen new.old) }
    ensures copied { D.is_honest old.old.device → E.is_honest new.old → OnOk result
        (AreCopied first old.old.table.files old.old.lengths
        (bytes_of (files_of old.old.table (D.seen old.old.device))) (length old.old.table.files)
        (E.seen new.old) (E.seen new.new)) }
    ensures copies { Copies D.Device E.Device (4096 * first) (4096 * total_pages old.old.table.files)
        old.old new.old result old.new new.new }
    ensures fault { IfErr result (λ refusal. refusal ≡ Refusal.Device) }
{
    for file in 0..old.file_count() {
        let home = file_home(old, first, file);
        copy_file(old, new, file, PAGE * home)?;
    }
    Ok(())
}

/// Makes a volume in layout `layout` on another device, with the files of this volume and `slots` record slots for each
/// journal. The files have the same names, lengths, capacities and bytes.
///
/// The old volume isn't written at any moment, even if the call fails or the other device isn't honest. Bytes past the
/// new volume stay. The new volume is laid out as by `format_as`. Then each file is copied up to its length, at most
/// 32,768 bytes at a time. Both are synced before the super block is written and synced.
///
/// A crash meanwhile changes only bytes of the new volume. Block 0 of the other device is as it was, or else all other
/// blocks of the new volume are filled. They then contain the lengths, the files' bytes with zeros past them, and
/// closed gates.
///
/// Fails with:
///
/// - `BadShape` if there is no such volume, or the other device is shorter than its blocks. This is checked before any
///   allocation or device call. So a file that is shorter than its capacity can't go to a layout without a lengths
///   block;
/// - `OutOfMemory` if memory runs out, before it makes a device call;
/// - `Device` if a call of one of the two devices fails.
pub fn migrate<D: Device, E: Device, A: Allocator + Copy>(
    alloc: A,
    old: &mut Volume<D, A>,
    new: &mut E,
    layout: u64,
    slots: u64,
) -> Result<(), Refusal>
    ensures migrated { D.is_honest old.old.device → E.is_honest new.old
        → OnOk result (HasMigrated D.Device E.Device layout slots old.old new.old new.new) }

    // The old volume is unchanged, and isn't written at any moment.
    ensures table { old.new.table ≡ old.old.table }
    ensures lengths { old.new.lengths ≡ old.old.lengths }
    ensures unwritten { D.is_honest old.old.device → IsUnwritten D.Device old.old.device old.new.device }

    ensures past { E.is_honest new.old → (table : SuperValue) (i : ℕ) → IsAsked layout (asked_of old.old) slots table
        → 4096 * block_count table ≤ i → slice_index (E.seen new.new) i ≡ slice_index (E.seen new.old) i }
    ensures crash { E.is_honest new.old → LeavesOnly E.moment E.left_since new.old new.new
        (LeftByMigration D.Device E.Device layout slots old.old new.old) }
    ensures refused { IfErr result (RefusesFormat layout (asked_of old.old) slots (length (E.seen new.old))) }
    ensures unchanged { IfErr result (λ refusal. (refusal ≡ Refusal.Device)
        ⊎ ((new.new ≡ new.old) × (old.new ≡ old.old))) }
    ensures kept { AreAccounted D.Device E.Device old.old.device new.old result old.new.device new.new }
{
    let table = begin(alloc, old, new, layout, slots)?;
    copy_files(old, new, table.geometry().first_file_home())?;
    finish(new, &table)
}
