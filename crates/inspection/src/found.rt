// What is found of a device's volume.
ghost use Rattle.std.specs.Prelude.{◌≡◌, length, IfOk, IfErr};
ghost use Rattle.recovery.specs.Opening.{RefusesOpening};
ghost use Rattle.recovery.specs.Reading.{IsOnlyRead};
ghost use Rattle.inspection.specs.Found.{IsFound};
ghost use Rattle.inspection.specs.Reading.{IsJudged};

use crate::reading::{read_journals, read_parts};
use device::Device;
use page_entry::Refusal;
use recovery::kinds_of_bytes;
use recovery::reading::{find_lengths, opening_calls};
use std::alloc::Allocator;
use volume_codec::{Descriptor, Super};

/// What is found of a journal.
#[derive(Drop)]
pub struct Journal<A: Allocator + Copy> {
    /// Its number, counted from 0.
    pub number: u32,
    /// The first byte of its gate.
    pub gate: u8,
    /// Its descriptor, if that byte opens the gate.
    pub descriptor: Option<Descriptor<A>>,
}

/// What is found of a volume.
#[derive(Drop)]
pub struct Found<A: Allocator + Copy> {
    /// The layout, the record slots and the files.
    pub table: Super<A>,
    /// The length in bytes of each file, as the volume recovers.
    pub lengths: Vec<u64, A>,
    /// The journals, in order.
    pub journals: Vec<Journal<A>, A>,
    /// The number of device calls that opening makes.
    pub calls: u64,
}

/// Finds the volume in a device's bytes, and counts the device calls that opening makes. The device is only read.
///
/// Fails as opening fails: with `NotAVolume` if the bytes are no volume, and with `Damaged` if they are a damaged
/// volume. It may fail instead with `Device`, if a device call failed, or with `OutOfMemory`.
pub fn inspect<D: Device, A: Allocator + Copy>(
    alloc: A,
    device: &mut D,
) -> Result<Found<A>, Refusal>
    ensures found { D.is_honest device.old → IfOk result (IsFound (D.seen device.old)) }
    ensures count { IfOk result (λ found. length found.lengths.items ≡ length found.table.files) }
    ensures refused { D.is_honest device.old → IfErr result (RefusesOpening (D.seen device.old)) }
    ensures judged { D.is_honest device.old → IsJudged (D.seen device.old) result }
    ensures read { IsOnlyRead D.Device device.old device.new }
{
    kinds_of_bytes();
    find(alloc, device)
}

// Finds the volume in a device's bytes.
fn find<D: Device, A: Allocator + Copy>(alloc: A, device: &mut D) -> Result<Found<A>, Refusal>
    ensures found { D.is_honest device.old → IfOk result (IsFound (D.seen device.old)) }
    ensures count { IfOk result (λ found. length found.lengths.items ≡ length found.table.files) }
    ensures refused { D.is_honest device.old → IfErr result (RefusesOpening (D.seen device.old)) }
    ensures read { IsOnlyRead D.Device device.old device.new }
{
    let (table, open) = read_parts(alloc, device)?;
    let lengths = find_lengths(alloc, device, &table, &open)?;
    let journals = read_journals(alloc, device, &table.geometry())?;
    let calls = opening_calls(&table, &open);
    Ok(Found {
        table,
        lengths,
        journals,
        calls,
    })
}
