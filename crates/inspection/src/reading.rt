// Reads a volume's table and journals without changing them.
ghost use Rattle.std.specs.Prelude.{◌≡◌, ◌+◌, ◌*◌, ◌≤◌, ◌<◌, length, slice_index, IfOk, IfErr};
ghost use Rattle.volume_codec.specs.Layout.{journals_of, gate_block, descriptor_blocks};
ghost use Rattle.volume_codec.specs.Recovery.{IsVolume};
ghost use Rattle.volume_codec.specs.Super.{block_count, geometry_of};
ghost use Rattle.recovery.specs.Opening.{RefusesOpening};
ghost use Rattle.recovery.specs.Reading.{batches_of, AreBatches, IsOnlyRead, RefusesJournals};
ghost use Rattle.inspection.specs.Found.{IsJournal, AreJournals};

use crate::found::Journal;
use device::Device;
use page_entry::{PAGE, Refusal};
use recovery::reading::{OpenJournal, read, read_descriptor_of, read_open, read_table};
use std::alloc::Allocator;
use volume_codec::{Geometry, OPEN_GATE, Super};

/// Returns the table of a device's volume, and its open journals, the newest first. Fails with `NotAVolume` and
/// `Damaged` as opening does. It doesn't check the lengths of the files.
pub fn read_parts<D: Device, A: Allocator + Copy>(
    alloc: A,
    device: &mut D,
) -> Result<(Super<A>, Vec<OpenJournal<A>, A>), Refusal>
    ensures volume { D.is_honest device.old
        → IfOk result (λ parts. IsVolume parts.0 (batches_of parts.1.items) (D.seen device.old)) }
    ensures batches { IfOk result (λ parts. AreBatches (geometry_of parts.0) (batches_of parts.1.items)) }
    ensures long { IfOk result (λ parts. 4096 * block_count parts.0 ≤ length (D.seen device.old)) }
    ensures refused { D.is_honest device.old → IfErr result (RefusesOpening (D.seen device.old)) }
    ensures read { IsOnlyRead D.Device device.old device.new }
{
    let table = read_table(alloc, device)?;
    let found = read_open(alloc, device, &table.geometry())?;
    Ok((table, found))
}

// Returns the first byte of a journal's gate.
fn read_gate<D: Device>(device: &mut D, geometry: &Geometry, journal: u32) -> Result<u8, Refusal>
    requires there { journal < journals_of geometry.now.layout }
    requires long { 4096 * geometry.now.blocks ≤ length (D.seen device.old) }
    ensures gate { D.is_honest device.old → IfOk result
        (λ gate. gate ≡ slice_index (D.seen device.old) (4096 * gate_block geometry.now.slots journal)) }
    ensures read { IsOnlyRead D.Device device.old device.new }
    ensures fault { IfErr result (λ refusal. refusal ≡ Refusal.Device) }
{
    let block = geometry.gate_block(journal);
    let mut gate = [0];
    read(device, PAGE * u64::from(block), &mut gate)?;
    Ok(gate[0])
}

// Returns a vector of zeros with the length of a descriptor.
fn descriptor_room<A: Allocator + Copy>(
    alloc: A,
    geometry: &Geometry,
) -> Result<Vec<u8, A>, Refusal>
    ensures size { IfOk result (λ bytes. length bytes.items ≡ 4096 * descriptor_blocks geometry.now.slots) }
    ensures refused { IfErr result (λ refusal. refusal ≡ Refusal.OutOfMemory) }
{
    let size = PAGE * u64::from(geometry.descriptor_blocks());
    match vec![in alloc; 0; size as usize] {
        Ok(bytes) => Ok(bytes),
        Err(_) => Err(Refusal::OutOfMemory),
    }
}

// Reads a journal. Fails with `Damaged` if its gate is open and its descriptor breaks the grammar.
fn read_journal<D: Device, A: Allocator + Copy>(
    alloc: A,
    device: &mut D,
    geometry: &Geometry,
    journal: u32,
) -> Result<Journal<A>, Refusal>
    requires there { journal < journals_of geometry.now.layout }
    requires long { 4096 * geometry.now.blocks ≤ length (D.seen device.old) }
    ensures says { D.is_honest device.old → IfOk result (IsJournal geometry.now (D.seen device.old) journal) }
    ensures refused { D.is_honest device.old → IfErr result (RefusesJournals geometry.now (D.seen device.old)) }
    ensures read { IsOnlyRead D.Device device.old device.new }
{
    let gate = read_gate(device, geometry, journal)?;
    if gate != OPEN_GATE {
        return Ok(Journal {
            number: journal,
            gate,
            descriptor: None,
        });
    }
    let mut room = descriptor_room(alloc, geometry)?;
    match read_descriptor_of(alloc, device, geometry, journal, &mut room) {
        Ok(descriptor) => Ok(Journal {
            number: journal,
            gate,
            descriptor: Some(descriptor),
        }),
        Err(refusal) => Err(refusal),
    }
}

/// Reads the journals, in order. Fails with `Damaged` if the descriptor of an open one breaks the grammar.
pub fn read_journals<D: Device, A: Allocator + Copy>(
    alloc: A,
    device: &mut D,
    geometry: &Geometry,
) -> Result<Vec<Journal<A>, A>, Refusal>
    requires long { 4096 * geometry.now.blocks ≤ length (D.seen device.old) }
    ensures say { D.is_honest device.old
        → IfOk result (λ found. AreJournals geometry.now (D.seen device.old) found.items) }
    ensures count { IfOk result (λ found. length found.items ≡ journals_of geometry.now.layout) }
    ensures refused { D.is_honest device.old → IfErr result (RefusesJournals geometry.now (D.seen device.old)) }
    ensures read { IsOnlyRead D.Device device.old device.new }
{
    let journals = geometry.journals();
    let mut found = Vec::new(alloc);
    for journal in 0..journals {
        let says = read_journal(alloc, device, geometry, journal)?;
        if found.push(says).is_err() {
            return Err(Refusal::OutOfMemory);
        }
    }
    Ok(found)
}
