// Opens a volume, whatever a crash left of it. The batches of open journals are carried out first.
ghost use Rattle.std.specs.Prelude.{◌≡◌, ◌↔◌, ◌+◌, ◌*◌, ◌≤◌, ◌<◌, List, [], ◌∷◌, ℕ, true, false, length, slice_index, slice_index_or, IsTrue, IfOk, IfErr, IfSome, OnOk, unwrap_or};
ghost use Rattle.std.specs.List.{AllByRecursion};
ghost use Rattle.device.specs.Device.{Only};
ghost use Rattle.volume_codec.specs.Layout.{IsGeometry, journals_of, lengths_blocks, descriptor_block, descriptor_blocks, first_home, block_at, blocks_at};
ghost use Rattle.volume_codec.specs.Super.{IsSuper, Fits, block_count, geometry_of, capacities_in};
ghost use Rattle.volume_codec.specs.Descriptor.{IsDescribed, IsDescriptor};
ghost use Rattle.volume_codec.specs.Lengths.{AreLengths, IsLengths};
ghost use Rattle.volume_codec.specs.Recovery.{Batch, AreFalling, AreOpen, IsOpen, IsVolume, recovered_block};
ghost use Rattle.journal.specs.Finished.{Finishes};
ghost use Rattle.journal.specs.WriteOut.{IsBatch};
ghost use Rattle.recovery.specs.Counts.{Rises, RisesWithin, IsAccounted};
ghost use Rattle.recovery.specs.Opening.{IsUnwritten, FindsWithin, RefusesOpening, Opens, opened_table, device_after, opening_calls as calls_of};
ghost use Rattle.recovery.specs.Reading.{batch_of, batches_of, AreFound, IsOnlyRead, RefusesJournal, RefusesJournals};
ghost use Rattle.recovery.specs.Volume.{IsWellFormed};
ghost use Rattle.recovery.specs.inside.Carrying.{CarriesOut};
ghost use Rattle.recovery.specs.inside.Reading.{AreRead, RefusesAdding, RefusesStored, JudgesWithin, HasMark, IsAdded, IsPlaceOf, table_found};

use crate::Volume;
use crate::calls::{read, read_block, read_blocks, sync, zero_block};
use device::Device;
use journal::finish;
use page_entry::{PAGE, Refusal};
use std::alloc::Allocator;
use volume_codec::{
    Descriptor, Geometry, OPEN_GATE, Super, capacities, read_descriptor, read_lengths, read_super,
};

/// A journal whose gate is open: its number, from 0, and the contents of its descriptor.
#[derive(Drop)]
pub struct OpenJournal<A: Allocator + Copy> {
    journal: u32,
    descriptor: Descriptor<A>,
}

/// Returns the table of a device's super block. Fails with `NotAVolume` or `Damaged` because of the device's length or
/// its block 0.
pub fn read_table<D: Device, A: Allocator + Copy>(
    alloc: A,
    device: &mut D,
) -> Result<Super<A>, Refusal>
    ensures table { IfOk result (λ table. D.is_honest device.old → IsSuper table (block_at (D.seen device.old) 0)) }
    ensures fits { IfOk result Fits }
    ensures long { IfOk result (λ table. 4096 * block_count table ≤ length (D.seen device.old)) }
    ensures refused { D.is_honest device.old → IfErr result (RefusesOpening (D.seen device.old)) }
    ensures read { IsOnlyRead D.Device device.old device.new }
    ensures kept { IsAccounted D.Device device.old result device.new }
    ensures calls { OnOk result (Rises 1 (D.calls_made device.old) (D.calls_made device.new)) }
    ensures most { RisesWithin 1 (D.calls_made device.old) (D.calls_made device.new) }
{
    if device.len() < PAGE {
        return Err(Refusal::NotAVolume);
    }
    let block = read_block(device, 0)?;
    let table = read_super(alloc, &block)?;
    if device.len() < PAGE * u64::from(table.block_count()) {
        return Err(Refusal::Damaged);
    }
    Ok(table)
}

// Rule: gate byte
/// Returns, for each journal, whether its gate is open.
fn read_gates<D: Device>(device: &mut D, geometry: &Geometry) -> Result<[bool; 4], Refusal>
    requires { 4096 * geometry.now.blocks ≤ length (D.seen device.old) }
    ensures gates { D.is_honest device.old → IfOk result (λ gates. (j : ℕ) → j < journals_of geometry.now.layout
        → ((slice_index_or gates j false ≡ true) ↔ IsOpen (D.seen device.old) geometry.now.slots j)) }
    ensures read { IsOnlyRead D.Device device.old device.new }
    ensures kept { IsAccounted D.Device device.old result device.new }
    ensures fault { IfErr result (λ refusal. refusal ≡ Refusal.Device) }
    ensures calls { OnOk result
        (Rises (journals_of geometry.now.layout) (D.calls_made device.old) (D.calls_made device.new)) }
    ensures most { RisesWithin (journals_of geometry.now.layout) (D.calls_made device.old) (D.calls_made device.new) }
{
    let mut gates = [false; 4];
    for journal in 0..geometry.journals() {
        let block = geometry.gate_block(journal);
        let mut gate = [0];
        read(device, PAGE * u64::from(block), &mut gate)?;
        gates[journal as usize] = gate[0] == OPEN_GATE;
    }
    Ok(gates)
}

/// Returns the contents of a journal's descriptor. The buffer has room for all its blocks. Fails with `Damaged` if the
/// descriptor breaks the grammar.
pub fn read_journal<D: Device, A: Allocator + Copy>(
    alloc: A,
    device: &mut D,
    geometry: &Geometry,
    journal: u32,
    buffer: &mut [u8],
) -> Result<Descriptor<A>, Refusal>
    requires there { journal < journals_of geometry.now.layout }
    requires long { 4096 * geometry.now.blocks ≤ length (D.seen device.old) }
    requires room { length buffer.old ≡ 4096 * descriptor_blocks geometry.now.slots }
    ensures descriptor { D.is_honest device.old → IfOk result (λ d. IsDescriptor geometry.now d
        (blocks_at (D.seen device.old) (descriptor_block geometry.now.slots journal)
        (descriptor_blocks geometry.now.slots))) }
    ensures described { IfOk result (λ d. IsDescribed geometry.now d) }
    ensures refused { D.is_honest device.old → IfErr result (RefusesJournal geometry.now
        (blocks_at (D.seen device.old) (descriptor_block geometry.now.slots journal)
        (descriptor_blocks geometry.now.slots))) }
    ensures read { IsOnlyRead D.Device device.old device.new }
    ensures kept { IsAccounted D.Device device.old result device.new }
    ensures calls { Rises 1 (D.calls_made device.old) (D.calls_made device.new) }
    ensures room_stays { length buffer.new ≡ length buffer.old }
{
    let first = geometry.descriptor_block(journal);
    read_blocks(device, first, geometry.descriptor_blocks(), buffer)?;
    read_descriptor(alloc, geometry, buffer)
}

/// Returns the place at which a journal with this mark belongs among the found journals, the newest first. Fails with
/// `Damaged` if one of them has this mark.
fn place_of<A: Allocator + Copy>(found: &[OpenJournal<A>], mark: u64) -> Result<usize, Refusal>
    ensures place { IfOk result (IsPlaceOf mark (batches_of found.now)) }
    ensures equal { IfErr result (λ refusal. (refusal ≡ Refusal.Damaged) × HasMark mark (batches_of found.now)) }
{
    let mut place = 0;
    for other in found {
        let theirs = other.descriptor.mark();
        if theirs == mark {
            return Err(Refusal::Damaged);
        }
        if theirs < mark {
            return Ok(place);
        }
        place += 1;
    }
    Ok(place)
}

// Rule: equal marks
/// Adds an open journal to those found before it, the newest first. Fails with `Damaged` if one of them has its mark.
fn add_journal<A: Allocator + Copy>(
    found: &mut Vec<OpenJournal<A>, A>,
    opened: OpenJournal<A>,
) -> Result<(), Refusal>
    ensures added { OnOk result
        (IsAdded (batch_of opened) (batches_of found.old.items) (batches_of found.new.items)) }
    ensures refused { IfErr result (RefusesAdding (batch_of opened) (batches_of found.old.items)) }
{
    let place = place_of(found, opened.descriptor.mark())?;
    if found.insert(place, opened).is_err() {
        return Err(Refusal::OutOfMemory);
    }
    Ok(())
}

/// Reads the descriptor of a journal if its gate is open, and adds the journal to those found before it, the newest
/// first. The buffer has room for all blocks of the descriptor. Fails with `Damaged` if the descriptor breaks the
/// grammar, or another journal has its mark.
fn read_if_open<D: Device, A: Allocator + Copy>(
    alloc: A,
    device: &mut D,
    geometry: &Geometry,
    journal: u32,
    is_open: bool,
    buffer: &mut [u8],
    found: &mut Vec<OpenJournal<A>, A>,
) -> Result<(), Refusal>
    requires there { journal < journals_of geometry.now.layout }
    requires long { 4096 * geometry.now.blocks ≤ length (D.seen device.old) }
    requires room { length buffer.old ≡ 4096 * descriptor_blocks geometry.now.slots }
    requires gate { D.is_honest device.old
        → ((is_open ≡ true) ↔ IsOpen (D.seen device.old) geometry.now.slots journal) }
    ensures found { D.is_honest device.old
        → AreRead geometry.now (D.seen device.old) journal (batches_of found.old.items)
        → OnOk result (AreRead geometry.now (D.seen device.old) (journal + 1) (batches_of found.new.items)) }
    ensures falling { AreFalling (batches_of found.old.items)
        → OnOk result (AreFalling (batches_of found.new.items)) }
    ensures carry { AllByRecursion (IsBatch geometry.now) (batches_of found.old.items)
        → OnOk result (AllByRecursion (IsBatch geometry.now) (batches_of found.new.items)) }
    ensures calls { OnOk result ((n : ℕ) × (n ≤ 1) × (length found.new.items ≡ length found.old.items + n)
        × Rises n (D.calls_made device.old) (D.calls_made device.new)) }
    ensures most { RisesWithin 1 (D.calls_made device.old) (D.calls_made device.new) }
    ensures refused { D.is_honest device.old → IsGeometry geometry.now
        → AreRead geometry.now (D.seen device.old) journal (batches_of found.old.items)
        → IfErr result (RefusesJournals geometry.now (D.seen device.old)) }
    ensures read { IsOnlyRead D.Device device.old device.new }
    ensures kept { IsAccounted D.Device device.old result device.new }
    ensures room_stays { length buffer.new ≡ length buffer.old }
{
    if !is_open {
        return Ok(());
    }
    let descriptor = read_journal(alloc, device, geometry, journal, buffer)?;
    let opened = OpenJournal {
        journal,
        descriptor,
    };
    add_journal(found, opened)?;
    Ok(())
}

/// Returns the open journals, the newest first. The buffer has room for all blocks of a descriptor. Fails with
/// `Damaged` if a descriptor breaks the grammar, or two journals have the same mark.
fn read_journals<D: Device, A: Allocator + Copy>(
    alloc: A,
    device: &mut D,
    geometry: &Geometry,
    gates: &[bool; 4],
    buffer: &mut [u8],
) -> Result<Vec<OpenJournal<A>, A>, Refusal>
    requires long { 4096 * geometry.now.blocks ≤ length (D.seen device.old) }
    requires room { length buffer.old ≡ 4096 * descriptor_blocks geometry.now.slots }
    requires gates { D.is_honest device.old → (j : ℕ) → j < journals_of geometry.now.layout
        → ((slice_index_or gates.now j false ≡ true) ↔ IsOpen (D.seen device.old) geometry.now.slots j) }
    ensures found { D.is_honest device.old
        → IfOk result (λ found. AreOpen geometry.now (batches_of found.items) (D.seen device.old)) }
    ensures carry { IfOk result (λ found. AllByRecursion (IsBatch geometry.now) (batches_of found.items)) }
    ensures refused { D.is_honest device.old → IfErr result (RefusesJournals geometry.now (D.seen device.old)) }
    ensures read { IsOnlyRead D.Device device.old device.new }
    ensures kept { IsAccounted D.Device device.old result device.new }
    ensures calls { IfOk result (λ found.
        Rises (length found.items) (D.calls_made device.old) (D.calls_made device.new)) }
    ensures most { RisesWithin (journals_of geometry.now.layout) (D.calls_made device.old) (D.calls_made device.new) }
{
    let journals = geometry.journals();
    let Ok(mut found) = Vec::with_capacity(alloc, journals as usize) else {
        return Err(Refusal::OutOfMemory);
    };
    for journal in 0..journals {
        let is_open = gates[journal as usize];
        read_if_open(
            alloc, device, geometry, journal, is_open, buffer, &mut found,
        )?;
    }
    Ok(found)
}

/// Returns the open journals, the newest first. Fails with `Damaged` if a descriptor breaks the grammar, or two
/// journals have the same mark. Allocates memory for a descriptor only if it has several blocks.
fn read_described<D: Device, A: Allocator + Copy>(
    alloc: A,
    device: &mut D,
    geometry: &Geometry,
    gates: &[bool; 4],
) -> Result<Vec<OpenJournal<A>, A>, Refusal>
    requires long { 4096 * geometry.now.blocks ≤ length (D.seen device.old) }
    requires gates { D.is_honest device.old → (j : ℕ) → j < journals_of geometry.now.layout
        → ((slice_index_or gates.now j false ≡ true) ↔ IsOpen (D.seen device.old) geometry.now.slots j) }
    ensures found { D.is_honest device.old
        → IfOk result (λ found. AreOpen geometry.now (batches_of found.items) (D.seen device.old)) }
    ensures carry { IfOk result (λ found. AllByRecursion (IsBatch geometry.now) (batches_of found.items)) }
    ensures refused { D.is_honest device.old → IfErr result (RefusesJournals geometry.now (D.seen device.old)) }
    ensures read { IsOnlyRead D.Device device.old device.new }
    ensures kept { IsAccounted D.Device device.old result device.new }
    ensures calls { IfOk result (λ found.
        Rises (length found.items) (D.calls_made device.old) (D.calls_made device.new)) }
    ensures most { RisesWithin (journals_of geometry.now.layout) (D.calls_made device.old) (D.calls_made device.new) }
{
    if geometry.descriptor_blocks() == 1 {
        let mut block = zero_block();
        return read_journals(alloc, device, geometry, gates, &mut block);
    }
    let size = PAGE * u64::from(geometry.descriptor_blocks());
    let Ok(mut room) = vec![in alloc; 0; size as usize] else {
        return Err(Refusal::OutOfMemory);
    };
    read_journals(alloc, device, geometry, gates, &mut room)
}

/// Returns the open journals, the newest first. Fails with `Damaged` if a descriptor breaks the grammar, or two
/// journals have the same mark.
pub fn read_open<D: Device, A: Allocator + Copy>(
    alloc: A,
    device: &mut D,
    geometry: &Geometry,
) -> Result<Vec<OpenJournal<A>, A>, Refusal>
    requires { 4096 * geometry.now.blocks ≤ length (D.seen device.old) }
    ensures found { D.is_honest device.old
        → IfOk result (λ found. AreOpen geometry.now (batches_of found.items) (D.seen device.old)) }
    ensures carry { IfOk result (λ found. AllByRecursion (IsBatch geometry.now) (batches_of found.items)) }
    ensures refused { D.is_honest device.old → IfErr result (RefusesJournals geometry.now (D.seen device.old)) }
    ensures read { IsOnlyRead D.Device device.old device.new }
    ensures kept { IsAccounted D.Device device.old result device.new }
    ensures calls { IfOk result (λ found. Rises (journals_of geometry.now.layout + length found.items)
        (D.calls_made device.old) (D.calls_made device.new)) }
    ensures most { RisesWithin (2 * journals_of geometry.now.layout)
        (D.calls_made device.old) (D.calls_made device.new) }
{
    let gates = read_gates(device, geometry)?;
    let found = read_described(alloc, device, geometry, &gates)?;
    Ok(found)
}

/// Returns the table of a device's volume, and its open journals, the newest first. Makes earlier writes durable, and
/// writes nothing.
fn judge<D: Device, A: Allocator + Copy>(
    alloc: A,
    device: &mut D,
) -> Result<(Super<A>, Vec<OpenJournal<A>, A>), Refusal>
    ensures volume { D.is_honest device.old
        → IfOk result (λ judged. IsVolume judged.0 (batches_of judged.1.items) (D.seen device.old)) }
    ensures synced { D.is_honest device.old → OnOk result (Only (D.may_leave device.new) (D.seen device.new)) }
    ensures fits { IfOk result (λ judged. Fits judged.0) }
    ensures long { IfOk result (λ judged. 4096 * block_count judged.0 ≤ length (D.seen device.old)) }
    ensures carry { IfOk result (λ judged.
        AllByRecursion (IsBatch (geometry_of judged.0)) (batches_of judged.1.items)) }
    ensures refused { D.is_honest device.old → IfErr result (RefusesOpening (D.seen device.old)) }
    ensures unwritten { D.is_honest device.old → IsUnwritten D.Device device.old device.new }
    ensures kept { IsAccounted D.Device device.old result device.new }
    ensures calls { IfOk result (λ judged. Rises (2 + journals_of judged.0.layout + length judged.1.items)
        (D.calls_made device.old) (D.calls_made device.new)) }
    ensures within { IfOk result (λ judged. RisesWithin (2 + 2 * journals_of judged.0.layout)
        (D.calls_made device.old) (D.calls_made device.new)) }
    ensures most { D.is_honest device.old
        → JudgesWithin (D.seen device.old) (D.calls_made device.old) (D.calls_made device.new) }
{
    let table = read_table(alloc, device)?;
    sync(device)?;
    let found = read_open(alloc, device, &table.geometry())?;
    Ok((table, found))
}

impl<A: Allocator + Copy> OpenJournal<A> {
    // Returns the block of the journal's record for a home block, if it has one.
    fn record_of(&self, geometry: &Geometry, home: u32) -> Option<u32>
        requires { IsBatch geometry.now (batch_of self.now) }
        ensures value { (older : List Batch) → recovered_block geometry.now.slots (batch_of self.now ∷ older) home
            ≡ unwrap_or result (recovered_block geometry.now.slots older home) }
        ensures within { IfSome result (λ block. block < geometry.now.blocks) }
    {
        // By the contract of `first_home` the slots are few enough for a record's index to fit into a `u32`.
        let _ = geometry.first_home();
        match self.descriptor.homes().binary_search(&home) {
            Ok(record) => Some(geometry.record_block(self.journal, record as u32)),
            Err(_) => None,
        }
    }
}

// Rule: recovered lengths
/// Returns the block that contains the recovered bytes of a home block. `found` are the open journals, the newest
/// first.
pub fn find_block<A: Allocator + Copy>(
    geometry: &Geometry,
    found: &[OpenJournal<A>],
    home: u32,
) -> u32
    requires carry { AllByRecursion (IsBatch geometry.now) (batches_of found.now) }
    requires within { home < geometry.now.blocks }
    ensures value { result ≡ recovered_block geometry.now.slots (batches_of found.now) home }
    ensures within { result < geometry.now.blocks }
{
    for newest in found {
        if let Some(block) = newest.record_of(geometry, home) {
            return block;
        }
    }
    home
}

/// Returns the lengths that this block of a device contains. Fails with `Damaged` if it breaks the grammar.
fn read_lengths_at<D: Device, A: Allocator + Copy>(
    alloc: A,
    device: &mut D,
    table: &Super<A>,
    at: u32,
) -> Result<Vec<u64, A>, Refusal>
    requires { 4096 * at + 4096 ≤ length (D.seen device.old) }
    ensures said { D.is_honest device.old → IfOk result
        (λ lengths. IsLengths table.now lengths.items (block_at (D.seen device.old) at)) }
    ensures are { IfOk result (λ lengths. AreLengths table.now lengths.items) }
    ensures refused { D.is_honest device.old → IfErr result
        (RefusesStored table.now (block_at (D.seen device.old) at)) }
    ensures read { IsOnlyRead D.Device device.old device.new }
    ensures kept { IsAccounted D.Device device.old result device.new }
    ensures calls { Rises 1 (D.calls_made device.old) (D.calls_made device.new) }
{
    let block = read_block(device, at)?;
    read_lengths(alloc, table, &block)
}

/// Returns the length in bytes to which each file recovers. `found` are the open journals, the newest first. Fails with
/// `Damaged` if the layout has a lengths block and its recovered bytes break the grammar.
pub fn find_lengths<D: Device, A: Allocator + Copy>(
    alloc: A,
    device: &mut D,
    table: &Super<A>,
    found: &[OpenJournal<A>],
) -> Result<Vec<u64, A>, Refusal>
    requires long { 4096 * block_count table.now ≤ length (D.seen device.old) }
    requires carry { AllByRecursion (IsBatch (geometry_of table.now)) (batches_of found.now) }
    ensures lengths { D.is_honest device.old
        → IfOk result (λ lengths. AreFound table.now (batches_of found.now) (D.seen device.old) lengths.items) }
    ensures are { IfOk result (λ lengths. AreLengths table.now lengths.items) }
    ensures fixed { IfOk result (λ lengths.
        lengths_blocks table.now.layout ≡ 0 → lengths.items ≡ capacities_in table.now) }
    ensures refused { D.is_honest device.old → IsVolume table.now (batches_of found.now) (D.seen device.old)
        → IfErr result (RefusesOpening (D.seen device.old)) }
    ensures read { IsOnlyRead D.Device device.old device.new }
    ensures kept { IsAccounted D.Device device.old result device.new }
    ensures calls { OnOk result
        (Rises (lengths_blocks table.now.layout) (D.calls_made device.old) (D.calls_made device.new)) }
    ensures most { RisesWithin (lengths_blocks table.now.layout) (D.calls_made device.old) (D.calls_made device.new) }
{
    let geometry = table.geometry();
    if geometry.layout().lengths_blocks() == 0 {
        let Ok(lengths) = capacities(alloc, table) else {
            return Err(Refusal::OutOfMemory);
        };
        return Ok(lengths);
    }
    let lengths = read_lengths_at(
        alloc,
        device,
        table,
        find_block(&geometry, found, geometry.first_home()),
    )?;
    Ok(lengths)
}

// Returns the number of device calls that an opening makes for an open journal. It reads the descriptor, reads and
// writes each record, syncs, closes the gate and syncs.
fn carrying_calls<A: Allocator + Copy>(journal: &OpenJournal<A>) -> u64
    ensures { Rises (2 * length journal.now.descriptor.homes + 4) 0 result }
{
    let records = journal.descriptor.homes().len() as u64;
    records.saturating_mul(2).saturating_add(4)
}

/// Returns the number of device calls that a successful opening of a volume with this table and these open journals
/// makes.
pub fn opening_calls<A: Allocator + Copy>(table: &Super<A>, found: &[OpenJournal<A>]) -> u64
    ensures { Rises (calls_of table.now (batches_of found.now)) 0 result }
{
    let layout = table.layout();
    let mut all = 2 + u64::from(layout.journals()) + u64::from(layout.lengths_blocks());
    for journal in found {
        all = all.saturating_add(carrying_calls(journal));
    }
    all
}

/// Returns the table of a device's volume, its open journals, the newest first, and the lengths of its files. Makes
/// earlier writes durable, and writes nothing. Allocates all memory that an opening needs.
fn judge_all<D: Device, A: Allocator + Copy>(
    alloc: A,
    device: &mut D,
) -> Result<(Super<A>, Vec<OpenJournal<A>, A>, Vec<u64, A>), Refusal>
    ensures volume { D.is_honest device.old
        → IfOk result (λ judged. IsVolume judged.0 (batches_of judged.1.items) (D.seen device.old)) }
    ensures lengths { D.is_honest device.old → IfOk result
        (λ judged. AreFound judged.0 (batches_of judged.1.items) (D.seen device.old) judged.2.items) }
    ensures are { IfOk result (λ judged. AreLengths judged.0 judged.2.items) }
    ensures fixed { IfOk result (λ judged.
        lengths_blocks judged.0.layout ≡ 0 → judged.2.items ≡ capacities_in judged.0) }
    ensures synced { D.is_honest device.old → OnOk result (Only (D.may_leave device.new) (D.seen device.new)) }
    ensures fits { IfOk result (λ judged. Fits judged.0) }
    ensures long { IfOk result (λ judged. 4096 * block_count judged.0 ≤ length (D.seen device.old)) }
    ensures carry { IfOk result (λ judged.
        AllByRecursion (IsBatch (geometry_of judged.0)) (batches_of judged.1.items)) }
    ensures refused { D.is_honest device.old → IfErr result (RefusesOpening (D.seen device.old)) }
    ensures unwritten { D.is_honest device.old → IsUnwritten D.Device device.old device.new }
    ensures kept { IsAccounted D.Device device.old result device.new }
    ensures calls { IfOk result (λ judged.
        Rises (2 + journals_of judged.0.layout + lengths_blocks judged.0.layout + length judged.1.items)
        (D.calls_made device.old) (D.calls_made device.new)) }
    ensures most { D.is_honest device.old
        → FindsWithin (D.seen device.old) (D.calls_made device.old) (D.calls_made device.new) }
{
    let (table, found) = judge(alloc, device)?;
    let lengths = find_lengths(alloc, device, &table, &found)?;
    Ok((table, found, lengths))
}

/// Finishes the batch of the oldest open journal. Its records are written to their home blocks and synced. Then its
/// gate is closed and synced.
fn carry_out<D: Device, A: Allocator + Copy>(
    device: &mut D,
    geometry: &Geometry,
    oldest: OpenJournal<A>,
) -> Result<(), Refusal>
    requires batch { IsBatch geometry.now (batch_of oldest) }
    requires long { 4096 * geometry.now.blocks ≤ length (D.seen device.old) }
    ensures finishes { Finishes D.Device geometry.now (batch_of oldest) device.old result device.new }
    ensures fault { IfErr result (λ refusal. refusal ≡ Refusal.Device) }
{
    let OpenJournal {
        journal,
        descriptor,
    } = oldest;
    let mark = descriptor.mark();
    match finish(device, geometry, journal, mark, descriptor.into_homes()) {
        Ok(()) => Ok(()),
        Err(_) => Err(Refusal::Device),
    }
}

// Rule: closing order
/// Carries out all open journals, the oldest first. Each gate is closed before the next journal's records are written.
fn carry_out_all<D: Device, A: Allocator + Copy>(
    device: &mut D,
    geometry: &Geometry,
    found: Vec<OpenJournal<A>, A>,
) -> Result<(), Refusal>
    requires carry { AllByRecursion (IsBatch geometry.now) (batches_of found.items) }
    requires long { 4096 * geometry.now.blocks ≤ length (D.seen device.old) }
    ensures carries { CarriesOut D.Device geometry.now (batches_of found.items) device.old result device.new }
    ensures kept { IsAccounted D.Device device.old result device.new }
    ensures fault { IfErr result (λ refusal. refusal ≡ Refusal.Device) }
{
    let mut waiting = found;
    while let Some(oldest) = waiting.pop() {
        carry_out(device, geometry, oldest)?;
    }
    Ok(())
}

/// Makes a device ready, and returns its table and the lengths of its files, by the rules of `open`.
fn recover<D: Device, A: Allocator + Copy>(
    alloc: A,
    device: &mut D,
) -> Result<(Super<A>, Vec<u64, A>), Refusal>
    ensures opens { Opens D.Device device.old (table_found result) device.new }
    ensures well_formed { IfOk result (λ found.
        IsWellFormed D.Device (record { table = found.0; lengths = found.1.items; device = device.new })) }
{
    let (table, found, lengths) = judge_all(alloc, device)?;
    carry_out_all(device, &table.geometry(), found)?;
    Ok((table, lengths))
}

/// Opens the volume of a device. The opening has these parts:
///
/// 1. It checks the device's length and its block 0.
/// 2. It makes earlier writes durable.
/// 3. It reads the gate of each journal, and checks the descriptors of the open ones.
/// 4. If the layout has a lengths block, it checks the block to which this one recovers. That is its record in the
///    newest open journal that has one, or else the block itself.
/// 5. It carries out each open journal, the one with the lowest mark first. It writes the records to their home blocks
///    and syncs. Then it closes the gate and syncs.
///
/// An error contains the device. Fails with:
///
/// - `NotAVolume` if the device is shorter than a block, or doesn't begin with the magic of a layout;
/// - `Damaged` if the super block, the descriptor of an open journal or the lengths break the grammar. Also if two open
///   journals have the same mark, or the device is shorter than its volume;
/// - `Device` if a device call fails;
/// - `OutOfMemory` if memory runs out, perhaps before one of these reasons is found.
///
/// Nothing is written unless all checks succeed. So nothing is written by an opening that fails with `NotAVolume`,
/// `Damaged` or `OutOfMemory`.
///
/// | Device calls | Layout 1 | Layout 2 | Layout 3 | Layout 4 |
/// | --- | --- | --- | --- | --- |
/// | With no open journal | 3 | 4 | 5 | 7 |
/// | If it fails and writes nothing, at most | 4 | 6 | 7 | 11 |
///
/// Each open journal of k records takes 2k + 4 calls more. A descriptor is read by one call, however many blocks it
/// has. An opening makes at most 1 call if block 0 contains no table. If carrying out the journals fails, the opening
/// makes no more calls than a successful one.
pub fn open<D: Device, A: Allocator + Copy>(
    alloc: A,
    mut device: D,
) -> Result<Volume<D, A>, (Refusal, D)>
    ensures opens { Opens D.Device device (opened_table result) (device_after result) }
    ensures well_formed { IfOk result (λ volume. IsWellFormed D.Device volume) }
{
    match recover(alloc, &mut device) {
        Ok((table, lengths)) => Ok(Volume::new(table, lengths, device)),
        Err(refusal) => Err((refusal, device)),
    }
}
