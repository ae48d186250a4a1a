// The crash states that are tried. A choice has bytes for all places, but only unsynced places get them.
ghost use Rattle.std.specs.Prelude.{◌≡◌, ◌+◌, ◌-◌, ◌*◌, ◌/◌, ◌^◌, ◌<◌, ◌≤◌, ◌==◌, ℕ, [], ◌∷◌, ◌++◌, length, slice_index, Some, IfOk, OnOk, Contains};
ghost use Rattle.std.specs.List.{list_any};
ghost use Rattle.device.specs.Device.{written};
ghost use Rattle.crash_states.specs.declared.choice.Choice.{Choice};
ghost use Rattle.crash_states.specs.declared.choice.Choice.TheVariants as choices;
ghost use Rattle.crash_states.specs.Calls.{call_of};
ghost use Rattle.crash_states.specs.Choices.{all_synced, with_block, with_blocks, begun_write, call_begun, call_ended, has_bit as is_set, new_bytes, with_copied, left_of_blocks, left_by};
ghost use Rattle.crash_states.specs.Choices.{choices_of, mixtures_of, first_mixtures, first_ones};
ghost use Rattle.crash_states.specs.Held.{content_of};

use crate::call::{Call, CallKind};
use crate::crash_fault::CrashFault;
use page_entry::PAGE;
use std::alloc::{AllocError, Allocator};
use std::fmt;

/// What a crash leaves in the blocks that were written since the last sync.
#[derive(Clone, Copy)]
pub enum Choice {
    /// The bytes at the last sync.
    Old,
    /// The written bytes.
    New,
    /// This byte in every place.
    Fill(u8),
    /// In each block, the written bytes in the first half, and the old bytes in the second half.
    Halves,
    /// The written bytes in the blocks whose bits are set in the number, and the old bytes in the others.
    Mixture(u64),
    /// The written bytes in this block, and the old bytes in the others.
    OneNew(u64),
    /// The old bytes in this block, and the written bytes in the others.
    OneOld(u64),
}

/// The most mixtures of blocks that are opened for one device call.
pub const MOST_MIXTURES: u64 = 30;

// The most blocks of which all mixtures are tried. 4 blocks have 2 ^ 4 - 2 mixtures.
const FEW_BLOCKS: u64 = 4;

// The number of bytes that were written of a half-written block.
const HALF: u64 = PAGE / 2;

/// The contents of a disk during the calls of a run.
#[derive(Drop)]
pub struct Contents<A: Allocator + Copy> {
    alloc: A,
    /// The bytes at the last sync.
    synced: Vec<u8, A>,
    /// The bytes that a read returns.
    seen: Vec<u8, A>,
    /// The blocks that were written since the last sync, each once.
    unsynced: Vec<u64, A>,
}

impl<A: Allocator + Copy> Contents<A> {
    /// Returns a disk that contains the bytes `image`, all of them synced. Fails if memory can't be allocated.
    pub fn new(alloc: A, image: &[u8]) -> Result<Self, AllocError>
        ensures { IfOk result (λ contents. content_of contents ≡ all_synced image.now) }
    {
        Ok(Contents {
            alloc,
            synced: Vec::from_slice(alloc, image)?,
            seen: Vec::from_slice(alloc, image)?,
            unsynced: Vec::new(alloc),
        })
    }

    /// Applies the beginning of a call: a write changes the bytes that a read returns. Fails with `Otherwise` if the
    /// call isn't within the disk.
    pub fn begin(&mut self, call: &Call<A>) -> Result<(), CrashFault>
        ensures { OnOk result (content_of self.new ≡ call_begun (content_of self.old) (Some (call_of call.now))) }
    {
        match call.kind {
            CallKind::Write => self.begin_write(call.at, &call.written),
            CallKind::Read | CallKind::Sync => Ok(()),
        }
    }

    fn begin_write(&mut self, at: u64, bytes: &[u8]) -> Result<(), CrashFault>
        ensures { OnOk result (content_of self.new ≡ begun_write (content_of self.old) at bytes.now) }
    {
        if bytes.is_empty() {
            return Ok(());
        }
        let end = end_of(at, bytes.len(), self.seen.len())?;
        put(&mut self.seen, at, bytes);
        add_blocks(&mut self.unsynced, at, end)
    }

    /// Applies the success of a call: a sync makes all bytes synced. Fails if memory can't be allocated.
    pub fn end(&mut self, call: &Call<A>) -> Result<(), AllocError>
        ensures { OnOk result (content_of self.new ≡ call_ended (content_of self.old) (Some (call_of call.now))) }
    {
        match call.kind {
            CallKind::Sync => self.end_sync(),
            CallKind::Read | CallKind::Write => Ok(()),
        }
    }

    fn end_sync(&mut self) -> Result<(), AllocError>
        ensures { OnOk result (content_of self.new ≡ all_synced self.old.seen.items) }
    {
        self.synced = Vec::from_slice(self.alloc, &self.seen)?;
        self.unsynced = Vec::new(self.alloc);
        Ok(())
    }

    /// Returns the number of blocks that were written since the last sync.
    pub fn unsynced(&self) -> u64
        ensures { result ≡ length (content_of self.now).unsynced }
    {
        self.unsynced.len() as u64
    }

    /// Returns the choices that are tried for a crash at this moment.
    pub fn choices(&self) -> Result<Vec<Choice, A>, AllocError>
        ensures exact { IfOk result (λ tried. tried.items ≡ choices_of (length (content_of self.now).unsynced)) }
        ensures old { IfOk result (λ tried. Contains tried.items choices.Old) }
        ensures new { IfOk result (λ tried. 0 < length (content_of self.now).unsynced
            → Contains tried.items choices.New) }
    {
        let mut choices = Vec::new(self.alloc);
        choices.push(Choice::Old)?;
        let blocks = self.unsynced();
        if blocks > 0 {
            choices.push(Choice::New)?;
            add_spoilt(&mut choices)?;
            add_mixtures(blocks, &mut choices)?;
        }
        Ok(choices)
    }

    /// Returns the bytes of a choice for all places of the disk. Fails with `Otherwise` if a call wasn't within the
    /// disk.
    pub fn bytes_of(&self, choice: Choice) -> Result<Vec<u8, A>, CrashFault>
        ensures { IfOk result (λ bytes. bytes.items ≡ left_by choice (content_of self.now)) }
    {
        if let Choice::Fill(byte) = choice {
            return Ok(vec![in self.alloc; byte; self.synced.len()]?);
        }
        if self.seen.len() != self.synced.len() {
            return Err(CrashFault::Otherwise);
        }
        self.mixed(choice)
    }

    // Returns the synced bytes, with the written bytes in the parts that a choice leaves new.
    fn mixed(&self, choice: Choice) -> Result<Vec<u8, A>, CrashFault>
        requires { length self.now.seen.items ≡ length self.now.synced.items }
        ensures { IfOk result (λ bytes. bytes.items
            ≡ left_of_blocks choice (content_of self.now) (length self.now.unsynced.items)) }
    {
        let mut bytes = Vec::from_slice(self.alloc, &self.synced)?;
        for i in 0..self.unsynced.len() {
            self.mix_block(&mut bytes, choice, i)?;
        }
        Ok(bytes)
    }

    // Copies the part that a choice leaves new of the unsynced block with this index.
    fn mix_block(&self, bytes: &mut [u8], choice: Choice, i: usize) -> Result<(), CrashFault>
        requires within { i < length self.now.unsynced.items }
        requires same_length { length bytes.old ≡ length self.now.seen.items }
        ensures mixed { OnOk result (bytes.new ≡ with_copied bytes.old self.now.seen.items
            (4096 * slice_index self.now.unsynced.items i) (new_bytes choice i)) }
        ensures same_length { OnOk result (length bytes.new ≡ length bytes.old) }
    {
        let at = start_of(self.unsynced[i])?;
        copy(bytes, &self.seen, at, new_part(choice, i as u64));
        Ok(())
    }
}

// The offset of a block.
fn start_of(block: u64) -> Result<u64, CrashFault>
    ensures { IfOk result (λ at. at ≡ 4096 * block) }
{
    match block.checked_mul(PAGE) {
        Some(at) => Ok(at),
        None => Err(CrashFault::Otherwise),
    }
}

// Returns the end of `count` bytes from an offset on. Fails if they aren't within a disk of length `len`.
fn end_of(at: u64, count: usize, len: usize) -> Result<u64, CrashFault>
    ensures { IfOk result (λ end. (end ≡ at + count) × (end ≤ len)) }
{
    match at.checked_add(count as u64) {
        Some(end) if end <= len as u64 => Ok(end),
        _ => Err(CrashFault::Otherwise),
    }
}

// Adds each block that is touched from `at` up to but not including `end`, once.
fn add_blocks<A: Allocator + Copy>(
    blocks: &mut Vec<u64, A>,
    at: u64,
    end: u64,
) -> Result<(), CrashFault>
    requires { at < end }
    ensures { OnOk result (blocks.new.items
        ≡ with_blocks blocks.old.items (at / 4096) ((end - 1) / 4096 + 1 - at / 4096)) }
{
    let first = at / PAGE;
    for more in 0..(end - 1) / PAGE + 1 - first {
        add_block(blocks, first + more)?;
    }
    Ok(())
}

// Adds a block, unless the list contains it.
fn add_block<A: Allocator + Copy>(blocks: &mut Vec<u64, A>, block: u64) -> Result<(), AllocError>
    ensures { OnOk result (blocks.new.items ≡ with_block blocks.old.items block) }
{
    if has_block(blocks, block) {
        return Ok(());
    }
    blocks.push(block)?;
    Ok(())
}

fn has_block(blocks: &[u64], block: u64) -> bool
    ensures { result ≡ list_any (λ other. other == block) blocks.now }
{
    blocks.iter().any(|other| *other == block)
}

// Adds the choices that are neither old nor new.
fn add_spoilt<A: Allocator + Copy>(tried: &mut Vec<Choice, A>) -> Result<(), AllocError>
    ensures { OnOk result (tried.new.items ≡ tried.old.items
        ++ choices.Fill 0x00 ∷ choices.Fill 0xA7 ∷ choices.Fill 0xFF ∷ choices.Halves ∷ []) }
{
    tried.push(Choice::Fill(0x00))?;
    tried.push(Choice::Fill(0xA7))?;
    tried.push(Choice::Fill(0xFF))?;
    tried.push(Choice::Halves)?;
    Ok(())
}

// Adds the mixtures that are tried for this number of blocks.
fn add_mixtures<A: Allocator + Copy>(
    blocks: u64,
    choices: &mut Vec<Choice, A>,
) -> Result<(), AllocError>
    requires { 0 < blocks }
    ensures { OnOk result (choices.new.items ≡ choices.old.items ++ mixtures_of blocks) }
{
    if blocks <= FEW_BLOCKS {
        add_each(blocks, choices)
    } else {
        add_ones(blocks.min(MOST_MIXTURES / 2), choices)
    }
}

// Adds each mixture of old and new blocks.
fn add_each<A: Allocator + Copy>(
    blocks: u64,
    choices: &mut Vec<Choice, A>,
) -> Result<(), AllocError>
    requires some { 0 < blocks }
    requires few { blocks ≤ 4 }
    ensures { OnOk result (choices.new.items ≡ choices.old.items ++ first_mixtures (2 ^ blocks - 2)) }
{
    for more in 0..(1u64 << blocks) - 2 {
        choices.push(Choice::Mixture(more + 1))?;
    }
    Ok(())
}

// Adds two choices for each of the first blocks: only this block is new, and only this block is old.
fn add_ones<A: Allocator + Copy>(count: u64, choices: &mut Vec<Choice, A>) -> Result<(), AllocError>
    ensures { OnOk result (choices.new.items ≡ choices.old.items ++ first_ones count) }
{
    for block in 0..count {
        choices.push(Choice::OneNew(block))?;
        choices.push(Choice::OneOld(block))?;
    }
    Ok(())
}

// Returns the number of bytes that a choice leaves new in the block with this index.
fn new_part(choice: Choice, block: u64) -> u64
    ensures { result ≡ new_bytes choice block }
{
    match choice {
        Choice::Halves => HALF,
        Choice::New => PAGE,
        Choice::Mixture(bits) if has_bit(bits, block) => PAGE,
        Choice::OneNew(one) if block == one => PAGE,
        Choice::OneOld(one) if block != one => PAGE,
        _ => 0,
    }
}

// Whether a number has this bit.
fn has_bit(bits: u64, bit: u64) -> bool
    ensures { result ≡ is_set bits bit }
{
    bit < 64 && (bits >> bit) % 2 == 1
}

// Writes `bytes` over a part of `to`.
fn put(to: &mut [u8], at: u64, bytes: &[u8])
    requires { at + length bytes.now ≤ length to.old }
    ensures { to.new ≡ written to.old at bytes.now }
{
    let start = at as usize;
    to[start..start + bytes.len()].copy_from_slice(bytes);
}

// Copies a part of `from` over the same part of `to`, as far as they reach.
fn copy(to: &mut [u8], from: &[u8], at: u64, len: u64)
    requires { length to.old ≡ length from.now }
    ensures copied { to.new ≡ with_copied to.old from.now at len }
    ensures same_length { length to.new ≡ length to.old }
{
    let start = to.len().min(at as usize);
    let len = (to.len() - start).min(len as usize);
    to[start..start + len].copy_from_slice(&from[start..start + len]);
}

impl fmt::Display for Choice {
    fn fmt<W: fmt::Write>(&self, f: &mut fmt::Formatter<W>) -> fmt::Result {
        match self {
            Choice::Old => f.write_str("old"),
            Choice::New => f.write_str("new"),
            Choice::Fill(byte) => write!(f, "{byte:02x}"),
            Choice::Halves => f.write_str("halves"),
            Choice::Mixture(bits) => write!(f, "mixture {bits}"),
            Choice::OneNew(block) => write!(f, "only {block}"),
            Choice::OneOld(block) => write!(f, "without {block}"),
        }
    }
}
