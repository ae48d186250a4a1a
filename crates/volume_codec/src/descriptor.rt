// The descriptor of a journal: the mark that its records commit, and the home block of each record.
ghost use Rattle.std.specs.Prelude.{◌≡◌, ◌<◌, ◌≤◌, ◌+◌, ◌*◌, ◌++◌, ◌↔◌, IsTrue, IfOk, IfErr, MatchResult, length, take, drop};
ghost use Rattle.std.specs.List.{flat_map};
ghost use Rattle.volume_codec.specs.Layout.{descriptor_blocks, block_at};
ghost use Rattle.volume_codec.specs.Descriptor.{RiseWithin, IsDescribed, IsDescriptor, descriptor_text};
ghost use Rattle.volume_codec.specs.Refusals.{RefusesDescriptor};
ghost use Rattle.volume_codec.specs.Text.{number_text, numbers_in, zeros, padded};

use crate::block::{BlockWriter, u32_at, u64_at};
use crate::geometry::Geometry;
use page_entry::Refusal;
use std::alloc::Allocator;
use std::marker::Model;

/// The contents of a descriptor: the number of the mark that the records commit, from 1, and the home blocks in
/// ascending order. Record slot i is for the home block at place i.
#[derive(Drop)]
pub struct Descriptor<A: Allocator + Copy> {
    mark: u64,
    homes: Vec<u32, A>,
}

impl<A: Allocator + Copy> Model for Descriptor<A> {
    ghost use Rattle.volume_codec.specs.Descriptor.{DescriptorValue};

    ghost Value = { DescriptorValue };

    ghost view = { λ d. record { mark = d.mark; homes = d.homes.items } };
}

impl<A: Allocator + Copy> Descriptor<A> {
    /// Returns the number of the mark that the records commit.
    pub fn mark(&self) -> u64
        ensures { result ≡ self.now.mark }
    {
        self.mark
    }

    /// Returns the home blocks of the records, in ascending order.
    pub fn homes(&self) -> &[u32]
        ensures { result.now ≡ self.now.homes }
    {
        &self.homes
    }

    /// Returns the same as a list, in the descriptor's own memory.
    pub fn into_homes(self) -> Vec<u32, A>
        ensures { result.items ≡ self.homes }
    {
        let Descriptor { homes, .. } = self;
        homes
    }
}

/// Whether the blocks ascend strictly, from `low` on and below `high`.
fn rise_within(homes: &[u32], low: u32, high: u32) -> bool
    ensures { IsTrue result ↔ RiseWithin low high homes.now }
{
    let mut least = u64::from(low);
    for home in homes {
        if u64::from(*home) < least || *home >= high {
            return false;
        }
        least = u64::from(*home) + 1;
    }
    true
}

/// Returns the first block of a descriptor: its mark, the number of its home blocks, and the first of them.
fn first_block(mark: u64, count: u32, homes: &[u32]) -> [u8; 4096]
    requires { length homes.now ≤ 1020 }
    ensures { result ≡ padded 4096
        (number_text 8 mark ++ number_text 4 count ++ zeros 4 ++ flat_map (number_text 4) homes.now) }
{
    let mut block = BlockWriter::new();
    block.push_u64(mark);
    block.push_u32(count);
    block.skip(4);
    for home in homes {
        block.push_u32(*home);
    }
    block.finish()
}

/// Returns a further block of a descriptor, with these home blocks.
fn further_block(homes: &[u32]) -> [u8; 4096]
    requires { length homes.now ≤ 1024 }
    ensures { result ≡ padded 4096 (flat_map (number_text 4) homes.now) }
{
    let mut block = BlockWriter::new();
    for home in homes {
        block.push_u32(*home);
    }
    block.finish()
}

/// Returns the home blocks from a place on, at most `most` of them.
fn part_of(homes: &[u32], from: usize, most: usize) -> &[u32]
    ensures { result.now ≡ take most (drop from homes.now) }
{
    if from >= homes.len() {
        return &[];
    }
    let rest = &homes[from..];
    if rest.len() <= most {
        return rest;
    }
    &rest[..most]
}

/// Returns block `index` of the descriptor of a mark. Its record i is for the home block at place i. It allocates no
/// memory.
///
/// The caller must pass home blocks of the volume in ascending order, at most as many as there are slots, and a mark
/// from 1 on.
pub fn write_descriptor(geometry: &Geometry, mark: u64, homes: &[u32], index: u32) -> [u8; 4096]
    requires described { IsDescribed geometry.now (record { mark = mark; homes = homes.now }) }
    requires within { index < descriptor_blocks geometry.now.slots }
    ensures { result ≡ block_at (descriptor_text geometry.now.slots (record { mark = mark; homes = homes.now })) index }
{
    let slots = geometry.slots();
    prove!(homes.len() <= slots as usize);
    if index == 0 {
        return first_block(mark, homes.len() as u32, part_of(homes, 0, 1020));
    }
    further_block(part_of(homes, 1024 * index as usize - 4, 1024))
}

/// Returns `count` numbers of 4 bytes each, from byte 16 on. Fails with `OutOfMemory` if memory is refused.
fn homes_at<A: Allocator + Copy>(
    alloc: A,
    block: &[u8],
    count: usize,
) -> Result<Vec<u32, A>, Refusal>
    requires { 16 + 4 * count ≤ length block.now }
    ensures { MatchResult result (λ homes. homes.items ≡ numbers_in 4 count (drop 16 block.now))
        (λ refusal. refusal ≡ Refusal.OutOfMemory) }
{
    let Ok(mut homes) = Vec::with_capacity(alloc, count) else {
        return Err(Refusal::OutOfMemory);
    };
    for i in 0..count {
        if homes.push(u32_at(block, 16 + 4 * i)).is_err() {
            return Err(Refusal::OutOfMemory);
        }
    }
    Ok(homes)
}

/// Whether these are the same bytes.
fn are_equal(bytes: &[u8], others: &[u8]) -> bool
    ensures { IsTrue result ↔ (bytes.now ≡ others.now) }
{
    bytes == others
}

/// Whether these blocks are the descriptor of a mark and its home blocks.
fn is_spelled(geometry: &Geometry, mark: u64, homes: &[u32], bytes: &[u8]) -> bool
    requires described { IsDescribed geometry.now (record { mark = mark; homes = homes.now }) }
    requires size { length bytes.now ≡ 4096 * descriptor_blocks geometry.now.slots }
    ensures { IsTrue result
        ↔ (bytes.now ≡ descriptor_text geometry.now.slots (record { mark = mark; homes = homes.now })) }
{
    for index in 0..geometry.descriptor_blocks() {
        let at = 4096 * index as usize;
        let block = write_descriptor(geometry, mark, homes, index);
        if !are_equal(&bytes[at..at + 4096], &block) {
            return false;
        }
    }
    true
}

/// Returns the contents of a descriptor's blocks, in a volume of this geometry. Fails with `Damaged` if they break the
/// grammar. It may fail with `OutOfMemory` instead.
pub fn read_descriptor<A: Allocator + Copy>(
    alloc: A,
    geometry: &Geometry,
    bytes: &[u8],
) -> Result<Descriptor<A>, Refusal>
    requires { length bytes.now ≡ 4096 * descriptor_blocks geometry.now.slots }
    ensures ok { IfOk result (λ d. IsDescriptor geometry.now d bytes.now) }
    ensures refused { IfErr result (RefusesDescriptor geometry.now bytes.now) }
{
    let slots = geometry.slots();
    prove!(bytes.len() >= 16 + 4 * slots as usize);
    let mark = u64_at(bytes, 0);
    let count = u32_at(bytes, 8);
    if mark == 0 || count == 0 || count > slots {
        return Err(Refusal::Damaged);
    }
    let homes = homes_at(alloc, bytes, count as usize)?;
    if !rise_within(&homes, geometry.first_home(), geometry.block_count()) {
        return Err(Refusal::Damaged);
    }
    if !is_spelled(geometry, mark, &homes, bytes) {
        return Err(Refusal::Damaged);
    }
    Ok(Descriptor { mark, homes })
}
