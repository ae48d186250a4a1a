// The descriptor of a commit: eight bytes of seal, the commit's number, and the home block of each record.
ghost use Rattle.std.specs.Prelude.{◌≡◌, ◌<◌, ◌≤◌, ◌+◌, ◌*◌, ◌++◌, ◌↔◌, IsTrue, IfOk, IfErr, MatchResult, ℕ, List, length, take, drop};
ghost use Rattle.std.specs.List.{flat_map};
ghost use Rattle.volume_codec.specs.Layout.{block_at};
ghost use Rattle.volume_codec.specs.Descriptor.{RiseWithin};
ghost use Rattle.volume_codec.specs.Text.{number_text, numbers_in, zeros, padded};
ghost use Rattle.log_codec.specs.Log.{IsCommitSize, log_descriptor_blocks};
ghost use Rattle.log_codec.specs.Commit.{LogDescriptor, IsCommitNumber, IsLogDescriptor, log_body};
ghost use Rattle.log_codec.specs.Broken.{BreaksFirstRule, BreaksLogRule, records_said};

use crate::block::{number_bytes, put, put_u32, put_u64, u32_at, zero_block};
use crate::broken::Broken;
use crate::log::{LogGeometry, descriptor_blocks_of};
use std::alloc::Allocator;

/// Writes home blocks at `at`, the end of the bytes already written.
fn put_homes(block: &mut [u8; 4096], at: usize, homes: &[u32])
    requires { at + 4 * length homes.now ≤ 4096 }
    ensures { (text : List ℕ) → block.old ≡ padded 4096 text → length text ≡ at
        → block.new ≡ padded 4096 (text ++ flat_map (number_text 4) homes.now) }
{
    for i in 0..homes.len() {
        put_u32(block, at + 4 * i, homes[i]);
    }
}

/// Returns the first block of a descriptor: its seal, its number, the number of its home blocks, and the first home
/// blocks.
fn first_block(seal: &[u8; 8], number: u64, count: u32, homes: &[u32]) -> [u8; 4096]
    requires { length homes.now ≤ 1016 }
    ensures { result ≡ padded 4096 (seal.now ++ number_text 8 number ++ number_text 4 count ++ zeros 12
        ++ flat_map (number_text 4) homes.now) }
{
    let mut block = zero_block();
    put(&mut block, 0, seal);
    put_u64(&mut block, 8, number);
    put_u32(&mut block, 16, count);
    put(&mut block, 20, &[0; 12]);
    put_homes(&mut block, 32, homes);
    block
}

/// Returns a further block of a descriptor, with these home blocks.
fn further_block(homes: &[u32]) -> [u8; 4096]
    requires { length homes.now ≤ 1024 }
    ensures { result ≡ padded 4096 (flat_map (number_text 4) homes.now) }
{
    let mut block = zero_block();
    put_homes(&mut block, 0, homes);
    block
}

/// Returns the home blocks that begin at place `from`, at most `most`.
fn part_of(homes: &[u32], from: usize, most: usize) -> &[u32]
    ensures { result.now ≡ take most (drop from homes.now) }
{
    if from >= homes.len() {
        return &[];
    }
    let rest = &homes[from..];
    if rest.len() <= most {
        return rest;
    }
    &rest[..most]
}

/// Returns block `index` of a commit's descriptor, with this number and this seal. Record i is for the home block at
/// place i. It allocates no memory.
pub fn encode_descriptor(seal: &[u8; 8], number: u64, homes: &[u32], index: u32) -> [u8; 4096]
    requires few { length homes.now ≤ 65535 }
    requires within { index < log_descriptor_blocks (length homes.now) }
    ensures { result ≡ block_at (seal.now ++ log_body (record { number = number; homes = homes.now })) index }
{
    prove!(homes.len() <= 65535);
    if index == 0 {
        return first_block(seal, number, homes.len() as u32, part_of(homes, 0, 1016));
    }
    further_block(part_of(homes, 1024 * index as usize - 8, 1024))
}

/// Whether the blocks rise strictly, are at least `low`, and are below `high`.
pub fn rise_within(homes: &[u32], low: u32, high: u32) -> bool
    ensures { IsTrue result ↔ RiseWithin low high homes.now }
{
    let mut least = u64::from(low);
    for home in homes {
        if u64::from(*home) < least || *home >= high {
            return false;
        }
        least = u64::from(*home) + 1;
    }
    true
}

/// Whether all bytes are zero.
fn are_zeros(bytes: &[u8]) -> bool
    ensures { IsTrue result ↔ (bytes.now ≡ zeros (length bytes.now)) }
{
    for i in 0..bytes.len() {
        if bytes[i] != 0 {
            return false;
        }
    }
    true
}

/// Whether these are the eight bytes of a number.
fn spells(bytes: &[u8], number: u64) -> bool
    ensures { IsTrue result ↔ (bytes.now ≡ number_text 8 number) }
{
    bytes == number_bytes(number).as_slice()
}

/// Returns `count` numbers of 4 bytes that begin at byte 32. Fails with `OutOfMemory` if there is no memory.
fn homes_at<A: Allocator + Copy>(
    alloc: A,
    bytes: &[u8],
    count: usize,
) -> Result<Vec<u32, A>, Broken>
    requires { 32 + 4 * count ≤ length bytes.now }
    ensures { MatchResult result (λ homes. homes.items ≡ numbers_in 4 count (drop 32 bytes.now))
        (λ broken. broken ≡ Broken.OutOfMemory) }
{
    let Ok(mut homes) = Vec::with_capacity(alloc, count) else {
        return Err(Broken::OutOfMemory);
    };
    for i in 0..count {
        if homes.push(u32_at(bytes, 32 + 4 * i)).is_err() {
            return Err(Broken::OutOfMemory);
        }
    }
    Ok(homes)
}

/// Returns the number of records from the first block of a commit's descriptor. Fails if the commit doesn't have this
/// number, or may not have that many records. Bytes after the first block aren't read.
pub fn decode_count(log: &LogGeometry, number: u64, bytes: &[u8]) -> Result<u32, Broken>
    ensures ok { IfOk result (λ count. (4096 ≤ length bytes.now) × IsCommitNumber number
        × (take 8 (drop 8 bytes.now) ≡ number_text 8 number) × (count ≡ records_said bytes.now)
        × IsCommitSize log.now.ring count) }
    ensures refused { IfErr result (BreaksFirstRule log.now number bytes.now) }
{
    if bytes.len() < 4096 {
        return Err(Broken::Length);
    }
    if number == 0 || number == u64::MAX || !spells(&bytes[8..16], number) {
        return Err(Broken::Number);
    }
    let count = u32_at(bytes, 16);
    if !log.is_commit_size(count) {
        return Err(Broken::Count);
    }
    Ok(count)
}

/// Returns the home blocks of the commit with this number, whose descriptor is in these blocks, with any seal. Fails
/// with the rule that the bytes break.
pub fn decode_descriptor<A: Allocator + Copy>(
    alloc: A,
    log: &LogGeometry,
    number: u64,
    bytes: &[u8],
) -> Result<Vec<u32, A>, Broken>
    ensures ok { IfOk result (λ homes. IsLogDescriptor log.now (record { number = number; homes = homes.items })
        bytes.now) }
    ensures refused { IfErr result (BreaksLogRule log.now number bytes.now) }
{
    let first = log.first_home();
    let count = decode_count(log, number, bytes)?;
    let end = 32 + 4 * count as usize;
    if bytes.len() != 4096 * descriptor_blocks_of(count) as usize {
        return Err(Broken::Length);
    }
    if !are_zeros(&bytes[20..32]) {
        return Err(Broken::Reserved);
    }
    if !are_zeros(&bytes[end..]) {
        return Err(Broken::Padding);
    }
    let homes = homes_at(alloc, bytes, count as usize)?;
    if !rise_within(&homes, first, log.block_count()) {
        return Err(Broken::Homes);
    }
    Ok(homes)
}
