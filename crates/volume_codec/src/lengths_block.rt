// The lengths of a volume's files, in layouts that have a block for them.
ghost use Rattle.std.specs.Prelude.{◌≡◌, ◌≤◌, ◌*◌, ◌↔◌, IsTrue, IfOk, IfErr, MatchResult, length};
ghost use Rattle.volume_codec.specs.Files.{asked_by, lengths_asked};
ghost use Rattle.volume_codec.specs.Text.{numbers_in};
ghost use Rattle.volume_codec.specs.Super.{capacities_in};
ghost use Rattle.volume_codec.specs.Lengths.{AreLengths, IsLengths, lengths_text};
ghost use Rattle.volume_codec.specs.Refusals.{RefusesLengths};

use crate::block::{BlockWriter, u64_at};
use crate::file_spec::FileSpec;
use crate::super_block::Super;
use page_entry::Refusal;
use std::alloc::Allocator;

/// Returns the block with these lengths, each in bytes, in the order of the table. A volume has at most 64 files. It
/// allocates no memory.
pub fn write_lengths(lengths: &[u64]) -> [u8; 4096]
    requires { length lengths.now ≤ 64 }
    ensures { result ≡ lengths_text lengths.now }
{
    let mut block = BlockWriter::new();
    for length in lengths {
        block.push_u64(*length);
    }
    block.finish()
}

/// Returns the block with the lengths of these files, at most 64. It allocates no memory.
pub fn write_lengths_of(files: &[FileSpec]) -> [u8; 4096]
    requires { length files.now ≤ 64 }
    ensures { result ≡ lengths_text (lengths_asked (asked_by files.now)) }
{
    let mut block = BlockWriter::new();
    for file in files {
        block.push_u64(file.length);
    }
    block.finish()
}

/// Returns `count` numbers of 8 bytes each, from the first byte on. Fails with `OutOfMemory` if memory is refused.
fn numbers_at<A: Allocator + Copy>(
    alloc: A,
    block: &[u8],
    count: usize,
) -> Result<Vec<u64, A>, Refusal>
    requires { 8 * count ≤ length block.now }
    ensures { MatchResult result (λ numbers. numbers.items ≡ numbers_in 8 count block.now)
        (λ refusal. refusal ≡ Refusal.OutOfMemory) }
{
    let Ok(mut numbers) = Vec::with_capacity(alloc, count) else {
        return Err(Refusal::OutOfMemory);
    };
    for i in 0..count {
        if numbers.push(u64_at(block, 8 * i)).is_err() {
            return Err(Refusal::OutOfMemory);
        }
    }
    Ok(numbers)
}

/// Returns the capacity of each file in bytes. In a layout without a block for lengths it is the file's length. Fails
/// with `OutOfMemory` if memory is refused.
pub fn capacities<A: Allocator + Copy>(alloc: A, table: &Super<A>) -> Result<Vec<u64, A>, Refusal>
    ensures { MatchResult result (λ capacities. capacities.items ≡ capacities_in table.now)
        (λ refusal. refusal ≡ Refusal.OutOfMemory) }
{
    let count = table.file_count();
    let Ok(mut capacities) = Vec::with_capacity(alloc, count) else {
        return Err(Refusal::OutOfMemory);
    };
    for file in 0..count {
        if capacities.push(table.capacity(file)).is_err() {
            return Err(Refusal::OutOfMemory);
        }
    }
    Ok(capacities)
}

/// Whether none of the lengths is above the capacity of its file.
fn are_within<A: Allocator + Copy>(table: &Super<A>, lengths: &[u64]) -> bool
    requires { length lengths.now ≡ length table.now.files }
    ensures { IsTrue result ↔ AreLengths table.now lengths.now }
{
    for file in 0..lengths.len() {
        if lengths[file] > table.capacity(file) {
            return false;
        }
    }
    true
}

/// Returns the lengths in a block, each in bytes, in the order of the table. Fails with `Damaged` if the block breaks
/// the grammar, for example if a length is above its file's capacity. It may fail with `OutOfMemory` instead.
pub fn read_lengths<A: Allocator + Copy>(
    alloc: A,
    table: &Super<A>,
    block: &[u8; 4096],
) -> Result<Vec<u64, A>, Refusal>
    ensures ok { IfOk result (λ lengths. IsLengths table.now lengths.items block.now) }
    ensures refused { IfErr result (RefusesLengths table.now block.now) }
{
    let lengths = numbers_at(alloc, block, table.file_count())?;
    if !are_within(table, &lengths) {
        return Err(Refusal::Damaged);
    }
    if write_lengths(&lengths) != *block {
        return Err(Refusal::Damaged);
    }
    Ok(lengths)
}
