// The chunks of a list. Every chunk before the last non-empty one is full.
ghost use Rattle.std.specs.Prelude.{◌≡◌, ◌+◌, ◌<◌, ◌≤◌, ◌*◌, ◌/◌, [], length, replicate, IfOk};
ghost use Rattle.std.specs.List.{concat};
ghost use Rattle.chunked_list.specs.inside.Chunks.{HasHole};

use crate::chunk::{CHUNK, Chunk};
use std::alloc::{AllocError, Allocator};

// Returns `count` empty chunks.
pub(crate) fn empty_chunks<A: Allocator + Copy>(
    alloc: A,
    count: usize,
) -> Result<Vec<Chunk<A>, A>, AllocError>
    ensures { IfOk result (λ chunks. chunks.items ≡ replicate count []) }
{
    let mut chunks = Vec::with_capacity(alloc, count)?;
    for _ in 0..count {
        chunks.push_reserved(Chunk::new(alloc)?);
    }
    Ok(chunks)
}

// Makes room for one number in the chunk `first`. The last number of each full chunk from there on moves to the front
// of the next chunk. `count` is the length of the list.
pub(crate) fn open_at<A: Allocator>(chunks: &mut Vec<Chunk<A>, A>, count: usize, first: usize)
    requires hole { HasHole chunks.old.items (count + 1) (count / 1024) }
    requires within { count < 1024 * length chunks.old.items }
    requires first { 1024 * first ≤ count }
    ensures hole { HasHole chunks.new.items (count + 1) first }
    ensures same { concat chunks.new.items ≡ concat chunks.old.items }
    ensures chunks { length chunks.new.items ≡ length chunks.old.items }
{
    for number in (first..count / CHUNK).rev() {
        let last = chunks[number].pop_last();
        chunks[number + 1].push_first(last);
    }
}

// Fills the chunk `first`, in which one number is missing. The first number of each later chunk moves to the end of the
// chunk before it. `count` is the length of the list.
pub(crate) fn close_at<A: Allocator>(chunks: &mut Vec<Chunk<A>, A>, count: usize, first: usize)
    requires hole { HasHole chunks.old.items (count + 1) first }
    requires within { count < 1024 * length chunks.old.items }
    requires first { 1024 * first ≤ count }
    ensures hole { HasHole chunks.new.items (count + 1) (count / 1024) }
    ensures same { concat chunks.new.items ≡ concat chunks.old.items }
    ensures chunks { length chunks.new.items ≡ length chunks.old.items }
{
    for number in first..count / CHUNK {
        let next = chunks[number + 1].pop_first();
        chunks[number].push_last(next);
    }
}
