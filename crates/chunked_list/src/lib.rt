//! A list of numbers, stored in chunks. An insertion or a removal moves numbers of one chunk, and one number of each
//! later chunk. All memory is allocated when the list is made, so no later call can run out of memory.
#![tactic(auto)]

ghost use Rattle.std.specs.Prelude.{◌≡◌, ◌==◌, ◌<◌, ◌≤◌, [], length, IfOk, slice_index_or};
ghost use Rattle.std.specs.List.{insert, remove};

mod chunk;
mod chunks;

use chunk::{CHUNK, Chunk};
use chunks::{close_at, empty_chunks, open_at};
use std::alloc::{AllocError, Allocator, Global};
use std::marker::Model;

/// A list of 32-bit numbers with a fixed capacity. A change moves at most the numbers of one chunk of 1,024, and one
/// number of each later chunk.
#[derive(Drop)]
pub struct ChunkedList<A: Allocator + Copy = Global> {
    // Every chunk before the last non-empty one is full.
    chunks: Vec<Chunk<A>, A>,
    count: usize,
    capacity: usize,
}

impl<A: Allocator + Copy> Model for ChunkedList<A> {
    ghost use Rattle.std.specs.List.{concat};
    ghost use Rattle.chunked_list.specs.List.{ListState};
    ghost use Rattle.chunked_list.specs.inside.Chunks.{AreChunks};

    ghost Value = { ListState };

    ghost view = { λ l. record { items = concat l.chunks.items; room = l.capacity } };

    ghost invariant = { λ l. AreChunks l.chunks.items l.count l.capacity };
}

impl<A: Allocator + Copy> ChunkedList<A> {
    /// Returns an empty list with room for `capacity` numbers. Fails if memory can't be allocated.
    pub fn new(alloc: A, capacity: u32) -> Result<Self, AllocError>
        ensures { IfOk result (λ list. list ≡ record { items = []; room = capacity }) }
    {
        let capacity = capacity as usize;
        Ok(ChunkedList {
            chunks: empty_chunks(alloc, capacity / CHUNK + 1)?,
            count: 0,
            capacity,
        })
    }

    /// Returns the length of the list.
    pub fn len(&self) -> usize
        ensures count { result ≡ length self.now.items }
        ensures room { result ≤ self.now.room }
    {
        self.count
    }

    /// Whether the list is empty.
    pub fn is_empty(&self) -> bool
        ensures { result ≡ length self.now.items == 0 }
    {
        self.count == 0
    }

    /// Returns the number at a place, counted from 0.
    pub fn get(&self, place: usize) -> u32
        requires { place < length self.now.items }
        ensures { result ≡ slice_index_or self.now.items place 0 }
    {
        self.chunks[place / CHUNK].get(place % CHUNK)
    }

    /// Inserts a number at a place. The numbers from there on move up by one. Allocates no memory.
    pub fn insert(&mut self, place: usize, value: u32)
        requires within { place ≤ length self.old.items }
        requires room { length self.old.items < self.old.room }
        ensures { self.new ≡ record { items = insert self.old.items place value; room = self.old.room } }
    {
        let first = place / CHUNK;
        open_at(&mut self.chunks, self.count, first);
        self.chunks[first].insert(place % CHUNK, value);
        self.count += 1;
    }

    /// Removes the number at a place. The numbers after it move down by one.
    pub fn remove(&mut self, place: usize)
        requires { place < length self.old.items }
        ensures { self.new ≡ record { items = remove self.old.items place; room = self.old.room } }
    {
        let first = place / CHUNK;
        self.chunks[first].remove(place % CHUNK);
        self.count -= 1;
        close_at(&mut self.chunks, self.count, first);
    }
}
