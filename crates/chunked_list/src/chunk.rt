// A chunk of a list.
ghost use Rattle.std.specs.Prelude.{◌≡◌, ◌<◌, ◌≤◌, [], ◌∷◌, ◌++◌, length, IfOk, slice_index_or};
ghost use Rattle.std.specs.List.{insert, remove};

use std::alloc::{AllocError, Allocator, Global};
use std::collections::VecDeque;
use std::marker::Model;

// The length of a full chunk.
pub(crate) const CHUNK: usize = 1024;

// At most `CHUNK` numbers. A push or a pop at either end takes constant time.
#[derive(Drop)]
pub(crate) struct Chunk<A: Allocator = Global> {
    numbers: VecDeque<u32, A>,
}

impl<A: Allocator> Model for Chunk<A> {
    ghost use Rattle.std.specs.Prelude.{ℕ, ◌≤◌, List};
    ghost use Rattle.std.specs.VecDeque.{deque_capacity};

    ghost Value = { List ℕ };

    ghost view = { λ c. c.numbers.items };

    ghost invariant = { λ c. 1024 ≤ deque_capacity c.numbers };
}

impl<A: Allocator> Chunk<A> {
    // An empty chunk.
    pub(crate) fn new(alloc: A) -> Result<Self, AllocError>
        ensures { IfOk result (λ chunk. chunk ≡ []) }
    {
        Ok(Chunk {
            numbers: VecDeque::with_capacity(alloc, CHUNK)?,
        })
    }

    // The number at a place.
    pub(crate) fn get(&self, place: usize) -> u32
        requires { place < length self.now }
        ensures { result ≡ slice_index_or self.now place 0 }
    {
        self.numbers[place]
    }

    // Inserts a number at a place.
    pub(crate) fn insert(&mut self, place: usize, value: u32)
        requires within { place ≤ length self.old }
        requires room { length self.old < 1024 }
        ensures { self.new ≡ insert self.old place value }
    {
        let Ok(()) = self.numbers.insert(place, value) else {
            unreachable!()
        };
    }

    // Removes the number at a place.
    pub(crate) fn remove(&mut self, place: usize)
        requires { place < length self.old }
        ensures { self.new ≡ remove self.old place }
    {
        let Some(_) = self.numbers.remove(place) else {
            unreachable!()
        };
    }

    // Inserts a number before all others.
    pub(crate) fn push_first(&mut self, value: u32)
        requires { length self.old < 1024 }
        ensures { self.new ≡ value ∷ self.old }
    {
        self.numbers.push_front_reserved(value);
    }

    // Appends a number.
    pub(crate) fn push_last(&mut self, value: u32)
        requires { length self.old < 1024 }
        ensures { self.new ≡ self.old ++ value ∷ [] }
    {
        self.numbers.push_back_reserved(value);
    }

    // Removes the first number, and returns it.
    pub(crate) fn pop_first(&mut self) -> u32
        requires { 0 < length self.old }
        ensures { self.old ≡ result ∷ self.new }
    {
        self.numbers.pop_front().unwrap()
    }

    // Removes the last number, and returns it.
    pub(crate) fn pop_last(&mut self) -> u32
        requires { 0 < length self.old }
        ensures { self.old ≡ self.new ++ result ∷ [] }
    {
        self.numbers.pop_back().unwrap()
    }
}
