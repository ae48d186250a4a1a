// The blocks of a disk that are known.
ghost use Rattle.std.specs.Prelude.{◌≡◌, ℕ, ◌+◌, ◌-◌, ◌*◌, ◌/◌, ◌^◌, ◌<◌, ◌≤◌, min, replicate, false, None, is_some, length, get_or, set, slice_range, IfNone, IfSome, IfOk, OnOk, OnErr};
ghost use Rattle.std.specs.List.{All};
ghost use Rattle.std.specs.HashMap.{get, spare};
ghost use Rattle.std.specs.Prelude.{nat_eq};
ghost use Rattle.device.specs.Device.{written};
ghost use Rattle.deferred_disk.specs.Deferred.{first_unknown, lacked_by_read, lacked_by_write, with_known, first_block, end_block, block_of};
ghost use Rattle.deferred_disk.specs.inside.Blocks.{Known, blank_room, Enters};
ghost use Rattle.deferred_disk.specs.inside.Deferring.{IsKnownAt};

use crate::run::{Part, Run, shares_of};
use device::put;
use std::alloc::{AllocError, Allocator};
use std::collections::HashMap;
use std::hash::{BuildHasherDefault, FoldHasher};
use std::marker::Model;
use std::rc::Rc;

// The length of a block in bytes.
const BLOCK: usize = 4096;

// The blocks that are known, by their numbers.
type Rooms<A> = HashMap<usize, Part<A>, BuildHasherDefault<FoldHasher>, A>;

// The blocks of a disk, some of which are known. Only the bytes of known blocks are stored.
#[derive(Drop)]
pub struct Blocks<A: Allocator + Copy> {
    alloc: A,
    count: usize,
    rooms: Rooms<A>,
}

impl<A: Allocator + Copy> Model for Blocks<A> {
    ghost use Rattle.std.specs.Prelude.{◌*◌, ◌^◌, ◌<◌, nat_eq};
    ghost use Rattle.std.specs.HashMap.{get};
    ghost use Rattle.deferred_disk.specs.inside.Blocks.{Known, all_rooms, flags_of, AreWhole};

    ghost Value = { Known };

    ghost view = { λ blocks. record {
      bytes = all_rooms (get nat_eq blocks.rooms) blocks.count;
      flags = flags_of (get nat_eq blocks.rooms) blocks.count;
    } };

    ghost invariant = { λ blocks. AreWhole (get nat_eq blocks.rooms) × 4096 * blocks.count < 2 ^ 64 };
}

impl<A: Allocator + Copy> Blocks<A> {
    // Returns `count` blocks. None of them is known.
    pub(crate) fn new(alloc: A, count: usize) -> Self
        requires { 4096 * count < 2 ^ 64 }
        ensures flags { result.flags ≡ replicate count false }
        ensures bytes { length result.bytes ≡ 4096 * count }
    {
        Blocks {
            alloc,
            count,
            rooms: HashMap::new(alloc),
        }
    }

    // Returns the end of `count` bytes from an offset on.
    fn end_of(&self, at: usize, count: usize) -> usize
        requires { at + count ≤ length self.now.bytes }
        ensures { result ≡ at + count }
    {
        // The blocks' length is below 2^64, so the end of a range within it doesn't wrap.
        let _count = self.count;
        at + count
    }

    // Returns the bytes of a block, or `None` if it isn't known.
    fn room(&self, block: usize) -> Option<&[u8]>
        ensures known { is_some result ≡ get_or self.now.flags block false }
        ensures bytes { IfSome result (λ bytes. bytes.now ≡ block_of self.now.bytes block) }
        ensures whole { IfSome result (λ bytes. length bytes.now ≡ 4096) }
        ensures blank { IfNone result (block < length self.now.flags → block_of self.now.bytes block ≡ blank_room) }
    {
        if block >= self.count {
            return None;
        }
        match self.rooms.get(&block) {
            Some(room) => Some(room.bytes()),
            None => None,
        }
    }

    // Returns the bytes of a block, or zeros if it isn't known.
    fn room_or_blank(&self, block: usize) -> &[u8]
        requires { block < length self.now.flags }
        ensures { result.now ≡ block_of self.now.bytes block }
    {
        match self.room(block) {
            Some(bytes) => bytes,
            None => &[0; 4096],
        }
    }

    pub(crate) fn is_known(&self, block: usize) -> bool
        ensures { result ≡ get_or self.now.flags block false }
    {
        self.room(block).is_some()
    }

    // Returns the first block that isn't known, from `from` up to but not including `to`.
    fn first_unknown(&self, from: usize, to: usize) -> Option<usize>
        ensures { result ≡ first_unknown self.now.flags from (to - from) }
    {
        for block in from..to {
            if !self.is_known(block) {
                return Some(block);
            }
        }
        None
    }

    // Returns the first block that isn't known among those that a write of `count` bytes from an offset on covers in
    // part.
    pub(crate) fn lacked_by_write(&self, at: usize, count: usize) -> Option<usize>
        requires { at + count ≤ length self.now.bytes }
        ensures { result ≡ lacked_by_write self.now.flags at count }
    {
        let end = self.end_of(at, count);
        match self.first_unknown(at / BLOCK, at.div_ceil(BLOCK)) {
            Some(block) => Some(block),
            None => self.first_unknown(end / BLOCK, end.div_ceil(BLOCK)),
        }
    }

    // Copies bytes from an offset on, and returns `None`. If they reach a block that isn't known, returns the first
    // such block.
    pub(crate) fn read(&self, at: usize, buffer: &mut [u8]) -> Option<usize>
        requires { at + length buffer.old ≤ length self.now.bytes }
        ensures lacked { result ≡ lacked_by_read self.now.flags at (length buffer.old) }
        ensures bytes { result ≡ None → buffer.new ≡ slice_range self.now.bytes at (at + length buffer.old) }
    {
        let _count = self.count;
        let end = self.end_of(at, buffer.len());
        for block in at / BLOCK..end.div_ceil(BLOCK) {
            match self.room(block) {
                Some(bytes) => copy_part(bytes, BLOCK * block, at, buffer),
                None => return Some(block),
            }
        }
        None
    }

    // Puts bytes at an offset, and returns them. The blocks that they reach are known afterwards, and share the bytes.
    // Fails if memory can't be allocated, and then changes nothing.
    pub(crate) fn put(&mut self, at: usize, bytes: &[u8]) -> Result<Part<A>, AllocError>
        requires { at + length bytes.now ≤ length self.old.bytes }
        ensures part { IfOk result (λ part. part ≡ bytes.now) }
        ensures bytes { OnOk result (self.new.bytes ≡ written self.old.bytes at bytes.now) }
        ensures flags { OnOk result (self.new.flags
            ≡ with_known self.old.flags (first_block at) (end_block at (length bytes.now))) }
        ensures err { OnErr result (self.new ≡ self.old) }
    {
        let _count = self.count;
        let run = self.run_with(at, bytes)?;
        self.enter(at / BLOCK, &run)?;
        Ok(Part::new(run, at % BLOCK, at % BLOCK + bytes.len()))
    }

    // Returns the blocks that bytes at an offset reach, with the bytes in place.
    fn run_with(&self, at: usize, bytes: &[u8]) -> Result<Run<A>, AllocError>
        requires { at + length bytes.now ≤ length self.now.bytes }
        ensures { IfOk result (λ run. run.value.items ≡ slice_range (written self.now.bytes at bytes.now)
            (4096 * first_block at) (4096 * end_block at (length bytes.now))) }
    {
        let end = self.end_of(at, bytes.len());
        if at % BLOCK == 0 && end % BLOCK == 0 {
            return Ok(Rc::new(self.alloc, Vec::from_slice(self.alloc, bytes)?)?);
        }
        let mut run = self.run_of(at / BLOCK, end.div_ceil(BLOCK))?;
        put(&mut run, at % BLOCK, bytes);
        Ok(Rc::new(self.alloc, run)?)
    }

    // Returns the bytes of the blocks from `from` up to but not including `to`.
    fn run_of(&self, from: usize, to: usize) -> Result<Vec<u8, A>, AllocError>
        requires from { from ≤ to }
        requires to { to ≤ length self.now.flags }
        ensures { IfOk result (λ run. run.items ≡ slice_range self.now.bytes (4096 * from) (4096 * to)) }
    {
        let mut run = Vec::with_capacity(self.alloc, BLOCK * (to - from))?;
        for block in from..to {
            run.extend_from_slice(self.room_or_blank(block))?;
        }
        Ok(run)
    }

    // Stores the blocks of a run, from the block `from` on. They are known afterwards.
    fn enter(&mut self, from: usize, run: &Run<A>) -> Result<(), AllocError>
        requires whole { length run.now.value.items ≡ 4096 * (length run.now.value.items / 4096) }
        requires fits { 4096 * from + length run.now.value.items ≤ length self.old.bytes }
        ensures bytes { OnOk result (self.new.bytes ≡ written self.old.bytes (4096 * from) run.now.value.items) }
        ensures flags { OnOk result (self.new.flags
            ≡ with_known self.old.flags from (from + length run.now.value.items / 4096)) }
        ensures err { OnErr result (self.new ≡ self.old) }
    {
        let count = run.len() / BLOCK;
        if count == 1 {
            return self.enter_one(from, run.clone()?);
        }
        let shares = shares_of(self.alloc, run, count)?;
        self.rooms.reserve(count)?;
        enter_rooms(&mut self.rooms, from, run, shares);
        Ok(())
    }

    // Stores a run of one block, which is known afterwards.
    fn enter_one(&mut self, block: usize, run: Run<A>) -> Result<(), AllocError>
        requires whole { length run.value.items ≡ 4096 }
        requires fits { 4096 * block + 4096 ≤ length self.old.bytes }
        ensures bytes { OnOk result (self.new.bytes ≡ written self.old.bytes (4096 * block) run.value.items) }
        ensures flags { OnOk result (self.new.flags ≡ with_known self.old.flags block (block + 1)) }
        ensures err { OnErr result (self.new ≡ self.old) }
    {
        self.rooms.reserve(1)?;
        enter_room(&mut self.rooms, block, run);
        Ok(())
    }

    // Forgets a block, which isn't known afterwards.
    pub(crate) fn forget(&mut self, block: usize)
        requires { block < length self.old.flags }
        ensures size { length self.new.bytes ≡ length self.old.bytes }
        ensures bytes { (i : ℕ) → IsKnownAt self.new.flags i → get_or self.new.bytes i 0 ≡ get_or self.old.bytes i 0 }
        ensures flags { self.new.flags ≡ set self.old.flags block false }
    {
        drop(self.rooms.remove(&block));
    }
}

// Puts the blocks of a run into a map, from the number `from` on.
fn enter_rooms<A: Allocator + Copy>(
    rooms: &mut Rooms<A>,
    from: usize,
    run: &Run<A>,
    shares: Vec<Run<A>, A>,
)
    requires room { length shares.items ≤ spare rooms.old }
    requires whole { 4096 * length shares.items ≤ length run.now.value.items }
    requires fits { from + length shares.items < 2 ^ 64 }
    requires same { All (λ share. share.value ≡ run.now.value) shares.items }
    ensures { Enters (get nat_eq rooms.old) (get nat_eq rooms.new) from (length shares.items) run.now.value.items }
{
    let mut shares = shares;
    for k in 0..shares.len() {
        if let Some(share) = shares.pop() {
            drop(rooms.insert(from + k, Part::new(share, BLOCK * k, BLOCK * k + BLOCK)));
        }
    }
}

// Puts a run of one block into a map, under this number.
fn enter_room<A: Allocator + Copy>(rooms: &mut Rooms<A>, block: usize, run: Run<A>)
    requires room { 1 ≤ spare rooms.old }
    requires whole { length run.value.items ≡ 4096 }
    requires fits { block + 1 < 2 ^ 64 }
    ensures { Enters (get nat_eq rooms.old) (get nat_eq rooms.new) block 1 run.value.items }
{
    drop(rooms.insert(block, Part::new(run, 0, BLOCK)));
}

// Copies the bytes that a block and a buffer share. The block begins at offset `start`, and the buffer at `at`.
fn copy_part(bytes: &[u8], start: usize, at: usize, buffer: &mut [u8])
    requires block { length bytes.now ≡ 4096 }
    requires begins { start ≤ at + length buffer.old }
    requires ends { at ≤ start + 4096 }
    requires start { start + 4096 < 2 ^ 64 }
    requires at { at + length buffer.old < 2 ^ 64 }
    ensures { buffer.new ≡ written buffer.old (start - at)
        (slice_range bytes.now (at - start) (min 4096 (at + length buffer.old - start))) }
{
    let from = at.saturating_sub(start);
    let to = BLOCK.min(at + buffer.len() - start);
    put(buffer, start.saturating_sub(at), &bytes[from..to]);
}
