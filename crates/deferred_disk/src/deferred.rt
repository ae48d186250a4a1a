// A disk whose writes and syncs a host makes.
ghost use Rattle.std.specs.Prelude.{◌≡◌, ℕ, ◌+◌, ◌-◌, ◌*◌, ◌^◌, ◌<◌, ◌≤◌, false, None, List, length, take, get_or, not, true, is_none, is_ok, option_map, slice_range, OnOk, OnErr, IsOk};
ghost use Rattle.deferred_disk.specs.Carrying.{CarriedOut};
ghost use Rattle.device.specs.Device.{written};
ghost use Rattle.device.specs.Did.{Did};
ghost use Rattle.device.specs.Memory.{seen_of};
ghost use Rattle.device.specs.Memory.DiskChange.{write, sync};
ghost use Rattle.deferred_disk.specs.Deferred.{deferred, as_memory, carried_out, block_of, lacked_by_read, lacked_by_write, IsSuppliedWell, after_read, after_write, after_sync, after_refusal, after_supply, after_forget, reaches, one_reaches, with_waiting, oldest_call, waits_behind, done_by, recorded_calls};
ghost use Rattle.device.specs.Work.{TornByWork};
ghost use Rattle.deferred_disk.specs.Lent.{change_lent};
ghost use Rattle.deferred_disk.specs.inside.Waiting.{changes_of};
ghost use Rattle.device.specs.inside.Replay.{AreWithin};

use crate::blocks::Blocks;
use crate::past::Past;
use crate::waiting::{WaitingCall, keep_sync, keep_write, lend_at, make_first, waits_for};
use device::{Device, DeviceFault, raise};
use std::alloc::{AllocError, Allocator};
use std::collections::VecDeque;
use std::marker::Model;

/// A call that a host is to make: a write of these bytes at this offset, or a sync.
pub enum DeferredCall<'a> {
    Write { at: u64, bytes: &'a [u8] },
    Sync,
}

/// A disk that records its writes and syncs, in order, for a host to make. It makes no system call itself, and its
/// calls return at once. A read returns bytes of blocks of 4,096 bytes that were supplied by the host, or written. A
/// read of another block fails with a [`DeviceFault`], and `wanted` returns that block. So a program that is a function
/// over this disk asks its host for blocks and for calls, and makes neither.
///
/// Its content is a list that only proofs know. The disk is honest as long as each supplied block is the block of that
/// list. If the host supplies other bytes, no clause on content applies to the disk.
///
/// A write or a sync fails if memory can't be allocated, and then changes only the counts and what `wanted` returns.
#[derive(Drop)]
pub struct DeferredDisk<A: Allocator + Copy> {
    blocks: Blocks<A>,
    // The oldest call first.
    log: VecDeque<WaitingCall<A>, A>,
    past: Past,
    // The number of writes and syncs that were recorded.
    recorded: u64,
    len: u64,
    wanted: Option<usize>,
    calls: u64,
    faults: u64,
}

impl<A: Allocator + Copy> Model for DeferredDisk<A> {
    ghost use Rattle.std.specs.Prelude.{length};
    ghost use Rattle.deferred_disk.specs.Deferred.{Deferred};
    ghost use Rattle.deferred_disk.specs.inside.Deferring.{deferred_code};

    ghost Value = { Deferred };

    ghost coded = { deferred_code };

    ghost use Rattle.deferred_disk.specs.inside.Waiting.{changes_of};
    ghost use Rattle.deferred_disk.specs.inside.Deferring.{IsKept, AreCounted};

    ghost view = { λ disk. record {
      first = disk.past.first;
      changes = disk.past.changes;
      waiting = length disk.log.items;
      known = disk.blocks.flags;
      supplied = disk.past.supplied;
      wanted = disk.wanted;
      calls = disk.calls;
      faults = disk.faults;
    } };

    ghost invariant = { λ disk. IsKept disk.past.first disk.past.changes disk.past.supplied disk.blocks.bytes
        disk.blocks.flags (changes_of disk.log.items) disk.len
        × AreCounted disk.recorded disk.past.changes };
}

impl<A: Allocator + Copy> DeferredDisk<A> {
    /// Returns a disk of `blocks` blocks, none of which is known. Only the host knows their contents. Memory is
    /// allocated for a block only once it is known.
    pub fn new(alloc: A, blocks: u32) -> Self
        ghost content: { List ℕ }
        requires { length content ≡ 4096 * blocks }
        ensures { result ≡ deferred content blocks }
    {
        DeferredDisk {
            blocks: Blocks::new(alloc, blocks as usize),
            log: VecDeque::new(alloc),
            past: Past::begin(),
            recorded: 0,
            len: 4096 * u64::from(blocks),
            wanted: None,
            calls: 0,
            faults: 0,
        }
    }

    /// Supplies a block that the host has read. A block that is known keeps its bytes, which were written or supplied
    /// before. Fails if memory can't be allocated, and then changes nothing.
    pub fn supply(&mut self, block: u32, bytes: &[u8; 4096]) -> Result<(), AllocError>
        requires { 4096 * block + 4096 ≤ length (seen_of (as_memory self.old)) }
        ensures ok { OnOk result (self.new ≡ after_supply self.old block bytes.now) }
        ensures err { OnErr result (self.new ≡ self.old) }

        // The bytes that a read returns, and those that a crash may leave, stay.
        ensures recorded { as_memory self.new ≡ as_memory self.old }
    {
        let place = block as usize;
        if self.blocks.is_known(place) {
            return Ok(());
        }
        drop(self.blocks.put(4096 * place, bytes)?);
        self.past = Past::with_block(&self.past, block, bytes);
        Ok(())
    }

    /// Whether a block is known. A host may read a block that isn't known from a device on which all calls before the
    /// oldest waiting one were made. There the block contains the same bytes as on this disk. This holds even if the
    /// oldest waiting call was tried and failed.
    pub fn is_known(&self, block: u32) -> bool
        ensures known { result ≡ get_or self.now.known block false }
        ensures there { 4096 * block + 4096 ≤ length (seen_of (as_memory self.now)) → result ≡ false
            → (bytes : List ℕ) → length bytes ≡ length (seen_of (as_memory self.now))
            → TornByWork (done_by (oldest_call self.now)) (seen_of (carried_out self.now)) bytes
            → block_of bytes block ≡ block_of (seen_of (as_memory self.now)) block }
    {
        self.blocks.is_known(block as usize)
    }

    /// Forgets a block, and returns true. If a waiting call writes to the block, changes nothing, and returns false. If
    /// the bytes of a forgotten block are needed, the host supplies them again.
    pub fn forget(&mut self, block: u32) -> bool
        requires { 4096 * block + 4096 ≤ length (seen_of (as_memory self.old)) }
        ensures result { result ≡ not (one_reaches (take self.old.waiting self.old.changes) block) }
        ensures forgotten { result ≡ true → self.new ≡ after_forget self.old block }
        ensures kept { result ≡ false → self.new ≡ self.old }
    {
        if waits_for(&self.log, block) {
            return false;
        }
        self.blocks.forget(block as usize);
        true
    }

    /// Copies bytes from an offset on, as a read does, and returns `None`. If a read would lack a block, returns that
    /// block. Counts no call.
    pub fn peek(&self, at: u64, buffer: &mut [u8]) -> Option<usize>
        requires { at + length buffer.old ≤ length (seen_of (as_memory self.now)) }
        ensures lacked { result ≡ lacked_by_read self.now.known at (length buffer.old) }
        ensures bytes { IsSuppliedWell self.now → result ≡ None
            → buffer.new ≡ slice_range (seen_of (as_memory self.now)) at (at + length buffer.old) }
    {
        self.blocks.read(at as usize, buffer)
    }

    /// Returns the block that the last call of `read`, `write` or `sync` lacked, if it failed because of that.
    pub fn wanted(&self) -> Option<usize>
        ensures { result ≡ self.now.wanted }
    {
        self.wanted
    }

    /// Returns the number of calls that wait for the host.
    pub fn waiting(&self) -> usize
        ensures { result ≡ self.now.waiting }
    {
        self.log.len()
    }

    /// Returns the number of writes and syncs that were recorded, both carried out and waiting. A count of 2^64-1 stays
    /// there.
    pub fn recorded(&self) -> u64
        ensures { result ≡ recorded_calls self.now }
    {
        self.recorded
    }

    /// Returns the call that waits behind `others` older waiting calls, or `None` if there is none. The host makes the
    /// calls in order, and reports each of them by `carried_out`.
    pub fn call(&self, others: usize) -> Option<DeferredCall<'_>>
        ensures { option_map change_lent result ≡ waits_behind others self.now }
    {
        lend_at(&self.log, others)
    }

    /// Reports that the oldest waiting call was made. It no longer waits.
    pub fn carried_out(&mut self)
        ensures { self.new ≡ with_waiting self.old (self.old.waiting - 1) }
    {
        let _ = self.log.pop_front();
    }

    /// Makes the waiting calls on a device of the same length, in order, up to the first that fails. The calls that
    /// weren't made still wait, in order. This is the reference for what a host does.
    pub fn carry_out<D: Device>(&mut self, device: &mut D) -> Result<(), DeviceFault>
        requires { length (D.seen device.old) ≡ length (seen_of (as_memory self.old)) }

        // Nothing else changes. After an error a call is left, the one that failed.
        ensures taken { self.new ≡ with_waiting self.old self.new.waiting }
        ensures ok { OnOk result (self.new.waiting ≡ 0) }
        ensures err { OnErr result (1 ≤ self.new.waiting) }

        // The calls on the device were the waiting ones, in order.
        ensures carried { CarriedOut D.Device device.old self.old (is_ok result) device.new self.new.waiting }
    {
        let mut left = self.left_to_carry();
        while left > 0 {
            match self.carry_one(device) {
                Ok(()) => {}
                Err(fault) => return Err(fault),
            }
            left -= 1;
        }
        Ok(())
    }

    // Makes the oldest waiting call.
    fn carry_one<D: Device>(&mut self, device: &mut D) -> Result<(), DeviceFault>
        requires some { 0 < self.old.waiting }
        requires size { length (D.seen device.old) ≡ length (seen_of (as_memory self.old)) }
        ensures did { Did D.Device device.old (done_by (oldest_call self.old)) (is_ok result) device.new }
        ensures ok { OnOk result (self.new ≡ with_waiting self.old (self.old.waiting - 1)) }
        ensures err { OnErr result (self.new ≡ self.old) }
    {
        match make_first(&self.log, device) {
            Ok(()) => {
                self.carried_out();
                Ok(())
            }
            Err(fault) => Err(fault),
        }
    }

    // Returns the number of waiting calls. Each of them is within the disk.
    fn left_to_carry(&self) -> usize
        ensures count { result ≡ self.now.waiting }
        ensures few { self.now.waiting ≤ length self.now.changes }
        ensures within { AreWithin (length self.now.first) self.now.changes }
    {
        self.log.len()
    }
}

impl<A: Allocator + Copy> Device for DeferredDisk<A> {
    ghost use Rattle.device.specs.Memory.{seen_of, may_leave_of, moment_of, left_since_of};
    ghost use Rattle.deferred_disk.specs.Deferred.{as_memory, carried_moment, IsSuppliedWell};
    ghost use Rattle.device.specs.inside.Laws.{seen_is_left_of, now_is_since_of, since_now_of};

    ghost seen = { λ disk. seen_of (as_memory disk) };

    ghost may_leave = { λ disk. may_leave_of (as_memory disk) };

    ghost moment = { λ disk. moment_of (as_memory disk) };

    ghost left_since = { λ disk. left_since_of (as_memory disk) };

    ghost calls_made = { λ disk. disk.calls };

    ghost faults_met = { λ disk. disk.faults };

    ghost carried = { carried_moment };

    ghost is_honest = { IsSuppliedWell };

    ghost seen_is_left = { λ disk honest. seen_is_left_of (as_memory disk) };

    ghost left_is_whole = { λ disk c honest left. left.same_length };

    ghost now_is_since = { λ disk. now_is_since_of (as_memory disk) };

    ghost since_now = { λ disk. since_now_of (as_memory disk) };

    fn len(&self) -> u64 {
        self.len
    }

    fn read(&mut self, at: u64, buffer: &mut [u8]) -> Result<(), DeviceFault>
        requires { at + length buffer.old ≤ length (seen_of (as_memory self.old)) }

        ensures bytes { IsSuppliedWell self.old → OnOk result
            (buffer.new ≡ slice_range (seen_of (as_memory self.old)) at (at + length buffer.old)) }

        // It fails if a block that it reaches isn't known, and in no other case.
        ensures counted { self.new
            ≡ after_read self.old (lacked_by_read self.old.known at (length buffer.old)) (is_ok result) }
        ensures lacks { is_ok result ≡ is_none (lacked_by_read self.old.known at (length buffer.old)) }
    {
        self.wanted = self.peek(at, buffer);
        raise(&mut self.calls);
        if self.wanted.is_some() {
            raise(&mut self.faults);
            return Err(DeviceFault);
        }
        Ok(())
    }

    fn write(&mut self, at: u64, bytes: &[u8]) -> Result<(), DeviceFault>
        requires { at + length bytes.now ≤ length (seen_of (as_memory self.old)) }

        // It fails if it covers in part a block that isn't known, or if memory is refused.
        ensures lacks { IsOk result → lacked_by_write self.old.known at (length bytes.now) ≡ None }
        ensures recorded { OnOk result (self.new ≡ after_write self.old at bytes.now) }
        ensures refused { OnErr result (self.new
            ≡ after_refusal self.old (lacked_by_write self.old.known at (length bytes.now))) }
    {
        raise(&mut self.calls);
        self.wanted = self.blocks.lacked_by_write(at as usize, bytes.len());
        if self.wanted.is_some() {
            raise(&mut self.faults);
            return Err(DeviceFault);
        }
        if keep_write(&mut self.log, &mut self.blocks, at, bytes).is_err() {
            raise(&mut self.faults);
            return Err(DeviceFault);
        }
        self.past = Past::with_write(&self.past, &at, bytes);
        self.recorded = self.recorded.saturating_add(1);
        Ok(())
    }

    fn sync(&mut self) -> Result<(), DeviceFault>
        ensures recorded { OnOk result (self.new ≡ after_sync self.old) }
        ensures refused { OnErr result (self.new ≡ after_refusal self.old None) }
    {
        raise(&mut self.calls);
        self.wanted = None;
        if keep_sync(&mut self.log).is_err() {
            raise(&mut self.faults);
            return Err(DeviceFault);
        }
        self.past = Past::with_sync(&self.past);
        self.recorded = self.recorded.saturating_add(1);
        Ok(())
    }

    fn calls(&self) -> u64 {
        self.calls
    }

    fn faults(&self) -> u64 {
        self.faults
    }
}
