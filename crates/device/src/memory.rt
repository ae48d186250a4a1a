// A disk in memory, for tests and trials. It can crash. It then contains what the caller chooses among what a crash may
// leave.
ghost use Rattle.std.specs.Prelude.{⊤, ◌≡◌, ℕ, ◌+◌, ◌≤◌, List, [], ◌∷◌, length, replicate, slice_range, IfOk, OnOk, OnErr, IsOk};
ghost use Rattle.device.specs.Device.{written, TornFrom, Only, LeavesOnly};
ghost use Rattle.device.specs.Memory.{is_unsynced, seen_of, may_leave_of, moment_of, left_since_of, new_disk, after_read, after_refusal, after_change, chosen_from, after_stop};
ghost use Rattle.device.specs.Memory.DiskChange.{write, sync};
ghost use Rattle.device.specs.inside.Logged.{change_of, changes_of};
ghost use Rattle.device.specs.inside.Replay.{since_sync, with_choice, AreWithin};

use crate::count::raise;
use crate::log::{Logged, log_sync, log_write, put};
use crate::{Device, DeviceFault};
use std::alloc::{AllocError, Allocator};
use std::marker::Model;

/// A disk in memory. It is honest. It records its writes and syncs, so each content is known that a crash since any
/// moment might have left. A write or a sync fails if memory for its record can't be allocated. No other call fails.
#[derive(Drop)]
pub struct MemDisk<A: Allocator + Copy> {
    alloc: A,
    first: Vec<u8, A>,
    log: Vec<Logged<A>, A>,
    start: u64,
    content: Vec<u8, A>,
    // The index in the log at which the writes since the last sync begin.
    synced: usize,
    calls: u64,
    faults: u64,
}

impl<A: Allocator + Copy> Model for MemDisk<A> {
    ghost use Rattle.device.specs.Memory.{Recorded};

    ghost Value = { Recorded };

    ghost use Rattle.device.specs.inside.Logged.{changes_of};
    ghost use Rattle.device.specs.inside.Replay.{IsReplay};

    ghost view = { λ d. record {
      first = d.first.items;
      changes = changes_of d.log.items;
      start = d.start;
      calls = d.calls;
      faults = d.faults;
    } };

    ghost invariant = { λ d. IsReplay d.first.items (changes_of d.log.items) d.content.items d.synced };
}

impl<A: Allocator + Copy> MemDisk<A> {
    /// Returns a disk of `len` zeros, all of them durable. Fails if memory can't be allocated.
    pub fn new(alloc: A, len: u64) -> Result<Self, AllocError>
        ensures { IfOk result (λ disk. disk ≡ new_disk (replicate len 0)) }
    {
        MemDisk::from_bytes(alloc, vec![in alloc; 0; len as usize]?)
    }

    /// Returns a disk that contains these bytes, all of them durable. Fails if memory can't be allocated.
    pub fn from_bytes(alloc: A, bytes: Vec<u8, A>) -> Result<Self, AllocError>
        ensures { IfOk result (λ disk. disk ≡ new_disk bytes.items) }
    {
        Ok(MemDisk {
            alloc,
            first: Vec::from_slice(alloc, &bytes)?,
            log: Vec::new(alloc),
            start: 0,
            content: bytes,
            synced: 0,
            calls: 0,
            faults: 0,
        })
    }

    /// Returns all the bytes that reads return.
    pub fn bytes(&self) -> &[u8]
        ensures { result.now ≡ seen_of self.now }
    {
        &self.content
    }

    /// Crashes the disk. Places that were written since the last sync get the bytes of `choice`, and the other places
    /// keep theirs. `choice` is as long as the disk. The disk continues with that content, all of it durable. Allocates
    /// no memory.
    pub fn stop(&mut self, choice: &[u8])
        requires { length choice.now ≡ length (seen_of self.old) }
        ensures stopped { self.new ≡ after_stop self.old choice.now }

        // The new content is one that a crash may leave, and each content that a crash may leave can be chosen.
        ensures left { may_leave_of self.old (seen_of self.new) }
        ensures chosen { may_leave_of self.old choice.now → seen_of self.new ≡ choice.now }

        // Until it is written again, a further crash leaves nothing else.
        ensures only { Only (may_leave_of self.new) (seen_of self.new) }
    {
        choose(&mut self.content, &self.log, self.synced, choice);
        self.first.copy_from_slice(&self.content);
        self.start = self.start.saturating_add(self.log.len() as u64);
        self.log.clear();
        self.synced = 0;
    }

    fn apply_read(&mut self, at: u64, buffer: &mut [u8])
        requires { at + length buffer.old ≤ length (seen_of self.old) }
        ensures disk { self.new ≡ after_read self.old }
        ensures bytes { buffer.new ≡ slice_range (seen_of self.old) at (at + length buffer.old) }
    {
        raise(&mut self.calls);
        let from = at as usize;
        buffer.copy_from_slice(&self.content[from..from + buffer.len()]);
    }

    fn apply_write(&mut self, at: u64, bytes: &[u8]) -> Result<(), DeviceFault>
        requires { at + length bytes.now ≤ length (seen_of self.old) }
        ensures ok { OnOk result (self.new ≡ after_change self.old (write at bytes.now)) }
        ensures err { OnErr result (self.new ≡ after_refusal self.old) }
    {
        raise(&mut self.calls);
        if log_write(self.alloc, &mut self.log, at, bytes).is_err() {
            raise(&mut self.faults);
            return Err(DeviceFault);
        }
        put(&mut self.content, at as usize, bytes);
        Ok(())
    }

    fn apply_sync(&mut self) -> Result<(), DeviceFault>
        ensures ok { OnOk result (self.new ≡ after_change self.old sync) }
        ensures err { OnErr result (self.new ≡ after_refusal self.old) }
    {
        raise(&mut self.calls);
        if log_sync(&mut self.log).is_err() {
            raise(&mut self.faults);
            return Err(DeviceFault);
        }
        self.synced = self.log.len();
        Ok(())
    }
}

impl<A: Allocator + Copy> Device for MemDisk<A> {
    ghost use Rattle.device.specs.inside.Laws.{seen_is_left_of, now_is_since_of, since_now_of};

    ghost seen = { seen_of };

    ghost may_leave = { may_leave_of };

    ghost moment = { moment_of };

    ghost left_since = { left_since_of };

    ghost calls_made = { λ disk. disk.calls };

    ghost faults_met = { λ disk. disk.faults };

    ghost carried = { λ disk. 0 };

    ghost is_honest = { λ disk. ⊤ };

    ghost seen_is_left = { λ disk honest. seen_is_left_of disk };

    ghost left_is_whole = { λ disk c honest left. left.same_length };

    ghost now_is_since = { now_is_since_of };

    ghost since_now = { since_now_of };

    fn len(&self) -> u64 {
        self.content.len() as u64
    }

    fn read(&mut self, at: u64, buffer: &mut [u8]) -> Result<(), DeviceFault>
        requires { at + length buffer.old ≤ length (seen_of self.old) }

        ensures bytes { OnOk result (buffer.new ≡ slice_range (seen_of self.old) at (at + length buffer.old)) }
        ensures left { (c : List ℕ) → may_leave_of self.new c → may_leave_of self.old c }
        ensures time { LeavesOnly moment_of left_since_of self.old self.new (may_leave_of self.old) }

        // It doesn't fail.
        ensures ok { IsOk result }
        ensures recorded { self.new ≡ after_read self.old }
    {
        self.apply_read(at, buffer);
        Ok(())
    }

    fn write(&mut self, at: u64, bytes: &[u8]) -> Result<(), DeviceFault>
        requires { at + length bytes.now ≤ length (seen_of self.old) }

        ensures written { OnOk result (seen_of self.new ≡ written (seen_of self.old) at bytes.now) }
        ensures len { length (seen_of self.new) ≡ length (seen_of self.old) }
        ensures keeps { (c : List ℕ) → may_leave_of self.old c → may_leave_of self.new c }
        ensures left { (c : List ℕ)
            → may_leave_of self.new c → TornFrom at (length bytes.now) (may_leave_of self.old) c }
        ensures time { LeavesOnly moment_of left_since_of self.old self.new
            (TornFrom at (length bytes.now) (may_leave_of self.old)) }

        ensures recorded { OnOk result (self.new ≡ after_change self.old (write at bytes.now)) }

        // If memory for its record can't be allocated, it fails and changes nothing but the counts.
        ensures refused { OnErr result (self.new ≡ after_refusal self.old) }

        // A crash may leave any bytes in the range.
        ensures any { OnOk result ((c : List ℕ)
            → TornFrom at (length bytes.now) (may_leave_of self.old) c → may_leave_of self.new c) }
    {
        self.apply_write(at, bytes)
    }

    fn sync(&mut self) -> Result<(), DeviceFault>
        ensures same { seen_of self.new ≡ seen_of self.old }
        ensures durable { OnOk result (Only (may_leave_of self.new) (seen_of self.old)) }
        ensures left { (c : List ℕ) → may_leave_of self.new c → may_leave_of self.old c }
        ensures time { LeavesOnly moment_of left_since_of self.old self.new (may_leave_of self.old) }

        ensures recorded { OnOk result (self.new ≡ after_change self.old sync) }

        // If memory for its record can't be allocated, it fails and changes nothing but the counts.
        ensures refused { OnErr result (self.new ≡ after_refusal self.old) }
    {
        self.apply_sync()
    }

    fn calls(&self) -> u64 {
        self.calls
    }

    fn faults(&self) -> u64 {
        self.faults
    }
}

// Puts the chosen bytes in the places that were written since the last sync.
fn choose<A: Allocator + Copy>(content: &mut [u8], log: &[Logged<A>], synced: usize, choice: &[u8])
    requires choice { length choice.now ≡ length content.old }
    requires since { synced + since_sync (changes_of log.now) ≡ length log.now }
    requires within { AreWithin (length content.old) (changes_of log.now) }
    ensures { content.new ≡ chosen_from (is_unsynced (changes_of log.now)) 0 choice.now content.old }
{
    put_all(content, &log[synced..], choice);
}

// Puts the chosen bytes in the ranges that were written.
fn put_all<A: Allocator + Copy>(content: &mut [u8], log: &[Logged<A>], choice: &[u8])
    requires choice { length choice.now ≡ length content.old }
    requires within { AreWithin (length content.old) (changes_of log.now) }
    ensures { content.new ≡ with_choice (changes_of log.now) choice.now content.old }
{
    for entry in log {
        put_one(content, entry, choice);
    }
}

fn put_one<A: Allocator + Copy>(content: &mut [u8], entry: &Logged<A>, choice: &[u8])
    requires choice { length choice.now ≡ length content.old }
    requires within { AreWithin (length content.old) (change_of entry.now ∷ []) }
    ensures { content.new ≡ with_choice (change_of entry.now ∷ []) choice.now content.old }
{
    if let Logged::Write(at, bytes) = entry {
        let from = *at as usize;
        put(content, from, &choice[from..from + bytes.len()]);
    }
}
