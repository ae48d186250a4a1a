// A disk over another disk that keeps its writes in memory.
ghost use Rattle.std.specs.Prelude.{◌≡◌, ◌↔◌, ℕ, ◌+◌, ◌-◌, ◌^◌, ◌<◌, ◌≤◌, ◌∷◌, [], List, length, slice_range, OnOk, OnErr, IsTrue, IsOk, IsErr, true, is_ok};
ghost use Rattle.device.specs.Device.{written, Torn, TornFrom, Only, LeavesOnly};
ghost use Rattle.device.specs.Failing.{IsPassedOn};
ghost use Rattle.device.specs.Memory.{content_after, seen_of, may_leave_of, moment_of, left_since_of};
ghost use Rattle.device.specs.Memory.DiskChange.{write, sync};
ghost use Rattle.device.specs.Overlay.{overlaid, as_recorded, after_read, after_change, after_refusal};
ghost use Rattle.device.specs.inside.Logged.{change_of, changes_of};
ghost use Rattle.device.specs.inside.Replay.{AreWithin};

use crate::count::raise;
use crate::log::{Logged, log_sync, log_write, put};
use crate::{Device, DeviceFault};
use std::alloc::Allocator;
use std::marker::Model;

/// A disk over another disk that keeps its writes in memory. A read returns written bytes from memory, and all other
/// bytes from the disk below, which is only read. So it is a copy of that disk that needs memory only for the written
/// bytes. It is as honest as the disk below, whose content counts as synced.
///
/// A write or a sync fails if memory for its record can't be allocated, and then the content doesn't change. No other
/// write or sync fails.
#[derive(Drop)]
pub struct OverlayDisk<D: Device, A: Allocator + Copy> {
    inner: D,
    alloc: A,
    log: Vec<Logged<A>, A>,
    refused: bool,
    calls: u64,
    faults: u64,
}

impl<D: Device, A: Allocator + Copy> Model for OverlayDisk<D, A> {
    ghost use Rattle.std.specs.Prelude.{length};
    ghost use Rattle.device.specs.Overlay.{Overlaid};
    ghost use Rattle.device.specs.inside.Codes.{overlaid_code};

    ghost Value = { Overlaid D };

    ghost coded = { overlaid_code D.code };

    ghost use Rattle.device.specs.inside.Logged.{changes_of};
    ghost use Rattle.device.specs.inside.Replay.{AreWithin};

    ghost view = { λ disk. record {
      inner = disk.inner;
      changes = changes_of disk.log.items;
      refused = disk.refused;
      calls = disk.calls;
      faults = disk.faults;
    } };

    ghost invariant = { λ disk. AreWithin (length (D.seen disk.inner)) (changes_of disk.log.items) };
}

impl<D: Device, A: Allocator + Copy> OverlayDisk<D, A> {
    /// Returns a disk over `inner`. It allocates no memory until it is written or synced.
    pub fn new(alloc: A, inner: D) -> Self
        ensures { result ≡ overlaid inner }
    {
        OverlayDisk {
            inner,
            alloc,
            log: Vec::new(alloc),
            refused: false,
            calls: 0,
            faults: 0,
        }
    }

    /// Returns the disk below, which was only read.
    pub fn into_inner(self) -> D
        ensures { result ≡ self.inner }
    {
        let OverlayDisk { inner, .. } = self;
        inner
    }

    /// Whether a write or a sync failed because memory for its record couldn't be allocated.
    pub fn was_refused_memory(&self) -> bool
        ensures { result ≡ self.now.refused }
    {
        self.refused
    }

    // Counts a read, and returns its outcome.
    fn count(&mut self, outcome: Result<(), DeviceFault>) -> Result<(), DeviceFault>
        ensures same { result ≡ outcome }
        ensures counted { self.new ≡ after_read self.old self.old.inner (is_ok outcome) }
    {
        raise(&mut self.calls);
        if outcome.is_err() {
            raise(&mut self.faults);
        }
        outcome
    }
}

impl<D: Device, A: Allocator + Copy> Device for OverlayDisk<D, A> {
    ghost use Rattle.device.specs.Memory.{seen_of, may_leave_of, moment_of, left_since_of};
    ghost use Rattle.device.specs.Overlay.{as_recorded};
    ghost use Rattle.device.specs.inside.Laws.{seen_is_left_of, now_is_since_of, since_now_of};

    ghost seen = { λ disk. seen_of (as_recorded D.seen disk) };

    ghost may_leave = { λ disk. may_leave_of (as_recorded D.seen disk) };

    ghost moment = { λ disk. moment_of (as_recorded D.seen disk) };

    ghost left_since = { λ disk. left_since_of (as_recorded D.seen disk) };

    ghost calls_made = { λ disk. disk.calls };

    ghost faults_met = { λ disk. disk.faults };

    ghost carried = { λ disk. 0 };

    ghost is_honest = { λ disk. D.is_honest disk.inner };

    ghost seen_is_left = { λ disk honest. seen_is_left_of (as_recorded D.seen disk) };

    ghost left_is_whole = { λ disk c honest left. left.same_length };

    ghost now_is_since = { λ disk. now_is_since_of (as_recorded D.seen disk) };

    ghost since_now = { λ disk. since_now_of (as_recorded D.seen disk) };

    fn len(&self) -> u64 {
        self.inner.len()
    }

    fn read(&mut self, at: u64, buffer: &mut [u8]) -> Result<(), DeviceFault>
        requires { at + length buffer.old ≤ length (seen_of (as_recorded D.seen self.old)) }

        ensures bytes { D.is_honest self.old.inner → OnOk result
            (buffer.new ≡ slice_range (seen_of (as_recorded D.seen self.old)) at (at + length buffer.old)) }
        ensures same { D.seen self.new.inner ≡ D.seen self.old.inner }
        ensures honest { D.is_honest self.new.inner ↔ D.is_honest self.old.inner }
        ensures counted { self.new ≡ after_read self.old self.new.inner (is_ok result) }

        // It makes one read of the disk below, and fails if that fails.
        ensures passed { IsPassedOn D.calls_made D.faults_met self.old.inner self.new.inner result }
    {
        // The length is below 2^64, so the end of a range within it doesn't wrap.
        let _ = self.inner.len();
        let outcome = self.inner.read(at, buffer);
        patch_all(buffer, at, &self.log);
        self.count(outcome)
    }

    fn write(&mut self, at: u64, bytes: &[u8]) -> Result<(), DeviceFault>
        requires { at + length bytes.now ≤ length (seen_of (as_recorded D.seen self.old)) }

        // The disk below isn't called.
        ensures recorded { OnOk result (self.new ≡ after_change self.old (write at bytes.now)) }
        ensures refused { OnErr result (self.new ≡ after_refusal self.old) }
    {
        raise(&mut self.calls);
        if log_write(self.alloc, &mut self.log, at, bytes).is_err() {
            self.refused = true;
            raise(&mut self.faults);
            return Err(DeviceFault);
        }
        Ok(())
    }

    fn sync(&mut self) -> Result<(), DeviceFault>
        // The disk below isn't called.
        ensures recorded { OnOk result (self.new ≡ after_change self.old sync) }
        ensures refused { OnErr result (self.new ≡ after_refusal self.old) }
    {
        raise(&mut self.calls);
        if log_sync(&mut self.log).is_err() {
            self.refused = true;
            raise(&mut self.faults);
            return Err(DeviceFault);
        }
        Ok(())
    }

    fn calls(&self) -> u64 {
        self.calls
    }

    fn faults(&self) -> u64 {
        self.faults
    }
}

// Applies these writes to a buffer, which is the part of a disk that begins at the offset `at`.
fn patch_all<A: Allocator + Copy>(buffer: &mut [u8], at: u64, log: &[Logged<A>])
    requires fits { at + length buffer.old < 2 ^ 64 }
    requires within { AreWithin (2 ^ 64 - 1) (changes_of log.now) }
    ensures { (first : List ℕ) → at + length buffer.old ≤ length first → AreWithin (length first) (changes_of log.now)
        → buffer.old ≡ slice_range first at (at + length buffer.old)
        → buffer.new ≡ slice_range (content_after first (changes_of log.now)) at (at + length buffer.old) }
{
    for entry in log {
        match entry {
            Logged::Write(from, bytes) => patch(buffer, at, *from, bytes),
            Logged::Sync => {}
        }
    }
}

// Applies a write to a buffer, which is the part of a disk that begins at the offset `at`.
fn patch(buffer: &mut [u8], at: u64, from: u64, bytes: &[u8])
    requires fits { at + length buffer.old < 2 ^ 64 }
    requires within { from + length bytes.now < 2 ^ 64 }
    ensures { (seen : List ℕ) → at + length buffer.old ≤ length seen → from + length bytes.now ≤ length seen
        → buffer.old ≡ slice_range seen at (at + length buffer.old)
        → buffer.new ≡ slice_range (written seen from bytes.now) at (at + length buffer.old) }
{
    let start = at.max(from);
    let end = (at + buffer.len() as u64).min(from + bytes.len() as u64);
    if start < end {
        let part = &bytes[(start - from) as usize..(end - from) as usize];
        put(buffer, (start - at) as usize, part);
    }
}
