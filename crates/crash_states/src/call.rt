// The device calls of a run.
ghost use Rattle.std.specs.Prelude.{⊤, ◌≡◌, ◌↔◌, ℕ, ◌+◌, ◌≤◌, true, false, not, ◌||◌, if◌then◌else◌, nat_lt, min, List, ◌∷◌, [], ◌++◌, length, slice_range, OnOk, IfOk, IfErr, IsTrue, is_ok};
ghost use Rattle.device.specs.Count.{raised};
ghost use Rattle.device.specs.Device.{written, Torn, TornFrom, Only, LeavesOnly};
ghost use Rattle.device.specs.Memory.{new_disk, seen_of, may_leave_of, moment_of, left_since_of, after_read, after_change};
ghost use Rattle.device.specs.Memory.DiskChange.{sync};
ghost use Rattle.crash_states.specs.Calls.{ListsCall, ListsItsCalls, read_call, write_call, sync_call, is_due as due_on, call_of, device_calls_of, listing, failing, calls_until};

use device::{Device, DeviceFault, MemDisk};
use std::alloc::{AllocError, Allocator};
use std::marker::Model;

/// What a device call does.
#[derive(Clone, Copy)]
pub enum CallKind {
    Read,
    Write,
    Sync,
}

/// A device call. `at` is its offset, `len` is the number of bytes that it reads or writes, and `written` contains the
/// bytes that it writes.
#[derive(Drop)]
pub struct Call<A: Allocator + Copy> {
    pub kind: CallKind,
    pub at: u64,
    pub len: u64,
    pub written: Vec<u8, A>,
    pub failed: bool,
}

// Whether the kinds are the same.
fn is_same_kind(left: CallKind, right: CallKind) -> bool
    ensures { IsTrue result ↔ (left ≡ right) }
{
    match left {
        CallKind::Read => matches!(right, CallKind::Read),
        CallKind::Write => matches!(right, CallKind::Write),
        CallKind::Sync => matches!(right, CallKind::Sync),
    }
}

// Whether these are the same bytes.
fn are_same_bytes(left: &[u8], right: &[u8]) -> bool
    ensures { IsTrue result ↔ (left.now ≡ right.now) }
{
    left == right
}

impl<A: Allocator + Copy> Call<A> {
    // Whether this is the same call as `other`. If `fails`, `other` is taken as a call that failed.
    fn is_same(&self, other: &Call<A>, fails: bool) -> bool
        ensures { IsTrue result
            ↔ (call_of self.now ≡ (if fails then failing (call_of other.now) else call_of other.now)) }
    {
        is_same_kind(self.kind, other.kind)
            && self.at == other.at
            && self.len == other.len
            && are_same_bytes(&self.written, &other.written)
            && self.failed == (fails || other.failed)
    }
}

// Returns the number of calls up to the one with the number `fails`, or `all` if there is no such call.
fn count_until(all: u64, fails: u64) -> u64
    ensures { result ≡ (if nat_lt 0 fails then min all fails else all) }
{
    if fails > 0 { all.min(fails) } else { all }
}

/// Whether `made` contains the calls up to the one with the number `fails`, counted from 1, and that call failed. If
/// there is no such call, whether `made` contains all calls.
pub fn are_until<A: Allocator + Copy>(made: &[Call<A>], calls: &[Call<A>], fails: u64) -> bool
    ensures { IsTrue result ↔ (device_calls_of made.now ≡ calls_until (device_calls_of calls.now) fails) }
{
    if made.len() as u64 != count_until(calls.len() as u64, fails) {
        return false;
    }
    for i in 0..made.len() {
        if !made[i].is_same(&calls[i], i as u64 + 1 == fails) {
            return false;
        }
    }
    true
}

/// A disk in memory that lists its calls, and one call of which can be set to fail. A read or a write that is set to
/// fail still takes effect, so a crash may leave the written bytes. A sync that is set to fail has no effect.
#[derive(Drop)]
pub struct Listing<A: Allocator + Copy> {
    alloc: A,
    inner: MemDisk<A>,
    fails_at: u64,
    calls: Vec<Call<A>, A>,
    refused: bool,
    made: u64,
    faults: u64,
}

impl<A: Allocator + Copy> Model for Listing<A> {
    ghost use Rattle.std.specs.Prelude.{◌≡◌, false};
    ghost use Rattle.crash_states.specs.Calls.{ListedDisk, ListsItsCalls, listed_as};

    ghost Value = { ListedDisk };

    ghost view = { λ d. listed_as d.inner d.fails_at d.calls.items d.refused d.made d.faults };

    ghost invariant = { λ d. d.refused ≡ false
        → ListsItsCalls (listed_as d.inner d.fails_at d.calls.items d.refused d.made d.faults) };
}

impl<A: Allocator + Copy> Listing<A> {
    /// Returns a disk in memory that contains the bytes `image`. Its call with the number `fails_at`, counted from 1,
    /// is set to fail. If `fails_at` is 0, no call is. Fails if memory can't be allocated.
    pub fn new(alloc: A, image: &[u8], fails_at: u64) -> Result<Self, AllocError>
        ensures { IfOk result (λ disk. disk ≡ listing (new_disk image.now) fails_at) }
    {
        Ok(Listing {
            alloc,
            inner: MemDisk::from_bytes(alloc, Vec::from_slice(alloc, image)?)?,
            fails_at,
            calls: Vec::new(alloc),
            refused: false,
            made: 0,
            faults: 0,
        })
    }

    /// Returns the disk in memory, as the calls left it, and the calls in order. Fails if memory couldn't be allocated
    /// for a call.
    pub fn into_parts(self) -> Result<(MemDisk<A>, Vec<Call<A>, A>), AllocError>
        ensures complete { is_ok result ≡ not self.refused }
        ensures inner { IfOk result (λ parts. parts.0 ≡ self.inner) }
        ensures calls { IfOk result (λ parts. device_calls_of parts.1.items ≡ self.calls) }
        ensures listed { IfOk result (λ parts. ListsItsCalls self) }
    {
        let Listing {
            alloc: _,
            inner,
            fails_at: _,
            calls,
            refused,
            made: _,
            faults: _,
        } = self;
        if refused {
            return Err(AllocError);
        }
        Ok((inner, calls))
    }

    fn is_due(&self) -> bool
        ensures { result ≡ due_on self.now }
    {
        self.fails_at > 0 && self.made == self.fails_at - 1
    }
}

// Returns a call that reads `len` bytes from an offset on.
fn call_to_read<A: Allocator + Copy>(alloc: A, at: u64, len: u64, failed: bool) -> Call<A>
    ensures { call_of result ≡ read_call at len failed }
{
    Call {
        kind: CallKind::Read,
        at,
        len,
        written: Vec::new(alloc),
        failed,
    }
}

fn call_to_sync<A: Allocator + Copy>(alloc: A, failed: bool) -> Call<A>
    ensures { call_of result ≡ sync_call failed }
{
    Call {
        kind: CallKind::Sync,
        at: 0,
        len: 0,
        written: Vec::new(alloc),
        failed,
    }
}

// Returns a call that writes these bytes from an offset on.
fn call_to_write<A: Allocator + Copy>(
    alloc: A,
    at: u64,
    bytes: &[u8],
    failed: bool,
) -> Result<Call<A>, AllocError>
    ensures { IfOk result (λ call. call_of call ≡ write_call at bytes.now failed) }
{
    Ok(Call {
        kind: CallKind::Write,
        at,
        len: bytes.len() as u64,
        written: Vec::from_slice(alloc, bytes)?,
        failed,
    })
}

// Appends a call to the list. Sets `refused` if memory couldn't be allocated for the call, or for its place in the
// list, or if `is_refused`.
fn note<A: Allocator + Copy>(
    calls: &mut Vec<Call<A>, A>,
    refused: &mut bool,
    call: Result<Call<A>, AllocError>,
    is_refused: bool,
)
    ensures before { refused.new ≡ false → (refused.old ≡ false) × (is_refused ≡ false) }
    ensures listed { IfOk call (λ call. refused.new ≡ false
        → device_calls_of calls.new.items ≡ device_calls_of calls.old.items ++ call_of call ∷ []) }
    ensures lost { IfErr call (λ cause. refused.new ≡ true) }
{
    let Ok(call) = call else {
        *refused = true;
        return;
    };
    if calls.push(call).is_err() || is_refused {
        *refused = true;
    }
}

// Counts a call. The call fails, and is counted as a fault, if it was due to fail or memory was refused.
fn count(
    made: &mut u64,
    faults: &mut u64,
    is_due: bool,
    is_refused: bool,
) -> Result<(), DeviceFault>
    ensures result { is_ok result ≡ not (is_due || is_refused) }
    ensures made { made.new ≡ raised made.old }
    ensures faults { faults.new ≡ (if is_due || is_refused then raised faults.old else faults.old) }
{
    *made = made.saturating_add(1);
    if is_due || is_refused {
        *faults = faults.saturating_add(1);
        return Err(DeviceFault);
    }
    Ok(())
}

// Does nothing, so a crash can leave the same as before.
fn still<D: Device>(disk: &D)
    ensures { LeavesOnly D.moment D.left_since disk.now disk.now (D.may_leave disk.now) }
{}

// Syncs a disk, unless the call is to fail. Returns whether memory was refused.
fn sync_unless<A: Allocator + Copy>(disk: &mut MemDisk<A>, fails: bool) -> bool
    ensures synced { result ≡ false → disk.new ≡ (if fails then disk.old else after_change disk.old sync) }
    ensures same { seen_of disk.new ≡ seen_of disk.old }
    ensures durable { fails ≡ false → result ≡ false → Only (may_leave_of disk.new) (seen_of disk.old) }
    ensures left { (c : List ℕ) → may_leave_of disk.new c → may_leave_of disk.old c }
    ensures time { LeavesOnly moment_of left_since_of disk.old disk.new (may_leave_of disk.old) }
{
    if fails {
        still(disk);
        return false;
    }
    disk.sync().is_err()
}

impl<A: Allocator + Copy> Device for Listing<A> {
    ghost use Rattle.device.specs.inside.Laws.{seen_is_left_of, now_is_since_of, since_now_of};

    ghost seen = { λ disk. seen_of disk.inner };

    ghost may_leave = { λ disk. may_leave_of disk.inner };

    ghost moment = { λ disk. moment_of disk.inner };

    ghost left_since = { λ disk. left_since_of disk.inner };

    ghost calls_made = { λ disk. disk.made };

    ghost faults_met = { λ disk. disk.faults };

    ghost carried = { λ disk. 0 };

    ghost is_honest = { λ disk. ⊤ };

    ghost seen_is_left = { λ disk honest. seen_is_left_of disk.inner };

    ghost left_is_whole = { λ disk c honest left. left.same_length };

    ghost now_is_since = { λ disk. now_is_since_of disk.inner };

    ghost since_now = { λ disk. since_now_of disk.inner };

    fn len(&self) -> u64 {
        self.inner.len()
    }

    fn read(&mut self, at: u64, buffer: &mut [u8]) -> Result<(), DeviceFault>
        requires { at + length buffer.old ≤ length (seen_of self.old.inner) }

        ensures bytes { buffer.new ≡ slice_range (seen_of self.old.inner) at (at + length buffer.old) }
        ensures inner { self.new.inner ≡ after_read self.old.inner }
        ensures left { (c : List ℕ) → may_leave_of self.new.inner c → may_leave_of self.old.inner c }
        ensures time { LeavesOnly moment_of left_since_of self.old.inner self.new.inner (may_leave_of self.old.inner) }

        // The call is listed. It fails exactly if it is the one that is set to fail.
        ensures listed { ListsCall (read_call at (length buffer.old) (not (is_ok result))) self.old self.new }
    {
        let due = self.is_due();
        let call = call_to_read(self.alloc, at, buffer.len() as u64, due);
        let _done = self.inner.read(at, buffer);
        note(&mut self.calls, &mut self.refused, Ok(call), false);
        count(&mut self.made, &mut self.faults, due, false)
    }

    fn write(&mut self, at: u64, bytes: &[u8]) -> Result<(), DeviceFault>
        requires { at + length bytes.now ≤ length (seen_of self.old.inner) }

        ensures written { OnOk result (seen_of self.new.inner ≡ written (seen_of self.old.inner) at bytes.now) }
        ensures torn { Torn at (length bytes.now) (seen_of self.old.inner) (seen_of self.new.inner) }
        ensures keeps { (c : List ℕ) → may_leave_of self.old.inner c → may_leave_of self.new.inner c }
        ensures left { (c : List ℕ)
            → may_leave_of self.new.inner c → TornFrom at (length bytes.now) (may_leave_of self.old.inner) c }
        ensures time { LeavesOnly moment_of left_since_of self.old.inner self.new.inner
            (TornFrom at (length bytes.now) (may_leave_of self.old.inner)) }
        ensures len { length (seen_of self.new.inner) ≡ length (seen_of self.old.inner) }

        // The call is listed. It fails exactly if it is the one that is set to fail, or memory was refused.
        ensures listed { ListsCall (write_call at bytes.now (not (is_ok result))) self.old self.new }
    {
        let due = self.is_due();
        let call = call_to_write(self.alloc, at, bytes, due);
        let is_refused = self.inner.write(at, bytes).is_err();
        note(&mut self.calls, &mut self.refused, call, is_refused);
        count(&mut self.made, &mut self.faults, due, is_refused)
    }

    fn sync(&mut self) -> Result<(), DeviceFault>
        ensures same { seen_of self.new.inner ≡ seen_of self.old.inner }
        ensures durable { OnOk result (Only (may_leave_of self.new.inner) (seen_of self.old.inner)) }
        ensures left { (c : List ℕ) → may_leave_of self.new.inner c → may_leave_of self.old.inner c }
        ensures time { LeavesOnly moment_of left_since_of self.old.inner self.new.inner (may_leave_of self.old.inner) }

        // The call is listed. It fails exactly if it is the one that is set to fail, or memory was refused.
        ensures listed { ListsCall (sync_call (not (is_ok result))) self.old self.new }
    {
        let due = self.is_due();
        let call = call_to_sync(self.alloc, due);
        let is_refused = sync_unless(&mut self.inner, due);
        note(&mut self.calls, &mut self.refused, Ok(call), is_refused);
        count(&mut self.made, &mut self.faults, due, is_refused)
    }

    fn calls(&self) -> u64 {
        self.made
    }

    fn faults(&self) -> u64 {
        self.faults
    }
}
