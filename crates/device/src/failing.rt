// A disk with one failing call, to test how a program handles a fault.
ghost use Rattle.std.specs.Prelude.{◌≡◌, ◌↔◌, ℕ, ◌+◌, ◌-◌, ◌^◌, ◌<◌, ◌≤◌, List, length, slice_range, OnOk, IsTrue, IsOk, IsErr, is_ok};
ghost use Rattle.std.specs.Int.{div_ceil};
ghost use Rattle.device.specs.Device.{written, Torn, TornFrom, Only, LeavesOnly};
ghost use Rattle.device.specs.Failing.{failing, after_call, IsDue, IsPassedOn, spoilt};
ghost use Rattle.device.specs.inside.Spoiling.{WroteWithin};

use crate::count::raise;
use crate::{Device, DeviceFault};
use std::marker::Model;

// The most bytes that one write spoils.
const PIECE: u64 = 4096;

/// A disk over another disk. One of its calls of `read`, `write` and `sync` fails, and each other call is passed to the
/// inner disk. If the failing call is a read, the buffer doesn't change. If it is a sync, nothing more is durable than
/// before. If it is a write, each byte of its range becomes 0xEE, unless the inner disk fails too. It allocates no
/// memory.
#[derive(Drop)]
pub struct FailingDisk<D: Device> {
    inner: D,
    fails_at: u64,
    calls: u64,
    faults: u64,
}

impl<D: Device> Model for FailingDisk<D> {
    ghost use Rattle.device.specs.Failing.{Failing};
    ghost use Rattle.device.specs.inside.Codes.{failing_code};

    ghost Value = { Failing D };

    ghost coded = { failing_code D.code };

    ghost view = { λ disk. record {
      inner = disk.inner;
      fails_at = disk.fails_at;
      calls = disk.calls;
      faults = disk.faults;
    } };
}

impl<D: Device> FailingDisk<D> {
    /// Returns a disk over `inner`, whose call with the number `fails_at`, counted from 1, fails. If `fails_at` is 0,
    /// all calls are passed to the inner disk.
    pub fn new(inner: D, fails_at: u64) -> Self
        ensures { result ≡ failing inner fails_at }
    {
        FailingDisk {
            inner,
            fails_at,
            calls: 0,
            faults: 0,
        }
    }

    /// Returns the inner disk, as the calls left it.
    pub fn into_inner(self) -> D
        ensures { result ≡ self.inner }
    {
        let FailingDisk { inner, .. } = self;
        inner
    }

    fn is_due(&self) -> bool
        ensures { IsTrue result ↔ IsDue self.now }
    {
        self.fails_at > 0 && self.calls == self.fails_at - 1
    }

    // Counts a call, and returns its outcome.
    fn count(&mut self, outcome: Result<(), DeviceFault>) -> Result<(), DeviceFault>
        ensures same { result ≡ outcome }
        ensures counted { self.new ≡ after_call self.old self.old.inner (is_ok outcome) }
    {
        raise(&mut self.calls);
        if outcome.is_err() {
            raise(&mut self.faults);
        }
        outcome
    }
}

impl<D: Device> Device for FailingDisk<D> {
    ghost seen = { λ disk. D.seen disk.inner };

    ghost may_leave = { λ disk. D.may_leave disk.inner };

    ghost moment = { λ disk. D.moment disk.inner };

    ghost left_since = { λ disk. D.left_since disk.inner };

    ghost calls_made = { λ disk. disk.calls };

    ghost faults_met = { λ disk. disk.faults };

    ghost carried = { λ disk. D.carried disk.inner };

    ghost is_honest = { λ disk. D.is_honest disk.inner };

    ghost seen_is_left = { λ disk. D.seen_is_left disk.inner };

    ghost left_is_whole = { λ disk. D.left_is_whole disk.inner };

    ghost now_is_since = { λ disk. D.now_is_since disk.inner };

    ghost since_now = { λ disk. D.since_now disk.inner };

    fn len(&self) -> u64 {
        self.inner.len()
    }

    fn read(&mut self, at: u64, buffer: &mut [u8]) -> Result<(), DeviceFault>
        requires { at + length buffer.old ≤ length (D.seen self.old.inner) }

        ensures bytes { D.is_honest self.old.inner
            → OnOk result (buffer.new ≡ slice_range (D.seen self.old.inner) at (at + length buffer.old)) }
        ensures same { D.seen self.new.inner ≡ D.seen self.old.inner }
        ensures keeps { D.is_honest self.old.inner
            → (c : List ℕ) → D.may_leave self.old.inner c → D.may_leave self.new.inner c }
        ensures left { (c : List ℕ) → D.may_leave self.new.inner c → D.may_leave self.old.inner c }
        ensures time { LeavesOnly D.moment D.left_since self.old.inner self.new.inner (D.may_leave self.old.inner) }
        ensures honest { D.is_honest self.new.inner ↔ D.is_honest self.old.inner }
        ensures len { length (D.seen self.new.inner) ≡ length (D.seen self.old.inner) }
        ensures carried { D.carried self.new.inner ≡ D.carried self.old.inner }

        ensures counted { self.new ≡ after_call self.old self.new.inner (is_ok result) }

        // The failing call isn't passed to the inner disk, and doesn't change the buffer.
        ensures fails { IsDue self.old → IsErr result }
        ensures unasked { IsDue self.old → self.new.inner ≡ self.old.inner }
        ensures buffer { IsDue self.old → buffer.new ≡ buffer.old }

        // Each other call is passed to the inner disk.
        ensures passed { ¬ IsDue self.old
            → IsPassedOn D.calls_made D.faults_met self.old.inner self.new.inner result }
    {
        if self.is_due() {
            return self.count(Err(DeviceFault));
        }
        let outcome = self.inner.read(at, buffer);
        self.count(outcome)
    }

    fn write(&mut self, at: u64, bytes: &[u8]) -> Result<(), DeviceFault>
        requires { at + length bytes.now ≤ length (D.seen self.old.inner) }

        ensures written { D.is_honest self.old.inner
            → OnOk result (D.seen self.new.inner ≡ written (D.seen self.old.inner) at bytes.now) }
        ensures torn { IsErr result → D.is_honest self.old.inner
            → Torn at (length bytes.now) (D.seen self.old.inner) (D.seen self.new.inner) }
        ensures keeps { D.is_honest self.old.inner
            → (c : List ℕ) → D.may_leave self.old.inner c → D.may_leave self.new.inner c }
        ensures left { (c : List ℕ)
            → D.may_leave self.new.inner c → TornFrom at (length bytes.now) (D.may_leave self.old.inner) c }
        ensures time { LeavesOnly D.moment D.left_since self.old.inner self.new.inner
            (TornFrom at (length bytes.now) (D.may_leave self.old.inner)) }
        ensures honest { D.is_honest self.new.inner ↔ D.is_honest self.old.inner }
        ensures len { length (D.seen self.new.inner) ≡ length (D.seen self.old.inner) }
        ensures carried { D.carried self.new.inner ≡ D.carried self.old.inner }

        ensures counted { self.new ≡ after_call self.old self.new.inner (is_ok result) }

        // The failing call leaves 0xEE in its range. If the inner disk fails too, any bytes may be there.
        ensures fails { IsDue self.old → IsErr result }
        ensures spoilt { IsDue self.old → D.is_honest self.old.inner → D.faults_met self.old.inner < 2 ^ 64 - 1
            → D.faults_met self.new.inner ≡ D.faults_met self.old.inner
            → D.seen self.new.inner ≡ written (D.seen self.old.inner) at (spoilt (length bytes.now)) }
        ensures pieces { IsDue self.old
            → D.calls_made self.new.inner ≤ D.calls_made self.old.inner + div_ceil (length bytes.now) 4096 }

        // Each other call is passed to the inner disk.
        ensures passed { ¬ IsDue self.old
            → IsPassedOn D.calls_made D.faults_met self.old.inner self.new.inner result }
    {
        if self.is_due() {
            spoil(&mut self.inner, at, bytes.len() as u64);
            return self.count(Err(DeviceFault));
        }
        let outcome = self.inner.write(at, bytes);
        self.count(outcome)
    }

    fn sync(&mut self) -> Result<(), DeviceFault>
        ensures same { D.is_honest self.old.inner → D.seen self.new.inner ≡ D.seen self.old.inner }
        ensures durable { D.is_honest self.old.inner
            → OnOk result (Only (D.may_leave self.new.inner) (D.seen self.old.inner)) }
        ensures left { (c : List ℕ) → D.may_leave self.new.inner c → D.may_leave self.old.inner c }
        ensures time { LeavesOnly D.moment D.left_since self.old.inner self.new.inner (D.may_leave self.old.inner) }
        ensures honest { D.is_honest self.new.inner ↔ D.is_honest self.old.inner }
        ensures len { length (D.seen self.new.inner) ≡ length (D.seen self.old.inner) }
        ensures carried { D.carried self.new.inner ≡ D.carried self.old.inner }

        ensures counted { self.new ≡ after_call self.old self.new.inner (is_ok result) }

        // The failing call isn't passed to the inner disk.
        ensures fails { IsDue self.old → IsErr result }
        ensures unasked { IsDue self.old → self.new.inner ≡ self.old.inner }

        // Each other call is passed to the inner disk.
        ensures passed { ¬ IsDue self.old
            → IsPassedOn D.calls_made D.faults_met self.old.inner self.new.inner result }
    {
        if self.is_due() {
            // The failing sync isn't passed on.
            return self.count(Err(DeviceFault));
        }
        let outcome = self.inner.sync();
        self.count(outcome)
    }

    fn calls(&self) -> u64 {
        self.calls
    }

    fn faults(&self) -> u64 {
        self.faults
    }
}

// Writes 0xEE over a range, piece by piece, up to the first piece that fails.
fn spoil<D: Device>(device: &mut D, at: u64, len: u64)
    requires { at + len ≤ length (D.seen device.old) }

    ensures wrote { WroteWithin D.seen D.may_leave D.moment D.left_since D.is_honest D.carried at len
        device.old device.new }
    ensures spoilt { D.is_honest device.old → D.faults_met device.old < 2 ^ 64 - 1
        → D.faults_met device.new ≡ D.faults_met device.old
        → D.seen device.new ≡ written (D.seen device.old) at (spoilt len) }
    ensures pieces { D.calls_made device.new ≤ D.calls_made device.old + div_ceil len 4096 }
{
    // The range ends within the disk, so its end is a `u64`.
    let _size = device.len();
    for k in 0..len.div_ceil(PIECE) {
        let done = PIECE * k;
        let n = (len - done).min(PIECE);
        if spoil_piece(device, at + done, n).is_err() {
            return;
        }
    }
}

fn spoil_piece<D: Device>(device: &mut D, at: u64, len: u64) -> Result<(), DeviceFault>
    requires piece { len ≤ 4096 }
    requires room { at + len ≤ length (D.seen device.old) }

    ensures wrote { WroteWithin D.seen D.may_leave D.moment D.left_since D.is_honest D.carried at len
        device.old device.new }
    ensures spoilt { D.is_honest device.old
        → OnOk result (D.seen device.new ≡ written (D.seen device.old) at (spoilt len)) }
    ensures failed { IsErr result
        → D.faults_met device.old < 2 ^ 64 - 1 → D.faults_met device.new ≡ D.faults_met device.old + 1 }
    ensures done { IsOk result → D.faults_met device.new ≡ D.faults_met device.old }
    ensures calls { D.calls_made device.new ≤ D.calls_made device.old + 1 }
{
    let piece = piece();
    device.write(at, &piece[..len as usize])
}

fn piece() -> [u8; 4096]
    ensures { result ≡ spoilt 4096 }
{
    [0xEE; 4096]
}
