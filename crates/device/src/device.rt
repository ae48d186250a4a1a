// The trait of disks.
ghost use Rattle.std.specs.Prelude.{◌≡◌, ◌↔◌, ℕ, ◌+◌, ◌-◌, ◌^◌, ◌<◌, ◌≤◌, List, length, slice_range, OnOk, IsOk, IsErr};
ghost use Rattle.device.specs.Device.{written, Torn, TornFrom, Only, LeavesOnly};

use crate::DeviceFault;

/// A disk: a list of bytes of fixed length. Written bytes are durable after the next successful sync. Until then a
/// crash may leave any bytes in the ranges that were written.
///
/// Time is the number of writes and syncs. Only an honest device obeys the clauses on content. For a real disk, honesty
/// is a premise, since no program can see what is below it.
pub trait Device {
    /// The bytes that a read returns now.
    ghost seen: { Self → List ℕ };

    /// The contents that a crash now may leave.
    ghost may_leave: { Self → List ℕ → Type 0 };

    /// The number of writes and syncs so far.
    ghost moment: { Self → ℕ };

    /// The contents that a crash at or after that moment might have left, during a call or between two calls.
    ghost left_since: { Self → ℕ → List ℕ → Type 0 };

    /// The number of calls of `read`, `write` and `sync`.
    ghost calls_made: { Self → ℕ };

    /// The number of these calls that failed.
    ghost faults_met: { Self → ℕ };

    /// The number of its calls that a host has made, if the device only records them. No call of the device changes it.
    ghost carried: { Self → ℕ };

    /// The device obeys the clauses on content.
    ghost is_honest: { Self → Type 0 };

    /// Returns the length in bytes.
    fn len(&self) -> u64
        ensures { result ≡ length (seen self.now) };

    /// Fills the buffer with the bytes from an offset on. Later reads return the same bytes as before.
    fn read(&mut self, at: u64, buffer: &mut [u8]) -> Result<(), DeviceFault>
        requires { at + length buffer.old ≤ length (seen self.old) }

        ensures bytes { is_honest self.old
            → OnOk result (buffer.new ≡ slice_range (seen self.old) at (at + length buffer.old)) }
        ensures same { seen self.new ≡ seen self.old }
        ensures keeps { is_honest self.old → (c : List ℕ) → may_leave self.old c → may_leave self.new c }
        ensures left { (c : List ℕ) → may_leave self.new c → may_leave self.old c }
        ensures time { LeavesOnly moment left_since self.old self.new (may_leave self.old) }

        ensures honest { is_honest self.new ↔ is_honest self.old }
        ensures len { length (seen self.new) ≡ length (seen self.old) }
        ensures carried { carried self.new ≡ carried self.old }
        ensures calls { calls_made self.old < 2 ^ 64 - 1 → calls_made self.new ≡ calls_made self.old + 1 }
        ensures calls_stay { 2 ^ 64 - 1 ≤ calls_made self.old → calls_made self.new ≡ calls_made self.old }
        ensures failed { IsErr result
            → faults_met self.old < 2 ^ 64 - 1 → faults_met self.new ≡ faults_met self.old + 1 }
        ensures faults_stay { 2 ^ 64 - 1 ≤ faults_met self.old → faults_met self.new ≡ faults_met self.old }
        ensures done { IsOk result → faults_met self.new ≡ faults_met self.old };

    /// Writes bytes from an offset on. Whether it succeeds or not, a crash before the next successful sync may leave
    /// any bytes in the range. If it fails, a read may return any bytes in the range, too. Nothing more is durable than
    /// before.
    fn write(&mut self, at: u64, bytes: &[u8]) -> Result<(), DeviceFault>
        requires { at + length bytes.now ≤ length (seen self.old) }

        ensures written { is_honest self.old → OnOk result (seen self.new ≡ written (seen self.old) at bytes.now) }
        ensures torn { IsErr result → is_honest self.old → Torn at (length bytes.now) (seen self.old) (seen self.new) }
        ensures keeps { is_honest self.old → (c : List ℕ) → may_leave self.old c → may_leave self.new c }
        ensures left { (c : List ℕ) → may_leave self.new c → TornFrom at (length bytes.now) (may_leave self.old) c }
        ensures time { LeavesOnly moment left_since self.old self.new
            (TornFrom at (length bytes.now) (may_leave self.old)) }

        ensures honest { is_honest self.new ↔ is_honest self.old }
        ensures len { length (seen self.new) ≡ length (seen self.old) }
        ensures carried { carried self.new ≡ carried self.old }
        ensures calls { calls_made self.old < 2 ^ 64 - 1 → calls_made self.new ≡ calls_made self.old + 1 }
        ensures calls_stay { 2 ^ 64 - 1 ≤ calls_made self.old → calls_made self.new ≡ calls_made self.old }
        ensures failed { IsErr result
            → faults_met self.old < 2 ^ 64 - 1 → faults_met self.new ≡ faults_met self.old + 1 }
        ensures faults_stay { 2 ^ 64 - 1 ≤ faults_met self.old → faults_met self.new ≡ faults_met self.old }
        ensures done { IsOk result → faults_met self.new ≡ faults_met self.old };

    /// Makes the written bytes durable. After a success, a crash leaves the bytes that a read returns. After a failure,
    /// nothing more is durable than before.
    fn sync(&mut self) -> Result<(), DeviceFault>
        ensures same { is_honest self.old → seen self.new ≡ seen self.old }
        ensures durable { is_honest self.old → OnOk result (Only (may_leave self.new) (seen self.old)) }
        ensures left { (c : List ℕ) → may_leave self.new c → may_leave self.old c }
        ensures time { LeavesOnly moment left_since self.old self.new (may_leave self.old) }

        ensures honest { is_honest self.new ↔ is_honest self.old }
        ensures len { length (seen self.new) ≡ length (seen self.old) }
        ensures carried { carried self.new ≡ carried self.old }
        ensures calls { calls_made self.old < 2 ^ 64 - 1 → calls_made self.new ≡ calls_made self.old + 1 }
        ensures calls_stay { 2 ^ 64 - 1 ≤ calls_made self.old → calls_made self.new ≡ calls_made self.old }
        ensures failed { IsErr result
            → faults_met self.old < 2 ^ 64 - 1 → faults_met self.new ≡ faults_met self.old + 1 }
        ensures faults_stay { 2 ^ 64 - 1 ≤ faults_met self.old → faults_met self.new ≡ faults_met self.old }
        ensures done { IsOk result → faults_met self.new ≡ faults_met self.old };

    /// Returns the number of calls of `read`, `write` and `sync`. A count of 2^64-1 stays there.
    fn calls(&self) -> u64
        ensures { result ≡ calls_made self.now };

    /// Returns the number of these calls that failed. A count of 2^64-1 stays there.
    fn faults(&self) -> u64
        ensures { result ≡ faults_met self.now };

    /// A crash may leave the bytes that a read returns.
    ghost seen_is_left: { (device : Self) → is_honest device → may_leave device (seen device) };

    /// Each content that a crash may leave has the device's length.
    ghost left_is_whole: { (device : Self) (c : List ℕ)
        → is_honest device → may_leave device c → length c ≡ length (seen device) };

    /// What a crash now may leave is among what a crash since any earlier moment might have left.
    ghost now_is_since: { (device : Self) (t : ℕ) (c : List ℕ)
        → t ≤ moment device → may_leave device c → left_since device t c };

    /// Since the present moment, a crash can't have left anything else than a crash now may leave.
    ghost since_now: { (device : Self) (c : List ℕ) → left_since device (moment device) c → may_leave device c };
}
