// The calls of a file that a disk over it makes.
ghost use Rattle.std.specs.Prelude.{◌≡◌, ◌↔◌, ℕ, ◌+◌, ◌≤◌, List, [], length, slice_range, Option, None, IfOk, OnOk, IsErr, is_ok};
ghost use Rattle.device.specs.Device.{written, Torn, TornFrom, Only, LeavesOnly};
ghost use Rattle.device.specs.File.{FileCall, IsCalledOnce};
ghost use Rattle.device.specs.File.FileCall.{read, write, sync_all, sync_data};

use std::fs::File;
use std::io;
use std::os::unix::fs::FileExt;

/// A file of fixed length that is read and written at offsets, in whole ranges, and synced. A
/// [`FileDisk`](crate::FileDisk) needs these calls of its file. A call that reaches past the end fails.
///
/// An honest file returns and keeps the same as an honest [`Device`]. No program can see whether a real file is honest,
/// so nothing is claimed of its content. A file in memory is honest, and can replace it.
pub trait BlockFile {
    /// The bytes that a read returns now.
    ghost seen: { Self → List ℕ };

    /// The contents that a crash now may leave.
    ghost may_leave: { Self → List ℕ → Type 0 };

    /// The number of writes and syncs so far.
    ghost moment: { Self → ℕ };

    /// The contents that a crash at or after that moment might have left, during a call or between two calls.
    ghost left_since: { Self → ℕ → List ℕ → Type 0 };

    /// The file obeys the clauses on content.
    ghost is_honest: { Self → Type 0 };

    /// The calls made so far, in order, if they are known. Those of a real file aren't known.
    ghost calls_made: { Self → Option (List FileCall) };

    /// Returns the length in bytes (POSIX.1-2024, `fstat`).
    fn size(&self) -> io::Result<u64>
        ensures { is_honest self.now → IfOk result (λ size. size ≡ length (seen self.now)) };

    /// Fills the buffer with the bytes from an offset on (POSIX.1-2024, `pread`).
    fn read_exact_at(&mut self, buffer: &mut [u8], at: u64) -> io::Result<()>
        ensures bytes { is_honest self.old
            → OnOk result (buffer.new ≡ slice_range (seen self.old) at (at + length buffer.old)) }
        ensures same { seen self.new ≡ seen self.old }
        ensures keeps { is_honest self.old → (c : List ℕ) → may_leave self.old c → may_leave self.new c }
        ensures left { (c : List ℕ) → may_leave self.new c → may_leave self.old c }
        ensures time { LeavesOnly moment left_since self.old self.new (may_leave self.old) }
        ensures honest { is_honest self.new ↔ is_honest self.old }
        ensures called { IsCalledOnce (calls_made self.old) (calls_made self.new) (read at buffer.new (is_ok result)) };

    /// Writes all the bytes, from an offset on (POSIX.1-2024, `pwrite`).
    fn write_all_at(&mut self, bytes: &[u8], at: u64) -> io::Result<()>
        ensures written { is_honest self.old → OnOk result (seen self.new ≡ written (seen self.old) at bytes.now) }
        ensures torn { IsErr result → is_honest self.old → Torn at (length bytes.now) (seen self.old) (seen self.new) }
        ensures keeps { is_honest self.old → (c : List ℕ) → may_leave self.old c → may_leave self.new c }
        ensures left { (c : List ℕ) → may_leave self.new c → TornFrom at (length bytes.now) (may_leave self.old) c }
        ensures time { LeavesOnly moment left_since self.old self.new
            (TornFrom at (length bytes.now) (may_leave self.old)) }
        ensures honest { is_honest self.new ↔ is_honest self.old }
        ensures len { is_honest self.old → length (seen self.new) ≡ length (seen self.old) }
        ensures called { IsCalledOnce (calls_made self.old) (calls_made self.new) (write at bytes.now (is_ok result)) };

    /// Makes the written bytes durable, and all other data about the file (POSIX.1-2024, `fsync`).
    fn sync_all(&mut self) -> io::Result<()>
        ensures same { is_honest self.old → seen self.new ≡ seen self.old }
        ensures durable { is_honest self.old → OnOk result (Only (may_leave self.new) (seen self.old)) }
        ensures left { (c : List ℕ) → may_leave self.new c → may_leave self.old c }
        ensures time { LeavesOnly moment left_since self.old self.new (may_leave self.old) }
        ensures honest { is_honest self.new ↔ is_honest self.old }
        ensures called { IsCalledOnce (calls_made self.old) (calls_made self.new) (sync_all (is_ok result)) };

    /// Makes the written bytes durable, and the data about the file that is needed to read them again (POSIX.1-2024,
    /// `fdatasync`).
    fn sync_data(&mut self) -> io::Result<()>
        ensures same { is_honest self.old → seen self.new ≡ seen self.old }
        ensures durable { is_honest self.old → OnOk result (Only (may_leave self.new) (seen self.old)) }
        ensures left { (c : List ℕ) → may_leave self.new c → may_leave self.old c }
        ensures time { LeavesOnly moment left_since self.old self.new (may_leave self.old) }
        ensures honest { is_honest self.new ↔ is_honest self.old }
        ensures called { IsCalledOnce (calls_made self.old) (calls_made self.new) (sync_data (is_ok result)) };

    /// A crash may leave the bytes that a read returns.
    ghost seen_is_left: { (file : Self) → is_honest file → may_leave file (seen file) };

    /// Each content that a crash may leave has the file's length.
    ghost left_is_whole: { (file : Self) (c : List ℕ)
        → is_honest file → may_leave file c → length c ≡ length (seen file) };

    /// What a crash now may leave is among what a crash since any earlier moment might have left.
    ghost now_is_since: { (file : Self) (t : ℕ) (c : List ℕ)
        → t ≤ moment file → may_leave file c → left_since file t c };

    /// Since the present moment, a crash can't have left anything else than a crash now may leave.
    ghost since_now: { (file : Self) (c : List ℕ) → left_since file (moment file) c → may_leave file c };
}

impl BlockFile for File {
    ghost use Rattle.device.specs.File.{any_list, any_time};

    ghost seen = { λ file. [] };

    ghost may_leave = { any_list };

    ghost moment = { λ file. 0 };

    ghost left_since = { any_time };

    ghost is_honest = { λ file. ⊥ };

    ghost calls_made = { λ file. None };

    ghost seen_is_left = { λ file honest. tt };

    ghost left_is_whole = { λ file c honest left. absurd honest };

    ghost now_is_since = { λ file t c le left. tt };

    ghost since_now = { λ file c left. tt };

    fn size(&self) -> io::Result<u64> {
        Ok(self.metadata()?.len())
    }

    fn read_exact_at(&mut self, buffer: &mut [u8], at: u64) -> io::Result<()> {
        FileExt::read_exact_at(&*self, buffer, at)
    }

    fn write_all_at(&mut self, bytes: &[u8], at: u64) -> io::Result<()> {
        FileExt::write_all_at(&*self, bytes, at)
    }

    fn sync_all(&mut self) -> io::Result<()> {
        File::sync_all(&*self)
    }

    fn sync_data(&mut self) -> io::Result<()> {
        File::sync_data(&*self)
    }
}
