// A disk over a file.
ghost use Rattle.std.specs.Prelude.{◌≡◌, ◌↔◌, ℕ, ◌+◌, ◌≤◌, true, List, length, slice_range, IfOk, OnOk, IsErr, is_ok};
ghost use Rattle.device.specs.Device.{written, Torn, TornFrom, Only, LeavesOnly};
ghost use Rattle.device.specs.File.{IsCalledOnce, IsOverHonest, disk_over, after_call};
ghost use Rattle.device.specs.File.FileCall.{read, write, sync_all, sync_data};

use crate::count::raise;
use crate::{BlockFile, Device, DeviceFault};
use std::io;
use std::marker::Model;

/// A disk over a file. Each of its calls makes one call of the file, with the same arguments, and returns an error of
/// the file as a [`DeviceFault`]. A sync makes only the file's data durable. The length doesn't change, and was synced
/// when the disk was made. The disk is as honest as its file, which has to keep the length that it had when the disk
/// was made.
///
/// No contract can state what a real file returns or keeps, so a real file isn't known to be honest. The proofs hold
/// for every honest [`Device`], and so for this disk over every honest file. That the system and the disk below a real
/// file obey the rules of [`BlockFile`] is an argument outside the logic.
#[derive(Drop)]
pub struct FileDisk<F: BlockFile> {
    file: F,
    len: u64,
    calls: u64,
    faults: u64,
}

impl<F: BlockFile> Model for FileDisk<F> {
    ghost use Rattle.device.specs.File.{Opened};
    ghost use Rattle.device.specs.inside.Codes.{opened_code};

    ghost Value = { Opened F };

    ghost coded = { opened_code F.code };

    ghost view = { λ disk. record {
      file = disk.file;
      size = disk.len;
      calls = disk.calls;
      faults = disk.faults;
    } };
}

impl<F: BlockFile> FileDisk<F> {
    /// Returns a disk over a file. The file is open for reading, and also for writing if the disk is to be written. The
    /// file is synced once. So anything that an earlier user left in the system's memory is on the disk, or the call
    /// fails. This sync isn't counted as a call of the disk. On failure, returns the error and the file.
    pub fn over(mut file: F) -> Result<FileDisk<F>, (io::Error, F)>
        ensures fresh { IfOk result (λ disk. disk ≡ disk_over disk.file disk.size) }
        ensures synced { IfOk result (λ disk.
            IsCalledOnce (F.calls_made file) (F.calls_made disk.file) (sync_all true)) }

        // If the file is honest:
        ensures honest { F.is_honest file → IfOk result (IsOverHonest F.is_honest F.seen) }
        ensures same { F.is_honest file → IfOk result (λ disk. F.seen disk.file ≡ F.seen file) }
        ensures durable { F.is_honest file → IfOk result (λ disk. Only (F.may_leave disk.file) (F.seen file)) }
    {
        let len = match file.size() {
            Ok(len) => len,
            Err(fault) => return Err((fault, file)),
        };
        match file.sync_all() {
            Ok(()) => Ok(FileDisk {
                file,
                len,
                calls: 0,
                faults: 0,
            }),
            Err(fault) => Err((fault, file)),
        }
    }

    /// Returns the file, as the disk's calls left it.
    pub fn into_file(self) -> F
        ensures { result ≡ self.file }
    {
        let FileDisk { file, .. } = self;
        file
    }

    // Counts a call, and returns its outcome.
    fn count(&mut self, outcome: io::Result<()>) -> Result<(), DeviceFault>
        ensures same { is_ok result ≡ is_ok outcome }
        ensures counted { self.new ≡ after_call self.old self.old.file (is_ok outcome) }
    {
        raise(&mut self.calls);
        match outcome {
            Ok(()) => Ok(()),
            Err(_) => {
                raise(&mut self.faults);
                Err(DeviceFault)
            }
        }
    }
}

impl<F: BlockFile> Device for FileDisk<F> {
    ghost use Rattle.std.specs.Prelude.{◌≡◌, length};
    ghost use Rattle.device.specs.File.{fitted, IsOverHonest};
    ghost use Rattle.device.specs.inside.Fitted.{fitted_is_left, fitted_is_whole};

    ghost seen = { λ disk. fitted disk.size (F.seen disk.file) };

    ghost may_leave = { λ disk. F.may_leave disk.file };

    ghost moment = { λ disk. F.moment disk.file };

    ghost left_since = { λ disk. F.left_since disk.file };

    ghost calls_made = { λ disk. disk.calls };

    ghost faults_met = { λ disk. disk.faults };

    ghost carried = { λ disk. 0 };

    ghost is_honest = { IsOverHonest F.is_honest F.seen };

    ghost seen_is_left = { λ disk honest. fitted_is_left (F.may_leave disk.file) disk.size (F.seen disk.file) honest.1
        (F.seen_is_left disk.file honest.0) };

    ghost left_is_whole = { λ disk c honest left. fitted_is_whole disk.size (F.seen disk.file) c honest.1
        (F.left_is_whole disk.file c honest.0 left) };

    ghost now_is_since = { λ disk. F.now_is_since disk.file };

    ghost since_now = { λ disk. F.since_now disk.file };

    fn len(&self) -> u64 {
        self.len
    }

    fn read(&mut self, at: u64, buffer: &mut [u8]) -> Result<(), DeviceFault>
        ensures asked { IsCalledOnce (F.calls_made self.old.file) (F.calls_made self.new.file)
            (read at buffer.new (is_ok result)) }
        ensures counted { self.new ≡ after_call self.old self.new.file (is_ok result) }

        // The clauses of the file's call.
        ensures bytes { F.is_honest self.old.file
            → OnOk result (buffer.new ≡ slice_range (F.seen self.old.file) at (at + length buffer.old)) }
        ensures same { F.seen self.new.file ≡ F.seen self.old.file }
        ensures keeps { F.is_honest self.old.file
            → (c : List ℕ) → F.may_leave self.old.file c → F.may_leave self.new.file c }
        ensures left { (c : List ℕ) → F.may_leave self.new.file c → F.may_leave self.old.file c }
        ensures time { LeavesOnly F.moment F.left_since self.old.file self.new.file (F.may_leave self.old.file) }
        ensures honest { F.is_honest self.new.file ↔ F.is_honest self.old.file }
    {
        let outcome = self.file.read_exact_at(buffer, at);
        self.count(outcome)
    }

    fn write(&mut self, at: u64, bytes: &[u8]) -> Result<(), DeviceFault>
        ensures asked { IsCalledOnce (F.calls_made self.old.file) (F.calls_made self.new.file)
            (write at bytes.now (is_ok result)) }
        ensures counted { self.new ≡ after_call self.old self.new.file (is_ok result) }

        // The clauses of the file's call.
        ensures written { F.is_honest self.old.file
            → OnOk result (F.seen self.new.file ≡ written (F.seen self.old.file) at bytes.now) }
        ensures torn { IsErr result → F.is_honest self.old.file
            → Torn at (length bytes.now) (F.seen self.old.file) (F.seen self.new.file) }
        ensures keeps { F.is_honest self.old.file
            → (c : List ℕ) → F.may_leave self.old.file c → F.may_leave self.new.file c }
        ensures left { (c : List ℕ)
            → F.may_leave self.new.file c → TornFrom at (length bytes.now) (F.may_leave self.old.file) c }
        ensures time { LeavesOnly F.moment F.left_since self.old.file self.new.file
            (TornFrom at (length bytes.now) (F.may_leave self.old.file)) }
        ensures honest { F.is_honest self.new.file ↔ F.is_honest self.old.file }
        ensures len { F.is_honest self.old.file → length (F.seen self.new.file) ≡ length (F.seen self.old.file) }
    {
        let outcome = self.file.write_all_at(bytes, at);
        self.count(outcome)
    }

    fn sync(&mut self) -> Result<(), DeviceFault>
        ensures asked { IsCalledOnce (F.calls_made self.old.file) (F.calls_made self.new.file)
            (sync_data (is_ok result)) }
        ensures counted { self.new ≡ after_call self.old self.new.file (is_ok result) }

        // The clauses of the file's call.
        ensures same { F.is_honest self.old.file → F.seen self.new.file ≡ F.seen self.old.file }
        ensures durable { F.is_honest self.old.file
            → OnOk result (Only (F.may_leave self.new.file) (F.seen self.old.file)) }
        ensures left { (c : List ℕ) → F.may_leave self.new.file c → F.may_leave self.old.file c }
        ensures time { LeavesOnly F.moment F.left_since self.old.file self.new.file (F.may_leave self.old.file) }
        ensures honest { F.is_honest self.new.file ↔ F.is_honest self.old.file }
    {
        let outcome = self.file.sync_data();
        self.count(outcome)
    }

    fn calls(&self) -> u64 {
        self.calls
    }

    fn faults(&self) -> u64 {
        self.faults
    }
}
