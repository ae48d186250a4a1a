// A disk in memory as an honest file, to test a disk over a file.
ghost use Rattle.std.specs.Prelude.{⊤, ◌≡◌, ◌+◌, ◌≤◌, None, IsTrue, length};

use crate::{BlockFile, Device, DeviceFault, MemDisk};
use std::alloc::Allocator;
use std::io;

impl<A: Allocator + Copy> BlockFile for MemDisk<A> {
    ghost use Rattle.device.specs.Memory.{seen_of, may_leave_of, moment_of, left_since_of};
    ghost use Rattle.device.specs.inside.Laws.{seen_is_left_of, now_is_since_of, since_now_of};

    ghost seen = { seen_of };

    ghost may_leave = { may_leave_of };

    ghost moment = { moment_of };

    ghost left_since = { left_since_of };

    ghost is_honest = { λ disk. ⊤ };

    ghost calls_made = { λ disk. None };

    ghost seen_is_left = { λ disk honest. seen_is_left_of disk };

    ghost left_is_whole = { λ disk c honest left. left.same_length };

    ghost now_is_since = { now_is_since_of };

    ghost since_now = { since_now_of };

    fn size(&self) -> io::Result<u64> {
        Ok(self.len())
    }

    fn read_exact_at(&mut self, buffer: &mut [u8], at: u64) -> io::Result<()> {
        if !is_within(at, buffer.len() as u64, self.len()) {
            return Err(io::Error::from(io::ErrorKind::UnexpectedEof));
        }
        match self.read(at, buffer) {
            Ok(()) => Ok(()),
            Err(DeviceFault) => Err(refused()),
        }
    }

    fn write_all_at(&mut self, bytes: &[u8], at: u64) -> io::Result<()> {
        if !is_within(at, bytes.len() as u64, self.len()) {
            return Err(io::Error::from(io::ErrorKind::StorageFull));
        }
        match self.write(at, bytes) {
            Ok(()) => Ok(()),
            Err(DeviceFault) => Err(refused()),
        }
    }

    fn sync_all(&mut self) -> io::Result<()> {
        match self.sync() {
            Ok(()) => Ok(()),
            Err(DeviceFault) => Err(refused()),
        }
    }

    fn sync_data(&mut self) -> io::Result<()> {
        BlockFile::sync_all(self)
    }
}

// Whether `count` bytes from an offset on are within a length.
fn is_within(at: u64, count: u64, len: u64) -> bool
    ensures { IsTrue result → at + count ≤ len }
{
    at <= len && count <= len - at
}

// A disk in memory fails only if memory is refused.
fn refused() -> io::Error {
    io::Error::from(io::ErrorKind::OutOfMemory)
}
