// The disk.
ghost use Rattle.std.specs.Prelude.{◌≡◌, ℕ, List};
ghost use Rattle.device.specs.Memory.{may_leave_of};
ghost use Rattle.log_codec.specs.declared.sealing.Sealing.TheVariants.{ByByte};
ghost use Rattle.machine_log.specs.Disk.{LogDiskValue};
ghost use Rattle.machine_log.specs.Laws.{StandsForOne, StandsSince, WorksUnlessFailed};
ghost use Rattle.machine_log.specs.Made.{IsTold};

use crate::parts::DiskParts;
use device::{Device, DeviceFault};
use log_volume::LogSuper;
use std::alloc::Allocator;
use std::marker::Model;
use volume_codec::Super;

/// A disk that shows the volume with a log on a device as a volume in layout 4 with the same files. Its writes are kept
/// in memory. A write that opens the gate of a journal commits the journal's records to the log. A write that closes
/// the gate makes the disk forget them.
///
/// The disk accepts the calls that a journal makes, and those that open a volume whose journals are closed. It refuses
/// any other call: the write of a block that recovery reads, or the read of a block that it doesn't know. Once a commit
/// fails, each call fails.
///
/// On an honest device reads return what was written. `crashes_alike` and `works_unless_failed` state what a crash of
/// the device leaves.
#[derive(Drop)]
pub struct LogDisk<D: Device, A: Allocator + Copy> {
    pub(crate) disk: DiskParts<D, A>,
}

impl<D: Device, A: Allocator + Copy> Model for LogDisk<D, A> {
    ghost use Rattle.machine_log.specs.Disk.{LogDiskValue};
    ghost use Rattle.std.specs.Coded.{codes};
    ghost use Rattle.machine_log.specs.Laws.{WorksUnlessFailed};

    ghost Value = { LogDiskValue D };

    ghost coded = { Prim.hlevel (codes, D.code) };

    ghost view = { λ d. d.disk };

    ghost invariant = { λ d. WorksUnlessFailed D.Device d.disk };
}

impl<D: Device, A: Allocator + Copy> LogDisk<D, A> {
    /// Returns the device of the volume.
    pub fn device(&self) -> &D
        ensures { result.now ≡ self.now.device }
    {
        self.disk.pager.device()
    }

    /// States what a crash of the device leaves, now and since any earlier state, within a call or between two. The
    /// premise is that the disk made each commit since the opening that can be read from these bytes (`IsTold`). Then
    /// the bytes correspond to some that a crash of the disk might have left. If a byte seals commits, all bytes fulfil
    /// the premise (`byte`). It makes no device call.
    pub fn crashes_alike(&self)
        ensures now { D.is_honest self.now.device → (c : List ℕ) → D.may_leave self.now.device c → IsTold self.now c
            → StandsForOne (may_leave_of self.now.memory) c }
        ensures since { D.is_honest self.now.device → (old : LogDiskValue D) → StandsSince D.Device old self.now }
        ensures byte { self.now.volume.sealing ≡ ByByte → (c : List ℕ) → IsTold self.now c }
    {
        self.disk.crashes_alike();
    }

    /// States what the device contains, and what a crash of it leaves now, unless a call of the disk has failed. These
    /// bytes correspond to those of the disk. It makes no device call.
    pub fn works_unless_failed(&self)
        ensures { WorksUnlessFailed D.Device self.now }
    {
        let _ = &self.disk;
    }

    /// Returns the device of the volume, the volume's super block, and the disk's super block.
    pub fn into_parts(self) -> (D, LogSuper<A>, Super<A>)
        ensures device { result.0 ≡ self.device }
        ensures volume { result.1 ≡ self.volume }
        ensures table { result.2 ≡ self.table }
    {
        self.disk.into_parts()
    }

    /// Returns the device of the volume, as the calls left it.
    pub fn into_device(self) -> D
        ensures { result ≡ self.device }
    {
        self.disk.pager.into_device()
    }
}

impl<D: Device, A: Allocator + Copy> Device for LogDisk<D, A> {
    ghost use Rattle.device.specs.Memory.{seen_of, may_leave_of};
    ghost use Rattle.device.specs.inside.Laws.{seen_is_left_of};
    ghost use Rattle.machine_log.specs.Disk.{left_at, moment_in};
    ghost use Rattle.machine_log.specs.inside.Times.{now_is_since, since_now};

    ghost seen = { λ disk. seen_of disk.memory };

    ghost may_leave = { λ disk. may_leave_of disk.memory };

    ghost moment = { moment_in D.moment };

    ghost left_since = { left_at D.moment };

    ghost calls_made = { λ disk. disk.memory.calls };

    ghost faults_met = { λ disk. disk.memory.faults };

    ghost carried = { λ disk. 0 };

    ghost is_honest = { λ disk. D.is_honest disk.device };

    ghost seen_is_left = { λ disk honest. seen_is_left_of disk.memory };

    ghost left_is_whole = { λ disk c honest left. left.same_length };

    ghost now_is_since = { λ disk t c under left. now_is_since D.moment disk t c left };

    ghost since_now = { λ disk c left. since_now D.moment disk c left };

    fn len(&self) -> u64 {
        self.disk.is_long();
        4096 * u64::from(self.disk.table.block_count())
    }

    fn read(&mut self, at: u64, buffer: &mut [u8]) -> Result<(), DeviceFault> {
        self.disk.is_timed();
        let outcome = self.disk.fetch(at, buffer);
        let outcome = self.disk.unless_failed(outcome);
        let outcome = self.disk.count(outcome);
        self.disk.is_timed();
        outcome
    }

    fn write(&mut self, at: u64, bytes: &[u8]) -> Result<(), DeviceFault> {
        self.disk.is_timed();
        let outcome = self.disk.store(at, bytes);
        let outcome = self.disk.unless_failed(outcome);
        let outcome = self.disk.count(outcome);
        self.disk.is_timed();
        outcome
    }

    fn sync(&mut self) -> Result<(), DeviceFault> {
        self.disk.is_timed();
        let outcome = self.disk.settle();
        let outcome = self.disk.unless_failed(outcome);
        let outcome = self.disk.count(outcome);
        self.disk.is_timed();
        outcome
    }

    fn calls(&self) -> u64 {
        self.disk.calls
    }

    fn faults(&self) -> u64 {
        self.disk.faults
    }
}
