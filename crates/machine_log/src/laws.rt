// What a crash leaves of the device, in terms of what a crash of the disk might have left.
ghost use Rattle.std.specs.Prelude.{◌≡◌, IsTrue, OnOk};
ghost use Rattle.machine_log.specs.Disk.{LogDiskValue};
ghost use Rattle.machine_log.specs.Laws.{StandsSince, Works};

use crate::parts::DiskParts;
use device::{Device, DeviceFault};
use std::alloc::Allocator;
use volume_codec::one_reading;

impl<D: Device, A: Allocator + Copy> DiskParts<D, A> {
    // States what a crash of the device leaves since any earlier state: bytes that correspond to some that a crash of
    // the disk might have left. The premise is that only commits made by the disk can be read from them.
    pub(crate) fn crashes_alike(&self)
        ensures { D.is_honest self.now.device → (old : LogDiskValue D) → StandsSince D.Device old self.now }
    {
        let _ = &self.alloc;
        one_reading();
    }

    // Whether the disk hasn't failed.
    fn works(&self) -> bool
        ensures { IsTrue result → Works D.Device self.now }
    {
        one_reading();
        !self.failed
    }

    // Returns the outcome of a call, or a failure if the disk has failed.
    pub(crate) fn unless_failed(&self, outcome: Result<(), DeviceFault>) -> Result<(), DeviceFault>
        ensures same { OnOk result (result ≡ outcome) }
        ensures works { OnOk result (Works D.Device self.now) }
    {
        if self.works() {
            return outcome;
        }
        Err(DeviceFault)
    }
}
