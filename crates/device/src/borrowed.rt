// A mutable reference to a device is a device.

use crate::{Device, DeviceFault};

impl<D: Device> Device for &mut D {
    ghost seen = { λ device. D.seen device.now };

    ghost may_leave = { λ device. D.may_leave device.now };

    ghost moment = { λ device. D.moment device.now };

    ghost left_since = { λ device. D.left_since device.now };

    ghost calls_made = { λ device. D.calls_made device.now };

    ghost faults_met = { λ device. D.faults_met device.now };

    ghost carried = { λ device. D.carried device.now };

    ghost is_honest = { λ device. D.is_honest device.now };

    ghost seen_is_left = { λ device. D.seen_is_left device.now };

    ghost left_is_whole = { λ device. D.left_is_whole device.now };

    ghost now_is_since = { λ device. D.now_is_since device.now };

    ghost since_now = { λ device. D.since_now device.now };

    fn len(&self) -> u64 {
        (**self).len()
    }

    fn read(&mut self, at: u64, buffer: &mut [u8]) -> Result<(), DeviceFault> {
        (**self).read(at, buffer)
    }

    fn write(&mut self, at: u64, bytes: &[u8]) -> Result<(), DeviceFault> {
        (**self).write(at, bytes)
    }

    fn sync(&mut self) -> Result<(), DeviceFault> {
        (**self).sync()
    }

    fn calls(&self) -> u64 {
        (**self).calls()
    }

    fn faults(&self) -> u64 {
        (**self).faults()
    }
}
