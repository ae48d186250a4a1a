// Work on a pager's device from outside the pager.
ghost use Rattle.std.specs.Prelude.{◌≡◌, length};

use crate::Pager;
use device::Device;
use kept_blocks::Tender;
use std::alloc::Allocator;

impl<D: Device, A: Allocator + Copy> Pager<D, A> {
    /// Returns the device.
    pub fn device(&self) -> &D
        ensures { result.now ≡ self.now.device }
    {
        &self.device
    }

    /// Passes the device to a tender. The pager's other parts stay unchanged.
    pub fn tend<T: Tender<D>>(&mut self, tender: &mut T)
        ensures state { self.new ≡ record self.old { device = self.new.device } }
        ensures tended { T.tends tender.old self.old.device self.new.device tender.new }
        ensures len { length (D.seen self.new.device) ≡ length (D.seen self.old.device) }
    {
        tender.tend(&mut self.device);
    }
}
