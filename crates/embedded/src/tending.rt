// The calls of a host on the disk between two requests.
ghost use Rattle.std.specs.Prelude.{◌≡◌};
ghost use Rattle.embedded.specs.Supplying.{is_of_disk};

use deferred_disk::DeferredDisk;
use device::Device;
use kept_blocks::Tender;
use std::alloc::Allocator;

// Whether a block is before the end of the disk.
pub(crate) fn is_of_disk<A: Allocator + Copy>(disk: &DeferredDisk<A>, block: u32) -> bool
    ensures { result ≡ is_of_disk disk.now block }
{
    4096 * u64::from(block) + 4096 <= disk.len()
}

/// A block that the host has read. `refused` is set if memory was refused for it.
#[derive(Drop)]
pub struct Supplying<'a> {
    pub block: u32,
    pub bytes: &'a [u8; 4096],
    pub refused: bool,
}

impl<'a, A: Allocator + Copy> Tender<DeferredDisk<A>> for Supplying<'a> {
    ghost use Rattle.embedded.specs.Tending.{HasSupplied};

    ghost tends = { HasSupplied };

    fn tend(&mut self, device: &mut DeferredDisk<A>) {
        self.refused = is_of_disk(device, self.block)
            && device.supply(self.block, self.bytes).is_err();
    }
}

/// A block that the host needn't keep. `done` is set if it isn't known any more.
#[derive(Drop)]
pub struct Forgetting {
    pub block: u32,
    pub done: bool,
}

impl<A: Allocator + Copy> Tender<DeferredDisk<A>> for Forgetting {
    ghost use Rattle.embedded.specs.Tending.{HasForgotten};

    ghost tends = { HasForgotten };

    fn tend(&mut self, device: &mut DeferredDisk<A>) {
        self.done = is_of_disk(device, self.block) && device.forget(self.block);
    }
}

/// The host has made the oldest call.
#[derive(Drop)]
pub struct Carrying;

impl<A: Allocator + Copy> Tender<DeferredDisk<A>> for Carrying {
    ghost use Rattle.embedded.specs.Tending.{HasCarried};

    ghost tends = { HasCarried };

    fn tend(&mut self, device: &mut DeferredDisk<A>) {
        device.carried_out();
    }
}
