// The parts of a pager, and work by others on its device.
ghost use Rattle.std.specs.Prelude.{◌≡◌, ◌↔◌, length, IsTrue};
ghost use Rattle.log_store.specs.declared.stage.HomeStage.TheVariants.{Resting};
ghost use Rattle.log_store.specs.Sound.{IsStore};

use crate::pager::LogPager;
use device::Device;
use kept_blocks::Tender;
use log_codec::LogGeometry;
use log_store::HomeStage;
use std::alloc::Allocator;

impl<D: Device, A: Allocator + Copy> LogPager<D, A> {
    /// Returns the geometry of the volume.
    pub fn log(&self) -> LogGeometry
        ensures value { result ≡ self.now.store.tail.log }
        ensures store { IsStore self.now.store }
    {
        self.store.log()
    }

    /// Returns the number of the next commit.
    pub fn number(&self) -> u64
        ensures { result ≡ self.now.store.tail.number }
    {
        self.store.number()
    }

    /// Returns the number of blocks of the ring that commits use, counted from the start.
    pub fn used(&self) -> u32
        ensures { result ≡ self.now.store.tail.used }
    {
        self.store.used()
    }

    /// Whether a device call of a commit or a step failed. Then no further commit is made.
    pub fn is_spent(&self) -> bool
        ensures { result ≡ self.now.store.tail.spent }
    {
        self.store.is_spent()
    }

    /// Returns how far the oldest commits are written home.
    pub fn stage(&self) -> HomeStage
        ensures { result ≡ self.now.store.stage }
    {
        self.store.stage()
    }

    /// Whether each commit is written home, and none is being written home.
    pub fn is_idle(&self) -> bool
        ensures { IsTrue result ↔ ((self.now.store.tail.used ≡ 0) × (self.now.store.stage ≡ Resting)) }
    {
        self.store.is_idle()
    }

    /// Returns the device.
    pub fn device(&self) -> &D
        ensures { result.now ≡ self.now.device }
    {
        &self.device
    }

    /// Returns the device as it is. Blocks that were put but not committed are lost.
    pub fn into_device(self) -> D
        ensures { result ≡ self.device }
    {
        let LogPager {
            alloc: _,
            store,
            staged,
            device,
        } = self;
        drop(store);
        drop(staged);
        device
    }

    /// Hands the device to a tender. The pager's other parts stay unchanged.
    pub fn tend<T: Tender<D>>(&mut self, tender: &mut T)
        ensures state { self.new ≡ record self.old { device = self.new.device } }
        ensures tended { T.tends tender.old self.old.device self.new.device tender.new }
        ensures len { length (D.seen self.new.device) ≡ length (D.seen self.old.device) }
    {
        tender.tend(&mut self.device);
    }
}
