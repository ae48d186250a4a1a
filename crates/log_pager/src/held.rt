// The commits in the log of a volume.
ghost use Rattle.std.specs.Prelude.{◌≡◌, ◌-◌};

use crate::LogPager;
use device::Device;
use std::alloc::Allocator;

impl<D: Device, A: Allocator + Copy> LogPager<D, A> {
    /// Returns the number of commits in the log: those that aren't all written home.
    pub fn commits(&self) -> u64
        ensures { result ≡ self.now.store.tail.number - self.now.store.tail.start.number }
    {
        self.store.commits()
    }
}
