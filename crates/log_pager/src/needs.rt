// Blocks that the next step or the next commit reads or writes in part.
ghost use Rattle.std.specs.Prelude.{◌≡◌, length, None};
ghost use Rattle.log_codec.specs.Log.{IsCommitSize};
ghost use Rattle.log_store.specs.Needs.{commit_edges, step_block};

use crate::LogPager;
use device::Device;
use std::alloc::Allocator;

impl<D: Device, A: Allocator + Copy> LogPager<D, A> {
    /// Returns the block that the next step reads or writes in part, as `LogStore::step_block` does.
    pub fn step_block(&self) -> Option<u32>
        ensures { result ≡ step_block self.now.store }
    {
        self.store.step_block()
    }

    /// Returns the blocks that the next commit of the staged blocks writes in part, as `LogStore::commit_edges` does.
    pub fn commit_edges(&self) -> Option<(u32, u32)>
        ensures some { IsCommitSize self.now.store.tail.log.ring (length self.now.staged)
            → result ≡ commit_edges self.now.store.tail (length self.now.staged) }
        ensures none { (IsCommitSize self.now.store.tail.log.ring (length self.now.staged) → ⊥) → result ≡ None }
    {
        let count = self.staged.len();
        if count > 65535 {
            return None;
        }
        self.store.commit_edges(count as u32)
    }
}
