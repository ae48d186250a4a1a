// Blocks that a device which knows only some blocks must know before a step or a commit.
ghost use Rattle.std.specs.Prelude.{◌≡◌, true};
ghost use Rattle.log_store.specs.Needs.{step_block};
ghost use Rattle.log_files.specs.Needs.{put_edges};
ghost use Rattle.log_files.specs.Calls.{has_blocks_for};

use crate::LogFiles;
use device::Device;
use std::alloc::Allocator;

impl<D: Device, A: Allocator + Copy> LogFiles<D, A> {
    /// Returns the block that the next step reads or writes in part.
    pub fn step_block(&self) -> Option<u32>
        ensures { result ≡ step_block self.now.pager.store }
    {
        self.pager.step_block()
    }

    /// Returns the two blocks of the log that the next commit writes in part, if any: its first block, and the block
    /// behind it. A commit that selects a start also writes a byte of block 1.
    pub fn commit_edges(&self) -> Option<(u32, u32)>
        ensures { result ≡ put_edges self.now.pager.store.tail self.now.pager.staged }
    {
        self.pager.commit_edges()
    }

    /// An empty log has enough blocks for a commit of the staged blocks.
    pub fn fits_empty_log(&self)
        ensures { self.now.pager.store.tail.used ≡ 0
            → has_blocks_for self.now.pager.store.tail self.now.pager.staged ≡ true }
    {
        let _pager = &self.pager;
    }
}
