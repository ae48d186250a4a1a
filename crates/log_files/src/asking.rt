// Queries about the files of a volume with a log, and access to its device.
ghost use Rattle.std.specs.Prelude.{◌≡◌, ◌↔◌, ◌-◌, ◌&&◌, length, is_none, is_some, IsTrue};
ghost use Rattle.kept_blocks.specs.Blocks.{bytes_in};
ghost use Rattle.pager.specs.Calls.{page_refusal};
ghost use Rattle.log_codec.specs.Chain.{spare_blocks};
ghost use Rattle.log_store.specs.declared.stage.HomeStage.TheVariants.{Resting};
ghost use Rattle.log_files.specs.State.{log_home_of, on_device, pages_put};
ghost use Rattle.log_files.specs.Calls.{has_blocks_for, has_number_for};

use crate::LogFiles;
use device::Device;
use kept_blocks::Tender;
use log_codec::Sealing;
use page_entry::FilePage;
use std::alloc::Allocator;

// The number of blocks of a log that commits leave free.
fn spare_of(sealing: Sealing) -> u64
    ensures { result ≡ spare_blocks sealing }
{
    match sealing {
        Sealing::ByByte => 1,
        Sealing::ByDigest(_) => 0,
    }
}

impl<D: Device, A: Allocator + Copy> LogFiles<D, A> {
    /// Returns the number of blocks put since the last commit: pages of files, and the block of the lengths if a length
    /// was set.
    pub fn staged(&self) -> usize
        ensures { result ≡ length self.now.pager.staged }
    {
        self.pager.staged()
    }

    /// Returns the number of pages of files in the next commit.
    pub fn staged_pages(&self) -> usize
        ensures { result ≡ pages_put self.now.table self.now.pager.staged }
    {
        let lengths = usize::from(self.pager.is_put(self.table.log().first_home()));
        self.pager.staged().saturating_sub(lengths)
    }

    /// Whether the page exists and was put since the last commit.
    pub fn is_staged(&self, page: FilePage) -> bool
        ensures { result ≡ (is_none (page_refusal self.now.lengths page)
            && is_some (bytes_in self.now.pager.staged (log_home_of self.now.table page))) }
    {
        match self.admit_page(page) {
            Ok(home) => self.pager.is_put(home),
            Err(_) => false,
        }
    }

    /// Whether a device call of a commit or a step failed. Then no more pages are put, committed or written home.
    pub fn is_broken(&self) -> bool
        ensures { result ≡ self.now.pager.store.tail.spent }
    {
        self.pager.is_spent()
    }

    /// Whether the log has no commit, because each is written home, and no step is under way.
    pub fn is_idle(&self) -> bool
        ensures { IsTrue result ↔ ((self.now.pager.store.tail.used ≡ 0) × (self.now.pager.store.stage ≡ Resting)) }
    {
        self.pager.is_idle()
    }

    /// Returns the number of blocks of the log that are in use.
    pub fn used(&self) -> u32
        ensures { result ≡ self.now.pager.store.tail.used }
    {
        self.pager.used()
    }

    /// Returns the number of commits in the log: those that aren't all written home.
    pub fn commits(&self) -> u64
        ensures { result ≡ self.now.pager.store.tail.number - self.now.pager.store.tail.start.number }
    {
        self.pager.commits()
    }

    /// Whether the log has enough free blocks for a commit of the staged blocks.
    pub fn has_room(&self) -> bool
        ensures { result ≡ has_blocks_for self.now.pager.store.tail self.now.pager.staged }
    {
        let count = self.pager.staged();
        if count == 0 {
            return true;
        }
        let log = self.table.log();
        let Some(head) = log.descriptor_blocks(count as u32) else {
            return false;
        };
        let blocks = u64::from(self.pager.used()) + u64::from(head) + count as u64;
        blocks + spare_of(log.sealing()) <= u64::from(log.ring())
    }

    // Whether the log has a number left for a commit of the staged blocks.
    pub(crate) fn has_number(&self) -> bool
        ensures { result ≡ has_number_for self.now.pager.store.tail self.now.pager.staged }
    {
        self.pager.staged() == 0 || self.pager.number() < u64::MAX
    }

    /// Returns the device.
    pub fn device(&self) -> &D
        ensures { result.now ≡ self.now.pager.device }
    {
        self.pager.device()
    }

    /// Hands the device to a tender. Everything else stays unchanged.
    pub fn tend<T: Tender<D>>(&mut self, tender: &mut T)
        ensures state { self.new ≡ on_device self.old self.new.pager.device }
        ensures tended { T.tends tender.old self.old.pager.device self.new.pager.device tender.new }
        ensures len { length (D.seen self.new.pager.device) ≡ length (D.seen self.old.pager.device) }
    {
        self.pager.tend(tender);
    }

    /// Returns the device as it is. An opening finds the commits, but not the pages put since the last one.
    pub fn into_device(self) -> D
        ensures { result ≡ self.pager.device }
    {
        let LogFiles {
            alloc: _,
            table,
            lengths,
            most: _,
            marks: _,
            pager,
        } = self;
        drop(table);
        drop(lengths);
        pager.into_device()
    }
}
