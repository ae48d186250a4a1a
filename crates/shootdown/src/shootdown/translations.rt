// The cached entries of single processors.
ghost use Rattle.std.specs.Prelude.{◌≡◌, length, nat_lt, IsTrue};
ghost use Rattle.pcid_tlb.specs.Tlb.{cached, filled, evicted, without_page};
ghost use Rattle.shootdown.specs.Shootdown.{current, tlb_of, with_tlb, is_there};
ghost use Rattle.shootdown.specs.Coherence.{Coheres, Agrees, KeepsCoherence};
ghost use Rattle.spaces.specs.Spaces.{Spaces};

use super::Shootdown;
use page_entry::{PageNumber, ProcessorNumber};
use pcid_tlb::CachedEntry;
use std::alloc::Allocator;

impl<A: Allocator + Copy> Shootdown<A> {
    /// Returns the entry that a processor caches of a page of its current space, if there is one.
    pub fn cached(&self, p: ProcessorNumber, page: PageNumber) -> Option<CachedEntry>
        requires { IsTrue (is_there self.now p) }
        ensures { result ≡ cached (tlb_of self.now p) (current self.now p) page }
    {
        self.processors[p as usize].cached(page)
    }

    /// Caches an entry of a processor's current space as its newest.
    pub fn fill(&mut self, p: ProcessorNumber, entry: CachedEntry)
        requires there { IsTrue (is_there self.old p) }
        requires here { entry.pcid ≡ current self.old p }
        ensures filled { self.new ≡ with_tlb self.old p (filled (tlb_of self.old p) entry) }
    {
        self.processors[p as usize].fill(entry);
    }

    /// Drops the entry that a processor caches of a page of its current space, as a page fault does.
    pub fn drop_page(&mut self, p: ProcessorNumber, page: PageNumber)
        requires { IsTrue (is_there self.old p) }
        ensures dropped { self.new
            ≡ with_tlb self.old p (without_page (tlb_of self.old p) (current self.old p) page) }
    {
        self.processors[p as usize].drop_page(page);
    }

    /// Drops the entry in a slot of a processor's TLB, counted from 0, the oldest. Returns false if there is no such
    /// slot.
    pub fn evict(&mut self, p: ProcessorNumber, slot: usize) -> bool
        requires { IsTrue (is_there self.old p) }
        ensures evicted { result ≡ nat_lt slot (length (tlb_of self.old p).entries) }
        ensures rest { self.new ≡ with_tlb self.old p (evicted (tlb_of self.old p) slot) }
    {
        self.processors[p as usize].evict(slot)
    }
}
