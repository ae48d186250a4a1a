//! The translation lookaside buffer (TLB) of one processor: a list of cached page entries, tagged with process-context
//! identifiers (PCIDs).
#![tactic(auto)]

ghost use Rattle.std.specs.Prelude.{◌≡◌, ◌==◌, ◌<◌, [], length, nat_lt, IfOk};
ghost use Rattle.pcid_tlb.specs.Tlb.{cached, filled, evicted, drops, without_page, invalidated, cr3_loaded, IsTlb};

use page_entry::{FrameNumber, PageNumber, Pcid};
use std::alloc::{AllocError, Allocator, Global};
use std::marker::Model;

/// The part of a present page entry that a TLB caches.
#[derive(Clone, Copy, Debug, PartialEq, Eq)]
pub struct CachedEntry {
    pub pcid: Pcid,
    pub page: PageNumber,
    pub frame: FrameNumber,
    pub writable: bool,
    pub dirty: bool,
}

/// The entries that an INVPCID instruction invalidates, in the order of its types 0 to 3 (Intel SDM volume 2,
/// "INVPCID"). No translation here is global, so the last two do the same.
#[derive(Clone, Copy, Debug, PartialEq, Eq)]
pub enum Invpcid {
    /// Type 0, individual-address invalidation: the translation of one page for one PCID.
    IndividualAddress(Pcid, PageNumber),
    /// Type 1, single-context invalidation: all translations for one PCID.
    SingleContext(Pcid),
    /// Type 2, all-context invalidation, including global translations.
    AllContextsAndGlobals,
    /// Type 3, all-context invalidation, except global translations.
    AllContexts,
}

/// A TLB of a fixed capacity: the cached entries, the oldest first, at most one for each page of each PCID. All memory
/// is allocated when the TLB is made.
#[derive(Drop)]
pub struct Tlb<A: Allocator + Copy = Global> {
    capacity: usize,
    entries: Vec<CachedEntry, A>,
}

impl<A: Allocator + Copy> Model for Tlb<A> {
    ghost use Rattle.std.specs.Prelude.{◌≤◌, vec_capacity};
    ghost use Rattle.pcid_tlb.specs.Tlb.{TlbState, IsTlb};

    ghost Value = { TlbState };

    ghost view = { λ t. record { capacity = t.capacity; entries = t.entries.items } };

    ghost invariant = { λ t.
        IsTlb (record { capacity = t.capacity; entries = t.entries.items })
        × (t.capacity ≤ vec_capacity t.entries) };
}

impl<A: Allocator + Copy> Tlb<A> {
    /// Returns an empty TLB for at most `capacity` entries, at least 1. Fails if memory runs out.
    pub fn new(alloc: A, capacity: usize) -> Result<Self, AllocError>
        requires { 0 < capacity }
        ensures { IfOk result (λ tlb. tlb ≡ record { capacity = capacity; entries = [] }) }
    {
        Ok(Tlb {
            capacity,
            entries: Vec::with_capacity(alloc, capacity)?,
        })
    }

    /// Returns the number of cached entries.
    pub fn len(&self) -> usize
        ensures { result ≡ length self.now.entries }
    {
        self.entries.len()
    }

    /// Returns the largest number of entries that the TLB can cache.
    pub fn capacity(&self) -> usize
        ensures { result ≡ self.now.capacity }
    {
        self.capacity
    }

    /// Whether no entry is cached.
    pub fn is_empty(&self) -> bool
        ensures { result ≡ (length self.now.entries == 0) }
    {
        self.entries.is_empty()
    }

    /// Returns the cached entry of a page of a PCID, if there is one.
    pub fn lookup(&self, pcid: Pcid, page: PageNumber) -> Option<CachedEntry>
        ensures found { result ≡ cached self.now pcid page }
        ensures sound { IsTlb self.now }
    {
        self.entries
            .iter()
            .find(|e| e.pcid == pcid && e.page == page)
            .copied()
    }

    // Rule: full TLB
    /// Caches an entry as the newest. It replaces the cached entry of the same page and PCID, if there is one.
    /// Otherwise, if the TLB is full, the oldest entry is dropped.
    pub fn fill(&mut self, entry: CachedEntry)
        ensures { self.new ≡ filled self.old entry }
    {
        self.invlpg(entry.pcid, entry.page);
        if self.entries.len() == self.capacity {
            self.entries.remove(0);
        }
        self.entries.push_reserved(entry);
    }

    /// Drops the entry in a slot, and returns whether there was one. Slots are counted from 0, the oldest entry.
    pub fn evict(&mut self, slot: usize) -> bool
        ensures dropped { result ≡ nat_lt slot (length self.old.entries) }
        ensures rest { self.new ≡ evicted self.old slot }
    {
        if slot >= self.entries.len() {
            return false;
        }
        self.entries.remove(slot);
        true
    }

    /// Drops the entry of a page of a PCID, as INVLPG does if that PCID is current. The source of this call and the
    /// next two is the Intel SDM volume 3, "Operations that Invalidate TLBs and Paging-Structure Caches".
    pub fn invlpg(&mut self, pcid: Pcid, page: PageNumber)
        ensures { self.new ≡ without_page self.old pcid page }
    {
        self.invpcid(Invpcid::IndividualAddress(pcid, page));
    }

    /// Drops the entries that this INVPCID invalidates. The others stay.
    pub fn invpcid(&mut self, kind: Invpcid)
        ensures { self.new ≡ invalidated self.old kind }
    {
        self.entries.retain(|e| !drops(kind, e));
    }

    /// Loads CR3 with a PCID. Drops that PCID's entries, unless bit 63 of the new value (`keep`) is set.
    pub fn load_cr3(&mut self, pcid: Pcid, keep: bool)
        ensures { self.new ≡ cr3_loaded self.old pcid keep }
    {
        if !keep {
            self.invpcid(Invpcid::SingleContext(pcid));
        }
    }
}

/// Whether this INVPCID drops the entry.
fn drops(kind: Invpcid, e: &CachedEntry) -> bool
    ensures { result ≡ drops kind e.now }
{
    match kind {
        Invpcid::IndividualAddress(pcid, page) => e.pcid == pcid && e.page == page,
        Invpcid::SingleContext(pcid) => e.pcid == pcid,
        Invpcid::AllContextsAndGlobals | Invpcid::AllContexts => true,
    }
}
