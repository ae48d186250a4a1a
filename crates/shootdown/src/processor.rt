// One processor: its TLB, and the invalidations that it still has to carry out.
ghost use Rattle.std.specs.Prelude.{◌≡◌, ◌==◌, ◌||◌, ◌<◌, not, false, length, nat_lt, slice_index_or, ◌↔◌, IsTrue, IfOk};
ghost use Rattle.std.specs.List.{list_any};
ghost use Rattle.pcid_tlb.specs.Tlb.{cached, filled, evicted, without_page, keep_entries};
ghost use Rattle.shootdown.specs.Processors.{first_flags, fresh_processor, is_concerned, notified, drained, woken, loaded, flags_kept, drops_pcid, queue_drops, pcids, IsProcessor};
ghost use Rattle.shootdown.specs.Shootdown.{is_interrupted};
ghost use Rattle.shootdown.specs.inside.Flags.{flags_of};

use crate::ProcState;
use page_entry::{PCIDS, PageNumber, Pcid};
use page_table::{first_set, mark};
use pcid_tlb::{CachedEntry, Invpcid, Tlb};
use std::alloc::{AllocError, Allocator};
use std::marker::Model;

// The number of invalidations that a queue can hold.
const QUEUE: usize = 8;

/// A processor. Only `new` allocates memory.
#[derive(Drop)]
pub(crate) struct Processor<A: Allocator + Copy> {
    state: ProcState,
    space: Pcid,
    tlb: Tlb<A>,
    // The invalidations that it still has to carry out, in order.
    queue: Vec<Invpcid, A>,
    // One bit for each PCID: whether the processor may cache entries of it.
    may_cache: [u64; 64],
}

impl<A: Allocator + Copy> Model for Processor<A> {
    ghost use Rattle.std.specs.Prelude.{◌≤◌, vec_capacity};
    ghost use Rattle.shootdown.specs.Processors.{Processor, IsProcessor, queue_len};
    ghost use Rattle.shootdown.specs.inside.Flags.{flags_of};

    ghost Value = { Processor };

    ghost view = { λ p.
        record {
          state = p.state;
          space = p.space;
          tlb = p.tlb;
          queue = p.queue.items;
          may_cache = flags_of p.may_cache;
        } };

    ghost invariant = { λ p. IsProcessor (record {
      state = p.state;
      space = p.space;
      tlb = p.tlb;
      queue = p.queue.items;
      may_cache = flags_of p.may_cache;
    })
        × (queue_len ≤ vec_capacity p.queue) };
}

impl<A: Allocator + Copy> Processor<A> {
    // Returns a processor as at boot, whose TLB has room for `tlb` entries, at least 1.
    pub(crate) fn new(alloc: A, tlb: usize) -> Result<Self, AllocError>
        requires { 0 < tlb }
        ensures { IfOk result (λ p. p ≡ fresh_processor tlb) }
    {
        Ok(Processor {
            state: ProcState::Active,
            space: 0,
            tlb: Tlb::new(alloc, tlb)?,
            queue: Vec::with_capacity(alloc, QUEUE)?,
            may_cache: first_flags(),
        })
    }

    // Returns its state.
    pub(crate) fn state(&self) -> ProcState
        ensures state { result ≡ self.now.state }
        ensures kept { IsProcessor self.now }
    {
        self.state
    }

    // Returns the number of entries that its TLB can cache.
    pub(crate) fn tlb_size(&self) -> usize
        ensures { result ≡ self.now.tlb.capacity }
    {
        self.tlb.capacity()
    }

    // Whether it is as at boot, with a TLB of this size.
    pub(crate) fn is_fresh(&self, tlb: usize) -> bool
        ensures { IsTrue result ↔ (self.now ≡ fresh_processor tlb) }
    {
        self.state == ProcState::Active
            && self.space == 0
            && self.tlb.capacity() == tlb
            && self.tlb.is_empty()
            && self.queue.is_empty()
            && are_first_flags(&self.may_cache)
    }

    // Whether it was interrupted.
    pub(crate) fn is_interrupted(&self) -> bool
        ensures { result ≡ is_interrupted self.now.state }
    {
        self.state == ProcState::Interrupted
    }

    // Returns the PCID of its current space.
    pub(crate) fn space(&self) -> Pcid
        ensures space { result ≡ self.now.space }
        ensures kept { IsProcessor self.now }
    {
        self.space
    }

    // Whether it may cache entries of a PCID.
    pub(crate) fn may_cache(&self, pcid: Pcid) -> bool
        ensures { result ≡ slice_index_or self.now.may_cache pcid false }
    {
        has_flag(&self.may_cache, pcid)
    }

    // Whether it may cache entries that an invalidation drops.
    fn is_concerned(&self, action: Invpcid) -> bool
        ensures { result ≡ is_concerned self.now action }
    {
        match action {
            Invpcid::IndividualAddress(pcid, _) | Invpcid::SingleContext(pcid) => {
                self.may_cache(pcid)
            }
            Invpcid::AllContextsAndGlobals | Invpcid::AllContexts => true,
        }
    }

    // Rule: full queue
    // Notifies it of an invalidation, if it may cache entries that this drops. If the queue is full, one invalidation
    // of everything replaces all of it.
    pub(crate) fn notify(&mut self, action: Invpcid)
        ensures { self.new ≡ notified self.old action }
    {
        if !self.is_concerned(action) {
            return;
        }
        if self.queue.len() < QUEUE {
            self.queue.push_reserved(action);
        } else {
            self.queue.clear();
            self.queue.push_reserved(Invpcid::AllContexts);
        }
    }

    // Rule: stale entry
    // Carries out the queue's invalidations.
    pub(crate) fn drain(&mut self)
        ensures { self.new ≡ drained self.old }
    {
        carry_out(&self.queue, &mut self.tlb, &mut self.may_cache, self.space);
        self.queue.clear();
    }

    // Carries out the queue's invalidations, and becomes active.
    pub(crate) fn wake(&mut self)
        ensures { self.new ≡ woken self.old }
    {
        self.drain();
        self.state = ProcState::Active;
    }

    // Loads another PCID, and keeps or drops its cached entries.
    pub(crate) fn load(&mut self, pcid: Pcid, keep: bool)
        requires { pcid < pcids }
        ensures { self.new ≡ loaded self.old pcid keep }
    {
        self.space = pcid;
        self.tlb.load_cr3(pcid, keep);
        mark(&mut self.may_cache, pcid as u64, true);
    }

    // Sets its state.
    pub(crate) fn set_state(&mut self, state: ProcState)
        ensures { self.new ≡ record self.old { state = state } }
    {
        self.state = state;
    }

    // Returns the cached entry of a page of its current space, if there is one.
    pub(crate) fn cached(&self, page: PageNumber) -> Option<CachedEntry>
        ensures { result ≡ cached self.now.tlb self.now.space page }
    {
        self.tlb.lookup(self.space, page)
    }

    // Caches an entry of its current space.
    pub(crate) fn fill(&mut self, entry: CachedEntry)
        requires { entry.pcid ≡ self.old.space }
        ensures { self.new ≡ record self.old { tlb = filled self.old.tlb entry } }
    {
        self.tlb.fill(entry);
    }

    // Drops the cached entry of a page of its current space.
    pub(crate) fn drop_page(&mut self, page: PageNumber)
        ensures { self.new ≡ record self.old { tlb = without_page self.old.tlb self.old.space page } }
    {
        self.tlb.invlpg(self.space, page);
    }

    // Drops the cached entry in a slot, counted from the oldest. Returns false if there is no such slot.
    pub(crate) fn evict(&mut self, slot: usize) -> bool
        ensures evicted { result ≡ nat_lt slot (length self.old.tlb.entries) }
        ensures rest { self.new ≡ record self.old { tlb = evicted self.old.tlb slot } }
    {
        self.tlb.evict(slot)
    }
}

// Returns the flags of a processor that may cache entries of PCID 0 only.
fn first_flags() -> [u64; 64]
    ensures { flags_of result ≡ first_flags }
{
    let mut flags = [0; 64];
    mark(&mut flags, 0, true);
    flags
}

// Whether the flags are those of a processor that may cache entries of PCID 0 only.
fn are_first_flags(flags: &[u64; 64]) -> bool
    ensures { IsTrue result ↔ (flags_of flags.now ≡ first_flags) }
{
    has_flag(flags, 0) && first_set(flags, 1, PCIDS).is_none()
}

// Whether the flag of a PCID is set.
fn has_flag(flags: &[u64; 64], pcid: Pcid) -> bool
    ensures { result ≡ slice_index_or (flags_of flags.now) pcid false }
{
    (pcid as u64) < PCIDS && (flags[(pcid / 64) as usize] >> (pcid % 64)) & 1 == 1
}

// Carries out invalidations in order, with PCID `space` current, and drops the entries that they name. It clears the
// flag of each PCID whose entries are all dropped, unless this PCID is current.
fn carry_out<A: Allocator + Copy>(
    queue: &[Invpcid],
    tlb: &mut Tlb<A>,
    may_cache: &mut [u64; 64],
    space: Pcid,
)
    ensures cached { tlb.new ≡ keep_entries (λ e. not (queue_drops queue.now e.pcid e.page)) tlb.old }
    ensures flags { flags_of may_cache.new ≡ flags_kept
        (λ pcid. pcid == space || not (list_any (λ a. drops_pcid a pcid) queue.now)) 0 (flags_of may_cache.old) }
{
    for action in queue {
        tlb.invpcid(*action);
        forget(may_cache, *action, space);
    }
}

// Clears the flag of each PCID whose entries an invalidation drops all, unless this PCID is current.
fn forget(may_cache: &mut [u64; 64], action: Invpcid, space: Pcid)
    ensures { flags_of may_cache.new
        ≡ flags_kept (λ pcid. pcid == space || not (drops_pcid action pcid)) 0 (flags_of may_cache.old) }
{
    match action {
        Invpcid::IndividualAddress(..) => {}
        Invpcid::SingleContext(pcid) => {
            if pcid != space && (pcid as u64) < PCIDS {
                mark(may_cache, pcid as u64, false);
            }
        }
        Invpcid::AllContextsAndGlobals | Invpcid::AllContexts => clear_others(may_cache, space),
    }
}

// Clears all flags except that of one PCID. It works on whole words, not on single flags.
fn clear_others(flags: &mut [u64; 64], pcid: Pcid)
    ensures { flags_of flags.new ≡ flags_kept (λ other. other == pcid) 0 (flags_of flags.old) }
{
    let kept = has_flag(flags, pcid);
    flags.fill(0);
    if kept {
        mark(flags, pcid as u64, true);
    }
}
