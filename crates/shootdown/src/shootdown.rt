// The processors and the lock: their state, and which processors may act.
ghost use Rattle.std.specs.Prelude.{◌≡◌, ◌↔◌, ◌==◌, ◌<◌, ◌≤◌, false, length, replicate, slice_index_or, IsTrue, IfOk, IfErr, OnOk};
ghost use Rattle.std.specs.List.{list_any, All};
ghost use Rattle.shootdown.specs.Processors.{fresh_processor};
ghost use Rattle.shootdown.specs.Shootdown.{fresh_shootdown, processor_at, state_of, current, is_there, not_running, not_free, interrupted, is_current, IsShootdown};

mod moves;
mod notifying;
mod phases;
mod translations;

use crate::processor::Processor;
use crate::{Lock, ProcState};
use page_entry::{Pcid, ProcessorNumber, Refusal};
use std::alloc::{AllocError, Allocator, Global};
use std::marker::Model;

/// Processors with their TLBs, and the lock with its holder and the holder's change. Only `new` allocates memory.
#[derive(Drop)]
pub struct Shootdown<A: Allocator + Copy = Global> {
    processors: Vec<Processor<A>, A>,
    lock: Option<Lock>,
}

impl<A: Allocator + Copy> Model for Shootdown<A> {
    ghost use Rattle.shootdown.specs.Shootdown.{ShootdownState, IsShootdown};

    ghost Value = { ShootdownState };

    ghost view = { λ s. record { processors = s.processors.items; lock = s.lock } };

    ghost invariant = { λ s. IsShootdown (record { processors = s.processors.items; lock = s.lock }) };
}

impl<A: Allocator + Copy> Shootdown<A> {
    /// Returns `cpus` processors, 1 to 16, and a free lock. Each processor is active in space 0, and its TLB is empty
    /// and holds at most `tlb` entries, at least 1. Fails if memory is refused.
    pub fn new(alloc: A, cpus: u8, tlb: usize) -> Result<Self, AllocError>
        requires some { 0 < cpus }
        requires few { cpus ≤ 16 }
        requires roomy { 0 < tlb }
        ensures { IfOk result (λ s. s ≡ fresh_shootdown cpus tlb) }
    {
        Ok(Shootdown {
            processors: fresh_processors(alloc, cpus as usize, tlb)?,
            lock: None,
        })
    }

    /// Returns the number of processors. They are numbered from 0.
    pub fn processors(&self) -> u8
        ensures count { result ≡ length self.now.processors }
        ensures kept { IsShootdown self.now }
    {
        self.processors.len() as u8
    }

    /// Returns the number of entries that the TLB of processor 0 can cache. At boot all TLBs have the same size.
    pub fn tlb_size(&self) -> usize
        ensures { result ≡ (processor_at self.now 0).tlb.capacity }
    {
        self.processors[0].tlb_size()
    }

    /// Whether the processors and the lock are as `new` returns them.
    pub fn is_fresh(&self) -> bool
        ensures { IsTrue result ↔ (self.now
            ≡ fresh_shootdown (length self.now.processors) (processor_at self.now 0).tlb.capacity) }
    {
        self.lock.is_none() && are_fresh(&self.processors, self.tlb_size())
    }

    /// Returns the state of a processor. Fails with `Einval` if there is no processor of this number.
    pub fn state(&self, p: ProcessorNumber) -> Result<ProcState, Refusal>
        ensures ok { IfOk result (λ state. IsTrue (is_there self.now p) × (state ≡ state_of self.now p)) }
        ensures err { IfErr result (λ why. (is_there self.now p ≡ false) × (why ≡ Refusal.Einval)) }
        ensures kept { IsShootdown self.now }
    {
        match self.processors.get(p as usize) {
            Some(processor) => Ok(processor.state()),
            None => Err(Refusal::Einval),
        }
    }

    /// Returns the PCID of a processor's current space.
    pub fn space(&self, p: ProcessorNumber) -> Pcid
        requires { IsTrue (is_there self.now p) }
        ensures space { result ≡ current self.now p }
        ensures kept { IsShootdown self.now }
    {
        self.processors[p as usize].space()
    }

    /// Returns the lock's holder and its change, or `None` if the lock is free.
    pub fn lock(&self) -> Option<Lock>
        ensures lock { result ≡ self.now.lock }
        ensures kept { IsShootdown self.now }
    {
        self.lock
    }

    /// Whether a processor may cache entries of a PCID. It may from its switch to the PCID until it drops all of the
    /// PCID's entries while another one is current.
    pub fn may_cache(&self, p: ProcessorNumber, pcid: Pcid) -> bool
        requires { IsTrue (is_there self.now p) }
        ensures { result ≡ slice_index_or (processor_at self.now p).may_cache pcid false }
    {
        self.processors[p as usize].may_cache(pcid)
    }

    /// Whether a space is some processor's current one.
    pub fn is_current(&self, pcid: Pcid) -> bool
        ensures { result ≡ is_current self.now pcid }
    {
        self.processors
            .iter()
            .any(|processor| processor.space() == pcid)
    }

    /// Checks whether a processor may load and store. Fails with `Einval` if there is no processor of this number, and
    /// with `Stalled` if it is neither active nor interrupted.
    pub fn admit(&self, p: ProcessorNumber) -> Result<(), Refusal>
        ensures ok { OnOk result (not_running self.now p ≡ None) }
        ensures there { OnOk result (IsTrue (is_there self.now p)) }
        ensures err { IfErr result (λ why. not_running self.now p ≡ Some why) }
    {
        match self.state(p)? {
            ProcState::Active | ProcState::Interrupted => Ok(()),
            ProcState::Stalled | ProcState::Initiating | ProcState::Idle => Err(Refusal::Stalled),
        }
    }

    /// Checks whether a processor may change spaces or mappings, or begin to. Fails as `admit`, and with `Locked` while
    /// the lock is held.
    pub fn admit_free(&self, p: ProcessorNumber) -> Result<(), Refusal>
        ensures ok { OnOk result (not_free self.now p ≡ None) }
        ensures there { OnOk result (IsTrue (is_there self.now p)) }
        ensures err { IfErr result (λ why. not_free self.now p ≡ Some why) }
    {
        self.admit(p)?;
        if self.lock.is_some() {
            return Err(Refusal::Locked);
        }
        Ok(())
    }

    // Returns the number of interrupted processors.
    fn interrupted(&self) -> u32
        ensures { result ≡ interrupted self.now }
    {
        self.processors
            .iter()
            .filter(|processor| processor.is_interrupted())
            .count() as u32
    }
}

// Whether each processor is as at boot, with a TLB of this size.
fn are_fresh<A: Allocator + Copy>(processors: &[Processor<A>], tlb: usize) -> bool
    ensures { IsTrue result ↔ All (λ processor. processor ≡ fresh_processor tlb) processors.now }
{
    processors.iter().all(|processor| processor.is_fresh(tlb))
}

// Returns `count` processors as at boot.
fn fresh_processors<A: Allocator + Copy>(
    alloc: A,
    count: usize,
    tlb: usize,
) -> Result<Vec<Processor<A>, A>, AllocError>
    requires { 0 < tlb }
    ensures { IfOk result (λ processors. processors.items ≡ replicate count (fresh_processor tlb)) }
{
    let mut processors = Vec::with_capacity(alloc, count)?;
    for _ in 0..count {
        processors.push_reserved(Processor::new(alloc, tlb)?);
    }
    Ok(processors)
}
