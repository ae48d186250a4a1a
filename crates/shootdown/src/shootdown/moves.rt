// Processors that idle, wake and switch to other spaces, and the removal of spaces.
ghost use Rattle.std.specs.Prelude.{◌≡◌, true, false, is_some, None, Some, IsTrue, IfOk, OnOk, IfErr};
ghost use Rattle.std.specs.FinMap as maps;
ghost use Rattle.spaces.specs.Spaces.{Spaces as AddressSpaces};
ghost use Rattle.shootdown.specs.Shootdown.{is_there, is_current, resumed, destroyed};
ghost use Rattle.shootdown.specs.Calls.{IdleAnswers, GoesOn, SwitchAnswers, is_idle, destroy_refusal};
ghost use Rattle.shootdown.specs.Coherence.{Coheres, KeepsCoherence, IsForgotten};

use super::Shootdown;
use super::notifying::notify_all;
use crate::ProcState;
use page_entry::{Pcid, ProcessorNumber, Refusal};
use pcid_tlb::Invpcid;
use spaces::Spaces;
use std::alloc::Allocator;

impl<A: Allocator + Copy> Shootdown<A> {
    /// Makes an active processor idle, even while another one holds the lock. Fails with `Einval` if there is no
    /// processor of this number. Fails with `Locked` if it was interrupted, and with `Stalled` in any other state.
    pub fn idle(&mut self, p: ProcessorNumber) -> Result<(), Refusal>
        ensures idled { IdleAnswers self.old p result self.new }
    {
        match self.state(p)? {
            ProcState::Active => {
                self.processors[p as usize].set_state(ProcState::Idle);
                Ok(())
            }
            ProcState::Interrupted => Err(Refusal::Locked),
            ProcState::Stalled | ProcState::Initiating | ProcState::Idle => Err(Refusal::Stalled),
        }
    }

    /// Wakes an idle processor: it carries out its queue, becomes active, and the call returns true. In any other state
    /// nothing happens, and the call returns false.
    ///
    /// Fails with `Einval` if there is no processor of this number, and with `Locked` if it is idle while the lock is
    /// held.
    pub fn wake(&mut self, p: ProcessorNumber) -> Result<bool, Refusal>
        ensures woken { GoesOn is_idle self.old p result self.new }
    {
        match self.state(p)? {
            ProcState::Idle => self.go_on(p),
            _ => Ok(false),
        }
    }

    // Lets a waiting processor go on and returns true, if the lock is free.
    pub(super) fn go_on(&mut self, p: ProcessorNumber) -> Result<bool, Refusal>
        requires { IsTrue (is_there self.old p) }
        ensures ok { IfOk result
            (λ went. (went ≡ true) × (self.old.lock ≡ None) × (self.new ≡ resumed self.old p)) }
        ensures err { IfErr result
            (λ why. (why ≡ Refusal.Locked) × (is_some self.old.lock ≡ true) × (self.new ≡ self.old)) }
    {
        if self.lock.is_some() {
            return Err(Refusal::Locked);
        }
        self.processors[p as usize].wake();
        Ok(true)
    }

    /// Lets a processor carry out its queue and switch to another space, whose cached entries it keeps or drops.
    ///
    /// Fails as `admit_free`, or else with `Einval` if there is no such space.
    pub fn switch(
        &mut self,
        p: ProcessorNumber,
        spaces: &Spaces<A>,
        pcid: Pcid,
        keep: bool,
    ) -> Result<(), Refusal>
        ensures switched { SwitchAnswers self.old spaces.now.map p pcid keep result self.new }
    {
        self.admit_free(p)?;
        if !spaces.has(pcid) {
            return Err(Refusal::Einval);
        }
        let processor = &mut self.processors[p as usize];
        processor.drain();
        processor.load(pcid, keep);
        Ok(())
    }

    /// Checks whether a space may be destroyed. Fails with `Einval` if it is space 0 or doesn't exist, and with `Busy`
    /// while it is some processor's current one.
    pub fn may_destroy(&self, spaces: &Spaces<A>, pcid: Pcid) -> Result<(), Refusal>
        ensures ok { OnOk result (destroy_refusal self.now spaces.now.map pcid ≡ None) }
        ensures err { IfErr result (λ why. destroy_refusal self.now spaces.now.map pcid ≡ Some why) }
    {
        if pcid == 0 || !spaces.has(pcid) {
            return Err(Refusal::Einval);
        }
        if self.is_current(pcid) {
            return Err(Refusal::Busy);
        }
        Ok(())
    }

    /// Notifies each processor that may cache entries of a removed space to drop them. Afterwards the PCID can be used
    /// again.
    pub fn forget(&mut self, pcid: Pcid)
        requires { is_current self.old pcid ≡ false }
        ensures notified { self.new ≡ destroyed self.old pcid }
        ensures forgotten { IsForgotten self.new pcid }
    {
        notify_all(&mut self.processors, Invpcid::SingleContext(pcid));
    }
}
