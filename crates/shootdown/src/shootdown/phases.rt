// The four phases of a shootdown.
ghost use Rattle.std.specs.Prelude.{◌≡◌, None, Some, IfOk, IfSome};
ghost use Rattle.spaces.specs.Spaces.{Spaces as AddressSpaces};
ghost use Rattle.spaces.specs.Changes.{ChangesOnlyAffected, Grows};
ghost use Rattle.shootdown.specs.Shootdown.{not_free, interrupted, begun, finished};
ghost use Rattle.shootdown.specs.Calls.{HasUserPages, Acks, HandsOut, GoesOn, holder_of, is_stalled};
ghost use Rattle.shootdown.specs.Coherence.{Coheres, KeepsCoherence, IsUnused, IsNoWider};

use super::Shootdown;
use super::notifying::begin_change;
use crate::{Lock, ProcState};
use page_entry::{ProcessorNumber, Refusal};
use spaces::{Change, Spaces};
use std::alloc::Allocator;

impl<A: Allocator + Copy> Shootdown<A> {
    /// The first phase: processor p, admitted while the lock was free, takes the lock for a change. Each processor that
    /// may cache affected entries is notified to drop them. The other active processors are interrupted if the change
    /// touches their space. The call allocates no memory.
    pub fn begin(&mut self, p: ProcessorNumber, spaces: &Spaces<A>, change: Change)
        requires free { not_free self.old p ≡ None }
        requires pages { HasUserPages change }
        ensures begun { self.new ≡ begun self.old p spaces.now.map change }
    {
        begin_change(&mut self.processors, p, spaces, &change);
        self.lock = Some(Lock { holder: p, change });
    }

    /// The second phase: an interrupted processor stalls, and the call returns true. In any other state nothing
    /// happens, and the call returns false. Fails with `Einval` if there is no processor of this number.
    pub fn ack(&mut self, p: ProcessorNumber) -> Result<bool, Refusal>
        ensures acked { Acks self.old p result self.new }
    {
        match self.state(p)? {
            ProcState::Interrupted => {
                self.processors[p as usize].set_state(ProcState::Stalled);
                Ok(true)
            }
            _ => Ok(false),
        }
    }

    /// The third phase: returns the change to the lock's holder once no processor is interrupted, so that it can be
    /// made. The lock stays held until `finish`. Returns `None` while the lock is free.
    ///
    /// Fails with `Einval` if there is no processor of this number, and with `Locked` if it isn't the holder. Fails
    /// with `NotYet` and the number of interrupted processors if there are any.
    pub fn change(&self, p: ProcessorNumber) -> Result<Option<Change>, Refusal>
        ensures handed_out { HandsOut self.now p result }

        // If the processors and the tables cohere, no processor uses an entry that the change affects.
        ensures unused { IfOk result (λ change. IfSome change (λ change.
            (spaces : AddressSpaces) → Coheres spaces self.now → IsUnused spaces change self.now)) }
    {
        self.state(p)?;
        let Some(lock) = self.lock else {
            return Ok(None);
        };
        if lock.holder != p {
            return Err(Refusal::Locked);
        }
        match self.interrupted() {
            0 => Ok(Some(lock.change)),
            waiting => Err(Refusal::NotYet(waiting)),
        }
    }

    /// The end of the third phase, after the change was made. The initiator carries out its own queue and becomes
    /// active, and the lock becomes free.
    pub fn finish(&mut self, p: ProcessorNumber)
        requires held { holder_of self.old ≡ Some p }
        requires quiet { interrupted self.old ≡ 0 }
        ensures finished { self.new ≡ finished self.old p }
    {
        self.processors[p as usize].wake();
        self.lock = None;
    }

    /// The fourth phase: a stalled processor carries out its queue and becomes active, and the call returns true. In
    /// any other state nothing happens, and the call returns false.
    ///
    /// Fails with `Einval` if there is no processor of this number, and with `Locked` if it is stalled while the lock
    /// is held.
    pub fn resume(&mut self, p: ProcessorNumber) -> Result<bool, Refusal>
        ensures resumed { GoesOn is_stalled self.old p result self.new }
    {
        match self.state(p)? {
            ProcState::Stalled => self.go_on(p),
            _ => Ok(false),
        }
    }
}
