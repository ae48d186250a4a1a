// A machine with the trace of its steps, which threads share.
ghost use Rattle.std.specs.Prelude.{ℕ, ◌≡◌, ◌==◌, ◌≢◌, ◌↔◌, ◌<◌, ◌≤◌, List, [], ◌∷◌, ◌++◌, length, false, IsTrue, IfOk, IfErr};
ghost use Rattle.std.specs.Vec.{vec_capacity};
ghost use Rattle.page_entry.specs.declared.refusal.Refusal.{Refusal};
ghost use Rattle.shootdown.specs.Shootdown.{is_there, state_of};
ghost use Rattle.volume_codec.specs.Files.{File};
ghost use Rattle.machine.specs.declared.act.Reply.{Reply};
ghost use Rattle.machine.specs.Crashes.{Begins};
ghost use Rattle.machine.specs.Fresh.{IsFresh};
ghost use Rattle.machine.specs.State.{Whole};
ghost use Rattle.service.specs.declared.entry.Entry.{Entry};
ghost use Rattle.service.specs.Marks.{has_unmarked};
ghost use Rattle.service.specs.inside.Raising.{raise_by};
ghost use Rattle.service.specs.Serving.{SharedState, IsServing, KeepsLaws, HasEntered, IsCapacity, RefusesCapacity};

use crate::Entry;
use crate::entry::{progress_with, step_of};
use crate::raising::{Raise, raise_by};
use device::Device;
use machine::{Act, Machine, ProcState, Reply};
use page_entry::{ProcessorNumber, Refusal};
use std::alloc::Allocator;
use std::marker::Model;

/// A machine, the trace of its steps, and the number of its entries that are progress. A service has it under its lock.
#[derive(Drop)]
pub struct Shared<D: Device, A: Allocator + Copy> {
    machine: Machine<D, A>,
    trace: Vec<Entry, A>,
    capacity: u64,
    progress: u64,
}

impl<D: Device, A: Allocator + Copy> Model for Shared<D, A> {
    ghost use Rattle.std.specs.Prelude.{◌≤◌};
    ghost use Rattle.std.specs.Coded.{codes};
    ghost use Rattle.std.specs.Vec.{vec_capacity};
    ghost use Rattle.machine.specs.State.{Whole};
    ghost use Rattle.machine.specs.inside.Codes.{map_code};
    ghost use Rattle.service.specs.Serving.{SharedState, IsServing, max_entries};

    ghost Value = { SharedState D };

    ghost coded = { Prim.hlevel (codes, map_code, D.code) };

    ghost view = { λ s. record {
      machine = s.machine;
      trace = s.trace.items;
      capacity = s.capacity;
      progress = s.progress;
    } };

    ghost invariant = { λ s. (s.capacity ≤ vec_capacity s.trace) × (s.capacity ≤ max_entries)
        × ((start : Whole D) × IsServing D.Device start (record {
          machine = s.machine;
          trace = s.trace.items;
          capacity = s.capacity;
          progress = s.progress;
        })) };
}

// Whether a trace may have this capacity.
pub(crate) fn is_capacity(capacity: u64) -> bool
    ensures { IsTrue result ↔ IsCapacity capacity }
{
    1 <= capacity && capacity <= 1_000_000
}

impl<D: Device, A: Allocator + Copy> Shared<D, A> {
    /// Returns a machine that was just booted, with an empty trace of at most `capacity` entries, 1 to 1,000,000.
    ///
    /// Fails with `BadShape` for another capacity, before it allocates memory. Fails with `OutOfMemory` if memory for
    /// the trace runs out. Both return the machine. No later call allocates memory for the trace.
    pub fn new(
        alloc: A,
        machine: Machine<D, A>,
        capacity: u64,
    ) -> Result<Self, (Refusal, Machine<D, A>)>
        requires fresh { IsFresh machine.state }
        ensures made { IfOk result (λ shared. shared
            ≡ record { machine = machine; trace = []; capacity = capacity; progress = 0 }) }
        ensures refused { IfErr result (λ refused. RefusesCapacity capacity refused.0 × (refused.1 ≡ machine)) }
    {
        if !is_capacity(capacity) {
            return Err((Refusal::BadShape, machine));
        }
        match Vec::with_capacity(alloc, capacity as usize) {
            Ok(trace) => Ok(Shared::over(machine, trace, capacity)),
            Err(_) => Err((Refusal::OutOfMemory, machine)),
        }
    }

    // Returns a machine that was just booted, with an empty trace that has room.
    pub(crate) fn over(machine: Machine<D, A>, trace: Vec<Entry, A>, capacity: u64) -> Self
        requires fresh { IsFresh machine.state }
        requires empty { trace.items ≡ [] }
        requires room { capacity ≤ vec_capacity trace }
        requires few { IsCapacity capacity }
        ensures { result ≡ record { machine = machine; trace = []; capacity = capacity; progress = 0 } }
    {
        Shared {
            machine,
            trace,
            capacity,
            progress: 0,
        }
    }

    /// Makes one act of one processor, adds its entry to the trace, and returns the reply. If the trace is full, and
    /// only then, the reply is `TraceFull`, and nothing changes.
    pub fn enter(&mut self, p: ProcessorNumber, act: Act) -> Reply
        ensures is_full { length self.old.trace ≡ self.old.capacity → result ≡ Reply.Refused Refusal.TraceFull }
        ensures full { result ≡ Reply.Refused Refusal.TraceFull
            → (length self.old.trace ≡ self.old.capacity) × (self.new ≡ self.old) }
        ensures entered { result ≢ Reply.Refused Refusal.TraceFull
            → HasEntered D.Device self.old (record { p = p; act = act }) result self.new }
    {
        if self.is_full() {
            return Reply::Refused(Refusal::TraceFull);
        }
        let step = step_of(p, &act);
        let reply = self.machine.enter(&step);
        self.progress = progress_with(self.progress, &step.act, &reply);
        self.trace.push_reserved(Entry::of(&step, &reply));
        reply
    }

    /// Whether the trace is full.
    pub fn is_full(&self) -> bool
        ensures { result ≡ (length self.now.trace == self.now.capacity) }
    {
        self.trace.len() as u64 == self.capacity
    }

    /// Shows that the trace is a legal run of the machine, over any device, from some start as boot leaves it
    /// (`IsServing`). If that start was over a volume at rest, on an honest device, the trace keeps the laws of
    /// machines.
    pub fn keeps_the_laws(&self)
        ensures { (start : Whole D) × IsServing D.Device start self.now
            × ((files : List File) → Begins D.Device files start → KeepsLaws D.Device files start self.now) }
    {
        self.machine.keeps_the_laws();
    }

    /// Returns the state of a processor, and the number of entries in the trace that are progress. Fails with `Einval`
    /// if there is no processor with this number.
    pub fn look(&self, p: ProcessorNumber) -> Result<(ProcState, u64), Refusal>
        ensures ok { IfOk result (λ look. IsTrue (is_there self.now.machine.state.hardware.shootdown p)
            × (look.0 ≡ state_of self.now.machine.state.hardware.shootdown p) × (look.1 ≡ self.now.progress)) }
        ensures err { IfErr result (λ why. (is_there self.now.machine.state.hardware.shootdown p ≡ false)
            × (why ≡ Refusal.Einval)) }
    {
        let state = self.machine.state(p)?;
        Ok((state, self.progress))
    }

    /// Returns the number of entries in the trace that are progress.
    pub fn progress(&self) -> u64
        ensures { result ≡ self.now.progress }
    {
        self.progress
    }

    /// Returns the trace: the steps that were made, each with its reply, in order.
    pub fn trace(&self) -> &[Entry]
        ensures { result.now ≡ self.now.trace }
    {
        self.trace.as_slice()
    }

    // Returns all entries except the last one.
    fn before_last(&self) -> &[Entry]
        requires { 0 < length self.now.trace }
        ensures { (before : List Entry) (last : Entry) → self.now.trace ≡ before ++ last ∷ []
            → result.now ≡ before }
    {
        let trace = self.trace.as_slice();
        &trace[..trace.len() - 1]
    }

    // Returns the raise of the horizon by the reply of the last entry.
    pub(crate) fn last_raise(&self, reply: &Reply) -> Raise
        requires { 0 < length self.now.trace }
        ensures { (before : List Entry) (last : Entry) → self.now.trace ≡ before ++ last ∷ []
            → result ≡ raise_by (has_unmarked before) reply.now }
    {
        raise_by(self.before_last(), reply)
    }

    // Returns the machine and its trace.
    pub(crate) fn into_parts(self) -> (Machine<D, A>, Vec<Entry, A>)
        ensures machine { result.0 ≡ self.machine }
        ensures trace { result.1.items ≡ self.trace }
    {
        let Shared { machine, trace, .. } = self;
        (machine, trace)
    }
}
