// A service: its start, with a processor for each thread, and its end.
ghost use Rattle.std.specs.Prelude.{ℕ, ◌≡◌, ◌+◌, ◌*◌, ◌<◌, List, length, slice_get, Some, IfOk, IfErr, IfSome, IsSome};
ghost use Rattle.page_entry.specs.declared.refusal.Refusal.{Refusal};
ghost use Rattle.machine.specs.declared.act.Reply.{Reply};
ghost use Rattle.machine.specs.declared.act.Step.{Step};
ghost use Rattle.machine.specs.Fresh.{IsFresh};
ghost use Rattle.machine.specs.Runs.{StepsTaken};
ghost use Rattle.machine.specs.State.{Whole};
ghost use Rattle.service.specs.Serving.{IsCapacity, RefusesCapacity};
ghost use Rattle.service.specs.Gathering.{HasGathered, IsNotGathered, idle_cpu};

use crate::gathering::{are_all, ended, take_if_answered, taken};
use crate::locked::{Right, Room};
use crate::shared::is_capacity;
use crate::starting::Unstarted;
use crate::{Cpu, Entry, Origin};
use device::Device;
use machine::Machine;
use page_entry::Refusal;
use std::alloc::{Allocator, Global};
use std::sync::ledger::Blank;
use std::sync::{Arc, Wait};

/// A machine that threads share. Each thread uses a `Cpu` of its own. `L` names the service.
#[derive(Drop)]
pub struct Service<D: Device, A: Allocator + Copy, L: Origin<D>> {
    pub(crate) room: Arc<Room<D, A, L>, A>,
    pub(crate) right: Right<D, L>,
    pub(crate) cpus: u64,
    ghost all: { cpus ≡ L.all },
}

impl<D: Device + Drop, A: Allocator + Copy, L: Origin<D>> Service<D, A, L> {
    /// Shares a machine that was just booted, with an empty trace of at most `capacity` entries, 1 to 1,000,000.
    /// Returns the service, and a `Cpu` for each of the machine's processors, in order. The type `L` represents this
    /// machine, this capacity, and the ledger that `blank` opens, with a part for each processor.
    ///
    /// The clause `origin` is about ghost members of `L`. It excludes no machine and no capacity: a caller passes
    /// `Brand`, and its proof chooses the members.
    ///
    /// Fails with `BadShape` for another capacity, before it allocates memory. Fails with `OutOfMemory` if memory runs
    /// out. Both failures return the machine and the blank. All memory is allocated here; no call of a `Cpu` allocates
    /// any for the service. The horizon's memory comes from `global`, and all other memory from `alloc`.
    pub fn start(
        alloc: A,
        global: Global,
        machine: Machine<D, A>,
        capacity: u64,
        blank: Blank,
    ) -> Result<(Self, Vec<Cpu<D, A, L>, A>), (Refusal, Machine<D, A>, Blank)>
        requires fresh { IsFresh machine.state }
        requires origin { (L.start ≡ Some machine) × (IsCapacity capacity → L.capacity ≡ capacity) }
        requires name { blank.name ≡ L.name }
        requires parts { (blank.parts ≡ L.parts) × (L.parts ≡ 2 * L.all + 1)
            × (L.all ≡ length machine.state.hardware.shootdown.processors) }
        ensures capacity { IfOk result (λ _. IsCapacity capacity) }
        ensures count { IfOk result (λ started.
            length started.1.items ≡ length machine.state.hardware.shootdown.processors) }
        ensures cpus { IfOk result (λ started. (i : ℕ) → i < length started.1.items
            → slice_get started.1.items i ≡ Some (idle_cpu i)) }
        ensures refused { IfErr result (λ refused. RefusesCapacity capacity refused.0 × (refused.1 ≡ machine)
            × (refused.2 ≡ blank)) }
    {
        if !is_capacity(capacity) {
            return Err((Refusal::BadShape, machine, blank));
        }
        let count = machine.processors();
        match Unstarted::new(alloc, global, count, capacity) {
            Ok(unstarted) => Ok(unstarted.started(machine, capacity, blank, count)),
            Err(_) => Err((Refusal::OutOfMemory, machine, blank)),
        }
    }

    /// Takes the machine and the trace out of the service. Fails with `Einval`, and returns everything, unless `cpus`
    /// are all `Cpu` values of the service and the trace consists of their answered calls. The machine is then still in
    /// the service, since only the service's right can take it out. The contract holds if the call returns.
    pub fn gather<R: Wait>(
        self,
        rt: &R,
        mut cpus: Vec<Cpu<D, A, L>, A>,
    ) -> Result<(Machine<D, A>, Vec<Entry, A>), (Refusal, Self, Vec<Cpu<D, A, L>, A>)>
        requires { L.parts ≡ 2 * L.all + 1 }
        ensures gathered { IfOk result (λ gathered.
            HasGathered D.Device L.start L.capacity cpus.items gathered.0 gathered.1.items) }
        ensures refused { IfErr result (λ refused. (refused.0 ≡ Refusal.Einval) × (refused.1 ≡ self)
            × (refused.2.items ≡ cpus.items)) }
        ensures why { IfErr result (λ _. IsNotGathered D.Device L.start L.all L.capacity cpus.items) }
    {
        if !are_all(cpus.as_slice(), self.cpus) {
            return Err((Refusal::Einval, self, cpus));
        }
        let Service {
            room,
            right,
            cpus: count,
        } = self;
        match take_if_answered(rt, &*room, right, cpus.as_mut_slice()) {
            Ok(locked) => Ok(ended(locked)),
            Err(right) => {
                let service = Service {
                    room,
                    right,
                    cpus: count,
                };
                Err((Refusal::Einval, service, cpus))
            }
        }
    }

    /// Takes the machine out of a service that isn't gathered. It is always there. The steps since the service started
    /// are a legal run. The contract doesn't state which processors made them. It holds if the call returns.
    pub fn abandon<R: Wait>(self, rt: &R) -> Option<Machine<D, A>>
        ensures led { IfSome result (λ machine. (first : Whole D) × (steps : List Step) × (replies : List Reply)
            × (L.start ≡ Some first) × StepsTaken D.Device first steps replies machine) }
        ensures there { L.parts ≡ 2 * L.all + 1 → IsSome result }
    {
        let Service { room, right, .. } = self;
        let locked = taken(rt, &*room, right)?;
        Some(ended(locked).0)
    }
}
