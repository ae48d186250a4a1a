// The start of a service. All memory is allocated first. Then the ledger is opened, and the machine is put under the
// lock.
ghost use Rattle.std.specs.Prelude.{ℕ, ◌≡◌, ◌+◌, ◌*◌, ◌<◌, ◌≤◌, [], length, slice_get, Some, IfOk};
ghost use Rattle.std.specs.Arc.{arc_value};
ghost use Rattle.std.specs.Vec.{vec_capacity, vec_len};
ghost use Rattle.horizon.specs.Seen.{nothing_seen};
ghost use Rattle.machine.specs.Fresh.{IsFresh};
ghost use Rattle.service.specs.Serving.{IsCapacity};
ghost use Rattle.service.specs.Gathering.{idle_cpu};

use crate::locked::{Locked, Right, Room};
use crate::{Cpu, Entry, Origin, Service, Shared};
use device::Device;
use horizon::{Horizon, Seen};
use machine::{Act, Machine, Reply};
use page_entry::ProcessorNumber;
use std::alloc::{AllocError, Allocator, Global};
use std::sync::ledger::{Blank, Share};
use std::sync::{Arc, Mutex, OnceLock};

// The parts of a processor besides its number and its part of the ledger.
#[derive(Drop)]
struct Seat<D: Device, A: Allocator + Copy, L: Origin<D>> {
    room: Arc<Room<D, A, L>, A>,
    seen: Seen,
    answered: Vec<(Act, Reply), A>,
    ghost own: { seen ≡ nothing_seen (arc_value room).horizon },
    ghost empty: { answered.items ≡ [] },
}

impl<D: Device + Drop, A: Allocator + Copy, L: Origin<D>> Seat<D, A, L> {
    fn new(
        alloc: A,
        room: &Arc<Room<D, A, L>, A>,
        seen: &mut Seen,
        capacity: u64,
    ) -> Result<Self, AllocError>
        requires { seen.old ≡ nothing_seen (arc_value room.now).horizon }
        ensures { seen.new ≡ seen.old }
    {
        let answered = Vec::with_capacity(alloc, capacity as usize)?;
        let room = Arc::try_clone(room)?;
        let seen = room.horizon.another(seen);
        Ok(Seat {
            room,
            seen,
            answered,
        })
    }

    fn into_cpu(self, p: ProcessorNumber, share: Share<L>) -> Cpu<D, A, L>
        requires { (share.parts ≡ 1) × (share.amount ≡ 0) }
        ensures { result ≡ idle_cpu p }
    {
        let Seat {
            room,
            seen,
            answered,
        } = self;
        Cpu {
            p,
            room,
            seen,
            share,
            answered,
        }
    }
}

// All memory that a service needs.
#[derive(Drop)]
pub(crate) struct Unstarted<D: Device, A: Allocator + Copy, L: Origin<D>> {
    room: Arc<Room<D, A, L>, A>,
    trace: Vec<Entry, A>,
    seats: Vec<Seat<D, A, L>, A>,
    cpus: Vec<Cpu<D, A, L>, A>,
    ghost no_entries: { trace.items ≡ [] },
    ghost no_cpus: { cpus.items ≡ [] },
    ghost seated: { vec_len seats ≤ vec_capacity cpus },
}

impl<D: Device + Drop, A: Allocator + Copy, L: Origin<D>> Unstarted<D, A, L> {
    // Allocates the memory for a trace of this capacity and `count` processors.
    pub(crate) fn new(
        alloc: A,
        global: Global,
        count: u8,
        capacity: u64,
    ) -> Result<Self, AllocError>
        ensures room { IfOk result (λ made. capacity ≤ vec_capacity made.trace) }
        ensures seats { IfOk result (λ made. vec_len made.seats ≡ count) }
    {
        let trace = Vec::with_capacity(alloc, capacity as usize)?;
        let cpus = Vec::with_capacity(alloc, usize::from(count))?;
        let (horizon, mut seen) = Horizon::new(global)?;
        let room = Arc::new(
            alloc,
            Room {
                lock: OnceLock::new(),
                horizon,
            },
        )?;
        let seats = seats_for(alloc, &room, &mut seen, count, capacity)?;
        Ok(Unstarted {
            room,
            trace,
            seats,
            cpus,
        })
    }

    // Starts the service with this machine. Each processor gets one part of the ledger, and the service gets all
    // others.
    pub(crate) fn started(
        self,
        machine: Machine<D, A>,
        capacity: u64,
        blank: Blank,
        count: u8,
    ) -> (Service<D, A, L>, Vec<Cpu<D, A, L>, A>)
        requires fresh { IsFresh machine.state }
        requires origin { (L.start ≡ Some machine) × (L.capacity ≡ capacity) }
        requires name { blank.name ≡ L.name }
        requires parts { (blank.parts ≡ L.parts) × (L.parts ≡ 2 * L.all + 1) × (L.all ≡ count) }
        requires all { L.all ≡ length machine.state.hardware.shootdown.processors }
        requires capacity { IsCapacity capacity × (capacity ≤ vec_capacity self.trace) }
        requires seats { vec_len self.seats ≡ count }
        ensures count { length result.1.items ≡ count }
        ensures cpus { (i : ℕ) → i < count → slice_get result.1.items i ≡ Some (idle_cpu i) }
    {
        let Unstarted {
            room,
            trace,
            seats,
            cpus,
        } = self;
        let mut all = put_in(&*room, machine, trace, capacity, blank);
        let count_all = u64::from(count);
        let right = Right::new(all.split_off(count_all + 1, 0));
        let cpus = seated(seats, cpus, all, count);
        (
            Service {
                room,
                right,
                cpus: count_all,
            },
            cpus,
        )
    }
}

// Makes a seat for each processor.
fn seats_for<D: Device + Drop, A: Allocator + Copy, L: Origin<D>>(
    alloc: A,
    room: &Arc<Room<D, A, L>, A>,
    seen: &mut Seen,
    count: u8,
    capacity: u64,
) -> Result<Vec<Seat<D, A, L>, A>, AllocError>
    requires { seen.old ≡ nothing_seen (arc_value room.now).horizon }
    ensures { IfOk result (λ seats. vec_len seats ≡ count) }
{
    let mut seats = Vec::with_capacity(alloc, usize::from(count))?;
    for _ in 0..count {
        seats.push_reserved(Seat::new(alloc, room, seen, capacity)?);
    }
    Ok(seats)
}

// Opens the ledger, and puts the machine under the lock. Only this call sets the lock, so this can't fail.
fn put_in<D: Device + Drop, A: Allocator + Copy, L: Origin<D>>(
    room: &Room<D, A, L>,
    machine: Machine<D, A>,
    trace: Vec<Entry, A>,
    capacity: u64,
    blank: Blank,
) -> Share<L>
    requires fresh { IsFresh machine.state }
    requires origin { (L.start ≡ Some machine) × (L.capacity ≡ capacity) }
    requires blank { (blank.name ≡ L.name) × (blank.parts ≡ L.parts) }
    requires all { L.all ≡ length machine.state.hardware.shootdown.processors }
    requires trace { (trace.items ≡ []) × IsCapacity capacity × (capacity ≤ vec_capacity trace) }
    ensures { (result.parts ≡ L.parts) × (result.amount ≡ 0) }
{
    let (calls, all) = blank.open::<L>();
    let locked = Locked::new(Shared::over(machine, trace, capacity), calls);
    let _ = room.lock.try_set(Mutex::new(Ok(locked)));
    all
}

// Makes a processor from each seat, with a number and a part of the ledger.
fn seated<D: Device + Drop, A: Allocator + Copy, L: Origin<D>>(
    mut seats: Vec<Seat<D, A, L>, A>,
    mut cpus: Vec<Cpu<D, A, L>, A>,
    mut all: Share<L>,
    count: u8,
) -> Vec<Cpu<D, A, L>, A>
    requires seats { vec_len seats ≡ count }
    requires cpus { (cpus.items ≡ []) × (count ≤ vec_capacity cpus) }
    requires all { (all.parts ≡ count) × (all.amount ≡ 0) }
    ensures count { length result.items ≡ count }
    ensures cpus { (i : ℕ) → i < count → slice_get result.items i ≡ Some (idle_cpu i) }
{
    for p in 0..count {
        let seat = seats.take_last();
        cpus.push_reserved(seat.into_cpu(p, all.split_off(1, 0)));
    }
    cpus
}
