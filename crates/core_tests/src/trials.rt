// Trials of a machine, and of a service over it. Contracts treat the disk as any device, because this costs the least.
ghost use Rattle.std.specs.Prelude.{◌≡◌, ◌+◌, ◌*◌, length, Some};
ghost use Rattle.machine.specs.Fresh.{IsFresh};

use crate::shapes::{formatted, shape};
use crate::{calls, loads};
use device::Device;
use engine::start;
use machine::Machine;
use page_entry::Refusal;
use service::{Cpu, Entry, Origin, Service};
use std::alloc::Global;
use std::marker::Brand;
use std::sync::Wait;
use std::sync::ledger::Blank;

// How a machine is tried.
pub enum Trial {
    // Two steps through `Shared`, which fill its trace.
    Shared,
    // This number of loads, made on the machine itself.
    Loads(u64),
    // Calls to the processors of a service over it.
    Served(Calls),
}

// The calls to the processors of a service.
pub enum Calls {
    // This number of loads by one processor. This service isn't gathered, so that only the loads are counted.
    Loads(u64),
    // One call to the first of two processors.
    One,
    // Three calls to two processors, which fill the trace.
    Three,
}

impl Trial {
    fn cpus(&self) -> u64 {
        match self {
            Trial::Shared => 2,
            Trial::Loads(_) => 1,
            Trial::Served(calls) => calls.cpus(),
        }
    }
}

impl Calls {
    fn cpus(&self) -> u64 {
        match self {
            Calls::Loads(_) => 1,
            Calls::One | Calls::Three => 2,
        }
    }

    // Returns the largest number of entries of the trace.
    fn capacity(&self) -> u64 {
        match self {
            Calls::Loads(_) => 3_010,
            Calls::One | Calls::Three => 3,
        }
    }

    // Whether the processors of a service that has just started return the expected replies.
    fn are_answered<D: Device + Drop, L: Origin<D>, R: Wait>(
        &self,
        rt: &R,
        cpus: &mut [Cpu<D, Global, L>],
    ) -> bool {
        match self {
            Calls::Loads(count) => loads::are_called(rt, cpus, *count),
            Calls::One => calls::calls_once(rt, cpus),
            Calls::Three => calls::fills(rt, cpus),
        }
    }

    // Whether the machine and the trace are as expected after these calls.
    fn are_kept<D: Device>(&self, machine: &mut Machine<D, Global>, trace: &[Entry]) -> bool {
        match self {
            Calls::Loads(_) => true,
            Calls::One => calls::is_of_one(machine, trace),
            Calls::Three => calls::is_of_three(machine, trace),
        }
    }
}

// Whether a trial succeeds. For a gathered service, another machine is booted on an equal disk, and answers the steps
// of the trace in the same way. Both disks must then have equal bytes.
pub fn holds<R: Wait>(rt: &R, alloc: Global, trial: &Trial) -> bool {
    let (Some(mut disk), Some(mut equal)) = (formatted(alloc), formatted(alloc)) else {
        return false;
    };
    holds_anew(rt, alloc, &mut disk, &mut equal, trial) && disk.bytes() == equal.bytes()
}

fn holds_anew<D: Device + Drop, R: Wait>(
    rt: &R,
    alloc: Global,
    disk: D,
    equal: D,
    trial: &Trial,
) -> bool {
    match start(alloc, equal, shape(trial.cpus())) {
        Ok(mut again) => holds_on(rt, alloc, disk, &mut again, trial),
        Err(_) => false,
    }
}

fn holds_on<D: Device + Drop, R: Wait>(
    rt: &R,
    alloc: Global,
    disk: D,
    again: &mut Machine<D, Global>,
    trial: &Trial,
) -> bool {
    match start(alloc, disk, shape(trial.cpus())) {
        Ok(machine) => holds_of(rt, alloc, machine, again, trial),
        Err(_) => false,
    }
}

fn holds_of<D: Device + Drop, R: Wait>(
    rt: &R,
    alloc: Global,
    machine: Machine<D, Global>,
    again: &mut Machine<D, Global>,
    trial: &Trial,
) -> bool
    requires { IsFresh machine.state }
{
    match trial {
        Trial::Shared => calls::is_shared(alloc, machine),
        Trial::Loads(count) => loads::are_entered(machine, *count),
        Trial::Served(calls) => {
            // The service's name refers to this machine.
            let blank = Blank::new(2 * u64::from(machine.processors()) + 1);
            served::<D, Brand, R>(rt, alloc, machine, calls.capacity(), blank, again, calls)
        }
    }
}

fn served<D: Device + Drop, L: Origin<D>, R: Wait>(
    rt: &R,
    alloc: Global,
    machine: Machine<D, Global>,
    capacity: u64,
    blank: Blank,
    again: &mut Machine<D, Global>,
    calls: &Calls,
) -> bool
    requires fresh { IsFresh machine.state }
    requires origin { (L.start ≡ Some machine) × (L.capacity ≡ capacity) }
    requires name { blank.name ≡ L.name }
    requires parts { (blank.parts ≡ L.parts) × (L.parts ≡ 2 * L.all + 1)
        × (L.all ≡ length machine.state.hardware.shootdown.processors) }
{
    match Service::<D, Global, L>::start(alloc, alloc, machine, capacity, blank) {
        Ok((service, cpus)) => answered(rt, service, cpus, again, calls),
        Err(_) => false,
    }
}

fn answered<D: Device + Drop, L: Origin<D>, R: Wait>(
    rt: &R,
    service: Service<D, Global, L>,
    mut cpus: Vec<Cpu<D, Global, L>>,
    again: &mut Machine<D, Global>,
    calls: &Calls,
) -> bool
    requires { L.parts ≡ 2 * L.all + 1 }
{
    let are_answered = calls.are_answered(rt, cpus.as_mut_slice());
    match calls {
        Calls::Loads(_) => are_answered,
        Calls::One | Calls::Three => { gathered(rt, service, cpus, again, calls) && are_answered }
    }
}

// Whether a service can be gathered with all processors after a first attempt without the last one. This attempt must
// fail, and return everything that it was passed. The machine and the trace must then be as expected.
fn gathered<D: Device + Drop, L: Origin<D>, R: Wait>(
    rt: &R,
    service: Service<D, Global, L>,
    mut cpus: Vec<Cpu<D, Global, L>>,
    again: &mut Machine<D, Global>,
    calls: &Calls,
) -> bool
    requires { L.parts ≡ 2 * L.all + 1 }
{
    let Some(last) = cpus.pop() else {
        return false;
    };
    let Err((refusal, service, mut cpus)) = service.gather(rt, cpus) else {
        return false;
    };
    let is_refused = cpus.push(last).is_ok() && refusal == Refusal::Einval;
    let Ok((mut machine, trace)) = service.gather(rt, cpus) else {
        return false;
    };
    let trace = trace.as_slice();
    is_refused && replays(again, trace) && calls.are_kept(&mut machine, trace)
}

// Whether a machine gives the replies of a trace to the steps of that trace.
fn replays<D: Device>(machine: &mut Machine<D, Global>, trace: &[Entry]) -> bool {
    for entry in trace {
        if machine.step(&entry.step) != entry.reply {
            return false;
        }
    }
    true
}
