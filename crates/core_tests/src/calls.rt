// The reply to each call with ample memory, full traces, and missing `Cpu` values.
ghost use Rattle.machine.specs.Fresh.{IsFresh};

use crate::acts::{MSYNC, entry};
use crate::trials::{Calls, Trial, holds};
use device::Device;
use machine::{Act, Machine, ProcState, Reply, Step};
use page_entry::Refusal;
use service::{Cpu, Entry, Origin, Shared};
use std::alloc::Global;
use std::sync::Wait;

const FULL: Reply = Reply::Refused(Refusal::TraceFull);

// Whether a machine is shared with a trace of at most two entries.
pub fn is_shared<D: Device + Drop>(alloc: Global, machine: Machine<D, Global>) -> bool
    requires { IsFresh machine.state }
{
    match Shared::new(alloc, machine, 2) {
        Ok(mut shared) => enters_two(&mut shared),
        Err(_) => false,
    }
}

// Whether the first two steps are made, and the next is refused because the trace is full.
fn enters_two<D: Device>(shared: &mut Shared<D, Global>) -> bool {
    shared.progress() == 0
        && !shared.is_full()
        && shared.enter(0, Act::Create) == Reply::Space(1)
        && !shared.is_full()
        && shared.enter(1, Act::Idle) == Reply::Idled
        && shared.is_full()
        && has_made_two(shared)
        && shared.enter(0, Act::Create) == FULL
        && has_made_two(shared)
}

// Whether a machine and its trace have made exactly the two steps of `enters_two`.
fn has_made_two<D: Device>(shared: &Shared<D, Global>) -> bool {
    shared.progress() == 2
        && shared.look(0) == Ok((ProcState::Active, 2))
        && shared.look(1) == Ok((ProcState::Idle, 2))
        && shared.look(2) == Err(Refusal::Einval)
        && shared.trace()
            == [
                entry(0, Act::Create, Reply::Space(1)),
                entry(1, Act::Idle, Reply::Idled),
            ]
            .as_slice()
}

// Whether a processor has this state and progress, this number of calls, and sees this horizon.
fn is_at<D: Device, L: Origin<D>, R: Wait>(
    rt: &R,
    cpu: &mut Cpu<D, Global, L>,
    look: (ProcState, u64),
    calls: u64,
    horizon: (u64, u64),
) -> bool {
    cpu.look(rt) == look && cpu.calls() == calls && cpu.horizon(rt) == horizon
}

// Whether two processors are as expected after the three calls of `fills`.
fn have_made_three<D: Device, L: Origin<D>, R: Wait>(
    rt: &R,
    first: &mut Cpu<D, Global, L>,
    second: &mut Cpu<D, Global, L>,
) -> bool {
    is_at(rt, first, (ProcState::Active, 3), 2, (1, 1))
        && is_at(rt, second, (ProcState::Idle, 3), 1, (1, 1))
        && first.wait(rt, 3, 1)
        && first.answered() == [(MSYNC, Reply::Begun), (Act::Change, Reply::Marked(1))].as_slice()
        && second.answered() == [(Act::Idle, Reply::Idled)].as_slice()
}

// Whether three calls get a machine's replies, and a fourth is refused. The second of two processors sleeps, and a wait
// of the first one sees this. The first one then makes a mark with no store before it.
pub fn fills<D: Device, L: Origin<D>, R: Wait>(rt: &R, cpus: &mut [Cpu<D, Global, L>]) -> bool {
    let [first, second] = cpus else {
        return false;
    };
    is_at(rt, first, (ProcState::Active, 0), 0, (0, 0))
        && is_at(rt, second, (ProcState::Active, 0), 0, (0, 0))
        && !first.wait(rt, 0, 40)
        && second.call(rt, Act::Idle) == Reply::Idled
        && first.wait(rt, 0, 1)
        && !first.wait(rt, 1, 40)
        && is_at(rt, second, (ProcState::Idle, 1), 1, (0, 0))
        && first.call(rt, MSYNC) == Reply::Begun
        && is_at(rt, first, (ProcState::Initiating, 2), 1, (0, 0))
        && first.call(rt, Act::Change) == Reply::Marked(1)
        && have_made_three(rt, first, second)
        && first.call(rt, Act::Create) == FULL
        && second.call(rt, Act::Wake) == FULL
        && have_made_three(rt, first, second)
}

// Whether a trace has these three entries. Its machine must be as after them, with no space made.
pub fn is_of_three<D: Device>(machine: &mut Machine<D, Global>, trace: &[Entry]) -> bool {
    trace
        == [
            entry(1, Act::Idle, Reply::Idled),
            entry(0, MSYNC, Reply::Begun),
            entry(0, Act::Change, Reply::Marked(1)),
        ]
        .as_slice()
        && machine.state(0) == Ok(ProcState::Active)
        && machine.state(1) == Ok(ProcState::Idle)
        && machine.step(&Step {
            p: 0,
            act: Act::Create,
        }) == Reply::Space(1)
}

// Whether the first of two processors is called once, and the second is never called.
pub fn calls_once<D: Device, L: Origin<D>, R: Wait>(
    rt: &R,
    cpus: &mut [Cpu<D, Global, L>],
) -> bool {
    let [first, second] = cpus else {
        return false;
    };
    second.calls() == 0 && first.call(rt, Act::Create) == Reply::Space(1)
}

// Whether a trace has this one entry, and its machine is as after it.
pub fn is_of_one<D: Device>(machine: &Machine<D, Global>, trace: &[Entry]) -> bool {
    trace == [entry(0, Act::Create, Reply::Space(1))].as_slice()
        && machine.state(1) == Ok(ProcState::Active)
}

#[test]
fn a_machine_is_shared_with_its_trace(rt: HostRuntime) {
    assert!(rt; holds(&rt, rt.alloc(), &Trial::Shared));
}

#[test]
fn a_service_is_not_gathered_without_an_idle_processor(rt: HostRuntime) {
    assert!(rt; holds(&rt, rt.alloc(), &Trial::Served(Calls::One)));
}

#[test]
fn no_call_is_entered_in_a_trace_that_is_full(rt: HostRuntime) {
    assert!(rt; holds(&rt, rt.alloc(), &Trial::Served(Calls::Three)));
}
