// Loads that hit the TLB, of a machine itself and of a processor of a service. `bench/calls` counts their instructions.
use crate::acts::{MAP, SWITCH, loaded};
use crate::trials::{Calls, Trial, holds};
use device::Device;
use machine::{Act, Machine, Reply, Step};
use service::{Cpu, Origin};
use std::alloc::Global;
use std::sync::Wait;

// The acts that map a page, after which the first load of it fills the TLB.
const PREPARED: [Act; 5] = [
    Act::Create,
    MAP,
    SWITCH,
    Act::Fix {
        va: 4096,
        write: false,
    },
    LOAD,
];

const LOAD: Act = Act::Load { va: 4096, count: 1 };

// Whether each of `count` loads of a machine reads zero.
pub fn are_entered<D: Device + Drop>(mut machine: Machine<D, Global>, count: u64) -> bool {
    for act in &PREPARED {
        machine.enter(&Step { p: 0, act: *act });
    }
    match loaded(0) {
        Some(zero) => reads(&mut machine, count, &zero),
        None => false,
    }
}

// Whether each of `count` loads of a machine gets this reply.
fn reads<D: Device>(machine: &mut Machine<D, Global>, count: u64, wanted: &Reply) -> bool {
    let step = Step { p: 0, act: LOAD };
    for _ in 0..count {
        if machine.enter(&step) != *wanted {
            return false;
        }
    }
    true
}

// Whether each of `count` loads of the only processor reads zero.
pub fn are_called<D: Device, L: Origin<D>, R: Wait>(
    rt: &R,
    cpus: &mut [Cpu<D, Global, L>],
    count: u64,
) -> bool {
    let ([cpu], Some(zero)) = (cpus, loaded(0)) else {
        return false;
    };
    for act in &PREPARED {
        cpu.call(rt, *act);
    }
    is_called(rt, cpu, count, &zero)
}

// Whether each of `count` loads of a processor gets this reply.
fn is_called<D: Device, L: Origin<D>, R: Wait>(
    rt: &R,
    cpu: &mut Cpu<D, Global, L>,
    count: u64,
    wanted: &Reply,
) -> bool {
    for _ in 0..count {
        if cpu.call(rt, LOAD) != *wanted {
            return false;
        }
    }
    true
}

#[test]
fn entered_1000(rt: HostRuntime) {
    assert!(rt; holds(&rt, rt.alloc(), &Trial::Loads(1000)));
}

#[test]
fn entered_3000(rt: HostRuntime) {
    assert!(rt; holds(&rt, rt.alloc(), &Trial::Loads(3000)));
}

#[test]
fn called_1000(rt: HostRuntime) {
    assert!(rt; holds(&rt, rt.alloc(), &Trial::Served(Calls::Loads(1000))));
}

#[test]
fn called_3000(rt: HostRuntime) {
    assert!(rt; holds(&rt, rt.alloc(), &Trial::Served(Calls::Loads(3000))));
}
