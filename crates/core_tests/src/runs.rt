// Steps of a machine that are made by one call.
use device::MemDisk;
use machine::{Act, FewBytes, Machine, Reply, Shape, Step};
use mappings::Rights;
use page_entry::Refusal;
use recovery::{format_as, open};
use std::alloc::Global;
use std::process::Abort;
use volume_codec::FileSpec;

type Trial = Machine<MemDisk<Global>, Global>;

const SPECS: [FileSpec; 1] = [FileSpec {
    name: "a",
    length: 5000,
    capacity: 5000,
}];

const ONE: Shape = Shape {
    cpus: 1,
    tlb: 8,
    frames: 4,
    copies: 2,
};

// Boots a machine over a volume of zeros.
fn booted<R: Abort + AllocGlobal>(rt: &R) -> Trial {
    let mut disk = MemDisk::new(rt.alloc(), 40_960).expect(rt, "a disk");
    format_as(rt.alloc(), &mut disk, 1, &SPECS, 4).expect(rt, "a volume");
    let Ok(volume) = open(rt.alloc(), disk) else {
        panic!(rt; "the volume isn't opened");
    };
    match Machine::boot(rt.alloc(), volume, ONE) {
        Ok(machine) => machine,
        Err((refusal, _)) => panic!(rt; "{refusal}"),
    }
}

fn by_first(act: Act) -> Step {
    Step { p: 0, act }
}

const MAP: Act = Act::Map {
    space: 1,
    va: 4096,
    len: 4096,
    file: 0,
    offset: 0,
    prot: Rights::ReadWrite,
    access: Rights::ReadWrite,
};

const SWITCH: Act = Act::Switch {
    space: 1,
    keep: false,
};

const FIX: Act = Act::Fix {
    va: 4096,
    write: true,
};

// A store of these bytes to the first page of `a`.
fn store(bytes: FewBytes) -> Step {
    by_first(Act::Store { va: 4096, bytes })
}

// Returns these steps: make a space that maps this page, store with a fault, serve the fault, and store again.
fn steps_of_a_store(bytes: FewBytes) -> [Step; 6] {
    [
        by_first(Act::Create),
        by_first(MAP),
        by_first(SWITCH),
        store(bytes),
        by_first(FIX),
        store(bytes),
    ]
}

const REPLIES: [Reply; 6] = [
    Reply::Space(1),
    Reply::Mapped,
    Reply::Switched,
    Reply::Refused(Refusal::Fault(6)),
    Reply::Fixed,
    Reply::Stored,
];

// Whether a machine answers these steps at once as it answers them one by one, and then makes another step.
fn is_made_at_once(machine: &mut Trial, steps: &[Step; 6]) -> bool {
    let mut replies = [Reply::Nothing; 6];
    machine.run(steps, &mut replies);
    replies == REPLIES && machine.step(&by_first(Act::Create)) == Reply::Space(2)
}

#[test]
fn steps_are_made_at_once(rt: HostRuntime) {
    let steps = steps_of_a_store(FewBytes::new(&[65]).expect(&rt, "a byte"));
    let mut machine = booted(&rt);
    assert!(rt; is_made_at_once(&mut machine, &steps));
    let _disk = machine.into_device();
}
