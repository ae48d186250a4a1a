// Tests of waits that run out, of a commit that a thread waits for, and of refusals, which return the disk.
use device::{Device, MemDisk};
use driver::{Ended, NotRun, run_programs};
use machine::Reply;
use page_entry::Refusal;
use recovery::format_as;
use scripts::ThreadScript;
use service::Entry;
use std::alloc::Global;
use std::sync::Wait;
use std::thread::Threads;
use volume_codec::FileSpec;

const SPECS: [FileSpec; 1] = [FileSpec {
    name: "a",
    length: 16_384,
    capacity: 16_384,
}];

const BYTES: u64 = 45_056;

// The number of times that a wait looks for progress.
const TURNS: u64 = 1000;

// Returns a disk of zeros, or `None` without memory.
fn blank(alloc: Global) -> Option<MemDisk<Global>> {
    MemDisk::new(alloc, BYTES).ok()
}

// Returns a disk with a volume of four pages of zeros.
fn formatted(alloc: Global) -> Option<MemDisk<Global>> {
    let mut disk = blank(alloc)?;
    if format_as(alloc, &mut disk, 1, &SPECS, 4).is_ok() {
        Some(disk)
    } else {
        None
    }
}

// A script, the number of entries of the final trace, if no thread can change it, and how the threads end.
#[derive(Clone, Copy)]
struct Case {
    text: &'static str,
    entries: Option<usize>,
    ended: Ended,
}

const CASES: [Case; 7] = [
    // No processor stores the byte. The program makes only a fault, its service and one load.
    Case {
        text: r#"{"cpus":1,"tlb":2,"frames":4,"copies":0,"trace":100,"steps":[[0,"create"],[0,"map",1,4096,4096,0,0,"rw","rw"],[0,"switch",1,"drop"]],"programs":[[["await",4096,1],["store",4096,[2]]]]}"#,
        entries: Some(6),
        ended: Ended::RanOut,
    },
    // The same, but these entries fill the trace. The wait sees that, and doesn't run out.
    Case {
        text: r#"{"cpus":1,"tlb":2,"frames":4,"copies":0,"trace":6,"steps":[[0,"create"],[0,"map",1,4096,4096,0,0,"rw","rw"],[0,"switch",1,"drop"]],"programs":[[["await",4096,1],["store",4096,[2]]]]}"#,
        entries: Some(6),
        ended: Ended::Full,
    },
    // A step puts the processor to sleep, and nothing wakes it. Its first act is refused once.
    Case {
        text: r#"{"cpus":1,"tlb":2,"frames":4,"copies":0,"trace":100,"steps":[[0,"idle"]],"programs":[[["load",4096,1]]]}"#,
        entries: Some(2),
        ended: Ended::RanOut,
    },
    // No act was refused before the wait. Both threads end, and only the waiting one is reported.
    Case {
        text: r#"{"cpus":2,"tlb":2,"frames":4,"copies":0,"trace":100,"steps":[[0,"create"],[0,"map",1,4096,4096,0,0,"rw","rw"],[0,"switch",1,"drop"],[1,"switch",1,"drop"]],"programs":[[],[["await",4096,1]]]}"#,
        entries: None,
        ended: Ended::RanOut,
    },
    // The trace has room for one of the two steps, for both, or for more than the program makes.
    Case {
        text: r#"{"cpus":1,"tlb":2,"frames":4,"copies":0,"trace":1,"steps":[[0,"create"],[0,"switch",1,"drop"]],"programs":[[]]}"#,
        entries: Some(1),
        ended: Ended::Full,
    },
    Case {
        text: r#"{"cpus":1,"tlb":2,"frames":4,"copies":0,"trace":3,"steps":[[0,"create"],[0,"switch",1,"drop"]],"programs":[[]]}"#,
        entries: Some(3),
        ended: Ended::Full,
    },
    Case {
        text: r#"{"cpus":1,"tlb":2,"frames":4,"copies":0,"trace":5,"steps":[[0,"create"],[0,"switch",1,"drop"]],"programs":[[]]}"#,
        entries: Some(4),
        ended: Ended::Done,
    },
];

// Whether the programs of a case end as it states, over a disk with a fresh volume.
fn ends<D: Device + Send + Drop, R: Threads + Wait + Sync>(
    rt: &R,
    alloc: Global,
    disk: D,
    script: &ThreadScript<Global>,
    case: &Case,
) -> bool {
    match run_programs(rt, alloc, disk, script, TURNS) {
        Ok(ran) => {
            ran.ended == case.ended
                && ran.trace.len() == case.entries.unwrap_or(ran.trace.len())
                && ran.device.len() == BYTES
        }
        Err(_) => false,
    }
}

fn ends_on_a_volume<R: Threads + Wait + Sync>(
    rt: &R,
    alloc: Global,
    script: &ThreadScript<Global>,
    case: &Case,
) -> bool {
    match formatted(alloc) {
        Some(disk) => ends(rt, alloc, disk, script, case),
        None => false,
    }
}

fn holds<R: Threads + Wait + Sync>(rt: &R, alloc: Global, case: &Case) -> bool {
    match ThreadScript::read(alloc, alloc, case.text.as_bytes()) {
        Ok(script) => ends_on_a_volume(rt, alloc, &script, case),
        Err(_) => false,
    }
}

// A wait that runs out ends its thread, and is distinguished from a full trace.
#[test]
fn programs_end_as_they_should(rt: HostRuntime) {
    for case in &CASES {
        assert!(rt; holds(&rt, rt.alloc(), case), "{}", case.text);
    }
}

// The program loads a byte after an `msync` with `MS_SYNC`.
const SYNCED: &str =
    r#"{"cpus":1,"tlb":2,"frames":4,"copies":0,"trace":100,"steps":[[0,"create"],[0,"map",1,4096,4096,0,0,"rw","rw"],[0,"switch",1,"drop"]],"programs":[[["store",4096,[2]],["msync",4096,4096,4],["load",4096,1]]]}"#;

// Whether a trace contains a commit, and loads only after it.
fn loads_after_a_commit(trace: &[Entry]) -> bool {
    let committed = trace
        .iter()
        .position(|entry| matches!(entry.reply, Reply::Committed(_)));
    let loaded = trace
        .iter()
        .position(|entry| matches!(entry.reply, Reply::Bytes(_)));
    match (committed, loaded) {
        (Some(committed), Some(loaded)) => committed < loaded,
        _ => false,
    }
}

fn waits_for_its_commit<D: Device + Send + Drop, R: Threads + Wait + Sync>(
    rt: &R,
    alloc: Global,
    disk: Option<D>,
) -> bool {
    let Some(disk) = disk else {
        return false;
    };
    match ThreadScript::read(alloc, alloc, SYNCED.as_bytes()) {
        Ok(script) => match run_programs(rt, alloc, disk, &script, TURNS) {
            Ok(ran) => ran.ended == Ended::Done && loads_after_a_commit(&ran.trace),
            Err(_) => false,
        },
        Err(_) => false,
    }
}

// After such an `msync`, a thread continues once its mark is committed.
#[test]
fn a_sync_is_waited_for(rt: HostRuntime) {
    assert!(rt; waits_for_its_commit(&rt, rt.alloc(), formatted(rt.alloc())));
}

// Why programs weren't run, and the length of the disk that was returned.
#[derive(Clone, Copy)]
enum Cause {
    Start(Refusal, u64),
    Share(Refusal, u64),
    Other,
}

fn cause_of<D: Device + Send + Drop, R: Threads + Wait + Sync>(
    rt: &R,
    alloc: Global,
    disk: Option<D>,
    script: &ThreadScript<Global>,
) -> Cause {
    let Some(disk) = disk else {
        return Cause::Other;
    };
    match run_programs(rt, alloc, disk, script, TURNS) {
        Err(NotRun::Start(refusal, disk)) => Cause::Start(refusal, disk.len()),
        Err(NotRun::Share(refusal, disk)) => Cause::Share(refusal, disk.len()),
        _ => Cause::Other,
    }
}

const EMPTY: &str =
    r#"{"cpus":1,"tlb":2,"frames":4,"copies":0,"trace":0,"steps":[],"programs":[[]]}"#;

// Whether a disk without a volume is returned, and so is one if no trace can have the script's capacity.
fn come_back<R: Threads + Wait + Sync>(rt: &R, alloc: Global) -> bool {
    match ThreadScript::read(alloc, alloc, EMPTY.as_bytes()) {
        Ok(script) => {
            matches!(
                cause_of(rt, alloc, blank(alloc), &script),
                Cause::Start(Refusal::NotAVolume, BYTES)
            ) && matches!(
                cause_of(rt, alloc, formatted(alloc), &script),
                Cause::Share(Refusal::BadShape, BYTES)
            )
        }
        Err(_) => false,
    }
}

#[test]
fn refusals_hand_the_disk_back(rt: HostRuntime) {
    assert!(rt; come_back(&rt, rt.alloc()));
}
