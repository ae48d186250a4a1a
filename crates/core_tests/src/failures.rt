// Volumes with a log on a disk on which one call fails. The program and the library's core make these calls otherwise:
// the program through a machine, and the core records them for a host.
use device::{Device, FailingDisk, MemDisk};
use log_codec::Sealing;
use log_files::LogFiles;
use log_format::format_log;
use page_entry::{FilePage, Refusal};
use std::alloc::Global;
use std::process::Abort;
use volume_codec::FileSpec;

type Disk = FailingDisk<MemDisk<Global>>;

type Files = LogFiles<Disk, Global>;

#[derive(Clone, Copy)]
enum Step {
    // Puts a page of file 0.
    Put(u32),
    Read(u32),
    Length(u64),
    Commit,
    Step,
}

// Two commits in a log of 8 blocks, of which the first has a length. Then steps that write them home and move the
// start, and another commit.
const STEPS: [Step; 16] = [
    Step::Length(12_288),
    Step::Put(0),
    Step::Commit,
    Step::Put(1),
    Step::Commit,
    Step::Read(2),
    Step::Step,
    Step::Step,
    Step::Step,
    Step::Step,
    Step::Step,
    Step::Step,
    Step::Step,
    Step::Step,
    Step::Put(2),
    Step::Commit,
];

// Returns a disk with a new volume, whose call of this number fails.
fn disk_of<R: Abort + AllocGlobal>(rt: &R, sealing: Sealing, fails: u64) -> Disk {
    let specs = [
        FileSpec {
            name: "a",
            length: 5000,
            capacity: 16_384,
        },
        FileSpec {
            name: "b",
            length: 100,
            capacity: 100,
        },
    ];
    let mut disk = MemDisk::new(rt.alloc(), 73_728).expect(rt, "a disk");
    format_log(rt.alloc(), &mut disk, sealing, &specs, 8).expect(rt, "a volume");
    FailingDisk::new(disk, fails)
}

fn put(files: &mut Files, file: u16, page: u32) -> Result<(), Refusal> {
    files.put(FilePage { file, page }, &[0x51; 4096])
}

// Makes a step. Returns why it was refused, if it was.
fn refused(files: &mut Files, step: Step) -> Option<Refusal> {
    match step {
        Step::Put(page) => put(files, 0, page).err(),
        Step::Read(page) => files.read(FilePage { file: 0, page }, &mut [0; 4096]).err(),
        Step::Length(length) => files.set_length(0, length).err(),
        Step::Commit => files.commit().err(),
        Step::Step => files.step().err(),
    }
}

// Makes the steps up to the first that is refused. Returns that step, and why it was refused.
fn first_refused(files: &mut Files) -> Option<(Step, Refusal)> {
    for step in STEPS {
        if let Some(refusal) = refused(files, step) {
            return Some((step, refusal));
        }
    }
    None
}

// Whether nothing is committed any more. Reads succeed, and refusals have their order.
fn is_broken(files: &mut Files) -> bool {
    refused(files, Step::Commit) == Some(Refusal::Broken)
        && refused(files, Step::Step) == Some(Refusal::Broken)
        && refused(files, Step::Put(0)) == Some(Refusal::Broken)
        && refused(files, Step::Put(3)) == Some(Refusal::Einval)
        && put(files, 2, 0).err() == Some(Refusal::NoFile)
        && refused(files, Step::Length(4096)) == Some(Refusal::Broken)
        && refused(files, Step::Length(12_288)).is_none()
        && refused(files, Step::Length(16_385)) == Some(Refusal::Einval)
}

// Whether a step was refused because of the device, and what follows is as it must be: after a failed commit or step
// nothing is committed, and after a failed read or length all goes on.
fn is_right_after(files: &mut Files, step: Step, refusal: Refusal, call: u64) -> bool {
    let is_device = refusal == Refusal::Device
        && files.device().calls() == call
        && files.device().faults() == 1;
    match step {
        Step::Commit | Step::Step => {
            is_device
                && is_broken(files)
                && files.device().calls() == call
                && refused(files, Step::Read(2)).is_none()
        }
        Step::Put(_) => false,
        Step::Read(_) | Step::Length(_) => {
            is_device && refused(files, step).is_none() && refused(files, Step::Commit).is_none()
        }
    }
}

// How a run ends whose call of this number fails: no call fails, since there are fewer; or one fails, and the answers
// are as they must be, or aren't.
#[derive(Clone, Copy, Debug, PartialEq, Eq)]
enum End {
    Whole,
    Right,
    Wrong,
}

fn end_of<R: Abort + AllocGlobal>(rt: &R, sealing: Sealing, call: u64) -> End {
    let right = match LogFiles::open(rt.alloc(), disk_of(rt, sealing, call), 4) {
        Ok(mut files) => match first_refused(&mut files) {
            Some((step, refusal)) => is_right_after(&mut files, step, refusal, call),
            None => return End::Whole,
        },
        Err((refusal, disk)) => {
            refusal == Refusal::Device && disk.calls() == call && disk.faults() == 1
        }
    };
    if right { End::Right } else { End::Wrong }
}

// Checks the answers for each failing call. Returns the number of calls of a whole run.
fn fail_each<R: Abort + AllocGlobal>(rt: &R, sealing: Sealing) -> u64 {
    for call in 1..200 {
        match end_of(rt, sealing, call) {
            End::Whole => return call - 1,
            End::Right => {}
            End::Wrong => panic!(rt; "at call {call}"),
        }
    }
    200
}

// The opening makes 11 calls, and the length a read. The commits make 4, 4 and 5 calls in layout 5, and 2, 2 and 3 in
// layout 6. The read makes one call, and the steps make 12.
#[test]
fn each_call_fails(rt: HostRuntime) {
    let by_byte = fail_each(&rt, Sealing::ByByte);
    assert!(rt; by_byte == 38, "{by_byte} calls");
    let by_digest = fail_each(&rt, Sealing::ByDigest(0x0123_4567_89ab_cdef));
    assert!(rt; by_digest == 32, "{by_digest} calls");
}
