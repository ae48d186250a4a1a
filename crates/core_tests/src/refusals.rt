// Tests of a machine over the disk of a file, which takes no memory itself. They check which acts request memory, and
// how often. They also check the result of a run for each request that may be refused.
use counting_alloc::CountingAllocator;
use device::{Device, FileDisk, MemDisk};
use machine::{Act, Machine, Reply, Shape, Step};
use page_entry::Refusal;
use recovery::{Volume, format_as, open};
use scripts::{parsed, read_step};
use shootdown::ProcState;
use std::alloc::Global;
use std::fs;
use std::fs::{File, OpenOptions};
use std::process::Abort;
use std::rt::Files;
use volume_codec::FileSpec;

// What the tests need from the runtime.
trait Host: Files<File = File> + AllocGlobal + Abort {}

impl<R: Files<File = File> + AllocGlobal + Abort> Host for R {}

type Counting = CountingAllocator<Global>;

type Disk = FileDisk<File>;

type Trial<'a> = Machine<Disk, &'a Counting>;

// A line of the scripts below: a step, its reply when memory is ample, the number of times it is made, and the number
// of its requests for memory. The defaults are once and no requests.
#[derive(Clone, Copy)]
struct Row<'a> {
    step: &'a str,
    wanted: &'a str,
    times: u64,
    requests: u64,
}

impl<'a> Row<'a> {
    fn read<R: Host>(rt: &R, line: &'a str) -> Row<'a> {
        let (step, answer) = line.split_once(" -> ").expect(rt, "a step and its answer");
        let (wanted, counted) = answer.split_once(", ").unwrap_or((answer, ""));
        Row {
            step,
            wanted,
            times: number_before(rt, counted, " time").unwrap_or(1),
            requests: number_before(rt, counted, " request").unwrap_or(0),
        }
    }
}

// Returns the number before a word, if the text contains the word.
fn number_before<R: Host>(rt: &R, text: &str, word: &str) -> Option<u64> {
    let (number, _) = text.split_once(word)?;
    Some(number.parse().ok().expect(rt, "a number"))
}

// A commit of stores by both processors, until it is done. The second processor also stores after it was interrupted.
// Then holes in a mapping, and in the rights of another; a second space; and each act that takes no memory.
const LAYOUT_ONE: &str = r#"[0,"create"] -> space 1, 3 requests
[0,"map",1,4096,12288,0,0,"rw","rw"] -> mapped, 3 requests
[0,"map",1,16384,4096,1,0,"rw","rw"] -> mapped
[0,"switch",1,"drop"] -> switched
[1,"switch",1,"drop"] -> switched
[0,"store",4096,[65]] -> fault 6
[0,"fix",4096,"write"] -> fixed
[0,"store",4096,[65]] -> stored
[1,"load",4096,1] -> bytes 65
[0,"msync",4096,4096,4] -> begun
[1,"store",4097,[66]] -> stored
[0,"change"] -> notyet 1
[1,"ack"] -> acked
[1,"store",4098,[67]] -> stalled
[0,"change"] -> marked 1
[1,"resume"] -> resumed
[1,"store",4098,[67]] -> fault 7
[0,"flush"] -> going, 4 times
[0,"flush"] -> committed 1
[0,"flush"] -> going, 3 times
[0,"flush"] -> done 1
[0,"flush"] -> nothing
[0,"map",1,32768,12288,0,0,"rw","rw"] -> mapped
[0,"protect",1,36864,4096,"r"] -> begun, 1 request
[1,"ack"] -> acked
[0,"change"] -> protected
[1,"resume"] -> resumed
[0,"map",1,49152,4096,1,0,"rw","rw"] -> mapped
[0,"map",1,57344,4096,1,0,"rw","rw"] -> mapped
[0,"map",1,65536,4096,1,0,"rw","rw"] -> mapped
[0,"unmap",1,8192,4096] -> begun, 1 request
[1,"ack"] -> acked
[0,"change"] -> unmapped
[1,"resume"] -> resumed
[0,"create"] -> space 2, 3 requests
[0,"map",2,4096,4096,1,0,"rw","rw"] -> mapped, 3 requests
[1,"switch",2,"keep"] -> switched
[1,"fix",4096,"read"] -> fixed
[1,"fill",1] -> filled
[1,"evict",0] -> evicted
[1,"idle"] -> idled
[1,"wake"] -> woken
[1,"switch",1,"keep"] -> switched
[0,"reclaim",1,0] -> begun
[0,"change"] -> reclaimed
[0,"destroy",2] -> destroyed
[0,"setlength",0,5000] -> einval
[0,"create"] -> space 2, 3 requests"#;

// Four mappings of three pages, of which an unmap splits the first. Three mappings far apart. A protect that splits the
// second mapping, and one more mapping beside them. Spaces until their list grows. An unmap of the end of a mapping.
const SPLITS: &str = r#"[0,"create"] -> space 1, 3 requests
[0,"map",1,4096,12288,0,0,"rw","rw"] -> mapped, 3 requests
[0,"map",1,20480,12288,0,0,"rw","rw"] -> mapped
[0,"map",1,36864,12288,0,0,"rw","rw"] -> mapped
[0,"map",1,53248,12288,0,0,"rw","rw"] -> mapped
[0,"unmap",1,8192,4096] -> begun, 1 request
[0,"change"] -> unmapped
[0,"map",1,1099511627776,4096,0,0,"rw","rw"] -> mapped, 2 requests
[0,"map",1,2199023255552,4096,0,0,"rw","rw"] -> mapped, 2 requests
[0,"map",1,4398046511104,4096,0,0,"rw","rw"] -> mapped
[0,"protect",1,24576,4096,"r"] -> begun, 1 request
[0,"change"] -> protected
[0,"map",1,122880,4096,0,0,"rw","rw"] -> mapped
[0,"create"] -> space 2, 3 requests
[0,"create"] -> space 3, 3 requests
[0,"create"] -> space 4, 4 requests
[0,"map",4,4096,4096,0,0,"rw","rw"] -> mapped, 3 requests
[0,"unmap",1,61440,4096] -> begun
[0,"change"] -> unmapped"#;

// A file grows by a page, and shrinks again. The commit in between contains its length and its pages.
const LAYOUT_THREE: &str = r#"[0,"create"] -> space 1, 3 requests
[0,"map",1,4096,12288,0,0,"rw","rw"] -> mapped, 3 requests
[0,"switch",1,"drop"] -> switched
[1,"switch",1,"drop"] -> switched
[1,"fix",8192,"read"] -> fixed
[1,"store",8192,[1]] -> stored
[0,"setlength",0,9000] -> begun
[1,"ack"] -> acked
[0,"change"] -> resized
[1,"resume"] -> resumed
[0,"fix",12288,"write"] -> fixed
[0,"store",12288,[7]] -> stored
[1,"msync",0,0,1] -> begun
[0,"ack"] -> acked
[1,"change"] -> marked 1
[0,"resume"] -> resumed
[1,"fix",12288,"write"] -> fixed
[1,"store",12288,[8]] -> stored
[0,"flush"] -> going, 6 times
[0,"flush"] -> committed 1
[0,"flush"] -> going, 5 times
[0,"flush"] -> done 1
[0,"setlength",0,4096] -> begun
[1,"ack"] -> acked
[0,"change"] -> resized
[1,"resume"] -> resumed"#;

// A run: the volume's layout, the capacity and the bytes of its file `a`, the machine's frames, and the steps. `calls`
// is the number of device calls of the opening and the steps.
#[derive(Clone, Copy)]
struct Run {
    layout: u64,
    capacity: u64,
    bytes: u64,
    frames: u64,
    steps: &'static str,
    calls: u64,
}

const FIRST: Run = Run {
    layout: 1,
    capacity: 5000,
    bytes: 40_960,
    frames: 4,
    steps: LAYOUT_ONE,
    calls: 15,
};

const SPLIT: Run = Run {
    layout: 1,
    capacity: 5000,
    bytes: 40_960,
    frames: 4,
    steps: SPLITS,
    calls: 3,
};

const THIRD: Run = Run {
    layout: 3,
    capacity: 12_288,
    bytes: 73_728,
    frames: 3,
    steps: LAYOUT_THREE,
    calls: 22,
};

impl Run {
    // Returns the bytes of the run's volume, which has files of zeros.
    fn image<R: Host>(&self, rt: &R) -> Vec<u8> {
        let specs = [
            FileSpec {
                name: "a",
                length: 5000,
                capacity: self.capacity,
            },
            FileSpec {
                name: "b",
                length: 4096,
                capacity: 4096,
            },
        ];
        let mut disk = MemDisk::new(rt.alloc(), self.bytes).expect(rt, "a disk");
        format_as(rt.alloc(), &mut disk, self.layout, &specs, 4).expect(rt, "a volume");
        disk.bytes().to_vec(rt.alloc()).expect(rt, "memory")
    }

    // Two processors with TLBs of 8 entries, and 2 copy frames.
    fn shape(&self) -> Shape {
        Shape {
            cpus: 2,
            tlb: 8,
            frames: self.frames,
            copies: 2,
        }
    }

    // Returns the number of requests for memory of all steps. A step that is made several times makes none.
    fn requests<R: Host>(&self, rt: &R) -> u64 {
        let mut sum: u64 = 0;
        for line in self.steps.lines() {
            sum = sum.wrapping_add(Row::read(rt, line).requests);
        }
        sum
    }

    // Makes the steps on a file with these bytes, and returns the file's bytes afterwards. Refuses the request of this
    // number, unless it is 0.
    fn left<R: Host>(&self, rt: &R, path: &str, image: &[u8], refused: u64) -> Vec<u8> {
        let alloc = Counting::new(rt.alloc());
        let volume = opened(rt, &alloc, disk_over(rt, path, image));
        let mut machine = booted(rt, &alloc, volume, self.shape());
        alloc.restart();
        alloc.refuse_nth(refused);
        make_all(rt, &alloc, &mut machine, self.steps);
        let calls = machine.into_device().calls();
        assert!(rt; calls == self.calls, "{calls} device calls");
        assert!(rt;
            alloc.refused() == u64::from(refused > 0),
            "request {refused}"
        );
        fs::read(rt, path).ok().expect(rt, "the file")
    }

    // Refuses each request in turn, and returns the file's bytes. All bytes, and all replies but one, must be as with
    // ample memory.
    fn refuse_each<R: Host>(&self, rt: &R, path: &str) -> Vec<u8> {
        let image = self.image(rt);
        let ample = self.left(rt, path, &image, 0);
        for refused in 1..self.requests(rt).saturating_add(1) {
            let left = self.left(rt, path, &image, refused);
            assert!(rt; left == ample, "request {refused}");
        }
        assert!(rt; fs::remove_file(rt, path).is_ok());
        ample
    }
}

// Writes these bytes to the file at a path, and returns a disk over the file.
fn disk_over<R: Host>(rt: &R, path: &str, image: &[u8]) -> Disk {
    assert!(rt; fs::write(rt, path, image).is_ok());
    let file = OpenOptions::new()
        .read(true)
        .write(true)
        .open(rt, path)
        .ok()
        .expect(rt, "the file");
    match FileDisk::over(file) {
        Ok(disk) => disk,
        Err(_) => panic!(rt; "{path}"),
    }
}

// Opens the volume on this disk, with memory that is counted.
fn opened<'a, R: Host>(rt: &R, alloc: &'a Counting, disk: Disk) -> Volume<Disk, &'a Counting> {
    match open(alloc, disk) {
        Ok(volume) => volume,
        Err((refusal, _)) => panic!(rt; "{refusal}"),
    }
}

// Boots a machine over this volume, with memory that is counted.
fn booted<'a, R: Host>(
    rt: &R,
    alloc: &'a Counting,
    volume: Volume<Disk, &'a Counting>,
    shape: Shape,
) -> Trial<'a> {
    match Machine::boot(alloc, volume, shape) {
        Ok(machine) => machine,
        Err((refusal, _)) => panic!(rt; "{refusal}"),
    }
}

// Reads a step from its text.
fn step_of<R: Host>(rt: &R, text: &str) -> Step {
    let Ok(value) = parsed(rt.alloc(), text) else {
        panic!(rt; "{text}");
    };
    match read_step(&value) {
        Ok(step) => step,
        Err(_) => panic!(rt; "{text}"),
    }
}

// Whether a reply is printed as this text.
fn is_printed<R: Host>(rt: &R, reply: &Reply, wanted: &str) -> bool {
    let printed = format!(in rt.alloc(); "{reply}").expect(rt, "memory");
    printed.as_str() == wanted
}

// Returns the states of both processors.
fn states(machine: &Trial) -> [Result<ProcState, Refusal>; 2] {
    [machine.state(0), machine.state(1)]
}

// Makes a step, and once more if its request was refused. Checks the reply.
fn make<R: Host>(rt: &R, alloc: &Counting, machine: &mut Trial, row: Row) {
    let text = row.step;
    let step = step_of(rt, text);
    let before = states(machine);
    let refused = alloc.refused();
    let asked = alloc.requests();
    let mut reply = reply_to(machine, &step);
    if alloc.refused() == refused {
        let made = alloc.requests().wrapping_sub(asked);
        assert!(rt; made == row.requests, "{text}: {made} requests");
    } else {
        assert!(rt;
            reply == Reply::Refused(Refusal::OutOfMemory),
            "{text}: {reply}"
        );
        assert!(rt; states(machine) == before && is_unlocked(machine), "{text}");
        reply = reply_to(machine, &step);
    }
    assert!(rt; is_printed(rt, &reply, row.wanted), "{text}: {reply}");
}

// Makes each step the number of times in its line.
fn make_all<R: Host>(rt: &R, alloc: &Counting, machine: &mut Trial, steps: &str) {
    for line in steps.lines() {
        let row = Row::read(rt, line);
        for _ in 0..row.times {
            make(rt, alloc, machine, row);
        }
    }
}

// Makes a step, and returns the reply.
fn reply_to(machine: &mut Trial, step: &Step) -> Reply {
    machine.step(step)
}

// Whether no change is under way. Otherwise another processor is refused, because the lock is held.
fn is_unlocked(machine: &mut Trial) -> bool {
    let change = Step {
        p: 1,
        act: Act::Change,
    };
    reply_to(machine, &change) == Reply::Nothing
}

// Returns the length of the first file of a volume with these bytes, and the file's first bytes.
fn first_file<R: Host>(rt: &R, bytes: Vec<u8>) -> (u64, [u8; 3]) {
    let disk = MemDisk::from_bytes(rt.alloc(), bytes).expect(rt, "memory");
    let Ok(mut volume) = open(rt.alloc(), disk) else {
        panic!(rt; "the volume isn't opened");
    };
    let mut first = [0xEE; 3];
    if volume.file_count() == 0 {
        return (0, first);
    }
    let length = volume.length(0);
    if length >= 3 {
        assert!(rt; volume.read_file(0, 0, &mut first).is_ok());
    }
    (length, first)
}

// The commit contains the stores made before the other processor stalled.
#[test]
fn a_commit_and_splits_are_refused_memory(rt: HostRuntime) {
    let left = FIRST.refuse_each(&rt, "a_commit_and_splits_are_refused_memory");
    assert!(rt; first_file(&rt, left) == (5000, [65, 66, 0]));
}

// This run splits mappings, and stores nothing.
#[test]
fn splits_of_mappings_are_refused_memory(rt: HostRuntime) {
    let left = SPLIT.refuse_each(&rt, "splits_of_mappings_are_refused_memory");
    assert!(rt; first_file(&rt, left) == (5000, [0, 0, 0]));
}

#[test]
fn a_length_and_its_commit_are_refused_memory(rt: HostRuntime) {
    let left = THIRD.refuse_each(&rt, "a_length_and_its_commit_are_refused_memory");
    assert!(rt; first_file(&rt, left) == (9000, [0, 0, 0]));
}
