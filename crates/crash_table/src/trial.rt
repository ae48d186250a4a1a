// A run, made once to learn its calls, its replies and the files at its marks, and again for each crash.
ghost use Rattle.std.specs.Prelude.{◌≡◌, ◌≢◌, ◌<◌, false, List, length, map, slice_get, Some};
ghost use Rattle.std.specs.Prelude.{Ok, Err};
ghost use Rattle.std.specs.Prelude.{IfOk, IfErr, OnOk, alloc_error};
ghost use Rattle.device.specs.Memory.{new_disk, seen_of};
ghost use Rattle.volume_codec.specs.Files.{File};
ghost use Rattle.volume_codec.specs.Recovery.{RecoversTo};
ghost use Rattle.machine.specs.declared.act.Reply.TheVariants.{Marked};
ghost use Rattle.engine.specs.Engine.{HasStarted};
ghost use Rattle.machine.specs.declared.act.Shape.{Shape};
ghost use Rattle.crash_states.specs.Calls.{ListedDisk, ListsItsCalls, device_calls_of};
ghost use Rattle.crash_table.specs.Calls.{AreMade, AreCallsOf, StepsCounted, listing_memory, steps_before};
ghost use Rattle.crash_table.specs.Marks.{IsMarkOf};
ghost use Rattle.crash_table.specs.Trials.{HasItsCalls, HasNoTrial, IsNotListed, cause_of, Leaves};
ghost use Rattle.crash_table.specs.inside.Kept.{IsKept, AreKept};

use crate::crashed_run::CrashedRun;
use crate::files::{fault_of, open_files};
use crate::first_run::{FirstRun, steps_before};
use crate::found::{MarkFiles, Plan, files_at, newest};
use crate::make::run_on;
use crash_states::{Call, CrashFault, Listing};
use device::{Device, MemDisk};
use engine::ran_since_start;
use machine::{Machine, Reply, Shape, Step};
use page_entry::Refusal;
use std::alloc::{AllocError, Allocator};
use std::marker::Model;
use volume_codec::one_reading;

/// A run on a copy of a disk: its replies, its device calls, and the files at its marks.
#[derive(Drop)]
pub struct Trial<'a, A: Allocator + Copy> {
    alloc: A,
    plan: Plan<'a>,
    listed: FirstRun<A>,
    marks: Vec<MarkFiles<A>, A>,
}

impl<'a, A: Allocator + Copy> Model for Trial<'a, A> {
    ghost use Rattle.crash_states.specs.Calls.{device_calls_of};
    ghost use Rattle.crash_table.specs.Calls.{AreCallsOf};
    ghost use Rattle.crash_table.specs.Trials.{TrialValue};
    ghost use Rattle.crash_table.specs.inside.Kept.{HasKept};

    ghost Value = { TrialValue };

    ghost view = { λ t. record {
      image = t.plan.image.now;
      shape = t.plan.shape;
      steps = t.plan.steps.now;
      replies = t.listed.replies.items;
      counts = t.listed.counts.items;
      calls = device_calls_of t.listed.calls.items;
    } };

    ghost invariant = { λ t. HasKept t.plan.image.now t.plan.shape t.plan.steps.now t.listed.replies.items t.marks.items
        × AreCallsOf t.plan.image.now t.plan.shape t.plan.steps.now t.listed.replies.items t.listed.counts.items
        (device_calls_of t.listed.calls.items) };
}

// Returns a disk in memory that contains these bytes.
fn copy_of<A: Allocator + Copy>(alloc: A, image: &[u8]) -> Result<MemDisk<A>, AllocError>
    ensures { IfOk result (λ disk. disk ≡ new_disk image.now) }
{
    MemDisk::from_bytes(alloc, Vec::from_slice(alloc, image)?)
}

impl<'a, A: Allocator + Copy> Trial<'a, A> {
    /// Makes a run on a copy of a disk that contains the bytes `image`. Fails with `Refused` if `engine::start` refuses
    /// it for another cause than memory, and with `Memory` in all other cases.
    pub fn new(
        alloc: A,
        image: &'a [u8],
        shape: Shape,
        steps: &'a [Step],
    ) -> Result<Self, CrashFault>
        ensures made { IfOk result (λ trial. (trial.image ≡ image.now) × (trial.shape ≡ shape)
            × (trial.steps ≡ steps.now)) }
        ensures calls { IfOk result HasItsCalls }
        ensures refused { IfErr result (HasNoTrial image.now shape) }
    {
        let plan = Plan {
            image,
            shape,
            steps,
        };
        match list(alloc, &plan) {
            Ok(listed) => with_marks(alloc, &plan, listed),
            Err(fault) => Err(fault),
        }
    }

    /// Returns the newest mark that these replies report whose files have the bytes `found`, or 0 if there is none.
    /// Fails with `Otherwise` if these replies, up to a mark that is looked at, aren't those of the run.
    pub fn mark_of(&self, replies: &[Reply], found: &[Vec<u8, A>]) -> Result<u32, CrashFault>
        ensures { IfOk result (IsMarkOf self.now replies.now (map (λ v. v.items) found.now)) }
    {
        one_reading();
        newest(&self.marks, &self.listed.replies, replies, found)
    }

    // Returns what `crash` returns, but fails with the precise cause.
    fn left(&self, fails: u64, choice: &[u8]) -> Result<u32, CrashFault>
        ensures { IfOk result (Leaves self.now fails choice.now) }
    {
        let copy = Listing::new(self.alloc, self.plan.image, fails)?;
        let (after, replies) = run_on(self.alloc, copy, self.plan.shape, self.plan.steps)?;
        let disk = self
            .listed
            .stopped(fails, self.plan.steps, after, &replies, choice)?;
        one_reading();
        let found = open_files(self.alloc, disk)?;
        newest(&self.marks, &self.listed.replies, &replies, &found)
    }
}

impl<'a, A: Allocator + Copy> CrashedRun<A> for Trial<'a, A> {
    ghost use Rattle.std.specs.Prelude.{◌≡◌, alloc_error};
    ghost use Rattle.crash_states.specs.declared.crash_fault.CrashFault.TheVariants as faults;
    ghost use Rattle.crash_table.specs.Trials.{Leaves};

    ghost bytes = { λ trial. trial.image };

    ghost made = { λ trial. trial.calls };

    ghost replied = { λ trial. trial.replies };

    ghost counted = { λ trial. trial.counts };

    ghost leaves = { λ trial. Leaves trial };

    ghost may_fail = { λ trial why. why ≡ faults.Memory alloc_error };

    fn calls(&self) -> &[Call<A>]
        ensures calls { device_calls_of result.now ≡ self.now.calls }
        ensures run { HasItsCalls self.now }
    {
        &self.listed.calls
    }

    fn call_count(&self) -> usize
        ensures { result ≡ length self.now.calls }
    {
        self.listed.calls.len()
    }

    fn image(&self) -> &[u8]
        ensures { result.now ≡ self.now.image }
    {
        self.plan.image
    }

    fn replies(&self) -> &[Reply]
        ensures { result.now ≡ self.now.replies }
    {
        &self.listed.replies
    }

    fn replies_before(&self, call: u64) -> usize
        ensures { result ≡ steps_before self.now.counts call }
    {
        steps_before(&self.listed.counts, call)
    }

    /// The files that are found are always those at a mark, and never older than those at the last acknowledged mark.
    /// Fails with `Otherwise` exactly if `choice` isn't as long as the disk. Every other failure is `Memory`, even if
    /// the lack of memory only led to other replies.
    fn crash(&self, fails: u64, choice: &[u8]) -> Result<u32, CrashFault>
        ensures leaves { IfOk result (Leaves self.now fails choice.now) }
        ensures otherwise { length choice.now ≢ length self.now.image → result ≡ Err CrashFault.Otherwise }
        ensures memory { length choice.now ≡ length self.now.image
            → IfErr result (λ why. why ≡ CrashFault.Memory alloc_error) }
    {
        if choice.len() != self.image().len() {
            return Err(CrashFault::Otherwise);
        }
        match self.left(fails, choice) {
            Ok(mark) => Ok(mark),
            // Unless memory is refused, the opening and each step have the same replies as the first time.
            Err(_again) => Err(CrashFault::Memory(AllocError)),
        }
    }

    // Each call is within the disk, and so is what a crash leaves, so only memory can have been refused.
    fn cause(&self, _fault: CrashFault) -> CrashFault {
        CrashFault::Memory(AllocError)
    }
}

// Returns a run that was made once, with the files at its marks.
fn with_marks<'a, A: Allocator + Copy>(
    alloc: A,
    plan: &Plan<'a>,
    listed: FirstRun<A>,
) -> Result<Trial<'a, A>, CrashFault>
    requires files { (files : List File) × RecoversTo plan.now.image.now files }
    requires calls { AreCallsOf plan.now.image.now plan.now.shape plan.now.steps.now listed.replies.items
        listed.counts.items (device_calls_of listed.calls.items) }
    ensures made { IfOk result (λ trial. (trial.image ≡ plan.now.image.now) × (trial.shape ≡ plan.now.shape)
        × (trial.steps ≡ plan.now.steps.now)) }
    ensures calls { IfOk result HasItsCalls }
    ensures memory { IfErr result (λ why. why ≡ CrashFault.Memory alloc_error) }
{
    match marks_of(alloc, plan, &listed.replies) {
        Ok(marks) => Ok(Trial {
            alloc,
            plan: *plan,
            listed,
            marks,
        }),
        // Unless memory is refused, the steps up to a mark have the same replies as the first time.
        Err(_) => Err(CrashFault::Memory(AllocError)),
    }
}

// Makes a run once on a copy of a disk. On success a machine was started on it, so its bytes recover to files.
fn list<A: Allocator + Copy>(alloc: A, plan: &Plan<'_>) -> Result<FirstRun<A>, CrashFault>
    ensures files { IfOk result (λ listed. (files : List File) × RecoversTo plan.now.image.now files) }
    ensures calls { IfOk result (λ listed.
        AreCallsOf plan.now.image.now plan.now.shape plan.now.steps.now listed.replies.items listed.counts.items
        (device_calls_of listed.calls.items)) }
    ensures refused { IfErr result (HasNoTrial plan.now.image.now plan.now.shape) }
{
    match Listing::new(alloc, plan.image, 0) {
        Ok(disk) => list_on(alloc, disk, plan),
        Err(_) => Err(CrashFault::Memory(AllocError)),
    }
}

// Makes a run on a disk once.
fn list_on<A: Allocator + Copy>(
    alloc: A,
    disk: Listing<A>,
    plan: &Plan<'_>,
) -> Result<FirstRun<A>, CrashFault>
    ensures files { IfOk result (λ listed. (files : List File) × RecoversTo (seen_of disk.inner) files) }
    ensures calls { IfOk result (λ listed. AreMade disk plan.now.shape plan.now.steps.now listed.replies.items
        listed.counts.items (device_calls_of listed.calls.items)) }
    ensures refused { IfErr result (IsNotListed disk plan.now.shape) }
{
    match engine::start(alloc, disk, plan.shape) {
        Ok(machine) => memory_alone(list_steps(alloc, machine, plan.steps)),
        Err(refused) => Err(why_refused(refused)),
    }
}

// Why a machine wasn't started on a disk in memory.
fn why_refused<A: Allocator + Copy>(refused: (Refusal, Listing<A>)) -> CrashFault
    ensures { result ≡ cause_of refused.0 }
{
    let (refusal, _disk) = refused;
    fault_of(refusal)
}

// Once the machine was started, only memory can have been refused.
fn memory_alone<A: Allocator + Copy>(
    listed: Result<FirstRun<A>, CrashFault>,
) -> Result<FirstRun<A>, CrashFault>
    ensures same { IfOk result (λ run. listed ≡ Ok run) }
    ensures memory { IfErr result (λ why. why ≡ CrashFault.Memory alloc_error) }
{
    match listed {
        Ok(run) => Ok(run),
        Err(_) => Err(CrashFault::Memory(AllocError)),
    }
}

// Returns the replies to the steps of a run, and the number of device calls after each.
fn note_steps<D: Device + Drop, A: Allocator + Copy>(
    alloc: A,
    machine: &mut Machine<D, A>,
    steps: &[Step],
) -> Result<(Vec<Reply, A>, Vec<u64, A>), AllocError>
    ensures { IfOk result (λ noted.
        StepsCounted D.Device machine.old steps.now noted.0.items noted.1.items machine.new) }
{
    let mut replies = Vec::new(alloc);
    let mut counts = Vec::new(alloc);
    for step in steps {
        replies.push(machine.enter(step))?;
        counts.push(machine.device().calls())?;
    }
    Ok((replies, counts))
}

/// Returns the calls that a disk lists. Fails if one of them failed, since a call fails if memory is refused.
pub fn calls_of<A: Allocator + Copy>(disk: Listing<A>) -> Result<Vec<Call<A>, A>, CrashFault>
    ensures complete { IfOk result (λ calls. (disk.refused ≡ false) × (device_calls_of calls.items ≡ disk.calls)) }
    ensures are_its { IfOk result (λ calls. ListsItsCalls disk) }
    ensures sound { IfOk result (λ calls. disk.faults ≡ 0) }
{
    if disk.faults() > 0 {
        return Err(CrashFault::Memory(AllocError));
    }
    let (_, calls) = disk.into_parts()?;
    Ok(calls)
}

// Makes the steps of a run, and lists the device calls that opened the volume and those that the steps made.
fn list_steps<A: Allocator + Copy>(
    alloc: A,
    mut machine: Machine<Listing<A>, A>,
    steps: &[Step],
) -> Result<FirstRun<A>, CrashFault>
    ensures { (before : ListedDisk) (shape : Shape) → HasStarted listing_memory before shape machine
        → IfOk result (λ listed. AreMade before shape steps.now listed.replies.items listed.counts.items
        (device_calls_of listed.calls.items)) }
{
    let noted = note_steps(alloc, &mut machine, steps);
    ran_since_start(&machine);
    let calls = calls_of(machine.into_device());
    let (replies, counts) = noted?;
    Ok(FirstRun {
        replies,
        counts,
        calls: calls?,
    })
}

// Returns the files at each mark that these replies report.
fn marks_of<A: Allocator + Copy>(
    alloc: A,
    plan: &Plan<'_>,
    replies: &[Reply],
) -> Result<Vec<MarkFiles<A>, A>, CrashFault>
    ensures { (files : List File) → RecoversTo plan.now.image.now files → IfOk result (λ marks.
        AreKept files plan.now.shape plan.now.steps.now replies.now marks.items) }
{
    let mut marks = Vec::new(alloc);
    for at in 0..replies.len() {
        add_mark(alloc, plan, replies, at, &mut marks)?;
    }
    Ok(marks)
}

// Adds the files at the mark that the step of an index made, if it made one.
fn add_mark<A: Allocator + Copy>(
    alloc: A,
    plan: &Plan<'_>,
    replies: &[Reply],
    at: usize,
    marks: &mut Vec<MarkFiles<A>, A>,
) -> Result<(), CrashFault>
    requires { at < length replies.now }
    ensures { (files : List File) → RecoversTo plan.now.image.now files
        → AreKept files plan.now.shape plan.now.steps.now replies.now marks.old.items
        → OnOk result (AreKept files plan.now.shape plan.now.steps.now replies.now marks.new.items) }
{
    if let Reply::Marked(number) = replies[at] {
        let mark = mark_of(alloc, plan, replies, at, number)?;
        marks.push(mark)?;
    }
    Ok(())
}

// Returns the files at the mark that the step with this index made.
fn mark_of<A: Allocator + Copy>(
    alloc: A,
    plan: &Plan<'_>,
    replies: &[Reply],
    at: usize,
    number: u32,
) -> Result<MarkFiles<A>, CrashFault>
    requires { slice_get replies.now at ≡ Some (Marked number) }
    ensures step { IfOk result (λ mark. mark.step ≡ at) }
    ensures kept { (files : List File) → RecoversTo plan.now.image.now files → IfOk result (λ mark.
        IsKept files plan.now.shape plan.now.steps.now replies.now at mark) }
{
    let disk = copy_of(alloc, plan.image)?;
    let files = files_at(alloc, disk, plan.shape, plan.steps, replies, at, number)?;
    Ok(MarkFiles { step: at, files })
}
