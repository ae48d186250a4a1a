// Runs programs over a disk. A machine is booted over its volume and shared, and each thread has one of its processors.
ghost use Rattle.std.specs.Prelude.{ℕ, ◌≡◌, ◌≢◌, ◌↔◌, ◌+◌, ◌*◌, ◌<◌, ◌++◌, ◌∷◌, [], false, length, slice_get, Some, IsTrue};
ghost use Rattle.std.specs.Prelude.{IfOk, IfErr, map};
ghost use Rattle.engine.specs.Engine.{HasRun};
ghost use Rattle.machine.specs.Fresh.{IsFresh};
ghost use Rattle.machine.specs.State.{Whole};
ghost use Rattle.machine.specs.declared.act.Reply.{Reply};
ghost use Rattle.service.specs.Gathering.{answered_calls, idle_cpu};
ghost use Rattle.service.specs.Trace.{steps_of, replies_of};
ghost use Rattle.driver.specs.declared.running.Ended.{Ended};
ghost use Rattle.driver.specs.Driver.{AreSetUp, IsEnd, IsLeft, HasNotShared, HasNotRun};
ghost use Rattle.driver.specs.Programs.{RunsProgram, HaveRunPrograms};
ghost use Rattle.driver.specs.inside.Begun.{HaveBegun, HaveMade, HaveRun, AreReady, HasRanFrom};

use crate::acts::{Stop, is_trace_full};
use crate::commands::worked;
use device::Device;
use engine::{ran_since_start, start};
use machine::{Act, Machine, Reply, Step};
use page_entry::Refusal;
use scripts::{Command, ThreadScript};
use service::{Cpu, Entry, Origin, Service};
use std::alloc::Global;
use std::marker::Brand;
use std::sync::Wait;
use std::sync::atomic::{AtomicBool, Ordering};
use std::sync::ledger::Blank;
use std::thread::{Threads, for_each_mut};

/// The result of a run of programs: the device, the trace of all steps that were made, and how the threads ended.
#[derive(Drop)]
pub struct Ran<D> {
    pub device: D,
    pub trace: Vec<Entry>,
    pub ended: Ended,
}

/// How the threads ended.
#[derive(Clone, Copy, Debug, PartialEq, Eq)]
pub enum Ended {
    /// No wait ran out, and the trace has room for more.
    Done,
    /// No wait ran out, and the trace is full.
    Full,
    /// A wait ran out, whether the trace is full or not.
    RanOut,
}

/// Why a run of programs has no trace.
#[derive(Drop)]
pub enum NotRun<D> {
    /// The volume on the device couldn't be opened, or no machine of the shape can run on it.
    Start(Refusal, D),
    /// The machine couldn't be shared: `BadShape` if no trace can have this capacity, else `OutOfMemory`.
    Share(Refusal, D),
    /// The trace isn't what the processors were answered. No run has shown this. The device is returned if the shared
    /// machine still has it.
    Gather(Refusal, Option<D>),
}

/// Runs the programs of a script over the volume on a device, and returns the device and the trace. A machine of the
/// script's shape is booted over the volume, and shared with a trace of the script's capacity.
///
/// Before any thread starts, the processors make the steps of the script, one after the other. A step of a processor
/// that doesn't exist is left out. If the trace is full before all steps are made, no thread starts.
///
/// Then each processor gets a thread, which carries out its program. A wait of a thread looks at most `turns` times for
/// progress. If that isn't enough, the thread ends.
///
/// The trace and the device are those of a run of the engine, with all that holds of one (`HasRun`). The contract
/// doesn't promise that the threads run at the same time. If no thread can be made, they run one after the other, and
/// waits run out.
pub fn run_programs<D: Device + Send + Drop, R: Threads + Wait + Sync>(
    rt: &R,
    alloc: Global,
    device: D,
    script: &ThreadScript<Global>,
    turns: u64,
) -> Result<Ran<D>, NotRun<D>>
    ensures ran { IfOk result (λ ran. HasRun D.Device device script.now.shape (steps_of ran.trace.items)
        (replies_of ran.trace.items) ran.device) }
    ensures set_up { IfOk result (λ ran. AreSetUp script.now.shape.cpus script.now.steps.items script.now.trace
        ran.trace.items) }
    ensures programs { IfOk result (λ ran. HaveRunPrograms script.now.shape.cpus script.now.steps.items
        (map (λ program. program.items) script.now.programs.items) script.now.trace ran.trace.items) }
    ensures ended { IfOk result (λ ran. IsEnd script.now.trace (length ran.trace.items) ran.ended) }
    ensures refused { IfErr result (HasNotRun D.Device device script.now.shape script.now.trace) }
{
    match start(alloc, device, script.shape) {
        Ok(machine) => match named(rt, alloc, machine, script, turns) {
            Ok(ran) => Ok(ran),
            Err(refused) => Err(refused),
        },
        Err((refusal, device)) => Err(NotRun::Start(refusal, device)),
    }
}

// The service's name identifies this machine.
fn named<D: Device + Send + Drop, R: Threads + Wait + Sync>(
    rt: &R,
    alloc: Global,
    machine: Machine<D, Global>,
    script: &ThreadScript<Global>,
    turns: u64,
) -> Result<Ran<D>, NotRun<D>>
    requires fresh { IsFresh machine.state }
    ensures ran { IfOk result (HasRanFrom D.Device machine script.now.steps.items
        (map (λ program. program.items) script.now.programs.items) script.now.trace) }
    ensures ended { IfOk result (λ ran. IsEnd script.now.trace (length ran.trace.items) ran.ended) }
    ensures refused { IfErr result (HasNotShared D.Device machine script.now.trace) }
{
    let blank = Blank::new(2 * u64::from(machine.processors()) + 1);
    serve::<D, Brand, R>(rt, alloc, machine, script, turns, blank)
}

fn serve<D: Device + Send + Drop, L: Origin<D> + Send + Sync, R: Threads + Wait + Sync>(
    rt: &R,
    alloc: Global,
    machine: Machine<D, Global>,
    script: &ThreadScript<Global>,
    turns: u64,
    blank: Blank,
) -> Result<Ran<D>, NotRun<D>>
    requires fresh { IsFresh machine.state }
    requires origin { (L.start ≡ Some machine) × (L.capacity ≡ script.now.trace) }
    requires name { blank.name ≡ L.name }
    requires parts { (blank.parts ≡ L.parts) × (L.parts ≡ 2 * L.all + 1)
        × (L.all ≡ length machine.state.hardware.shootdown.processors) }
    ensures ran { IfOk result (HasRanFrom D.Device machine script.now.steps.items
        (map (λ program. program.items) script.now.programs.items) script.now.trace) }
    ensures ended { IfOk result (λ ran. IsEnd script.now.trace (length ran.trace.items) ran.ended) }
    ensures refused { IfErr result (HasNotShared D.Device machine script.now.trace) }
{
    match Service::<D, Global, L>::start(alloc, alloc, machine, script.trace, blank) {
        Ok((service, mut cpus)) => {
            let ran_out = carried_out(rt, &mut cpus, script, turns);
            gathered(rt, service, cpus, script, ran_out)
        }
        Err((refusal, machine, _)) => Err(NotRun::Share(refusal, machine.into_device())),
    }
}

// Makes the steps of a script, and then runs its programs, unless the steps fill the trace. Returns whether a wait ran
// out.
fn carried_out<D: Device + Send + Drop, L: Origin<D> + Send + Sync, R: Threads + Wait + Sync>(
    rt: &R,
    cpus: &mut [Cpu<D, Global, L>],
    script: &ThreadScript<Global>,
    turns: u64,
) -> bool
    requires { (i : ℕ) → i < length cpus.old → slice_get cpus.old i ≡ Some (idle_cpu i) }
    ensures { AreReady script.now.steps.items (map (λ program. program.items) script.now.programs.items)
        script.now.trace cpus.new }
{
    let are_made = make_steps(rt, cpus, &script.steps, script.trace);
    if !are_made {
        return false;
    }
    run_threads(rt, cpus, &script.steps, &script.programs, turns)
}

// Lets the processors make the steps, one after the other, until the trace is full. Returns whether all were made.
fn make_steps<D: Device, L: Origin<D>, R: Wait>(
    rt: &R,
    cpus: &mut [Cpu<D, Global, L>],
    steps: &[Step],
    capacity: u64,
) -> bool
    requires { (i : ℕ) → i < length cpus.old → slice_get cpus.old i ≡ Some (idle_cpu i) }
    ensures all { IsTrue result → HaveMade steps.now cpus.new }
    ensures full { result ≡ false → answered_calls cpus.new ≡ capacity }
    ensures begun { HaveBegun steps.now cpus.new }
{
    let mut made: u64 = 0;
    for i in 0..steps.len() {
        let step = &steps[i];
        let p = usize::from(step.p);
        if p < cpus.len() {
            if made == capacity {
                return false;
            }
            make_step(rt, &mut cpus[p], &step.act);
            made += 1;
        }
    }
    true
}

// Makes an act. The trace has room for it, so the first call is answered.
fn make_step<D: Device, L: Origin<D>, R: Wait>(
    rt: &R,
    cpu: &mut Cpu<D, Global, L>,
    act: &Act,
) -> Reply
    ensures number { cpu.new.number ≡ cpu.old.number }
    ensures answered { cpu.new.answered ≡ cpu.old.answered ++ (act.now, result) ∷ [] }
{
    for _ in rt.forever() {
        let reply = cpu.call(rt, *act);
        if !is_trace_full(&reply) {
            return reply;
        }
    }
    unreachable!()
}

// Runs the program of each processor in a thread of its own. Returns whether a wait ran out.
fn run_threads<D: Device + Send + Drop, L: Origin<D> + Send + Sync, R: Threads + Wait + Sync>(
    rt: &R,
    cpus: &mut [Cpu<D, Global, L>],
    steps: &[Step],
    programs: &[Vec<Command>],
    turns: u64,
) -> bool
    requires { HaveMade steps.now cpus.old }
    ensures { HaveRun steps.now (map (λ program. program.items) programs.now) cpus.new }
{
    let ran_out = AtomicBool::new(false);
    for_each_mut(
        rt,
        cpus,
        16,
        &|i, cpu: &mut Cpu<D, Global, L>|
            ensures { RunsProgram (slice_get (map (λ program. program.items) programs.entry.now) i) cpu.old cpu.new }
        { run_program(rt, cpu, programs, i, turns, &ran_out) },
    );
    ran_out.load(Ordering::SeqCst)
}

// Runs the program of this number, and notes whether a wait ran out.
fn run_program<D: Device, L: Origin<D>, R: Wait>(
    rt: &R,
    cpu: &mut Cpu<D, Global, L>,
    programs: &[Vec<Command>],
    number: usize,
    turns: u64,
    ran_out: &AtomicBool,
)
    ensures { RunsProgram (slice_get (map (λ program. program.items) programs.now) number) cpu.old cpu.new }
{
    if number < programs.len() {
        let end = worked(rt, cpu, turns, &programs[number]);
        note(&end, ran_out);
    }
}

// Notes whether a thread ended because a wait ran out.
fn note(end: &Result<(), Stop>, ran_out: &AtomicBool) {
    if matches!(end, Err(Stop::RanOut)) {
        ran_out.store(true, Ordering::SeqCst);
    }
}

// Returns how the threads ended. Their trace has `entries` entries, and room for `capacity`.
fn end_of(ran_out: bool, entries: u64, capacity: u64) -> Ended
    ensures end { IsEnd capacity entries result }
    ensures ran_out { IsTrue ran_out ↔ (result ≡ Ended.RanOut) }
{
    if ran_out {
        Ended::RanOut
    } else if entries == capacity {
        Ended::Full
    } else {
        Ended::Done
    }
}

// Takes the machine and the trace out of the service.
fn gathered<D: Device + Drop, L: Origin<D>, R: Wait>(
    rt: &R,
    service: Service<D, Global, L>,
    cpus: Vec<Cpu<D, Global, L>>,
    script: &ThreadScript<Global>,
    ran_out: bool,
) -> Result<Ran<D>, NotRun<D>>
    requires parts { L.parts ≡ 2 * L.all + 1 }
    requires ready { AreReady script.now.steps.items (map (λ program. program.items) script.now.programs.items)
        script.now.trace cpus.items }
    ensures ran { IfOk result (λ ran. (start : Whole D) → L.start ≡ Some start
        → HasRanFrom D.Device start script.now.steps.items
        (map (λ program. program.items) script.now.programs.items) script.now.trace ran) }
    ensures ended { IfOk result (λ ran. IsEnd script.now.trace (length ran.trace.items) ran.ended) }
    ensures refused { IfErr result (λ refused. (start : Whole D) → L.start ≡ Some start → (capacity : ℕ)
        → HasNotShared D.Device start capacity refused) }
{
    match service.gather(rt, cpus) {
        Ok((machine, trace)) => {
            ran_since_start(&machine);
            let ended = end_of(ran_out, trace.len() as u64, script.trace);
            Ok(Ran {
                device: machine.into_device(),
                trace,
                ended,
            })
        }
        Err((refusal, service, _)) => Err(NotRun::Gather(refusal, abandoned(rt, service))),
    }
}

// Takes the device out of a service that isn't gathered.
fn abandoned<D: Device + Drop, L: Origin<D>, R: Wait>(
    rt: &R,
    service: Service<D, Global, L>,
) -> Option<D>
    ensures { (start : Whole D) → L.start ≡ Some start → IsLeft D.Device start result }
{
    match service.abandon(rt) {
        Some(machine) => {
            ran_since_start(&machine);
            Some(machine.into_device())
        }
        None => None,
    }
}
