// Runs the programs of a script in threads, on the volume in a file.
ghost use Rattle.std.specs.Prelude.{◌≡◌, IfOk, length, map};
ghost use Rattle.engine.specs.Engine.{HasRun};
ghost use Rattle.service.specs.Trace.{steps_of, replies_of};
ghost use Rattle.driver.specs.Driver.{IsEnd};
ghost use Rattle.driver.specs.Programs.{HaveRunPrograms};
ghost use Rattle.commands.specs.inside.Tracing.{HasRunOnShown};

use crate::failure::Failure;
use crate::reply::is_failure;
use crate::shape::{NotBooted, ShapeCause, refused_to_run};
use command_line::Scripted;
use device::Device;
use driver::{Ended, NotRun, Ran, run_programs};
use machine_log::LogDisk;
use page_entry::Refusal;
use scripts::{ScriptFault, ThreadScript};
use service::Entry;
use std::alloc::{AllocError, Global};
use std::fs::File;
use std::io;
use std::marker::Sync;
use std::rt::Files;
use std::sync::Wait;
use std::thread::Threads;
use traces::{write_entry, write_shape};
use volume_files::{
    SuspectFlag, SyncNote, ThreadDisk, for_threads, has_log, open_to_write, place, read_file,
    refused_to_read,
};

/// The number of times that a waiting thread checks whether another one made progress, before it gives up.
const TURNS: u64 = 100_000_000;

/// Runs the programs of a script in threads on the volume in a file. Once all threads have ended, it prints the trace
/// of all steps that were made. The whole script is read before the disk is opened. If the call returns, `note`
/// contains the message about syncs that failed.
pub fn threads<'a, R, W>(
    rt: &R,
    asked: Scripted<'a>,
    out: &mut W,
    note: &mut SyncNote,
) -> Result<(), Failure<'a>>
where
    R: Files<File = File> + AllocGlobal + Threads + Wait + Sync,
    W: io::Write,
{
    let programs = read_programs(rt, asked.script)?;
    let place = place(rt, asked.disk)?;
    let disk = open_to_write(rt, asked.disk, &place, asked.trust, note)?;
    let (disk, mark) = for_threads(disk, asked.disk, note)?;
    match trace_any(rt, disk, &programs) {
        Ok(ran) => {
            let Ran {
                device,
                trace,
                ended,
            } = ran;
            *note = device.into_file().into_note(mark);
            print_trace(rt.alloc(), &programs, &trace, out)?;
            outcome(asked.script, &trace, ended)
        }
        Err((cause, disk)) => {
            note_syncs(disk, mark, note);
            Err(cause.of_files(asked))
        }
    }
}

/// Why programs weren't run on the volume of a device, or their run left no trace.
#[derive(Clone, Copy)]
enum NotTraced<'a> {
    /// No machine was booted, or its trace can't have this number of entries.
    NotBooted(NotBooted<'a>),
    /// Memory was refused for the trace.
    Memory,
    /// The trace doesn't match the replies that the threads got.
    Gather(Refusal),
}

impl<'a> NotTraced<'a> {
    // Returns this failure for the script and the volume in a file.
    fn of_files(self, asked: Scripted<'a>) -> Failure<'a> {
        match self {
            NotTraced::NotBooted(cause) => cause.of_file(asked.disk),
            NotTraced::Memory => Failure::Memory(AllocError),
            NotTraced::Gather(cause) => Failure::Gather {
                path: asked.script,
                cause,
            },
        }
    }
}

// Runs programs on the volume of a device, with journals or with a log. On failure it returns the device, if it is
// still there.
fn trace_any<'a, D, R>(
    rt: &R,
    mut device: D,
    programs: &ThreadScript<Global>,
) -> Result<Ran<D>, (NotTraced<'a>, Option<D>)>
where
    D: Device + Send + Drop,
    R: AllocGlobal + Threads + Wait + Sync,
{
    match has_log(&mut device) {
        Ok(false) => trace_disk(rt, device, programs),
        Ok(true) => trace_log(rt, device, programs),
        Err(refusal) => {
            let cause = refused_to_run(rt.alloc(), refusal, &mut device, programs.shape);
            Err((NotTraced::NotBooted(cause), Some(device)))
        }
    }
}

// Runs programs on a device's volume with a log, by means of the disk that shows it.
fn trace_log<'a, D, R>(
    rt: &R,
    device: D,
    programs: &ThreadScript<Global>,
) -> Result<Ran<D>, (NotTraced<'a>, Option<D>)>
where
    D: Device + Send + Drop,
    R: AllocGlobal + Threads + Wait + Sync,
    ensures ran { IfOk result (λ ran. HasRunOnShown D.Device device programs.now.shape (steps_of ran.trace.items)
        (replies_of ran.trace.items) ran.device) }
    ensures programs { IfOk result (λ ran. HaveRunPrograms programs.now.shape.cpus programs.now.steps.items
        (map (λ program. program.items) programs.now.programs.items) programs.now.trace ran.trace.items) }
    ensures ended { IfOk result (λ ran. IsEnd programs.now.trace (length ran.trace.items) ran.ended) }
{
    match LogDisk::open(rt.alloc(), device) {
        Ok(disk) => match trace_disk(rt, disk, programs) {
            Ok(ran) => {
                ran.device.crashes_alike();
                Ok(ran_on_device(ran))
            }
            Err((cause, disk)) => Err((cause, device_of(disk))),
        },
        Err((refusal, mut device)) => {
            let cause = NotBooted::Disk(refused_to_read(rt.alloc(), refusal, &mut device));
            Err((NotTraced::NotBooted(cause), Some(device)))
        }
    }
}

// Returns a run over the disk that shows a volume as a run over the volume's device.
fn ran_on_device<D: Device>(ran: Ran<LogDisk<D, Global>>) -> Ran<D>
    ensures { result ≡ record { device = ran.device.device; trace = ran.trace; ended = ran.ended } }
{
    let Ran {
        device: disk,
        trace,
        ended,
    } = ran;
    Ran {
        device: disk.into_device(),
        trace,
        ended,
    }
}

// Returns the device of the volume that a disk shows, if the disk came back.
fn device_of<D: Device>(disk: Option<LogDisk<D, Global>>) -> Option<D> {
    match disk {
        Some(disk) => Some(disk.into_device()),
        None => None,
    }
}

// Runs programs on a device's volume with journals.
fn trace_disk<'a, D, R>(
    rt: &R,
    device: D,
    programs: &ThreadScript<Global>,
) -> Result<Ran<D>, (NotTraced<'a>, Option<D>)>
where
    D: Device + Send + Drop,
    R: AllocGlobal + Threads + Wait + Sync,
    ensures ran { IfOk result (λ ran. HasRun D.Device device programs.now.shape (steps_of ran.trace.items)
        (replies_of ran.trace.items) ran.device) }
    ensures programs { IfOk result (λ ran. HaveRunPrograms programs.now.shape.cpus programs.now.steps.items
        (map (λ program. program.items) programs.now.programs.items) programs.now.trace ran.trace.items) }
    ensures ended { IfOk result (λ ran. IsEnd programs.now.trace (length ran.trace.items) ran.ended) }
{
    match run_programs(rt, rt.alloc(), device, programs, TURNS) {
        Ok(ran) => Ok(ran),
        Err(refused) => Err(not_traced(rt.alloc(), programs, refused)),
    }
}

fn read_programs<'a, R>(rt: &R, path: &'a str) -> Result<ThreadScript<Global>, Failure<'a>>
where
    R: Files<File = File> + AllocGlobal,
{
    let text = read_file(rt, rt.alloc(), path)?;
    match ThreadScript::read(rt.alloc(), rt.alloc(), &text) {
        Ok(script) => Ok(script),
        Err(ScriptFault::Memory(cause)) => Err(Failure::Memory(cause)),
        Err(cause) => Err(Failure::Script { path, cause }),
    }
}

// Prints a line with the shape and the room of the trace, and a line for each entry.
fn print_trace<'a, W: io::Write>(
    global: Global,
    script: &ThreadScript<Global>,
    trace: &[Entry],
    out: &mut W,
) -> Result<(), Failure<'a>> {
    let first = write_shape(global, script.shape, script.trace)?;
    writeln!(out, "{first}")?;
    for entry in trace {
        let line = write_entry(global, &entry.step, &entry.reply)?;
        writeln!(out, "{line}")?;
    }
    Ok(())
}

// Returns how the programs whose trace was printed ended: a wait timed out, a device failed in an act, or neither.
fn outcome<'a>(path: &'a str, trace: &[Entry], ended: Ended) -> Result<(), Failure<'a>> {
    if ended == Ended::RanOut {
        return Err(Failure::Wait { path });
    }
    match trace.iter().position(|entry| is_failure(&entry.reply)) {
        Some(i) => Err(Failure::Act {
            path,
            entry: i as u64 + 1,
        }),
        None => Ok(()),
    }
}

// Returns why programs weren't run, or left no trace, and the device if it came back.
fn not_traced<'a, D: Device>(
    global: Global,
    programs: &ThreadScript<Global>,
    refused: NotRun<D>,
) -> (NotTraced<'a>, Option<D>) {
    match refused {
        NotRun::Start(refusal, mut device) => {
            let cause = refused_to_run(global, refusal, &mut device, programs.shape);
            (NotTraced::NotBooted(cause), Some(device))
        }
        NotRun::Share(refusal, device) => (not_shared(refusal, programs.trace), Some(device)),
        NotRun::Gather(cause, device) => (NotTraced::Gather(cause), device),
    }
}

// Returns why no machine was shared with a trace of this number of entries.
fn not_shared<'a>(refusal: Refusal, entries: u64) -> NotTraced<'a> {
    match refusal {
        Refusal::BadShape => NotTraced::NotBooted(NotBooted::Shape(ShapeCause::Trace(entries))),
        _ => NotTraced::Memory,
    }
}

// If a sync of a disk that came back failed, marks its volume as suspect, and notes the message about that.
fn note_syncs<R>(disk: Option<ThreadDisk>, mark: SuspectFlag<'_, R>, note: &mut SyncNote)
where
    R: Files<File = File> + AllocGlobal,
{
    if let Some(disk) = disk {
        *note = disk.into_file().into_note(mark);
    }
}
