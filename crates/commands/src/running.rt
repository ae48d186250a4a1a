// Runs a script on the volume in a file.
ghost use Rattle.std.specs.Prelude.{◌≡◌, ◌↔◌, IsOk, IsErr, IfErr, IsNone, IfSome};
ghost use Rattle.engine.specs.Engine.{HasRun};
ghost use Rattle.machine_log.specs.Runs.{HasRunOnLog};
ghost use Rattle.commands.specs.Printed.{IsPrintedRun};
ghost use Rattle.commands.specs.inside.Failure.{IsFailedStep};

use crate::failure::Failure;
use crate::log::show_log;
use crate::printer::Printer;
use crate::script::read_script;
use crate::scripted::{run_script, run_script_on_log};
use crate::shape::{NotBooted, refused_to_run};
use command_line::Scripted;
use device::Device;
use machine::Shape;
use page_entry::Refusal;
use scripts::Script;
use std::alloc::Allocator;
use std::fs::File;
use std::io;
use std::rt::Files;
use volume_files::{SyncNote, has_log, open_to_write, place, refused_to_read};

/// Runs a script on the volume in a file. Prints the reply of each step before the next one is made. The script is read
/// whole before the disk is opened. `note` receives the note on syncs that failed.
pub fn run<'a, R: Files<File = File> + AllocGlobal, A: Allocator + Copy, W: io::Write>(
    rt: &R,
    alloc: A,
    asked: Scripted<'a>,
    out: &mut W,
    note: &mut SyncNote,
) -> Result<(), Failure<'a>> {
    let steps = read_script(rt, alloc, asked.script)?;
    let place = place(rt, asked.disk)?;
    let disk = open_to_write(rt, asked.disk, &place, asked.trust, note)?;
    let mut printer = Printer::new(out);
    let (booted, disk) = run_on_any(alloc, disk, &steps, &mut printer);
    *note = disk.into_file().into_note();
    match booted {
        Ok(()) => outcome(asked.script, printer),
        Err(cause) => Err(cause.of_file(asked.disk)),
    }
}

// Runs a script on the volume of a device, with journals or with a log. Returns the device.
fn run_on_any<'a, D: Device, A: Allocator + Copy, W: io::Write + Drop>(
    alloc: A,
    mut device: D,
    script: &Script<A>,
    printer: &mut Printer<W>,
) -> (Result<(), NotBooted<'a>>, D) {
    match has_log(&mut device) {
        Ok(false) => run_on(alloc, device, script, printer),
        Ok(true) => run_on_log(alloc, device, script, printer),
        Err(refusal) => {
            let cause = refused_to_run(alloc, refusal, &mut device, script.shape);
            (Err(cause), device)
        }
    }
}

// Runs a script on the volume with a log of a device. Returns the device.
fn run_on_log<'a, D: Device, A: Allocator + Copy, W: io::Write + Drop>(
    alloc: A,
    device: D,
    script: &Script<A>,
    printer: &mut Printer<W>,
) -> (Result<(), NotBooted<'a>>, D)
    ensures ran { IsOk result.0 → IsPrintedRun W.contents (HasRunOnLog D.Device device script.now.shape)
        script.now.steps.items printer.old printer.new result.1 }
    ensures refused { IsErr result.0 → printer.new ≡ printer.old }
{
    match run_script_on_log(alloc, device, script, printer) {
        Ok(device) => (Ok(()), device),
        Err((refusal, device)) => {
            let (cause, device) = refused_on_log(alloc, refusal, device, script.shape);
            (Err(cause), device)
        }
    }
}

// Returns the error for a script that wasn't run on the volume with a log of a device. For a bad shape, the disk that
// shows the volume has the limits to report.
fn refused_on_log<'a, D: Device, A: Allocator + Copy>(
    alloc: A,
    refusal: Refusal,
    mut device: D,
    shape: Shape,
) -> (NotBooted<'a>, D) {
    if refusal != Refusal::BadShape {
        let cause = NotBooted::Disk(refused_to_read(alloc, refusal, &mut device));
        return (cause, device);
    }
    match show_log(alloc, device) {
        Ok(mut disk) => {
            let cause = refused_to_run(alloc, refusal, &mut disk, shape);
            (cause, disk.into_device())
        }
        Err(refused) => refused,
    }
}

// Runs a script on the volume with journals of a device. Returns the device.
fn run_on<'a, D: Device, A: Allocator + Copy, W: io::Write + Drop>(
    alloc: A,
    device: D,
    script: &Script<A>,
    printer: &mut Printer<W>,
) -> (Result<(), NotBooted<'a>>, D)
    ensures ran { IsOk result.0 → IsPrintedRun W.contents (HasRun D.Device device script.now.shape)
        script.now.steps.items printer.old printer.new result.1 }
    ensures refused { IsErr result.0 → printer.new ≡ printer.old }
{
    match run_script(alloc, device, script, printer) {
        Ok(device) => (Ok(()), device),
        Err((refusal, mut device)) => {
            let cause = refused_to_run(alloc, refusal, &mut device, script.shape);
            (Err(cause), device)
        }
    }
}

// Returns the outcome of a printed run. It is an error if the output failed, or a reply reported that the device
// failed.
fn outcome<W: io::Write + Drop>(path: &str, printer: Printer<W>) -> Result<(), Failure<'_>>
    ensures ok { IsOk result ↔ (IsNone printer.fault × IsNone printer.failure) }
    ensures failed { IfErr result (λ failure. IsNone printer.fault → IfSome printer.failure (IsFailedStep failure)) }
{
    let Printer {
        out: _,
        count: _,
        failure,
        fault,
    } = printer;
    match (fault, failure) {
        (Some(fault), _) => Err(Failure::Output(fault)),
        (None, Some(step)) => Err(Failure::Step { path, step }),
        (None, None) => Ok(()),
    }
}
