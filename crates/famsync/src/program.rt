// Runs the program, from its command line to its exit status.
ghost use Rattle.std.specs.Prelude.{◌≤◌, IfOk};

use crate::reporting::{asks_for_json, report_failure};
use command_line::{Job, WordFault, read_words};
use commands::{Failure, look, make, replay, run, serve, threads};
use crashes_command::crashes;
use std::alloc::Allocator;
use std::convert::AsStr;
use std::fs::File;
use std::io;
use std::io::IsTerminal;
use std::marker::Sync;
use std::rt::Files;
use std::sync::Wait;
use std::thread::Threads;
use volume_files::SyncNote;

/// Runs the command that `words` ask for, and returns the program's exit status. The first word is the program's name.
/// Output is written to `out`, and a failure is reported in one line on `err`. If `err` is a terminal, the progress of
/// a long copy is shown there.
///
/// The exit status is:
///
/// - 0 on success.
/// - 1 if a script or a trace is refused, a replayed trace gets a different reply, or a checked volume needs opening.
/// - 2 if the words don't have a form that the help shows.
/// - 3 if a volume or a machine is refused, a reply is that the device failed, or a thread waits in vain for others.
///   Also if a file can't be made, opened or read, `out` can't be written, or memory can't be allocated.
///
/// With status 1 or 2, no file was changed.
///
/// For the command `threads`, the contract holds if the call returns, since its threads wait for one another.
pub fn perform<R, A, S, O, E>(rt: &R, alloc: A, words: &[S], out: &mut O, err: &mut E) -> u8
where
    R: Files<File = File> + Input + AllocGlobal + Threads + Wait + Sync,
    A: Allocator + Copy,
    S: AsStr,
    O: io::Write,
    E: io::Write + IsTerminal,
    ensures { result ≤ 3 }
{
    let mut note = SyncNote::Nothing;
    let asked = read_words(rt.alloc(), alloc, words);
    let done = obey(rt, alloc, asked, out, err, &mut note);
    match once_flushed(done, out.flush()) {
        Ok(status) => status,
        Err(failure) => {
            // If the report can't be written either, only the status shows the failure.
            let _ = report_failure(rt.alloc(), asks_for_json(words), &failure, &note, err);
            let _ = err.flush();
            failure.status()
        }
    }
}

// `out` is flushed even after a failure. That failure takes precedence over a failure of the flush.
fn once_flushed<'a>(
    done: Result<u8, Failure<'a>>,
    flushed: io::Result<()>,
) -> Result<u8, Failure<'a>>
    requires { IfOk done (λ status. status ≤ 3) }
    ensures { IfOk result (λ status. status ≤ 3) }
{
    let status = done?;
    flushed?;
    Ok(status)
}

// Runs the requested command. Fails if the words were refused.
fn obey<'a, R, A, O, E>(
    rt: &R,
    alloc: A,
    asked: Result<Job<'a, A>, WordFault<'a>>,
    out: &mut O,
    err: &mut E,
    note: &mut SyncNote,
) -> Result<u8, Failure<'a>>
where
    R: Files<File = File> + Input + AllocGlobal + Threads + Wait + Sync,
    A: Allocator + Copy,
    O: io::Write,
    E: io::Write + IsTerminal,
    ensures { IfOk result (λ status. status ≤ 3) }
{
    match asked? {
        Job::Look(asked) => {
            let status = look(rt, alloc, asked, out, note)?;
            return Ok(status);
        }
        Job::Replay(asked) => {
            return replay(rt, alloc, asked, out, note);
        }
        Job::Make(asked) => make(rt, alloc, asked, out, err, note)?,
        Job::Run(asked) => run(rt, alloc, asked, out, note)?,
        Job::Threads(asked) => threads(rt, asked, out, note)?,
        Job::Crashes(asked, form) => crashes(rt, alloc, asked, form, out, note)?,
        Job::Serve { disk, trust } => serve(rt, alloc, disk, trust, out, note)?,
        Job::Show(text) => out.write_all(text.as_bytes())?,
    }
    Ok(0)
}
