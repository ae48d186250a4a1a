// Runs a trace again, on a copy of the disk in memory.
ghost use Rattle.std.specs.Prelude.{◌≡◌, ◌<◌, ◌≤◌, List, map, length, take, slice_get, true, false, Some, None, IfOk, IfErr, IfSome, IsTrue};
ghost use Rattle.machine.specs.declared.act.Reply.{Reply};
ghost use Rattle.machine.specs.Words.{reply_text};
ghost use Rattle.engine.specs.Engine.{HasNotStarted, HasRun};
ghost use Rattle.commands.specs.inside.Replay.{is_text, texts_of, verdict_by, IsVerdict, Compares};

use crate::failure::Failure;
use crate::log::show_log;
use crate::reply::is_failure;
use crate::shape::{NotBooted, refused_to_run};
use command_line::Scripted;
use device::{Device, OverlayDisk};
use engine::Listener;
use machine::{Reply, Step};
use page_entry::Refusal;
use scripts::ScriptFault;
use std::alloc::{AllocError, Allocator, Global};
use std::fs::File;
use std::io;
use std::rt::Files;
use traces::{Line, Trace, TraceFault};
use volume_files::{Access, SyncNote, has_log, open_disk, place, read_file};

/// The verdict on a trace that was run again.
#[derive(Clone, Copy, Debug, PartialEq, Eq)]
pub enum Verdict {
    /// Each reply has the text of its entry. Contains the number of entries.
    Same(u64),
    /// The reply to the entry with this number, counted from 1, is the first that has another text.
    Differs(u64),
}

/// Compares each reply with the text of the next entry. Stops the run at the first reply with another text.
#[derive(Clone, Copy)]
pub struct Comparer<'a> {
    global: Global,
    entries: &'a [Line],
    /// The number of replies that had the text of their entry.
    same: usize,
    /// Whether the last reply had another text.
    differs: bool,
    /// Whether memory ran out for the text of the last reply.
    refused: bool,
    /// The number, counted from 1, of the first reply that reports that the device failed.
    failure: Option<u64>,
}

impl<'a> Comparer<'a> {
    fn new(global: Global, entries: &'a [Line]) -> Self
        ensures { result ≡ record {
          global = global;
          entries = entries.entry;
          same = 0;
          differs = false;
          refused = false;
          failure = None;
        } }
    {
        Comparer {
            global,
            entries,
            same: 0,
            differs: false,
            refused: false,
            failure: None,
        }
    }

    // Whether the next entry has the text of this reply.
    fn is_next(&self, reply: &Reply) -> Result<bool, AllocError>
        ensures found { IfOk result (λ is. is
            ≡ is_text (slice_get self.now.entries.now self.now.same) (reply_text reply.now)) }
        ensures within { IfOk result (λ is. IsTrue is → self.now.same < length self.now.entries.now) }
    {
        let text = format!(in self.global; "{reply}")?;
        match self.entries.get(self.same) {
            Some(entry) => Ok(entry.reply.as_str() == text.as_str()),
            None => Ok(false),
        }
    }

    // Returns the verdict, unless memory ran out.
    fn verdict(&self) -> Option<Verdict>
        ensures { IfSome result
            (λ said. verdict_by self.now.refused self.now.differs self.now.same ≡ Some said) }
    {
        let same = self.same as u64;
        if self.refused {
            None
        } else if self.differs {
            same.checked_add(1).map(Verdict::Differs)
        } else {
            Some(Verdict::Same(same))
        }
    }
}

impl Listener for Comparer<'_> {
    ghost hears = { Compares };

    fn hear(&mut self, reply: &Reply) -> bool {
        if self.failure.is_none() && is_failure(reply) {
            self.failure = Some((self.same as u64).saturating_add(1));
        }
        match self.is_next(reply) {
            Ok(true) => {
                self.same += 1;
                true
            }
            Ok(false) => {
                self.differs = true;
                false
            }
            Err(_) => {
                self.refused = true;
                false
            }
        }
    }
}

/// The result of running a trace again.
#[derive(Clone, Copy)]
pub struct Replayed {
    /// The verdict, or `None` if memory ran out.
    pub verdict: Option<Verdict>,
    /// The number of the first entry at which the device failed.
    pub failure: Option<u64>,
}

// Opens the volume of a device and boots a machine of the trace's shape. Makes the steps of the trace one at a time, up
// to the first whose reply has another text. An error returns the device.
fn replay_on<D: Device, A: Allocator + Copy>(
    global: Global,
    alloc: A,
    device: D,
    trace: &Trace<A>,
    steps: &[Step],
) -> Result<(Replayed, D), (Refusal, D)>
    requires { steps.now ≡ map (λ line. line.step) trace.now.entries.items }
    ensures ran { IfOk result (λ replayed. (replies : List Reply)
        × HasRun D.Device device trace.now.shape (take (length replies) steps.now) replies replayed.1
        × IfSome replayed.0.verdict (IsVerdict (texts_of trace.now.entries.items) replies)) }
    ensures refused { IfErr result (λ refused. HasNotStarted D.Device device trace.now.shape refused.1 refused.0) }
{
    let mut comparer = Comparer::new(global, &trace.entries);
    match engine::run(alloc, device, trace.shape, steps, &mut comparer) {
        Ok(device) => Ok((
            Replayed {
                verdict: comparer.verdict(),
                failure: comparer.failure,
            },
            device,
        )),
        Err(refused) => Err(refused),
    }
}

// Returns the steps of the entries, in order.
fn steps_of<A: Allocator + Copy>(alloc: A, entries: &[Line]) -> Result<Vec<Step, A>, AllocError>
    ensures { IfOk result (λ steps. steps.items ≡ map (λ line. line.step) entries.now) }
{
    entries.iter().map(|line| line.step).collect(alloc)
}

/// Runs a trace on a copy of the volume in a file. Prints whether each reply has the text of its entry, or the number
/// of the first entry that differs. Returns the exit status, 0 or 1. The copy needs memory for what it writes. The
/// trace is read whole before the disk is opened.
pub fn replay<'a, R: Files<File = File> + AllocGlobal, A: Allocator + Copy, W: io::Write>(
    rt: &R,
    alloc: A,
    asked: Scripted<'a>,
    out: &mut W,
    note: &mut SyncNote,
) -> Result<u8, Failure<'a>>
    ensures { IfOk result (λ status. status ≤ 1) }
{
    let lines = read_trace(rt, alloc, asked.script)?;
    let steps = steps_of(alloc, &lines.entries)?;
    let place = place(rt, asked.disk)?;
    let disk = open_disk(rt, asked.disk, &place, Access::Read, asked.trust, note)?;
    let copy = OverlayDisk::new(alloc, disk);
    let (ended, copy) = replay_on_any(rt.alloc(), alloc, copy, &lines, &steps);
    let is_refused_memory = copy.was_refused_memory();
    match ended {
        Ok(replayed) => said(asked.script, replayed, is_refused_memory, out),
        Err(cause) => Err(not_replayed(asked.disk, cause, is_refused_memory)),
    }
}

// Returns the error for a trace that wasn't run on a copy of the volume in a file. A call of the copy also fails if
// memory runs out.
fn not_replayed<'a>(path: &'a str, cause: NotBooted<'a>, is_refused_memory: bool) -> Failure<'a> {
    match cause {
        NotBooted::Disk(refused) if is_refused_memory && refused.refusal == Refusal::Device => {
            Failure::Memory(AllocError)
        }
        _ => cause.of_file(path),
    }
}

// Runs a trace again on the volume of a device, with journals or with a log. Returns the device.
fn replay_on_any<'a, D: Device, A: Allocator + Copy>(
    global: Global,
    alloc: A,
    mut device: D,
    trace: &Trace<A>,
    steps: &[Step],
) -> (Result<Replayed, NotBooted<'a>>, D)
    requires { steps.now ≡ map (λ line. line.step) trace.now.entries.items }
{
    match has_log(&mut device) {
        Ok(false) => replayed_on(global, alloc, device, trace, steps),
        Ok(true) => match show_log(alloc, device) {
            Ok(disk) => {
                let (ended, disk) = replayed_on(global, alloc, disk, trace, steps);
                (ended, disk.into_device())
            }
            Err((cause, device)) => (Err(cause), device),
        },
        Err(refusal) => {
            let cause = refused_to_run(alloc, refusal, &mut device, trace.shape);
            (Err(cause), device)
        }
    }
}

// Runs a trace again on the volume with journals of a device. Returns the device.
fn replayed_on<'a, D: Device, A: Allocator + Copy>(
    global: Global,
    alloc: A,
    device: D,
    trace: &Trace<A>,
    steps: &[Step],
) -> (Result<Replayed, NotBooted<'a>>, D)
    requires { steps.now ≡ map (λ line. line.step) trace.now.entries.items }
    ensures { IfOk result.0 (λ replayed. (replies : List Reply)
        × HasRun D.Device device trace.now.shape (take (length replies) steps.now) replies result.1
        × IfSome replayed.verdict (IsVerdict (texts_of trace.now.entries.items) replies)) }
{
    match replay_on(global, alloc, device, trace, steps) {
        Ok((replayed, device)) => (Ok(replayed), device),
        Err((refusal, mut device)) => {
            let cause = refused_to_run(alloc, refusal, &mut device, trace.shape);
            (Err(cause), device)
        }
    }
}

fn read_trace<'a, R, A>(rt: &R, alloc: A, path: &'a str) -> Result<Trace<A>, Failure<'a>>
where
    R: Files<File = File> + AllocGlobal,
    A: Allocator + Copy,
{
    let text = read_file(rt, alloc, path)?;
    match Trace::read(rt.alloc(), alloc, &text) {
        Ok(trace) => Ok(trace),
        Err(TraceFault::Memory(cause)) => Err(Failure::Memory(cause)),
        Err(TraceFault::Shape(ScriptFault::Memory(cause))) => Err(Failure::Memory(cause)),
        Err(cause) => Err(Failure::Trace { path, cause }),
    }
}

// Prints the verdict on a trace, and returns the exit status.
fn said<'a, W: io::Write>(
    trace: &'a str,
    replayed: Replayed,
    is_refused_memory: bool,
    out: &mut W,
) -> Result<u8, Failure<'a>>
    ensures { IfOk result (λ status. status ≤ 1) }
{
    let status = match replayed.verdict {
        Some(Verdict::Same(count)) => {
            writeln!(out, "same {count}")?;
            0
        }
        Some(Verdict::Differs(number)) => {
            writeln!(out, "differs at {number}")?;
            1
        }
        None => return Err(Failure::Memory(AllocError)),
    };
    match replayed.failure {
        None => Ok(status),
        Some(_) if is_refused_memory => Err(Failure::Memory(AllocError)),
        Some(entry) => Err(Failure::Entry { path: trace, entry }),
    }
}
