// The lines of a session, one after the other.
ghost use Rattle.std.specs.Prelude.{◌≡◌, ◌≢◌, ◌⊎◌, List, ℕ, [], ◌∷◌, ◌++◌, Ok, true, false, if◌then◌else◌, IsOk, IfOk, OnOk, OnSome, codes};
ghost use Rattle.std.specs.Fmt.{decimal};
ghost use Rattle.std.specs.Io.KnownBytes.{Appends, IsAtEnd, Keeps};
ghost use Rattle.machine.specs.declared.act.Shape.{Shape};
ghost use Rattle.engine.specs.Engine.{HasStarted, HasRun};
ghost use Rattle.session.specs.Answers.{AnswersInput, WritesAnswers};
ghost use Rattle.session.specs.Asked.{IsMemory};
ghost use Rattle.session.specs.Causes.{cause_words};
ghost use Rattle.session.specs.Lines.{HasNoFeed};
ghost use Rattle.session.specs.Locks.{AsksSteps, KeepsPhases};
ghost use Rattle.session.specs.Ranges.{MakesStepsThat};
ghost use Rattle.session.specs.Serving.{ServesLine};
ghost use Rattle.session.specs.inside.Made.{HasMade};

use crate::line::{Line, MOST_OF_LINE, read_line};
use crate::request::read_request;
use crate::request_fault::RequestFault;
use crate::session::Session;
use crate::session_fault::SessionFault;
use device::Device;
use engine::steps_are_a_run;
use std::alloc::{AllocError, Allocator, Global};
use std::io;
use std::io::BufRead;

/// Reads requests, one per line, up to the end of the input. It carries out each one, and writes the line that answers
/// it before it reads the next.
///
/// However the session ends, its steps and their replies are a run over the device that the machine was started over.
/// So all that holds for runs holds for them: stored data survives, with or without a crash (`HasRun`).
///
/// If it returns `Ok`, these steps answered the lines of the input, up to its end or 2 ^ 64 - 1 lines. Each line has
/// one answer line, in the same order. A line is carried out by steps after those of the lines before it, and its
/// answer states their result (`AnswersInput`).
pub fn serve_on<D: Device, A: Allocator + Copy, I: BufRead, W: io::Write>(
    global: Global,
    alloc: A,
    session: &mut Session<D, A>,
    input: &mut I,
    out: &mut W,
) -> Result<(), SessionFault>
    ensures { MakesStepsThat D.Device session.old.machine session.old.notes (λ steps replies.
        ((before : D) (shape : Shape) → HasStarted D.Device before shape session.old.machine
        → HasRun D.Device before shape steps replies session.new.machine.device)
        × OnOk result (AnswersInput session.old.notes (I.remaining input.old) (I.remaining input.new)
        (W.contents out.old) (W.contents out.new) steps replies)) session.new.machine session.new.notes }
{
    steps_are_a_run(session.machine().device());
    let mut line = Vec::new(alloc);
    for _count in 0..u64::MAX {
        match serve_next(global, alloc, session, &mut line, input, out) {
            Ok(true) => {}
            Ok(false) => return Ok(()),
            Err(fault) => return Err(fault),
        }
    }
    Ok(())
}

// Reads a line and answers it. Returns whether there was one.
fn serve_next<D: Device, A: Allocator + Copy, I: BufRead, W: io::Write>(
    global: Global,
    alloc: A,
    session: &mut Session<D, A>,
    line: &mut Vec<u8, A>,
    input: &mut I,
    out: &mut W,
) -> Result<bool, SessionFault>
    ensures made { HasMade D.Device session.old.machine session.old.notes session.new.machine session.new.notes }
    ensures answered { IfOk result (λ more. MakesStepsThat D.Device session.old.machine session.old.notes
        (WritesAnswers session.old.notes (if more then 1 else 0) (I.remaining input.old) (I.remaining input.new)
        (W.contents out.old) (W.contents out.new)) session.new.machine session.new.notes) }
    ensures end { result ≡ Ok false → OnSome (I.remaining input.old) (IsAtEnd (I.remaining input.new)) }
{
    match read_line(input, line) {
        Ok(Line::End) => Ok(false),
        Ok(Line::Long) => {
            let given = write_bad(alloc, &RequestFault::Long(MOST_OF_LINE), out);
            flushed(given, out)
        }
        Ok(Line::Whole) => {
            let served = serve_line(global, alloc, session, line, out);
            flushed(served, out)
        }
        Err(cause) => Err(SessionFault::Input(cause)),
    }
}

/// Answers a line, passed without its line feed, with one line. It carries out the request in the line, and nothing
/// else. If the line isn't a request, it writes the reason, and makes no step.
///
/// If it returns `Ok`, everything that the line requests was done, as far as the machine does it. The written line
/// states the result of exactly these steps.
///
/// Unless the line requests steps by name, the lock and the processors' phases are the same afterwards, whatever the
/// result (`phases`).
pub fn serve_line<D: Device, A: Allocator + Copy, W: io::Write>(
    global: Global,
    alloc: A,
    session: &mut Session<D, A>,
    line: &[u8],
    out: &mut W,
) -> Result<(), SessionFault>
    ensures served { MakesStepsThat D.Device session.old.machine session.old.notes
        (ServesLine session.old.notes line.now result (W.contents out.old) (W.contents out.new))
        session.new.machine session.new.notes }
    ensures phases { AsksSteps line.now ⊎ KeepsPhases session.old.machine.state session.new.machine.state }
{
    match read_request(global, alloc, line) {
        Ok(request) => session.answer(alloc, &request, out),
        Err(cause) => write_bad(alloc, &cause, out),
    }
}

// Writes why a line isn't a request. If memory was refused, it writes no answer. The detail is made before any part of
// the line is written.
fn write_bad<A: Allocator + Copy, W: io::Write>(
    alloc: A,
    cause: &RequestFault,
    out: &mut W,
) -> Result<(), SessionFault>
    ensures { OnOk result (¬ (IsMemory cause.now) × ((detail : List ℕ) × HasNoFeed detail
        × Appends (W.contents out.old) (W.contents out.new)
        (codes "badline " ++ cause_words cause.now ++ detail ++ 10 ∷ []))) }
{
    if let RequestFault::Memory(_) = cause {
        return Err(SessionFault::Memory(AllocError));
    }
    match detail_line(alloc, cause) {
        Ok(detail) => write_cause(cause, &detail, out).map_err(SessionFault::Output),
        Err(fault) => Err(SessionFault::Memory(fault)),
    }
}

// Returns the detail of a cause, in one line.
fn detail_line<A: Allocator + Copy>(
    alloc: A,
    cause: &RequestFault,
) -> Result<Vec<u8, A>, AllocError>
    ensures { IfOk result (λ line. HasNoFeed line.items) }
{
    let text = cause.to_string(alloc)?;
    in_one_line(alloc, text.as_str())
}

// Returns the bytes of a text, with a space in place of each line feed.
fn in_one_line<A: Allocator + Copy>(alloc: A, text: &str) -> Result<Vec<u8, A>, AllocError>
    ensures { IfOk result (λ line. HasNoFeed line.items) }
{
    let mut line = Vec::with_capacity(alloc, text.len())?;
    for byte in text.as_bytes() {
        line.push(space_for_feed(*byte))?;
    }
    Ok(line)
}

fn space_for_feed(byte: u8) -> u8
    ensures { result ≢ 10 }
{
    if byte == b'\n' { b' ' } else { byte }
}

fn write_cause<W: io::Write>(cause: &RequestFault, detail: &[u8], out: &mut W) -> io::Result<()>
    ensures { OnOk result (Appends (W.contents out.old) (W.contents out.new)
        (codes "badline " ++ cause_words cause.now ++ detail.now ++ 10 ∷ [])) }
{
    out.write_all(b"badline ")?;
    write_words(cause, out)?;
    out.write_all(detail)?;
    out.write_all(b"\n")
}

// Writes the words for a fault.
fn write_words<W: io::Write>(cause: &RequestFault, out: &mut W) -> io::Result<()>
    ensures { OnOk result (Appends (W.contents out.old) (W.contents out.new) (cause_words cause.now)) }
{
    match cause {
        RequestFault::Long(most) => write!(out, "it has more than {most} bytes"),
        RequestFault::NotUtf8 => out.write_all(b"it isn't UTF-8"),
        RequestFault::NotJson(_) => out.write_all(b"it isn't JSON: "),
        RequestFault::NotAList => out.write_all(b"it isn't a list"),
        RequestFault::Empty => out.write_all(b"the list is empty"),
        RequestFault::Step(_) => out.write_all(b"it isn't a request: "),
        RequestFault::Steps { number, .. } => write!(out, "step {number}, "),
        RequestFault::Bytes(most) => write_wanted_bytes(*most, out),
        RequestFault::Memory(_) => out.write_all(b"out of memory"),
    }
}

// Writes the expected form of bytes, of which at most `most` are allowed.
fn write_wanted_bytes<W: io::Write>(most: u64, out: &mut W) -> io::Result<()>
    ensures { OnOk result (Appends (W.contents out.old) (W.contents out.new)
        (codes "the bytes aren't two hexadecimal digits for each of at most " ++ decimal most ++ codes " bytes")) }
{
    write!(
        out,
        "the bytes aren't two hexadecimal digits for each of at most {most} bytes"
    )
}

// Flushes the output after an answer was written.
fn flushed<W: io::Write>(
    written: Result<(), SessionFault>,
    out: &mut W,
) -> Result<bool, SessionFault>
    ensures { IfOk result (λ more.
        (more ≡ true) × IsOk written × Keeps (W.contents out.old) (W.contents out.new)) }
{
    match written {
        Ok(()) => match out.flush() {
            Ok(()) => Ok(true),
            Err(cause) => Err(SessionFault::Output(cause)),
        },
        Err(fault) => Err(fault),
    }
}
