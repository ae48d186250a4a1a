// The line that answers a request.
ghost use Rattle.std.specs.Prelude.{List, ℕ, [], ◌∷◌, ◌++◌, OnOk};
ghost use Rattle.std.specs.Io.KnownBytes.{Appends};
ghost use Rattle.session.specs.Answers.{ReportsLoaded};
ghost use Rattle.session.specs.Answers.{reply_after, reached_text, text_after_space, stored_text, committed_text};
ghost use Rattle.session.specs.Asked.{asked};
ghost use Rattle.session.specs.CarriedOut.{CarriesOutFor};
ghost use Rattle.session.specs.Requests.{asks_steps, asks_load};

use crate::ranges::Reached;
use crate::request::Request;
use crate::session::Session;
use crate::session_fault::SessionFault;
use device::Device;
use machine::{Reply, Step};
use page_entry::ProcessorNumber;
use std::alloc::{AllocError, Allocator};
use std::io;

impl<D: Device, A: Allocator + Copy> Session<D, A> {
    /// Carries out a request, and writes the line that answers it.
    pub(crate) fn answer<W: io::Write>(
        &mut self,
        alloc: A,
        request: &Request<A>,
        out: &mut W,
    ) -> Result<(), SessionFault>
        ensures { CarriesOutFor D.Device self.old.machine self.old.notes (asked request.now) result
            (W.contents out.old) (W.contents out.new) self.new.machine self.new.notes }
    {
        match request {
            Request::Steps(steps) => self.answer_steps(steps, out),
            Request::Load { p, va, count } => self.answer_load(alloc, *p, *va, *count, out),
            Request::Store { p, va, bytes } => {
                let reached = self.store(*p, *va, bytes);
                write_stored(&reached, bytes.len(), out).map_err(SessionFault::Output)
            }
            Request::Commit { p } => {
                let committed = self.commit(*p);
                write_committed(&committed, out).map_err(SessionFault::Output)
            }
            Request::SetLength { p, file, length } => {
                let reply = self.set_length(*p, *file, *length);
                writeln!(out, "{reply}").map_err(SessionFault::Output)
            }
        }
    }

    // Makes steps, and writes their replies.
    fn answer_steps<W: io::Write>(
        &mut self,
        steps: &[Step],
        out: &mut W,
    ) -> Result<(), SessionFault>
        ensures { CarriesOutFor D.Device self.old.machine self.old.notes (asks_steps steps.now) result
            (W.contents out.old) (W.contents out.new) self.new.machine self.new.notes }
    {
        for (i, step) in steps.iter().enumerate() {
            let reply = self.make(step);
            if let Err(cause) = write_reply(i, &reply, out) {
                return Err(SessionFault::Output(cause));
            }
        }
        out.write_all(b"\n").map_err(SessionFault::Output)
    }

    fn answer_load<W: io::Write>(
        &mut self,
        alloc: A,
        p: ProcessorNumber,
        va: u64,
        count: u64,
        out: &mut W,
    ) -> Result<(), SessionFault>
        ensures { CarriesOutFor D.Device self.old.machine self.old.notes (asks_load p va count) result
            (W.contents out.old) (W.contents out.new) self.new.machine self.new.notes }
    {
        let count = count as usize;
        let Ok(mut bytes) = Vec::with_capacity(alloc, count) else {
            return Err(SessionFault::Memory(AllocError));
        };
        let reached = self.load(p, va, count, &mut bytes);
        write_loaded(alloc, &reached, &bytes, out)
    }
}

// Writes a reply, after `; ` unless it is the first (number 0).
fn write_reply<W: io::Write>(number: usize, reply: &Reply, out: &mut W) -> io::Result<()>
    ensures { OnOk result (Appends (W.contents out.old) (W.contents out.new) (reply_after number reply.now)) }
{
    if number > 0 {
        write!(out, "; {reply}")
    } else {
        write!(out, "{reply}")
    }
}

fn write_loaded<A: Allocator + Copy, W: io::Write>(
    alloc: A,
    reached: &Reached,
    bytes: &[u8],
    out: &mut W,
) -> Result<(), SessionFault>
    ensures { OnOk result ((answer : List ℕ) × ReportsLoaded reached.now bytes.now answer
        × Appends (W.contents out.old) (W.contents out.new) (answer ++ 10 ∷ [])) }
{
    if let Reached::NoMemory = reached {
        return Err(SessionFault::Memory(AllocError));
    }
    match hex::encode(alloc, bytes) {
        Ok(digits) => write_range(reached, digits.as_str(), out).map_err(SessionFault::Output),
        Err(cause) => Err(SessionFault::Memory(cause)),
    }
}

fn write_range<W: io::Write>(reached: &Reached, digits: &str, out: &mut W) -> io::Result<()>
    ensures { OnOk result (Appends (W.contents out.old) (W.contents out.new)
        (reached_text reached.now ++ text_after_space digits.now ++ 10 ∷ [])) }
{
    write_reached(reached, out)?;
    write_digits(digits, out)?;
    out.write_all(b"\n")
}

// Writes how far a range was loaded.
fn write_reached<W: io::Write>(reached: &Reached, out: &mut W) -> io::Result<()>
    ensures { OnOk result (Appends (W.contents out.old) (W.contents out.new) (reached_text reached.now)) }
{
    match reached {
        Reached::Refused { count, reply } => write!(out, "{reply} after {count}"),
        Reached::All | Reached::NoMemory => out.write_all(b"loaded"),
    }
}

// Writes a space and the digits, or nothing if there are no digits.
fn write_digits<W: io::Write>(digits: &str, out: &mut W) -> io::Result<()>
    ensures { OnOk result (Appends (W.contents out.old) (W.contents out.new) (text_after_space digits.now)) }
{
    if digits.is_empty() {
        Ok(())
    } else {
        write!(out, " {digits}")
    }
}

fn write_stored<W: io::Write>(reached: &Reached, count: usize, out: &mut W) -> io::Result<()>
    ensures { OnOk result (Appends (W.contents out.old) (W.contents out.new)
        (stored_text reached.now count ++ 10 ∷ [])) }
{
    match reached {
        Reached::Refused { count, reply } => writeln!(out, "{reply} after {count}"),
        Reached::All | Reached::NoMemory => writeln!(out, "stored {count}"),
    }
}

fn write_committed<W: io::Write>(committed: &Result<u32, Reply>, out: &mut W) -> io::Result<()>
    ensures { OnOk result (Appends (W.contents out.old) (W.contents out.new)
        (committed_text committed.now ++ 10 ∷ [])) }
{
    match committed {
        Ok(mark) => writeln!(out, "committed {mark}"),
        Err(reply) => writeln!(out, "{reply}"),
    }
}
