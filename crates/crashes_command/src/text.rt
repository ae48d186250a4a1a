// The table of crashes as text.
ghost use Rattle.std.specs.Prelude.{◌+◌, ◌++◌, List, ℕ, OnOk};
ghost use Rattle.std.specs.Io.KnownBytes.{Appends};
ghost use Rattle.crash_states.specs.Rows.{newest_of};
ghost use Rattle.crashes_command.specs.Text.{mark_text, marks_text, found_text};

use crate::printed::Printed;
use crash_states::{Call, CallKind, MOST_MIXTURES, Part, Row, VolumePlaces};
use machine::Reply;
use std::alloc::Allocator;
use std::{fmt, io};

/// Returns the word for what a call does.
pub fn word_of(kind: CallKind) -> &'static str {
    match kind {
        CallKind::Read => "read",
        CallKind::Write => "write",
        CallKind::Sync => "sync",
    }
}

/// The part of a volume that a call touches, as text. For a sync the text is empty.
#[derive(Clone, Copy)]
pub struct Touched<'a, A: Allocator + Copy> {
    pub places: &'a VolumePlaces<A>,
    pub call: &'a Call<A>,
}

impl<A: Allocator + Copy> fmt::Display for Touched<'_, A> {
    fn fmt<W: fmt::Write>(&self, f: &mut fmt::Formatter<W>) -> fmt::Result {
        let table = self.places.table();
        match part(self.places, self.call) {
            None => Ok(()),
            Some(Part::Super) => f.write_str("super"),
            Some(Part::Gate(journal)) => write!(f, "gate {journal}"),
            Some(Part::Descriptor(journal)) => write!(f, "descriptor {journal}"),
            Some(Part::Record { journal, slot }) => write!(f, "record {journal}:{slot}"),
            Some(Part::Selector) => f.write_str("selector"),
            Some(Part::Start(start)) => write!(f, "start {start}"),
            Some(Part::Log(position)) => write!(f, "log {position}"),
            Some(Part::Home(block)) => write!(f, "home {block}"),
            Some(Part::Page { file, page }) if file < table.file_count() => {
                let name = table.name(file);
                write!(f, "page {name}:{page}")
            }
            Some(Part::Page { .. } | Part::Outside) => f.write_str("outside"),
        }
    }
}

/// Returns the part of a volume that a call touches, or `None` for a sync.
pub fn part<A: Allocator + Copy>(places: &VolumePlaces<A>, call: &Call<A>) -> Option<Part> {
    match call.kind {
        CallKind::Sync => None,
        CallKind::Read | CallKind::Write => Some(places.part_of(call.at)),
    }
}

/// Writes a line for a reply.
pub fn text_reply<W: io::Write>(reply: &Reply, out: &mut W) -> io::Result<()> {
    writeln!(out, "            {reply}")
}

/// Writes a line for a call, or for the end of the run if `call` is `None`. The line ends with each mark whose files
/// were found, and the number of crash states that have them.
pub fn text_row<A: Allocator + Copy, W: io::Write>(
    alloc: A,
    places: &VolumePlaces<A>,
    call: Option<&Call<A>>,
    row: &Row<A>,
    out: &mut W,
) -> io::Result<()>
    ensures { OnOk result ((head : List ℕ)
        × Appends (W.contents out.old) (W.contents out.new) (head ++ found_text row.now)) }
{
    text_head(alloc, places, call, row.number, out)?;
    text_found(row, out)
}

// Writes the beginning of a line: a call, or the end of the run.
fn text_head<A: Allocator + Copy, W: io::Write>(
    alloc: A,
    places: &VolumePlaces<A>,
    call: Option<&Call<A>>,
    number: u64,
    out: &mut W,
) -> io::Result<()>
    ensures { OnOk result ((head : List ℕ) × Appends (W.contents out.old) (W.contents out.new) head) }
{
    match call {
        Some(call) => text_call(alloc, places, call, number, out),
        None => text_end_head(out),
    }
}

// Writes a call with its number.
fn text_call<A: Allocator + Copy, W: io::Write>(
    alloc: A,
    places: &VolumePlaces<A>,
    call: &Call<A>,
    number: u64,
    out: &mut W,
) -> io::Result<()>
    ensures { OnOk result ((head : List ℕ) × Appends (W.contents out.old) (W.contents out.new) head) }
{
    let word = word_of(call.kind);
    let touched = format!(in alloc; "{}", Touched { places, call })?;
    let touched = touched.as_str();
    write_call(number, word, touched, call.len, out)
}

fn write_call<W: io::Write>(
    number: u64,
    word: &str,
    touched: &str,
    bytes: u64,
    out: &mut W,
) -> io::Result<()>
    ensures { OnOk result ((head : List ℕ) × Appends (W.contents out.old) (W.contents out.new) head) }
{
    write!(out, "{number:>5} {word:<5} {touched:<24} {bytes:>5} ")
}

fn text_end_head<W: io::Write>(out: &mut W) -> io::Result<()>
    ensures { OnOk result ((head : List ℕ) × Appends (W.contents out.old) (W.contents out.new) head) }
{
    let end = "  end";
    write!(out, "{end:<42} ")
}

// Writes the end of a line: each mark whose files were found, and the number of its crash states.
fn text_found<A: Allocator + Copy, W: io::Write>(row: &Row<A>, out: &mut W) -> io::Result<()>
    ensures { OnOk result (Appends (W.contents out.old) (W.contents out.new) (found_text row.now)) }
{
    text_marks(row, out)?;
    writeln!(out)
}

// Writes each mark whose files were found, in order.
fn text_marks<A: Allocator + Copy, W: io::Write>(row: &Row<A>, out: &mut W) -> io::Result<()>
    ensures { OnOk result (Appends (W.contents out.old) (W.contents out.new)
        (marks_text row.now.found.items (newest_of row.now.found.items + 1))) }
{
    for mark in 0..u64::from(row.newest()) + 1 {
        text_mark(mark as u32, row.count(mark as u32), out)?;
    }
    Ok(())
}

// Writes a mark and the number of its crash states, if there are any.
fn text_mark<W: io::Write>(mark: u32, states: u64, out: &mut W) -> io::Result<()>
    ensures { OnOk result (Appends (W.contents out.old) (W.contents out.new) (mark_text mark states)) }
{
    if states == 0 {
        return Ok(());
    }
    write!(out, "  mark {mark} x{states}")
}

/// Writes the last line, with the totals.
pub fn text_end<W: io::Write>(printed: Printed, out: &mut W) -> io::Result<()> {
    let Printed { calls, states } = printed;
    writeln!(
        out,
        "{calls} calls, {states} crash states opened; at most {MOST_MIXTURES} mixtures of blocks for each call"
    )
}
