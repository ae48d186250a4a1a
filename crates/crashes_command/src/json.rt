// The table of crashes as JSON objects.
use crate::printed::Printed;
use crate::text::{part, word_of};
use crash_states::{Call, Found, MOST_MIXTURES, Part, Row, VolumePlaces};
use machine::Reply;
use std::alloc::Allocator;
use std::{fmt, io};

// A text as a JSON string, with its quotes.
#[derive(Clone, Copy)]
struct Quoted<'a>(&'a str);

impl fmt::Display for Quoted<'_> {
    fn fmt<W: fmt::Write>(&self, f: &mut fmt::Formatter<W>) -> fmt::Result {
        f.write_str("\"")?;
        for letter in self.0.chars() {
            match letter {
                '"' => f.write_str("\\\"")?,
                '\\' => f.write_str("\\\\")?,
                _ => write!(f, "{letter}")?,
            }
        }
        f.write_str("\"")
    }
}

/// Writes an object for a call, or for the end of the run if `call` is `None`.
pub fn json_row<A: Allocator + Copy, W: io::Write>(
    places: &VolumePlaces<A>,
    call: Option<&Call<A>>,
    replies: &[Reply],
    row: &Row<A>,
    out: &mut W,
) -> io::Result<()> {
    match call {
        Some(call) => json_call(places, call, row.number, out)?,
        None => write!(out, "{{\"end\":true")?,
    }
    write!(out, ",\"replies\":[")?;
    for (i, reply) in replies.iter().enumerate() {
        let comma = if i == 0 { "" } else { "," };
        write!(out, "{comma}\"{reply}\"")?;
    }
    let unsynced = row.unsynced;
    let states = row.found.len();
    write!(
        out,
        "],\"unsynced\":{unsynced},\"states\":{states},\"found\":["
    )?;
    for (i, found) in row.found.iter().enumerate() {
        let comma = if i == 0 { "" } else { "," };
        let Found { choice, mark } = *found;
        write!(out, "{comma}{{\"left\":\"{choice}\",\"mark\":{mark}}}")?;
    }
    writeln!(out, "]}}")
}

// Writes the members of a call's object: what it does, and the part that a read or a write touches.
fn json_call<A: Allocator + Copy, W: io::Write>(
    places: &VolumePlaces<A>,
    call: &Call<A>,
    number: u64,
    out: &mut W,
) -> io::Result<()> {
    let word = word_of(call.kind);
    write!(out, "{{\"call\":{number},\"does\":\"{word}\"")?;
    let table = places.table();
    match part(places, call) {
        None => return Ok(()),
        Some(Part::Super) => write!(out, ",\"part\":\"super\"")?,
        Some(Part::Gate(journal)) => {
            write!(out, ",\"part\":\"gate\",\"journal\":{journal}")?;
        }
        Some(Part::Descriptor(journal)) => {
            write!(out, ",\"part\":\"descriptor\",\"journal\":{journal}")?;
        }
        Some(Part::Record { journal, slot }) => {
            write!(
                out,
                ",\"part\":\"record\",\"journal\":{journal},\"slot\":{slot}"
            )?;
        }
        Some(Part::Selector) => write!(out, ",\"part\":\"selector\"")?,
        Some(Part::Start(start)) => write!(out, ",\"part\":\"start\",\"start\":{start}")?,
        Some(Part::Log(position)) => write!(out, ",\"part\":\"log\",\"position\":{position}")?,
        Some(Part::Home(block)) => write!(out, ",\"part\":\"home\",\"block\":{block}")?,
        Some(Part::Page { file, page }) if file < table.file_count() => {
            let name = Quoted(table.name(file));
            write!(out, ",\"part\":\"page\",\"file\":{name},\"page\":{page}")?;
        }
        Some(Part::Page { .. } | Part::Outside) => write!(out, ",\"part\":\"outside\"")?,
    }
    let at = call.at;
    let bytes = call.len;
    write!(out, ",\"at\":{at},\"bytes\":{bytes}")
}

/// Writes the last object, with the totals.
pub fn json_end<W: io::Write>(printed: Printed, out: &mut W) -> io::Result<()> {
    let Printed { calls, states } = printed;
    writeln!(
        out,
        "{{\"calls\":{calls},\"states\":{states},\"most_mixtures\":{MOST_MIXTURES}}}"
    )
}
