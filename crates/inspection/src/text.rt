// What is found of a volume, as text.
ghost use Rattle.std.specs.Prelude.{◌≡◌, ◌<◌, ◌∷◌, [], OnOk, length, slice_get, slice_index, Some};
ghost use Rattle.std.specs.Io.KnownBytes.{Appends};
ghost use Rattle.volume_codec.specs.Super.{pages_of};
ghost use Rattle.inspection.specs.Text.{volume_line, calls_line, capacity_text, file_name, file_size, file_line, file_lines, file_text, home_text, homes_text, open_head, open_text, state_text, journal_name, gate_text, journal_line, journal_lines, info_text};

use crate::file::{capacity_of, name_of};
use crate::found::{Found, Journal};
use crate::place::place_of;
use page_entry::PAGE;
use std::alloc::Allocator;
use std::io;
use volume_codec::{Descriptor, Super};

/// Writes what is found of a volume: a line for the volume, one for each file and each journal, and one for opening.
pub fn write_found<A: Allocator + Copy, W: io::Write>(
    found: &Found<A>,
    out: &mut W,
) -> io::Result<()>
    requires { length found.now.lengths.items ≡ length found.now.table.files }
    ensures { OnOk result (Appends (W.contents out.old) (W.contents out.new) (info_text found.now)) }
{
    write_volume(&found.table, out)?;
    write_files(&found.table, &found.lengths, out)?;
    write_journals(&found.table, &found.journals, out)?;
    write_calls(found.calls, out)
}

// Writes the line of opening.
fn write_calls<W: io::Write>(calls: u64, out: &mut W) -> io::Result<()>
    ensures { OnOk result (Appends (W.contents out.old) (W.contents out.new) (calls_line calls)) }
{
    writeln!(out, "opening makes {calls} device calls")
}

// Writes the line of the volume.
fn write_volume<A: Allocator + Copy, W: io::Write>(table: &Super<A>, out: &mut W) -> io::Result<()>
    ensures { OnOk result (Appends (W.contents out.old) (W.contents out.new) (volume_line table.now)) }
{
    let layout = table.layout().number();
    let slots = table.slots();
    let blocks = table.block_count();
    let bytes = PAGE * u64::from(blocks);
    writeln!(
        out,
        "layout {layout}, {slots} slots, {blocks} blocks, {bytes} bytes"
    )
}

// Writes the lines of the files, which have these lengths.
fn write_files<A: Allocator + Copy, W: io::Write>(
    table: &Super<A>,
    lengths: &[u64],
    out: &mut W,
) -> io::Result<()>
    requires { length lengths.now ≡ length table.now.files }
    ensures { OnOk result (Appends (W.contents out.old) (W.contents out.new)
        (file_lines table.now lengths.now (length table.now.files))) }
{
    for file in 0..table.file_count() {
        write_file(table, file, lengths[file], out)?;
    }
    Ok(())
}

// Writes the line of a file of this length.
fn write_file<A: Allocator + Copy, W: io::Write>(
    table: &Super<A>,
    file: usize,
    bytes: u64,
    out: &mut W,
) -> io::Result<()>
    requires { file < length table.now.files }
    ensures { OnOk result (Appends (W.contents out.old) (W.contents out.new) (file_line table.now file bytes)) }
{
    let name = name_of(table, file);
    let capacity = capacity_of(table, file);
    let pages = table.pages(file);
    let home = u64::from(table.first_home(file));
    write_file_text(name, bytes, capacity, pages, home, out)
}

/// Writes the line of a file whose home blocks begin at `home`.
pub fn write_file_text<W: io::Write>(
    name: &str,
    bytes: u64,
    capacity: u64,
    pages: u32,
    home: u64,
    out: &mut W,
) -> io::Result<()>
    requires { pages ≡ pages_of capacity }
    ensures { OnOk result (Appends (W.contents out.old) (W.contents out.new)
        (file_text name.now bytes capacity home)) }
{
    write_file_name(name, out)?;
    write_file_size(bytes, pages, home, out)?;
    write_capacity(bytes, capacity, out)
}

// Writes the name of a file, before its size.
fn write_file_name<W: io::Write>(name: &str, out: &mut W) -> io::Result<()>
    ensures { OnOk result (Appends (W.contents out.old) (W.contents out.new) (file_name name.now)) }
{
    write!(out, "file {name}: ")
}

fn write_file_size<W: io::Write>(bytes: u64, pages: u32, home: u64, out: &mut W) -> io::Result<()>
    ensures { OnOk result (Appends (W.contents out.old) (W.contents out.new) (file_size bytes pages home)) }
{
    write!(out, "{bytes} bytes, {pages} pages, home {home}")
}

// Writes the capacity of a file, if it isn't the file's length, and ends the line.
fn write_capacity<W: io::Write>(bytes: u64, capacity: u64, out: &mut W) -> io::Result<()>
    ensures { OnOk result (Appends (W.contents out.old) (W.contents out.new) (capacity_text bytes capacity)) }
{
    if capacity == bytes {
        writeln!(out)
    } else {
        writeln!(out, ", capacity {capacity}")
    }
}

// Writes the lines of the journals.
fn write_journals<A: Allocator + Copy, W: io::Write>(
    table: &Super<A>,
    journals: &[Journal<A>],
    out: &mut W,
) -> io::Result<()>
    ensures { OnOk result (Appends (W.contents out.old) (W.contents out.new)
        (journal_lines table.now journals.now)) }
{
    for journal in journals {
        write_journal(table, journal, out)?;
    }
    Ok(())
}

// Writes the line of a journal.
fn write_journal<A: Allocator + Copy, W: io::Write>(
    table: &Super<A>,
    journal: &Journal<A>,
    out: &mut W,
) -> io::Result<()>
    ensures { OnOk result (Appends (W.contents out.old) (W.contents out.new)
        (journal_line table.now journal.now)) }
{
    write_journal_name(journal.number, out)?;
    write_gate(journal.gate, out)?;
    write_state(table, &journal.descriptor, out)
}

fn write_journal_name<W: io::Write>(number: u32, out: &mut W) -> io::Result<()>
    ensures { OnOk result (Appends (W.contents out.old) (W.contents out.new) (journal_name number)) }
{
    write!(out, "journal {number}: gate ")
}

// Writes the byte of a gate as two hexadecimal digits.
fn write_gate<W: io::Write>(gate: u8, out: &mut W) -> io::Result<()>
    ensures { OnOk result (Appends (W.contents out.old) (W.contents out.new) (gate_text gate)) }
{
    write!(out, "{gate:02x}")
}

// Writes the state of a journal: closed, or the contents of its descriptor.
fn write_state<A: Allocator + Copy, W: io::Write>(
    table: &Super<A>,
    descriptor: &Option<Descriptor<A>>,
    out: &mut W,
) -> io::Result<()>
    ensures { OnOk result (Appends (W.contents out.old) (W.contents out.new)
        (state_text table.now descriptor.now)) }
{
    match descriptor {
        None => writeln!(out, " closed"),
        Some(descriptor) => write_descriptor(table, descriptor, out),
    }
}

// Writes the descriptor of an open journal.
fn write_descriptor<A: Allocator + Copy, W: io::Write>(
    table: &Super<A>,
    descriptor: &Descriptor<A>,
    out: &mut W,
) -> io::Result<()>
    ensures { OnOk result (Appends (W.contents out.old) (W.contents out.new) (open_text table.now descriptor.now)) }
{
    let mark = descriptor.mark();
    let homes = descriptor.homes();
    let count = homes.len();
    write_open_head(mark, count, out)?;
    write_homes(table, homes, out)?;
    write_line_end(out)
}

fn write_open_head<W: io::Write>(mark: u64, count: usize, out: &mut W) -> io::Result<()>
    ensures { OnOk result (Appends (W.contents out.old) (W.contents out.new) (open_head mark count)) }
{
    write!(out, " open, mark {mark}, {count} blocks:")
}

fn write_line_end<W: io::Write>(out: &mut W) -> io::Result<()>
    ensures { OnOk result (Appends (W.contents out.old) (W.contents out.new) (10 ∷ [])) }
{
    writeln!(out)
}

// Writes home blocks, each as a page of its file.
fn write_homes<A: Allocator + Copy, W: io::Write>(
    table: &Super<A>,
    homes: &[u32],
    out: &mut W,
) -> io::Result<()>
    ensures { OnOk result (Appends (W.contents out.old) (W.contents out.new) (homes_text table.now homes.now)) }
{
    for home in homes {
        write_home(table, *home, out)?;
    }
    Ok(())
}

// Writes a home block as a page of its file.
fn write_home<A: Allocator + Copy, W: io::Write>(
    table: &Super<A>,
    home: u32,
    out: &mut W,
) -> io::Result<()>
    ensures { OnOk result (Appends (W.contents out.old) (W.contents out.new) (home_text table.now home)) }
{
    match place_of(table, home) {
        Some(place) => {
            let name = name_of(table, place.file);
            let page = place.page;
            write!(out, " {name}:{page}")
        }
        None => write!(out, " block {home}"),
    }
}
