// What is found of a volume with a log, as text.
ghost use Rattle.std.specs.Prelude.{◌≡◌, ◌<◌, OnOk, length, slice_index};
ghost use Rattle.std.specs.Io.KnownBytes.{Appends};
ghost use Rattle.log_volume.specs.Super.{log_of};
ghost use Rattle.log_recovery.specs.Reading.{IsFoundLog};
ghost use Rattle.inspection.specs.Text.{file_text};
ghost use Rattle.inspection.specs.LogText.{log_layout, log_volume_text, log_volume_line, log_home_of, log_file_line, log_file_lines, log_line, log_info_text};

use crate::file::{capacity_of, name_of};
use crate::text::write_file_text;
use log_codec::{LogGeometry, Sealing};
use log_volume::LogSuper;
use page_entry::PAGE;
use std::alloc::Allocator;
use std::io;
use volume_reading::{LoggedVolume, used_blocks};

/// Returns the number of the layout that seals its commits in this way.
pub fn layout_of(sealing: Sealing) -> u64
    ensures { result ≡ log_layout sealing }
{
    match sealing {
        Sealing::ByByte => 5,
        Sealing::ByDigest(_) => 6,
    }
}

/// Returns the first home block of a file of a volume with a log.
pub fn home_of<A: Allocator + Copy>(table: &LogSuper<A>, file: usize) -> u64
    requires { file < length table.now.files }
    ensures { result ≡ log_home_of table.now file }
{
    let ring = table.log().ring();
    u64::from(table.table().first_home(file)) + u64::from(ring) + 1
}

/// Writes what is found of a volume with a log: a line for the volume, one for each file, and one for the log.
pub fn write_log_found<A: Allocator + Copy, W: io::Write>(
    found: &LoggedVolume<A>,
    out: &mut W,
) -> io::Result<()>
    requires count { length found.now.lengths.items ≡ length found.now.table.files }
    requires log { IsFoundLog (log_of found.now.table) found.now.log }
    ensures { OnOk result (Appends (W.contents out.old) (W.contents out.new) (log_info_text found.now)) }
{
    write_log_volume(&found.table.log(), out)?;
    write_log_files(&found.table, &found.lengths, out)?;
    write_log(
        found.log.commits.len(),
        used_blocks(found),
        found.log.start.epoch,
        out,
    )
}

// Writes the line of the volume.
fn write_log_volume<W: io::Write>(log: &LogGeometry, out: &mut W) -> io::Result<()>
    ensures { OnOk result (Appends (W.contents out.old) (W.contents out.new) (log_volume_line log.now)) }
{
    write_volume_text(layout_of(log.sealing()), log.ring(), log.block_count(), out)
}

fn write_volume_text<W: io::Write>(
    layout: u64,
    ring: u32,
    blocks: u32,
    out: &mut W,
) -> io::Result<()>
    ensures { OnOk result (Appends (W.contents out.old) (W.contents out.new) (log_volume_text layout ring blocks)) }
{
    let bytes = PAGE * u64::from(blocks);
    writeln!(
        out,
        "layout {layout}, log of {ring} blocks, {blocks} blocks, {bytes} bytes"
    )
}

// Writes the lines of the files, which have these lengths.
fn write_log_files<A: Allocator + Copy, W: io::Write>(
    table: &LogSuper<A>,
    lengths: &[u64],
    out: &mut W,
) -> io::Result<()>
    requires { length lengths.now ≡ length table.now.files }
    ensures { OnOk result (Appends (W.contents out.old) (W.contents out.new)
        (log_file_lines table.now lengths.now (length table.now.files))) }
{
    for file in 0..table.table().file_count() {
        write_log_file(table, file, lengths[file], out)?;
    }
    Ok(())
}

// Writes the line of a file of this length.
fn write_log_file<A: Allocator + Copy, W: io::Write>(
    table: &LogSuper<A>,
    file: usize,
    bytes: u64,
    out: &mut W,
) -> io::Result<()>
    requires { file < length table.now.files }
    ensures { OnOk result (Appends (W.contents out.old) (W.contents out.new) (log_file_line table.now file bytes)) }
{
    let home = home_of(table, file);
    let files = table.table();
    let name = name_of(files, file);
    let capacity = capacity_of(files, file);
    let pages = files.pages(file);
    write_file_text(name, bytes, capacity, pages, home, out)
}

// Writes the line of the log.
fn write_log<W: io::Write>(commits: usize, used: u64, epoch: u64, out: &mut W) -> io::Result<()>
    ensures { OnOk result (Appends (W.contents out.old) (W.contents out.new) (log_line commits used epoch)) }
{
    writeln!(
        out,
        "log: {commits} commits in {used} blocks, epoch {epoch}"
    )
}
