// Home blocks of pages.
ghost use Rattle.std.specs.Prelude.{◌≡◌, ◌+◌, ◌*◌, ◌<◌, ◌≤◌, length, slice_index_or};
ghost use Rattle.volume_codec.specs.Lengths.{AreLengths};
ghost use Rattle.volume_codec.specs.Super.{Fits, block_count, capacities_in, pages_of};
ghost use Rattle.pager.specs.State.{file_length};
ghost use Rattle.pager.specs.Calls.{end_page};
ghost use Rattle.log_codec.specs.Log.{IsLog, first_log_home};
ghost use Rattle.log_volume.specs.Super.{table_of, log_of};
ghost use Rattle.log_files.specs.State.{log_first_home_of, log_home_of};
ghost use Rattle.log_files.specs.inside.Sound.{IsInsideFile};

use log_volume::LogSuper;
use page_entry::{FileNumber, FilePage};
use pager::{block_after, home_block, last_block};
use std::alloc::Allocator;

/// Returns how many blocks the home blocks of a volume with a log lie behind those in its table.
pub(crate) fn shift_of<A: Allocator + Copy>(table: &LogSuper<A>) -> u32
    ensures value { result ≡ table.now.ring + 1 }
    ensures blocks { block_count (table_of table.now) + (table.now.ring + 1) ≡ (log_of table.now).blocks }
    ensures log { IsLog (log_of table.now) }
    ensures fits { Fits (table_of table.now) }
{
    let _blocks = table.table().block_count();
    table.log().ring() + 1
}

/// Returns the home block of a page that begins before its file's end.
pub(crate) fn page_home<A: Allocator + Copy>(
    table: &LogSuper<A>,
    lengths: &[u64],
    page: FilePage,
) -> u32
    requires lengths { AreLengths (table_of table.now) lengths.now }
    requires file { page.file < length lengths.now }
    requires page { 4096 * page.page < file_length lengths.now page.file }
    ensures home { result ≡ log_home_of table.now page }
    ensures low { first_log_home table.now.ring < result }
    ensures within { result < (log_of table.now).blocks }
    ensures inside { IsInsideFile table.now lengths.now result }
{
    let shift = shift_of(table);
    home_block(table.table(), lengths, page) + shift
}

/// Returns the home block of the page in which a file of this length ends, or which begins at that end. The length is
/// below the file's capacity.
pub(crate) fn end_home<A: Allocator + Copy>(table: &LogSuper<A>, file: FileNumber, end: u64) -> u32
    requires file { file < length table.now.files }
    requires fits { end < slice_index_or (capacities_in (table_of table.now)) file 0 }
    ensures home { result ≡ log_home_of table.now (end_page file end) }
    ensures low { first_log_home table.now.ring < result }
    ensures within { result < (log_of table.now).blocks }
{
    let shift = shift_of(table);
    last_block(table.table(), file, end) + shift
}

/// Returns the home block behind those of a file of this length.
pub(crate) fn home_after<A: Allocator + Copy>(
    table: &LogSuper<A>,
    file: FileNumber,
    end: u64,
) -> u32
    requires file { file < length table.now.files }
    requires fits { end ≤ slice_index_or (capacities_in (table_of table.now)) file 0 }
    ensures home { result ≡ log_first_home_of table.now file + pages_of end }
    ensures low { first_log_home table.now.ring < result }
    ensures within { result ≤ (log_of table.now).blocks }
{
    let shift = shift_of(table);
    block_after(table.table(), file, end) + shift
}
