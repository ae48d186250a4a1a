// Pages of files: their home blocks, and the number of the file's bytes in them.
ghost use Rattle.std.specs.Prelude.{◌≡◌, ◌+◌, ◌*◌, ◌<◌, ◌≤◌, length, slice_index_or, slice_set};
ghost use Rattle.volume_codec.specs.Layout.{first_home};
ghost use Rattle.volume_codec.specs.Super.{block_count, capacities_in, first_home_of, pages_of};
ghost use Rattle.volume_codec.specs.Lengths.{AreLengths, lengths_text};
ghost use Rattle.journal.specs.Pages.{home_of};
ghost use Rattle.pager.specs.State.{file_length, IsBeforeEnd};
ghost use Rattle.pager.specs.Calls.{end_page};

use page_entry::{FileNumber, FilePage, PAGE};
use std::alloc::Allocator;
use volume_codec::{Super, write_lengths};

/// Returns the length of a file in bytes.
pub fn length_at(lengths: &[u64], file: FileNumber) -> u64
    requires { file < length lengths.now }
    ensures { result ≡ file_length lengths.now file }
{
    lengths[file as usize]
}

/// Returns the home block of a page that begins before its file's end.
pub fn home_block<A: Allocator + Copy>(table: &Super<A>, lengths: &[u64], page: FilePage) -> u32
    requires lengths { AreLengths table.now lengths.now }
    requires file { page.file < length lengths.now }
    requires page { 4096 * page.page < file_length lengths.now page.file }
    ensures home { result ≡ home_of table.now page }
    ensures low { first_home table.now.layout table.now.slots ≤ result }
    ensures within { result < block_count table.now }
    ensures before { IsBeforeEnd table.now lengths.now result }
{
    let _blocks = table.block_count();
    table.first_home(page.file as usize) + page.page
}

/// Returns the capacity of a file in bytes.
pub fn capacity_at<A: Allocator + Copy>(table: &Super<A>, file: FileNumber) -> u64
    requires { file < length table.now.files }
    ensures { result ≡ slice_index_or (capacities_in table.now) file 0 }
{
    table.capacity(file as usize)
}

/// Returns the home block of the page that contains offset `end`, the end of a file of this length. `end` is below the
/// file's capacity.
#[tactic(auto, using(crate::proofs::Capacities::last_within))]
pub fn last_block<A: Allocator + Copy>(table: &Super<A>, file: FileNumber, end: u64) -> u32
    requires file { file < length table.now.files }
    requires fits { end < slice_index_or (capacities_in table.now) file 0 }
    ensures home { result ≡ home_of table.now (end_page file end) }
    ensures within { result < block_count table.now }
{
    let _blocks = table.block_count();
    table.first_home(file as usize) + (end / PAGE) as u32
}

/// Returns the number of the first block after the home blocks of a file of this length.
pub fn block_after<A: Allocator + Copy>(table: &Super<A>, file: FileNumber, end: u64) -> u32
    requires file { file < length table.now.files }
    requires fits { end ≤ slice_index_or (capacities_in table.now) file 0 }
    ensures home { result ≡ first_home_of table.now file + pages_of end }
    ensures within { result ≤ block_count table.now }
{
    let _blocks = table.block_count();
    table.first_home(file as usize) + end.div_ceil(PAGE) as u32
}

/// Returns the block of the lengths with file `file` at length `to`. The lengths themselves are unchanged.
pub fn text_with<A: Allocator + Copy>(
    lengths: &mut Vec<u64, A>,
    file: FileNumber,
    to: u64,
) -> [u8; 4096]
    requires few { length lengths.old.items ≤ 64 }
    requires file { file < length lengths.old.items }
    ensures text { result ≡ lengths_text (slice_set lengths.old.items file to) }
    ensures same { lengths.new.items ≡ lengths.old.items }
{
    let from = lengths[file as usize];
    lengths[file as usize] = to;
    let text = write_lengths(lengths);
    lengths[file as usize] = from;
    text
}
