// Pages of files: their home blocks, and the number of their bytes that belong to the file.
ghost use Rattle.std.specs.Prelude.{◌≡◌, ◌↔◌, ◌<◌, length, take, replicate, slice_index_or, IsTrue};
ghost use Rattle.volume_codec.specs.Super.{block_count, pages_of};
ghost use Rattle.volume_codec.specs.Text.{padded};
ghost use Rattle.journal.specs.Pages.{home_of};
ghost use Rattle.machine.specs.Refusals.{pages_in_file};

use page_entry::{FileNumber, FilePage, PAGE};
use std::alloc::Allocator;
use volume_codec::Super;

/// Returns the number of pages of a file of the table.
pub(crate) fn pages_in_file<A: Allocator + Copy>(table: &Super<A>, file: FileNumber) -> u32
    requires { file < length table.now.files }
    ensures { result ≡ pages_in_file table.now.files file }
{
    table.pages(file as usize)
}

/// Returns the number of pages that this many bytes need.
pub(crate) fn pages_for(length: u64) -> u64
    ensures { result ≡ pages_of length }
{
    length / PAGE + u64::from(length % PAGE != 0)
}

/// Returns the length of a file in bytes, from these lengths.
pub(crate) fn length_at(lengths: &[u64], file: FileNumber) -> u64
    requires { file < length lengths.now }
    ensures { result ≡ slice_index_or lengths.now file 0 }
{
    lengths[file as usize]
}

/// Returns the home block of a page of a file.
pub(crate) fn home_block<A: Allocator + Copy>(table: &Super<A>, page: FilePage) -> u32
    requires file { page.file < length table.now.files }
    requires page { page.page < pages_in_file table.now.files page.file }
    ensures home { result ≡ home_of table.now page }
    ensures within { result < block_count table.now }
{
    let _blocks = table.block_count();
    table.first_home(page.file as usize) + page.page
}

fn clear(bytes: &mut [u8])
    ensures { bytes.new ≡ replicate (length bytes.old) 0 }
{
    bytes.fill(0);
}

/// Keeps a page's first `left` bytes, and sets those after them to zero.
#[tactic(auto, unfolding(volume_codec::specs::Text::zeros))]
pub(crate) fn cut_off(page: &mut [u8; 4096], left: u64)
    ensures { page.new ≡ padded 4096 (take left page.old) }
{
    if left < PAGE {
        clear(&mut page[left as usize..]);
    }
}

/// Whether a page has only zeros after its first `left` bytes.
pub(crate) fn is_cut(page: &[u8; 4096], left: u64) -> bool
    ensures { IsTrue result ↔ (page.now ≡ padded 4096 (take left page.now)) }
{
    let mut bytes = *page;
    cut_off(&mut bytes, left);
    bytes == *page
}
