// An iterator over the pages of a range whose entries are dirty.
ghost use Rattle.std.specs.Prelude.{◌≡◌, ◌≤◌, ◌<◌, ◌/◌, ◌^◌, IfSome};
ghost use Rattle.std.specs.Iterator.{YieldsFirst, item_count};
ghost use Rattle.page_table.specs.Table.{dirty_among};
ghost use Rattle.page_table.specs.inside.Nodes.{lookup, present_from, IsTable, IsLeafMask, IsFirstOfLeaf, IsFirstDirty};

use crate::lanes::{dirty_mask, first_set};
use crate::nodes::{NODE, PAGES, first_grown, walk};
use page_entry::PageNumber;
use std::marker::Model;
use std::ops::Range;

/// An iterator over the pages of a range whose entries are dirty, in rising order. It allocates no memory.
#[derive(Drop)]
pub struct DirtyPages<'a> {
    words: &'a [u64],
    range: Range<PageNumber>,
    // The dirty mask of the leaf that contains the range's first page.
    mask: [u64; 8],
}

impl<'a> Model for DirtyPages<'a> {
    ghost use Rattle.std.specs.Prelude.{ℕ, List, ◌^◌};
    ghost use Rattle.page_table.specs.Table.{dirty_among};
    ghost use Rattle.page_table.specs.inside.Nodes.{lookup, present_from, AreDirtyPages};

    ghost Value = { List ℕ };

    ghost view = { λ d. dirty_among (present_from (lookup d.words.now) 0 (2 ^ 36)) d.range.start d.range.end };

    ghost invariant = { λ d. AreDirtyPages d.words.now d.range.start d.mask };
}

// Returns the dirty mask of the leaf of a block of 512 pages. If the block has no leaf, no bit is set.
fn leaf_mask(words: &[u64], block: u64) -> [u64; 8]
    requires { IsTable words.now }
    ensures { IsLeafMask words.now block result }
{
    let node = walk(words, 3, block);
    if node == 0 {
        return [0; 8];
    }
    let first = ((node - 1) * NODE) as usize;
    let Ok(entries) = <&[u64; 512]>::try_from(&words[first..first + 512]) else {
        unreachable!()
    };
    dirty_mask(entries)
}

// Returns the dirty mask of the leaf of a page. `mask` is that of `block`, so within this block no leaf is read again.
fn mask_at(words: &[u64], mask: [u64; 8], block: u64, page: PageNumber) -> [u64; 8]
    requires table { IsTable words.now }
    requires mask { IsLeafMask words.now block mask }
    ensures { IsLeafMask words.now (page / 512) result }
{
    if page / NODE == block {
        mask
    } else {
        leaf_mask(words, page / NODE)
    }
}

// Returns the first dirty page of the range that is in the same leaf as `start`. `mask` is this leaf's dirty mask.
fn first_of_leaf(mask: &[u64; 8], start: PageNumber, end: PageNumber) -> Option<PageNumber>
    requires pages { start < end }
    requires small { end ≤ 2 ^ 36 }
    ensures { IsFirstOfLeaf mask.now start end result }
{
    let place = first_set(mask, start % NODE, NODE)?;
    let page = start / NODE * NODE + place;
    if page < end { Some(page) } else { None }
}

// Returns the first dirty page of the range. `mask` is the dirty mask of the leaf that contains `start`.
fn first_dirty(
    words: &[u64],
    mask: &[u64; 8],
    start: PageNumber,
    end: PageNumber,
) -> Option<PageNumber>
    requires table { IsTable words.now }
    requires mask { IsLeafMask words.now (start / 512) mask.now }
    ensures first { IsFirstDirty words.now start end result }
    ensures small { IfSome result (λ page. page < 2 ^ 36) }
{
    let end = end.min(PAGES);
    if end <= start {
        return None;
    }
    if let Some(page) = first_of_leaf(mask, start, end) {
        return Some(page);
    }
    let mut next = (start / NODE + 1) * NODE;
    'leaves: while let Some(first) = first_grown(words, next, end) {
        let later = leaf_mask(words, first / NODE);
        if let Some(page) = first_of_leaf(&later, first, end) {
            return Some(page);
        }
        next = (first / NODE + 1) * NODE;
    }
    None
}

impl<'a> DirtyPages<'a> {
    /// Returns the iterator over the dirty pages of the range.
    pub(crate) fn new(words: &'a [u64], range: Range<PageNumber>) -> Self
        requires { IsTable words.now }
        ensures { result ≡ dirty_among (present_from (lookup words.now) 0 (2 ^ 36)) range.start range.end }
    {
        let mask = leaf_mask(words, range.start / NODE);
        DirtyPages { words, range, mask }
    }
}

impl<'a> Iterator for DirtyPages<'a> {
    type Item = PageNumber;

    ghost next_gives = { YieldsFirst (λ pages. pages) };

    ghost remaining = { item_count (λ pages. pages) };

    fn next(&mut self) -> Option<PageNumber> {
        let page = first_dirty(self.words, &self.mask, self.range.start, self.range.end)?;
        self.mask = mask_at(self.words, self.mask, self.range.start / NODE, page + 1);
        self.range.start = page + 1;
        Some(page)
    }
}
