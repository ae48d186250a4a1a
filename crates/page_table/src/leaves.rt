// Changes to the entries of a range of pages.
ghost use Rattle.std.specs.Prelude.{◌≡◌, ◌≤◌, ◌<◌, ◌+◌, ◌/◌, ◌^◌, ℕ, Some, None, nat_lt, if◌then◌else◌};
ghost use Rattle.page_entry.specs.Entry.{IsEntry};
ghost use Rattle.page_table.specs.inside.Nodes.{read_by_walk, IsTable, EditsPages};
ghost use Rattle.page_table.specs.inside.Changes.{changed_bits};
ghost use Rattle.page_table.specs.inside.Marks.{HasMarks, MarksEntries, IsNextPresent};

use crate::change::{Change, changed};
use crate::lanes::first_set;
use crate::marks::mark;
use crate::nodes::{NODE, PAGES, first_grown, walk};
use page_entry::{Entry, PageNumber};
use std::ops::Range;

/// Sets the entry of a page that has a leaf.
pub(crate) fn set_page(
    words: &mut [u64],
    present: &mut [u64],
    in_use: &mut [u64],
    page: PageNumber,
    entry: u64,
)
    requires table { IsTable words.old }
    requires marks { HasMarks words.old present.old in_use.old }
    requires leaf { 0 < read_by_walk words.old 3 (page / 512) }
    requires entry { IsEntry entry }
    ensures edits { EditsPages (λ _. entry) page (page + 1) words.old words.new }
    ensures marks { HasMarks words.new present.new in_use.new }
{
    let node = walk(words, 3, page / NODE) - 1;
    let place = node * NODE + page % NODE;
    words[place as usize] = entry;
    mark(present, place, entry != 0);
    let used = entry != 0 || first_set(present, node * NODE, (node + 1) * NODE).is_some();
    mark(in_use, node, used);
}

// Returns the page if it is below `end`.
fn below(page: PageNumber, end: PageNumber) -> Option<PageNumber>
    ensures { result ≡ (if nat_lt page end then Some page else None) }
{
    if page < end { Some(page) } else { None }
}

// Returns the first page of the range whose entry is present. Visits leaves and missing blocks, not single pages.
fn next_present(
    words: &[u64],
    present: &[u64],
    start: PageNumber,
    end: PageNumber,
) -> Option<PageNumber>
    requires table { IsTable words.now }
    requires marks { MarksEntries words.now present.now }
    requires end { end ≤ 2 ^ 36 }
    ensures { IsNextPresent words.now start end result }
{
    let mut page = start;
    'leaves: while let Some(first) = first_grown(words, page, end) {
        let block = first / NODE;
        let node = walk(words, 3, block) - 1;
        if let Some(place) = first_set(present, node * NODE + first % NODE, (node + 1) * NODE) {
            return below(block * NODE + place % NODE, end);
        }
        page = (block + 1) * NODE;
    }
    None
}

/// Changes the entries of the range. Visits leaves, missing blocks and present entries, not absent entries.
pub(crate) fn change_pages(
    words: &mut [u64],
    present: &mut [u64],
    in_use: &mut [u64],
    range: &Range<PageNumber>,
    change: Change,
)
    requires table { IsTable words.old }
    requires marks { HasMarks words.old present.old in_use.old }
    ensures edits { EditsPages (changed_bits change.entry) range.now.start range.now.end words.old words.new }
    ensures marks { HasMarks words.new present.new in_use.new }
{
    let end = range.end.min(PAGES);
    let mut start = range.start;
    'pages: while let Some(page) = next_present(words, present, start, end) {
        let entry = changed(change, Entry::of_bits(walk(words, 4, page)));
        set_page(words, present, in_use, page, entry.bits());
        start = page + 1;
    }
}
