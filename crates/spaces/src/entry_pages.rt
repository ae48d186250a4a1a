// The pages of one space that map a page of a file by a present entry.
ghost use Rattle.std.specs.Prelude.{◌≡◌};
ghost use Rattle.std.specs.Iterator.{YieldsFirst, item_count};

use mappings::PagesOf;
use page_entry::PageNumber;
use page_table::Table;
use std::alloc::Allocator;
use std::marker::Model;

/// An iterator over the pages that have a present entry, in their order.
#[derive(Drop)]
pub(crate) struct EntryPages<'a, A: Allocator + Copy> {
    pub(crate) table: &'a Table<A>,
    pub(crate) pages: PagesOf<'a>,
}

impl<'a, A: Allocator + Copy> Model for EntryPages<'a, A> {
    ghost use Rattle.std.specs.Prelude.{ℕ, List};
    ghost use Rattle.spaces.specs.Changes.{with_present};

    ghost Value = { List ℕ };

    ghost view = { λ p. with_present p.table.now.entries p.pages };
}

impl<'a, A: Allocator + Copy> Iterator for EntryPages<'a, A> {
    type Item = PageNumber;

    ghost next_gives = { YieldsFirst (λ pages. pages) };

    ghost remaining = { item_count (λ pages. pages) };

    fn next(&mut self) -> Option<PageNumber> {
        while let Some(page) = self.pages.next() {
            if self.table.get(page).present() {
                return Some(page);
            }
        }
        None
    }
}
