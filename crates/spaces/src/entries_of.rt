// The pages of all spaces that map a page of a file by a present entry.
ghost use Rattle.std.specs.Prelude.{◌≡◌};
ghost use Rattle.std.specs.Iterator.{YieldsFirst, item_count};

use crate::entry_pages::EntryPages;
use crate::space::Space;
use page_entry::{FilePage, PageNumber, Pcid};
use std::alloc::Allocator;
use std::marker::Model;

/// An iterator over the pages of all spaces that map a page of a file by a present entry. Each comes with its space's
/// PCID: by PCID, and in ascending order in each space. It allocates no memory.
#[derive(Drop)]
pub struct EntriesOf<'a, A: Allocator + Copy> {
    pub(crate) page: FilePage,
    // The remaining pages of the space with this PCID.
    pub(crate) pcid: Pcid,
    pub(crate) here: EntryPages<'a, A>,
    // The slots after this space's own.
    pub(crate) later: &'a [Option<Space<A>>],
}

impl<'a, A: Allocator + Copy> Model for EntriesOf<'a, A> {
    ghost use Rattle.std.specs.Prelude.{ℕ, List, map, length, ◌++◌, ◌+◌, ◌<◌};
    ghost use Rattle.spaces.specs.Changes.{entries_in};
    ghost use Rattle.spaces.specs.inside.Slots.{listed_from};

    ghost Value = { List (ℕ × ℕ) };

    ghost view = { λ e.
        map (λ page. (e.pcid, page)) e.here ++ entries_in (listed_from (e.pcid + 1) e.later.now) e.page };

    ghost invariant = { λ e. e.pcid + length e.later.now < 4096 };
}

impl<'a, A: Allocator + Copy> Iterator for EntriesOf<'a, A> {
    type Item = (Pcid, PageNumber);

    ghost next_gives = { YieldsFirst (λ entries. entries) };

    ghost remaining = { item_count (λ entries. entries) };

    fn next(&mut self) -> Option<(Pcid, PageNumber)> {
        loop {
            if let Some(page) = self.here.next() {
                return Some((self.pcid, page));
            }
            let (slot, later) = self.later.split_first()?;
            self.later = later;
            self.pcid += 1;
            if let Some(space) = slot {
                self.here = space.entry_pages(self.page);
            }
        }
    }
}
