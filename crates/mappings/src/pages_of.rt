// The pages that map one page of a file.
ghost use Rattle.std.specs.Prelude.{◌≡◌};
ghost use Rattle.std.specs.Iterator.{YieldsFirst, item_count};
ghost use Rattle.mappings.specs.inside.Listed.{pages_listed, IsOrdered};

use crate::mapping::Mapping;
use page_entry::{FileNumber, PageIndex, PageNumber};
use std::marker::Model;

/// The pages that map one page of a file, in ascending order.
#[derive(Drop)]
pub struct PagesOf<'a> {
    rest: &'a [Mapping],
    file: FileNumber,
    page: PageIndex,
}

impl<'a> Model for PagesOf<'a> {
    ghost use Rattle.std.specs.Prelude.{List, ℕ};
    ghost use Rattle.mappings.specs.inside.Listed.{pages_listed, IsOrdered};

    ghost Value = { List ℕ };

    ghost view = { λ pages. pages_listed pages.rest.now pages.file pages.page };

    ghost invariant = { λ pages. IsOrdered 0 pages.rest.now };
}

impl<'a> PagesOf<'a> {
    pub(crate) fn new(rest: &'a [Mapping], file: FileNumber, page: PageIndex) -> Self
        requires { IsOrdered 0 rest.now }
        ensures { result ≡ pages_listed rest.now file page }
    {
        PagesOf { rest, file, page }
    }
}

impl<'a> Iterator for PagesOf<'a> {
    type Item = PageNumber;

    ghost next_gives = { YieldsFirst (λ pages. pages) };

    ghost remaining = { item_count (λ pages. pages) };

    fn next(&mut self) -> Option<PageNumber> {
        while let Some((mapping, rest)) = self.rest.split_first() {
            self.rest = rest;
            let page = mapping.page_of(self.file, self.page);
            if page.is_some() {
                return page;
            }
        }
        None
    }
}
