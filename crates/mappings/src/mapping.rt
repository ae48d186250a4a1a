// One mapping.
ghost use Rattle.std.specs.Prelude.{◌≡◌, ◌+◌, ◌-◌, ◌^◌, ◌≤◌, ◌<◌, if◌then◌else◌, Some, None, IsTrue, nat_lt};
ghost use Rattle.mappings.specs.inside.Edits.{from_page, part_below, part_from, given_rights};
ghost use Rattle.mappings.specs.inside.Listed.{covers, place_in, page_in, joins, IsMapping};

use crate::{PageRange, Place, Rights};
use page_entry::{FileNumber, PageIndex, PageNumber};

/// The pages from `first` up to `end`, exclusive. They map consecutive pages of a file, of which the first is at
/// `place`.
#[derive(Clone, Copy, Debug)]
pub(crate) struct Mapping {
    pub(crate) first: PageNumber,
    pub(crate) end: PageNumber,
    pub(crate) place: Place,
}

impl Mapping {
    /// Returns what a page maps, if it belongs to the mapping.
    pub(crate) fn place_of(self, page: PageNumber) -> Option<Place>
        requires { self.place.page + (self.end - self.first) ≤ 2 ^ 32 }
        ensures { result ≡ (if covers self page then Some (place_in self page) else None) }
    {
        if self.first <= page && page < self.end {
            let further = (page - self.first) as u32;
            let page = self.place.page + further;
            Some(Place { page, ..self.place })
        } else {
            None
        }
    }

    /// Whether the mapping begins before the range ends.
    pub(crate) fn begins_before_end(&self, range: PageRange) -> bool
        ensures { result ≡ nat_lt self.now.first (range.first + range.count) }
    {
        self.first < range.first || self.first - range.first < range.count
    }

    /// Whether the mapping continues another one: with the next page, the next page of the same file, and the same
    /// rights and access.
    pub(crate) fn goes_on_from(self, before: Mapping) -> bool
        requires pages { IsMapping before }
        ensures { result ≡ joins before self }
    {
        before.end == self.first
            && before.place.file == self.place.file
            && u64::from(before.place.page) + (before.end - before.first)
                == u64::from(self.place.page)
            && before.place.rights == self.place.rights
            && before.place.access == self.place.access
    }

    /// Returns the part of the mapping from one of its pages on.
    pub(crate) fn from_page(self, page: PageNumber) -> Mapping
        requires pages { IsMapping self }
        requires inside { IsTrue (covers self page) }
        ensures { result ≡ from_page self page }
    {
        let further = (page - self.first) as u32;
        Mapping {
            first: page,
            place: Place {
                page: self.place.page + further,
                ..self.place
            },
            ..self
        }
    }

    /// Returns the part of the mapping below a page, if there is one.
    pub(crate) fn part_below(self, page: PageNumber) -> Option<Mapping>
        ensures { result ≡ part_below page self }
    {
        if self.first < page {
            Some(Mapping { end: page, ..self })
        } else {
            None
        }
    }

    /// Returns the part of the mapping from a page on, if there is one.
    pub(crate) fn part_from(self, page: PageNumber) -> Option<Mapping>
        requires pages { IsMapping self }
        requires begins { self.first ≤ page }
        ensures { result ≡ part_from page self }
    {
        if page < self.end {
            Some(self.from_page(page))
        } else {
            None
        }
    }

    /// Returns the mapping with these rights.
    pub(crate) fn with_rights(self, rights: Rights) -> Mapping
        ensures { result ≡ given_rights rights self }
    {
        Mapping {
            place: Place {
                rights,
                ..self.place
            },
            ..self
        }
    }

    /// Returns the page of the mapping that maps this page of this file, if there is one.
    pub(crate) fn page_of(self, file: FileNumber, page: PageIndex) -> Option<PageNumber>
        requires { IsMapping self }
        ensures { result ≡ page_in self file page }
    {
        if self.place.file == file && self.place.page <= page {
            let further = u64::from(page - self.place.page);
            if further < self.end - self.first {
                return Some(self.first + further);
            }
        }
        None
    }
}
