// The mappings of one address space.
ghost use Rattle.std.specs.Prelude.{◌≡◌, ◌<◌, ◌≤◌, Some, None, OnOk, OnErr, IfErr, unwrap_or};
ghost use Rattle.page_entry.specs.declared.refusal.Refusal.TheVariants.{OutOfMemory};
ghost use Rattle.std.specs.FinMap as fin_map;
ghost use Rattle.mappings.specs.Places.{with_range, without_range, with_rights, any_mapped, all_mapped, any_forbids, is_cut, splits, pages_mapping};
ghost use Rattle.mappings.specs.Judgement.{add_refusal, remove_refusal, protect_refusal, answer_unless};

use crate::list::{
    any_forbids, covers_all, first_after, inside, is_within, meeting, merge_around, set_rights,
    split_ends, take_out, widened,
};
use crate::mapping::Mapping;
use crate::{PageRange, PagesOf, Place, Rights};
use page_entry::{FileNumber, PageIndex, PageNumber, Refusal};
use std::alloc::Allocator;
use std::marker::Model;

/// The pages of an address space that map pages of files, at most one file page each. A mapping is stored as its range,
/// so its memory doesn't depend on its number of pages.
#[derive(Drop)]
pub struct Mappings<A: Allocator + Copy> {
    list: Vec<Mapping, A>,
}

impl<A: Allocator + Copy> Model for Mappings<A> {
    ghost use Rattle.std.specs.Prelude.{◌-◌};
    ghost use Rattle.std.specs.Vec.{vec_len, vec_capacity};
    ghost use Rattle.mappings.specs.State.{MappingsState, mappings_code};
    ghost use Rattle.mappings.specs.inside.Listed.{places_of, IsKept};

    ghost Value = { MappingsState };

    ghost coded = { mappings_code };

    ghost view = { λ m. record { places = places_of m.list.items; spare = vec_capacity m.list - vec_len m.list } };

    ghost invariant = { λ m. IsKept m.list.items };
}

impl<A: Allocator + Copy> Mappings<A> {
    /// Makes mappings in which no page is mapped. Takes no memory.
    pub fn new(alloc: A) -> Self
        ensures { result.places ≡ fin_map.empty }
    {
        Mappings {
            list: Vec::new(alloc),
        }
    }

    /// Returns what the page maps, if it is mapped.
    pub fn where_is(&self, page: PageNumber) -> Option<Place>
        ensures { result ≡ fin_map.get self.now.places page }
    {
        let at = first_after(&self.list, page);
        if at < self.list.len() {
            self.list[at].place_of(page)
        } else {
            None
        }
    }

    /// Whether the pages of the range may be mapped to consecutive pages of a file, from the place on.
    ///
    /// Fails with:
    ///
    /// - `Einval` if the range has no pages or more than 65,536.
    /// - `Einval` if the range isn't within bytes 4,096 to 2^47, or a file page is beyond 2^32 - 1.
    /// - `Eacces` if writing is requested with read-only access.
    /// - `Overlap` if a page of the range is mapped already.
    pub fn may_add(&self, range: PageRange, place: Place) -> Result<(), Refusal>
        ensures { result ≡ answer_unless (add_refusal self.now.places range place) }
    {
        if !range.is_mappable(u64::from(place.page)) {
            return Err(Refusal::Einval);
        }
        if !place.access.allows(place.rights) {
            return Err(Refusal::Eacces);
        }
        if self.has_mapped(range) {
            return Err(Refusal::Overlap);
        }
        Ok(())
    }

    /// Reserves the memory that one later `add` may need: room for one more mapping.
    ///
    /// Fails with `OutOfMemory` if there is no such room and memory is refused. No mapping changes, even if the call
    /// fails.
    pub fn reserve_one(&mut self) -> Result<(), Refusal>
        ensures reserved { OnOk result (0 < self.new.spare) }
        ensures refused { IfErr result (λ why. why ≡ OutOfMemory) }
        ensures missing { OnErr result (self.old.spare ≡ 0) }
        ensures places { self.new.places ≡ self.old.places }
        ensures grows { self.old.spare ≤ self.new.spare }
    {
        self.list.reserve(1).map_err(|_| Refusal::OutOfMemory)
    }

    /// Maps the pages of the range to consecutive pages of a file, from the place on. A mapping that continues its
    /// neighbour is merged with it.
    ///
    /// Fails as `may_add` does, and then with `OutOfMemory` if memory for one more mapping is refused. After a failure
    /// nothing has changed.
    pub fn add(&mut self, range: PageRange, place: Place) -> Result<(), Refusal>
        ensures added { OnOk result (self.new.places ≡ with_range self.old.places range.first range.count place) }
        ensures allowed { OnOk result (add_refusal self.old.places range place ≡ None) }
        ensures refused { IfErr result (λ why. why ≡ unwrap_or (add_refusal self.old.places range place) OutOfMemory) }
        ensures memory { OnErr result (add_refusal self.old.places range place ≡ None → self.old.spare ≡ 0) }
        ensures err { OnErr result (self.new ≡ self.old) }
    {
        self.may_add(range, place)?;
        if self.list.reserve(1).is_err() {
            return Err(Refusal::OutOfMemory);
        }
        let mapping = Mapping {
            first: range.first,
            end: range.first + range.count,
            place,
        };
        let at = first_after(&self.list, range.first);
        let Ok(()) = self.list.insert(at, mapping) else {
            unreachable!()
        };
        merge_around(&mut self.list, at..at + 1);
        Ok(())
    }

    /// Whether a page of the range is mapped.
    pub fn has_mapped(&self, range: PageRange) -> bool
        ensures { result ≡ any_mapped self.now.places range.first range.count }
    {
        0 < range.count && !meeting(&self.list, range).is_empty()
    }

    /// Whether each page of the range is mapped.
    pub fn is_mapped(&self, range: PageRange) -> bool
        ensures { result ≡ all_mapped self.now.places range.first range.count }
    {
        covers_all(&self.list, range)
    }

    // Whether a mapping of the range's pages has an access that doesn't allow the rights.
    fn has_forbidden(&self, range: PageRange, rights: Rights) -> bool
        ensures { result ≡ any_forbids self.now.places range.first range.count rights }
    {
        0 < range.count && any_forbids(&self.list[meeting(&self.list, range)], rights)
    }

    // Whether a mapping with other rights contains this page and the page before it.
    fn is_cut(&self, page: PageNumber, rights: Rights) -> bool
        ensures { result ≡ is_cut self.now.places page rights }
    {
        match inside(&self.list, page) {
            Some(mapping) => mapping.place.rights != rights,
            None => false,
        }
    }

    // Returns the number of mappings that a call for the range splits: a `protect` with the rights, or without any a
    // `remove`.
    fn splits(&self, range: PageRange, rights: Option<Rights>) -> usize
        ensures { result ≡ splits self.now.places range rights }
    {
        let list = &self.list;
        match rights {
            None => usize::from(is_within(list, range)),
            Some(rights) => {
                // No page from 2^35 on is mapped. So if the sum overflows, no mapping is cut at the end.
                let end = range.first.saturating_add(range.count);
                usize::from(self.is_cut(range.first, rights))
                    + usize::from(self.is_cut(end, rights))
            }
        }
    }

    /// Reserves the memory that one later `protect` of the range with the rights needs, or without any a `remove`. A
    /// `remove` needs room for one more mapping if a mapping has a page on both sides of the range, and otherwise none.
    /// A `protect` splits a mapping at each end of the range that is within a mapping with other rights. It needs room
    /// for one more mapping for each such end.
    ///
    /// Fails with `OutOfMemory` if there is no such room and memory is refused. No mapping changes, even if the call
    /// fails.
    pub fn reserve(&mut self, range: PageRange, rights: Option<Rights>) -> Result<(), Refusal>
        ensures reserved { OnOk result (splits self.new.places range rights ≤ self.new.spare) }
        ensures refused { IfErr result (λ why. why ≡ OutOfMemory) }
        ensures missing { OnErr result (self.old.spare < splits self.old.places range rights) }
        ensures places { self.new.places ≡ self.old.places }
        ensures grows { self.old.spare ≤ self.new.spare }
    {
        let splits = self.splits(range, rights);
        self.list.reserve(splits).map_err(|_| Refusal::OutOfMemory)
    }

    /// Unmaps each page of the range that is mapped. If the range covers the beginning or the end of a mapping, the
    /// mapping becomes shorter. If it covers only a part in the middle, the mapping becomes two. Takes no memory.
    ///
    /// Fails with `Einval` if the range has no pages or isn't within bytes 4,096 to 2^47. After a failure nothing has
    /// changed.
    pub fn remove(&mut self, range: PageRange) -> Result<(), Refusal>
        requires { splits self.old.places range None ≤ self.old.spare }
        ensures judged { result ≡ answer_unless (remove_refusal range) }
        ensures removed { OnOk result (self.new.places ≡ without_range self.old.places range.first range.count) }
        ensures err { OnErr result (self.new ≡ self.old) }
    {
        if !range.is_user() {
            return Err(Refusal::Einval);
        }
        take_out(&mut self.list, range);
        Ok(())
    }

    /// Whether the rights of the range's mappings may be set to these.
    ///
    /// Fails with:
    ///
    /// - `Einval` if the range has no pages or isn't within bytes 4,096 to 2^47.
    /// - `Enomem` if a page of the range isn't mapped.
    /// - `Eacces` if writing is requested and a mapping of the range has read-only access.
    pub fn may_protect(&self, range: PageRange, rights: Rights) -> Result<(), Refusal>
        ensures { result ≡ answer_unless (protect_refusal self.now.places range rights) }
    {
        if !range.is_user() {
            return Err(Refusal::Einval);
        }
        if !self.is_mapped(range) {
            return Err(Refusal::Enomem);
        }
        if self.has_forbidden(range, rights) {
            return Err(Refusal::Eacces);
        }
        Ok(())
    }

    /// Sets the rights of the range's pages, and of no others. Mappings that then continue their neighbours are merged
    /// with them. Takes no memory.
    ///
    /// Fails as `may_protect` does. After a failure nothing has changed.
    pub fn protect(&mut self, range: PageRange, rights: Rights) -> Result<(), Refusal>
        requires { splits self.old.places range (Some rights) ≤ self.old.spare }
        ensures judged { result ≡ answer_unless (protect_refusal self.old.places range rights) }
        ensures protected { OnOk result (self.new.places ≡ with_rights self.old.places range.first range.count rights) }
        ensures err { OnErr result (self.new ≡ self.old) }
    {
        self.may_protect(range, rights)?;
        let range = widened(&self.list, range, rights);
        split_ends(&mut self.list, range);
        let places = meeting(&self.list, range);
        let (from, to) = (places.start, places.end);
        set_rights(&mut self.list[places], rights);
        merge_around(&mut self.list, from..to);
        Ok(())
    }

    /// Returns the pages that map this page of this file, in ascending order. Takes no memory.
    pub fn pages_of(&self, file: FileNumber, page: PageIndex) -> PagesOf<'_>
        ensures { result ≡ pages_mapping self.now.places file page }
    {
        PagesOf::new(&self.list, file, page)
    }
}
