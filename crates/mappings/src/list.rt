// Lists of mappings in the order of their pages.
ghost use Rattle.std.specs.Prelude.{◌≡◌, ◌+◌, ◌-◌, ◌^◌, ◌≤◌, ◌<◌, ◌++◌, if◌then◌else◌, Some, None, IsSome, IfSome, IfNone, true, false, not, take, drop, length, map};
ghost use Rattle.std.specs.Vec.{vec_capacity, vec_len};
ghost use Rattle.std.specs.List.{list_any, remove_range};
ghost use Rattle.mappings.specs.Places.{all_mapped, allows, goes_on, is_within, splits, without_range};
ghost use Rattle.mappings.specs.inside.Edits.{split_at, put_at, end_splits, given_rights, merged, IsAround, HaveRightsAround, IsWidened, IsSplit};
ghost use Rattle.mappings.specs.inside.Listed.{places_of, IsOrdered, IsMerged, IsKept, IsFirstAfter, IsMeeting};

use crate::mapping::Mapping;
use crate::{PageRange, Rights};
use page_entry::PageNumber;
use std::alloc::Allocator;
use std::ops::Range;

/// Returns the number of mappings that end at the page or before it. This is the place of the first mapping that ends
/// after the page.
pub(crate) fn first_after(list: &[Mapping], page: PageNumber) -> usize
    requires { IsOrdered 0 list.now }
    ensures { IsFirstAfter list.now page result }
{
    list.partition_point(|mapping| mapping.end <= page)
}

/// Returns the places of the mappings that end after the range begins, and begin before it ends. Unless the range is
/// empty, these are the mappings with pages in it.
pub(crate) fn meeting(list: &[Mapping], range: PageRange) -> Range<usize>
    requires { IsOrdered 0 list.now }
    ensures { IsMeeting list.now range.first (range.first + range.count) result.start result.end }
{
    let from = first_after(list, range.first);
    let to = list.partition_point(|mapping| mapping.begins_before_end(range));
    from..to.max(from)
}

/// Returns the mapping with pages on both sides of the page's beginning, if there is one.
pub(crate) fn inside(list: &[Mapping], page: PageNumber) -> Option<Mapping>
    requires { IsKept list.now }
    ensures found { IfSome result (λ mapping. IsAround list.now page mapping) }
    ensures none { IfNone result (goes_on (places_of list.now) page ≡ false) }
{
    let at = first_after(list, page);
    if at >= list.len() {
        return None;
    }
    let mapping = list[at];
    if mapping.first < page {
        Some(mapping)
    } else {
        None
    }
}

/// Whether one mapping contains the range, the page before it and the page after it.
pub(crate) fn is_within(list: &[Mapping], range: PageRange) -> bool
    requires { IsKept list.now }
    ensures { result ≡ is_within (places_of list.now) range.first range.count }
{
    match inside(list, range.first) {
        Some(mapping) => range.count < mapping.end - range.first,
        None => false,
    }
}

/// Whether each page of the range is mapped.
pub(crate) fn covers_all(list: &[Mapping], range: PageRange) -> bool
    requires { IsOrdered 0 list.now }
    ensures { result ≡ all_mapped (places_of list.now) range.first range.count }
{
    let places = meeting(list, range);
    let from = places.start;
    let inside = &list[places];
    let mut next = range.first;
    for mapping in inside {
        if next < mapping.first {
            return false;
        }
        next = mapping.end;
    }
    range.count <= next - range.first
}

/// Whether one of the mappings has an access that doesn't allow the rights.
pub(crate) fn any_forbids(list: &[Mapping], rights: Rights) -> bool
    ensures { result ≡ list_any (λ mapping. not (allows mapping.place.access rights)) list.now }
{
    list.iter()
        .any(|mapping| !mapping.place.access.allows(rights))
}

// Returns the pages of the mapping with pages on both sides of the page's beginning, if it has these rights. Otherwise
// returns an empty range at the page.
fn pages_around(list: &[Mapping], page: PageNumber, rights: Rights) -> Range<PageNumber>
    requires { IsKept list.now }
    ensures { HaveRightsAround list.now page rights result.start result.end }
{
    match inside(list, page) {
        Some(mapping) if mapping.place.rights == rights => mapping.first..mapping.end,
        _ => page..page,
    }
}

/// Returns the range, extended by all pages of the mappings at its ends that have the rights already.
pub(crate) fn widened(list: &[Mapping], range: PageRange, rights: Rights) -> PageRange
    requires kept { IsKept list.now }
    requires fits { range.first + range.count < 2 ^ 64 }
    ensures { IsWidened list.now range rights result }
{
    let first = pages_around(list, range.first, rights).start;
    let end = pages_around(list, range.first + range.count, rights).end;
    PageRange {
        first,
        count: end - first,
    }
}

// Splits the mapping with pages on both sides of the page's beginning, if there is one, at this page. Takes no memory.
fn split<A: Allocator>(list: &mut Vec<Mapping, A>, page: PageNumber)
    requires ordered { IsOrdered 0 list.old.items }
    requires room { length (split_at page list.old.items) ≤ vec_capacity list.old }
    ensures items { list.new.items ≡ split_at page list.old.items }
    ensures capacity { vec_capacity list.old ≤ vec_capacity list.new }
{
    let at = first_after(list, page);
    if at >= list.len() {
        return;
    }
    let whole = list[at];
    if whole.first < page {
        list[at] = Mapping { end: page, ..whole };
        let Ok(()) = list.insert(at + 1, whole.from_page(page)) else {
            unreachable!()
        };
    }
}

/// Splits the mappings that contain an end of the range, so that each mapping lies within the range or outside. Takes
/// no memory.
pub(crate) fn split_ends<A: Allocator>(list: &mut Vec<Mapping, A>, range: PageRange)
    requires kept { IsKept list.old.items }
    requires room { end_splits (places_of list.old.items) range.first range.count
        ≤ vec_capacity list.old - vec_len list.old }
    requires fits { range.first + range.count < 2 ^ 64 }
    ensures { IsSplit list.old.items list.new.items range.first range.count }
{
    split(list, range.first + range.count);
    split(list, range.first);
}

/// Removes the mappings at these places.
pub(crate) fn remove_range<A: Allocator>(list: &mut Vec<Mapping, A>, places: Range<usize>)
    requires forward { places.start ≤ places.end }
    requires within { places.end ≤ vec_len list.old }
    ensures items { list.new.items ≡ remove_range list.old.items places.start places.end }
    ensures capacity { vec_capacity list.new ≡ vec_capacity list.old }
{
    list.drain(places);
}

// Inserts the mapping at a place, if there is one. Takes no memory.
fn put<A: Allocator>(list: &mut Vec<Mapping, A>, at: usize, mapping: Option<Mapping>)
    requires within { at ≤ vec_len list.old }
    requires room { IsSome mapping → vec_len list.old < vec_capacity list.old }
    ensures items { list.new.items ≡ put_at list.old.items at mapping }
    ensures capacity { vec_capacity list.new ≡ vec_capacity list.old }
{
    if let Some(mapping) = mapping {
        let Ok(()) = list.insert(at, mapping) else {
            unreachable!()
        };
    }
}

/// Removes the pages of the range from the mappings. Takes no memory.
pub(crate) fn take_out<A: Allocator>(list: &mut Vec<Mapping, A>, range: PageRange)
    requires kept { IsKept list.old.items }
    requires room { splits (places_of list.old.items) range None ≤ vec_capacity list.old - vec_len list.old }
    requires pages { 0 < range.count }
    requires fits { range.first + range.count < 2 ^ 64 }
    ensures kept { IsKept list.new.items }
    ensures places { places_of list.new.items ≡ without_range (places_of list.old.items) range.first range.count }
{
    let places = meeting(list, range);
    if places.is_empty() {
        return;
    }
    let from = places.start;
    let before = list[from].part_below(range.first);
    let after = list[places.end - 1].part_from(range.first + range.count);
    remove_range(list, places);
    put(list, from, after);
    put(list, from, before);
}

/// Sets the rights of the mappings.
pub(crate) fn set_rights(list: &mut [Mapping], rights: Rights)
    ensures { list.new ≡ map (given_rights rights) list.old }
{
    for mapping in list.iter_mut() {
        *mapping = mapping.with_rights(rights);
    }
}

// Merges adjacent mappings that continue each other. The remaining mappings are the first ones of the list. Returns
// their number.
fn merge(list: &mut [Mapping]) -> usize
    requires { IsOrdered 0 list.old }
    ensures within { result ≤ length list.old }
    ensures merged { take result list.new ≡ merged list.old }
{
    let Some(first) = list.first() else {
        return 0;
    };
    let mut last = *first;
    let mut kept = 0;
    for index in 1..list.len() {
        let next = list[index];
        if next.goes_on_from(last) {
            last.end = next.end;
        } else {
            list[kept] = last;
            kept += 1;
            last = next;
        }
    }
    list[kept] = last;
    kept + 1
}

/// Merges adjacent mappings that continue each other. Only those at these places and their neighbours may do so. Looks
/// at no others.
pub(crate) fn merge_around<A: Allocator>(list: &mut Vec<Mapping, A>, places: Range<usize>)
    requires ordered { IsOrdered 0 list.old.items }
    requires forward { places.start ≤ places.end }
    requires within { places.end ≤ vec_len list.old }
    requires before { IsMerged (take places.start list.old.items) }
    requires after { IsMerged (drop places.end list.old.items) }
    ensures items { list.new.items ≡ merged list.old.items }
    ensures capacity { vec_capacity list.new ≡ vec_capacity list.old }
{
    let from = places.start.saturating_sub(1);
    let to = places.end.saturating_add(1).min(list.len());
    let kept = merge(&mut list[from..to]);
    remove_range(list, from + kept..to);
}
