// Notes the frames of dirty entries, and lists the pages in noted frames.
ghost use Rattle.std.specs.Prelude.{◌≡◌, ◌≤◌, ◌<◌, ◌+◌, ◌^◌, ◌++◌, true, length, ℕ, slice_set, IsTrue, ◌↔◌};
ghost use Rattle.std.specs.List.{list_any};
ghost use Rattle.std.specs.Option.{option_to_list};
ghost use Rattle.std.specs.Vec.{vec_capacity, vec_len};
ghost use Rattle.page_entry.specs.Entry.{frame_of};
ghost use Rattle.spaces.specs.Spaces.{has_space};
ghost use Rattle.checkpoint.specs.Checkpoint.{HasDirtyEntry, IsInRange, IsInSpace, IsMappingOf};
ghost use Rattle.checkpoint.specs.Backing.{HasNotes};
ghost use Rattle.checkpoint.specs.inside.Notes.{AreNoted, IsAnyPage, AreNotedPages, noted_page};

use frames::Frames;
use mappings::PageRange;
use page_entry::{Entry, FilePage, FrameNumber, Pcid};
use spaces::{ALL_PAGES, Spaces};
use std::alloc::Allocator;

// Notes the frame of an entry.
fn note(notes: &mut [bool], entry: Entry)
    requires { frame_of entry < length notes.old }
    ensures { notes.new ≡ slice_set notes.old (frame_of entry) true }
{
    notes[entry.frame() as usize] = true;
}

/// Whether any frame is noted.
pub(crate) fn has_note(notes: &[bool]) -> bool
    ensures { result ≡ list_any (λ noted. noted) notes.now }
{
    notes.iter().any(|noted| *noted)
}

/// Notes the frame of each dirty entry of a range of pages of a space.
pub(crate) fn note_range<A: Allocator + Copy>(
    notes: &mut [bool],
    spaces: &Spaces<A>,
    pcid: Pcid,
    range: PageRange,
)
    requires there { has_space spaces.now.map pcid ≡ true }
    requires fits { range.first + range.count < 2 ^ 64 }
    requires notes { HasNotes spaces.now.map (length notes.old) }
    ensures { AreNoted spaces.now.map (IsInRange pcid range) notes.old notes.new }
{
    for page in spaces.dirty_pages(pcid, range) {
        note(notes, spaces.entry(pcid, page));
    }
}

/// Notes the frame of each dirty entry of a space, if the space exists.
pub(crate) fn note_space<A: Allocator + Copy>(notes: &mut [bool], spaces: &Spaces<A>, pcid: Pcid)
    requires { HasNotes spaces.now.map (length notes.old) }
    ensures { AreNoted spaces.now.map (IsInSpace pcid) notes.old notes.new }
{
    if spaces.has(pcid) {
        note_range(notes, spaces, pcid, ALL_PAGES);
    }
}

/// Notes the frame of each dirty entry of every space.
pub(crate) fn note_all<A: Allocator + Copy>(notes: &mut [bool], spaces: &Spaces<A>)
    requires { HasNotes spaces.now.map (length notes.old) }
    ensures { AreNoted spaces.now.map IsAnyPage notes.old notes.new }
{
    spaces.note_dirty(notes);
}

/// Notes the frame of each dirty entry whose page maps this page of a file, in every space.
pub(crate) fn note_page<A: Allocator + Copy>(notes: &mut [bool], spaces: &Spaces<A>, page: FilePage)
    requires { HasNotes spaces.now.map (length notes.old) }
    ensures { AreNoted spaces.now.map (IsMappingOf spaces.now.map page) notes.old notes.new }
{
    for (pcid, q) in spaces.entries_of(page) {
        let entry = spaces.entry(pcid, q);
        if entry.dirty() {
            note(notes, entry);
        }
    }
}

/// Whether some space has a dirty entry for a page that maps this page of a file.
pub(crate) fn has_dirty_entry<A: Allocator + Copy>(spaces: &Spaces<A>, page: FilePage) -> bool
    ensures { IsTrue result
        ↔ ((frame : ℕ) × HasDirtyEntry spaces.now.map (IsMappingOf spaces.now.map page) frame) }
{
    for (pcid, q) in spaces.entries_of(page) {
        if spaces.entry(pcid, q).dirty() {
            return true;
        }
    }
    false
}

// Appends the page in a frame to the list, if the frame is noted.
fn list_page<A: Allocator + Copy>(
    pages: &mut Vec<FilePage, A>,
    notes: &[bool],
    frames: &Frames<A>,
    frame: FrameNumber,
)
    requires within { frame < length notes.now }
    requires room { vec_len pages.old < vec_capacity pages.old }
    ensures listed { pages.new.items ≡ pages.old.items ++ option_to_list (noted_page frames.now notes.now frame) }
    ensures capacity { vec_capacity pages.new ≡ vec_capacity pages.old }
{
    if notes[frame as usize] {
        if let Some(page) = frames.owner(frame) {
            pages.push_reserved(page);
        }
    }
}

// If fewer than one in `SHARE` of the frames in use are noted, `list_noted` sorts their pages.
const SHARE: usize = 8;

/// Lists the pages of the noted frames in use, in the order of their home blocks. `pages` has room for a page of each
/// frame, so no memory is allocated.
///
/// If few frames are noted, their pages are sorted. So a small commit costs little even if many frames are in use. If
/// many are noted, their pages are taken from the order of all frames in use. So a page of a large commit costs no more
/// than a page of a small one.
pub(crate) fn list_noted<A: Allocator + Copy>(
    pages: &mut Vec<FilePage, A>,
    notes: &[bool],
    frames: &Frames<A>,
)
    requires sized { length notes.now ≡ length frames.now.frames }
    requires room { length notes.now ≤ vec_capacity pages.old }
    ensures listed { AreNotedPages frames.now notes.now pages.new.items }
    ensures capacity { vec_capacity pages.new ≡ vec_capacity pages.old }
{
    pages.clear();
    for frame in 0..frames.count() {
        list_page(pages, notes, frames, frame);
    }
    let order = frames.in_order();
    if pages.len() < order.len() / SHARE {
        pages.sort_unstable();
        return;
    }
    pages.clear();
    for place in 0..order.len() {
        list_page(pages, notes, frames, order.get(place));
    }
}
