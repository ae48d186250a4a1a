// The parts of a change of a file's length. Pages past the end leave memory, the last page is cut, and a growth adds
// pages of zeros.
ghost use Rattle.std.specs.Prelude.{◌≡◌, ◌+◌, ◌-◌, ◌*◌, ◌<◌, ◌≤◌, ◌^◌, ℕ, true, false, IsSome, is_none, count_by, length, slice_set};
ghost use Rattle.page_entry.specs.declared.numbers.FilePage.{FilePage};
ghost use Rattle.frames.specs.Frames.{frame_at, without_frame, zero_page, HasNoneFrom};
ghost use Rattle.spaces.specs.Spaces.{EditsEntries};
ghost use Rattle.spaces.specs.Changes.{without_entries_of, without_past};
ghost use Rattle.checkpoint.specs.Checkpoint.{CheckpointState, Holds};
ghost use Rattle.checkpoint.specs.Backing.{AreBacked};
ghost use Rattle.checkpoint.specs.Resizing.{PagesResized, pages};
ghost use Rattle.checkpoint.specs.inside.Notes.{noted_in};
ghost use Rattle.checkpoint.specs.inside.Resized.{BeginBefore, DropsPast, CutsPage, CutsFile, AddsPages, NotesPages};

use frames::Frames;
use page_entry::{FileNumber, FilePage, FrameNumber, PAGE};
use spaces::Spaces;
use std::alloc::Allocator;

// Returns the number of pages that `length` bytes take.
fn pages_in(length: u64) -> u64
    requires { length ≤ 2 ^ 44 }
    ensures { result ≡ pages length }
{
    (length + 4095) / PAGE
}

// Clears the entries of the page in a frame in use, and frees the frame. The frame is no longer noted.
fn drop_page<A: Allocator + Copy>(
    notes: &mut [bool],
    spaces: &mut Spaces<A>,
    frames: &mut Frames<A>,
    frame: FrameNumber,
)
    requires in_use { IsSome (frame_at frames.old frame) }
    requires within { frame < length notes.old }
    ensures cleared { (owner : FilePage) → Holds frames.old frame owner
        → EditsEntries (without_entries_of owner spaces.old.map) spaces.old.map spaces.new.map }
    ensures prepared { spaces.new.prepared ≡ spaces.old.prepared }
    ensures frames { frames.new ≡ without_frame frames.old frame }
    ensures notes { notes.new ≡ slice_set notes.old frame false }
{
    let page = frames.owner(frame).unwrap();
    spaces.clear_entries_of(page);
    frames.give(frame);
    notes[frame as usize] = false;
}

/// Clears the entries of every page of a file that begins at or past `end`, and frees the frames of these pages. The
/// frames are no longer noted.
pub(crate) fn drop_past<A: Allocator + Copy>(
    notes: &mut [bool],
    spaces: &mut Spaces<A>,
    frames: &mut Frames<A>,
    file: FileNumber,
    end: u64,
)
    requires sized { length notes.old ≡ length frames.old.frames }
    requires small { end ≤ 2 ^ 44 }
    requires before { BeginBefore frames.old file (2 ^ 44) }
    ensures dropped { DropsPast file end frames.old notes.old frames.new notes.new }
    ensures before { BeginBefore frames.new file end }
    ensures prepared { spaces.new.prepared ≡ spaces.old.prepared }
    ensures cleared { (c : CheckpointState) → AreBacked frames.old c spaces.old.map
        → EditsEntries (without_past file end spaces.old.map) spaces.old.map spaces.new.map }
{
    let whole = pages_in(end);
    if whole >= 1 << 32 {
        return;
    }
    let first = FilePage {
        file,
        page: whole as u32,
    };
    'pages: while let Some(frame) = frames.find_from(first) {
        drop_page(notes, spaces, frames, frame);
    }
}

// Sets the bytes of a page to zero from byte `at` on, if the page is in memory.
fn cut_page<A: Allocator + Copy>(frames: &mut Frames<A>, page: FilePage, at: usize)
    requires { at < 4096 }
    ensures { CutsPage page at frames.old frames.new }
{
    let _count = frames.count();
    if let Some(frame) = frames.find(page) {
        frames.write(frame, at, &zeros()[at..]);
    }
}

/// Sets the bytes of a file in memory to zero from byte `end` on. No page in memory begins at or past `end`.
pub(crate) fn cut_file<A: Allocator + Copy>(frames: &mut Frames<A>, file: FileNumber, end: u64)
    requires small { end ≤ 2 ^ 44 }
    requires before { BeginBefore frames.old file end }
    ensures { CutsFile file end frames.old frames.new }
{
    let _count = frames.count();
    let at = end % PAGE;
    if at > 0 {
        let page = FilePage {
            file,
            page: (end / PAGE) as u32,
        };
        cut_page(frames, page, at as usize);
    }
}

/// Takes a free frame of zeros for each page of a file from `first` up to but not including `end`. None of these pages
/// is in memory before.
pub(crate) fn add_pages<A: Allocator + Copy>(
    frames: &mut Frames<A>,
    file: FileNumber,
    first: u64,
    end: u64,
)
    requires some { first ≤ end }
    requires small { end ≤ 2 ^ 32 }
    requires none { HasNoneFrom frames.old (record { file = file; page = first }) }
    requires room { end - first ≤ count_by is_none frames.old.frames }
    ensures { AddsPages file first end frames.old frames.new }
{
    for page in first..end {
        let Ok(_frame) = frames.take(FilePage {
            file,
            page: page as u32,
        }) else {
            unreachable!()
        };
    }
}

/// Notes the frames of the pages of a file from `first` up to but not including `end`.
pub(crate) fn note_pages<A: Allocator + Copy>(
    notes: &mut [bool],
    frames: &Frames<A>,
    file: FileNumber,
    first: u64,
    end: u64,
)
    requires some { first ≤ end }
    requires small { end ≤ 2 ^ 32 }
    requires sized { length notes.old ≡ length frames.now.frames }
    ensures { NotesPages frames.now file first end notes.old notes.new }
{
    for page in first..end {
        if let Some(frame) = frames.find(FilePage {
            file,
            page: page as u32,
        }) {
            notes[frame as usize] = true;
        }
    }
}

/// Changes the length of a file, as `Checkpoint::resize` does. It changes only the notes: the frozen pages stay.
pub(crate) fn resize_pages<A: Allocator + Copy>(
    notes: &mut [bool],
    spaces: &mut Spaces<A>,
    frames: &mut Frames<A>,
    file: FileNumber,
    old: u64,
    to: u64,
)
    requires sized { length notes.old ≡ length frames.old.frames }
    requires noted { (frame : ℕ) → noted_in notes.old frame ≡ true → IsSome (frame_at frames.old frame) }
    requires inside { BeginBefore frames.old file old }
    requires room { pages to - pages old ≤ count_by is_none frames.old.frames }
    requires small { (old ≤ 2 ^ 44) × (to ≤ 2 ^ 44) }
    ensures resized { (c : CheckpointState) → c.notes ≡ notes.old → AreBacked frames.old c spaces.old.map
        → PagesResized spaces.old.map frames.old c file old to spaces.new.map frames.new
        (record c { notes = notes.new }) }
    ensures prepared { spaces.new.prepared ≡ spaces.old.prepared }
{
    drop_past(notes, spaces, frames, file, to);
    cut_file(frames, file, old.min(to));
    let _count = frames.count();
    if old < to {
        let end = pages_in(to);
        add_pages(frames, file, pages_in(old), end);
        let _grown = frames.count();
        note_pages(notes, frames, file, old / PAGE, end);
    }
}

// A page of zeros.
fn zeros() -> [u8; 4096]
    ensures { result ≡ zero_page }
{
    [0; 4096]
}
