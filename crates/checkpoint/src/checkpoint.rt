// The dirty and the frozen pages of a machine.
ghost use Rattle.std.specs.Prelude.{◌≡◌, ◌-◌, ◌*◌, ◌^◌, ◌<◌, ◌≤◌, ◌↔◌, ℕ, Bool, List, Some, None, [], length, count_by, is_none, IsSome, IfOk, IsTrue, true, false, slice_index_or};
ghost use Rattle.std.specs.FinMap as maps;
ghost use Rattle.page_entry.specs.declared.numbers.FilePage.{FilePage};
ghost use Rattle.frames.specs.Frames.{FramesState, frame_at, without_copies};
ghost use Rattle.mappings.specs.Judgement.{is_user_range};
ghost use Rattle.spaces.specs.Spaces.{Spaces as AddressSpaces, without_mapping, EditsEntries};
ghost use Rattle.spaces.specs.Requests.{is_user_space};
ghost use Rattle.spaces.specs.Changes.{without_entries_of};
ghost use Rattle.checkpoint.specs.Checkpoint.{CheckpointState, fresh_checkpoint, is_frozen, is_held, is_copied, AreRising, Gathers, ProtectsNoted, without_notes, NotesTaken, IsInRange, IsInSpace, IsMappingOf, IsDirty, Holds, is_noted, without_copy_of, without_frozen_copies, AreCopiesOfFrozen, released, thawed};
ghost use Rattle.checkpoint.specs.Backing.{AreBacked, HoldsEachOnce, HasNotes};
ghost use Rattle.checkpoint.specs.Resizing.{PagesResized, pages};

use crate::copies::{free_copies, free_copy, has_copy};
use crate::notes::{
    has_dirty_entry, has_note, list_noted, note_all, note_page, note_range, note_space,
};
use crate::resizing::resize_pages;
use frames::Frames;
use mappings::PageRange;
use page_entry::{FileNumber, FilePage, FrameNumber, Pcid};
use spaces::Spaces;
use std::alloc::{AllocError, Allocator, Global};
use std::marker::Model;

/// The frames that are noted as dirty although no page-table entry shows it, and the frozen pages. A frozen page's
/// record isn't written yet.
#[derive(Drop)]
pub struct Checkpoint<A: Allocator + Copy = Global> {
    // For each frame, whether it is noted. A frame is noted if, since the last mark, a dirty entry of it was cleared,
    // or a growth of its file touched it.
    notes: Vec<bool, A>,
    // The pages that the last mark gathered, in the order of their home blocks.
    pages: Vec<FilePage, A>,
    // The number of these pages that are no longer frozen.
    released: usize,
}

impl<A: Allocator + Copy> Model for Checkpoint<A> {
    ghost use Rattle.std.specs.Prelude.{drop};
    ghost use Rattle.std.specs.Vec.{vec_capacity};
    ghost use Rattle.checkpoint.specs.Checkpoint.{CheckpointState};
    ghost use Rattle.checkpoint.specs.inside.Notes.{IsKept};

    ghost Value = { CheckpointState };

    ghost view = { λ c. record { notes = c.notes.items; frozen = drop c.released c.pages.items } };

    ghost invariant = { λ c. IsKept c.notes.items c.pages.items (vec_capacity c.pages) c.released };
}

impl<A: Allocator + Copy> Checkpoint<A> {
    /// Returns a checkpoint for `frames` frames, in which no frame is noted and no page is frozen. Fails if memory
    /// can't be allocated. No other call allocates memory.
    pub fn new(alloc: A, frames: FrameNumber) -> Result<Self, AllocError>
        ensures { IfOk result (λ made. made ≡ fresh_checkpoint frames) }
    {
        Ok(Checkpoint {
            notes: vec![in alloc; false; frames as usize]?,
            pages: Vec::with_capacity(alloc, frames as usize)?,
            released: 0,
        })
    }

    /// Whether no frame is noted and no page is frozen, as `new` leaves it.
    pub fn is_fresh(&self) -> bool
        ensures { IsTrue result ↔ (self.now ≡ fresh_checkpoint (length self.now.notes)) }
    {
        self.frozen().is_empty() && !has_note(&self.notes)
    }

    /// Gathers the dirty pages in the order of their home blocks, and returns their number. Afterwards the frames of
    /// these pages are noted, and no others. If `freezes` is true, the pages are frozen. It is true unless the machine
    /// is broken.
    pub fn gather(&mut self, spaces: &Spaces<A>, frames: &Frames<A>, freezes: bool) -> usize
        requires sized { length self.old.notes ≡ length frames.now.frames }
        requires backed { AreBacked frames.now self.old spaces.now.map }
        ensures gathered { (pages : List FilePage) × (length pages ≡ result)
            × Gathers spaces.now.map frames.now self.old self.new freezes pages }

        // If no page is frozen before the call, no copy exists, and none exists afterwards.
        ensures copies { self.old.frozen ≡ [] → AreCopiesOfFrozen frames.now self.old
            → AreCopiesOfFrozen frames.now self.new }
    {
        note_all(&mut self.notes, spaces);
        list_noted(&mut self.pages, &self.notes, frames);
        let count = self.pages.len();
        self.released = if freezes { 0 } else { count };
        count
    }

    /// Clears the writable and the dirty bit of every entry of a noted frame in every space, even of entries that
    /// aren't dirty. Then no frame is noted.
    pub fn protect_all(&mut self, spaces: &mut Spaces<A>)
        ensures protected { ProtectsNoted self.old spaces.old.map spaces.new.map }
        ensures prepared { spaces.new.prepared ≡ spaces.old.prepared }
        ensures notes { self.new ≡ without_notes self.old }

        // After `gather`, no entry of a newly frozen page stays writable.
        ensures backed { (memory : FramesState) (before : CheckpointState) (freezes : Bool) (pages : List FilePage)
            → Gathers spaces.old.map memory before self.old freezes pages → HoldsEachOnce memory
            → AreBacked memory before spaces.old.map → AreBacked memory self.new spaces.new.map }
    {
        spaces.protect_frames(&self.notes);
        self.notes.fill(false);
    }

    /// Returns the frozen pages, in the order of their home blocks.
    pub fn frozen(&self) -> &[FilePage]
        ensures frozen { result.now ≡ self.now.frozen }
        ensures rising { AreRising result.now }
    {
        &self.pages[self.released..]
    }

    /// Whether a page is frozen.
    pub fn is_frozen(&self, page: FilePage) -> bool
        ensures { result ≡ is_frozen self.now page }
    {
        self.frozen().binary_search(&page).is_ok()
    }

    /// Whether a copy frame contains the page's bytes.
    pub fn copied(&self, frames: &Frames<A>, page: FilePage) -> bool
        ensures { result ≡ is_copied frames.now page }
    {
        has_copy(frames, page)
    }

    /// Whether a store to the page has to wait, because the page is frozen and its bytes aren't copied.
    pub fn is_held(&self, frames: &Frames<A>, page: FilePage) -> bool
        ensures { result ≡ is_held frames.now self.now page }
    {
        self.is_frozen(page) && !has_copy(frames, page)
    }

    // Returns the first frozen page, which is no longer frozen afterwards.
    fn take_first(&mut self) -> FilePage
        requires { 0 < length self.old.frozen }
        ensures first { (page : FilePage) → result ≡ slice_index_or self.old.frozen 0 page }
        ensures released { self.new ≡ released self.old }
        ensures rising { AreRising self.old.frozen }
    {
        let page = self.pages[self.released];
        self.released += 1;
        page
    }

    /// Unfreezes the first frozen page, whose record is now written. Frees the copy frame that contains its bytes, if
    /// there is one.
    pub fn release(&mut self, frames: &mut Frames<A>)
        requires { 0 < length self.old.frozen }
        ensures released { self.new ≡ released self.old }
        ensures freed { (page : FilePage)
            → frames.new ≡ without_copy_of frames.old (slice_index_or self.old.frozen 0 page) }
        ensures backed { (spaces : AddressSpaces)
            → AreBacked frames.old self.old spaces → AreBacked frames.new self.new spaces }
        ensures copies { AreCopiesOfFrozen frames.old self.old → AreCopiesOfFrozen frames.new self.new }
    {
        let page = self.take_first();
        free_copy(frames, page);
    }

    /// Unfreezes all pages, and frees the copy frames that contain their bytes.
    pub fn release_all(&mut self, frames: &mut Frames<A>)
        ensures thawed { self.new ≡ thawed self.old }
        ensures freed { frames.new ≡ without_frozen_copies frames.old self.old }
        ensures all { AreCopiesOfFrozen frames.old self.old → frames.new ≡ without_copies frames.old }
        ensures backed { (spaces : AddressSpaces)
            → AreBacked frames.old self.old spaces → AreBacked frames.new self.new spaces }
    {
        free_copies(frames, self.frozen());
        self.released = self.pages.len();
    }

    /// Unmaps a range for which room was prepared, and notes the frames of its dirty entries.
    pub fn unmap(&mut self, spaces: &mut Spaces<A>, pcid: Pcid, range: PageRange)
        requires prepared { spaces.old.prepared ≡ Some (pcid, range, None) }
        requires space { is_user_space spaces.old.map pcid ≡ true }
        requires pages { is_user_range range ≡ true }
        requires notes { HasNotes spaces.old.map (length self.old.notes) }
        ensures spaces { spaces.new ≡ record { map = without_mapping spaces.old.map pcid range; prepared = None } }
        ensures noted { NotesTaken spaces.old.map (IsInRange pcid range) self.old self.new }
        ensures backed { (memory : FramesState) → AreBacked memory self.old spaces.old.map
            → AreBacked memory self.new spaces.new.map }
    {
        note_range(&mut self.notes, spaces, pcid, range);
        spaces.unmap(pcid, range);
    }

    /// Destroys a space other than space 0, and notes the frames of its dirty entries.
    pub fn destroy(&mut self, spaces: &mut Spaces<A>, pcid: Pcid)
        requires space { is_user_space spaces.old.map pcid ≡ true }
        requires notes { HasNotes spaces.old.map (length self.old.notes) }
        ensures spaces { spaces.new ≡ record { map = maps.remove spaces.old.map pcid; prepared = None } }
        ensures noted { NotesTaken spaces.old.map (IsInSpace pcid) self.old self.new }
        ensures backed { (memory : FramesState) → AreBacked memory self.old spaces.old.map
            → AreBacked memory self.new spaces.new.map }
    {
        note_space(&mut self.notes, spaces, pcid);
        spaces.remove(pcid);
    }

    /// Clears the entries of every page that maps `page`, in every space. Notes the frames of the entries that were
    /// dirty.
    pub fn clear(&mut self, spaces: &mut Spaces<A>, page: FilePage)
        requires { HasNotes spaces.old.map (length self.old.notes) }
        ensures cleared { EditsEntries (without_entries_of page spaces.old.map) spaces.old.map spaces.new.map }
        ensures prepared { spaces.new.prepared ≡ spaces.old.prepared }
        ensures noted { NotesTaken spaces.old.map (IsMappingOf spaces.old.map page) self.old self.new }

        // If the page is clean, nothing is noted.
        ensures clean { (memory : FramesState) (frame : ℕ)
            → AreBacked memory self.old spaces.old.map → HoldsEachOnce memory → Holds memory frame page
            → (IsDirty spaces.old.map self.old frame → ⊥) → self.new ≡ self.old }
        ensures backed { (memory : FramesState) → AreBacked memory self.old spaces.old.map
            → AreBacked memory self.new spaces.new.map }
    {
        note_page(&mut self.notes, spaces, page);
        spaces.clear_entries_of(page);
    }

    /// Changes the length of a file from `old` to `to`, both in bytes, as `ftruncate` does (POSIX.1-2024):
    ///
    /// - Pages that begin at or past the new end leave memory. Their entries are cleared and their frames become free,
    ///   without a note.
    /// - The bytes past the smaller length become zeros.
    /// - Each page that a growth adds gets a free frame of zeros. The contract leaves open which frame.
    /// - A growth notes the pages that it touches: those that it adds, and the page in which the file ended.
    pub fn resize(
        &mut self,
        spaces: &mut Spaces<A>,
        frames: &mut Frames<A>,
        file: FileNumber,
        old: u64,
        to: u64,
    )
        requires notes { length self.old.notes ≡ length frames.old.frames }
        requires noted { (frame : ℕ) → is_noted self.old frame ≡ true → IsSome (frame_at frames.old frame) }
        requires backed { AreBacked frames.old self.old spaces.old.map }
        requires inside { (frame : ℕ) (owner : FilePage) → Holds frames.old frame owner → owner.file ≡ file
            → 4096 * owner.page < old }
        requires room { pages to - pages old ≤ count_by is_none frames.old.frames }
        requires small { (old ≤ 2 ^ 44) × (to ≤ 2 ^ 44) }
        ensures resized { PagesResized spaces.old.map frames.old self.old file old to spaces.new.map frames.new
            self.new }
        ensures prepared { spaces.new.prepared ≡ spaces.old.prepared }
    {
        resize_pages(&mut self.notes, spaces, frames, file, old, to);
    }

    /// Whether the page in a frame is dirty: a store to it was made since the last mark.
    pub fn is_dirty(&self, spaces: &Spaces<A>, frames: &Frames<A>, frame: FrameNumber) -> bool
        requires { AreBacked frames.now self.now spaces.now.map }
        ensures { IsTrue result ↔ IsDirty spaces.now.map self.now frame }
    {
        if self.is_noted(frame) {
            return true;
        }
        match frames.owner(frame) {
            Some(page) => has_dirty_entry(spaces, page),
            None => false,
        }
    }

    // Whether the frame is noted.
    fn is_noted(&self, frame: FrameNumber) -> bool
        ensures { result ≡ is_noted self.now frame }
    {
        let at = frame as usize;
        at < self.notes.len() && self.notes[at]
    }
}
