// The spaces of a machine.
ghost use Rattle.std.specs.Prelude.{◌≡◌, ◌≢◌, ◌+◌, ◌≤◌, ◌<◌, ◌^◌, ◌/◌, ◌↔◌, ◌⊎◌, ℕ, Some, None, map, length, slice_index_or, true, false, IsSome, IfSome, IfNone, IfOk, OnOk, OnErr, IfErr, IsTrue, unwrap_or};
ghost use Rattle.std.specs.Option.{option_map};
ghost use Rattle.std.specs.FinMap as maps;
ghost use Rattle.page_entry.specs.Entry.{Mapped};
ghost use Rattle.page_entry.specs.declared.refusal.Refusal.TheVariants.{OutOfMemory};
ghost use Rattle.page_table.specs.Table.{dirty_in, is_marked, frames_protected};
ghost use Rattle.mappings.specs.Places.{splits};
ghost use Rattle.mappings.specs.Judgement.{is_user_range, add_refusal, protect_refusal};
ghost use Rattle.spaces.specs.Spaces.{empty_space, has_space, space_at, entry_at, place_at, first_spaces, with_space, with_entry, with_mapping, without_mapping, IsLowestFree, EditsEntries, SetsRights, AreSpaces};
ghost use Rattle.spaces.specs.Requests.{is_user_space, judged_range, judged_mapping, judged_protection, maps_some, maps_each, CreateRefused};
ghost use Rattle.spaces.specs.Changes.{touches, entries_of, protected_where, without_entries_of};
ghost use Rattle.spaces.specs.inside.Slots.{SpaceState, edited, without_entries, IsFound, IsMissing, IsFirstFree, AreBelow, NotesSlot, NotesSlots, HasUse, AreInUse, AreFreed, EditsSlot, slot_at};

use crate::space::Space;
use crate::{Change, EntriesOf, Pcids};
use mappings::{PageRange, Place, Rights, mapped_pages};
use page_entry::{Entry, FilePage, PAGE, PageIndex, PageNumber, Pcid, Refusal};
use page_table::{DirtyPages, first_set, mark};
use std::alloc::{AllocError, Allocator, Global};
use std::marker::Model;

// The number of places for spaces.
const PCIDS: usize = page_entry::PCIDS as usize;

/// All pages of user addresses, which are below 2^47 (Intel SDM volume 3, canonical addresses).
pub const ALL_PAGES: PageRange = PageRange {
    first: 0,
    count: 1 << 35,
};

/// The existing address spaces. Space 0 always exists and maps nothing. Only `new`, `create`, `map` and `prepare`
/// allocate memory.
#[derive(Drop)]
pub struct Spaces<A: Allocator + Copy = Global> {
    // The spaces by PCID, up to the highest PCID that was ever in use.
    slots: Vec<Option<Space<A>>, A>,
    // One bit for each PCID: whether its space may have a present entry.
    in_use: [u64; 64],
    // One bit for each PCID below the number of slots: whether no space has it.
    freed: [u64; 64],
    // The pages of a space to which one `protect` can give these rights without memory. Without rights, one `unmap` can
    // unmap them.
    prepared: Option<(Pcid, PageRange, Option<Rights>)>,
}

impl<A: Allocator + Copy> Model for Spaces<A> {
    ghost use Rattle.spaces.specs.Spaces.{SpacesState};
    ghost use Rattle.spaces.specs.inside.Slots.{spaces_code, spaces_of, AreSlots, AreInUse, AreFreed};

    ghost Value = { SpacesState };

    ghost coded = { spaces_code };

    ghost view = { λ s. record { map = spaces_of s.slots.items; prepared = s.prepared } };

    ghost invariant = { λ s. AreSlots s.slots.items s.prepared × AreInUse s.slots.items s.in_use
        × AreFreed s.slots.items s.freed };
}

// Returns the first slot without a space, or the number of slots if all have one.
fn first_free<A: Allocator + Copy>(slots: &[Option<Space<A>>], freed: &[u64; 64]) -> usize
    requires few { length slots.now ≤ 4096 }
    requires freed { AreFreed slots.now freed.now }
    ensures { IsFirstFree slots.now result }
{
    match first_set(freed, 0, 4096) {
        Some(pcid) => pcid as usize,
        None => slots.len(),
    }
}

impl<A: Allocator + Copy> Spaces<A> {
    /// Returns space 0 alone. Fails if memory is refused.
    pub fn new(alloc: A) -> Result<Self, AllocError>
        ensures { IfOk result (λ spaces. spaces ≡ record { map = first_spaces; prepared = None }) }
    {
        let mut slots = Vec::new(alloc);
        let first = Space::new(alloc)?;
        slots.push(Some(first))?;
        Ok(Spaces {
            slots,
            in_use: [0; 64],
            freed: [0; 64],
            prepared: None,
        })
    }

    // Returns the space with this PCID, if there is one.
    fn space(&self, pcid: Pcid) -> Option<&Space<A>>
        ensures found { IfSome result (λ space. IsFound self.now.map pcid space.now) }
        ensures missing { IfNone result (IsMissing self.now.map pcid) }
        ensures sound { AreSpaces self.now.map }
    {
        if (pcid as usize) < self.slots.len() {
            self.slots[pcid as usize].as_ref()
        } else {
            None
        }
    }

    /// Whether there is a space with this PCID.
    pub fn has(&self, pcid: Pcid) -> bool
        ensures there { result ≡ has_space self.now.map pcid }
        ensures sound { AreSpaces self.now.map }
    {
        self.space(pcid).is_some()
    }

    /// Returns the place that a page maps, if it is mapped.
    pub fn place(&self, pcid: Pcid, page: PageNumber) -> Option<Place>
        ensures { result ≡ place_at self.now.map pcid page }
    {
        match self.space(pcid) {
            Some(space) => space.mappings().where_is(page),
            None => None,
        }
    }

    /// Returns the entry of a page.
    pub fn entry(&self, pcid: Pcid, page: PageNumber) -> Entry
        ensures entry { result ≡ entry_at self.now.map pcid page }
        ensures sound { AreSpaces self.now.map }
    {
        match self.space(pcid) {
            Some(space) => space.table().get(page),
            None => Entry::absent(),
        }
    }

    /// Returns the PCIDs of all spaces, in ascending order.
    pub fn pcids(&self) -> Pcids<'_, A>
        ensures { result ≡ maps.keys self.now.map }
    {
        Pcids {
            slots: &self.slots,
            next: 0,
        }
    }

    /// Returns the pages of a range whose entries are dirty, in ascending order.
    pub fn dirty_pages(&self, pcid: Pcid, range: PageRange) -> DirtyPages<'_>
        requires there { has_space self.now.map pcid ≡ true }
        requires fits { range.first + range.count < 2 ^ 64 }
        ensures { result ≡ dirty_in (space_at self.now.map pcid).entries range.first (range.first + range.count) }
    {
        let Some(space) = self.space(pcid) else {
            unreachable!()
        };
        space
            .table()
            .dirty_pages(range.first..range.first + range.count)
    }

    /// Returns the pages of all spaces that map this page of a file by a present entry, by PCID and then by page.
    pub fn entries_of(&self, page: FilePage) -> EntriesOf<'_, A>
        ensures { result ≡ entries_of self.now.map page }
    {
        let Some((slot, later)) = self.slots.split_first() else {
            unreachable!()
        };
        let Some(first) = slot else { unreachable!() };
        EntriesOf {
            page,
            pcid: 0,
            here: first.entry_pages(page),
            later,
        }
    }

    /// Returns the pages of the `len` bytes from `va` on in a space, so that they can be unmapped.
    ///
    /// Fails with `Einval` if:
    /// - there is no such space, or it is space 0
    /// - `va` isn't a multiple of 4,096
    /// - `len` is 0
    /// - the pages aren't within bytes 4,096 to 2^47
    pub fn judge_range(&self, pcid: Pcid, va: u64, len: u64) -> Result<PageRange, Refusal>
        ensures { result ≡ judged_range self.now.map pcid va len }
    {
        if pcid != 0 && self.has(pcid) {
            PageRange::of_bytes(va, len)
        } else {
            Err(Refusal::Einval)
        }
    }

    /// Returns the pages of the `len` bytes from `va` on in a space, and the file page of the first of them. They are
    /// to be mapped to a file from byte `offset` on.
    ///
    /// Fails with `Einval` as `judge_range`, or if:
    /// - `offset` isn't a multiple of 4,096
    /// - there are more than 65,536 pages
    /// - a file page is beyond 2^32 - 1
    pub fn judge_mapping(
        &self,
        pcid: Pcid,
        va: u64,
        len: u64,
        offset: u64,
    ) -> Result<(PageRange, PageIndex), Refusal>
        ensures { result ≡ judged_mapping self.now.map pcid va len offset }
    {
        if pcid != 0 && self.has(pcid) {
            mapped_pages(va, len, offset)
        } else {
            Err(Refusal::Einval)
        }
    }

    /// Returns the pages of the `len` bytes from `va` on in a space, if their mappings may get the rights.
    ///
    /// Fails with `Einval` as `judge_range`, and with `Enomem` if a page isn't mapped. Fails with `Eacces` if the
    /// rights include writing and a mapping's file was opened read-only.
    pub fn judge_protection(
        &self,
        pcid: Pcid,
        va: u64,
        len: u64,
        rights: Rights,
    ) -> Result<PageRange, Refusal>
        ensures { result ≡ judged_protection self.now.map pcid va len rights }
    {
        let range = self.judge_range(pcid, va, len)?;
        if let Some(space) = self.space(pcid) {
            space.mappings().may_protect(range, rights)?;
        }
        Ok(range)
    }

    /// Whether a page of the range is mapped.
    pub fn maps_some(&self, pcid: Pcid, range: PageRange) -> bool
        ensures { result ≡ maps_some self.now.map pcid range }
    {
        match self.space(pcid) {
            Some(space) => space.mappings().has_mapped(range),
            None => false,
        }
    }

    /// Whether each page of the `len` bytes from `va` on is mapped. Returns true if `len` is 0.
    pub fn maps_each(&self, pcid: Pcid, va: u64, len: u64) -> bool
        ensures { result ≡ maps_each self.now.map pcid va len }
    {
        let range = PageRange {
            first: va / PAGE,
            count: len.div_ceil(PAGE),
        };
        match self.space(pcid) {
            Some(space) => space.mappings().is_mapped(range),
            None => range.count == 0,
        }
    }

    /// Whether processors in this space are stopped before the change is made.
    pub fn touches(&self, change: &Change, pcid: Pcid) -> bool
        ensures { result ≡ touches self.now.map change.now pcid }
    {
        match change {
            Change::Unmap { pcid: of, range: _ }
            | Change::Protect {
                pcid: of,
                range: _,
                rights: _,
            } => *of == pcid,
            Change::Reclaim { page } => self.has_entry_of(pcid, *page),
            Change::SetLength { file: _, length: _ } | Change::Checkpoint => true,
        }
    }

    // Whether a page of a space maps this page of a file by a present entry.
    fn has_entry_of(&self, pcid: Pcid, page: FilePage) -> bool
        ensures { result ≡ touches self.now.map (Change.Reclaim page) pcid }
    {
        match self.space(pcid) {
            Some(space) => space.entry_pages(page).next().is_some(),
            None => false,
        }
    }

    // Rule: lowest free PCID
    /// Creates a space that maps nothing, with the lowest free PCID from 1 on. On failure nothing changes.
    ///
    /// Fails with `Enomem` if no PCID is free, and with `OutOfMemory` if memory is refused.
    pub fn create(&mut self) -> Result<Pcid, Refusal>
        ensures lowest { IfOk result (λ pcid. IsLowestFree self.old.map pcid) }
        ensures created { IfOk result (λ pcid. self.new
            ≡ record self.old { map = with_space self.old.map pcid empty_space }) }
        ensures refused { IfErr result (λ why. CreateRefused self.old.map why) }
        ensures err { OnErr result (self.new ≡ self.old) }
    {
        let free = first_free(&self.slots, &self.freed);
        if free == PCIDS {
            return Err(Refusal::Enomem);
        }
        let Ok(space) = Space::new(*self.slots.allocator()) else {
            return Err(Refusal::OutOfMemory);
        };
        if free < self.slots.len() {
            self.slots[free] = Some(space);
            mark(&mut self.freed, free as u64, false);
            return Ok(free as Pcid);
        }
        if self.slots.push(Some(space)).is_err() {
            return Err(Refusal::OutOfMemory);
        }
        Ok(free as Pcid)
    }

    /// Removes a space other than space 0, with its mappings and entries.
    pub fn remove(&mut self, pcid: Pcid)
        requires { is_user_space self.old.map pcid ≡ true }
        ensures { self.new ≡ record { map = maps.remove self.old.map pcid; prepared = None } }
    {
        self.slots[pcid as usize] = None;
        mark(&mut self.freed, pcid as u64, true);
        self.prepared = None;
    }

    /// Sets the entry of a mapped page.
    pub fn set_entry(&mut self, pcid: Pcid, page: PageNumber, entry: Entry)
        requires { IsSome (place_at self.old.map pcid page) }
        ensures { self.new ≡ record self.old { map = with_entry self.old.map pcid page entry } }
    {
        let Some(space) = &mut self.slots[pcid as usize] else {
            unreachable!()
        };
        space.set_entry(page, entry);
        mark(&mut self.in_use, pcid as u64, true);
    }

    /// Maps the pages of the range to consecutive pages of a file, beginning at the place. On failure nothing changes.
    ///
    /// Fails with `Einval` if the range may not be mapped from that file page on. Fails with `Eacces` if writing is
    /// requested with read-only access, with `Overlap` if a page of the range is mapped already, and with `OutOfMemory`
    /// if memory is refused.
    pub fn map(&mut self, pcid: Pcid, range: PageRange, place: Place) -> Result<(), Refusal>
        requires { is_user_space self.old.map pcid ≡ true }
        ensures mapped { OnOk result (self.new
            ≡ record { map = with_mapping self.old.map pcid range place; prepared = None }) }
        ensures allowed { OnOk result (add_refusal (space_at self.old.map pcid).places range place ≡ None) }
        ensures refused { IfErr result
            (λ why. why ≡ unwrap_or (add_refusal (space_at self.old.map pcid).places range place) OutOfMemory) }
        ensures err { OnErr result (self.new ≡ self.old) }
    {
        let Some(space) = &mut self.slots[pcid as usize] else {
            unreachable!()
        };
        space.map(range, place)?;
        self.prepared = None;
        Ok(())
    }

    /// Reserves the memory that one later `protect` of the pages of a range with these rights needs. Without rights, it
    /// reserves the memory for one `unmap` of them. On failure nothing changes.
    ///
    /// Fails with `OutOfMemory` if a mapping must be split and memory is refused. An `unmap` splits a mapping that
    /// contains the range and the pages on both sides of it. A `protect` splits a mapping with other rights that has
    /// pages on both sides of an end of the range.
    pub fn prepare(
        &mut self,
        pcid: Pcid,
        range: PageRange,
        rights: Option<Rights>,
    ) -> Result<(), Refusal>
        requires space { is_user_space self.old.map pcid ≡ true }
        requires pages { is_user_range range ≡ true }
        ensures prepared { OnOk result (self.new ≡ record self.old { prepared = Some (pcid, range, rights) }) }
        ensures refused { IfErr result (λ why. why ≡ OutOfMemory) }
        ensures splits { OnErr result (0 < splits (space_at self.old.map pcid).places range rights) }
        ensures err { OnErr result (self.new ≡ self.old) }
    {
        let Some(space) = &mut self.slots[pcid as usize] else {
            unreachable!()
        };
        space.prepare(range, rights)?;
        self.prepared = Some((pcid, range, rights));
        Ok(())
    }

    /// Unmaps the pages of the range, with their entries. `prepare` must have been called for it.
    pub fn unmap(&mut self, pcid: Pcid, range: PageRange)
        requires { self.old.prepared ≡ Some (pcid, range, None) }
        ensures { self.new ≡ record { map = without_mapping self.old.map pcid range; prepared = None } }
    {
        let Some(space) = &mut self.slots[pcid as usize] else {
            unreachable!()
        };
        space.unmap(range);
        self.prepared = None;
    }

    /// Gives the rights to the pages of the range, which was prepared for them. Without the right to write, their
    /// entries lose this right.
    pub fn protect(&mut self, pcid: Pcid, range: PageRange, rights: Rights)
        requires prepared { self.old.prepared ≡ Some (pcid, range, Some rights) }
        requires allowed { protect_refusal (space_at self.old.map pcid).places range rights ≡ None }
        ensures rights { SetsRights pcid range rights self.old.map self.new.map }
        ensures used { self.new.prepared ≡ None }
    {
        let Some(space) = &mut self.slots[pcid as usize] else {
            unreachable!()
        };
        space.protect(range, rights);
        self.prepared = None;
    }

    /// Removes the right to write and the dirty bit from every entry of a noted frame, in every space. A frame is noted
    /// if `noted` is true at the frame's number, and its length is above this number.
    pub fn protect_frames(&mut self, noted: &[bool])
        ensures entries { EditsEntries (λ pcid page entry. protected_where (is_marked noted.now) entry)
            self.old.map self.new.map }
        ensures same { self.new.prepared ≡ self.old.prepared }
    {
        protect_slots(&mut self.slots, &mut self.in_use, noted);
    }

    /// Notes the frame of each dirty entry, in every space: sets `notes` to true at the frame's number.
    pub fn note_dirty(&self, notes: &mut [bool])
        requires { (pcid page : ℕ) (entry : Mapped) → entry_at self.now.map pcid page ≡ Some entry
            → entry.frame < length notes.old }
        ensures size { length notes.new ≡ length notes.old }
        ensures noted { (frame : ℕ) → (slice_index_or notes.new frame false ≡ true)
            ↔ ((slice_index_or notes.old frame false ≡ true) ⊎ ((pcid : ℕ) × (page : ℕ) × (entry : Mapped)
            × (entry_at self.now.map pcid page ≡ Some entry) × (entry.frame ≡ frame) × (entry.dirty ≡ true))) }
    {
        note_slots(&self.slots, &self.in_use, notes);
    }

    /// Removes every entry of a page that maps this page of a file, in every space.
    pub fn clear_entries_of(&mut self, page: FilePage)
        ensures entries { EditsEntries (without_entries_of page self.old.map) self.old.map self.new.map }
        ensures same { self.new.prepared ≡ self.old.prepared }
    {
        clear_slots(&mut self.slots, page);
    }
}

// Removes the right to write and the dirty bit from every entry of a noted frame. It visits only the spaces in use. A
// space without an entry is marked as not in use.
fn protect_slots<A: Allocator + Copy>(
    slots: &mut [Option<Space<A>>],
    in_use: &mut [u64; 64],
    noted: &[bool],
)
    requires few { length slots.old ≤ 4096 }
    requires used { AreInUse slots.old in_use.old }
    ensures edited { slots.new ≡ map (option_map (edited (λ s. frames_protected s.entries noted.now))) slots.old }
    ensures used { AreInUse slots.new in_use.new }
{
    let mut next = 0;
    'spaces: while let Some(pcid) = first_set(in_use, next, 4096) {
        let stays = protect_at(slots, pcid as usize, noted);
        mark(in_use, pcid, stays);
        next = pcid + 1;
    }
}

// Does the same in the slot of a PCID, if there is one. Returns false only if the slot then has no entry.
fn protect_at<A: Allocator + Copy>(
    slots: &mut [Option<Space<A>>],
    pcid: usize,
    noted: &[bool],
) -> bool
    ensures edited { EditsSlot (λ s. frames_protected s.entries noted.now) pcid slots.old slots.new }
    ensures used { HasUse (slot_at slots.new pcid) result }
{
    if pcid < slots.len() {
        protect_slot(&mut slots[pcid], noted)
    } else {
        false
    }
}

fn protect_slot<A: Allocator + Copy>(slot: &mut Option<Space<A>>, noted: &[bool]) -> bool
    ensures edited { slot.new ≡ option_map (edited (λ s. frames_protected s.entries noted.now)) slot.old }
    ensures used { HasUse slot.new result }
{
    match slot {
        Some(space) => {
            space.protect_frames(noted);
            space.may_have_entries()
        }
        None => false,
    }
}

// Notes the frame of each dirty entry. It visits only the spaces in use.
fn note_slots<A: Allocator + Copy>(
    slots: &[Option<Space<A>>],
    in_use: &[u64; 64],
    notes: &mut [bool],
)
    requires few { length slots.now ≤ 4096 }
    requires used { AreInUse slots.now in_use.now }
    requires below { AreBelow slots.now (length notes.old) }
    ensures { NotesSlots slots.now (length slots.now) notes.old notes.new }
{
    let mut next = 0;
    'spaces: while let Some(pcid) = first_set(in_use, next, 4096) {
        note_at(slots, pcid as usize, notes);
        next = pcid + 1;
    }
}

// Does the same in the slot of a PCID, if there is one.
fn note_at<A: Allocator + Copy>(slots: &[Option<Space<A>>], pcid: usize, notes: &mut [bool])
    requires { AreBelow slots.now (length notes.old) }
    ensures { NotesSlot (slot_at slots.now pcid) notes.old notes.new }
{
    if pcid < slots.len() {
        note_slot(&slots[pcid], notes);
    }
}

fn note_slot<A: Allocator + Copy>(slot: &Option<Space<A>>, notes: &mut [bool])
    requires { (s : SpaceState) (page : ℕ) (entry : Mapped) → slot.now ≡ Some s
        → maps.get s.entries page ≡ Some entry → entry.frame < length notes.old }
    ensures { NotesSlot slot.now notes.old notes.new }
{
    if let Some(space) = slot {
        space.note_dirty(notes);
    }
}

// Removes every entry of a page that maps this page of a file.
fn clear_slots<A: Allocator + Copy>(slots: &mut [Option<Space<A>>], page: FilePage)
    ensures { slots.new ≡ map (option_map (edited (λ s. without_entries s.places page s.entries))) slots.old }
{
    for slot in slots.iter_mut() {
        clear_slot(slot, page);
    }
}

fn clear_slot<A: Allocator + Copy>(slot: &mut Option<Space<A>>, page: FilePage)
    ensures { slot.new ≡ option_map (edited (λ s. without_entries s.places page s.entries)) slot.old }
{
    if let Some(space) = slot {
        space.clear_entries_of(page);
    }
}
