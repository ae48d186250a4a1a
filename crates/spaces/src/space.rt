// One address space: its page table and its mappings.
ghost use Rattle.std.specs.Prelude.{◌≡◌, ◌+◌, ◌≤◌, ◌<◌, ◌⊎◌, ℕ, All, Some, None, true, false, length, IsSome, IfOk, OnOk, OnErr, IfErr, unwrap_or, if◌then◌else◌};
ghost use Rattle.std.specs.FinMap as maps;
ghost use Rattle.page_entry.specs.Entry.{Mapped};
ghost use Rattle.page_entry.specs.declared.refusal.Refusal.TheVariants.{OutOfMemory};
ghost use Rattle.page_table.specs.Table.{is_grown, put_entry, outside_range, range_read_only, frames_protected};
ghost use Rattle.mappings.specs.Places.{with_range, without_range, with_rights, may_write, splits};
ghost use Rattle.mappings.specs.Judgement.{is_user_range, add_refusal, protect_refusal};
ghost use Rattle.spaces.specs.Spaces.{empty_space};
ghost use Rattle.spaces.specs.Changes.{pages_with_entry};
ghost use Rattle.spaces.specs.inside.Slots.{space_of, without_entries, without_each, AreGrown, HasUse, NotesSlot};

use crate::entry_pages::EntryPages;
use mappings::{Mappings, PageRange, PagesOf, Place, Rights};
use page_entry::{Entry, FilePage, PageNumber, Refusal};
use page_table::Table;
use std::alloc::{AllocError, Allocator};
use std::marker::Model;

/// An address space: a page table, and the mappings that determine what its entries may become.
#[derive(Drop)]
pub(crate) struct Space<A: Allocator + Copy> {
    table: Table<A>,
    mappings: Mappings<A>,
}

impl<A: Allocator + Copy> Model for Space<A> {
    ghost use Rattle.spaces.specs.inside.Slots.{SpaceState, space_state_code, HasRoom};

    ghost Value = { SpaceState };

    ghost coded = { space_state_code };

    ghost view = { λ s. record {
      entries = s.table.entries;
      places = s.mappings.places;
      spare = s.mappings.spare;
      grown = s.table.grown;
      nodes = s.table.nodes;
    } };

    ghost invariant = { λ s. HasRoom s.table s.mappings };
}

impl<A: Allocator + Copy> Space<A> {
    /// Returns a space that maps nothing. Fails if memory for its table's root is refused.
    pub(crate) fn new(alloc: A) -> Result<Self, AllocError>
        ensures { IfOk result (λ space. space_of space ≡ empty_space) }
    {
        let table = Table::new(alloc)?;
        let mappings = Mappings::new(alloc);
        Ok(Space { table, mappings })
    }

    /// Returns its page table.
    pub(crate) fn table(&self) -> &Table<A>
        ensures { result.now.entries ≡ self.now.entries }
    {
        &self.table
    }

    /// Returns its mappings.
    pub(crate) fn mappings(&self) -> &Mappings<A>
        ensures { result.now.places ≡ self.now.places }
    {
        &self.mappings
    }

    /// Returns the pages that map this page of a file by a present entry, in ascending order.
    pub(crate) fn entry_pages(&self, page: FilePage) -> EntryPages<'_, A>
        ensures { result ≡ pages_with_entry (space_of self.now) page }
    {
        EntryPages {
            table: &self.table,
            pages: self.mappings.pages_of(page.file, page.page),
        }
    }

    /// Sets the entry of a mapped page. It allocates no memory.
    pub(crate) fn set_entry(&mut self, page: PageNumber, entry: Entry)
        requires { IsSome (maps.get self.old.places page) }
        ensures { self.new ≡ record self.old { entries = put_entry self.old.entries page entry } }
    {
        self.table.set(page, entry);
    }

    /// Maps a range of pages from a place on. On failure the mappings and the table don't change.
    ///
    /// Fails with `Einval`, `Eacces`, `Overlap` or `OutOfMemory`, in this order. It needs memory only if there is no
    /// room for one more mapping, or the table hasn't yet grown to a page of the range.
    pub(crate) fn map(&mut self, range: PageRange, place: Place) -> Result<(), Refusal>
        ensures places { OnOk result (self.new.places ≡ with_range self.old.places range.first range.count place) }
        ensures entries { OnOk result (self.new.entries ≡ self.old.entries) }
        ensures allowed { OnOk result (add_refusal self.old.places range place ≡ None) }
        ensures refused { IfErr result (λ why. why ≡ unwrap_or (add_refusal self.old.places range place) OutOfMemory) }
        ensures err { OnErr result (space_of self.new ≡ space_of self.old) }
        ensures grown { OnErr result (self.new.grown ≡ self.old.grown) }
        ensures nodes { OnErr result (self.new.nodes ≡ self.old.nodes) }
        ensures kept { OnErr result (self.old.spare ≤ self.new.spare) }
        ensures need { OnErr result (add_refusal self.old.places range place ≡ None
            → (self.old.spare ≡ 0) ⊎ (AreGrown self.old range → ⊥)) }
    {
        self.mappings.may_add(range, place)?;
        self.mappings.reserve_one()?;
        self.table.grow(range.first..range.first + range.count)?;
        let Ok(()) = self.mappings.add(range, place) else {
            unreachable!()
        };
        Ok(())
    }

    /// Reserves the memory that one later `protect` of the range with these rights needs, or an `unmap` without rights.
    ///
    /// Fails with `OutOfMemory` if a mapping must be split and memory is refused. No mapping changes.
    pub(crate) fn prepare(
        &mut self,
        range: PageRange,
        rights: Option<Rights>,
    ) -> Result<(), Refusal>
        ensures reserved { OnOk result (splits self.new.places range rights ≤ self.new.spare) }
        ensures refused { IfErr result (λ why. why ≡ OutOfMemory) }
        ensures missing { OnErr result (0 < splits self.old.places range rights) }
        ensures same { space_of self.new ≡ space_of self.old }
        ensures grows { self.old.spare ≤ self.new.spare }
    {
        self.mappings.reserve(range, rights)
    }

    /// Unmaps the pages of the range, with their entries. It allocates no memory.
    pub(crate) fn unmap(&mut self, range: PageRange)
        requires user { is_user_range range ≡ true }
        requires room { splits self.old.places range None ≤ self.old.spare }
        ensures places { self.new.places ≡ without_range self.old.places range.first range.count }
        ensures entries { self.new.entries ≡ outside_range self.old.entries range.first (range.first + range.count) }
    {
        self.table.clear(range.first..range.first + range.count);
        let Ok(()) = self.mappings.remove(range) else {
            unreachable!()
        };
    }

    /// Gives the rights to the pages of the range. Without the right to write, their entries lose this right. It
    /// allocates no memory.
    pub(crate) fn protect(&mut self, range: PageRange, rights: Rights)
        requires allowed { protect_refusal self.old.places range rights ≡ None }
        requires room { splits self.old.places range (Some rights) ≤ self.old.spare }
        ensures places { self.new.places ≡ with_rights self.old.places range.first range.count rights }
        ensures entries { self.new.entries ≡ (if may_write rights then self.old.entries
            else range_read_only self.old.entries range.first (range.first + range.count)) }
    {
        let Ok(()) = self.mappings.protect(range, rights) else {
            unreachable!()
        };
        if !rights.may_write() {
            self.table
                .make_read_only(range.first..range.first + range.count);
        }
    }

    /// Removes the right to write and the dirty bit from every entry of a noted frame. It allocates no memory.
    pub(crate) fn protect_frames(&mut self, noted: &[bool])
        ensures { self.new ≡ record self.old { entries = frames_protected self.old.entries noted.now } }
    {
        self.table.protect_frames(noted);
    }

    /// Notes the frame of each dirty entry. It allocates no memory.
    pub(crate) fn note_dirty(&self, notes: &mut [bool])
        requires { (page : ℕ) (entry : Mapped) → maps.get self.now.entries page ≡ Some entry
            → entry.frame < length notes.old }
        ensures { NotesSlot (Some self.now) notes.old notes.new }
    {
        self.table.note_dirty(notes);
    }

    /// Whether there may be a present entry. It returns false only if there is none.
    pub(crate) fn may_have_entries(&self) -> bool
        ensures { HasUse (Some self.now) result }
    {
        self.table.may_have_entries()
    }

    /// Removes every entry of a page that maps this page of a file. It allocates no memory.
    pub(crate) fn clear_entries_of(&mut self, page: FilePage)
        ensures { self.new ≡ record self.old { entries = without_entries self.old.places page self.old.entries } }
    {
        clear_each(
            &mut self.table,
            self.mappings.pages_of(page.file, page.page),
        );
    }
}

// Removes the entries of these pages.
fn clear_each<A: Allocator + Copy>(table: &mut Table<A>, pages: PagesOf<'_>)
    requires { All (λ page. is_grown table.old page ≡ true) pages }
    ensures { table.new ≡ record table.old { entries = without_each table.old.entries pages.entry } }
{
    for page in pages {
        table.set(page, Entry::absent());
    }
}
