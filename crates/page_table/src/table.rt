// The page table: a map from page to entry that grows by ranges.
ghost use Rattle.std.specs.Prelude.{◌≡◌, ◌≤◌, ◌<◌, ◌^◌, ◌↔◌, ◌⊎◌, ℕ, true, false, length, slice_index_or, Some, IsTrue, IfOk, OnOk, OnErr, IfErr, Ok};
ghost use Rattle.std.specs.FinMap as maps;
ghost use Rattle.page_entry.specs.Entry.{Mapped};
ghost use Rattle.page_table.specs.Table.{empty_table, is_grown, put_entry, outside_range, frames_protected, range_read_only, dirty_in, HasGrown, GrowsOver};
ghost use Rattle.page_table.specs.inside.Changes.{ChangesRange};
ghost use Rattle.page_table.specs.inside.Marks.{Extends};

use crate::DirtyPages;
use crate::change::Change;
use crate::growing::{link_pages, needed};
use crate::leaves::{change_pages, set_page};
use crate::marks::{change_present, has_used, note_present};
use crate::nodes::{NODE, walk};
use page_entry::{Entry, PageNumber, Refusal};
use std::alloc::{AllocError, Allocator};
use std::marker::Model;
use std::ops::Range;

/// The number of words in the marks of a node, one bit for each of its words.
const MARKS: u64 = NODE / 64;

/// A page table: a map from page to entry. An entry that was never set is absent. Pages are those of user addresses,
/// below 2^35 (Intel SDM volume 3, "4-Level Paging"). The table consists of nodes of 512 words in four levels. A node
/// is freed only when the table is dropped.
#[derive(Drop)]
pub struct Table<A: Allocator + Copy> {
    // The words of all nodes, one node after another, starting with the root.
    words: Vec<u64, A>,
    // A bit for each word: whether it is a present entry.
    present: Vec<u64, A>,
    // A bit for each node: whether it has a present entry.
    in_use: Vec<u64, A>,
}

impl<A: Allocator + Copy> Model for Table<A> {
    ghost use Rattle.page_table.specs.Table.{TableState, table_code};

    ghost Value = { TableState };

    ghost coded = { table_code };

    ghost use Rattle.page_table.specs.inside.Nodes.{table_of};
    ghost use Rattle.page_table.specs.inside.Marks.{IsMarkedTable};

    ghost view = { λ t. table_of t.words.items };

    ghost invariant = { λ t. IsMarkedTable t.words.items t.present.items t.in_use.items };
}

impl<A: Allocator + Copy> Table<A> {
    /// Returns a table that maps nothing and has only a root. Fails if memory runs out.
    pub fn new(alloc: A) -> Result<Self, AllocError>
        ensures { IfOk result (λ table. table ≡ empty_table) }
    {
        let mut words = Vec::new(alloc);
        words.resize(NODE as usize, 0)?;
        let mut present = Vec::new(alloc);
        present.resize(MARKS as usize, 0)?;
        let mut in_use = Vec::new(alloc);
        in_use.resize(1, 0)?;
        Ok(Self {
            words,
            present,
            in_use,
        })
    }

    /// Returns the number of nodes, including the root.
    pub fn nodes(&self) -> u64
        ensures { result ≡ self.now.nodes }
    {
        self.words.len() as u64 / NODE
    }

    /// Makes the nodes that `set` needs for each page of the range. No entry changes. All missing nodes are allocated
    /// before the first one is linked, so a failure leaves the table unchanged. Allocates memory only if a page of the
    /// range hasn't grown yet.
    ///
    /// # Errors
    /// Fails with `OutOfMemory` if memory runs out.
    pub fn grow(&mut self, range: Range<PageNumber>) -> Result<(), Refusal>
        requires { range.end ≤ 2 ^ 35 }
        ensures ok { OnOk result (GrowsOver range.start range.end self.old self.new) }
        ensures err { IfErr result (λ e. (e ≡ Refusal.OutOfMemory) × (self.new ≡ self.old)) }
        ensures enough { HasGrown range.start range.end self.old → (result ≡ Ok tt) × (self.new ≡ self.old) }
    {
        if range.end <= range.start {
            return Ok(());
        }
        let count = needed(&self.words, range.start, range.end);
        if count == 0 {
            return Ok(());
        }
        let used = self.words.len() as u64 / NODE;
        let Ok(()) = extend(&mut self.present, (used + count) * MARKS) else {
            return Err(Refusal::OutOfMemory);
        };
        let Ok(()) = extend(&mut self.in_use, (used + count) / 64 + 1) else {
            return Err(Refusal::OutOfMemory);
        };
        let Ok(()) = self.words.resize(((used + count) * NODE) as usize, 0) else {
            return Err(Refusal::OutOfMemory);
        };
        link_pages(&mut self.words, range.start, range.end, used);
        Ok(())
    }

    /// Returns the page's entry.
    pub fn get(&self, page: PageNumber) -> Entry
        ensures { result ≡ maps.get self.now.entries page }
    {
        Entry::of_bits(walk(&self.words, 4, page))
    }

    /// Sets the entry of a page that has grown. An absent entry leaves the page unmapped. Allocates no memory.
    pub fn set(&mut self, page: PageNumber, entry: Entry)
        requires { IsTrue (is_grown self.old page) }
        ensures { self.new ≡ record self.old { entries = put_entry self.old.entries page entry } }
    {
        set_page(
            &mut self.words,
            &mut self.present,
            &mut self.in_use,
            page,
            entry.bits(),
        );
    }

    /// Makes every entry of the range absent. The table's nodes stay. Allocates no memory.
    pub fn clear(&mut self, range: Range<PageNumber>)
        ensures { self.new ≡ record self.old { entries = outside_range self.old.entries range.start range.end } }
    {
        self.change(&range, Change::Clear);
    }

    /// Makes every entry of the range read-only. Allocates no memory.
    pub fn make_read_only(&mut self, range: Range<PageNumber>)
        ensures { self.new ≡ record self.old { entries = range_read_only self.old.entries range.start range.end } }
    {
        self.change(&range, Change::MakeReadOnly);
    }

    // Changes every entry of the range.
    fn change(&mut self, range: &Range<PageNumber>, change: Change)
        ensures { ChangesRange change.entry range.now.start range.now.end self.old self.new }
    {
        change_pages(
            &mut self.words,
            &mut self.present,
            &mut self.in_use,
            range,
            change,
        );
    }

    /// Makes each entry that maps a marked frame read-only, and clears its dirty bit. A frame is marked if `marked` is
    /// true at the frame's number. Frames past the end of `marked` aren't marked. Allocates no memory.
    pub fn protect_frames(&mut self, marked: &[bool])
        ensures { self.new ≡ record self.old { entries = frames_protected self.old.entries marked.now } }
    {
        change_present(
            &mut self.words,
            &self.present,
            &self.in_use,
            Change::Protect(marked),
        );
    }

    /// Sets the note of each frame that a dirty entry maps. The other notes stay. Allocates no memory.
    pub fn note_dirty(&self, notes: &mut [bool])
        requires { (page : ℕ) (entry : Mapped) → maps.get self.now.entries page ≡ Some entry
            → entry.frame < length notes.old }
        ensures size { length notes.new ≡ length notes.old }
        ensures noted { (frame : ℕ) → (slice_index_or notes.new frame false ≡ true)
            ↔ ((slice_index_or notes.old frame false ≡ true) ⊎ ((page : ℕ) × (entry : Mapped)
            × (maps.get self.now.entries page ≡ Some entry) × (entry.frame ≡ frame) × (entry.dirty ≡ true))) }
    {
        note_present(&self.words, &self.present, &self.in_use, notes);
    }

    /// Whether an entry may be present. Returns false only if no entry is present. Reads one bit for each node.
    pub fn may_have_entries(&self) -> bool
        ensures { (page : ℕ) (entry : Mapped) → maps.get self.now.entries page ≡ Some entry → result ≡ true }
    {
        has_used(&self.in_use, self.words.len() as u64 / NODE)
    }

    /// Returns an iterator over the pages of the range whose entries are dirty, in rising order.
    pub fn dirty_pages<'a>(&'a self, range: Range<PageNumber>) -> DirtyPages<'a>
        ensures { result ≡ dirty_in self.now.entries range.start range.end }
    {
        DirtyPages::new(&self.words, range)
    }
}

// Extends the list with zeros to at least `count` words. After an error the list is unchanged.
fn extend<A: Allocator + Copy>(words: &mut Vec<u64, A>, count: u64) -> Result<(), AllocError>
    requires { count < 2 ^ 60 }
    ensures ok { OnOk result (Extends count words.old.items words.new.items) }
    ensures err { OnErr result (words.new.items ≡ words.old.items) }
{
    if (words.len() as u64) < count {
        words.resize(count as usize, 0)?;
    }
    Ok(())
}
