// The write-outs of a volume that aren't done.
ghost use Rattle.std.specs.Prelude.{◌≡◌, ◌≢◌, ◌↔◌, ◌⊎◌, ℕ, ◌+◌, ◌*◌, ◌<◌, ◌≤◌, false, true, IsTrue, List, [], ◌++◌, length, map, Some, IfSome, IfNone, IfOk};
ghost use Rattle.std.specs.List.{All, AllByRecursion, list_any};
ghost use Rattle.std.specs.Vec.{vec_len, vec_capacity};
ghost use Rattle.device.specs.Device.{LeavesOnly};
ghost use Rattle.device.specs.Did.{Did};
ghost use Rattle.volume_codec.specs.Layout.{IsGeometry, journals_of};
ghost use Rattle.volume_codec.specs.Descriptor.{AreHomes};
ghost use Rattle.volume_codec.specs.Super.{SuperValue};
ghost use Rattle.journal.specs.Pages.{HasHome, home_of, homes_of};
ghost use Rattle.journal.specs.Stage.{has_writes};
ghost use Rattle.journal.specs.Work.{has_done};
ghost use Rattle.journal.specs.WriteOut.{broken_after};
ghost use Rattle.journal.specs.WriteOuts.{none_of, has_uncommitted, shares_syncs as in_common, is_at, current_stage, outs_record, outs_home, next_work, next_answer, outs_after, is_busy, following, begun, HasBlock};
ghost use Rattle.journal.specs.inside.Room.{IsCurrent, IsFirst, IsLone, IsJoint, kept_after, spare_after};
ghost use Rattle.journal.specs.Crash.{LeftWithin};
ghost use Rattle.journal.specs.LedTo.{HasLedTo};

use crate::queued::Queued;
use crate::sharing::step_next;
use crate::{Flushed, Stage};
use device::Device;
use page_entry::FilePage;
use std::alloc::{AllocError, Allocator};
use std::marker::Model;
use volume_codec::{Geometry, Super};

/// The write-outs of a volume that aren't done, at most one for each journal. A batch may be recorded and committed
/// before an older one is written home. To be written home, it waits until the older one is done. With shared syncs it
/// waits only until the older one's home blocks are durable.
#[derive(Drop)]
pub struct WriteOuts<A: Allocator + Copy> {
    pub(crate) geometry: Geometry,
    pub(crate) next: u32,
    // The oldest first, with room for one in each journal.
    pub(crate) queued: Vec<Queued<A>, A>,
    // Lists for the home blocks of a batch, one for each journal that has no batch.
    pub(crate) spare: Vec<Vec<u32, A>, A>,
    // A record is read into it before it is written home.
    buffer: [u8; 4096],
    broken: bool,
}

impl<A: Allocator + Copy> Model for WriteOuts<A> {
    ghost use Rattle.std.specs.Prelude.{map};
    ghost use Rattle.std.specs.Vec.{vec_capacity};
    ghost use Rattle.journal.specs.WriteOuts.{WriteOutsValue};

    ghost Value = { WriteOutsValue };

    ghost use Rattle.journal.specs.inside.Room.{outs_of, HasRoom};

    ghost view = { λ o. outs_of o.geometry o.next o.queued.items o.broken };

    ghost invariant = { λ o. HasRoom (outs_of o.geometry o.next o.queued.items o.broken)
        o.queued.items (vec_capacity o.queued)
        (map (λ list. vec_capacity list) o.spare.items) (vec_capacity o.spare) };
}

// Returns the journal that takes its turn after this one.
pub(crate) fn journal_after(geometry: &Geometry, journal: u32) -> u32
    requires { journal < journals_of geometry.now.layout }
    ensures { result ≡ following geometry.now.layout journal }
{
    if journal + 1 == geometry.journals() {
        0
    } else {
        journal + 1
    }
}

// Returns one list of home blocks for each journal, with room for as many blocks as there are slots.
fn spare_lists<A: Allocator + Copy>(
    alloc: A,
    journals: usize,
    slots: usize,
) -> Result<Vec<Vec<u32, A>, A>, AllocError>
    ensures lists { IfOk result (λ lists.
        AllByRecursion (λ room. slots ≤ room) (map (λ list. vec_capacity list) lists.items)) }
    ensures count { IfOk result (λ lists. vec_len lists ≡ journals) }
    ensures room { IfOk result (λ lists. journals ≤ vec_capacity lists) }
{
    let mut lists = Vec::with_capacity(alloc, journals)?;
    for _journal in 0..journals {
        lists.push(Vec::with_capacity(alloc, slots)?)?;
    }
    Ok(lists)
}

// Returns a block to read into.
fn blank_block() -> [u8; 4096] {
    [0; 4096]
}

// Returns the home block of a page.
fn home_of<A: Allocator + Copy>(table: &Super<A>, page: FilePage) -> u32
    requires { HasHome table.now page }
    ensures { result ≡ home_of table.now page }
{
    let _blocks = table.block_count();
    table.first_home(page.file as usize) + page.page
}

// Returns a list with the home block of the lengths if a length was set, and an empty list otherwise. It uses the
// memory of another list.
fn refilled<A: Allocator + Copy>(
    mut list: Vec<u32, A>,
    table: &Super<A>,
    resized: bool,
) -> Vec<u32, A>
    requires { 1 ≤ vec_capacity list }
    ensures items { result.items ≡ homes_of table.now resized [] }
    ensures room { vec_capacity list ≤ vec_capacity result }
{
    list.clear();
    if resized {
        // The list has room for it.
        let _ = list.push(table.geometry().first_home());
    }
    list
}

// Adds the home blocks of pages to a list.
fn add_homes<A: Allocator + Copy>(list: &mut Vec<u32, A>, table: &Super<A>, pages: &[FilePage])
    requires room { vec_len list.old + length pages.now ≤ vec_capacity list.old }
    requires pages { All (HasHome table.now) pages.now }
    ensures items { list.new.items ≡ list.old.items ++ map (home_of table.now) pages.now }
    ensures room { vec_capacity list.old ≤ vec_capacity list.new }
{
    for page in pages {
        // The list has room for it.
        let _ = list.push(home_of(table, *page));
    }
}

// Applies a step's result. If the oldest write-out is done, it leaves, and its list becomes spare. If a device call
// failed, the write-outs are broken.
fn conclude<A: Allocator + Copy>(
    queued: &mut Vec<Queued<A>, A>,
    spare: &mut Vec<Vec<u32, A>, A>,
    broken: &mut bool,
    answer: Flushed,
)
    requires some { 0 < vec_len queued.old }
    requires room { vec_len spare.old < vec_capacity spare.old }
    ensures queued { queued.new.items ≡ kept_after answer queued.old.items }
    ensures spare { map (λ list. vec_capacity list) spare.new.items
        ≡ spare_after answer queued.old.items (map (λ list. vec_capacity list) spare.old.items) }
    ensures broken { broken.new ≡ broken_after answer broken.old }
    ensures capacity { vec_capacity queued.new ≡ vec_capacity queued.old }
    ensures spare_capacity { vec_capacity spare.old ≤ vec_capacity spare.new }
{
    match answer {
        Flushed::Device => *broken = true,
        Flushed::Done(_) => {
            let done = queued.remove(0);
            let _ = spare.push(done.into_homes());
        }
        _ => {}
    }
}

impl<A: Allocator + Copy> WriteOuts<A> {
    /// Returns no write-outs, with memory for one batch in each journal. Each batch may have as many blocks as a
    /// journal has record slots.
    pub fn new(alloc: A, geometry: Geometry) -> Result<Self, AllocError>
        ensures { IfOk result (λ outs. outs ≡ none_of geometry) }
    {
        let journals = geometry.journals() as usize;
        let slots = geometry.slots() as usize;
        Ok(WriteOuts {
            geometry,
            next: 0,
            queued: Vec::with_capacity(alloc, journals)?,
            spare: spare_lists(alloc, journals, slots)?,
            buffer: blank_block(),
            broken: false,
        })
    }

    /// Whether they are in the state that `new` returns.
    pub fn is_fresh(&self) -> bool
        ensures { IsTrue result ↔ (self.now ≡ none_of self.now.geometry) }
    {
        self.next == 0 && self.queued.is_empty() && !self.broken
    }

    /// Whether every batch is done.
    pub fn is_empty(&self) -> bool
        ensures { IsTrue result ↔ (self.now.batches ≡ []) }
    {
        self.queued.is_empty()
    }

    /// Whether a device call failed in a step. No further step is made then.
    pub fn is_broken(&self) -> bool
        ensures { result ≡ self.now.broken }
    {
        self.broken
    }

    // Whether a batch isn't committed. Only the newest can be uncommitted.
    fn has_uncommitted(&self) -> bool
        ensures { result ≡ has_uncommitted self.now.batches }
    {
        match self.queued.len().checked_sub(1) {
            Some(last) => !self.queued[last].is_committed(),
            None => false,
        }
    }

    // Rule: busy
    /// Whether no further batch may begin. Either a batch isn't committed, or the number of unfinished batches equals
    /// the number of journals.
    pub fn is_busy(&self) -> bool
        ensures { result ≡ is_busy self.now }
    {
        self.has_uncommitted() || self.queued.len() == self.geometry.journals() as usize
    }

    /// Whether a home block belongs to a batch that isn't done.
    pub fn has_block(&self, home: u32) -> bool
        ensures { IsTrue result ↔ HasBlock self.now home }
    {
        for one in &self.queued {
            if one.has_block(home) {
                return true;
            }
        }
        false
    }

    // Returns the place of the write-out whose stage decides what a crash leaves. It is the newest if its batch isn't
    // committed, and the oldest otherwise. Without shared syncs it also makes the next step.
    fn current_place(&self) -> Option<usize>
        ensures some { IfSome result (IsCurrent self.now.batches) }
        ensures lone { IfSome result (IsLone false self.now.batches) }
        ensures none { IfNone result (self.now.batches ≡ []) }
    {
        let last = self.queued.len().checked_sub(1)?;
        Some(if self.has_uncommitted() { last } else { 0 })
    }

    // Returns the place of the oldest write-out that has something to write.
    fn writer_place(&self) -> Option<usize>
        ensures some { IfSome result (IsFirst (is_at has_writes) self.now.batches) }
        ensures none { IfNone result (list_any (is_at has_writes) self.now.batches ≡ false) }
    {
        for place in 0..self.queued.len() {
            if self.queued[place].writes() {
                return Some(place);
            }
        }
        None
    }

    // Returns the place of the write-out that makes the next step with shared syncs, or `None` if all share a sync.
    fn sharing_place(&self) -> Option<usize>
        ensures lone { IfSome result (IsLone true self.now.batches) }
        ensures joint { IfNone result (self.now.batches ≢ [] → IsJoint true self.now.batches) }
    {
        let last = self.queued.len().checked_sub(1)?;
        if self.queued[last].is_ahead() {
            return Some(last);
        }
        self.writer_place()
    }

    // Whether write-outs share their syncs.
    fn shares_syncs(&self) -> bool
        ensures { result ≡ in_common self.now.geometry.layout }
    {
        self.geometry.journals() == 4
    }

    // Returns the place of the write-out that makes the next step, or `None` if all share a sync.
    fn lone_place(&self) -> Option<usize>
        ensures lone { IfSome result (IsLone (in_common self.now.geometry.layout) self.now.batches) }
        ensures joint { IfNone result (self.now.batches ≢ []
            → IsJoint (in_common self.now.geometry.layout) self.now.batches) }
    {
        if self.shares_syncs() {
            self.sharing_place()
        } else {
            self.current_place()
        }
    }

    /// Returns the stage that decides what a crash leaves: that of the uncommitted batch, or else of the oldest one.
    /// Without shared syncs it is the stage of the next step. Returns `None` if every batch is done.
    pub fn stage(&self) -> Option<Stage>
        ensures { result ≡ current_stage self.now }
    {
        let at = self.current_place()?;
        self.queued[at].stage()
    }

    /// Returns the place, in its batch, of the record that the next step writes. Returns `None` if that step writes no
    /// record, or if a device call has failed.
    pub fn next_record(&self) -> Option<u32>
        ensures { result ≡ outs_record self.now }
    {
        if self.broken {
            return None;
        }
        let at = self.lone_place()?;
        self.queued[at].next_record()
    }

    /// Returns the home block of the record that the next step writes. The caller passes its new bytes to that step.
    pub fn next_home(&self) -> Option<u32>
        ensures { result ≡ outs_home self.now }
    {
        if self.broken {
            return None;
        }
        let at = self.lone_place()?;
        self.queued[at].next_home()
    }

    /// Begins the write-out of a batch of pages of the table's files, in rising order. If a length was set, the block
    /// of the lengths comes first. The mark is above those of all unfinished batches.
    ///
    /// Journals take turns by batches, from journal 0 on. The batch goes through the next one, which is free since the
    /// write-outs aren't busy. The call allocates no memory and makes no device call.
    pub fn begin(&mut self, mark: u64, table: &Super<A>, resized: bool, pages: &[FilePage])
        requires whole { self.old.broken ≡ false }
        requires free { is_busy self.old ≡ false }
        requires some_mark { 0 < mark }
        requires pages { All (HasHome table.now) pages.now }
        requires homes { AreHomes self.old.geometry (homes_of table.now resized pages.now) }
        requires newest { AllByRecursion (λ w. w.batch.mark < mark) self.old.batches }
        ensures { self.new ≡ begun self.old mark (homes_of table.now resized pages.now) }
    {
        let mut list = refilled(self.spare.pop().unwrap(), table, resized);
        add_homes(&mut list, table, pages);
        let one = Queued::new(&self.geometry, self.next, mark, list);
        // There is room for a write-out in each journal.
        let _ = self.queued.push(one);
        self.next = journal_after(&self.geometry, self.next);
    }

    /// Makes the next step: of the uncommitted batch, or else of the oldest one. The step does the work of its stage,
    /// and this returns that stage's result. `bytes` are the new bytes of the block `next_home`, if there is one. The
    /// call allocates no memory.
    ///
    /// Returns `Device` if a device call failed. The write-outs are broken then: every later step returns `Broken`,
    /// makes no device call and changes nothing.
    ///
    /// In a layout of four journals write-outs share their syncs. Before the records of a batch are synced, the gate of
    /// the oldest is closed, and the home blocks of the one after it are written. The sync of the records then serves
    /// both of these as well. So consecutive commits make two syncs each.
    pub fn step<D: Device>(&mut self, device: &mut D, bytes: &[u8; 4096]) -> Flushed
        requires long { 4096 * self.old.geometry.blocks ≤ length (D.seen device.old) }
        requires some { self.old.batches ≢ [] }

        ensures answer { (result ≡ next_answer self.old) ⊎ (result ≡ Flushed.Device) }
        ensures broken { self.old.broken ≡ true → (result ≡ Flushed.Broken) × (device.new ≡ device.old) }
        ensures whole { self.old.broken ≡ false → result ≢ Flushed.Broken }
        ensures value { self.new ≡ outs_after self.old result }
        ensures did { Did D.Device device.old (next_work self.old bytes.now) (has_done result) device.new }

        // With the same Old and New this still holds after the step. A crash within the step leaves only what it may
        // leave.
        ensures leads { (v : SuperValue) (old new : ℕ → List ℕ) → D.is_honest device.old
            → HasLedTo D.Device v self.old old new device.old
            → ((home : ℕ) → outs_home self.old ≡ Some home → bytes.now ≡ new home)
            → HasLedTo D.Device v self.new old new device.new }
        ensures crash { (v : SuperValue) (old new : ℕ → List ℕ)
            → HasLedTo D.Device v self.old old new device.old
            → ((home : ℕ) → outs_home self.old ≡ Some home → bytes.now ≡ new home)
            → LeavesOnly D.moment D.left_since device.old device.new (LeftWithin v old new (current_stage self.old)) }
    {
        if self.broken {
            return Flushed::Broken;
        }
        let place = self.lone_place();
        let answer = step_next(
            &mut self.queued,
            place,
            &self.geometry,
            device,
            bytes,
            &mut self.buffer,
        );
        conclude(&mut self.queued, &mut self.spare, &mut self.broken, answer);
        answer
    }
}
