// The pager, its calls and its fields.
ghost use Rattle.std.specs.Prelude.{min, ◌≡◌, ◌≢◌, ◌↔◌, ◌⊎◌, ℕ, List, ◌+◌, ◌-◌, ◌^◌, ◌*◌, ◌%◌, ◌==◌, ◌&&◌, ◌∷◌, ◌<◌, ◌≤◌, false, true, not, is_some, is_none, if◌then◌else◌, [], length, slice_index_or, IsTrue, Some, None, IfOk, IfErr, IfSome, IfNone, OnSome, OnOk, OnErr, IsErr, MatchResult};
ghost use Rattle.std.specs.Option.{option_copied};
ghost use Rattle.std.specs.List.{AllByRecursion, sum_by};
ghost use Rattle.std.specs.Vec.{vec_len, vec_capacity};
ghost use Rattle.device.specs.Did.{Did};
ghost use Rattle.volume_codec.specs.Layout.{first_home, max_frames, block_at, lengths_blocks};
ghost use Rattle.volume_codec.specs.Lengths.{AreLengths};
ghost use Rattle.volume_codec.specs.Super.{block_count, capacities_in};
ghost use Rattle.journal.specs.Pages.{home_of};
ghost use Rattle.journal.specs.Work.{has_done};
ghost use Rattle.journal.specs.WriteOuts.{is_busy, next_work, next_answer, outs_home};
ghost use Rattle.recovery.specs.Counts.{Rises, IsAccounted};
ghost use Rattle.recovery.specs.Reading.{IsOnlyRead};
ghost use Rattle.journal.specs.LedTo.{MayBegin};
ghost use Rattle.kept_blocks.specs.Blocks.{homes_in, with_home, newest_in, cut_to, bytes_in};
ghost use Rattle.pager.specs.State.{newly_opened, kept_bytes, current_in, up_to_end, file_length, is_full, reserved, record_for};
ghost use Rattle.pager.specs.Calls.{page_refusal, put_refusal, RefusesPut, after_put, commit_refusal, after_commit, read_calls, next_bytes, records_after, after_step};
ghost use Rattle.pager.specs.Calls.{first_reason, reason_if, end_page, restaged, is_overfull, new_length_refusal, set_length_refusal, reads_last, RefusesSetLength, length_calls, last_page, resized_to, after_length};
ghost use Rattle.recovery.specs.Volume.{IsWellFormed};
ghost use Rattle.pager.specs.inside.Sound.{IsSound};
ghost use Rattle.pager.specs.State.{IsBeforeEnd};
ghost use Rattle.pager.specs.inside.Opening.{IsRoom};
ghost use Rattle.pager.specs.inside.Resizing.{MayHaveLength};
ghost use Rattle.page_entry.specs.declared.refusal.Refusal.TheVariants.{NoFrame};

use crate::opening::{Room, most_pages};
use crate::pages::{block_after, capacity_at, home_block, last_block, length_at, text_with};
use device::Device;
use journal::{Flushed, WriteOuts};
use kept_blocks::{Blocks, boxed_page, cut_off, has_whole_block};
use page_entry::{FileNumber, FilePage, PAGE, PageIndex, Refusal};
use recovery::Volume;
use recovery::reading::read;
use std::alloc::{AllocError, Allocator};
use std::marker::Model;
use std::mem;
use volume_codec::Super;

/// A page store over a volume. Pages are put and then committed together. Each step writes out a part of the commits,
/// in general with one device call.
#[derive(Drop)]
pub struct Pager<D: Device, A: Allocator + Copy> {
    alloc: A,
    table: Super<A>,
    // The length of each file in bytes.
    lengths: Vec<u64, A>,
    // The largest number of pages of files in a commit.
    most: u32,
    // The blocks that were put since the last commit began.
    staged: Blocks<A>,
    write_outs: WriteOuts<A>,
    // The blocks of each write-out that isn't done, the oldest first.
    records: Vec<Blocks<A>, A>,
    // Scratch memory for the home block numbers of a commit.
    homes: Vec<u32, A>,
    // The number of commits that began since the opening.
    marks: u32,
    pub(crate) device: D,
}

impl<D: Device, A: Allocator + Copy> Model for Pager<D, A> {
    ghost use Rattle.std.specs.Vec.{vec_capacity};
    ghost use Rattle.pager.specs.State.{PagerState};
    ghost use Rattle.pager.specs.inside.Sound.{IsPager};

    ghost Value = { PagerState D };

    ghost use Rattle.pager.specs.inside.Fields.{state_of};

    ghost view = { state_of };

    ghost invariant = { λ p. IsPager D.seen (state_of p) (vec_capacity p.records) (vec_capacity p.homes) };
}

// Returns the bytes of a home block in the newest list that contains it.
fn newest<A: Allocator + Copy>(records: &[Blocks<A>], home: u32) -> Option<&[u8; 4096]>
    ensures { option_copied result ≡ newest_in records.now home }
{
    let mut found = None;
    for blocks in records {
        match blocks.get(home) {
            Some(bytes) => found = Some(bytes),
            None => {}
        }
    }
    found
}

// Copies the bytes of a home block from the newest list that contains it. Returns false, and copies nothing, if no list
// does.
fn copy_newest<A: Allocator + Copy>(
    records: &[Blocks<A>],
    home: u32,
    buffer: &mut [u8; 4096],
) -> bool
    ensures found { newest_in records.now home ≡ (if result then Some buffer.new else None) }
    ensures none { result ≡ false → buffer.new ≡ buffer.old }
{
    match newest(records, home) {
        Some(bytes) => {
            *buffer = *bytes;
            true
        }
        None => false,
    }
}

// Returns the bytes for the next step: those of the home block whose record it writes, or zeros if it writes no record.
fn record_for<A: Allocator + Copy>(records: &[Blocks<A>], home: Option<u32>) -> &[u8; 4096]
    ensures { result.now ≡ record_for records.now home }
{
    match home {
        Some(home) => match newest(records, home) {
            Some(bytes) => bytes,
            None => &[0; 4096],
        },
        None => &[0; 4096],
    }
}

// Removes the blocks of the oldest write-out if it is done.
fn conclude<A: Allocator + Copy>(records: &mut Vec<Blocks<A>, A>, answer: Flushed)
    ensures items { records.new.items ≡ records_after answer records.old.items }
    ensures room { vec_capacity records.new ≡ vec_capacity records.old }
{
    if let Flushed::Done(_) = answer {
        if !records.is_empty() {
            let _done = records.remove(0);
        }
    }
}

impl<D: Device, A: Allocator + Copy> Pager<D, A> {
    // Makes a pager over a volume from the allocated memory.
    pub(crate) fn over(alloc: A, volume: Volume<D, A>, room: Room<A>, most: u32) -> Self
        requires { IsRoom volume.table volume.lengths room }
        ensures fresh { result ≡ newly_opened volume (min most (max_frames volume.table.layout volume.table.slots)) }
        ensures well_formed { IsWellFormed D.Device volume }
    {
        let Room {
            lengths,
            write_outs,
            records,
            homes,
        } = room;
        let (table, device) = volume.into_parts();
        let most = most_pages(&table, most);
        Pager {
            alloc,
            table,
            lengths,
            most,
            staged: Blocks::new(alloc),
            write_outs,
            records,
            homes,
            marks: 0,
            device,
        }
    }

    // Returns the home block of a page that begins before its file's end.
    fn admit_page(&self, page: FilePage) -> Result<u32, Refusal>
        ensures ok { OnOk result (page_refusal self.now.lengths page ≡ None) }
        ensures home { IfOk result (λ home. home ≡ home_of self.now.table page) }
        ensures low { IfOk result (λ home. first_home self.now.table.layout self.now.table.slots ≤ home) }
        ensures within { IfOk result (λ home. home < block_count self.now.table) }
        ensures before { IfOk result (IsBeforeEnd self.now.table self.now.lengths) }
        ensures file { OnOk result (page.file < length self.now.lengths) }
        ensures err { IfErr result (λ why. page_refusal self.now.lengths page ≡ Some why) }
    {
        if page.file as usize >= self.lengths.len() {
            return Err(Refusal::NoFile);
        }
        if length_at(&self.lengths, page.file) <= PAGE * u64::from(page.page) {
            return Err(Refusal::Einval);
        }
        Ok(home_block(&self.table, &self.lengths, page))
    }

    // Returns the number of the file's bytes from the start of the page on, or 0 if the page starts past its end.
    fn left(&self, page: FilePage) -> u64
        requires { page.file < length self.now.lengths }
        ensures { result ≡ file_length self.now.lengths page.file - 4096 * page.page }
    {
        length_at(&self.lengths, page.file).saturating_sub(PAGE * u64::from(page.page))
    }

    // How many home blocks hold the lengths.
    fn lengths_blocks(&self) -> usize
        ensures value { result ≡ lengths_blocks self.now.table.layout }
        ensures few { result ≤ 1 }
    {
        self.table.layout().lengths_blocks() as usize
    }

    // Returns the number of blocks of the next commit that are reserved for the lengths.
    fn reserved(&self) -> usize
        ensures value { result ≡ reserved self.now.table self.now.staged }
        ensures few { result ≤ 1 }
    {
        if self
            .staged
            .get(self.table.geometry().first_home())
            .is_some()
        {
            0
        } else {
            self.lengths_blocks()
        }
    }

    // Whether the next commit has no room for this home block.
    fn is_full(&self, home: u32) -> bool
        ensures { result ≡ is_full self.now.table self.now.most self.now.staged home }
    {
        if self.staged.len() < self.most as usize {
            return false;
        }
        if self.staged.get(home).is_some() {
            return false;
        }
        self.staged.len() + self.reserved() >= self.most as usize + self.lengths_blocks()
    }

    // Stages a page for the next commit: its first `left` bytes, then zeros.
    fn stage(&mut self, home: u32, bytes: &[u8; 4096], left: u64) -> Result<(), Refusal>
        requires low { first_home self.old.table.layout self.old.table.slots ≤ home }
        requires within { home < block_count self.old.table }
        requires before { IsBeforeEnd self.old.table self.old.lengths home }
        requires room { is_full self.old.table self.old.most self.old.staged home ≡ false }
        ensures ok { OnOk result
            (self.new ≡ record self.old { staged = with_home self.old.staged home (cut_to left bytes.now) }) }
        ensures err { OnErr result (self.new ≡ self.old) }
        ensures memory { IfErr result (λ why. why ≡ Refusal.OutOfMemory) }
    {
        let Ok(block) = boxed_page(self.alloc, bytes, left) else {
            return Err(Refusal::OutOfMemory);
        };
        match self.staged.put(home, block) {
            Ok(()) => Ok(()),
            Err(_) => Err(Refusal::OutOfMemory),
        }
    }

    /// Puts a page: it has these bytes from now on, up to its file's end. The next commit takes it. Makes no device
    /// call.
    ///
    /// A failure changes nothing. Fails with:
    ///
    /// - `NoFile` if there is no such file;
    /// - `Einval` if the page begins at or past its file's end;
    /// - `Broken` if a device call of a commit has failed;
    /// - `NoFrame` if the next commit has no room for the page;
    /// - `OutOfMemory` if memory runs out.
    pub fn put(&mut self, page: FilePage, bytes: &[u8; 4096]) -> Result<(), Refusal>
        ensures ok { OnOk result (put_refusal self.old page ≡ None) }
        ensures put { OnOk result (self.new ≡ after_put self.old page bytes.now) }
        ensures refused { IfErr result (RefusesPut self.old page) }
        ensures unchanged { OnErr result (self.new ≡ self.old) }
    {
        let home = self.admit_page(page)?;
        if self.write_outs.is_broken() {
            return Err(Refusal::Broken);
        }
        if self.is_full(home) {
            return Err(Refusal::NoFrame);
        }
        self.stage(home, bytes, self.left(page))
    }

    // Begins a commit of all staged blocks under the next mark.
    fn begin(&mut self)
        requires whole { self.old.write_outs.broken ≡ false }
        requires free { is_busy self.old.write_outs ≡ false }
        requires some { self.old.staged ≢ [] }
        requires marks { self.old.marks < 2 ^ 32 - 1 }
        ensures begins { MayBegin self.old.write_outs (self.old.marks + 1) (homes_in self.old.staged) }
        ensures committed { self.new ≡ after_commit self.old }
    {
        self.homes.clear();
        self.staged.list_homes(&mut self.homes);
        self.marks += 1;
        self.write_outs
            .begin_blocks(u64::from(self.marks), &self.homes);
        let blocks = mem::replace(&mut self.staged, Blocks::new(self.alloc));
        // The capacity is one list for each journal, so this cannot fail.
        let _ = self.records.push(blocks);
    }

    /// Begins a commit of all pages that were put since the last one, and returns its mark. Steps write the commit out.
    /// If nothing was put, no step follows, and the mark is acknowledged at once. Makes no device call.
    ///
    /// A failure changes nothing. Fails with:
    ///
    /// - `Broken` if a device call of a commit has failed;
    /// - `Busy` if the last commit isn't acknowledged, no journal is free, or the number of marks has reached 2^32 - 1.
    pub fn commit(&mut self) -> Result<u32, Refusal>
        ensures ok { OnOk result (commit_refusal self.old ≡ None) }
        ensures mark { IfOk result (λ mark. mark ≡ self.old.marks + 1) }
        ensures begins { OnOk result (self.old.staged ≢ []
            → MayBegin self.old.write_outs (self.old.marks + 1) (homes_in self.old.staged)) }
        ensures committed { OnOk result (self.new ≡ after_commit self.old) }
        ensures refused { IfErr result (λ why. commit_refusal self.old ≡ Some why) }
        ensures unchanged { OnErr result (self.new ≡ self.old) }
    {
        if self.write_outs.is_broken() {
            return Err(Refusal::Broken);
        }
        if self.write_outs.is_busy() || self.marks == u32::MAX {
            return Err(Refusal::Busy);
        }
        if self.staged.is_empty() {
            self.marks += 1;
        } else {
            self.begin();
        }
        Ok(self.marks)
    }

    // Makes the next step of the write-outs that aren't done.
    fn advance(&mut self) -> Flushed
        requires { self.old.write_outs.batches ≢ [] }
        ensures answer { (result ≡ next_answer self.old.write_outs) ⊎ (result ≡ Flushed.Device) }
        ensures broken { self.old.write_outs.broken ≡ true
            → (result ≡ Flushed.Broken) × (self.new.device ≡ self.old.device) }
        ensures whole { self.old.write_outs.broken ≡ false → result ≢ Flushed.Broken }
        ensures value { self.new ≡ after_step self.old result self.new.device }
        ensures a_block { length (next_bytes self.old) ≡ 4096 }
        ensures did { Did D.Device self.old.device (next_work self.old.write_outs (next_bytes self.old))
            (has_done result) self.new.device }
    {
        let home = self.write_outs.next_home();
        let bytes = record_for(&self.records, home);
        has_whole_block(bytes);
        let answer = self.write_outs.step(&mut self.device, bytes);
        conclude(&mut self.records, answer);
        answer
    }

    /// Makes the next device call of the commits that aren't done, or two calls if a page is copied to its home block.
    /// Returns `None`, and changes nothing, if each commit is done. `Committed` acknowledges a mark. `Done` means that
    /// the commit's pages are in their home blocks. `Device` means that a call failed. No further call is made then,
    /// and each later step returns `Broken`.
    pub fn step(&mut self) -> Option<Flushed>
        ensures none { IfNone result ((self.old.write_outs.batches ≡ []) × (self.new ≡ self.old)) }
        ensures some { OnSome result (self.old.write_outs.batches ≢ []) }
        ensures answer { IfSome result (λ answer.
            (answer ≡ next_answer self.old.write_outs) ⊎ (answer ≡ Flushed.Device)) }
        ensures broken { IfSome result (λ answer. self.old.write_outs.broken ≡ true
            → (answer ≡ Flushed.Broken) × (self.new.device ≡ self.old.device)) }
        ensures whole { IfSome result (λ answer. self.old.write_outs.broken ≡ false → answer ≢ Flushed.Broken) }
        ensures value { IfSome result (λ answer. self.new ≡ after_step self.old answer self.new.device) }
        ensures a_block { OnSome result (length (next_bytes self.old) ≡ 4096) }
        ensures did { IfSome result (λ answer. Did D.Device self.old.device
            (next_work self.old.write_outs (next_bytes self.old)) (has_done answer) self.new.device) }
    {
        if self.write_outs.is_empty() {
            return None;
        }
        Some(self.advance())
    }

    // Copies the bytes of a home block that are kept in memory. Returns false, and copies nothing, if none are kept.
    fn copy_kept(&self, home: u32, buffer: &mut [u8; 4096]) -> bool
        ensures { kept_bytes self.now.staged self.now.records home ≡ (if result then Some buffer.new else None) }
    {
        match self.staged.get(home) {
            Some(bytes) => {
                *buffer = *bytes;
                true
            }
            None => copy_newest(&self.records, home, buffer),
        }
    }

    // Reads a home block from the device.
    fn read_home(&mut self, home: u32, buffer: &mut [u8; 4096]) -> Result<(), Refusal>
        requires within { home < block_count self.old.table }
        ensures bytes { D.is_honest self.old.device
            → OnOk result (buffer.new ≡ block_at (D.seen self.old.device) home) }
        ensures state { self.new ≡ record self.old { device = self.new.device } }
        ensures read { IsOnlyRead D.Device self.old.device self.new.device }
        ensures kept { IsAccounted D.Device self.old.device result self.new.device }
        ensures carried { D.carried self.new.device ≡ D.carried self.old.device }
        ensures fault { IfErr result (λ refusal. refusal ≡ Refusal.Device) }
        ensures calls { Rises 1 (D.calls_made self.old.device) (D.calls_made self.new.device) }
    {
        read(&mut self.device, PAGE * u64::from(home), buffer)
    }

    /// Copies a page to the buffer, with zeros past its file's end. The bytes are those that were put last. Otherwise
    /// they are those of the newest commit that isn't done and contains the page. Otherwise they are those of its home
    /// block, which takes one device call.
    ///
    /// Fails with `NoFile` if there is no such file, or `Einval` if the page begins at or past its file's end. Fails
    /// with `Device` if the device call fails.
    pub fn read(&mut self, page: FilePage, buffer: &mut [u8; 4096]) -> Result<(), Refusal>
        ensures there { OnOk result (page_refusal self.old.lengths page ≡ None) }
        ensures bytes { D.is_honest self.old.device → OnOk result (buffer.new ≡ up_to_end self.old.lengths page
            (current_in self.old.staged self.old.records (D.seen self.old.device) (home_of self.old.table page))) }
        ensures refused { IfErr result (λ why. (page_refusal self.old.lengths page ≡ Some why)
            ⊎ ((why ≡ Refusal.Device) × (page_refusal self.old.lengths page ≡ None))) }
        ensures state { self.new ≡ record self.old { device = self.new.device } }
        ensures read { IsOnlyRead D.Device self.old.device self.new.device }
        ensures carried { D.carried self.new.device ≡ D.carried self.old.device }
        ensures calls { Rises (read_calls self.old page)
            (D.calls_made self.old.device) (D.calls_made self.new.device) }
    {
        let home = self.admit_page(page)?;
        let left = self.left(page);
        if !self.copy_kept(home, buffer) {
            self.read_home(home, buffer)?;
        }
        cut_off(buffer, left);
        Ok(())
    }

    // Fails if the file can't have this length, whatever is staged: the layout has no lengths, there is no such file,
    // or the length is above its capacity.
    fn admit_length(&self, file: FileNumber, to: u64) -> Result<(), Refusal>
        ensures may { OnOk result (MayHaveLength self.now.table file to) }
        ensures ok { OnOk result (set_length_refusal self.now file to
            ≡ first_reason ((if to == file_length self.now.lengths file then None
            else new_length_refusal self.now file to)
            ∷ [])) }
        ensures err { IfErr result (λ why. set_length_refusal self.now file to ≡ Some why) }
        ensures refused { IfErr result (RefusesSetLength self.now file to) }
    {
        if self.lengths_blocks() == 0 {
            return Err(Refusal::Einval);
        }
        if file as usize >= self.lengths.len() {
            return Err(Refusal::NoFile);
        }
        if capacity_at(&self.table, file) < to {
            return Err(Refusal::Einval);
        }
        Ok(())
    }

    // Whether the next commit has no room for the pages that a growth puts.
    fn is_overfull(&self, file: FileNumber, from: u64, to: u64) -> bool
        requires may { MayHaveLength self.now.table file to }
        requires from { from ≡ file_length self.now.lengths file }
        requires more { from < to }
        ensures { result ≡ is_overfull self.now.table self.now.most
            (restaged self.now.table self.now.lengths file to [] self.now.staged) }
    {
        let home = last_block(&self.table, file, from);
        let pages = (block_after(&self.table, file, to) - home) as usize;
        let more = if self.staged.get(home).is_some() {
            pages - 1
        } else {
            pages
        };
        self.staged.len() + more + self.reserved() > self.most as usize + self.lengths_blocks()
    }

    // Returns the bytes of the page in which a file ends, or zeros if it ends at a page boundary.
    fn read_last(&mut self, file: FileNumber, from: u64) -> Result<[u8; 4096], Refusal>
        requires file { file < length self.old.table.files }
        requires from { from ≡ file_length self.old.lengths file }
        requires fits { from < slice_index_or (capacities_in self.old.table) file 0 }
        ensures bytes { D.is_honest self.old.device → IfOk result (λ last.
            cut_to (from % 4096) last ≡ cut_to (from % 4096) (last_page self.old (D.seen self.old.device) file)) }
        ensures state { self.new ≡ record self.old { device = self.new.device } }
        ensures read { IsOnlyRead D.Device self.old.device self.new.device }
        ensures carried { D.carried self.new.device ≡ D.carried self.old.device }
        ensures fault { IfErr result (λ why. (why ≡ Refusal.Device) × ((not (from % 4096 == 0)
            && is_none (kept_bytes self.old.staged self.old.records (home_of self.old.table (end_page file from))))
            ≡ true)) }
        ensures calls { Rises (if not (from % 4096 == 0)
            && is_none (kept_bytes self.old.staged self.old.records (home_of self.old.table (end_page file from)))
            then 1 else 0) (D.calls_made self.old.device) (D.calls_made self.new.device) }
    {
        let mut last = [0; 4096];
        if from % PAGE != 0 {
            let home = last_block(&self.table, file, from);
            if !self.copy_kept(home, &mut last) {
                self.read_home(home, &mut last)?;
            }
        }
        Ok(last)
    }

    // Grows a file. `last` contains the bytes of the page in which the file ended.
    fn put_growth(&mut self, file: FileNumber, to: u64, last: &[u8; 4096]) -> Result<(), Refusal>
        requires may { MayHaveLength self.old.table file to }
        requires more { file_length self.old.lengths file < to }
        requires room { is_overfull self.old.table self.old.most
            (restaged self.old.table self.old.lengths file to [] self.old.staged) ≡ false }
        ensures ok { OnOk result (self.new ≡ resized_to self.old file to last.now self.old.device) }
        ensures err { OnErr result (self.new ≡ self.old) }
        ensures memory { IfErr result (λ why. why ≡ Refusal.OutOfMemory) }
    {
        let from = length_at(&self.lengths, file);
        let home = last_block(&self.table, file, from);
        let high = block_after(&self.table, file, to);
        let first = self.table.geometry().first_home();
        let text = text_with(&mut self.lengths, file, to);
        let mut block = *last;
        cut_off(&mut block, from % PAGE);
        match self
            .staged
            .grow(self.alloc, home, high, &block, first, &text)
        {
            Ok(()) => {
                self.lengths[file as usize] = to;
                Ok(())
            }
            Err(_) => Err(Refusal::OutOfMemory),
        }
    }

    fn grow(&mut self, file: FileNumber, from: u64, to: u64) -> Result<(), Refusal>
        requires may { MayHaveLength self.old.table file to }
        requires from { from ≡ file_length self.old.lengths file }
        requires more { from < to }
        requires reason { set_length_refusal self.old file to ≡ first_reason (reason_if (is_overfull self.old.table
            self.old.most (restaged self.old.table self.old.lengths file to [] self.old.staged)) NoFrame ∷ []) }
        ensures ok { OnOk result (set_length_refusal self.old file to ≡ None) }
        ensures set { D.is_honest self.old.device → OnOk result (self.new ≡ resized_to self.old file to
            (last_page self.old (D.seen self.old.device) file) self.new.device) }
        ensures some { OnOk result ((last : List ℕ) × (self.new ≡ resized_to self.old file to last self.new.device)) }
        ensures refused { IfErr result (RefusesSetLength self.old file to) }
        ensures unchanged { OnErr result (self.new ≡ record self.old { device = self.new.device }) }
        ensures read { IsOnlyRead D.Device self.old.device self.new.device }
        ensures carried { D.carried self.new.device ≡ D.carried self.old.device }
        ensures calls { Rises (length_calls self.old file to)
            (D.calls_made self.old.device) (D.calls_made self.new.device) }
    {
        if self.is_overfull(file, from, to) {
            return Err(Refusal::NoFrame);
        }
        let last = self.read_last(file, from)?;
        self.put_growth(file, to, &last)
    }

    fn shrink(&mut self, file: FileNumber, from: u64, to: u64) -> Result<(), Refusal>
        requires may { MayHaveLength self.old.table file to }
        requires from { from ≡ file_length self.old.lengths file }
        requires less { to < from }
        ensures room { is_overfull self.old.table self.old.most
            (restaged self.old.table self.old.lengths file to [] self.old.staged) ≡ false }
        ensures ok { (last : List ℕ) → OnOk result (self.new ≡ resized_to self.old file to last self.old.device) }
        ensures device { self.new.device ≡ self.old.device }
        ensures err { OnErr result (self.new ≡ self.old) }
        ensures memory { IfErr result (λ why. why ≡ Refusal.OutOfMemory) }
    {
        let low = block_after(&self.table, file, to);
        let high = block_after(&self.table, file, from);
        let home = last_block(&self.table, file, to);
        let first = self.table.geometry().first_home();
        let text = text_with(&mut self.lengths, file, to);
        match self
            .staged
            .shrink(self.alloc, low, high, home, to % PAGE, first, &text)
        {
            Ok(()) => {
                self.lengths[file as usize] = to;
                Ok(())
            }
            Err(_) => Err(Refusal::OutOfMemory),
        }
    }

    /// Sets the length of a file in bytes, from 0 to its capacity (POSIX.1-2024, `ftruncate`). The next commit takes
    /// the change. If the file has this length already, nothing changes.
    ///
    /// A file that grows has zeros from its old end on. Each page that it gets is put, and so is the page in which it
    /// ended. These count among the pages of the next commit. When a file shrinks, its pages past the new end are no
    /// longer put. If the page in which it then ends is put, it has zeros from there on. Growth from inside a page that
    /// isn't kept in memory takes one device call. Nothing else takes one.
    ///
    /// A failure leaves the pager's state unchanged. Fails with:
    ///
    /// - `Einval` if the volume's layout has no block for lengths (layouts 1 and 2), or the length is above the file's
    ///   capacity;
    /// - `NoFile` if there is no such file;
    /// - `Broken` if a device call of a commit has failed;
    /// - `NoFrame` if the next commit has no room for the pages;
    /// - `Device` if the device call fails;
    /// - `OutOfMemory` if memory runs out.
    pub fn set_length(&mut self, file: FileNumber, length: u64) -> Result<(), Refusal>
        ensures ok { OnOk result (set_length_refusal self.old file length ≡ None) }
        ensures set { D.is_honest self.old.device → OnOk result (self.new ≡ after_length self.old file length
            (last_page self.old (D.seen self.old.device) file) self.new.device) }
        ensures some { OnOk result
            ((last : List ℕ) × (self.new ≡ after_length self.old file length last self.new.device)) }
        ensures refused { IfErr result (RefusesSetLength self.old file length) }
        ensures unchanged { OnErr result (self.new ≡ record self.old { device = self.new.device }) }
        ensures read { IsOnlyRead D.Device self.old.device self.new.device }
        ensures carried { D.carried self.new.device ≡ D.carried self.old.device }
        ensures calls { Rises (length_calls self.old file length)
            (D.calls_made self.old.device) (D.calls_made self.new.device) }
    {
        self.admit_length(file, length)?;
        let from = length_at(&self.lengths, file);
        if length == from {
            return Ok(());
        }
        if self.write_outs.is_broken() {
            return Err(Refusal::Broken);
        }
        if length < from {
            self.shrink(file, from, length)
        } else {
            self.grow(file, from, length)
        }
    }

    /// Returns the table of the files.
    pub fn table(&self) -> &Super<A>
        ensures { result.now ≡ self.now.table }
    {
        &self.table
    }

    /// Returns the length of each file in bytes, in the table's order. No length is above its file's capacity.
    pub fn lengths(&self) -> &[u64]
        ensures value { result.now ≡ self.now.lengths }
        ensures each { AreLengths self.now.table self.now.lengths }
    {
        &self.lengths
    }

    /// Returns the number of blocks that were put since the last commit began.
    pub fn staged(&self) -> usize
        ensures { result ≡ length self.now.staged }
    {
        self.staged.len()
    }

    /// Returns the number of pages of files in the next commit: the blocks that were put, without the block of the
    /// lengths.
    pub fn staged_pages(&self) -> usize
        ensures { result ≡ length self.now.staged
            - (lengths_blocks self.now.table.layout - reserved self.now.table self.now.staged) }
    {
        let lengths = self.lengths_blocks().saturating_sub(self.reserved());
        self.staged.len().saturating_sub(lengths)
    }

    /// Whether each commit is done.
    pub fn is_idle(&self) -> bool
        ensures { IsTrue result ↔ (self.now.write_outs.batches ≡ []) }
    {
        self.write_outs.is_empty()
    }

    /// Returns the device as it is. For commits that aren't done, an opening finds what a crash would have left.
    pub fn into_device(self) -> D
        ensures { result ≡ self.device }
    {
        let Pager {
            alloc: _,
            table,
            lengths,
            most: _,
            staged,
            write_outs,
            records,
            homes,
            marks: _,
            device,
        } = self;
        drop(table);
        drop(lengths);
        drop(staged);
        drop(write_outs);
        drop(records);
        drop(homes);
        device
    }

    /// Returns the largest number of pages of files that a commit takes.
    pub fn most(&self) -> u32
        ensures { result ≡ self.now.most }
    {
        self.most
    }

    /// Returns the number of commits that began since the opening.
    pub fn marks(&self) -> u32
        ensures { result ≡ self.now.marks }
    {
        self.marks
    }

    /// Whether a device call of a commit failed. Then no page can be put, and no commit can begin.
    pub fn is_broken(&self) -> bool
        ensures { result ≡ self.now.write_outs.broken }
    {
        self.write_outs.is_broken()
    }

    /// Whether the last commit isn't acknowledged, or no journal is free. Then no further commit can begin.
    pub fn is_busy(&self) -> bool
        ensures { result ≡ is_busy self.now.write_outs }
    {
        self.write_outs.is_busy()
    }

    /// Whether the page was put since the last commit began. Returns false for a page that begins at or past its file's
    /// end.
    pub fn is_staged(&self, page: FilePage) -> bool
        ensures { result ≡ (is_none (page_refusal self.now.lengths page)
            && is_some (bytes_in self.now.staged (home_of self.now.table page))) }
    {
        match self.admit_page(page) {
            Ok(home) => self.staged.get(home).is_some(),
            Err(_) => false,
        }
    }

    /// Returns the number of blocks in the commits that aren't done, or 2^64 - 1 if there are more.
    pub fn unwritten(&self) -> usize
        ensures { result ≡ min (2 ^ 64 - 1) (sum_by (λ blocks. length blocks) self.now.records) }
    {
        count_blocks(&self.records)
    }
}

// Returns the number of blocks in these lists, or 2^64 - 1 if there are more.
fn count_blocks<A: Allocator + Copy>(records: &[Blocks<A>]) -> usize
    ensures { result ≡ min (2 ^ 64 - 1) (sum_by (λ blocks. length blocks) records.now) }
{
    let mut count: usize = 0;
    for blocks in records {
        count = count.saturating_add(blocks.len());
    }
    count
}
