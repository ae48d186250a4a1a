// Begins changes, which take place once nobody uses what they affect.
ghost use Rattle.std.specs.Prelude.{ℕ, List, ◌≡◌, ◌<◌, ◌≤◌, ◌-◌, ◌^◌, ◌||◌, nat_le, length as count, None, Some, IfOk, IfErr};
ghost use Rattle.journal.specs.WriteOuts.{is_busy};
ghost use Rattle.machine.specs.State.{capacity_of};
ghost use Rattle.machine.specs.Refusals.{is_msync, lacks_last_page, lacks_frames, length_refusal, resize_refusal};
ghost use Rattle.machine.specs.inside.Sound.{IsSound};
ghost use Rattle.machine.specs.declared.act.Act.TheVariants.{Unmap, Protect, Reclaim, SetLength, Msync};
ghost use Rattle.machine.specs.Rules.{Answers};
ghost use Rattle.machine.specs.inside.Layers.{state_in, reply_to, IsQuiet};

use crate::layers::Layers;
use crate::paging::{pages_for, pages_in_file};
use crate::{MsyncFlags, Reply};
use device::Device;
use mappings::Rights;
use page_entry::{ADDRESS_END, FileNumber, FilePage, PAGE, Pcid, ProcessorNumber, Refusal};
use spaces::Change;
use std::alloc::Allocator;

// Whether a commit may be requested with these arguments: flags of `msync`, an address that begins a page, and no bytes
// past 2^47 (POSIX.1-2024).
fn is_msync(va: u64, len: u64, flags: MsyncFlags) -> bool
    ensures { result ≡ is_msync va len flags }
{
    flags.are_of_msync() && va % PAGE == 0 && va <= ADDRESS_END && len <= ADDRESS_END - va
}

impl<D: Device, A: Allocator + Copy> Layers<D, A> {
    // Begins an unmap, if a page of the range is mapped.
    pub(crate) fn unmap(
        &mut self,
        p: ProcessorNumber,
        space: Pcid,
        va: u64,
        len: u64,
    ) -> Result<Reply, Refusal>
        ensures rules { (disk : List ℕ)
            → Answers (state_in self.old) disk p (Unmap space va len) (reply_to result) (state_in self.new) }
        ensures quiet { IsQuiet self.old self.new }
    {
        self.shootdown.admit_free(p)?;
        let range = self.spaces.judge_range(space, va, len)?;
        if !self.spaces.maps_some(space, range) {
            return Ok(Reply::Fine);
        }
        self.spaces.prepare(space, range, None)?;
        let change = Change::Unmap { pcid: space, range };
        self.shootdown.begin(p, &self.spaces, change);
        Ok(Reply::Begun)
    }

    // Begins a change of rights.
    pub(crate) fn protect(
        &mut self,
        p: ProcessorNumber,
        space: Pcid,
        va: u64,
        len: u64,
        prot: Rights,
    ) -> Result<Reply, Refusal>
        ensures rules { (disk : List ℕ)
            → Answers (state_in self.old) disk p (Protect space va len prot) (reply_to result) (state_in self.new) }
        ensures quiet { IsQuiet self.old self.new }
    {
        self.shootdown.admit_free(p)?;
        let range = self.spaces.judge_protection(space, va, len, prot)?;
        self.spaces.prepare(space, range, Some(prot))?;
        let change = Change::Protect {
            pcid: space,
            range,
            rights: prot,
        };
        self.shootdown.begin(p, &self.spaces, change);
        Ok(Reply::Begun)
    }

    // Begins to remove a page of a file from memory, if it is there.
    pub(crate) fn reclaim(&mut self, p: ProcessorNumber, page: FilePage) -> Result<Reply, Refusal>
        ensures rules { (disk : List ℕ)
            → Answers (state_in self.old) disk p (Reclaim page.file page.page) (reply_to result) (state_in self.new) }
        ensures quiet { IsQuiet self.old self.new }
    {
        self.shootdown.admit_free(p)?;
        if page.file as usize >= self.table.file_count() {
            return Err(Refusal::NoFile);
        }
        if page.page >= pages_in_file(&self.table, page.file) {
            return Err(Refusal::Einval);
        }
        if self.frames.find(page).is_none() {
            return Ok(Reply::Nothing);
        }
        self.shootdown
            .begin(p, &self.spaces, Change::Reclaim { page });
        Ok(Reply::Begun)
    }

    // Whether the volume allows this length for a file.
    fn admit_length(&self, file: FileNumber, length: u64) -> Result<(), Refusal>
        ensures ok { IfOk result (λ fine. length_refusal (state_in self.now) file length ≡ None) }
        ensures err { IfErr result (λ why. length_refusal (state_in self.now) file length ≡ Some why) }
    {
        if self.table.geometry().layout().lengths_blocks() == 0 {
            return Err(Refusal::Einval);
        }
        if file as usize >= self.table.file_count() {
            return Err(Refusal::NoFile);
        }
        if length > self.table.capacity(file as usize) {
            return Err(Refusal::Einval);
        }
        Ok(())
    }

    // Rule: notresident
    // Whether the file is to grow from inside a page that isn't in memory.
    fn lacks_last_page(&self, file: FileNumber, length: u64) -> bool
        requires sound { IsSound (state_in self.now) }
        requires there { file < count self.now.table.files }
        ensures { result ≡ lacks_last_page (state_in self.now) file length }
    {
        let old = self.file_length(file);
        if length <= old {
            return false;
        }
        if old % PAGE == 0 {
            return false;
        }
        let page = (old / PAGE) as u32;
        self.frames.find(FilePage { file, page }).is_none()
    }

    // Whether there are fewer free frames than pages that the file's growth adds.
    fn lacks_frames(&self, file: FileNumber, length: u64) -> bool
        requires sound { IsSound (state_in self.now) }
        requires there { file < count self.now.table.files }
        requires within { length ≤ capacity_of (state_in self.now) file }
        ensures { result ≡ lacks_frames (state_in self.now) file length }
    {
        let old = pages_for(self.file_length(file));
        u64::from(self.frames.free_count()) < pages_for(length).saturating_sub(old)
    }

    // Whether the change of a file's length may begin now.
    fn admit_resize(&self, file: FileNumber, length: u64) -> Result<(), Refusal>
        requires sound { IsSound (state_in self.now) }
        requires there { file < count self.now.table.files }
        requires within { length ≤ capacity_of (state_in self.now) file }
        ensures ok { IfOk result (λ fine. resize_refusal (state_in self.now) file length ≡ None) }
        ensures err { IfErr result (λ why. resize_refusal (state_in self.now) file length ≡ Some why) }
    {
        if self.write_outs.is_broken() {
            return Err(Refusal::Broken);
        }
        if !self.write_outs.is_empty() {
            return Err(Refusal::Busy);
        }
        if self.lacks_last_page(file, length) {
            return Err(Refusal::NotResident);
        }
        if self.lacks_frames(file, length) {
            return Err(Refusal::NoFrame);
        }
        Ok(())
    }

    // Begins a change of a file's length, if the new length differs.
    pub(crate) fn set_length(
        &mut self,
        p: ProcessorNumber,
        file: FileNumber,
        length: u64,
    ) -> Result<Reply, Refusal>
        requires sound { IsSound (state_in self.old) }
        ensures rules { (disk : List ℕ)
            → Answers (state_in self.old) disk p (SetLength file length) (reply_to result) (state_in self.new) }
        ensures quiet { IsQuiet self.old self.new }
    {
        self.shootdown.admit_free(p)?;
        self.admit_length(file, length)?;
        if length == self.file_length(file) {
            return Ok(Reply::Fine);
        }
        self.admit_resize(file, length)?;
        self.shootdown
            .begin(p, &self.spaces, Change::SetLength { file, length });
        Ok(Reply::Begun)
    }

    // Rule: busy
    // Whether no further commit may begin, because no journal is free for it, or the numbers of marks are used up.
    fn is_busy(&self) -> bool
        ensures { result ≡ (is_busy self.now.write_outs || nat_le (2 ^ 32 - 1) self.now.marks) }
    {
        self.write_outs.is_busy() || self.marks == u32::MAX
    }

    // Begins a commit of all stores.
    pub(crate) fn msync(
        &mut self,
        p: ProcessorNumber,
        va: u64,
        len: u64,
        flags: MsyncFlags,
    ) -> Result<Reply, Refusal>
        ensures rules { (disk : List ℕ)
            → Answers (state_in self.old) disk p (Msync va len flags) (reply_to result) (state_in self.new) }
        ensures quiet { IsQuiet self.old self.new }
    {
        self.shootdown.admit_free(p)?;
        if !is_msync(va, len, flags) {
            return Err(Refusal::Einval);
        }
        let space = self.shootdown.space(p);
        if !self.spaces.maps_each(space, va, len) {
            return Err(Refusal::Enomem);
        }
        if self.write_outs.is_broken() {
            return Err(Refusal::Broken);
        }
        if self.is_busy() {
            return Err(Refusal::Busy);
        }
        self.shootdown.begin(p, &self.spaces, Change::Checkpoint);
        Ok(Reply::Begun)
    }
}
