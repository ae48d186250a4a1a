// Makes changes, once nobody uses what they affect.
ghost use Rattle.std.specs.Prelude.{◌≡◌, ◌↔◌, ℕ, List, Some, Ok, IsTrue, IfSome, IfNone};
ghost use Rattle.shootdown.specs.Calls.{HandsOut};
ghost use Rattle.checkpoint.specs.Checkpoint.{Holds};
ghost use Rattle.machine.specs.declared.act.Act.TheVariants.{Change as Changing};
ghost use Rattle.machine.specs.inside.Sound.{IsSound};
ghost use Rattle.machine.specs.Rules.{Answers, MayLeave};
ghost use Rattle.machine.specs.inside.Layers.{state_in, reply_to, IsQuiet, AreReserved, IsPageOf, IsAtHome};

use crate::Reply;
use crate::layers::Layers;
use crate::paging::{home_block, is_cut};
use device::Device;
use mappings::{PageRange, Rights};
use page_entry::{FileNumber, FilePage, FrameNumber, PAGE, Pcid, ProcessorNumber, Refusal};
use spaces::Change;
use std::alloc::Allocator;

impl<D: Device, A: Allocator + Copy> Layers<D, A> {
    // Unmaps the pages of a range.
    fn end_unmap(&mut self, p: ProcessorNumber, pcid: Pcid, range: PageRange) -> Reply
        requires sound { IsSound (state_in self.old) }
        requires reserved { AreReserved self.old.shootdown.lock self.old.spaces.prepared }
        requires held { HandsOut self.old.shootdown p (Ok (Some (Change.Unmap pcid range))) }
        ensures rules { (disk : List ℕ) → Answers (state_in self.old) disk p Changing result (state_in self.new) }
        ensures quiet { IsQuiet self.old self.new }
    {
        self.checkpoint.unmap(&mut self.spaces, pcid, range);
        self.shootdown.finish(p);
        Reply::Unmapped
    }

    // Sets the rights of the pages of a range.
    fn end_protect(
        &mut self,
        p: ProcessorNumber,
        pcid: Pcid,
        range: PageRange,
        rights: Rights,
    ) -> Reply
        requires sound { IsSound (state_in self.old) }
        requires reserved { AreReserved self.old.shootdown.lock self.old.spaces.prepared }
        requires held { HandsOut self.old.shootdown p (Ok (Some (Change.Protect pcid range rights))) }
        ensures rules { (disk : List ℕ) → Answers (state_in self.old) disk p Changing result (state_in self.new) }
        ensures quiet { IsQuiet self.old self.new }
    {
        self.spaces.protect(pcid, range, rights);
        self.shootdown.finish(p);
        Reply::Protected
    }

    // Whether the page's home block has its bytes: the page is clean, its batches are done, and it has zeros past its
    // file's end.
    fn is_at_home(&self, page: FilePage, frame: FrameNumber) -> bool
        requires sound { IsSound (state_in self.now) }
        requires page { IsPageOf self.now.table page }
        requires held { Holds self.now.frames frame page }
        ensures { IsTrue result ↔ IsAtHome (state_in self.now) page frame }
    {
        let left = self
            .file_length(page.file)
            .saturating_sub(PAGE * u64::from(page.page));
        !self.checkpoint.is_dirty(&self.spaces, &self.frames, frame)
            && !self.write_outs.has_block(home_block(&self.table, page))
            && is_cut(self.frames.bytes(frame), left)
    }

    // Rule: kept
    // Returns the frame of a page, if the page may leave memory.
    fn frame_to_free(&self, page: FilePage) -> Option<FrameNumber>
        requires sound { IsSound (state_in self.now) }
        requires page { IsPageOf self.now.table page }
        ensures leaves { IfSome result (MayLeave (state_in self.now) page) }
        ensures stays { IfNone result ((frame : ℕ) → MayLeave (state_in self.now) page frame → ⊥) }
    {
        if self.write_outs.is_broken() {
            return None;
        }
        let frame = self.frames.find(page)?;
        if self.is_at_home(page, frame) {
            Some(frame)
        } else {
            None
        }
    }

    // Removes a page from memory, if it may leave.
    fn end_reclaim(&mut self, p: ProcessorNumber, page: FilePage) -> Reply
        requires sound { IsSound (state_in self.old) }
        requires held { HandsOut self.old.shootdown p (Ok (Some (Change.Reclaim page))) }
        ensures rules { (disk : List ℕ) → Answers (state_in self.old) disk p Changing result (state_in self.new) }
        ensures quiet { IsQuiet self.old self.new }
    {
        let Some(frame) = self.frame_to_free(page) else {
            self.shootdown.finish(p);
            return Reply::Kept;
        };
        self.checkpoint.clear(&mut self.spaces, page);
        self.frames.give(frame);
        self.shootdown.finish(p);
        Reply::Reclaimed
    }

    // Sets the length of a file.
    fn end_resize(&mut self, p: ProcessorNumber, file: FileNumber, length: u64) -> Reply
        requires sound { IsSound (state_in self.old) }
        requires held { HandsOut self.old.shootdown p (Ok (Some (Change.SetLength file length))) }
        ensures rules { (disk : List ℕ) → Answers (state_in self.old) disk p Changing result (state_in self.new) }
        ensures quiet { IsQuiet self.old self.new }
    {
        let old = self.file_length(file);
        self.checkpoint
            .resize(&mut self.spaces, &mut self.frames, file, old, length);
        self.lengths[file as usize] = length;
        self.resized = true;
        self.shootdown.finish(p);
        Reply::Resized
    }

    // Makes the change that a processor began.
    pub(crate) fn change(&mut self, p: ProcessorNumber) -> Result<Reply, Refusal>
        requires sound { IsSound (state_in self.old) }
        requires reserved { AreReserved self.old.shootdown.lock self.old.spaces.prepared }
        ensures rules { (disk : List ℕ)
            → Answers (state_in self.old) disk p Changing (reply_to result) (state_in self.new) }
        ensures quiet { IsQuiet self.old self.new }
    {
        let Some(change) = self.shootdown.change(p)? else {
            return Ok(Reply::Nothing);
        };
        match change {
            Change::Unmap { pcid, range } => Ok(self.end_unmap(p, pcid, range)),
            Change::Protect {
                pcid,
                range,
                rights,
            } => Ok(self.end_protect(p, pcid, range, rights)),
            Change::Reclaim { page } => Ok(self.end_reclaim(p, page)),
            Change::SetLength { file, length } => Ok(self.end_resize(p, file, length)),
            Change::Checkpoint => Ok(self.mark(p)),
        }
    }
}
