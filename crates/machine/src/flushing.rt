// Makes the steps of write-outs.
ghost use Rattle.std.specs.Prelude.{◌≡◌, ◌*◌, ◌≤◌, ◌<◌, ℕ, List, length, true, not};
ghost use Rattle.device.specs.Did.{Did};
ghost use Rattle.volume_codec.specs.Super.{block_count};
ghost use Rattle.journal.specs.WriteOuts.{next_work};
ghost use Rattle.checkpoint.specs.Checkpoint.{AreCopiesOfFrozen};
ghost use Rattle.fault.specs.Fault.{is_in_memory};
ghost use Rattle.machine.specs.declared.act.Act.TheVariants.{Flush};
ghost use Rattle.machine.specs.Calls.{has_failed};
ghost use Rattle.machine.specs.inside.Sound.{IsMemory, IsSound};
ghost use Rattle.machine.specs.Rules.{bytes_at_mark, is_page_next, work_asked, Acts};
ghost use Rattle.machine.specs.Steps.{step_work};
ghost use Rattle.machine.specs.inside.Layers.{state_in, reply_to, AnswersBy, KeepsReserved};
ghost use Rattle.machine.specs.inside.Flushing.{CanStep, IsStepped, HasSmallMark, IsThere};
ghost use Rattle.machine.specs.inside.Flushing.{bytes_from, reply_of_flush, memory_after, checkpoint_after};

use crate::Reply;
use crate::layers::Layers;
use crate::paging::cut_off;
use device::Device;
use frames::Frames;
use journal::Flushed;
use page_entry::{FilePage, PAGE, ProcessorNumber, Refusal};
use std::alloc::Allocator;
use volume_codec::write_lengths;

// The reply for the result of a write-out's step.
fn reply_to_flush(answer: Flushed) -> Result<Reply, Refusal>
    requires { HasSmallMark answer }
    ensures { result ≡ reply_of_flush answer }
{
    match answer {
        Flushed::Going => Ok(Reply::Going),
        Flushed::Committed(mark) => Ok(Reply::Committed(mark as u32)),
        Flushed::Done(mark) => Ok(Reply::Done(mark as u32)),
        Flushed::Device => Err(Refusal::Device),
        Flushed::Broken => Err(Refusal::Broken),
    }
}

// Where the bytes for a step are: in a block, or in memory as a page's bytes at its mark.
#[derive(Clone, Copy)]
enum Source<'a> {
    Block(&'a [u8; 4096]),
    Page(FilePage),
}

// Returns the bytes of a page in memory as they were at its mark: those of its copy, or of its frame if it wasn't
// copied.
fn bytes_at_mark<A: Allocator + Copy>(frames: &Frames<A>, page: FilePage) -> &[u8; 4096]
    requires memory { IsMemory frames.now }
    requires there { is_in_memory frames.now page ≡ true }
    ensures { result.now ≡ bytes_at_mark frames.now page }
{
    match frames.copy_of(page) {
        Some(copy) => frames.copy_bytes(copy),
        None => {
            let frame = frames.find(page).unwrap();
            frames.bytes(frame)
        }
    }
}

// Returns the bytes for a step.
fn bytes_from<'a, A: Allocator + Copy>(frames: &'a Frames<A>, source: Source<'a>) -> &'a [u8; 4096]
    requires memory { IsMemory frames.now }
    requires there { IsThere frames.now source }
    ensures { result.now ≡ bytes_from frames.now source.entry }
{
    match source {
        Source::Block(block) => block,
        Source::Page(page) => bytes_at_mark(frames, page),
    }
}

impl<D: Device, A: Allocator + Copy> Layers<D, A> {
    // Releases frozen pages after a step of a write-out: the page whose record was written, or all if a device call
    // failed.
    fn release_by(&mut self, writes_record: bool, answer: Flushed)
        requires some { writes_record ≡ true → 0 < length self.old.checkpoint.frozen }
        requires copies { AreCopiesOfFrozen self.old.frames self.old.checkpoint }
        ensures { self.new ≡ record self.old {
          frames = memory_after answer writes_record self.old.checkpoint self.old.frames;
          checkpoint = checkpoint_after answer writes_record self.old.checkpoint;
        } }
    {
        match answer {
            Flushed::Device => self.checkpoint.release_all(&mut self.frames),
            _ if writes_record => self.checkpoint.release(&mut self.frames),
            _ => {}
        }
    }

    // Whether the next step of the write-outs writes the record of a page.
    fn is_page_next(&self) -> bool
        ensures { result ≡ is_page_next (state_in self.now) }
    {
        match self.write_outs.next_home() {
            Some(home) => home >= self.table.geometry().first_file_home(),
            None => false,
        }
    }

    // Makes the next step of the write-outs, which must not all be done. `source` contains the bytes of the record that
    // the step writes, if any. `writes_record` is true if this is a page's record.
    fn step_with(&mut self, writes_record: bool, source: Source) -> Result<Reply, Refusal>
        requires record { writes_record ≡ is_page_next (state_in self.old) }
        requires there { IsThere self.old.frames source }
        requires bytes { next_work self.old.write_outs (bytes_from self.old.frames source)
            ≡ work_asked (state_in self.old) }
        requires ready { CanStep D.seen self.old }
        ensures { IsStepped D.Device self.old (reply_to result) self.new }
    {
        let bytes = bytes_from(&self.frames, source);
        let answer = self.write_outs.step(&mut self.device, bytes);
        self.release_by(writes_record, answer);
        reply_to_flush(answer)
    }

    // Makes the next step of the write-outs, which writes the record of the first frozen page. The record has the
    // page's bytes at its mark up to the file's end, then zeros. A page that ends before the file does is written
    // without a copy.
    fn step_record(&mut self) -> Result<Reply, Refusal>
        requires record { is_page_next (state_in self.old) ≡ true }
        requires ready { CanStep D.seen self.old }
        ensures { IsStepped D.Device self.old (reply_to result) self.new }
    {
        let page = self.checkpoint.frozen()[0];
        let left = self
            .file_length(page.file)
            .saturating_sub(PAGE * u64::from(page.page));
        if left >= PAGE {
            return self.step_with(true, Source::Page(page));
        }
        let mut block = *bytes_at_mark(&self.frames, page);
        cut_off(&mut block, left);
        self.step_with(true, Source::Block(&block))
    }

    // Makes the next step of the write-outs, which must not all be done.
    fn step_write_outs(&mut self) -> Result<Reply, Refusal>
        requires { CanStep D.seen self.old }
        ensures { IsStepped D.Device self.old (reply_to result) self.new }
    {
        if self.is_page_next() {
            return self.step_record();
        }
        // Any other record is that of the lengths. A step that writes no record may get any bytes.
        let block = write_lengths(&self.lengths);
        self.step_with(false, Source::Block(&block))
    }

    // Makes the next step of the write-outs, if there is any.
    pub(crate) fn flush(&mut self, p: ProcessorNumber) -> Result<Reply, Refusal>
        requires sound { IsSound (state_in self.old) }
        requires long { 4096 * block_count self.old.table ≤ length (D.seen self.old.device) }
        ensures rules { AnswersBy (D.is_honest self.old.device)
            (λ d d'. Acts (state_in self.old) d p Flush (reply_to result) (state_in self.new) d')
            (D.seen self.old.device) (D.seen self.new.device) }
        ensures did { Did D.Device self.old.device (step_work (state_in self.old) Flush (reply_to result))
            (not (has_failed (reply_to result))) self.new.device }
        ensures kept { KeepsReserved self.old self.new }
    {
        self.shootdown.admit(p)?;
        if self.write_outs.is_broken() {
            return Err(Refusal::Broken);
        }
        if self.write_outs.is_empty() {
            return Ok(Reply::Nothing);
        }
        self.step_write_outs()
    }
}
