//! The frames of memory that contain pages of files, and the copy frames that keep earlier bytes of a frame. All memory
//! is allocated when they are made, so that no later call can fail for lack of memory.
#![tactic(auto)]

ghost use Rattle.std.specs.Prelude.{◌≡◌, ◌&&◌, not, nat_lt, ◌+◌, ◌≤◌, length, Some, None, IfOk, IfErr, IfSome, IfNone, IsSome, is_ok, is_none, slice_get, count_by};
ghost use Rattle.page_entry.specs.declared.numbers.FilePage.{FilePage};
ghost use Rattle.frames.specs.Frames.{frame_at, copy_at, page_of, bytes_of, has_free, has_used, zero_page, all_free, with_page, without_frame, with_bytes, with_copy, without_copy, HasNoFrame, HasPageFrom, HasNoneFrom, HasNoCopy, AreFrames, AreInOrder};

mod guesses;
mod order;
mod pages;

use chunked_list::ChunkedList;
use guesses::Guesses;
use order::place_of;
use page_entry::{FilePage, FrameNumber, Refusal};
use pages::{Pages, zero_bytes};
use std::alloc::{AllocError, Allocator, Global};
use std::marker::Model;

/// The number of a copy frame, counted from 0.
pub type CopyNumber = u32;

/// Frames and copy frames, of 4,096 bytes each. A frame is free, or in use for one page of a file. A copy frame is
/// free, or contains the page and the earlier bytes of a frame. A page is in at most one frame, and in at most one copy
/// frame. No two numbers share memory: a write to a frame leaves every other frame and every copy unchanged.
#[derive(Drop)]
pub struct Frames<A: Allocator + Copy = Global> {
    frames: Pages<A>,
    // The frames in use, in the order of their pages, with room for all frames.
    order: ChunkedList<A>,
    guesses: Guesses<A>,
    copies: Pages<A>,
}

impl<A: Allocator + Copy> Model for Frames<A> {
    ghost use Rattle.frames.specs.Frames.{FramesState};
    ghost use Rattle.frames.specs.inside.Order.{IsListed};

    ghost Value = { FramesState };

    ghost view = { λ f. record { frames = f.frames; copies = f.copies } };

    ghost invariant = { λ f. IsListed (record { frames = f.frames; copies = f.copies }) f.order.items
        f.order.room };
}

impl<A: Allocator + Copy> Frames<A> {
    /// Returns this many frames and copy frames, each numbered from 0 and free. Fails if there is no memory.
    pub fn new(alloc: A, frames: FrameNumber, copies: CopyNumber) -> Result<Self, AllocError>
        ensures { IfOk result (λ made. made ≡ all_free frames copies) }
    {
        Ok(Frames {
            frames: Pages::new(alloc, frames)?,
            order: ChunkedList::new(alloc, frames)?,
            guesses: Guesses::new(alloc, frames)?,
            copies: Pages::new(alloc, copies)?,
        })
    }

    /// Returns the number of frames.
    pub fn count(&self) -> FrameNumber
        ensures count { result ≡ length self.now.frames }
        ensures are { AreFrames self.now }
    {
        self.frames.count()
    }

    /// Returns the number of copy frames.
    pub fn copy_count(&self) -> CopyNumber
        ensures { result ≡ length self.now.copies }
    {
        self.copies.count()
    }

    /// Returns the number of free frames.
    pub fn free_count(&self) -> FrameNumber
        ensures count { result ≡ count_by is_none self.now.frames }
        ensures any { nat_lt 0 result ≡ has_free self.now.frames }
    {
        self.frames.count() - self.order.len() as FrameNumber
    }

    /// Whether every frame and every copy frame is free.
    pub fn is_unused(&self) -> bool
        ensures { result ≡ (not (has_used self.now.frames) && not (has_used self.now.copies)) }
    {
        self.order.is_empty() && self.copies.is_unused()
    }

    /// Returns the frames in use, in the order of their pages' home blocks: by file, then by page.
    pub fn in_order(&self) -> &ChunkedList<A>
        ensures order { AreInOrder self.now result.now.items }
        ensures few { length result.now.items ≤ length self.now.frames }
    {
        &self.order
    }

    /// Returns the frame that has a page, or `None` if no frame has it.
    pub fn find(&self, page: FilePage) -> Option<FrameNumber>
        ensures found { IfSome result (λ frame. page_of (frame_at self.now frame) ≡ Some page) }
        ensures none { IfNone result (HasNoFrame self.now page) }
        ensures are { AreFrames self.now }
    {
        let guess = self.guesses.guess(page);
        if self.frames.page(guess) == Some(page) {
            return Some(guess);
        }
        self.search(page)
    }

    // Returns the frame that has a page, by a search in the order.
    fn search(&self, page: FilePage) -> Option<FrameNumber>
        ensures found { IfSome result (λ frame. page_of (frame_at self.now frame) ≡ Some page) }
        ensures none { IfNone result (HasNoFrame self.now page) }
    {
        let place = place_of(&self.frames, &self.order, page);
        if place == self.order.len() {
            return None;
        }
        let frame = self.order.get(place);
        if self.frames.page(frame) == Some(page) {
            Some(frame)
        } else {
            None
        }
    }

    /// Returns a frame that has this page or a later page of the same file. Returns `None` if no frame has such a page.
    pub fn find_from(&self, page: FilePage) -> Option<FrameNumber>
        ensures found { IfSome result (HasPageFrom self.now page) }
        ensures none { IfNone result (HasNoneFrom self.now page) }
        ensures are { AreFrames self.now }
    {
        let place = place_of(&self.frames, &self.order, page);
        if place == self.order.len() {
            return None;
        }
        let frame = self.order.get(place);
        match self.frames.page(frame) {
            Some(owner) if owner.file == page.file => Some(frame),
            _ => None,
        }
    }

    // Rule: free frame
    /// Takes a free frame for a page that no frame has, with all bytes 0. Fails with `NoFrame` exactly if no frame is
    /// free. The contract leaves open which free frame it takes.
    pub fn take(&mut self, page: FilePage) -> Result<FrameNumber, Refusal>
        requires { HasNoFrame self.old page }
        ensures was_free { IfOk result (λ frame. slice_get self.old.frames frame ≡ Some None) }
        ensures taken { IfOk result (λ frame. self.new ≡ with_page self.old frame page zero_page) }
        ensures ok { is_ok result ≡ has_free self.old.frames }
        ensures no_frame { IfErr result (λ refusal. refusal ≡ Refusal.NoFrame) }
        ensures unchanged { IfErr result (λ _. self.new ≡ self.old) }
    {
        self.take_with(page, &zero_bytes())
    }

    /// Takes a free frame for a page that no frame has, with these bytes. Fails with `NoFrame` exactly if no frame is
    /// free. The contract leaves open which free frame it takes.
    pub fn take_with(&mut self, page: FilePage, bytes: &[u8; 4096]) -> Result<FrameNumber, Refusal>
        requires { HasNoFrame self.old page }
        ensures was_free { IfOk result (λ frame. slice_get self.old.frames frame ≡ Some None) }
        ensures taken { IfOk result (λ frame. self.new ≡ with_page self.old frame page bytes.now) }
        ensures ok { is_ok result ≡ has_free self.old.frames }
        ensures no_frame { IfErr result (λ refusal. refusal ≡ Refusal.NoFrame) }
        ensures unchanged { IfErr result (λ _. self.new ≡ self.old) }
    {
        let place = place_of(&self.frames, &self.order, page);
        let Some(frame) = self.frames.insert(page, bytes) else {
            return Err(Refusal::NoFrame);
        };
        self.order.insert(place, frame);
        self.guesses.put(page, frame);
        Ok(frame)
    }

    /// Makes a frame free.
    pub fn give(&mut self, frame: FrameNumber)
        requires { IsSome (frame_at self.old frame) }
        ensures { self.new ≡ without_frame self.old frame }
    {
        let page = self.frames.page(frame).unwrap();
        let place = place_of(&self.frames, &self.order, page);
        self.order.remove(place);
        self.frames.give(frame);
    }

    /// Returns the page of a file for which a frame is in use. Returns `None` for a free frame, or for a number that no
    /// frame has.
    pub fn owner(&self, frame: FrameNumber) -> Option<FilePage>
        ensures owner { result ≡ page_of (frame_at self.now frame) }
        ensures are { AreFrames self.now }
    {
        self.frames.page(frame)
    }

    /// Returns the bytes of a frame.
    pub fn bytes(&self, frame: FrameNumber) -> &[u8; 4096]
        requires { IsSome (frame_at self.now frame) }
        ensures bytes { result.now ≡ bytes_of (frame_at self.now frame) }
        ensures are { AreFrames self.now }
    {
        self.frames.bytes(frame)
    }

    /// Writes bytes into a frame, beginning at byte `at`.
    pub fn write(&mut self, frame: FrameNumber, at: usize, bytes: &[u8])
        requires in_use { IsSome (frame_at self.old frame) }
        requires within { at + length bytes.now ≤ 4096 }
        ensures { self.new ≡ with_bytes self.old frame at bytes.now }
    {
        self.frames.write(frame, at, bytes);
    }

    /// Copies a frame to a free copy frame. No copy frame may have the frame's page yet. Fails with `Held` exactly if
    /// no copy frame is free. The contract leaves open which free copy frame it takes.
    pub fn copy_out(&mut self, frame: FrameNumber) -> Result<CopyNumber, Refusal>
        requires in_use { IsSome (frame_at self.old frame) }
        requires uncopied { (page : FilePage) → page_of (frame_at self.old frame) ≡ Some page
            → HasNoCopy self.old page }
        ensures was_free { IfOk result (λ copy. slice_get self.old.copies copy ≡ Some None) }
        ensures copied { IfOk result (λ copy. self.new ≡ with_copy self.old copy frame) }
        ensures ok { is_ok result ≡ has_free self.old.copies }
        ensures held { IfErr result (λ refusal. refusal ≡ Refusal.Held) }
        ensures unchanged { IfErr result (λ _. self.new ≡ self.old) }
    {
        let page = self.frames.page(frame).unwrap();
        self.copies
            .insert(page, self.frames.bytes(frame))
            .ok_or(Refusal::Held)
    }

    /// Returns the copy frame that has a page, or `None` if no copy frame has it.
    pub fn copy_of(&self, page: FilePage) -> Option<CopyNumber>
        ensures found { IfSome result (λ copy. page_of (copy_at self.now copy) ≡ Some page) }
        ensures none { IfNone result (HasNoCopy self.now page) }
        ensures are { AreFrames self.now }
    {
        self.copies.find(page)
    }

    /// Returns the bytes of a copy frame.
    pub fn copy_bytes(&self, copy: CopyNumber) -> &[u8; 4096]
        requires { IsSome (copy_at self.now copy) }
        ensures bytes { result.now ≡ bytes_of (copy_at self.now copy) }
        ensures are { AreFrames self.now }
    {
        self.copies.bytes(copy)
    }

    /// Makes a copy frame free.
    pub fn give_copy(&mut self, copy: CopyNumber)
        requires { IsSome (copy_at self.old copy) }
        ensures { self.new ≡ without_copy self.old copy }
    {
        self.copies.give(copy);
    }
}
