// Numbered pages of 4,096 bytes, each free or in use for a page of a file.
ghost use Rattle.std.specs.Prelude.{◌≡◌, ◌≢◌, not, ◌+◌, ◌<◌, ◌≤◌, ℕ, vec_len, length, replicate, None, Some, IfOk, IfSome, IfNone, is_some, IsSome, slice_get, slice_set, slice_index_or};
ghost use Rattle.slab.specs.Slab.{get, slab_len};
ghost use Rattle.frames.specs.Frames.{Frame, zero_page, bytes_of, has_free, has_used, page_of, overwrite_frame};
ghost use Rattle.frames.specs.inside.Pages.{comes_before};

use page_entry::FilePage;
use slab::Slab;
use std::alloc::{AllocError, Allocator, Global};
use std::marker::Model;

// Pages of 4,096 bytes, each free or in use for a page of a file. A slab assigns their numbers.
#[derive(Drop)]
pub(crate) struct Pages<A: Allocator + Copy = Global> {
    // A page of a file for each number in use. Numbers that have no bytes are in use as well, so that the slab never
    // assigns them.
    pages: Slab<FilePage, A>,
    bytes: Vec<[u8; 4096], A>,
}

impl<A: Allocator + Copy> Model for Pages<A> {
    ghost use Rattle.std.specs.Prelude.{List, Option};
    ghost use Rattle.slab.specs.Slab.{get};
    ghost use Rattle.frames.specs.Frames.{Frame};
    ghost use Rattle.frames.specs.inside.Pages.{frames_by, IsKept};

    ghost Value = { List (Option Frame) };

    ghost view = { λ p. frames_by (get p.pages) p.bytes.items };

    ghost invariant = { λ p. IsKept p.pages p.bytes.items };
}

impl<A: Allocator + Copy> Pages<A> {
    // Returns this many free pages.
    pub(crate) fn new(alloc: A, count: u32) -> Result<Self, AllocError>
        ensures { IfOk result (λ pages. pages ≡ replicate count None) }
    {
        let bytes = zero_pages(alloc, count as usize)?;
        let pages = numbers_below(alloc, count as usize)?;
        Ok(Pages { pages, bytes })
    }

    // Returns the number of pages, free and in use.
    pub(crate) fn count(&self) -> u32
        ensures { result ≡ length self.now }
    {
        self.bytes.len() as u32
    }

    // Whether each page is free.
    pub(crate) fn is_unused(&self) -> bool
        ensures { result ≡ not (has_used self.now) }
    {
        for number in 0..self.bytes.len() {
            if self.pages.contains(number) {
                return false;
            }
        }
        true
    }

    // Takes a free page for this page of a file, with these bytes. Returns its number, or `None` if no page is free.
    pub(crate) fn insert(&mut self, page: FilePage, bytes: &[u8; 4096]) -> Option<u32>
        ensures was_free { IfSome result (λ number. slice_get self.old number ≡ Some None) }
        ensures page { IfSome result (λ number. self.new
            ≡ slice_set self.old number (Some (record { page = page; bytes = bytes.now }))) }
        ensures free { is_some result ≡ has_free self.old }
        ensures none_free { IfNone result (self.new ≡ self.old) }
    {
        if self.pages.len() == self.pages.capacity() {
            return None;
        }
        let number = self.pages.insert_reserved(page);
        self.bytes[number] = *bytes;
        Some(number as u32)
    }

    // Frees a page in use.
    pub(crate) fn give(&mut self, number: u32)
        requires { IsSome (slice_index_or self.old number None) }
        ensures { self.new ≡ slice_set self.old number None }
    {
        self.pages.remove(number as usize);
    }

    // Returns the page of a file for which a number is in use.
    pub(crate) fn page(&self, number: u32) -> Option<FilePage>
        ensures { result ≡ page_of (slice_index_or self.now number None) }
    {
        if (number as usize) < self.bytes.len() {
            self.pages.get(number as usize).copied()
        } else {
            None
        }
    }

    // Whether a number is in use for a page of a file that comes before this one.
    pub(crate) fn comes_before(&self, number: u32, page: FilePage) -> bool
        ensures { result ≡ comes_before (page_of (slice_index_or self.now number None)) page }
    {
        match self.page(number) {
            Some(other) => other < page,
            None => false,
        }
    }

    // Returns a number that is in use for this page of a file, or `None` if there is none.
    pub(crate) fn find(&self, page: FilePage) -> Option<u32>
        ensures found { IfSome result (λ number. page_of (slice_index_or self.now number None) ≡ Some page) }
        ensures none { IfNone result ((number : ℕ) → page_of (slice_index_or self.now number None) ≢ Some page) }
    {
        for number in 0..self.count() {
            if self.page(number) == Some(page) {
                return Some(number);
            }
        }
        None
    }

    // Returns the bytes of a page in use.
    pub(crate) fn bytes(&self, number: u32) -> &[u8; 4096]
        requires { IsSome (slice_index_or self.now number None) }
        ensures { result.now ≡ bytes_of (slice_index_or self.now number None) }
    {
        &self.bytes[number as usize]
    }

    // Writes these bytes into a page in use, beginning at byte `at`.
    pub(crate) fn write(&mut self, number: u32, at: usize, bytes: &[u8])
        requires in_use { IsSome (slice_index_or self.old number None) }
        requires within { at + length bytes.now ≤ 4096 }
        ensures { self.new
            ≡ slice_set self.old number
            (overwrite_frame (slice_index_or self.old number None) at bytes.now) }
    {
        let page = &mut self.bytes[number as usize];
        page[at..at + bytes.len()].copy_from_slice(bytes);
    }
}

// Returns this many pages of zeros.
fn zero_pages<A: Allocator>(alloc: A, count: usize) -> Result<Vec<[u8; 4096], A>, AllocError>
    ensures { IfOk result (λ pages. pages.items ≡ replicate count zero_page) }
{
    let mut pages = Vec::with_capacity(alloc, count)?;
    for _ in 0..count {
        pages.push_reserved(zero_bytes());
    }
    Ok(pages)
}

// Returns a page of zeros.
pub(crate) fn zero_bytes() -> [u8; 4096]
    ensures { result ≡ zero_page }
{
    [0; 4096]
}

// Returns a slab that can assign only the numbers below `count`.
fn numbers_below<A: Allocator>(alloc: A, count: usize) -> Result<Slab<FilePage, A>, AllocError>
    ensures room { IfOk result (λ pages. count ≤ pages.capacity) }
    ensures free { IfOk result
        (λ pages. (number : ℕ) → number < count → get pages number ≡ None) }
    ensures reserved { IfOk result
        (λ pages. (number : ℕ) → count ≤ number → number < pages.capacity
        → IsSome (get pages number)) }
{
    let mut pages = Slab::with_capacity(alloc, count)?;
    give_out_all(&mut pages);
    for number in (0..count).rev() {
        pages.remove(number);
    }
    Ok(pages)
}

// Assigns every number that the slab has room for.
fn give_out_all<A: Allocator>(pages: &mut Slab<FilePage, A>)
    requires { slab_len pages.old ≡ 0 }
    ensures capacity { pages.new.capacity ≡ pages.old.capacity }
    ensures all { (number : ℕ) → number < pages.new.capacity → IsSome (get pages.new number) }
{
    for _ in 0..pages.capacity() {
        pages.insert_reserved(NO_PAGE);
    }
    // The slab has no slot past its room.
    let _room = pages.capacity();
}

// The page at the numbers that have no bytes.
const NO_PAGE: FilePage = FilePage { file: 0, page: 0 };
