//! An allocator for tests. It passes requests on to another allocator, counts them and their bytes, and refuses the
//! requests that a test chooses.
#![tactic(auto)]

use std::alloc::{AllocError, Allocator};
use std::sync::atomic::{AtomicU64, Ordering};

/// The counts of an allocator's requests, and the range of requests that it refuses. Each number is atomic, so several
/// threads may use it through a `&`.
#[derive(Drop)]
struct Counts {
    requests: AtomicU64,
    refused: AtomicU64,
    asked: AtomicU64,
    held: AtomicU64,
    most_held: AtomicU64,
    first_refused: AtomicU64,
    last_refused: AtomicU64,
}

/// Counts a request for `size` bytes, and returns whether it is granted.
fn admits(counts: &Counts, size: usize) -> bool {
    let bytes = size as u64;
    let request = counts
        .requests
        .fetch_add(1, Ordering::SeqCst)
        .wrapping_add(1);
    counts.asked.fetch_add(bytes, Ordering::SeqCst);
    if counts.first_refused.load(Ordering::SeqCst) <= request
        && request <= counts.last_refused.load(Ordering::SeqCst)
    {
        counts.refused.fetch_add(1, Ordering::SeqCst);
        return false;
    }
    let held = counts
        .held
        .fetch_add(bytes, Ordering::SeqCst)
        .wrapping_add(bytes);
    counts.most_held.fetch_max(held, Ordering::SeqCst);
    true
}

/// Counts a block of `size` bytes that is freed.
fn release(counts: &Counts, size: usize) {
    counts.held.fetch_sub(size as u64, Ordering::SeqCst);
}

/// An allocator over another allocator `B`. It counts the requests, and refuses those that it was set to refuse. A `&`
/// to it is also an allocator, and is `Copy`. A collection that grows allocates a whole new block before it frees the
/// old one, so both are held at once. The counts wrap at 2^64.
#[derive(Drop)]
pub struct CountingAllocator<B: Allocator> {
    inner: B,
    counts: Counts,
}

impl<B: Allocator> CountingAllocator<B> {
    /// Returns an allocator over `inner` that has counted nothing, and refuses no request that `inner` grants.
    pub fn new(inner: B) -> CountingAllocator<B> {
        CountingAllocator {
            inner,
            counts: Counts {
                requests: AtomicU64::new(0),
                refused: AtomicU64::new(0),
                asked: AtomicU64::new(0),
                held: AtomicU64::new(0),
                most_held: AtomicU64::new(0),
                first_refused: AtomicU64::new(1),
                last_refused: AtomicU64::new(0),
            },
        }
    }

    /// Returns the number of blocks that were requested since `new` or `restart`, including refused ones.
    pub fn requests(&self) -> u64 {
        self.counts.requests.load(Ordering::SeqCst)
    }

    /// Returns the number of these requests that this allocator refused itself. Refusals of the inner allocator don't
    /// count.
    pub fn refused(&self) -> u64 {
        self.counts.refused.load(Ordering::SeqCst)
    }

    /// Returns the total number of bytes of these requests.
    pub fn asked(&self) -> u64 {
        self.counts.asked.load(Ordering::SeqCst)
    }

    /// Returns the bytes of the blocks that were passed on to the inner allocator, less those of freed blocks. A block
    /// that the inner allocator refused stays counted.
    pub fn held(&self) -> u64 {
        self.counts.held.load(Ordering::SeqCst)
    }

    /// Returns the largest value of `held` since `new` or `restart`.
    pub fn most_held(&self) -> u64 {
        self.counts.most_held.load(Ordering::SeqCst)
    }

    /// Restarts the counts, with `most_held` at the bytes that are held now. Refuses nothing more.
    pub fn restart(&self) {
        self.refuse_none();
        self.counts.requests.store(0, Ordering::SeqCst);
        self.counts.refused.store(0, Ordering::SeqCst);
        self.counts.asked.store(0, Ordering::SeqCst);
        self.counts.most_held.store(self.held(), Ordering::SeqCst);
    }

    /// Refuses the `n`th request from now on, and no later one. 1 is the next request.
    pub fn refuse_nth(&self, n: u64) {
        let request = self.requests().wrapping_add(n);
        self.counts.last_refused.store(0, Ordering::SeqCst);
        self.counts.first_refused.store(request, Ordering::SeqCst);
        self.counts.last_refused.store(request, Ordering::SeqCst);
    }

    /// Refuses the `n`th request from now on, and all later ones. 1 is the next request.
    pub fn refuse_from(&self, n: u64) {
        let request = self.requests().wrapping_add(n);
        self.counts.last_refused.store(0, Ordering::SeqCst);
        self.counts.first_refused.store(request, Ordering::SeqCst);
        self.counts.last_refused.store(u64::MAX, Ordering::SeqCst);
    }

    /// Refuses nothing more.
    pub fn refuse_none(&self) {
        self.counts.last_refused.store(0, Ordering::SeqCst);
        self.counts.first_refused.store(1, Ordering::SeqCst);
    }
}

unsafe impl<B: Allocator> Allocator for CountingAllocator<B> {
    ghost dealloc_token = { λ heap ty ptr. B.dealloc_token heap.inner ty ptr };

    fn allocate(&self, size: usize, align: usize) -> Result<*mut u8, AllocError> {
        if admits(&self.counts, size) {
            self.inner.allocate(size, align)
        } else {
            Err(AllocError)
        }
    }

    unsafe fn deallocate(&self, ptr: *mut u8, size: usize, align: usize) {
        release(&self.counts, size);
        self.inner.deallocate(ptr, size, align);
    }
}

#[cfg(test)]
mod tests;
