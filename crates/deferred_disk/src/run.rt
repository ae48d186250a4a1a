// Bytes that several owners share.
ghost use Rattle.std.specs.Prelude.{◌≡◌, ◌≤◌, length, slice_range, IfOk};
ghost use Rattle.std.specs.List.{All};

use std::alloc::{AllocError, Allocator};
use std::marker::Model;
use std::rc::Rc;

// The bytes of consecutive whole blocks. They are stored once. The call that writes them shares them while it waits,
// and each block shares them as long as it contains them.
pub(crate) type Run<A> = Rc<Vec<u8, A>, A>;

// The bytes of a run, from a place up to but not including another.
#[derive(Drop)]
pub(crate) struct Part<A: Allocator + Copy> {
    run: Run<A>,
    from: usize,
    to: usize,
}

impl<A: Allocator + Copy> Model for Part<A> {
    ghost use Rattle.std.specs.Prelude.{ℕ, ◌≤◌, List, length, slice_range};

    ghost Value = { List ℕ };

    ghost view = { λ part. slice_range part.run.value.items part.from part.to };

    ghost invariant = { λ part. (part.from ≤ part.to) × (part.to ≤ length part.run.value.items) };
}

impl<A: Allocator + Copy> Part<A> {
    pub(crate) fn new(run: Run<A>, from: usize, to: usize) -> Self
        requires from { from ≤ to }
        requires to { to ≤ length run.value.items }
        ensures { result ≡ slice_range run.value.items from to }
    {
        Part { run, from, to }
    }

    pub(crate) fn bytes(&self) -> &[u8]
        ensures { result.now ≡ self.now }
    {
        &self.run[self.from..self.to]
    }
}

// Returns `count` more owners of a run.
pub(crate) fn shares_of<A: Allocator + Copy>(
    alloc: A,
    run: &Run<A>,
    count: usize,
) -> Result<Vec<Run<A>, A>, AllocError>
    ensures count { IfOk result (λ shares. length shares.items ≡ count) }
    ensures same { IfOk result (λ shares. All (λ share. share.value ≡ run.now.value) shares.items) }
{
    let mut shares = Vec::with_capacity(alloc, count)?;
    for _ in 0..count {
        shares.push(run.clone()?)?;
    }
    Ok(shares)
}
