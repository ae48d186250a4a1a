//! A horizon: two numbers that show how far the marks of a history have come. Threads raise and read them without a
//! lock. `stalled` is the number of the last mark for which the processors were stalled. `committed` is the number of
//! the last acknowledged mark, which is durable (failure-atomic `msync`, Park et al. 2013). Marks are counted from 1,
//! so 0 means none. The numbers are from 0 to 2^64 - 1. Both only rise, and `committed` is never above `stalled`.
//!
//! A call that takes `rt` may wait for another thread's step. What it ensures holds if it returns.
#![tactic(auto)]

ghost use Rattle.std.specs.Prelude.{◌≡◌, ◌≤◌, IfOk};
ghost use Rattle.horizon.specs.Seen.{nothing_seen, HasLooked, IsRaisedTo, HasRaisedNothing};
ghost use Rattle.horizon.specs.Seen.{HasRaisedStalled, HasRaisedBoth};

mod rule;

use rule::{Holder, Raise, Read, Same, Words};
use std::alloc::{AllocError, Global};
use std::marker::Model;
use std::sync::Wait;

/// The two numbers, to be shared by reference. In contracts a horizon is the identity of its cell, which distinguishes
/// the holders of different horizons.
#[derive(Drop)]
pub struct Horizon {
    words: Words,
}

impl Model for Horizon {
    ghost use Rattle.atomic_table.specs.Seated.{TableId, table_id_coded};

    ghost Value = { TableId };

    ghost coded = { table_id_coded };

    ghost view = { λ h. h.words.table.shared.table_id };
}

/// What one holder of a horizon has seen of it: the numbers after the holder's last call. The holder never sees a lower
/// number later. In contracts it also has the amount by which the holder's own calls have raised each number. A holder
/// may move to another thread. Only its own calls change it.
#[derive(Drop)]
pub struct Seen {
    holder: Holder,
}

impl Model for Seen {
    ghost use Rattle.std.specs.Prelude.{◌≤◌};
    ghost use Rattle.crossbeam_utils.specs.Seq.{cell_view};
    ghost use Rattle.horizon.specs.Seen.{SeenState, seen_code};

    ghost Value = { SeenState };

    ghost coded = { seen_code };

    ghost view = { λ s. record {
      cell = s.holder.table_id;
      stalled = (cell_view s.holder).stalled;
      committed = (cell_view s.holder).committed;
      stalled_raised = (cell_view s.holder).stalled_raised;
      committed_raised = (cell_view s.holder).committed_raised;
    } };

    ghost invariant = { λ s. (cell_view s.holder).committed ≤ (cell_view s.holder).stalled };
}

impl Horizon {
    /// Returns a horizon at which both numbers are 0, and its first holder. Fails if there is no memory.
    pub fn new(alloc: Global) -> Result<(Self, Seen), AllocError>
        ensures { IfOk result (λ h. h.1 ≡ nothing_seen h.0) }
    {
        let (words, holder) = Words::ruled(alloc, [0, 0])?;
        Ok((Horizon { words }, Seen { holder }))
    }

    /// Returns a further holder, which has seen the same numbers as this one. It allocates no memory. The amounts that
    /// the new holder raises are counted on from those of this one.
    pub fn another(&self, seen: &mut Seen) -> Seen
        requires own { seen.old.cell ≡ self.now }
        ensures same { seen.new ≡ seen.old }
        ensures made { result ≡ seen.old }
    {
        Seen {
            holder: self.words.split_pass::<Same>(&mut seen.holder),
        }
    }

    /// Returns the numbers `stalled` and `committed`, both of the same moment. If the call returns, each is at least
    /// what this holder has seen before.
    pub fn read<R: Wait>(&self, rt: &R, seen: &mut Seen) -> (u64, u64)
        requires own { seen.old.cell ≡ self.now }
        ensures result { result ≡ (seen.new.stalled, seen.new.committed) }
        ensures looked { HasLooked seen.old seen.new }
        ensures kept { HasRaisedNothing seen.old seen.new }
    {
        let words = self.words.load_as::<Read, R>(rt, &mut seen.holder);
        (words[0], words[1])
    }

    /// Raises `stalled` to a mark's number, if it is lower, in one step. If the call returns, this holder has seen the
    /// numbers after that step.
    pub fn raise_stalled<R: Wait>(&self, rt: &R, seen: &mut Seen, mark: u64)
        requires own { seen.old.cell ≡ self.now }
        ensures raised { mark ≤ seen.new.stalled }
        ensures exact { HasRaisedStalled mark seen.old seen.new }
        ensures looked { HasLooked seen.old seen.new }
    {
        self.raise(rt, seen, mark, 0);
    }

    /// Raises each of the two numbers to a mark's number, if it is lower, in one step. If the call returns, this holder
    /// has seen the numbers after that step.
    pub fn raise_committed<R: Wait>(&self, rt: &R, seen: &mut Seen, mark: u64)
        requires own { seen.old.cell ≡ self.now }
        ensures raised { mark ≤ seen.new.committed }
        ensures exact { HasRaisedBoth mark seen.old seen.new }
        ensures looked { HasLooked seen.old seen.new }
    {
        self.raise(rt, seen, mark, mark);
    }

    /// Raises each of the two numbers to the value given for it, if it is lower, in one step. If the call returns, this
    /// holder has seen the numbers after that step.
    fn raise<R: Wait>(&self, rt: &R, seen: &mut Seen, stalled: u64, committed: u64)
        requires own { seen.old.cell ≡ self.now }
        requires ordered { committed ≤ stalled }
        ensures stalled { IsRaisedTo stalled seen.old.stalled seen.old.stalled_raised
            seen.new.stalled seen.new.stalled_raised }
        ensures committed { IsRaisedTo committed seen.old.committed seen.old.committed_raised
            seen.new.committed seen.new.committed_raised }
        ensures looked { HasLooked seen.old seen.new }
    {
        for _ in rt.forever() {
            let found = self.words.load_as::<Read, R>(rt, &mut seen.holder);
            let raised = [found[0].max(stalled), found[1].max(committed)];
            if self
                .words
                .compare_exchange_as::<Raise, R>(rt, &mut seen.holder, found, raised)
                .is_ok()
            {
                return;
            }
        }
    }
}
