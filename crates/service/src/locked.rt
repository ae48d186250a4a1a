// The contents of a service's lock: the shared machine with its trace, and the count of all calls.
ghost use Rattle.std.specs.Prelude.{ℕ, ◌≡◌, ◌≢◌, ◌↔◌, ◌+◌, ◌<◌, ◌≤◌, Option, None, length, IsTrue};
ghost use Rattle.page_entry.specs.declared.refusal.Refusal.{Refusal};
ghost use Rattle.machine.specs.declared.act.Reply.{Reply};
ghost use Rattle.machine.specs.State.{Whole};
ghost use Rattle.service.specs.Marks.{has_unmarked, last_acknowledged};
ghost use Rattle.service.specs.Serving.{ServesFrom, HasEntered, HasMoved};
ghost use Rattle.service.specs.declared.raising.Raise.{Raise};
ghost use Rattle.service.specs.inside.Raising.{raise_by};

use crate::Shared;
use crate::raising::Raise;
use device::Device;
use horizon::Horizon;
use machine::{Act, Reply};
use page_entry::{ProcessorNumber, Refusal};
use std::alloc::Allocator;
use std::marker::{Brand, Model, PhantomData};
use std::sync::ledger::{Book, Ledger, Share};
use std::sync::{Mutex, OnceLock};

/// A type that names a service. It represents the number of its processors, the machine from which it started, and the
/// largest number of entries in its trace. Its ledger counts the service's calls. Each processor has one part of the
/// ledger. The service has all other parts, which are more than half.
pub trait Origin<D>: Ledger {
    ghost use Rattle.std.specs.Prelude.{ℕ, Option};
    ghost use Rattle.machine.specs.State.{Whole};

    /// The number of processors.
    ghost all: { ℕ };

    /// The machine with which the service started.
    ghost start: { Option (Whole D) };

    /// The largest number of entries in the trace.
    ghost capacity: { ℕ };
}

impl<D> Origin<D> for Brand {
    ghost use Rattle.std.specs.Prelude.{None};

    ghost all = { 0 };

    ghost start = { None };

    ghost capacity = { 0 };
}

// A machine with its trace. The book has counted as many calls as the trace has entries. The view contains only the
// machine and the trace.
#[derive(Drop)]
pub(crate) struct Locked<D: Device, A: Allocator + Copy, L: Origin<D>> {
    pub(crate) shared: Shared<D, A>,
    pub(crate) calls: Book<L>,
}

impl<D: Device, A: Allocator + Copy, L: Origin<D>> Model for Locked<D, A, L> {
    ghost use Rattle.std.specs.Prelude.{◌≡◌, length};
    ghost use Rattle.std.specs.Coded.{codes};
    ghost use Rattle.machine.specs.inside.Codes.{map_code};
    ghost use Rattle.service.specs.Serving.{SharedState, ServesFrom};

    ghost Value = { SharedState D };

    ghost coded = { Prim.hlevel (codes, map_code, D.code) };

    ghost view = { λ l. l.shared };

    ghost invariant = { λ l. (l.calls.total ≡ length l.shared.trace)
        × ServesFrom D.Device L.start L.all L.capacity l.shared };
}

/// The right to take the machine out. It has more than half of the ledger's parts, so only one right can exist. The
/// service has it as long as the machine is under the lock. Its view in contracts is empty.
#[derive(Drop)]
pub(crate) struct Right<D, L: Origin<D>> {
    pub(crate) share: Share<L>,
    pub(crate) of: PhantomData<D>,
}

impl<D, L: Origin<D>> Model for Right<D, L> {
    ghost use Rattle.std.specs.Prelude.{⊤, ◌≡◌, ◌+◌};
    ghost use Rattle.std.specs.Coded.{codes};

    ghost Value = { ⊤ };

    ghost coded = { Prim.hlevel codes };

    ghost view = { λ r. tt };

    ghost invariant = { λ r. (r.share.parts ≡ L.all + 1) × (r.share.amount ≡ 0) };
}

/// The contents of the lock: the machine with its trace, or the right with which it was taken out.
pub(crate) type Kept<D, A, L> = Result<Locked<D, A, L>, Right<D, L>>;

/// The parts of a service that its processors share. The lock is set once, when the service starts.
#[derive(Drop)]
pub(crate) struct Room<D: Device, A: Allocator + Copy, L: Origin<D>> {
    pub(crate) lock: OnceLock<Mutex<Kept<D, A, L>>>,
    pub(crate) horizon: Horizon,
}

impl<D, L: Origin<D>> Right<D, L> {
    // Makes the right from all parts of the ledger except those of the processors.
    pub(crate) fn new(share: Share<L>) -> Self
        requires parts { share.parts ≡ L.all + 1 }
        requires unused { share.amount ≡ 0 }
    {
        Right {
            share,
            of: PhantomData,
        }
    }

    // Shows that two rights together have at most the parts of the ledger. So there can't be two.
    pub(crate) fn meet(&mut self, other: &mut Self)
        ensures { (L.all + 1) + (L.all + 1) ≤ L.parts }
    {
        let Right { share: mine, .. } = self;
        let Right { share: theirs, .. } = other;
        mine.give(theirs, 0, 0)
    }
}

// Whether a reply reports that the trace is full.
pub(crate) fn is_trace_full(reply: &Reply) -> bool
    ensures { IsTrue result ↔ (reply.now ≡ Reply.Refused Refusal.TraceFull) }
{
    matches!(reply, Reply::Refused(Refusal::TraceFull))
}

impl<D: Device, A: Allocator + Copy, L: Origin<D>> Locked<D, A, L> {
    // Whether more than `seen` entries are progress, or the trace is full.
    pub(crate) fn has_moved(&self, seen: u64) -> bool
        ensures { IsTrue result → HasMoved D.Device L.start L.all L.capacity seen }
    {
        self.shared.progress() > seen || self.shared.is_full()
    }

    // Makes the contents of the lock from a machine with an empty trace and a book that has counted no call.
    pub(crate) fn new(shared: Shared<D, A>, calls: Book<L>) -> Self
        requires started { ServesFrom D.Device L.start L.all L.capacity shared }
        requires counted { calls.total ≡ length shared.trace }
        ensures { result ≡ shared }
    {
        Locked { shared, calls }
    }

    // Makes one act of a processor. Counts it among the caller's calls unless the trace is full. Returns the reply, and
    // the raise of the horizon that it causes.
    pub(crate) fn call(
        &mut self,
        mine: &mut Share<L>,
        p: ProcessorNumber,
        act: &Act,
    ) -> (Reply, Raise)
        requires { 0 < mine.old.parts }
        ensures serves { ServesFrom D.Device L.start L.all L.capacity self.old }
        ensures entered { result.0 ≢ Reply.Refused Refusal.TraceFull
            → HasEntered D.Device self.old (record { p = p; act = act.now }) result.0 self.new }
        ensures raise { result.1 ≡ raise_by (has_unmarked self.old.trace) result.0 }
        ensures acknowledged { (mark : ℕ) → result.1 ≡ Raise.Committed mark
            → last_acknowledged self.new.trace ≡ mark }
        ensures counted { result.0 ≢ Reply.Refused Refusal.TraceFull → mine.new.amount ≡ mine.old.amount + 1 }
        ensures full { result.0 ≡ Reply.Refused Refusal.TraceFull
            → (mine.new.amount ≡ mine.old.amount) × (self.new ≡ self.old) }
        ensures parts { mine.new.parts ≡ mine.old.parts }
    {
        let Locked { shared, calls } = self;
        let reply = shared.enter(p, *act);
        if is_trace_full(&reply) {
            return (reply, Raise::Nothing);
        }
        calls.add(mine, 1);
        let raise = shared.last_raise(&reply);
        (reply, raise)
    }
}
