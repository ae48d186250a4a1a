// A processor of a service. It can be moved to a thread.
ghost use Rattle.std.specs.Prelude.{ℕ, ◌≡◌, ◌≢◌, ◌++◌, ◌∷◌, [], ◌+◌, ◌<◌, ◌≤◌, length, IsTrue};
ghost use Rattle.page_entry.specs.declared.refusal.Refusal.{Refusal};
ghost use Rattle.machine.specs.declared.act.Reply.{Reply};
ghost use Rattle.service.specs.Gathering.{words_of};
ghost use Rattle.service.specs.Serving.{HasCalled, HasMoved};
ghost use Rattle.service.specs.declared.raising.Raise.{Raise};
ghost use Rattle.service.specs.inside.Raising.{RaisesUpTo, RaisesSo};
ghost use Rattle.service.specs.inside.Rising.{HasRisen, seen_words};

use crate::Origin;
use crate::locked::{Room, is_trace_full};
use crate::raising::Raise;
use device::Device;
use horizon::{Horizon, Seen};
use machine::{Act, ProcState, Reply};
use page_entry::{ProcessorNumber, Refusal};
use std::alloc::Allocator;
use std::hint::spin_loop;
use std::marker::Model;
use std::sync::ledger::Share;
use std::sync::{Arc, Wait};
use std::thread::yield_now;

/// A processor of a service. It contains the acts of its answered calls, each with its reply, and the numbers of the
/// horizon that it has seen: `stalled` and `committed`.
#[derive(Drop)]
pub struct Cpu<D: Device, A: Allocator + Copy, L: Origin<D>> {
    pub(crate) p: ProcessorNumber,
    pub(crate) room: Arc<Room<D, A, L>, A>,
    pub(crate) seen: Seen,
    pub(crate) share: Share<L>,
    pub(crate) answered: Vec<(Act, Reply), A>,
}

impl<D: Device, A: Allocator + Copy, L: Origin<D>> Model for Cpu<D, A, L> {
    ghost use Rattle.std.specs.Prelude.{◌≡◌, length};
    ghost use Rattle.std.specs.Arc.{arc_value};
    ghost use Rattle.std.specs.Coded.{codes};
    ghost use Rattle.service.specs.Gathering.{CpuState};

    ghost Value = { CpuState };

    ghost coded = { Prim.hlevel codes };

    ghost view = { λ c. record {
      number = c.p;
      answered = c.answered.items;
      stalled = c.seen.stalled;
      committed = c.seen.committed;
      stalled_raised = c.seen.stalled_raised;
      committed_raised = c.seen.committed_raised;
    } };

    ghost invariant = { λ c. (c.share.parts ≡ 1) × (c.share.amount ≡ length c.answered.items)
        × (c.seen.cell ≡ (arc_value c.room).horizon) };
}

// Returns an act with its reply.
fn answer_of(act: &Act, reply: &Reply) -> (Act, Reply)
    ensures { result ≡ (act.now, reply.now) }
{
    (*act, *reply)
}

// The number of turns after which a wait yields to other threads.
const SPINS: u64 = 32;

impl<D: Device, A: Allocator + Copy, L: Origin<D>> Cpu<D, A, L> {
    /// Makes one act of this processor under the lock, adds its entry to the trace, and returns the reply. Before the
    /// lock is released, a mark raises the horizon's `stalled`, and a commit raises its `committed`. A mark raises both
    /// if there was no store and no change of a length since the mark before it.
    ///
    /// Answers `TraceFull`, and changes nothing, if the trace is full. The contract holds if the call returns.
    pub fn call<R: Wait>(&mut self, rt: &R, act: Act) -> Reply
        ensures full { result ≡ Reply.Refused Refusal.TraceFull → self.new ≡ self.old }
        ensures answered { result ≢ Reply.Refused Refusal.TraceFull
            → self.new.answered ≡ self.old.answered ++ (act, result) ∷ [] }
        ensures called { result ≢ Reply.Refused Refusal.TraceFull
            → HasCalled D.Device L.start L.all L.capacity (record { p = self.old.number; act = act }) result
            (words_of self.old) (words_of self.new) }
        ensures number { self.new.number ≡ self.old.number }
        ensures rises { (self.old.stalled ≤ self.new.stalled) × (self.old.committed ≤ self.new.committed) }
        ensures marked { (mark : ℕ) → result ≡ Reply.Marked mark → mark ≤ self.new.stalled }
        ensures committed { (mark : ℕ) → result ≡ Reply.Committed mark → mark ≤ self.new.committed }
    {
        if self.answered.len() == self.answered.capacity() {
            return Reply::Refused(Refusal::TraceFull);
        }
        let reply = call_locked(
            rt,
            &*self.room,
            &mut self.seen,
            &mut self.share,
            self.p,
            &act,
        );
        if !is_trace_full(&reply) {
            self.answered.push_reserved(answer_of(&act, &reply));
        }
        reply
    }

    // Returns this processor's number.
    pub(crate) fn number(&self) -> u64
        ensures { result ≡ self.now.number }
    {
        u64::from(self.p)
    }

    /// Returns the number of answered calls. Calls that were answered `TraceFull` don't count.
    pub fn calls(&self) -> u64
        ensures { result ≡ length self.now.answered }
    {
        self.answered.len() as u64
    }

    /// Returns the acts of the answered calls, each with its reply, in order.
    pub fn answered(&self) -> &[(Act, Reply)]
        ensures { result.now ≡ self.now.answered }
    {
        self.answered.as_slice()
    }

    /// Returns the state of this processor, and the number of entries in the trace that are progress. Loads, fills and
    /// evictions are no progress, and neither is an entry whose reply is `Nothing` or a refusal other than `Device`.
    /// Adds no entry. May wait for another thread.
    pub fn look<R: Wait>(&self, rt: &R) -> (ProcState, u64) {
        let guard = self.room.lock.wait(rt).lock(rt);
        match &*guard {
            Ok(locked) => locked.shared.look(self.p).unwrap_or((ProcState::Idle, 0)),
            Err(_) => (ProcState::Idle, 0),
        }
    }

    /// Waits for progress for at most `turns` turns. Returns true only if more than `seen` entries of the trace are
    /// progress, or the trace is full. Adds no entry. A turn sees nothing if another thread has the lock. At every 32nd
    /// turn other threads may run on this thread's processor.
    pub fn wait<R: Wait>(&self, _rt: &R, seen: u64, turns: u64) -> bool
        ensures { IsTrue result → HasMoved D.Device L.start L.all L.capacity seen }
    {
        for turn in 0..turns {
            if self.has_moved(seen) {
                return true;
            }
            if turn % SPINS == SPINS - 1 {
                yield_now();
            } else {
                spin_loop();
            }
        }
        false
    }

    // Whether more than `seen` entries are progress, or the trace is full. Returns false if another thread has the
    // lock.
    fn has_moved(&self, seen: u64) -> bool
        ensures { IsTrue result → HasMoved D.Device L.start L.all L.capacity seen }
    {
        let Some(lock) = self.room.lock.get() else {
            return false;
        };
        let Some(guard) = lock.try_lock() else {
            return false;
        };
        match &*guard {
            Ok(locked) => locked.has_moved(seen),
            Err(_) => false,
        }
    }

    /// Returns the horizon: the numbers of the last mark for which processors were stalled and of the last committed
    /// mark. Both are read at one moment, without the lock. Neither is lower than this processor has seen it before.
    /// The contract holds if the call returns.
    pub fn horizon<R: Wait>(&mut self, rt: &R) -> (u64, u64)
        ensures result { result ≡ (self.new.stalled, self.new.committed) }
        ensures ordered { self.new.committed ≤ self.new.stalled }
        ensures rises { (self.old.stalled ≤ self.new.stalled) × (self.old.committed ≤ self.new.committed) }
        ensures number { self.new.number ≡ self.old.number }
        ensures answered { self.new.answered ≡ self.old.answered }
    {
        self.room.horizon.read(rt, &mut self.seen)
    }
}

// Makes one act under the lock, and raises the horizon before the lock is released.
fn call_locked<D: Device, A: Allocator + Copy, L: Origin<D>, R: Wait>(
    rt: &R,
    room: &Room<D, A, L>,
    seen: &mut Seen,
    mine: &mut Share<L>,
    p: ProcessorNumber,
    act: &Act,
) -> Reply
    requires own { seen.old.cell ≡ room.now.horizon }
    requires part { 0 < mine.old.parts }
    ensures full { result ≡ Reply.Refused Refusal.TraceFull
        → (mine.new.amount ≡ mine.old.amount) × (seen.new ≡ seen.old) }
    ensures counted { result ≢ Reply.Refused Refusal.TraceFull → mine.new.amount ≡ mine.old.amount + 1 }
    ensures parts { mine.new.parts ≡ mine.old.parts }
    ensures risen { HasRisen seen.old seen.new }
    ensures called { result ≢ Reply.Refused Refusal.TraceFull
        → HasCalled D.Device L.start L.all L.capacity (record { p = p; act = act.now }) result
        (seen_words seen.old) (seen_words seen.new) }
    ensures marked { (mark : ℕ) → result ≡ Reply.Marked mark → mark ≤ seen.new.stalled }
    ensures committed { (mark : ℕ) → result ≡ Reply.Committed mark → mark ≤ seen.new.committed }
{
    let mut guard = room.lock.wait(rt).lock(rt);
    let Ok(locked) = &mut *guard else {
        return Reply::Refused(Refusal::TraceFull);
    };
    let (reply, raise) = locked.call(mine, p, act);
    raise_horizon(rt, &room.horizon, seen, raise);
    reply
}

// Raises the horizon exactly as `raise` describes.
fn raise_horizon<R: Wait>(rt: &R, horizon: &Horizon, seen: &mut Seen, raise: Raise)
    requires own { seen.old.cell ≡ horizon.now }
    ensures nothing { raise ≡ Raise.Nothing → seen.new ≡ seen.old }
    ensures exact { RaisesSo raise seen.old seen.new }
    ensures risen { HasRisen seen.old seen.new }
    ensures reached { RaisesUpTo raise seen.new.stalled seen.new.committed }
{
    match raise {
        Raise::Nothing => {}
        Raise::Stalled(mark) => horizon.raise_stalled(rt, seen, mark),
        Raise::Committed(mark) => horizon.raise_committed(rt, seen, mark),
    }
}
