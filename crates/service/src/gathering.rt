// Compares the trace with the processors' calls when a service is gathered, and takes the machine out.
ghost use Rattle.std.specs.Prelude.{ℕ, ◌≡◌, ◌↔◌, ◌+◌, ◌*◌, ◌<◌, length, IsTrue, IsSome, IfOk, IfErr};
ghost use Rattle.service.specs.Trace.{of_processor};
ghost use Rattle.service.specs.Gathering.{IsAmong, AreAll, AreAnswered, IsAnotherTrace, answered_calls};
ghost use Rattle.service.specs.Serving.{ServesFrom};

use crate::locked::{Kept, Locked, Right, Room};
use crate::{Cpu, Entry, Origin};
use device::Device;
use machine::{Act, Machine, Reply};
use page_entry::ProcessorNumber;
use std::alloc::Allocator;
use std::mem::replace;
use std::sync::Wait;
use std::sync::ledger::{Book, Share};

// Whether these are all processors of a service with `count` of them.
pub(crate) fn are_all<D: Device, A: Allocator + Copy, L: Origin<D>>(
    cpus: &[Cpu<D, A, L>],
    count: u64,
) -> bool
    ensures { IsTrue result ↔ AreAll count cpus.now }
{
    if cpus.len() as u64 != count {
        return false;
    }
    for p in 0..count {
        if !is_among(cpus, p) {
            return false;
        }
    }
    true
}

fn is_among<D: Device, A: Allocator + Copy, L: Origin<D>>(cpus: &[Cpu<D, A, L>], p: u64) -> bool
    ensures { IsTrue result ↔ IsAmong cpus.now p }
{
    for cpu in cpus {
        if cpu.number() == p {
            return true;
        }
    }
    false
}

// Whether an act and its reply are those of an entry.
fn is_answer_of(entry: &Entry, answer: &(Act, Reply)) -> bool
    ensures { IsTrue result ↔ (answer.now ≡ (entry.now.step.act, entry.now.reply)) }
{
    answer.0.is_same(&entry.step.act) && answer.1.is_same(&entry.reply)
}

// Whether the entries of a processor are these acts with these replies, in this order.
fn is_answered(trace: &[Entry], p: ProcessorNumber, answered: &[(Act, Reply)]) -> bool
    ensures { IsTrue result ↔ (of_processor p trace.now ≡ answered.now) }
{
    let mut met = 0;
    for entry in trace {
        if entry.step.p == p {
            if met == answered.len() || !is_answer_of(entry, &answered[met]) {
                return false;
            }
            met += 1;
        }
    }
    met == answered.len()
}

// Whether the entries of each of these processors are its answered calls.
fn are_answered<D: Device, A: Allocator + Copy, L: Origin<D>>(
    trace: &[Entry],
    cpus: &[Cpu<D, A, L>],
) -> bool
    ensures { IsTrue result ↔ AreAnswered trace.now cpus.now }
{
    for cpu in cpus {
        if !is_answered(trace, cpu.p, cpu.answered()) {
            return false;
        }
    }
    true
}

// Lends the share of each processor to `seen`, and so shows that the book has counted exactly the calls of all
// processors.
fn audit<D: Device, A: Allocator + Copy, L: Origin<D>>(
    calls: &mut Book<L>,
    seen: &mut Share<L>,
    cpus: &mut [Cpu<D, A, L>],
)
    requires whole { seen.old.parts + length cpus.old ≡ L.parts }
    requires some { 0 < seen.old.parts }
    ensures counted { calls.old.total ≡ seen.old.amount + answered_calls cpus.old }
    ensures total { calls.new.total ≡ calls.old.total }
    ensures parts { seen.new.parts ≡ seen.old.parts }
    ensures amount { seen.new.amount ≡ seen.old.amount }
    ensures cpus { cpus.new ≡ cpus.old }
{
    match cpus.split_first_mut() {
        None => calls.audit(seen),
        Some((cpu, rest)) => {
            let Cpu {
                share,
                answered,
                ..
            } = cpu;
            let count = answered.len() as u64;
            share.give(seen, 1, count);
            audit(calls, seen, rest);
            seen.give(share, 1, count);
        }
    }
}

impl<D: Device, A: Allocator + Copy, L: Origin<D>> Locked<D, A, L> {
    // Shows that the number of entries in the trace is the number of all processors' answered calls.
    fn count(&mut self, right: &mut Right<D, L>, cpus: &mut [Cpu<D, A, L>])
        requires parts { L.parts ≡ 2 * L.all + 1 }
        requires all { length cpus.old ≡ L.all }
        ensures counted { length self.old.trace ≡ answered_calls cpus.old }
        ensures same { self.new ≡ self.old }
        ensures cpus { cpus.new ≡ cpus.old }
    {
        let Locked { calls, .. } = self;
        let Right { share, .. } = right;
        audit(calls, share, cpus)
    }

    // Whether the trace consists of the answered calls of all processors.
    fn is_answered(&mut self, right: &mut Right<D, L>, cpus: &mut [Cpu<D, A, L>]) -> bool
        requires parts { L.parts ≡ 2 * L.all + 1 }
        requires all { length cpus.old ≡ L.all }
        ensures counted { length self.old.trace ≡ answered_calls cpus.old }
        ensures answered { IsTrue result ↔ AreAnswered self.old.trace cpus.old }
        ensures serves { ServesFrom D.Device L.start L.all L.capacity self.old }
        ensures same { self.new ≡ self.old }
        ensures cpus { cpus.new ≡ cpus.old }
    {
        self.count(right, cpus);
        are_answered(self.shared.trace(), cpus)
    }
}

// Takes the machine and its trace out if the trace consists of the answered calls of these processors. The right is
// left in its place. Otherwise the machine stays, and the right is returned.
fn take_answered<D: Device + Drop, A: Allocator + Copy, L: Origin<D>>(
    kept: &mut Kept<D, A, L>,
    mut right: Right<D, L>,
    cpus: &mut [Cpu<D, A, L>],
) -> Result<Locked<D, A, L>, Right<D, L>>
    requires parts { L.parts ≡ 2 * L.all + 1 }
    requires all { length cpus.old ≡ L.all }
    ensures taken { IfOk result (λ locked. AreAnswered locked.trace cpus.old
        × (length locked.trace ≡ answered_calls cpus.old)) }
    ensures refused { IfErr result (λ _. IsAnotherTrace D.Device L.start L.all L.capacity cpus.old) }
    ensures cpus { cpus.new ≡ cpus.old }
{
    match kept {
        Ok(locked) => {
            if !locked.is_answered(&mut right, cpus) {
                return Err(right);
            }
        }
        Err(gone) => {
            gone.meet(&mut right);
            unreachable!()
        }
    }
    match replace(kept, Err(right)) {
        Ok(locked) => Ok(locked),
        Err(_) => unreachable!(),
    }
}

// Takes the machine and its trace out of the lock of a service, by the rules of `take_answered`.
pub(crate) fn take_if_answered<D: Device + Drop, A: Allocator + Copy, L: Origin<D>, R: Wait>(
    rt: &R,
    room: &Room<D, A, L>,
    right: Right<D, L>,
    cpus: &mut [Cpu<D, A, L>],
) -> Result<Locked<D, A, L>, Right<D, L>>
    requires parts { L.parts ≡ 2 * L.all + 1 }
    requires all { length cpus.old ≡ L.all }
    ensures taken { IfOk result (λ locked. AreAnswered locked.trace cpus.old
        × (length locked.trace ≡ answered_calls cpus.old)) }
    ensures refused { IfErr result (λ _. IsAnotherTrace D.Device L.start L.all L.capacity cpus.old) }
    ensures cpus { cpus.new ≡ cpus.old }
{
    take_answered(&mut *room.lock.wait(rt).lock(rt), right, cpus)
}

// Returns the machine and the trace.
pub(crate) fn ended<D: Device + Drop, A: Allocator + Copy, L: Origin<D>>(
    locked: Locked<D, A, L>,
) -> (Machine<D, A>, Vec<Entry, A>)
    ensures machine { result.0 ≡ locked.machine }
    ensures trace { result.1.items ≡ locked.trace }
    ensures serves { ServesFrom D.Device L.start L.all L.capacity locked }
{
    let Locked { shared, .. } = locked;
    shared.into_parts()
}

// Takes the machine and its trace out without a comparison.
fn take<D: Device + Drop, A: Allocator + Copy, L: Origin<D>>(
    kept: &mut Kept<D, A, L>,
    mut right: Right<D, L>,
) -> Option<Locked<D, A, L>>
    ensures { L.parts ≡ 2 * L.all + 1 → IsSome result }
{
    match kept {
        Ok(_) => {}
        Err(gone) => {
            gone.meet(&mut right);
            return None;
        }
    }
    replace(kept, Err(right)).ok()
}

pub(crate) fn taken<D: Device + Drop, A: Allocator + Copy, L: Origin<D>, R: Wait>(
    rt: &R,
    room: &Room<D, A, L>,
    right: Right<D, L>,
) -> Option<Locked<D, A, L>>
    ensures { L.parts ≡ 2 * L.all + 1 → IsSome result }
{
    take(&mut *room.lock.wait(rt).lock(rt), right)
}
