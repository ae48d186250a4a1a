// The files at each mark of a run, and the mark whose files an opening found.
ghost use Rattle.std.specs.Prelude.{◌≡◌, ◌<◌, ℕ, List, length, map, take, slice_get, Some, IfOk, IfSome, OnOk, IsTrue, ◌↔◌, Contains};
ghost use Rattle.machine.specs.declared.act.Reply.TheVariants.{Marked};
ghost use Rattle.machine.specs.declared.act.Shape.{Shape};
ghost use Rattle.machine.specs.declared.act.Step.{Step};
ghost use Rattle.volume_codec.specs.Files.{File};
ghost use Rattle.volume_codec.specs.Recovery.{RecoversTo};
ghost use Rattle.crash_table.specs.Marks.{bytes_at, IsNewest};
ghost use Rattle.crash_table.specs.inside.Kept.{HasWrittenOut, IsKept, AreKept};

use crate::files::{Files, are_same, fault_of, open_files};
use crate::make::{acknowledge, make};
use crate::same::are_same_replies;
use crash_states::CrashFault;
use device::Device;
use machine::{Machine, Reply, Shape, Step};
use std::alloc::Allocator;
use volume_codec::one_reading;

/// The files at a mark, and the index of the step that made it.
#[derive(Drop)]
pub struct MarkFiles<A: Allocator + Copy> {
    pub step: usize,
    pub files: Files<A>,
}

/// A run to make on copies of a disk: the bytes of the disk, the shape of the machine, and the steps.
#[derive(Clone, Copy)]
pub struct Plan<'a> {
    pub image: &'a [u8],
    pub shape: Shape,
    pub steps: &'a [Step],
}

/// Returns the files at the mark that the step with the index `at` made. `replies` contains the replies up to and with
/// that step. The run is made on the device up to that step, and written out until the mark is acknowledged. So the
/// files that are found contain all of the mark, and no later store.
pub fn files_at<D: Device + Drop, A: Allocator + Copy>(
    alloc: A,
    device: D,
    shape: Shape,
    steps: &[Step],
    replies: &[Reply],
    at: usize,
    number: u32,
) -> Result<Files<A>, CrashFault>
    requires { slice_get replies.now at ≡ Some (Marked number) }
    ensures made { IfOk result (λ read. at < length steps.now) }
    ensures kept { D.is_honest device → (files : List File) → RecoversTo (D.seen device) files → IfOk result (λ read.
        map (λ v. v.items) read.items ≡ bytes_at files shape steps.now replies.now at number) }
{
    one_reading();
    match engine::start(alloc, device, shape) {
        Ok(mut machine) => {
            write_out(alloc, &mut machine, steps, replies, at, number)?;
            machine.keeps_the_laws();
            open_files(alloc, machine.into_device())
        }
        Err((refusal, _)) => Err(fault_of(refusal)),
    }
}

// Makes the steps up to the mark that the step with the index `at` made, and writes it out until it is acknowledged.
fn write_out<D: Device, A: Allocator + Copy>(
    alloc: A,
    machine: &mut Machine<D, A>,
    steps: &[Step],
    replies: &[Reply],
    at: usize,
    number: u32,
) -> Result<(), CrashFault>
    requires { slice_get replies.now at ≡ Some (Marked number) }
    ensures { OnOk result (HasWrittenOut D.Device machine.old steps.now replies.now at number machine.new) }
{
    if !is_first_mark(steps, replies, at, number) {
        return Err(CrashFault::Otherwise);
    }
    let replied = make(alloc, machine, &steps[..=at])?;
    if !are_same_replies(&replied, &replies[..=at]) {
        return Err(CrashFault::Otherwise);
    }
    acknowledge(machine, steps[at].p, number, &replies[..at])
}

// Whether there is a step with this index, and no earlier reply reports a mark of this number. A machine numbers its
// marks one by one, so it uses no number twice.
fn is_first_mark(steps: &[Step], replies: &[Reply], at: usize, number: u32) -> bool
    requires { at < length replies.now }
    ensures first { IsTrue result → (at < length steps.now)
        × ((i : ℕ) → slice_get (take at replies.now) i ≡ Some (Marked number) → ⊥) }
    ensures only { at < length steps.now
        → ((i : ℕ) → slice_get (take at replies.now) i ≡ Some (Marked number) → ⊥) → IsTrue result }
{
    at < steps.len() && !has_mark(&replies[..at], number)
}

// Whether one of these replies reports a mark of this number.
fn has_mark(replies: &[Reply], number: u32) -> bool
    ensures each { (i : ℕ) → slice_get replies.now i ≡ Some (Marked number) → IsTrue result }
    ensures only { IsTrue result → (i : ℕ) × (slice_get replies.now i ≡ Some (Marked number)) }
{
    for reply in replies {
        if is_mark(reply, number) {
            return true;
        }
    }
    false
}

// Whether a reply reports the mark of this number.
fn is_mark(reply: &Reply, number: u32) -> bool
    ensures { IsTrue result ↔ (reply.now ≡ Marked number) }
{
    reply.is_same(&Reply::Marked(number))
}

// Returns the kept files of the mark that the step with this index made.
fn kept_at<A: Allocator + Copy>(marks: &[MarkFiles<A>], at: usize) -> Option<&MarkFiles<A>>
    ensures { IfSome result (λ mark. Contains marks.now mark.now × (mark.now.step ≡ at)) }
{
    for mark in marks {
        if mark.step == at {
            return Some(mark);
        }
    }
    None
}

/// Returns the newest mark in `replies` whose files are the found ones, or 0 if there is none. `marks` contains the
/// files at the marks of a run with the replies `first`. They are used as far as both runs have the same replies.
pub fn newest<A: Allocator + Copy>(
    marks: &[MarkFiles<A>],
    first: &[Reply],
    replies: &[Reply],
    found: &[Vec<u8, A>],
) -> Result<u32, CrashFault>
    ensures { (files : List File) (shape : Shape) (steps : List Step) → AreKept files shape steps first.now marks.now
        → IfOk result (IsNewest files shape steps replies.now (map (λ v. v.items) found.now)) }
{
    for before in 0..replies.len() {
        let at = replies.len() - 1 - before;
        if let Reply::Marked(number) = replies[at] {
            let kept = kept_of(marks, first, replies, at)?;
            if are_same(&kept.files, found) {
                return Ok(number);
            }
        }
    }
    Ok(0)
}

// Returns the kept files of the mark that the step with this index made. Fails unless the replies up to it are those of
// the run whose files were kept.
fn kept_of<'a, A: Allocator + Copy>(
    marks: &'a [MarkFiles<A>],
    first: &[Reply],
    replies: &[Reply],
    at: usize,
) -> Result<&'a MarkFiles<A>, CrashFault>
    requires { at < length replies.now }
    ensures { (files : List File) (shape : Shape) (steps : List Step) → AreKept files shape steps first.now marks.now
        → IfOk result (λ kept. IsKept files shape steps replies.now at kept.now) }
{
    if at >= first.len() || !are_same_replies(&first[..=at], &replies[..=at]) {
        return Err(CrashFault::Otherwise);
    }
    match kept_at(marks, at) {
        Some(kept) => Ok(kept),
        None => Err(CrashFault::Otherwise),
    }
}
