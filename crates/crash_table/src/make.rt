// Makes steps, and notes their replies.
ghost use Rattle.std.specs.Prelude.{◌≡◌, ℕ, List, [], length, take, true, false, IfOk, IfErr, OnOk, IsTrue, ◌↔◌};
ghost use Rattle.device.specs.Device.{Only};
ghost use Rattle.volume_codec.specs.Files.{File};
ghost use Rattle.volume_codec.specs.Recovery.{RecoversTo};
ghost use Rattle.machine.specs.declared.act.Reply.TheVariants as replied;
ghost use Rattle.history.specs.Reading.{ReadsBack};
ghost use Rattle.machine.specs.Runs.{StepsTaken};
ghost use Rattle.crash_table.specs.Crashes.{history_of, HasEnded};
ghost use Rattle.crash_table.specs.inside.Kept.{unmarked_after, is_under_way, most_flushes, HasCommitted, HasGivenUp};
ghost use Rattle.crash_table.specs.inside.Kept.{IsAcknowledged, EndsByFailure};

use crate::files::fault_of;
use crash_states::CrashFault;
use device::Device;
use engine::{crashed_since_refusal, ran_since_start};
use history::nothing_stored;
use machine::{Act, Machine, Reply, Shape, Step};
use page_entry::{ProcessorNumber, Refusal};
use std::alloc::{AllocError, Allocator};
use volume_codec::{Geometry, one_reading};

/// Makes steps one at a time, and returns their replies. Stops after a reply that the device failed.
pub(crate) fn make<D: Device, A: Allocator + Copy>(
    alloc: A,
    machine: &mut Machine<D, A>,
    steps: &[Step],
) -> Result<Vec<Reply, A>, AllocError>
    ensures made { IfOk result (λ replies. StepsTaken D.Device machine.old
        (take (length replies.items) steps.now) replies.items machine.new) }
    ensures ended { IfOk result (λ replies. EndsByFailure steps.now replies.items) }
{
    let mut replies = Vec::new(alloc);
    for step in steps {
        let reply = machine.enter(step);
        replies.push(reply)?;
        if is_failure(&reply) {
            return Ok(replies);
        }
    }
    Ok(replies)
}

// Whether a reply is that the device failed.
fn is_failure(reply: &Reply) -> bool
    ensures { IsTrue result ↔ (reply.now ≡ replied.Refused Refusal.Device) }
{
    reply.is_same(&Reply::Refused(Refusal::Device))
}

/// Makes a run on a device, and returns the device and the replies. Stops after a reply that the device failed. There
/// are no replies if the device failed while it was opened.
pub fn run_on<D: Device + Drop, A: Allocator + Copy>(
    alloc: A,
    device: D,
    shape: Shape,
    steps: &[Step],
) -> Result<(D, Vec<Reply, A>), CrashFault>
    ensures ended { IfOk result (λ left. HasEnded D.Device device shape steps.now left.1.items left.0) }
    ensures back { IfOk result (λ left. D.is_honest device → Only (D.may_leave device) (D.seen device)
        → (files : List File) → RecoversTo (D.seen device) files → (c : List ℕ) → D.may_leave left.0 c
        → ReadsBack files (history_of files shape (take (length left.1.items) steps.now) left.1.items) c) }
{
    crashed_since_refusal(&device);
    nothing_stored();
    one_reading();
    match engine::start(alloc, device, shape) {
        Ok(mut machine) => {
            let made = make(alloc, &mut machine, steps);
            ran_since_start(&machine);
            machine.keeps_the_laws();
            let device = machine.into_device();
            let replies = made?;
            Ok((device, replies))
        }
        Err(refused) => not_opened(alloc, refused),
    }
}

/// Returns the device without replies, if it failed while it was opened. Fails for every other refusal.
pub fn not_opened<D: Device + Drop, A: Allocator + Copy>(
    alloc: A,
    refused: (Refusal, D),
) -> Result<(D, Vec<Reply, A>), CrashFault>
    ensures { IfOk result (λ left. (refused.0 ≡ Refusal.Device) × (left.0 ≡ refused.1) × (left.1.items ≡ [])) }
{
    let (refusal, device) = refused;
    match refusal {
        Refusal::Device => Ok((device, Vec::new(alloc))),
        _ => Err(fault_of(refusal)),
    }
}

// Returns the largest number of steps that a write-out of a volume takes, up to and with the step that commits it.
fn most_flushes(geometry: Geometry) -> u64
    ensures { result ≡ most_flushes geometry }
{
    2 * u64::from(geometry.slots()) + u64::from(geometry.descriptor_blocks()) + 4
}

/// Makes sure that a mark that was just made is acknowledged. `before` contains the replies before the mark. If no
/// store was made and no length was set since the previous mark, it is acknowledged at once. Otherwise steps of
/// processor `p` write it out. Fails only if the write-out is given up.
pub fn acknowledge<D: Device, A: Allocator + Copy>(
    machine: &mut Machine<D, A>,
    p: ProcessorNumber,
    number: u32,
    before: &[Reply],
) -> Result<(), CrashFault>
    ensures acknowledged { OnOk result (IsAcknowledged D.Device machine.old p before.now number machine.new) }
    ensures given_up { IfErr result (λ why. (unmarked_after false before.now ≡ true)
        × HasGivenUp D.Device machine.old p number machine.new) }
{
    if has_unmarked(before) {
        commit(machine, p, number)
    } else {
        Ok(())
    }
}

// Writes a mark out, up to the step that commits it.
fn commit<D: Device, A: Allocator + Copy>(
    machine: &mut Machine<D, A>,
    p: ProcessorNumber,
    number: u32,
) -> Result<(), CrashFault>
    ensures committed { OnOk result (HasCommitted D.Device machine.old p number machine.new) }
    ensures given_up { IfErr result (λ why. HasGivenUp D.Device machine.old p number machine.new) }
{
    let step = Step { p, act: Act::Flush };
    let most = most_flushes(machine.table().geometry());
    for _ in 0..most {
        let reply = machine.enter(&step);
        if is_committed(&reply, number) {
            return Ok(());
        }
        if !is_going(&reply) {
            return Err(fault_in(&reply));
        }
    }
    Err(CrashFault::Otherwise)
}

// Whether a reply is that this mark is durable.
fn is_committed(reply: &Reply, number: u32) -> bool
    ensures { IsTrue result ↔ (reply.now ≡ replied.Committed number) }
{
    reply.is_same(&Reply::Committed(number))
}

// Whether a reply is that write-outs go on, or that an older one is done.
fn is_going(reply: &Reply) -> bool
    ensures { result ≡ is_under_way reply.now }
{
    matches!(reply, Reply::Going | Reply::Done(_))
}

// Returns why a mark isn't written out, from the reply to a step of its write-out.
fn fault_in(reply: &Reply) -> CrashFault {
    if let Reply::Refused(refusal) = reply {
        fault_of(*refusal)
    } else {
        CrashFault::Otherwise
    }
}

// Whether a store was made, or a length was set, that no mark contains yet.
fn has_unmarked(replies: &[Reply]) -> bool
    ensures { result ≡ unmarked_after false replies.now }
{
    let mut has = false;
    for reply in replies {
        has = reply.leaves_unmarked(has);
    }
    has
}
