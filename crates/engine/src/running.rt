// The main job over any disk: it opens a volume, boots a machine, and makes steps one at a time.
ghost use Rattle.std.specs.Prelude.{◌↔◌, ◌≡◌, List, length, take, IfOk, IfErr, true, false};
ghost use Rattle.machine.specs.declared.act.Reply.{Reply};
ghost use Rattle.engine.specs.Listening.{HasListened, HasHeard, HasStopped};
ghost use Rattle.machine.specs.Fresh.{IsFresh};
ghost use Rattle.machine.specs.Runs.{StepsTaken};
ghost use Rattle.engine.specs.Engine.{HasStarted, HasNotStarted, HasRun, KeepsDevice, handed_back};

use crate::{Listener, ran_since_start};
use device::Device;
use machine::{Act, Machine, Shape, Step, steps_after_steps};
use page_entry::Refusal;
use std::alloc::Allocator;

/// Opens the volume of a device, and boots a machine of this shape over it. A failure returns the device.
///
/// Fails with `NotAVolume`, `Damaged` and `Device` as `recovery::open` does, with `BadShape` as `Machine::boot` does,
/// and with `OutOfMemory` if there is no memory.
pub fn start<D: Device, A: Allocator + Copy>(
    alloc: A,
    device: D,
    shape: Shape,
) -> Result<Machine<D, A>, (Refusal, D)>
    ensures started { IfOk result (λ machine. HasStarted D.Device device shape machine) }
    ensures fresh { IfOk result (λ machine. IsFresh machine.state) }
    ensures refused { IfErr result (λ refused. HasNotStarted D.Device device shape refused.1 refused.0) }
{
    let volume = match recovery::open(alloc, device) {
        Ok(volume) => volume,
        Err(refused) => return Err(refused),
    };
    match Machine::boot(alloc, volume, shape) {
        Ok(machine) => Ok(machine),
        Err((refusal, volume)) => Err((refusal, volume.into_device())),
    }
}

// The number of steps that are fetched at a time. A step that is fetched alone costs a cache miss of its own, since the
// steps around it copy pages.
const PORTION: usize = 32;

const NO_STEP: Step = Step {
    p: 0,
    act: Act::Idle,
};

// Makes the steps in order, and passes each reply to the listener before the next step, until the listener stops the
// run.
fn make_steps<D: Device, A: Allocator + Copy, L: Listener>(
    machine: &mut Machine<D, A>,
    steps: &[Step],
    listener: &mut L,
)
    ensures { (replies : List Reply) × HasListened L.hears (length steps.now) listener.old replies listener.new
        × StepsTaken D.Device machine.old (take (length replies) steps.now) replies machine.new }
{
    steps_after_steps(machine.device());
    let mut portion = [NO_STEP; PORTION];
    let mut from = 0;
    while from < steps.len() {
        let count = PORTION.min(steps.len() - from);
        portion[..count].copy_from_slice(&steps[from..from + count]);
        if !make_portion(machine, &portion[..count], listener) {
            return;
        }
        from += count;
    }
}

// Makes these steps, and passes each reply to the listener before the next step. Returns false if the listener stopped
// the run.
fn make_portion<D: Device, A: Allocator + Copy, L: Listener>(
    machine: &mut Machine<D, A>,
    portion: &[Step],
    listener: &mut L,
) -> bool
    ensures { (replies : List Reply)
        × (result ≡ true → HasHeard L.hears listener.old replies listener.new × (length replies ≡ length portion.now))
        × (result ≡ false → HasStopped L.hears listener.old replies listener.new)
        × StepsTaken D.Device machine.old (take (length replies) portion.now) replies machine.new }
{
    for step in portion {
        let reply = machine.enter(step);
        if !listener.hear(&reply) {
            return false;
        }
    }
    true
}

/// Opens the volume of a device, boots a machine of this shape, and makes the steps one at a time. Passes each reply to
/// the listener before the next step. Ends after the last step, or when the listener stops the run, and returns the
/// device.
///
/// On an honest device each reply follows the rules and the laws of the machine. Whatever the steps are, and even if
/// device calls fail, what was stored survives (`HasRun.survives`):
///
/// * A crash within a step leaves bytes that recover to the volume's files after a prefix of earlier events. The events
///   are the stores and length changes answered before that step. The prefix is empty or ends at a mark, and contains
///   each acknowledged mark.
/// * The same holds after the last step, with or without a crash. The prefix is then one of all stores and length
///   changes.
/// * It still holds after any number of further openings, each with a crash or none within it and after it.
/// * Each opening returns exactly these files, or fails with `Device` if a device call failed, or with `OutOfMemory`.
///   It never fails with `NotAVolume` or `Damaged`.
///
/// All this can be repeated on the returned device, and on what a crash left of it.
///
/// Fails as `start` does. The listener has then received nothing.
pub fn run<D: Device, A: Allocator + Copy, L: Listener>(
    alloc: A,
    device: D,
    shape: Shape,
    steps: &[Step],
    listener: &mut L,
) -> Result<D, (Refusal, D)>
    ensures ran { IfOk result (λ after. (replies : List Reply)
        × HasListened L.hears (length steps.now) listener.old replies listener.new
        × HasRun D.Device device shape (take (length replies) steps.now) replies after) }
    ensures refused { IfErr result (λ refused. HasNotStarted D.Device device shape refused.1 refused.0
        × (listener.new ≡ listener.old)) }
    ensures kept { KeepsDevice D.Device device (handed_back result) }
{
    match start(alloc, device, shape) {
        Ok(mut machine) => {
            make_steps(&mut machine, steps, listener);
            ran_since_start(&machine);
            Ok(machine.into_device())
        }
        Err(refused) => Err(refused),
    }
}
