// Runs over the disk that shows the volume with a log on a device.
ghost use Rattle.std.specs.Prelude.{◌≡◌, Ok, IfOk, IfErr, alloc_error};
ghost use Rattle.device.specs.Memory.{new_disk};
ghost use Rattle.machine.specs.declared.act.Shape.{Shape};
ghost use Rattle.engine.specs.Engine.{HasStarted};
ghost use Rattle.machine_log.specs.Disk.{LogDiskValue};
ghost use Rattle.crash_states.specs.Calls.{ListedDisk, device_calls_of, listing};
ghost use Rattle.crash_table.specs.Calls.{listing_memory, StepsCountedBy};
ghost use Rattle.crash_table.specs.Trials.{cause_of};
ghost use Rattle.machine_log.specs.Disk.{shown_by};
ghost use Rattle.machine_log.specs.Opening.{HasShown};
ghost use Rattle.crash_table.specs.Runs.{HasEndedByLog, AreMadeByLog, AreCallsByLog, calls_below};
ghost use Rattle.crash_table.specs.LogTrials.{IsNotListedByLog};

use crate::files::fault_of;
use crate::first_run::FirstRun;
use crate::make::{not_opened, run_on};
use crate::trial::calls_of;
use crash_states::{CrashFault, Listing};
use device::Device;
use engine::ran_since_start;
use machine::{Machine, Reply, Shape, Step};
use machine_log::LogDisk;
use page_entry::Refusal;
use std::alloc::{AllocError, Allocator};

/// Makes a run over the volume with a log on a device, up to a step with the reply that the device failed. Returns the
/// device and the replies. There is no reply if the device failed while it was opened.
pub(crate) fn run_by_log<D: Device + Drop, A: Allocator + Copy>(
    alloc: A,
    device: D,
    shape: Shape,
    steps: &[Step],
) -> Result<(D, Vec<Reply, A>), CrashFault>
    ensures { IfOk result (λ left. HasEndedByLog D.Device device shape steps.now left.1.items left.0) }
{
    match LogDisk::open(alloc, device) {
        Ok(disk) => {
            let (last, replies) = run_on(alloc, disk, shape, steps)?;
            Ok((last.into_device(), replies))
        }
        Err(refused) => not_opened(alloc, refused),
    }
}

/// Makes a run over a volume with a log once, on a copy of a disk with these bytes.
pub(crate) fn list<A: Allocator + Copy>(
    alloc: A,
    image: &[u8],
    shape: Shape,
    steps: &[Step],
) -> Result<FirstRun<A>, CrashFault>
    ensures calls { IfOk result (λ listed. AreCallsByLog image.now shape steps.now listed.replies.items
        listed.counts.items (device_calls_of listed.calls.items)) }
    ensures refused { IfErr result (IsNotListedByLog (listing (new_disk image.now) 0) shape) }
{
    match Listing::new(alloc, image, 0) {
        Ok(disk) => list_on(alloc, disk, shape, steps),
        Err(_) => Err(CrashFault::Memory(AllocError)),
    }
}

// Makes a run once over the volume with a log on a disk.
fn list_on<A: Allocator + Copy>(
    alloc: A,
    disk: Listing<A>,
    shape: Shape,
    steps: &[Step],
) -> Result<FirstRun<A>, CrashFault>
    ensures calls { IfOk result (λ listed. AreMadeByLog disk shape steps.now listed.replies.items
        listed.counts.items (device_calls_of listed.calls.items)) }
    ensures refused { IfErr result (IsNotListedByLog disk shape) }
{
    match LogDisk::open(alloc, disk) {
        Ok(shown) => list_shown(alloc, shown, shape, steps),
        Err(refused) => Err(why_refused(refused)),
    }
}

// Makes a run once over a disk that shows a volume with a log.
fn list_shown<A: Allocator + Copy>(
    alloc: A,
    shown: LogDisk<Listing<A>, A>,
    shape: Shape,
    steps: &[Step],
) -> Result<FirstRun<A>, CrashFault>
    ensures calls { (before : ListedDisk) → HasShown listing_memory before shown → IfOk result (λ listed.
        AreMadeByLog before shape steps.now listed.replies.items listed.counts.items
        (device_calls_of listed.calls.items)) }
    ensures refused { (before : ListedDisk) → HasShown listing_memory before shown
        → IfErr result (IsNotListedByLog before shape) }
{
    match engine::start(alloc, shown, shape) {
        Ok(machine) => memory_alone(list_steps(alloc, machine, steps)),
        Err(refused) => Err(why_refused(refused)),
    }
}

/// Returns why a disk wasn't opened, or why no machine was started on it.
pub(crate) fn why_refused<D: Drop>(refused: (Refusal, D)) -> CrashFault
    ensures { result ≡ cause_of refused.0 }
{
    let (refusal, _disk) = refused;
    fault_of(refusal)
}

/// Returns the value made from an opened volume. It can fail only for lack of memory.
pub(crate) fn memory_alone<T: Drop>(made: Result<T, CrashFault>) -> Result<T, CrashFault>
    ensures same { IfOk result (λ value. made ≡ Ok value) }
    ensures memory { IfErr result (λ why. why ≡ CrashFault.Memory alloc_error) }
{
    match made {
        Ok(value) => Ok(value),
        Err(_) => Err(CrashFault::Memory(AllocError)),
    }
}

// Makes the steps of a run. Lists the device calls that opened the volume and those that the steps made.
fn list_steps<A: Allocator + Copy>(
    alloc: A,
    mut machine: Machine<LogDisk<Listing<A>, A>, A>,
    steps: &[Step],
) -> Result<FirstRun<A>, CrashFault>
    ensures { (before : ListedDisk) (shown : LogDiskValue ListedDisk) (shape : Shape)
        → HasShown listing_memory before shown → HasStarted (shown_by listing_memory) shown shape machine
        → IfOk result (λ listed. AreMadeByLog before shape steps.now listed.replies.items listed.counts.items
        (device_calls_of listed.calls.items)) }
{
    let noted = note_steps(alloc, &mut machine, steps);
    ran_since_start(&machine);
    let shown = machine.into_device();
    let below = shown.into_device();
    let calls = calls_of(below);
    let (replies, counts) = noted?;
    Ok(FirstRun {
        replies,
        counts,
        calls: calls?,
    })
}

// Returns the replies to the steps of a run, and the number of device calls after each.
fn note_steps<A: Allocator + Copy>(
    alloc: A,
    machine: &mut Machine<LogDisk<Listing<A>, A>, A>,
    steps: &[Step],
) -> Result<(Vec<Reply, A>, Vec<u64, A>), AllocError>
    ensures { IfOk result (λ noted.
        StepsCountedBy (shown_by listing_memory) calls_below machine.old steps.now noted.0.items noted.1.items
        machine.new) }
{
    let mut replies = Vec::new(alloc);
    let mut counts = Vec::new(alloc);
    for step in steps {
        replies.push(machine.enter(step))?;
        let shown = machine.device();
        let below = shown.device();
        counts.push(below.calls())?;
    }
    Ok((replies, counts))
}
