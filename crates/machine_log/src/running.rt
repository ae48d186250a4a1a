// Opens a volume with a log as a disk, boots a machine over the disk, and makes steps one at a time.
ghost use Rattle.std.specs.Prelude.{◌≡◌, List, length, take, IfOk, IfErr};
ghost use Rattle.machine.specs.declared.act.Reply.{Reply};
ghost use Rattle.engine.specs.Engine.{HasStarted, HasNotStarted};
ghost use Rattle.engine.specs.Listening.{HasListened};
ghost use Rattle.machine_log.specs.Disk.{LogDiskValue, shown_by};
ghost use Rattle.machine_log.specs.Runs.{HasRunOnLog, HasNotRunOnLog};
ghost use Rattle.machine_log.specs.inside.Standing.{Stands, StepsStand, StepStands};

use crate::disk::LogDisk;
use device::Device;
use engine::{Listener, start};
use log_codec::one_log;
use log_opening::files_of_openings;
use log_volume::one_log_super;
use machine::{Machine, Reply, Shape, Step, faults_are_served, runs_keep_the_laws};
use page_entry::Refusal;
use recovery::crashed_since_opening;
use std::alloc::Allocator;
use volume_codec::one_reading;

// Makes a step. Also provides the law about what a crash of the device leaves (`crashes_alike`).
fn make_step<D: Device, A: Allocator + Copy>(
    machine: &mut Machine<LogDisk<D, A>, A>,
    step: &Step,
) -> Reply
    ensures { StepStands D.Device machine.old step.now result machine.new }
{
    let reply = machine.enter(step);
    machine.device().crashes_alike();
    reply
}

// Makes the steps in order. The listener hears each reply before the next step, and can stop the run.
fn make_steps<D: Device, A: Allocator + Copy, L: Listener>(
    machine: &mut Machine<LogDisk<D, A>, A>,
    steps: &[Step],
    listener: &mut L,
)
    ensures { (replies : List Reply) × HasListened L.hears (length steps.now) listener.old replies listener.new
        × StepsStand D.Device machine.old (take (length replies) steps.now) replies machine.new }
{
    for step in steps {
        let reply = make_step(machine, step);
        if !listener.hear(&reply) {
            return;
        }
    }
}

// Boots a machine of this shape over the disk that shows a volume. On a refusal, returns the volume's device.
fn boot<D: Device, A: Allocator + Copy>(
    alloc: A,
    disk: LogDisk<D, A>,
    shape: Shape,
) -> Result<Machine<LogDisk<D, A>, A>, (Refusal, D)>
    ensures started { IfOk result (λ machine. HasStarted (shown_by D.Device) disk shape machine) }
    ensures stands { IfOk result (λ machine. Stands D.Device machine.device) }
    ensures refused { IfErr result (λ refused. (left : LogDiskValue D)
        × HasNotStarted (shown_by D.Device) disk shape left refused.0 × Stands D.Device left
        × (refused.1 ≡ left.device)) }
{
    match start(alloc, disk, shape) {
        Ok(machine) => {
            machine.device().crashes_alike();
            Ok(machine)
        }
        Err((refusal, disk)) => {
            disk.crashes_alike();
            Err((refusal, disk.into_device()))
        }
    }
}

/// Runs steps on the volume with a log on this device, and returns the device. Opens the volume as a disk, boots a
/// machine of this shape over it, and makes the steps one at a time. The listener hears each reply before the next
/// step. The run ends after the last step, or earlier if the listener stops it.
///
/// On an honest device each reply obeys the rules and the laws of the machine. This holds for any steps, even if device
/// calls fail. Stores survive crashes (`HasRunOnLog.survives`). A crash within a step leaves bytes that recover, by the
/// log, to the volume's files after a durable prefix of the history. That prefix consists of answered stores and length
/// changes. It is empty or ends at a mark, and contains every mark acknowledged before the step. After the last step,
/// the same holds for the whole run, with or without a crash. It still holds after further openings, each with a crash
/// within or after it.
///
/// In layout 6 this has a premise on the bytes that the crash leaves: the disk made each commit since the opening that
/// can be read from them (`IsTold`). After the last step there is no premise if no call of the disk failed.
///
/// Fails as `LogDisk::open` and `engine::start` do. Then the listener heard no reply. On an honest device a later
/// opening finds the volume's files, with or without a crash (`HasNotRunOnLog`).
pub fn run<D: Device, A: Allocator + Copy, L: Listener>(
    alloc: A,
    device: D,
    shape: Shape,
    steps: &[Step],
    listener: &mut L,
) -> Result<D, (Refusal, D)>
    ensures ran { IfOk result (λ after. (replies : List Reply)
        × HasListened L.hears (length steps.now) listener.old replies listener.new
        × HasRunOnLog D.Device device shape (take (length replies) steps.now) replies after) }
    ensures refused { IfErr result (λ refused. HasNotRunOnLog D.Device device shape refused.1 refused.0
        × (listener.new ≡ listener.old)) }
{
    one_log();
    one_log_super();
    one_reading();
    files_of_openings(&device);
    let disk = match LogDisk::open(alloc, device) {
        Ok(disk) => disk,
        Err(refused) => return Err(refused),
    };
    runs_keep_the_laws(&disk);
    faults_are_served(&disk);
    crashed_since_opening(&disk);
    match boot(alloc, disk, shape) {
        Ok(mut machine) => {
            make_steps(&mut machine, steps, listener);
            machine.device().works_unless_failed();
            Ok(machine.into_device().into_device())
        }
        Err(refused) => Err(refused),
    }
}
