// What follows from a run that is made one step at a time, and from a start that failed.
ghost use Rattle.std.specs.Prelude.{ℕ, List};
ghost use Rattle.device.specs.Device.{LeavesOnly};
ghost use Rattle.page_entry.specs.declared.refusal.Refusal.{Refusal};
ghost use Rattle.volume_codec.specs.Files.{File};
ghost use Rattle.volume_codec.specs.Recovery.{RecoversTo};
ghost use Rattle.machine.specs.declared.act.Reply.{Reply};
ghost use Rattle.machine.specs.declared.act.Shape.{Shape};
ghost use Rattle.machine.specs.declared.act.Step.{Step};
ghost use Rattle.machine.specs.Laws.{ReadsBackSince};
ghost use Rattle.machine.specs.Runs.{StepsTaken};
ghost use Rattle.machine.specs.State.{Whole};
ghost use Rattle.machine.specs.Steps.{observed_first};
ghost use Rattle.machine.specs.Observed.{observe_all};
ghost use Rattle.recovery.specs.Openings.{IsLater, IsMade};
ghost use Rattle.engine.specs.Engine.{HasNotStarted, HasRun, HasStarted};
ghost use Rattle.engine.specs.Survival.{Survives};

use device::Device;
use history::opened_later;
use machine::{Machine, faults_are_served, runs_keep_the_laws};
use recovery::{crashed_since_opening, opened_again};
use std::alloc::Allocator;
use volume_codec::one_reading;

/// Steps that were made after a start are a run, with any last machine (`run`).
///
/// Over an honest device, some files exist to which it recovered before it was opened. Take a crash since any machine
/// of the run. The bytes that it leaves read back as these files after a durable prefix (`since`). The prefix is of
/// what was observed by the steps up to that machine, and by some of the later ones.
pub fn steps_are_a_run<D: Device>(device: &D)
    ensures run { (before : D) (shape : Shape) (start last : Whole D) (steps : List Step) (replies : List Reply)
        → HasStarted D.Device before shape start → StepsTaken D.Device start steps replies last
        → HasRun D.Device before shape steps replies last.device }
    ensures since { (before : D) (shape : Shape) (start mid last : Whole D) (earlier later : List Step)
        (replied more : List Reply) → HasStarted D.Device before shape start
        → StepsTaken D.Device start earlier replied mid → StepsTaken D.Device mid later more last → D.is_honest before
        → (files : List File) × RecoversTo (D.seen before) files
        × ((c : List ℕ) → D.left_since last.device (D.moment mid.device) c
        → ReadsBackSince files (observe_all (observed_first files start.state) earlier replied) later more c) }
{
    runs_keep_the_laws(device);
    faults_are_served(device);
    opened_later(device);
    crashed_since_opening(device);
}

/// The steps that a machine has taken since its start are a run. `Machine::enter` took them one at a time, or
/// `Machine::run` did.
pub fn ran_since_start<D: Device, A: Allocator + Copy>(machine: &Machine<D, A>)
    ensures { (before : D) (shape : Shape) (start : Whole D) (steps : List Step) (replies : List Reply)
        → HasStarted D.Device before shape start → StepsTaken D.Device start steps replies machine.now
        → HasRun D.Device before shape steps replies machine.now.device }
{
    steps_are_a_run(machine.device());
}

/// A run begins with exactly the files with which its device was made a volume, by formatting or by migrating. In
/// between the device may have been opened any number of times, each with a crash or none within it or after it. So
/// what survives the run is what it stored in these files.
pub fn ran_after_making<D: Device>(device: &D)
    ensures { (n : ℕ) (files : List File) (made before after : D) (shape : Shape) (steps : List Step)
        (replies : List Reply) → IsMade D.Device files made → IsLater D.Device n made before
        → (run : HasRun D.Device before shape steps replies after)
        → Survives D.Device files before run.start steps replies run.last }
{
    opened_later(device);
    opened_again(device);
    one_reading();
}

/// If the start fails, a crash since the opening began leaves bytes that recover to the same files as before.
pub fn crashed_since_refusal<D: Device>(device: &D)
    ensures { (before after : D) (shape : Shape) (refusal : Refusal) (files : List File)
        → HasNotStarted D.Device before shape after refusal → D.is_honest before
        → ((c : List ℕ) → D.may_leave before c → RecoversTo c files)
        → LeavesOnly D.moment D.left_since before after (λ c. RecoversTo c files) }
{}
