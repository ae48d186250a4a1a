// Runs a script on a device, and prints its replies as they come.
ghost use Rattle.std.specs.Prelude.{◌≡◌, IfOk, IfErr};
ghost use Rattle.engine.specs.Engine.{HasNotStarted, HasRun, KeepsDevice, handed_back};
ghost use Rattle.machine_log.specs.Runs.{HasNotRunOnLog, HasRunOnLog};
ghost use Rattle.commands.specs.Printed.{IsPrintedRun};

use crate::printer::Printer;
use device::Device;
use page_entry::Refusal;
use scripts::Script;
use std::alloc::Allocator;
use std::io::Write;

/// Runs a script on the volume of a device. Prints the reply of each step before the next one is made. Ends after the
/// last step, or when the output fails. Returns the device, also with an error; nothing was printed then.
pub fn run_script<D: Device, A: Allocator + Copy, W: Write + Drop>(
    alloc: A,
    device: D,
    script: &Script<A>,
    printer: &mut Printer<W>,
) -> Result<D, (Refusal, D)>
    ensures ran { IfOk result (IsPrintedRun W.contents (HasRun D.Device device script.now.shape)
        script.now.steps.items printer.old printer.new) }
    ensures refused { IfErr result (λ refused. HasNotStarted D.Device device script.now.shape refused.1 refused.0
        × (printer.new ≡ printer.old)) }
    ensures kept { KeepsDevice D.Device device (handed_back result) }
{
    engine::run(alloc, device, script.shape, &script.steps, printer)
}

/// Does the same as `run_script` on a volume with a log.
pub fn run_script_on_log<D: Device, A: Allocator + Copy, W: Write + Drop>(
    alloc: A,
    device: D,
    script: &Script<A>,
    printer: &mut Printer<W>,
) -> Result<D, (Refusal, D)>
    ensures ran { IfOk result (IsPrintedRun W.contents (HasRunOnLog D.Device device script.now.shape)
        script.now.steps.items printer.old printer.new) }
    ensures refused { IfErr result (λ refused. HasNotRunOnLog D.Device device script.now.shape refused.1 refused.0
        × (printer.new ≡ printer.old)) }
{
    machine_log::run(alloc, device, script.shape, &script.steps, printer)
}
