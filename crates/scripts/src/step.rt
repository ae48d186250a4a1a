// Reads the steps of a script.
ghost use Rattle.std.specs.Prelude.{◌≡◌, map, IfOk, IfErr, ◌⊎◌, Some, None};
ghost use Rattle.std.specs.Result.{result_ok};
ghost use Rattle.serde_json.specs.View.{view};
ghost use Rattle.scripts.specs.Arguments.{all_of};
ghost use Rattle.scripts.specs.Script.{items_step, step_of};
ghost use Rattle.scripts.specs.ScriptFault.{IsMemory};

use crate::act::act;
use crate::argument::byte;
use crate::items::{Item, read_items};
use crate::script_fault::{ScriptFault, StepFault};
use machine::Step;
use serde_json::Value;
use std::alloc::{Allocator, Global};

/// Reads all steps of a list, in order. A fault contains the number of the first refused step, counted from 1.
pub fn read_steps<A: Allocator + Copy>(
    global: Global,
    alloc: A,
    values: &[Value],
) -> Result<Vec<Step, A>, ScriptFault>
    ensures ok { IfOk result (λ steps. all_of step_of (map view values.now) ≡ Some steps.items) }
    ensures err { IfErr result (λ fault. IsMemory fault ⊎ (all_of step_of (map view values.now) ≡ None)) }
{
    read_items(global, alloc, values)
}

impl Item for Step {
    ghost use Rattle.scripts.specs.Script.{step_of};

    ghost item_of = { step_of };

    fn read(value: &Value) -> Result<Self, StepFault> {
        read_step(value)
    }
}

/// Reads a value as a step.
#[tactic(auto, using(crate::proofs::AllOf::list_of_items))]
pub fn read_step(value: &Value) -> Result<Step, StepFault>
    ensures { result_ok result ≡ step_of (view value.now) }
{
    match value.as_array() {
        Some(items) => step_from(items),
        None => Err(StepFault::Form),
    }
}

fn step_from(items: &[Value]) -> Result<Step, StepFault>
    ensures { result_ok result ≡ items_step (map view items.now) }
{
    let [processor, name, arguments @ ..] = items else {
        return Err(StepFault::Form);
    };
    let p = byte(processor, "the processor")?;
    let name = name.as_str().ok_or(StepFault::Form)?;
    match act(name, arguments) {
        Ok(act) => Ok(Step { p, act }),
        Err(fault) => Err(fault),
    }
}
