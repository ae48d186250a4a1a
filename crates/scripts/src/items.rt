// Reads lists, item by item.
ghost use Rattle.std.specs.Prelude.{◌≡◌, ◌⊎◌, map, IfOk, IfErr, Some, None};
ghost use Rattle.std.specs.Result.{result_ok};
ghost use Rattle.serde_json.specs.View.{view};
ghost use Rattle.scripts.specs.Arguments.{all_of};
ghost use Rattle.scripts.specs.ScriptFault.{IsMemory};

use crate::member::shown;
use crate::script_fault::{ScriptFault, StepFault};
use serde_json::Value;
use std::alloc::{AllocError, Allocator, Global};

/// An item of a list: a step, or a command of a program.
pub trait Item: Copy {
    ghost use Rattle.std.specs.Prelude.{Option};
    ghost use Rattle.serde_json.specs.Data.{Data};

    /// The item that a value represents, if it is one.
    ghost item_of: { Data → Option Self };

    fn read(value: &Value) -> Result<Self, StepFault>
        ensures { result_ok result ≡ item_of (view value.now) };
}

/// Reads all items of a list, in order. A fault contains the number of the first refused item, counted from 1, as that
/// of a step.
#[tactic(auto, using(crate::proofs::AllOf::all_of_next, crate::proofs::AllOf::all_of_fails))]
pub fn read_items<T: Item, A: Allocator + Copy>(
    global: Global,
    alloc: A,
    values: &[Value],
) -> Result<Vec<T, A>, ScriptFault>
    ensures ok { IfOk result (λ items. all_of T.item_of (map view values.now) ≡ Some items.items) }
    ensures err { IfErr result (λ fault. IsMemory fault ⊎ (all_of T.item_of (map view values.now) ≡ None)) }
{
    let mut items = Vec::with_capacity(alloc, values.len()).map_err(ScriptFault::Memory)?;
    for (i, value) in values.iter().enumerate() {
        let item = match T::read(value) {
            Ok(item) => item,
            Err(cause) => return Err(refused(global, i as u64 + 1, value, cause)),
        };
        if items.push(item).is_err() {
            return Err(ScriptFault::Memory(AllocError));
        }
    }
    Ok(items)
}

// Returns the fault of a refused step. It contains the step's number and its text in the script.
fn refused(global: Global, number: u64, value: &Value, cause: StepFault) -> ScriptFault {
    match shown(global, value) {
        Ok(found) => ScriptFault::Step {
            number,
            found,
            cause,
        },
        Err(fault) => ScriptFault::Memory(fault),
    }
}
