// Scripts: a machine's shape, and the steps to make on it, as one JSON object.
ghost use Rattle.std.specs.Prelude.{◌≡◌, ◌⊎◌, Some, None, IfOk, IfErr, IsUtf8};
ghost use Rattle.scripts.specs.Script.{script_of, script_in};
ghost use Rattle.scripts.specs.ScriptFault.{IsMemory};
ghost use Rattle.serde_json.specs.View.{view};

use crate::form::{Form, judge_form};
use crate::member::{list, parsed, shape};
use crate::script_fault::ScriptFault;
use crate::step::read_steps;
use machine::{Shape, Step};
use serde_json::Value;
use std::alloc::{Allocator, Global};
use std::str;

/// A script: a machine's shape, and the steps to make on it.
#[derive(Drop)]
pub struct Script<A: Allocator + Copy> {
    pub shape: Shape,
    pub steps: Vec<Step, A>,
}

impl<A: Allocator + Copy> Script<A> {
    /// Reads a whole script. Fails if it isn't UTF-8 or breaks the grammar, or if memory runs out.
    pub fn read(global: Global, alloc: A, text: &[u8]) -> Result<Self, ScriptFault>
        ensures ok { IfOk result (λ script. script_in text.now ≡ Some (script.shape, script.steps.items)) }
        ensures err { IfErr result (λ fault. IsMemory fault ⊎ (script_in text.now ≡ None) ⊎ ¬ (IsUtf8 text.now)) }
    {
        let text = str::from_utf8(text).map_err(|_| ScriptFault::NotUtf8)?;
        let value = parsed(global, text)?;
        Script::from_value(global, alloc, &value)
    }

    fn from_value(global: Global, alloc: A, value: &Value) -> Result<Self, ScriptFault>
        ensures ok { IfOk result (λ script. script_of (view value.now) ≡ Some (script.shape, script.steps.items)) }
        ensures err { IfErr result (λ fault. IsMemory fault ⊎ (script_of (view value.now) ≡ None)) }
    {
        judge_form(global, Form::Script, value)?;
        Ok(Script {
            shape: shape(global, Form::Script, value)?,
            steps: read_steps(global, alloc, list(Form::Script, value, "steps")?)?,
        })
    }
}
