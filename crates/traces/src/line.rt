// An entry of a trace.
ghost use Rattle.std.specs.Prelude.{◌≡◌, ◌⊎◌, map, Some, None, IfOk, IfErr};
ghost use Rattle.serde_json.specs.Read.{read};
ghost use Rattle.serde_json.specs.View.{view};
ghost use Rattle.traces.specs.Traces.{items_entry, entry_of, entry_line};
ghost use Rattle.traces.specs.Lines.{entry_in};
ghost use Rattle.traces.specs.TraceFault.{IsMemory};

use crate::trace_fault::TraceFault;
use machine::Step;
use scripts::{ScriptFault, parsed, read_step};
use serde_json::Value;
use std::alloc::{AllocError, Global};

/// An entry of a trace: a step, and the text of its reply.
#[derive(Drop)]
pub struct Line {
    pub step: Step,
    pub reply: String,
}

impl Line {
    /// Reads an entry. Any text is accepted as a reply. A fault contains this line number.
    pub fn read(global: Global, number: u64, text: &str) -> Result<Self, TraceFault>
        ensures ok { IfOk result (λ line. entry_line text.now ≡ Some (entry_in line)) }
        ensures err { IfErr result (λ fault. IsMemory fault ⊎ (entry_line text.now ≡ None)) }
    {
        let value = value_of(global, number, text)?;
        Line::from_value(global, number, &value)
    }

    #[tactic(auto, using(scripts::proofs::AllOf::list_of_items))]
    fn from_value(global: Global, number: u64, value: &Value) -> Result<Self, TraceFault>
        ensures ok { IfOk result (λ line. entry_of (view value.now) ≡ Some (entry_in line)) }
        ensures err { IfErr result (λ fault. IsMemory fault ⊎ (entry_of (view value.now) ≡ None)) }
    {
        match value.as_array() {
            Some(items) => Line::from_items(global, number, items),
            None => Err(TraceFault::Form { line: number }),
        }
    }

    fn from_items(global: Global, number: u64, items: &[Value]) -> Result<Self, TraceFault>
        ensures ok { IfOk result (λ line. items_entry (map view items.now) ≡ Some (entry_in line)) }
        ensures err { IfErr result (λ fault. IsMemory fault ⊎ (items_entry (map view items.now) ≡ None)) }
    {
        let [step, reply] = items else {
            return Err(TraceFault::Form { line: number });
        };
        let step = match read_step(step) {
            Ok(step) => step,
            Err(cause) => return Err(TraceFault::Step {
                line: number,
                cause,
            }),
        };
        let reply = reply.as_str().ok_or(TraceFault::Form { line: number })?;
        match String::from_str(global, reply) {
            Ok(reply) => Ok(Line { step, reply }),
            Err(cause) => Err(TraceFault::Memory(cause)),
        }
    }
}

// Returns the JSON value of a line's text.
fn value_of(global: Global, line: u64, text: &str) -> Result<Value, TraceFault>
    ensures ok { IfOk result (λ value. read text.now ≡ Some (view value)) }
    ensures err { IfErr result (λ fault. IsMemory fault ⊎ (read text.now ≡ None)) }
{
    match parsed(global, text) {
        Ok(value) => Ok(value),
        Err(ScriptFault::NotJson(cause)) => Err(TraceFault::NotJson { line, cause }),
        Err(_) => Err(TraceFault::Memory(AllocError)),
    }
}
