// Writing a trace, line by line.
ghost use Rattle.std.specs.Prelude.{◌≡◌, ◌≤◌, Some, IfOk, string_bytes};
ghost use Rattle.serde_json.specs.Data.{depth};
ghost use Rattle.serde_json.specs.Written.{compact_text};
ghost use Rattle.serde_json.specs.View.{view};
ghost use Rattle.machine.specs.Words.{reply_text};
ghost use Rattle.traces.specs.Traces.{entry_line, entry_of, shape_line, shape_data};

use crate::act::step_value;
use machine::{Reply, Shape, Step};
use serde_json::{Value, json};
use std::alloc::{AllocError, Global};

/// Returns the first line of a trace, without its newline: an object with the shape and the room. Its members are in
/// the order of their names. It reads back to the shape and the room. Fails if memory is refused.
pub fn write_shape(global: Global, shape: Shape, room: u64) -> Result<String, AllocError>
    ensures text { IfOk result (λ text. string_bytes text ≡ compact_text (shape_data shape room)) }
    ensures reads_back { IfOk result (λ text. shape_line (string_bytes text) ≡ Some (shape, room)) }
{
    shape_value(global, shape, room)?.to_string(global)
}

fn shape_value(global: Global, shape: Shape, room: u64) -> Result<Value, AllocError>
    ensures { IfOk result (λ value. view value ≡ shape_data shape room) }
{
    let Shape {
        cpus,
        tlb,
        frames,
        copies,
    } = shape;
    json!(in global; {"copies": copies, "cpus": cpus, "frames": frames, "tlb": tlb, "trace": room})
}

/// Returns the line of an entry, without its newline: a list of the step, as in a script, and the text of its reply. It
/// reads back to them. Fails if memory is refused.
pub fn write_entry(global: Global, step: &Step, reply: &Reply) -> Result<String, AllocError>
    ensures reads_back { IfOk result (λ text. entry_line (string_bytes text)
        ≡ Some (step.now, reply_text reply.now)) }
{
    entry_value(global, step, reply)?.to_string(global)
}

fn entry_value(global: Global, step: &Step, reply: &Reply) -> Result<Value, AllocError>
    ensures same { IfOk result (λ value. entry_of (view value) ≡ Some (step.now, reply_text reply.now)) }
    ensures flat { IfOk result (λ value. depth (view value) ≤ 3) }
{
    let step = step_value(global, step)?;
    let reply = format!(in global; "{reply}")?;
    json!(in global; [step, reply])
}
