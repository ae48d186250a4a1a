// A trace: the shape of a machine, the room of the trace, and its entries.
ghost use Rattle.std.specs.Prelude.{◌≡◌, ◌⊎◌, map, Some, None, IfOk, IfErr, IsUtf8};
ghost use Rattle.std.specs.Str.Lines.{lines};
ghost use Rattle.scripts.specs.Arguments.{all_of};
ghost use Rattle.serde_json.specs.View.{view};
ghost use Rattle.traces.specs.Traces.{entry_line, shape_line, shape_line_of, trace_in, trace_of_lines};
ghost use Rattle.traces.specs.Lines.{entry_in};
ghost use Rattle.traces.specs.TraceFault.{IsMemory};
ghost use Rattle.scripts.specs.ScriptFault.{IsMemory as IsScriptMemory};

use crate::line::Line;
use crate::trace_fault::TraceFault;
use machine::Shape;
use scripts::{Form, ScriptFault, judge_form, parsed, shape, size};
use serde_json::Value;
use std::alloc::{AllocError, Allocator, Global};
use std::str;

/// A trace: the shape of a machine, the number of entries for which there was room, and the entries.
#[derive(Drop)]
pub struct Trace<A: Allocator + Copy> {
    pub shape: Shape,
    /// The number of entries for which the trace had room. It may contain more, and any number is allowed here.
    pub room: u64,
    pub entries: Vec<Line, A>,
}

impl<A: Allocator + Copy> Trace<A> {
    /// Reads a whole trace. Fails if it isn't UTF-8 or isn't a trace, or if memory is refused.
    pub fn read(global: Global, alloc: A, text: &[u8]) -> Result<Self, TraceFault>
        ensures ok { IfOk result (λ trace. trace_in text.now
            ≡ Some (trace.shape, trace.room, map entry_in trace.entries.items)) }
        ensures err { IfErr result (λ fault. IsMemory fault ⊎ (trace_in text.now ≡ None) ⊎ ¬ (IsUtf8 text.now)) }
    {
        let text = str::from_utf8(text).map_err(|_| TraceFault::NotUtf8)?;
        let lines = all_lines(alloc, text).map_err(TraceFault::Memory)?;
        Trace::from_lines(global, alloc, &lines)
    }

    fn from_lines(global: Global, alloc: A, lines: &[&str]) -> Result<Self, TraceFault>
        ensures ok { IfOk result (λ trace. trace_of_lines (map (λ line. line.now) lines.now)
            ≡ Some (trace.shape, trace.room, map entry_in trace.entries.items)) }
        ensures err { IfErr result (λ fault. IsMemory fault
            ⊎ (trace_of_lines (map (λ line. line.now) lines.now) ≡ None)) }
    {
        let [first, rest @ ..] = lines else {
            return Err(TraceFault::Empty);
        };
        let (shape, room) = match first_line(global, first) {
            Ok(found) => found,
            Err(cause) => return Err(TraceFault::Shape(cause)),
        };
        Ok(Trace {
            shape,
            room,
            entries: entries(global, alloc, rest)?,
        })
    }
}

fn all_lines<A: Allocator + Copy>(alloc: A, text: &str) -> Result<Vec<&str, A>, AllocError>
    ensures { IfOk result (λ found. map (λ line. line.now) found.items ≡ lines text.now) }
{
    text.lines().collect(alloc)
}

// Returns the shape and the room in the first line.
fn first_line(global: Global, text: &str) -> Result<(Shape, u64), ScriptFault>
    ensures ok { IfOk result (λ found. shape_line text.now ≡ Some found) }
    ensures err { IfErr result (λ fault. IsScriptMemory fault ⊎ (shape_line text.now ≡ None)) }
{
    let value = parsed(global, text)?;
    shape_and_room(global, &value)
}

fn shape_and_room(global: Global, value: &Value) -> Result<(Shape, u64), ScriptFault>
    ensures ok { IfOk result (λ found. shape_line_of (view value.now) ≡ Some found) }
    ensures err { IfErr result (λ fault. IsScriptMemory fault ⊎ (shape_line_of (view value.now) ≡ None)) }
{
    judge_form(global, Form::Trace, value)?;
    let shape = shape(global, Form::Trace, value)?;
    Ok((shape, size(global, Form::Trace, value, "trace")?))
}

// Returns all entries in lines, in order. The first of these lines is line 2 of the trace.
#[tactic(auto, using(scripts::proofs::AllOf::all_of_next, scripts::proofs::AllOf::all_of_fails))]
fn entries<A: Allocator + Copy>(
    global: Global,
    alloc: A,
    lines: &[&str],
) -> Result<Vec<Line, A>, TraceFault>
    ensures ok { IfOk result (λ entries. all_of entry_line (map (λ line. line.now) lines.now)
        ≡ Some (map entry_in entries.items)) }
    ensures err { IfErr result (λ fault. IsMemory fault
        ⊎ (all_of entry_line (map (λ line. line.now) lines.now) ≡ None)) }
{
    let mut entries = Vec::with_capacity(alloc, lines.len()).map_err(TraceFault::Memory)?;
    for (i, line) in lines.iter().enumerate() {
        let entry = match Line::read(global, i as u64 + 2, line) {
            Ok(entry) => entry,
            Err(fault) => return Err(fault),
        };
        if entries.push(entry).is_err() {
            return Err(TraceFault::Memory(AllocError));
        }
    }
    Ok(entries)
}
