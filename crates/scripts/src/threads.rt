// Scripts for threads: the members of a script, and a program of commands for each processor.
ghost use Rattle.std.specs.Prelude.{◌≡◌, ◌⊎◌, map, true, false, Some, None, IfOk, IfErr, OnOk, IsUtf8, nat_lt};
ghost use Rattle.std.specs.List.{list_all};
ghost use Rattle.serde_json.specs.View.{view};
ghost use Rattle.scripts.specs.Threads.{are_for, thread_script_of, thread_script_in};
ghost use Rattle.scripts.specs.ScriptFault.{IsMemory};

use crate::command::{Command, programs_member};
use crate::form::{Form, judge_form};
use crate::member::{list, parsed, shape, size};
use crate::script_fault::ScriptFault;
use crate::step::read_steps;
use machine::{Shape, Step};
use serde_json::Value;
use std::alloc::{Allocator, Global};
use std::str;

/// A script for threads: a machine's shape, the capacity of the trace, the steps that are made first, and a program for
/// each processor.
#[derive(Drop)]
pub struct ThreadScript<A: Allocator + Copy> {
    pub shape: Shape,
    /// The number of entries for which the trace has room.
    pub trace: u64,
    pub steps: Vec<Step, A>,
    pub programs: Vec<Vec<Command, A>, A>,
}

impl<A: Allocator + Copy> ThreadScript<A> {
    /// Reads a whole script for threads. Fails if it isn't UTF-8 or breaks the grammar, or if memory runs out. There
    /// must be one program for each processor, and each step must name one of these processors.
    pub fn read(global: Global, alloc: A, text: &[u8]) -> Result<Self, ScriptFault>
        ensures ok { IfOk result (λ script. thread_script_in text.now ≡ Some (
          script.shape,
          script.trace,
          script.steps.items,
          map (λ program. program.items) script.programs.items,
        )) }
        ensures err { IfErr result (λ fault. IsMemory fault ⊎ (thread_script_in text.now ≡ None)
            ⊎ ¬ (IsUtf8 text.now)) }
    {
        let text = str::from_utf8(text).map_err(|_| ScriptFault::NotUtf8)?;
        let value = parsed(global, text)?;
        ThreadScript::from_value(global, alloc, &value)
    }

    fn from_value(global: Global, alloc: A, value: &Value) -> Result<Self, ScriptFault>
        ensures ok { IfOk result (λ script. thread_script_of (view value.now) ≡ Some (
          script.shape,
          script.trace,
          script.steps.items,
          map (λ program. program.items) script.programs.items,
        )) }
        ensures err { IfErr result (λ fault. IsMemory fault ⊎ (thread_script_of (view value.now) ≡ None)) }
    {
        let form = Form::ThreadScript;
        judge_form(global, form, value)?;
        let shape = shape(global, form, value)?;
        let trace = size(global, form, value, "trace")?;
        let steps = read_steps(global, alloc, list(form, value, "steps")?)?;
        let programs = programs_member(global, alloc, value)?;
        judge_processors(shape.cpus, &steps, &programs)?;
        Ok(ThreadScript {
            shape,
            trace,
            steps,
            programs,
        })
    }
}

// Checks that there is one program for each processor, and that each step names an existing processor.
fn judge_processors<A: Allocator + Copy>(
    cpus: u64,
    steps: &[Step],
    programs: &[Vec<Command, A>],
) -> Result<(), ScriptFault>
    ensures ok { OnOk result (are_for cpus steps.now (map (λ program. program.items) programs.now) ≡ true) }
    ensures err { IfErr result (λ fault. are_for cpus steps.now (map (λ program. program.items) programs.now)
        ≡ false) }
{
    let found = programs.len() as u64;
    if found != cpus {
        return Err(ScriptFault::Programs { found, cpus });
    }
    judge_steps(cpus, steps)
}

fn judge_steps(cpus: u64, steps: &[Step]) -> Result<(), ScriptFault>
    ensures ok { OnOk result (list_all (λ step. nat_lt step.p cpus) steps.now ≡ true) }
    ensures err { IfErr result (λ fault. list_all (λ step. nat_lt step.p cpus) steps.now ≡ false) }
{
    if are_of(cpus, steps) {
        Ok(())
    } else {
        Err(ScriptFault::Processor {
            number: first_outside(cpus, steps),
            cpus,
        })
    }
}

// Whether each step names one of `cpus` processors.
fn are_of(cpus: u64, steps: &[Step]) -> bool
    ensures { result ≡ list_all (λ step. nat_lt step.p cpus) steps.now }
{
    steps.iter().all(|step| is_of(cpus, step))
}

// Whether a step names one of `cpus` processors.
fn is_of(cpus: u64, step: &Step) -> bool
    ensures { result ≡ nat_lt step.now.p cpus }
{
    u64::from(step.p) < cpus
}

// Returns the number, counted from 1, of the first step whose processor doesn't exist, or 0 if there is no such step.
fn first_outside(cpus: u64, steps: &[Step]) -> u64 {
    let outside = steps.iter().position(|step| !is_of(cpus, step));
    outside.map_or(0, |i| i as u64 + 1)
}
