// Reads the programs of a script for threads.
ghost use Rattle.std.specs.Prelude.{◌≡◌, ◌⊎◌, map, [], ◌∷◌, IfOk, IfErr, Some, None};
ghost use Rattle.std.specs.Result.{result_ok};
ghost use Rattle.serde_json.specs.View.{view};
ghost use Rattle.scripts.specs.Arguments.{all_of};
ghost use Rattle.scripts.specs.Threads.{await_of, commanded_of, command_named, items_command, command_of, program_of, programs_of};
ghost use Rattle.scripts.specs.ScriptFault.{IsMemory};

use crate::act::act;
use crate::argument::{byte, long};
use crate::form::Form;
use crate::items::{Item, read_items};
use crate::member::list;
use crate::script_fault::{ScriptFault, StepFault};
use machine::Act;
use serde_json::Value;
use std::alloc::{AllocError, Allocator, Global};

/// A command of a thread's program.
#[derive(Clone, Copy)]
pub enum Command {
    /// An act, with the further acts that it needs until it is done: a load, a store, a switch, a map, or the start of
    /// a change.
    Do(Act),
    /// Loads the byte at an address again and again until it has this value.
    Await { va: u64, byte: u8 },
}

/// Reads the programs of a script for threads.
pub fn programs_member<A: Allocator + Copy>(
    global: Global,
    alloc: A,
    value: &Value,
) -> Result<Vec<Vec<Command, A>, A>, ScriptFault>
    ensures ok { IfOk result (λ programs. programs_of (view value.now)
        ≡ Some (map (λ program. program.items) programs.items)) }
    ensures err { IfErr result (λ fault. IsMemory fault ⊎ (programs_of (view value.now) ≡ None)) }
{
    programs(global, alloc, list(Form::ThreadScript, value, "programs")?)
}

// Reads all programs of a list, in order. A fault contains the number of the first refused program, counted from 1.
#[tactic(auto, using(crate::proofs::AllOf::all_of_next, crate::proofs::AllOf::all_of_fails))]
fn programs<A: Allocator + Copy>(
    global: Global,
    alloc: A,
    values: &[Value],
) -> Result<Vec<Vec<Command, A>, A>, ScriptFault>
    ensures ok { IfOk result (λ programs. all_of program_of (map view values.now)
        ≡ Some (map (λ program. program.items) programs.items)) }
    ensures err { IfErr result (λ fault. IsMemory fault ⊎ (all_of program_of (map view values.now) ≡ None)) }
{
    let mut programs = Vec::with_capacity(alloc, values.len()).map_err(ScriptFault::Memory)?;
    for (i, value) in values.iter().enumerate() {
        let program = program(global, alloc, i as u64 + 1, value)?;
        if programs.push(program).is_err() {
            return Err(ScriptFault::Memory(AllocError));
        }
    }
    Ok(programs)
}

// Reads the program with this number. A fault contains the number of the first refused command, counted from 1.
#[tactic(auto, using(crate::proofs::AllOf::list_of_items))]
fn program<A: Allocator + Copy>(
    global: Global,
    alloc: A,
    program: u64,
    value: &Value,
) -> Result<Vec<Command, A>, ScriptFault>
    ensures ok { IfOk result (λ commands. program_of (view value.now) ≡ Some commands.items) }
    ensures err { IfErr result (λ fault. IsMemory fault ⊎ (program_of (view value.now) ≡ None)) }
{
    let items = value.as_array().ok_or(ScriptFault::Program(program))?;
    match read_items(global, alloc, items) {
        Ok(commands) => Ok(commands),
        Err(
            ScriptFault::Step {
                number,
                found,
                cause,
            },
        ) => Err(ScriptFault::Command {
            program,
            number,
            found,
            cause,
        }),
        Err(fault) => Err(fault),
    }
}

impl Item for Command {
    ghost use Rattle.scripts.specs.Threads.{command_of};

    ghost item_of = { command_of };

    #[tactic(auto, using(crate::proofs::AllOf::list_of_items))]
    fn read(value: &Value) -> Result<Self, StepFault> {
        match value.as_array() {
            Some(items) => command_from(items),
            None => Err(StepFault::CommandForm),
        }
    }
}

fn command_from(items: &[Value]) -> Result<Command, StepFault>
    ensures { result_ok result ≡ items_command (map view items.now) }
{
    let [name, arguments @ ..] = items else {
        return Err(StepFault::CommandForm);
    };
    let name = name.as_str().ok_or(StepFault::CommandForm)?;
    named_command(name, arguments)
}

fn named_command(name: &str, arguments: &[Value]) -> Result<Command, StepFault>
    ensures { result_ok result ≡ command_named name.now (map view arguments.now) }
{
    if name == "await" {
        return await_command(arguments);
    }
    match commanded(name, arguments) {
        Ok(act) => Ok(Command::Do(act)),
        Err(fault) => Err(fault),
    }
}

fn commanded(name: &str, arguments: &[Value]) -> Result<Act, StepFault>
    ensures { result_ok result ≡ commanded_of name.now (map view arguments.now) }
{
    match name {
        "load" | "store" | "switch" | "map" | "unmap" | "protect" | "reclaim" | "msync" => {
            act(name, arguments)
        }
        _ => Err(StepFault::CommandName),
    }
}

fn await_command(arguments: &[Value]) -> Result<Command, StepFault>
    ensures { result_ok result ≡ await_of (map view arguments.now) }
{
    match arguments {
        [va, byte] => await_from(va, byte),
        _ => Err(StepFault::Arguments {
            act: "await",
            arguments: "an address and a byte",
        }),
    }
}

fn await_from(va: &Value, value: &Value) -> Result<Command, StepFault>
    ensures { result_ok result ≡ await_of (view va.now ∷ view value.now ∷ []) }
{
    Ok(Command::Await {
        va: long(va, "the address")?,
        byte: byte(value, "the byte")?,
    })
}
