// The members of a script, of a script for threads, and of the first lines of a trace and of a session.
ghost use Rattle.std.specs.Prelude.{◌≡◌, ◌⊎◌, true, false, not, find, string_bytes, IfErr, OnOk, IsSome, None, option_map};
ghost use Rattle.std.specs.BTreeMap.{keys};
ghost use Rattle.serde_json.specs.View.{view, members_view};
ghost use Rattle.scripts.specs.Forms.{is_member, unknown_of, has_form};
ghost use Rattle.scripts.specs.ScriptFault.{IsMemory};

use crate::script_fault::ScriptFault;
use serde_json::{Map, Value};
use std::alloc::Global;
use std::fmt;

/// The kind of an object, which determines its members.
#[derive(Clone, Copy)]
pub enum Form {
    /// A script of steps.
    Script,
    /// A script with a program for each processor.
    ThreadScript,
    /// The first line of a trace.
    Trace,
    /// The first line of a session.
    Session,
}

impl Form {
    fn has(self, name: &str) -> bool
        ensures { result ≡ is_member self name.now }
    {
        match self {
            Form::Script => matches!(name, "cpus" | "tlb" | "frames" | "copies" | "steps"),
            Form::ThreadScript => matches!(
                name,
                "cpus" | "tlb" | "frames" | "copies" | "trace" | "steps" | "programs"
            ),
            Form::Trace => matches!(name, "cpus" | "tlb" | "frames" | "copies" | "trace"),
            Form::Session => matches!(name, "cpus" | "tlb" | "frames" | "copies"),
        }
    }
}

impl fmt::Display for Form {
    fn fmt<W: fmt::Write>(&self, f: &mut fmt::Formatter<W>) -> fmt::Result {
        f.write_str(match self {
            Form::Script => "cpus, tlb, frames, copies and steps",
            Form::ThreadScript => "cpus, tlb, frames, copies, trace, steps and programs",
            Form::Trace => "cpus, tlb, frames, copies and trace",
            Form::Session => "cpus, tlb, frames and copies",
        })
    }
}

/// Checks that a value is an object with no other members than those of a form.
pub fn judge_form(global: Global, form: Form, value: &Value) -> Result<(), ScriptFault>
    ensures ok { OnOk result (has_form form (view value.now) ≡ true) }
    ensures err { IfErr result (λ fault. IsMemory fault ⊎ (has_form form (view value.now) ≡ false)) }
{
    match value.as_object() {
        Some(members) => only_members(global, form, members),
        None => Err(ScriptFault::NotAnObject),
    }
}

#[tactic(auto, using(crate::proofs::Names::unknown_in_entries))]
fn only_members(global: Global, form: Form, members: &Map<String, Value>) -> Result<(), ScriptFault>
    ensures ok { OnOk result (unknown_of form (members_view members.now.entries) ≡ None) }
    ensures err { IfErr result (λ fault. IsMemory fault
        ⊎ IsSome (unknown_of form (members_view members.now.entries))) }
{
    match unknown_name(form, members) {
        Some(name) => Err(unknown_member(global, form, name.as_str())),
        None => Ok(()),
    }
}

// Returns the first name that isn't among the form's members.
fn unknown_name(form: Form, members: &Map<String, Value>) -> Option<&String>
    ensures { option_map (λ name. name.now) result
        ≡ find (λ name. not (is_member form (string_bytes name))) (keys members.now) }
{
    members.keys().find(|name| !form.has(name.as_str()))
}

fn unknown_member(global: Global, form: Form, name: &str) -> ScriptFault {
    match String::from_str(global, name) {
        Ok(name) => ScriptFault::Unknown { name, form },
        Err(fault) => ScriptFault::Memory(fault),
    }
}
