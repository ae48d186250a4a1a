// Parses a text, and reads the members of an object.
ghost use Rattle.std.specs.Prelude.{◌≡◌, ◌⊎◌, map, IfOk, IfErr, Some, None, option_map};
ghost use Rattle.serde_json.specs.Find.{get, as_array};
ghost use Rattle.serde_json.specs.Read.{read};
ghost use Rattle.serde_json.specs.View.{view};
ghost use Rattle.scripts.specs.Arguments.{if_some, list_of};
ghost use Rattle.scripts.specs.Script.{size_of, shape_of};
ghost use Rattle.scripts.specs.ScriptFault.{IsMemory};

use crate::argument::long;
use crate::form::Form;
use crate::script_fault::ScriptFault;
use machine::Shape;
use serde_json::{Category, Value};
use std::alloc::{AllocError, Global};

/// Parses a text as JSON.
pub fn parsed(global: Global, text: &str) -> Result<Value, ScriptFault>
    ensures ok { IfOk result (λ value. read text.now ≡ Some (view value)) }
    ensures err { IfErr result (λ fault. IsMemory fault ⊎ (read text.now ≡ None)) }
{
    match Value::from_str(global, text) {
        Ok(value) => Ok(value),
        Err(error) => match error.classify() {
            Category::Memory => Err(ScriptFault::Memory(AllocError)),
            _ => Err(ScriptFault::NotJson(error)),
        },
    }
}

/// Reads the shape of a machine from an object of this form.
pub fn shape(global: Global, form: Form, value: &Value) -> Result<Shape, ScriptFault>
    ensures ok { IfOk result (λ shape. shape_of (view value.now) ≡ Some shape) }
    ensures err { IfErr result (λ fault. IsMemory fault ⊎ (shape_of (view value.now) ≡ None)) }
{
    Ok(Shape {
        cpus: size(global, form, value, "cpus")?,
        tlb: size(global, form, value, "tlb")?,
        frames: size(global, form, value, "frames")?,
        copies: size(global, form, value, "copies")?,
    })
}

/// Reads a member that is a number, in an object of this form.
pub fn size(
    global: Global,
    form: Form,
    value: &Value,
    name: &'static str,
) -> Result<u64, ScriptFault>
    ensures ok { IfOk result (λ size. size_of name.entry.now (view value.now) ≡ Some size) }
    ensures err { IfErr result (λ fault. IsMemory fault ⊎ (size_of name.entry.now (view value.now) ≡ None)) }
{
    let member = value.get(name).ok_or(ScriptFault::Missing { name, form })?;
    match long(member, name) {
        Ok(number) => Ok(number),
        Err(_) => Err(no_number(global, name, member)),
    }
}

fn no_number(global: Global, name: &'static str, member: &Value) -> ScriptFault {
    match shown(global, member) {
        Ok(found) => ScriptFault::Number { name, found },
        Err(fault) => ScriptFault::Memory(fault),
    }
}

/// Returns the items of a member that is a list, in an object of this form.
#[tactic(auto, using(crate::proofs::AllOf::list_of_items))]
pub fn list<'a>(
    form: Form,
    value: &'a Value,
    name: &'static str,
) -> Result<&'a [Value], ScriptFault>
    ensures ok { IfOk result (λ items. option_map list_of (if_some (get name.entry.now (view value.now)) as_array)
        ≡ Some (map view items.now)) }
    ensures err { IfErr result (λ fault. IsMemory fault
        ⊎ (if_some (get name.entry.now (view value.now)) as_array ≡ None)) }
{
    let member = value.get(name).ok_or(ScriptFault::Missing { name, form })?;
    match member.as_array() {
        Some(items) => Ok(items),
        None => Err(ScriptFault::NotAList(name)),
    }
}

/// Returns the text of a value on one line. After 60 characters it is cut, and ends with `...`.
pub fn shown(global: Global, value: &Value) -> Result<String, AllocError> {
    let whole = value.to_string(global)?;
    let mut text = String::new(global);
    for (i, letter) in whole.as_str().chars().enumerate() {
        if i == 60 {
            text.push_str("...")?;
            break;
        }
        text.push(letter)?;
    }
    Ok(text)
}
