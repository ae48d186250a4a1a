// The list in which a step is written: its processor, its name, and numbers and words.
ghost use Rattle.std.specs.Prelude.{◌≡◌, [], ◌∷◌, map, IfOk};
ghost use Rattle.serde_json.specs.Data.{string};
ghost use Rattle.serde_json.specs.View.{view};
ghost use Rattle.traces.specs.inside.Words.{data_of};
ghost use Rattle.traces.specs.inside.Written.{num, list};

use serde_json::Value;
use std::alloc::{AllocError, Global};

/// An argument of a step: a number of 8, 16, 32 or 64 bits, or a word.
#[derive(Clone, Copy)]
pub enum Word<'a> {
    Byte(u8),
    Short(u16),
    Page(u32),
    Long(u64),
    Text(&'a str),
}

/// Returns the list of a processor, a name and these arguments. Fails if memory is refused.
pub fn list_value(
    global: Global,
    p: u8,
    name: &str,
    words: &[Word<'_>],
) -> Result<Value, AllocError>
    ensures { IfOk result (λ value. view value ≡ list (num p ∷ string name.now ∷ map data_of words.now)) }
{
    match items(global, p, name, words) {
        Ok(items) => Ok(Value::Array(items)),
        Err(fault) => Err(fault),
    }
}

#[tactic(auto, using(crate::proofs::Items::items_next))]
fn items(global: Global, p: u8, name: &str, words: &[Word<'_>]) -> Result<Vec<Value>, AllocError>
    ensures { IfOk result (λ items. map view items.items ≡ num p ∷ string name.now ∷ map data_of words.now) }
{
    let mut items = first_items(global, p, name)?;
    for (i, word) in words.iter().enumerate() {
        let item = word_value(global, word)?;
        items.push(item)?;
    }
    Ok(items)
}

fn first_items(global: Global, p: u8, name: &str) -> Result<Vec<Value>, AllocError>
    ensures { IfOk result (λ items. map view items.items ≡ num p ∷ string name.now ∷ []) }
{
    let name = text_value(global, name)?;
    let mut items = Vec::with_capacity(global, 2)?;
    items.push(Value::from(p))?;
    items.push(name)?;
    Ok(items)
}

fn word_value(global: Global, word: &Word<'_>) -> Result<Value, AllocError>
    ensures { IfOk result (λ value. view value ≡ data_of word.now) }
{
    match word {
        Word::Byte(number) => Ok(Value::from(*number)),
        Word::Short(number) => Ok(Value::from(*number)),
        Word::Page(number) => Ok(Value::from(*number)),
        Word::Long(number) => Ok(Value::from(*number)),
        Word::Text(text) => text_value(global, text),
    }
}

fn text_value(global: Global, text: &str) -> Result<Value, AllocError>
    ensures { IfOk result (λ value. view value ≡ string text.now) }
{
    match String::from_str(global, text) {
        Ok(text) => Ok(Value::String(text)),
        Err(fault) => Err(fault),
    }
}
