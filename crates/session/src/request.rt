// Requests, and how they are read.
ghost use Rattle.std.specs.Prelude.{◌≡◌, ◌⊎◌, map, Some, None, IfOk, IfErr, IsUtf8};
ghost use Rattle.std.specs.Result.{result_ok};
ghost use Rattle.serde_json.specs.Find.{as_str};
ghost use Rattle.serde_json.specs.View.{view};
ghost use Rattle.scripts.specs.Arguments.{byte_of};
ghost use Rattle.session.specs.Asked.{asked, IsMemory};
ghost use Rattle.session.specs.Causes.{IsFaultOf};
ghost use Rattle.session.specs.inside.Faults.{IsFaultIn, IsFaultInside};
ghost use Rattle.scripts.specs.ScriptFault.{IsMemory as IsNoMemory};
ghost use Rattle.session.specs.Requests.{shape_in, request_in, request_of, items_request, steps_together, step_alone, named_request};
ghost use Rattle.session.specs.Requests.{with_two, load_of, store_of, commit_of, set_length_of, bytes_in_digits, digits_of};

use crate::request_fault::RequestFault;
use hex::FromHexError;
use machine::{Shape, Step};
use page_entry::ProcessorNumber;
use scripts::{
    Form, ScriptFault, StepFault, byte, judge_form, long, number, parsed, read_step, read_steps,
    shape, short,
};
use serde_json::Value;
use std::alloc::{AllocError, Allocator, Global};
use std::str;

/// The largest number of bytes that one request loads or stores.
pub const MOST_BYTES: u64 = 65_536;

/// A request.
#[derive(Drop)]
pub enum Request<A: Allocator + Copy> {
    /// Makes these steps in order.
    Steps(Vec<Step, A>),
    /// Loads this number of bytes from an address on.
    Load {
        p: ProcessorNumber,
        va: u64,
        count: u64,
    },
    /// Stores bytes from an address on.
    Store {
        p: ProcessorNumber,
        va: u64,
        bytes: Vec<u8, A>,
    },
    /// Commits all stores.
    Commit {
        p: ProcessorNumber,
    },
    /// Sets the length of a file.
    SetLength {
        p: ProcessorNumber,
        file: u16,
        length: u64,
    },
}

/// Returns the shape in the first line of a session. Fails if the line isn't UTF-8 or contains no shape, or if memory
/// is refused.
pub fn read_shape(global: Global, line: &[u8]) -> Result<Shape, ScriptFault>
    ensures ok { IfOk result (λ shape. shape_in line.now ≡ Some shape) }
    ensures err { IfErr result (λ fault. IsNoMemory fault ⊎ (shape_in line.now ≡ None) ⊎ ¬ (IsUtf8 line.now)) }
{
    let text = str::from_utf8(line).map_err(|_| ScriptFault::NotUtf8)?;
    let value = parsed(global, text)?;
    judge_form(global, Form::Session, &value)?;
    shape(global, Form::Session, &value)
}

/// Returns the request in a line. Fails with the reason if the line isn't UTF-8 or contains no request, or if memory is
/// refused.
pub fn read_request<A: Allocator + Copy>(
    global: Global,
    alloc: A,
    line: &[u8],
) -> Result<Request<A>, RequestFault>
    ensures ok { IfOk result (λ request. request_in line.now ≡ Some (asked request)) }
    ensures err { IfErr result (λ fault. IsMemory fault ⊎ (request_in line.now ≡ None) ⊎ ¬ (IsUtf8 line.now)) }
    ensures why { IfErr result (λ fault. IsMemory fault ⊎ IsFaultOf fault line.now) }
{
    let text = match str::from_utf8(line) {
        Ok(text) => text,
        Err(_) => return Err(RequestFault::NotUtf8),
    };
    match parsed(global, text) {
        Ok(value) => request_of(global, alloc, &value),
        Err(ScriptFault::NotJson(cause)) => Err(RequestFault::NotJson(cause)),
        Err(_) => Err(RequestFault::Memory(AllocError)),
    }
}

#[tactic(auto, using(scripts::proofs::AllOf::list_of_items))]
fn request_of<A: Allocator + Copy>(
    global: Global,
    alloc: A,
    value: &Value,
) -> Result<Request<A>, RequestFault>
    ensures ok { IfOk result (λ request. request_of (view value.now) ≡ Some (asked request)) }
    ensures err { IfErr result (λ fault. IsMemory fault ⊎ (request_of (view value.now) ≡ None)) }
    ensures why { IfErr result (λ fault. IsFaultIn fault (view value.now)) }
{
    match value.as_array() {
        Some(items) => items_request(global, alloc, value, items),
        None => Err(RequestFault::NotAList),
    }
}

// Returns the request in a value that is a list of these items.
fn items_request<A: Allocator + Copy>(
    global: Global,
    alloc: A,
    value: &Value,
    items: &[Value],
) -> Result<Request<A>, RequestFault>
    ensures ok { IfOk result (λ request. items_request (view value.now) (map view items.now)
        ≡ Some (asked request)) }
    ensures err { IfErr result (λ fault. IsMemory fault
        ⊎ (items_request (view value.now) (map view items.now) ≡ None)) }
    ensures why { IfErr result (λ fault. IsFaultInside fault) }
{
    match items {
        [] => Err(RequestFault::Empty),
        [first, ..] if first.is_array() => steps_together(global, alloc, items),
        [p, name, arguments @ ..] => named(alloc, value, p, name, arguments),
        _ => step_alone(alloc, value),
    }
}

// Returns all steps of a list, in order. A fault contains the number of the first refused step, counted from 1.
fn steps_together<A: Allocator + Copy>(
    global: Global,
    alloc: A,
    items: &[Value],
) -> Result<Request<A>, RequestFault>
    ensures ok { IfOk result (λ request. steps_together (map view items.now) ≡ Some (asked request)) }
    ensures err { IfErr result (λ fault. IsMemory fault ⊎ (steps_together (map view items.now) ≡ None)) }
    ensures why { IfErr result (λ fault. IsFaultInside fault) }
{
    match read_steps(global, alloc, items) {
        Ok(steps) => Ok(Request::Steps(steps)),
        Err(
            ScriptFault::Step {
                number,
                found,
                cause,
            },
        ) => Err(RequestFault::Steps {
            number,
            found,
            cause,
        }),
        Err(_) => Err(RequestFault::Memory(AllocError)),
    }
}

// Returns the request with this processor, name and arguments, which are the items of `value`: a range, a commit, a
// length, or else a step.
fn named<A: Allocator + Copy>(
    alloc: A,
    value: &Value,
    p: &Value,
    name: &Value,
    arguments: &[Value],
) -> Result<Request<A>, RequestFault>
    ensures ok { IfOk result (λ request. named_request (view value.now) (as_str (view name.now)) (view p.now)
        (map view arguments.now) ≡ Some (asked request)) }
    ensures err { IfErr result (λ fault. IsMemory fault ⊎ (named_request (view value.now) (as_str (view name.now))
        (view p.now) (map view arguments.now) ≡ None)) }
    ensures why { IfErr result (λ fault. IsFaultInside fault) }
{
    match name.as_str() {
        Some("loads") => load_of(p, arguments).map_err(RequestFault::Step),
        Some("stores") => store_of(alloc, p, arguments),
        Some("commit") => commit_of(p, arguments).map_err(RequestFault::Step),
        Some("setlength") => set_length_of(p, arguments).map_err(RequestFault::Step),
        _ => step_alone(alloc, value),
    }
}

fn step_alone<A: Allocator + Copy>(alloc: A, value: &Value) -> Result<Request<A>, RequestFault>
    ensures ok { IfOk result (λ request. step_alone (view value.now) ≡ Some (asked request)) }
    ensures err { IfErr result (λ fault. IsMemory fault ⊎ (step_alone (view value.now) ≡ None)) }
    ensures why { IfErr result (λ fault. IsFaultInside fault) }
{
    let step = match read_step(value) {
        Ok(step) => step,
        Err(cause) => return Err(RequestFault::Step(cause)),
    };
    let mut steps = Vec::new(alloc);
    if steps.push(step).is_err() {
        return Err(RequestFault::Memory(AllocError));
    }
    Ok(Request::Steps(steps))
}

fn load_of<A: Allocator + Copy>(p: &Value, arguments: &[Value]) -> Result<Request<A>, StepFault>
    ensures ok { IfOk result (λ request. load_of (view p.now) (map view arguments.now) ≡ Some (asked request)) }
    ensures err { IfErr result (λ fault. load_of (view p.now) (map view arguments.now) ≡ None) }
{
    let (p, va, count) = with_two(p, arguments, "loads", "an address and a count")?;
    let va = long(va, "the address")?;
    let count = number(count, MOST_BYTES, "the count")?;
    Ok(Request::Load { p, va, count })
}

fn store_of<A: Allocator + Copy>(
    alloc: A,
    p: &Value,
    arguments: &[Value],
) -> Result<Request<A>, RequestFault>
    ensures ok { IfOk result (λ request. store_of (view p.now) (map view arguments.now) ≡ Some (asked request)) }
    ensures err { IfErr result (λ fault. IsMemory fault ⊎ (store_of (view p.now) (map view arguments.now) ≡ None)) }
    ensures why { IfErr result (λ fault. IsFaultInside fault) }
{
    let wanted = "an address and a string of hexadecimal digits";
    let (p, va, digits) = with_two(p, arguments, "stores", wanted).map_err(RequestFault::Step)?;
    let va = long(va, "the address").map_err(RequestFault::Step)?;
    let bytes = bytes_of(alloc, digits)?;
    Ok(Request::Store { p, va, bytes })
}

fn commit_of<A: Allocator + Copy>(p: &Value, arguments: &[Value]) -> Result<Request<A>, StepFault>
    ensures ok { IfOk result (λ request. commit_of (view p.now) (map view arguments.now) ≡ Some (asked request)) }
    ensures err { IfErr result (λ fault. commit_of (view p.now) (map view arguments.now) ≡ None) }
{
    match arguments {
        [] => Ok(Request::Commit { p: processor(p)? }),
        _ => Err(wrong_arguments("commit", "none")),
    }
}

fn set_length_of<A: Allocator + Copy>(
    p: &Value,
    arguments: &[Value],
) -> Result<Request<A>, StepFault>
    ensures ok { IfOk result (λ request. set_length_of (view p.now) (map view arguments.now) ≡ Some (asked request)) }
    ensures err { IfErr result (λ fault. set_length_of (view p.now) (map view arguments.now) ≡ None) }
{
    let (p, file, length) = with_two(p, arguments, "setlength", "a file and a length")?;
    let file = short(file, "the file")?;
    let length = long(length, "the length")?;
    Ok(Request::SetLength { p, file, length })
}

// Returns the processor and both arguments of a request that has two. A fault names the wanted arguments.
fn with_two<'a>(
    p: &Value,
    arguments: &'a [Value],
    name: &'static str,
    wanted: &'static str,
) -> Result<(ProcessorNumber, &'a Value, &'a Value), StepFault>
    ensures ok { IfOk result (λ taken. (what : _) → with_two what (view p.now) (map view arguments.now)
        ≡ what taken.0 (view taken.1.now) (view taken.2.now)) }
    ensures err { IfErr result (λ fault. (what : _) → with_two what (view p.now) (map view arguments.now)
        ≡ None) }
{
    match arguments {
        [first, second] => Ok((processor(p)?, first, second)),
        _ => Err(wrong_arguments(name, wanted)),
    }
}

fn processor(value: &Value) -> Result<ProcessorNumber, StepFault>
    ensures { result_ok result ≡ byte_of (view value.now) }
{
    byte(value, "the processor")
}

fn wrong_arguments(act: &'static str, arguments: &'static str) -> StepFault {
    StepFault::Arguments { act, arguments }
}

// Returns the bytes in a string of hexadecimal digits.
fn bytes_of<A: Allocator + Copy>(alloc: A, value: &Value) -> Result<Vec<u8, A>, RequestFault>
    ensures ok { IfOk result (λ bytes. bytes_in_digits (view value.now) ≡ Some bytes.items) }
    ensures err { IfErr result (λ fault. IsMemory fault ⊎ (bytes_in_digits (view value.now) ≡ None)) }
    ensures why { IfErr result (λ fault. IsFaultInside fault) }
{
    match value.as_str() {
        Some(digits) => bytes_of_digits(alloc, digits),
        None => Err(RequestFault::Bytes(MOST_BYTES)),
    }
}

fn bytes_of_digits<A: Allocator + Copy>(alloc: A, digits: &str) -> Result<Vec<u8, A>, RequestFault>
    ensures ok { IfOk result (λ bytes. digits_of digits.now ≡ Some bytes.items) }
    ensures err { IfErr result (λ fault. IsMemory fault ⊎ (digits_of digits.now ≡ None)) }
    ensures why { IfErr result (λ fault. IsFaultInside fault) }
{
    if digits.len() as u64 > 2 * MOST_BYTES {
        return Err(RequestFault::Bytes(MOST_BYTES));
    }
    match hex::decode(alloc, digits) {
        Ok(bytes) => Ok(bytes),
        Err(FromHexError::OutOfMemory) => Err(RequestFault::Memory(AllocError)),
        Err(_) => Err(RequestFault::Bytes(MOST_BYTES)),
    }
}
