// Steps as values, each of which reads back to its step.
ghost use Rattle.std.specs.Prelude.{◌≡◌, ◌≤◌, [], ◌∷◌, length, map, Some, IfOk, codes};
ghost use Rattle.serde_json.specs.Data.{Data, depth, string, array};
ghost use Rattle.serde_json.specs.View.{view};
ghost use Rattle.mappings.specs.declared.place.Rights.{Rights};
ghost use Rattle.scripts.specs.Arguments.{prot_of, access_of, keep_of, write_of, byte_of, few_bytes_of};
ghost use Rattle.scripts.specs.Script.{step_of};
ghost use Rattle.machine.specs.declared.act.Act.TheVariants.{Load, Store, Fill, Evict, Switch, Idle, Wake, Fix, Create, Destroy, Map, Unmap, Protect, Reclaim, Msync, SetLength, Ack, Change, Resume, Flush};
ghost use Rattle.traces.specs.inside.Written.{num, list, bytes_data};

use crate::word::Word::{Byte, Long, Page, Short, Text};
use crate::word::list_value;
use bitflags::Flags;
use machine::{Act, FewBytes, MsyncFlags, Step};
use mappings::Rights;
use serde_json::{Value, json};
use std::alloc::{AllocError, Global};

/// Returns the list in which a step is written. Fails if memory is refused.
pub fn step_value(global: Global, step: &Step) -> Result<Value, AllocError>
    ensures same { IfOk result (λ value. step_of (view value) ≡ Some step.now) }
    ensures flat { IfOk result (λ value. depth (view value) ≤ 2) }
{
    let p = step.p;
    match &step.act {
        Act::Load { va, count } => load(global, p, *va, *count),
        Act::Store { va, bytes } => store(global, p, *va, bytes),
        Act::Fill { page } => fill(global, p, *page),
        Act::Evict { slot } => evict(global, p, *slot),
        Act::Switch { space, keep } => switch(global, p, *space, *keep),
        Act::Idle => alone(global, p, "idle"),
        Act::Wake => alone(global, p, "wake"),
        Act::Fix { va, write } => fix(global, p, *va, *write),
        Act::Create => alone(global, p, "create"),
        Act::Destroy { space } => destroy(global, p, *space),
        Act::Map {
            space,
            va,
            len,
            file,
            offset,
            prot,
            access,
        } => map_value(global, p, *space, *va, *len, *file, *offset, *prot, *access),
        Act::Unmap { space, va, len } => unmap(global, p, *space, *va, *len),
        Act::Protect {
            space,
            va,
            len,
            prot,
        } => protect(global, p, *space, *va, *len, *prot),
        Act::Reclaim { file, page } => reclaim(global, p, *file, *page),
        Act::Msync { va, len, flags } => msync(global, p, *va, *len, *flags),
        Act::SetLength { file, length } => set_length(global, p, *file, *length),
        Act::Ack => alone(global, p, "ack"),
        Act::Change => alone(global, p, "change"),
        Act::Resume => alone(global, p, "resume"),
        Act::Flush => alone(global, p, "flush"),
    }
}

// Returns the list of an act without arguments.
fn alone(global: Global, p: u8, name: &str) -> Result<Value, AllocError>
    ensures { IfOk result (λ value. view value ≡ list (num p ∷ string name.now ∷ [])) }
{
    list_value(global, p, name, &[])
}

fn load(global: Global, p: u8, va: u64, count: u8) -> Result<Value, AllocError>
    ensures { IfOk result (λ value. (step_of (view value) ≡ Some (record { p = p; act = Load va count }))
        × (depth (view value) ≤ 2)) }
{
    list_value(global, p, "load", &[Long(va), Byte(count)])
}

fn store(global: Global, p: u8, va: u64, bytes: &FewBytes) -> Result<Value, AllocError>
    ensures { IfOk result (λ value. (step_of (view value) ≡ Some (record { p = p; act = Store va bytes.now }))
        × (depth (view value) ≤ 2)) }
{
    let bytes = bytes_value(global, bytes.as_slice())?;
    store_list(global, p, va, bytes)
}

fn store_list(global: Global, p: u8, va: u64, bytes: Value) -> Result<Value, AllocError>
    ensures { IfOk result (λ value. view value
        ≡ list (num p ∷ string (codes "store") ∷ num va ∷ view bytes ∷ [])) }
{
    json!(in global; [p, "store", va, bytes])
}

fn bytes_value(global: Global, bytes: &[u8]) -> Result<Value, AllocError>
    ensures written { IfOk result (λ value. view value ≡ bytes_data bytes.now) }
    ensures reads { length bytes.now ≤ 8 → IfOk result (λ value. few_bytes_of (bytes_data bytes.now) ≡ Some bytes.now) }
{
    match numbers(global, bytes) {
        Ok(items) => Ok(Value::Array(items)),
        Err(fault) => Err(fault),
    }
}

fn numbers(global: Global, bytes: &[u8]) -> Result<Vec<Value>, AllocError>
    ensures written { IfOk result (λ items. map view items.items ≡ map num bytes.now) }
    ensures reads { IfOk result (λ items. map (λ value. byte_of (view value)) items.items ≡ map Some bytes.now) }
{
    bytes.iter().map(|byte| number(*byte)).collect(global)
}

fn number(byte: u8) -> Value
    ensures written { view result ≡ num byte }
    ensures reads { byte_of (view result) ≡ Some byte }
{
    Value::from(byte)
}

fn fill(global: Global, p: u8, page: u64) -> Result<Value, AllocError>
    ensures { IfOk result (λ value. (step_of (view value) ≡ Some (record { p = p; act = Fill page }))
        × (depth (view value) ≤ 2)) }
{
    list_value(global, p, "fill", &[Long(page)])
}

fn evict(global: Global, p: u8, slot: u8) -> Result<Value, AllocError>
    ensures { IfOk result (λ value. (step_of (view value) ≡ Some (record { p = p; act = Evict slot }))
        × (depth (view value) ≤ 2)) }
{
    list_value(global, p, "evict", &[Byte(slot)])
}

fn switch(global: Global, p: u8, space: u16, keep: bool) -> Result<Value, AllocError>
    ensures { IfOk result (λ value. (step_of (view value) ≡ Some (record { p = p; act = Switch space keep }))
        × (depth (view value) ≤ 2)) }
{
    list_value(global, p, "switch", &[Short(space), Text(keep_word(keep))])
}

fn fix(global: Global, p: u8, va: u64, write: bool) -> Result<Value, AllocError>
    ensures { IfOk result (λ value. (step_of (view value) ≡ Some (record { p = p; act = Fix va write }))
        × (depth (view value) ≤ 2)) }
{
    list_value(global, p, "fix", &[Long(va), Text(write_word(write))])
}

fn destroy(global: Global, p: u8, space: u16) -> Result<Value, AllocError>
    ensures { IfOk result (λ value. (step_of (view value) ≡ Some (record { p = p; act = Destroy space }))
        × (depth (view value) ≤ 2)) }
{
    list_value(global, p, "destroy", &[Short(space)])
}

fn map_value(
    global: Global,
    p: u8,
    space: u16,
    va: u64,
    len: u64,
    file: u16,
    offset: u64,
    prot: Rights,
    access: Rights,
) -> Result<Value, AllocError>
    ensures { IfOk result (λ value.
        (step_of (view value) ≡ Some (record { p = p; act = Map space va len file offset prot access }))
        × (depth (view value) ≤ 2)) }
{
    let prot = rights_word(prot);
    let access = rights_word(access);
    list_value(
        global,
        p,
        "map",
        &[
            Short(space),
            Long(va),
            Long(len),
            Short(file),
            Long(offset),
            Text(prot),
            Text(access),
        ],
    )
}

fn unmap(global: Global, p: u8, space: u16, va: u64, len: u64) -> Result<Value, AllocError>
    ensures { IfOk result (λ value. (step_of (view value) ≡ Some (record { p = p; act = Unmap space va len }))
        × (depth (view value) ≤ 2)) }
{
    list_value(global, p, "unmap", &[Short(space), Long(va), Long(len)])
}

fn protect(
    global: Global,
    p: u8,
    space: u16,
    va: u64,
    len: u64,
    prot: Rights,
) -> Result<Value, AllocError>
    ensures { IfOk result (λ value. (step_of (view value) ≡ Some (record { p = p; act = Protect space va len prot }))
        × (depth (view value) ≤ 2)) }
{
    list_value(
        global,
        p,
        "protect",
        &[Short(space), Long(va), Long(len), Text(rights_word(prot))],
    )
}

fn reclaim(global: Global, p: u8, file: u16, page: u32) -> Result<Value, AllocError>
    ensures { IfOk result (λ value. (step_of (view value) ≡ Some (record { p = p; act = Reclaim file page }))
        × (depth (view value) ≤ 2)) }
{
    list_value(global, p, "reclaim", &[Short(file), Page(page)])
}

fn msync(global: Global, p: u8, va: u64, len: u64, flags: MsyncFlags) -> Result<Value, AllocError>
    ensures { IfOk result (λ value. (step_of (view value) ≡ Some (record { p = p; act = Msync va len flags }))
        × (depth (view value) ≤ 2)) }
{
    list_value(
        global,
        p,
        "msync",
        &[Long(va), Long(len), Byte(flags.bits())],
    )
}

fn set_length(global: Global, p: u8, file: u16, length: u64) -> Result<Value, AllocError>
    ensures { IfOk result (λ value. (step_of (view value) ≡ Some (record { p = p; act = SetLength file length }))
        × (depth (view value) ≤ 2)) }
{
    list_value(global, p, "setlength", &[Short(file), Long(length)])
}

fn rights_word(rights: Rights) -> &'static str
    ensures prot { prot_of (string result.now) ≡ Some rights }
    ensures access { access_of (string result.now) ≡ Some rights }
{
    match rights {
        Rights::Read => "r",
        Rights::ReadWrite => "rw",
    }
}

fn keep_word(keep: bool) -> &'static str
    ensures { keep_of (string result.now) ≡ Some keep }
{
    if keep { "keep" } else { "drop" }
}

fn write_word(write: bool) -> &'static str
    ensures { write_of (string result.now) ≡ Some write }
{
    if write { "write" } else { "read" }
}
