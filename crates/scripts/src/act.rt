// Reads the acts of a script.
ghost use Rattle.std.specs.Prelude.{◌≡◌, map, [], ◌∷◌, codes};
ghost use Rattle.std.specs.Result.{result_ok};
ghost use Rattle.serde_json.specs.View.{view};
ghost use Rattle.scripts.specs.Acts.{without_more, act_of};

use crate::argument::{access, byte, bytes, flags, keep, long, page, prot, short, write};
use crate::script_fault::StepFault;
use machine::Act;
use serde_json::Value;

/// Reads the act with this name and these arguments.
pub fn act(name: &str, arguments: &[Value]) -> Result<Act, StepFault>
    ensures { result_ok result ≡ act_of name.now (map view arguments.now) }
{
    match name {
        "load" => load(arguments),
        "store" => store(arguments),
        "fill" => fill(arguments),
        "evict" => evict(arguments),
        "switch" => switch(arguments),
        "idle" => without_arguments(arguments, "idle", Act::Idle),
        "wake" => without_arguments(arguments, "wake", Act::Wake),
        "fix" => fix(arguments),
        "create" => without_arguments(arguments, "create", Act::Create),
        "destroy" => destroy(arguments),
        "map" => map(arguments),
        "unmap" => unmap(arguments),
        "protect" => protect(arguments),
        "reclaim" => reclaim(arguments),
        "msync" => msync(arguments),
        "setlength" => set_length(arguments),
        "ack" => without_arguments(arguments, "ack", Act::Ack),
        "change" => without_arguments(arguments, "change", Act::Change),
        "resume" => without_arguments(arguments, "resume", Act::Resume),
        "flush" => without_arguments(arguments, "flush", Act::Flush),
        _ => Err(StepFault::Name),
    }
}

fn load(arguments: &[Value]) -> Result<Act, StepFault>
    ensures { result_ok result ≡ act_of (codes "load") (map view arguments.now) }
{
    match arguments {
        [va, count] => load_from(va, count),
        _ => Err(wrong_arguments("load", "an address and a count")),
    }
}

fn load_from(va: &Value, count: &Value) -> Result<Act, StepFault>
    ensures { result_ok result ≡ act_of (codes "load") (view va.now ∷ view count.now ∷ []) }
{
    Ok(Act::Load {
        va: long(va, "the address")?,
        count: byte(count, "the count")?,
    })
}

fn store(arguments: &[Value]) -> Result<Act, StepFault>
    ensures { result_ok result ≡ act_of (codes "store") (map view arguments.now) }
{
    match arguments {
        [va, list] => store_from(va, list),
        _ => Err(wrong_arguments("store", "an address and a list of bytes")),
    }
}

fn store_from(va: &Value, list: &Value) -> Result<Act, StepFault>
    ensures { result_ok result ≡ act_of (codes "store") (view va.now ∷ view list.now ∷ []) }
{
    let va = long(va, "the address")?;
    match bytes(list) {
        Some(bytes) => Ok(Act::Store { va, bytes }),
        None => Err(StepFault::Bytes),
    }
}

fn fill(arguments: &[Value]) -> Result<Act, StepFault>
    ensures { result_ok result ≡ act_of (codes "fill") (map view arguments.now) }
{
    match arguments {
        [page] => fill_from(page),
        _ => Err(wrong_arguments("fill", "a page")),
    }
}

fn fill_from(page: &Value) -> Result<Act, StepFault>
    ensures { result_ok result ≡ act_of (codes "fill") (view page.now ∷ []) }
{
    Ok(Act::Fill {
        page: long(page, "the page")?,
    })
}

fn evict(arguments: &[Value]) -> Result<Act, StepFault>
    ensures { result_ok result ≡ act_of (codes "evict") (map view arguments.now) }
{
    match arguments {
        [slot] => evict_from(slot),
        _ => Err(wrong_arguments("evict", "a slot")),
    }
}

fn evict_from(slot: &Value) -> Result<Act, StepFault>
    ensures { result_ok result ≡ act_of (codes "evict") (view slot.now ∷ []) }
{
    Ok(Act::Evict {
        slot: byte(slot, "the slot")?,
    })
}

fn switch(arguments: &[Value]) -> Result<Act, StepFault>
    ensures { result_ok result ≡ act_of (codes "switch") (map view arguments.now) }
{
    match arguments {
        [space, word] => switch_from(space, word),
        _ => Err(wrong_arguments("switch", "a space, and \"keep\" or \"drop\"")),
    }
}

fn switch_from(space: &Value, word: &Value) -> Result<Act, StepFault>
    ensures { result_ok result ≡ act_of (codes "switch") (view space.now ∷ view word.now ∷ []) }
{
    Ok(Act::Switch {
        space: short(space, "the space")?,
        keep: keep(word)?,
    })
}

fn fix(arguments: &[Value]) -> Result<Act, StepFault>
    ensures { result_ok result ≡ act_of (codes "fix") (map view arguments.now) }
{
    match arguments {
        [va, word] => fix_from(va, word),
        _ => Err(wrong_arguments("fix", "an address, and \"read\" or \"write\"")),
    }
}

fn fix_from(va: &Value, word: &Value) -> Result<Act, StepFault>
    ensures { result_ok result ≡ act_of (codes "fix") (view va.now ∷ view word.now ∷ []) }
{
    Ok(Act::Fix {
        va: long(va, "the address")?,
        write: write(word)?,
    })
}

fn destroy(arguments: &[Value]) -> Result<Act, StepFault>
    ensures { result_ok result ≡ act_of (codes "destroy") (map view arguments.now) }
{
    match arguments {
        [space] => destroy_from(space),
        _ => Err(wrong_arguments("destroy", "a space")),
    }
}

fn destroy_from(space: &Value) -> Result<Act, StepFault>
    ensures { result_ok result ≡ act_of (codes "destroy") (view space.now ∷ []) }
{
    Ok(Act::Destroy {
        space: short(space, "the space")?,
    })
}

fn map(arguments: &[Value]) -> Result<Act, StepFault>
    ensures { result_ok result ≡ act_of (codes "map") (map view arguments.now) }
{
    match arguments {
        [space, va, len, file, offset, rights, opened] => map_from(
            space, va, len, file, offset, rights, opened,
        ),
        _ => Err(wrong_arguments(
            "map",
            "a space, an address, a length, a file, an offset, prot and open",
        )),
    }
}

fn map_from(
    space: &Value,
    va: &Value,
    len: &Value,
    file: &Value,
    offset: &Value,
    rights: &Value,
    opened: &Value,
) -> Result<Act, StepFault>
    ensures { result_ok result ≡ act_of (codes "map") (view space.now ∷ view va.now ∷ view len.now
        ∷ view file.now ∷ view offset.now ∷ view rights.now ∷ view opened.now ∷ []) }
{
    Ok(Act::Map {
        space: short(space, "the space")?,
        va: long(va, "the address")?,
        len: long(len, "the length")?,
        file: short(file, "the file")?,
        offset: long(offset, "the offset")?,
        prot: prot(rights)?,
        access: access(opened)?,
    })
}

fn unmap(arguments: &[Value]) -> Result<Act, StepFault>
    ensures { result_ok result ≡ act_of (codes "unmap") (map view arguments.now) }
{
    match arguments {
        [space, va, len] => unmap_from(space, va, len),
        _ => Err(wrong_arguments("unmap", "a space, an address and a length")),
    }
}

fn unmap_from(space: &Value, va: &Value, len: &Value) -> Result<Act, StepFault>
    ensures { result_ok result ≡ act_of (codes "unmap") (view space.now ∷ view va.now ∷ view len.now ∷ []) }
{
    Ok(Act::Unmap {
        space: short(space, "the space")?,
        va: long(va, "the address")?,
        len: long(len, "the length")?,
    })
}

fn protect(arguments: &[Value]) -> Result<Act, StepFault>
    ensures { result_ok result ≡ act_of (codes "protect") (map view arguments.now) }
{
    match arguments {
        [space, va, len, rights] => protect_from(space, va, len, rights),
        _ => Err(wrong_arguments("protect", "a space, an address, a length and prot")),
    }
}

fn protect_from(space: &Value, va: &Value, len: &Value, rights: &Value) -> Result<Act, StepFault>
    ensures { result_ok result ≡ act_of (codes "protect") (view space.now ∷ view va.now ∷ view len.now ∷ view rights.now ∷ []) }
{
    Ok(Act::Protect {
        space: short(space, "the space")?,
        va: long(va, "the address")?,
        len: long(len, "the length")?,
        prot: prot(rights)?,
    })
}

fn reclaim(arguments: &[Value]) -> Result<Act, StepFault>
    ensures { result_ok result ≡ act_of (codes "reclaim") (map view arguments.now) }
{
    match arguments {
        [file, number] => reclaim_from(file, number),
        _ => Err(wrong_arguments("reclaim", "a file and a page")),
    }
}

fn reclaim_from(file: &Value, number: &Value) -> Result<Act, StepFault>
    ensures { result_ok result ≡ act_of (codes "reclaim") (view file.now ∷ view number.now ∷ []) }
{
    Ok(Act::Reclaim {
        file: short(file, "the file")?,
        page: page(number, "the page")?,
    })
}

fn msync(arguments: &[Value]) -> Result<Act, StepFault>
    ensures { result_ok result ≡ act_of (codes "msync") (map view arguments.now) }
{
    match arguments {
        [va, len, bits] => msync_from(va, len, bits),
        _ => Err(wrong_arguments("msync", "an address, a length and flags")),
    }
}

fn msync_from(va: &Value, len: &Value, bits: &Value) -> Result<Act, StepFault>
    ensures { result_ok result ≡ act_of (codes "msync") (view va.now ∷ view len.now ∷ view bits.now ∷ []) }
{
    Ok(Act::Msync {
        va: long(va, "the address")?,
        len: long(len, "the length")?,
        flags: flags(bits)?,
    })
}

fn set_length(arguments: &[Value]) -> Result<Act, StepFault>
    ensures { result_ok result ≡ act_of (codes "setlength") (map view arguments.now) }
{
    match arguments {
        [file, length] => set_length_from(file, length),
        _ => Err(wrong_arguments("setlength", "a file and a length")),
    }
}

fn set_length_from(file: &Value, length: &Value) -> Result<Act, StepFault>
    ensures { result_ok result ≡ act_of (codes "setlength") (view file.now ∷ view length.now ∷ []) }
{
    Ok(Act::SetLength {
        file: short(file, "the file")?,
        length: long(length, "the length")?,
    })
}

fn without_arguments(arguments: &[Value], name: &'static str, act: Act) -> Result<Act, StepFault>
    ensures { result_ok result ≡ without_more act (map view arguments.now) }
{
    if arguments.is_empty() {
        Ok(act)
    } else {
        Err(wrong_arguments(name, "none"))
    }
}

fn wrong_arguments(act: &'static str, arguments: &'static str) -> StepFault {
    StepFault::Arguments { act, arguments }
}
