// Reads the arguments of an act in a script.
ghost use Rattle.std.specs.Prelude.{◌≡◌, map};
ghost use Rattle.std.specs.Result.{result_ok};
ghost use Rattle.serde_json.specs.View.{view};
ghost use Rattle.scripts.specs.Arguments.{whole_number, byte_of, short_of, page_number_of, long_of, flags_of, prot_of, access_of, keep_of, write_of, few_of, few_bytes_of};

use crate::script_fault::StepFault;
use bitflags::Flags;
use machine::{FewBytes, MsyncFlags};
use mappings::Rights;
use serde_json::Value;

/// Reads a whole number up to `most`, written without a sign, a point and an exponent. `what` names the number in a
/// fault.
pub fn number(value: &Value, most: u64, what: &'static str) -> Result<u64, StepFault>
    ensures { result_ok result ≡ whole_number most (view value.now) }
{
    match value.as_u64() {
        Some(number) if number <= most => Ok(number),
        _ => Err(StepFault::Number { what, most }),
    }
}

/// Reads a whole number up to 255.
pub fn byte(value: &Value, what: &'static str) -> Result<u8, StepFault>
    ensures { result_ok result ≡ byte_of (view value.now) }
{
    Ok(number(value, 255, what)? as u8)
}

/// Reads a whole number up to 65,535.
pub fn short(value: &Value, what: &'static str) -> Result<u16, StepFault>
    ensures { result_ok result ≡ short_of (view value.now) }
{
    Ok(number(value, 65_535, what)? as u16)
}

/// Reads a whole number up to 2^32 - 1.
pub fn page(value: &Value, what: &'static str) -> Result<u32, StepFault>
    ensures { result_ok result ≡ page_number_of (view value.now) }
{
    Ok(number(value, 4_294_967_295, what)? as u32)
}

/// Reads a whole number up to 2^64 - 1.
pub fn long(value: &Value, what: &'static str) -> Result<u64, StepFault>
    ensures { result_ok result ≡ long_of (view value.now) }
{
    number(value, u64::MAX, what)
}

/// Reads flags of `msync`, a whole number up to 255. All its bits are kept.
pub fn flags(value: &Value) -> Result<MsyncFlags, StepFault>
    ensures { result_ok result ≡ flags_of (view value.now) }
{
    Ok(MsyncFlags::from_bits_retain(byte(value, "flags")?))
}

/// Reads the rights of a mapping. The right to write includes the right to read.
pub fn prot(value: &Value) -> Result<Rights, StepFault>
    ensures { result_ok result ≡ prot_of (view value.now) }
{
    match value.as_str() {
        Some("r") => Ok(Rights::Read),
        Some("w" | "rw") => Ok(Rights::ReadWrite),
        _ => Err(StepFault::Choice {
            what: "prot",
            choices: "\"r\", \"w\" and \"rw\"",
        }),
    }
}

/// Reads the access with which a file was opened for a mapping.
pub fn access(value: &Value) -> Result<Rights, StepFault>
    ensures { result_ok result ≡ access_of (view value.now) }
{
    match value.as_str() {
        Some("r") => Ok(Rights::Read),
        Some("rw") => Ok(Rights::ReadWrite),
        _ => Err(StepFault::Choice {
            what: "open",
            choices: "\"r\" and \"rw\"",
        }),
    }
}

/// Reads whether a switch keeps cached entries.
pub fn keep(value: &Value) -> Result<bool, StepFault>
    ensures { result_ok result ≡ keep_of (view value.now) }
{
    match value.as_str() {
        Some("keep") => Ok(true),
        Some("drop") => Ok(false),
        _ => Err(StepFault::Choice {
            what: "the second argument",
            choices: "\"keep\" and \"drop\"",
        }),
    }
}

/// Reads whether the fault to serve is that of a write.
pub fn write(value: &Value) -> Result<bool, StepFault>
    ensures { result_ok result ≡ write_of (view value.now) }
{
    match value.as_str() {
        Some("read") => Ok(false),
        Some("write") => Ok(true),
        _ => Err(StepFault::Choice {
            what: "the second argument",
            choices: "\"read\" and \"write\"",
        }),
    }
}

/// Reads a list of at most 8 bytes.
#[tactic(auto, using(crate::proofs::AllOf::list_of_items))]
pub fn bytes(value: &Value) -> Option<FewBytes>
    ensures { result ≡ few_bytes_of (view value.now) }
{
    few_bytes(value.as_array()?)
}

fn few_bytes(items: &[Value]) -> Option<FewBytes>
    ensures { result ≡ few_of (map view items.now) }
{
    if items.len() > 8 {
        return None;
    }
    let mut bytes = [0; 8];
    for (i, item) in items.iter().enumerate() {
        bytes[i] = byte(item, "a byte").ok()?;
    }
    FewBytes::new(&bytes[..items.len()])
}
