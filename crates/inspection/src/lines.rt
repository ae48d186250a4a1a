// The files of a volume as lines of JSON.
ghost use Rattle.std.specs.Prelude.{◌≡◌, List, false, IfOk, IfErr, OnOk};
ghost use Rattle.std.specs.Io.KnownBytes.{Appends};
ghost use Rattle.serde_json.specs.View.{view};
ghost use Rattle.serde_json.specs.Written.{has_float};
ghost use Rattle.volume_codec.specs.Files.{File};
ghost use Rattle.recovery.specs.Reading.{IsOnlyRead};
ghost use Rattle.volume_reading.specs.Faults.{HasListed};
ghost use Rattle.volume_reading.specs.Volume.{RecoversToAny, RefusesAny, RisesFor};
ghost use Rattle.inspection.specs.Lines.{json_line, head_data, head_json, row_data, row_json, files_json};

use device::Device;
use page_entry::Refusal;
use serde_json::{Value, json};
use std::alloc::{AllocError, Allocator, Global};
use std::io::Write;
use volume_reading::{Form, ListFault, WriteFault, list_any};

/// Writes a value that has no float, as a line.
pub fn write_line<W: Write>(global: Global, value: &Value, out: &mut W) -> Result<(), WriteFault>
    ensures { has_float (view value.now) ≡ false
        → OnOk result (Appends (W.contents out.old) (W.contents out.new) (json_line (view value.now))) }
{
    let text = value.to_string(global)?;
    writeln!(out, "{text}")?;
    Ok(())
}

/// Writes the files of a device's volume, as it recovers. Each file has a line with its name and its length, and a line
/// for each row of 16 bytes that aren't all zero. That line has the row's offset and its bytes in hexadecimal.
///
/// Fails as `AnyVolume::find` fails. The device is only read.
pub fn write_file_lines<D: Device, A: Allocator + Copy, W: Write>(
    global: Global,
    alloc: A,
    device: &mut D,
    out: &mut W,
) -> Result<Result<(), ListFault>, Refusal>
    ensures printed { D.is_honest device.old → IfOk result (λ printed. OnOk printed ((files : List File)
        × RecoversToAny (D.seen device.old) files × Appends (W.contents out.old) (W.contents out.new)
        (files_json files))) }
    ensures cause { IfOk result (HasListed (D.faults_met device.old) (D.faults_met device.new)) }
    ensures refused { D.is_honest device.old → IfErr result (RefusesAny (D.seen device.old)) }
    ensures counted { IfErr result (RisesFor (D.faults_met device.old) (D.faults_met device.new)) }
    ensures read { IsOnlyRead D.Device device.old device.new }
{
    list_any(alloc, device, &JsonLines { global }, out)
}

// Writes the files of a volume as lines of JSON.
#[derive(Clone, Copy)]
struct JsonLines {
    global: Global,
}

impl Form for JsonLines {
    ghost head_text = { λ lines. head_json };

    ghost row_text = { λ lines. row_json };

    fn write_head<W: Write>(&self, name: &str, bytes: u64, out: &mut W) -> Result<(), WriteFault> {
        let head = head_value(self.global, name, bytes)?;
        write_line(self.global, &head, out)
    }

    fn write_row<W: Write>(&self, at: u64, bytes: &[u8], out: &mut W) -> Result<(), WriteFault> {
        let line = row_value(self.global, at, bytes)?;
        write_line(self.global, &line, out)
    }
}

fn head_value(global: Global, name: &str, bytes: u64) -> Result<Value, AllocError>
    ensures { IfOk result (λ value. view value ≡ head_data name.now bytes) }
{
    json!(in global; {"length": bytes, "name": name})
}

fn row_value(global: Global, at: u64, bytes: &[u8]) -> Result<Value, AllocError>
    ensures { IfOk result (λ value. view value ≡ row_data at bytes.now) }
{
    let digits = hex::encode(global, bytes)?;
    let digits = digits.as_str();
    json!(in global; {"bytes": digits, "offset": at})
}
