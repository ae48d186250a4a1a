// Prints the files of a volume in any layout.
ghost use Rattle.std.specs.Prelude.{List, IfOk, IfErr, OnOk};
ghost use Rattle.std.specs.Io.KnownBytes.{Appends};
ghost use Rattle.volume_codec.specs.Files.{File};
ghost use Rattle.recovery.specs.Reading.{IsOnlyRead};
ghost use Rattle.volume_reading.specs.Faults.{HasListed};
ghost use Rattle.volume_reading.specs.Rows.{files_listing};
ghost use Rattle.volume_reading.specs.Volume.{RecoversToAny, RefusesAny, RisesFor};

use crate::any_volume::AnyVolume;
use crate::form::{Form, ListFault};
use crate::listing::list_found;
use device::Device;
use page_entry::Refusal;
use std::alloc::Allocator;
use std::io;

/// Writes the recovered files of the volume on a device to `out`, in the order of the table. For each file it writes
/// the head, and each row of 16 bytes that aren't all zero. The device is only read. The outer error is that of
/// `AnyVolume::find`, and the inner one is a fault while the files are listed.
pub fn list_any<D: Device, A: Allocator + Copy, F: Form, W: io::Write>(
    alloc: A,
    device: &mut D,
    form: &F,
    out: &mut W,
) -> Result<Result<(), ListFault>, Refusal>
    ensures printed { D.is_honest device.old → IfOk result (λ printed. OnOk printed ((files : List File)
        × RecoversToAny (D.seen device.old) files × Appends (W.contents out.old) (W.contents out.new)
        (files_listing (F.head_text form.now) (F.row_text form.now) files))) }
    ensures cause { IfOk result (HasListed (D.faults_met device.old) (D.faults_met device.new)) }
    ensures refused { D.is_honest device.old → IfErr result (RefusesAny (D.seen device.old)) }
    ensures counted { IfErr result (RisesFor (D.faults_met device.old) (D.faults_met device.new)) }
    ensures read { IsOnlyRead D.Device device.old device.new }
{
    match AnyVolume::find(alloc, device) {
        Ok(volume) => Ok(list_found(&volume, device, form, out)),
        Err(refusal) => Err(refusal),
    }
}
