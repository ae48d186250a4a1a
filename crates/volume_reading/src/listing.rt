// The files of a volume in order, and their rows.
ghost use Rattle.std.specs.Prelude.{◌≡◌, ◌==◌, ◌<◌, ◌*◌, ◌≤◌, List, length, slice_get, Some, IfOk, IfErr, OnOk};
ghost use Rattle.std.specs.Io.KnownBytes.{Appends};
ghost use Rattle.std.specs.List.{list_all};
ghost use Rattle.volume_codec.specs.Files.{File};
ghost use Rattle.volume_codec.specs.Recovery.{RecoversTo};
ghost use Rattle.recovery.specs.Counts.{HasCause};
ghost use Rattle.recovery.specs.Opening.{RefusesOpening};
ghost use Rattle.recovery.specs.Reading.{IsOnlyRead};
ghost use Rattle.volume_reading.specs.Faults.{HasListed};
ghost use Rattle.volume_reading.specs.Rows.{shown, row_count, file_listing, files_listing};
ghost use Rattle.volume_reading.specs.inside.Pages.{rows_at};

use crate::form::{Form, ListFault, WriteFault};
use crate::found::FoundFiles;
use crate::pages::{PageForm, write_pages};
use crate::recovered::Recovered;
use device::Device;
use page_entry::Refusal;
use std::alloc::Allocator;
use std::io;

/// The number of bytes in a row.
const ROW: usize = 16;

/// Writes the files of a device's volume, as it recovers, in the order of its table. For each file it writes a head,
/// and the rows of 16 bytes that aren't all zero. Fails as opening the volume fails. The device is only read.
pub fn list_files<D: Device, A: Allocator + Copy, F: Form, W: io::Write>(
    alloc: A,
    device: &mut D,
    form: &F,
    out: &mut W,
) -> Result<Result<(), ListFault>, Refusal>
    ensures printed { D.is_honest device.old → IfOk result (λ printed. OnOk printed ((files : List File)
        × RecoversTo (D.seen device.old) files × Appends (W.contents out.old) (W.contents out.new)
        (files_listing (F.head_text form.now) (F.row_text form.now) files))) }
    ensures cause { IfOk result (HasListed (D.faults_met device.old) (D.faults_met device.new)) }
    ensures refused { D.is_honest device.old → IfErr result (RefusesOpening (D.seen device.old)) }
    ensures counted { IfErr result (HasCause (D.faults_met device.old) (D.faults_met device.new)) }
    ensures read { IsOnlyRead D.Device device.old device.new }
{
    match Recovered::find(alloc, device) {
        Ok(volume) => Ok(list_found(&volume, device, form, out)),
        Err(refusal) => Err(refusal),
    }
}

/// Writes the files of a volume that was found on a device, as `list_files` does. The device is only read.
pub fn list_found<V: FoundFiles, D: Device, F: Form, W: io::Write>(
    volume: &V,
    device: &mut D,
    form: &F,
    out: &mut W,
) -> Result<(), ListFault>
    requires sound { V.is_sound volume.now }
    requires long { 4096 * V.blocks volume.now ≤ length (D.seen device.old) }
    requires found { D.is_honest device.old → V.is_in volume.now (D.seen device.old) }
    ensures printed { D.is_honest device.old → OnOk result (Appends (W.contents out.old) (W.contents out.new)
        (files_listing (F.head_text form.now) (F.row_text form.now) (V.files volume.now (D.seen device.old)))) }
    ensures read { IsOnlyRead D.Device device.old device.new }
    ensures cause { HasListed (D.faults_met device.old) (D.faults_met device.new) result }
{
    for file in 0..volume.file_count() {
        write_file(volume, device, file, form, out)?;
    }
    Ok(())
}

// Writes one file.
fn write_file<V: FoundFiles, D: Device, F: Form, W: io::Write>(
    volume: &V,
    device: &mut D,
    file: usize,
    form: &F,
    out: &mut W,
) -> Result<(), ListFault>
    requires sound { V.is_sound volume.now }
    requires there { file < V.count volume.now }
    requires long { 4096 * V.blocks volume.now ≤ length (D.seen device.old) }
    requires found { D.is_honest device.old → V.is_in volume.now (D.seen device.old) }
    ensures printed { D.is_honest device.old → (f : File)
        → slice_get (V.files volume.now (D.seen device.old)) file ≡ Some f
        → OnOk result (Appends (W.contents out.old) (W.contents out.new)
        (file_listing (F.head_text form.now) (F.row_text form.now) f)) }
    ensures read { IsOnlyRead D.Device device.old device.new }
    ensures cause { HasListed (D.faults_met device.old) (D.faults_met device.new) result }
{
    let bytes = volume.length(file);
    let name = volume.name(file);
    if let Err(fault) = form.write_head(name, bytes, out) {
        return Err(ListFault::Unwritten(fault));
    }
    write_pages(volume, device, file, bytes, &Rows { form }, out)
}

// Writes the pages of a file as rows.
#[derive(Clone, Copy)]
struct Rows<'a, F> {
    form: &'a F,
}

impl<F: Form> PageForm for Rows<'_, F> {
    ghost page_text = { λ rows at page. rows_at (F.row_text rows.form.now) at page (row_count (length page)) };

    fn write_page<W: io::Write>(
        &self,
        at: u64,
        page: &[u8],
        out: &mut W,
    ) -> Result<(), WriteFault> {
        for row in 0..page.len().div_ceil(ROW) {
            let from = ROW * row;
            let to = page.len().min(from + ROW);
            self.show_row(at + from as u64, &page[from..to], out)?;
        }
        Ok(())
    }
}

impl<F: Form> Rows<'_, F> {
    // Writes a row, unless its bytes are all zero.
    fn show_row<W: io::Write>(&self, at: u64, bytes: &[u8], out: &mut W) -> Result<(), WriteFault>
        ensures { OnOk result (Appends (W.contents out.old) (W.contents out.new)
            (shown (F.row_text self.now.form.now) at bytes.now)) }
    {
        if is_blank(bytes) {
            Ok(())
        } else {
            self.form.write_row(at, bytes, out)
        }
    }
}

fn is_blank(bytes: &[u8]) -> bool
    ensures { result ≡ list_all (λ byte. byte == 0) bytes.now }
{
    bytes.iter().all(|byte| *byte == 0)
}
