// The pages of a file, in order.
ghost use Rattle.std.specs.Prelude.{◌≡◌, ◌↔◌, ◌<◌, ◌+◌, ◌*◌, ◌≤◌, ◌^◌, ℕ, List, length, OnOk};
ghost use Rattle.std.specs.Io.KnownBytes.{Appends};
ghost use Rattle.recovery.specs.Reading.{IsOnlyRead};
ghost use Rattle.recovery.specs.Volume.{bytes_of};
ghost use Rattle.volume_reading.specs.Faults.{HasListed};
ghost use Rattle.volume_reading.specs.Reading.{pages_text, page_count};

use crate::form::{ListFault, WriteFault};
use crate::found::FoundFiles;
use crate::reading::read_page;
use device::{BlockFile, Device};
use page_entry::PAGE;
use std::io;

/// Writes a page of a file.
pub trait PageForm {
    /// The text of a page with these bytes. The first byte is at this offset of the file.
    ghost page_text: { Self → ℕ → List ℕ → List ℕ };

    /// Writes a page.
    fn write_page<W: io::Write>(&self, at: u64, page: &[u8], out: &mut W) -> Result<(), WriteFault>
        requires { at + length page.now < 2 ^ 64 }
        ensures { OnOk result (Appends (W.contents out.old) (W.contents out.new) (page_text self.now at page.now)) };
}

/// Reads a file of this length a page at a time, and writes all its pages. The device is only read.
pub fn write_pages<V: FoundFiles, D: Device, F: PageForm, W: io::Write>(
    volume: &V,
    device: &mut D,
    file: usize,
    bytes: u64,
    form: &F,
    out: &mut W,
) -> Result<(), ListFault>
    requires sound { V.is_sound volume.now }
    requires there { file < V.count volume.now }
    requires size { V.size volume.now file ≡ bytes }
    requires long { 4096 * V.blocks volume.now ≤ length (D.seen device.old) }
    requires found { D.is_honest device.old → V.is_in volume.now (D.seen device.old) }
    ensures written { D.is_honest device.old → OnOk result (Appends (W.contents out.old) (W.contents out.new)
        (pages_text (F.page_text form.now) (bytes_of (V.files volume.now (D.seen device.old)) file)
        (page_count bytes))) }
    ensures read { IsOnlyRead D.Device device.old device.new }
    ensures cause { HasListed (D.faults_met device.old) (D.faults_met device.new) result }
{
    for page in 0..bytes.div_ceil(PAGE) {
        let at = PAGE * page;
        let mut buffer = [0; PAGE as usize];
        let part = &mut buffer[..(bytes - at).min(PAGE) as usize];
        if let Err(refusal) = read_page(volume, device, file, bytes, page, part) {
            return Err(ListFault::Unreadable(refusal));
        }
        if let Err(fault) = form.write_page(at, part, out) {
            return Err(ListFault::Unwritten(fault));
        }
    }
    Ok(())
}

/// Reads a file a page at a time, and copies all its pages to another file of the same length. The device is only read.
pub fn copy_pages<V: FoundFiles, D: Device, F: BlockFile>(
    volume: &V,
    device: &mut D,
    file: usize,
    out: &mut F,
) -> Result<(), ListFault>
    requires sound { V.is_sound volume.now }
    requires there { file < V.count volume.now }
    requires long { 4096 * V.blocks volume.now ≤ length (D.seen device.old) }
    requires found { D.is_honest device.old → V.is_in volume.now (D.seen device.old) }
    ensures copied { D.is_honest device.old → F.is_honest out.old
        → length (F.seen out.old) ≡ V.size volume.now file
        → OnOk result (F.seen out.new ≡ bytes_of (V.files volume.now (D.seen device.old)) file) }
    ensures honest { F.is_honest out.new ↔ F.is_honest out.old }
    ensures read { IsOnlyRead D.Device device.old device.new }
    ensures cause { HasListed (D.faults_met device.old) (D.faults_met device.new) result }
{
    let bytes = volume.length(file);
    for page in 0..bytes.div_ceil(PAGE) {
        let at = PAGE * page;
        let mut buffer = [0; PAGE as usize];
        let part = &mut buffer[..(bytes - at).min(PAGE) as usize];
        if let Err(failed) = read_page(volume, device, file, bytes, page, part) {
            return Err(ListFault::Unreadable(failed));
        }
        if let Err(fault) = out.write_all_at(part, at) {
            return Err(ListFault::Unwritten(WriteFault::Output(fault)));
        }
    }
    Ok(())
}
