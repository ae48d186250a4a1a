// The bytes of one file of a volume.
ghost use Rattle.std.specs.Prelude.{◌≡◌, ℕ, ◌*◌, ◌<◌, ◌≤◌, List, length, slice_get, Some, IfOk, IfErr, IfSome, IfNone};
ghost use Rattle.volume_codec.specs.Files.{File};
ghost use Rattle.recovery.specs.Reading.{IsOnlyRead};
ghost use Rattle.volume_reading.specs.Volume.{RefusesAny};
ghost use Rattle.volume_files.specs.Export.{HasNone, IsCopied, IsExported, IsNotExported};

use device::Device;
use new_volume::{EmptyFile, NewFile, WriteListener};
use page_entry::Refusal;
use std::alloc::Allocator;
use std::io;
use volume_reading::{AnyVolume, FoundFiles, ListFault, WriteFault, copy_pages};

/// Why a file of a volume wasn't copied, or not completely.
#[derive(Drop)]
pub enum CopyFault {
    /// The volume has no file of this name.
    NoFile,
    /// The file couldn't be read, or the copy couldn't be written.
    Pages(ListFault),
}

/// Writes all bytes of a file of a device's volume, as it recovers, to an empty file. Zeros past all that was written
/// stay holes. Returns the number of bytes, and the new file.
///
/// Fails with the refusal of `AnyVolume::find` if the volume is refused. The device is only read. A listener is
/// notified of each write.
pub fn copy_file<D, A, F, L>(
    alloc: A,
    device: &mut D,
    name: &str,
    out: F,
    listener: L,
) -> Result<Result<(u64, F), CopyFault>, Refusal>
where
    D: Device,
    A: Allocator + Copy,
    F: EmptyFile + Drop,
    L: WriteListener + Drop,
    ensures copied { D.is_honest device.old → IfOk result (λ copied. IfOk copied (λ made. F.is_honest made.1
        → IsExported (D.seen device.old) name.now (F.seen made.1) made.0)) }
    ensures absent { D.is_honest device.old → IfOk result (λ copied.
        IfErr copied (IsNotExported (D.seen device.old) name.now)) }
    ensures refused { D.is_honest device.old → IfErr result (RefusesAny (D.seen device.old)) }
    ensures read { IsOnlyRead D.Device device.old device.new }
{
    match AnyVolume::find(alloc, device) {
        Ok(volume) => Ok(copy_named(&volume, device, name, out, listener)),
        Err(refusal) => Err(refusal),
    }
}

// Writes all bytes of the file of this name, and returns their number.
fn copy_named<V, D, F, L>(
    volume: &V,
    device: &mut D,
    name: &str,
    out: F,
    listener: L,
) -> Result<(u64, F), CopyFault>
where
    V: FoundFiles,
    D: Device,
    F: EmptyFile + Drop,
    L: WriteListener + Drop,
    requires sound { V.is_sound volume.now }
    requires long { 4096 * V.blocks volume.now ≤ length (D.seen device.old) }
    requires found { D.is_honest device.old → V.is_in volume.now (D.seen device.old) }
    ensures copied { D.is_honest device.old → IfOk result (λ made. F.is_honest made.1 → IsCopied
        (V.files volume.now (D.seen device.old)) name.now (F.seen made.1) made.0) }
    ensures absent { D.is_honest device.old → IfErr result (λ fault. fault ≡ CopyFault.NoFile
        → HasNone (V.files volume.now (D.seen device.old)) name.now) }
    ensures read { IsOnlyRead D.Device device.old device.new }
{
    let file = match find(volume, name) {
        Some(file) => file,
        None => return Err(CopyFault::NoFile),
    };
    let bytes = volume.length(file);
    let mut new = match lengthened(out, bytes, listener) {
        Ok(new) => new,
        Err(cause) => {
            return Err(CopyFault::Pages(ListFault::Unwritten(WriteFault::Output(cause))));
        }
    };
    match copy_pages(volume, device, file, &mut new) {
        Ok(()) => Ok((bytes, new.into_parts().0)),
        Err(fault) => Err(CopyFault::Pages(fault)),
    }
}

// Lengthens an empty file to `bytes` zeros. They stay holes where zeros are written.
fn lengthened<F: EmptyFile + Drop, L: WriteListener + Drop>(
    mut out: F,
    bytes: u64,
    mut listener: L,
) -> io::Result<NewFile<F, L>>
    ensures { IfOk result (λ new. F.is_honest new.inner → length (F.seen new.inner) ≡ bytes) }
{
    out.lengthen(bytes)?;
    listener.expect(bytes);
    Ok(NewFile::over(out, listener))
}

// Returns the number of the file of this name, if there is one.
fn find<V: FoundFiles>(volume: &V, name: &str) -> Option<usize>
    requires sound { V.is_sound volume.now }
    ensures within { IfSome result (λ file. file < V.count volume.now) }
    ensures listed { IfSome result (λ file. (bytes : List ℕ) → V.is_in volume.now bytes
        → file < length (V.files volume.now bytes)) }
    ensures named { IfSome result (λ file. (bytes : List ℕ) (f : File) → V.is_in volume.now bytes
        → slice_get (V.files volume.now bytes) file ≡ Some f → f.name ≡ name.now) }
    ensures none { IfNone result ((bytes : List ℕ) → V.is_in volume.now bytes
        → HasNone (V.files volume.now bytes) name.now) }
{
    for file in 0..volume.file_count() {
        if volume.name(file) == name {
            return Some(file);
        }
    }
    None
}
