// The files that an opening of a device finds.
ghost use Rattle.std.specs.Prelude.{◌≡◌, ◌<◌, ◌↔◌, List, Some, length, map, slice_get, IfOk, OnOk, IsTrue};
ghost use Rattle.volume_codec.specs.Files.{File};
ghost use Rattle.volume_codec.specs.Recovery.{RecoversTo};
ghost use Rattle.recovery.specs.Volume.{IsWellFormed, files_of, bytes_of};
ghost use Rattle.recovery.specs.VolumeReading.{IsVolumeOnlyRead, HasLengthsOf};
ghost use Rattle.crash_table.specs.Trials.{cause_of};

use crash_states::CrashFault;
use device::Device;
use page_entry::Refusal;
use recovery::{Volume, opened_as_recovered};
use std::alloc::{AllocError, Allocator};

/// The bytes of each file, in the table's order.
pub type Files<A> = Vec<Vec<u8, A>, A>;

/// Opens the volume on a device, and returns the bytes of its files.
pub fn open_files<D: Device + Drop, A: Allocator + Copy>(
    alloc: A,
    device: D,
) -> Result<Files<A>, CrashFault>
    ensures { D.is_honest device → IfOk result (λ read. (found : List File) × RecoversTo (D.seen device) found
        × (map (λ v. v.items) read.items ≡ map (λ f. f.bytes) found)) }
{
    opened_as_recovered(&device);
    match recovery::open(alloc, device) {
        Ok(volume) => {
            let mut volume = volume;
            read_files(alloc, &mut volume)
        }
        Err((refusal, _)) => Err(fault_of(refusal)),
    }
}

/// Returns the fault for a disk in memory that isn't opened. Its calls fail only if memory is refused.
pub fn fault_of(refusal: Refusal) -> CrashFault
    ensures { result ≡ cause_of refusal }
{
    match refusal {
        Refusal::Device | Refusal::OutOfMemory => CrashFault::Memory(AllocError),
        _ => CrashFault::Refused(refusal),
    }
}

fn read_files<D: Device + Drop, A: Allocator + Copy>(
    alloc: A,
    volume: &mut Volume<D, A>,
) -> Result<Files<A>, CrashFault>
    requires { IsWellFormed D.Device volume.old }
    ensures { D.is_honest volume.old.device → IfOk result (λ read.
        map (λ v. v.items) read.items
        ≡ map (λ f. f.bytes) (files_of volume.old.table (D.seen volume.old.device))) }
{
    let mut files = Vec::new(alloc);
    for file in 0..volume.file_count() {
        files.push(read_file(alloc, volume, file)?)?;
    }
    Ok(files)
}

fn read_file<D: Device + Drop, A: Allocator + Copy>(
    alloc: A,
    volume: &mut Volume<D, A>,
    file: usize,
) -> Result<Vec<u8, A>, CrashFault>
    requires there { file < length volume.old.table.files }
    requires files { D.is_honest volume.old.device → HasLengthsOf volume.old (D.seen volume.old.device) }
    ensures bytes { D.is_honest volume.old.device → IfOk result (λ bytes.
        bytes.items ≡ bytes_of (files_of volume.old.table (D.seen volume.old.device)) file) }
    ensures read { IsVolumeOnlyRead D.Device volume.old volume.new }
{
    let count = volume.length(file);
    let mut bytes = vec![in alloc; 0; count as usize]?;
    match volume.read_file(file, 0, &mut bytes) {
        Ok(()) => Ok(bytes),
        Err(refusal) => Err(fault_of(refusal)),
    }
}

/// Whether these are the same bytes, file by file.
pub fn are_same<A: Allocator + Copy>(left: &[Vec<u8, A>], right: &[Vec<u8, A>]) -> bool
    ensures { IsTrue result ↔ (map (λ v. v.items) left.now ≡ map (λ v. v.items) right.now) }
{
    if left.len() != right.len() {
        return false;
    }
    for i in 0..left.len() {
        if !is_same(left[i].as_slice(), right[i].as_slice()) {
            return false;
        }
    }
    true
}

fn is_same(left: &[u8], right: &[u8]) -> bool
    ensures { IsTrue result ↔ (left.now ≡ right.now) }
{
    left == right
}
