// The recovered files of a volume with a log on a disk in memory.
ghost use Rattle.std.specs.Prelude.{◌≡◌, ◌*◌, ◌<◌, ◌≤◌, List, length, map, IfOk};
ghost use Rattle.device.specs.Memory.{seen_of};
ghost use Rattle.volume_codec.specs.Files.{File};
ghost use Rattle.recovery.specs.Volume.{bytes_of};
ghost use Rattle.log_volume.specs.Files.{RecoversToLog};
ghost use Rattle.crash_table.specs.Marks.{contents_of};

use crate::files::{Files, fault_of};
use crash_states::CrashFault;
use device::MemDisk;
use std::alloc::{AllocError, Allocator};
use volume_reading::{FoundFiles, copy_pages, read_log_volume};

/// Returns the files to which a disk recovers by its log.
pub(crate) fn read_files<A: Allocator + Copy>(
    alloc: A,
    disk: &mut MemDisk<A>,
) -> Result<Files<A>, CrashFault>
    ensures read { IfOk result (λ read. (found : List File) × RecoversToLog (seen_of disk.old) found
        × (map (λ v. v.items) read.items ≡ contents_of found)) }
    ensures same { seen_of disk.new ≡ seen_of disk.old }
{
    match read_log_volume(alloc, disk) {
        Ok(volume) => read_each(alloc, &volume, disk),
        Err(refusal) => Err(fault_of(refusal)),
    }
}

// Returns the bytes of each file of a volume that was found.
fn read_each<V: FoundFiles, A: Allocator + Copy>(
    alloc: A,
    volume: &V,
    disk: &mut MemDisk<A>,
) -> Result<Files<A>, CrashFault>
    requires sound { V.is_sound volume.now }
    requires long { 4096 * V.blocks volume.now ≤ length (seen_of disk.old) }
    requires found { V.is_in volume.now (seen_of disk.old) }
    ensures read { IfOk result (λ read. map (λ v. v.items) read.items
        ≡ contents_of (V.files volume.now (seen_of disk.old))) }
    ensures same { seen_of disk.new ≡ seen_of disk.old }
{
    let mut files = Vec::new(alloc);
    for file in 0..volume.file_count() {
        files.push(read_file(alloc, volume, disk, file)?)?;
    }
    Ok(files)
}

// Returns the bytes of one file.
fn read_file<V: FoundFiles, A: Allocator + Copy>(
    alloc: A,
    volume: &V,
    disk: &mut MemDisk<A>,
    file: usize,
) -> Result<Vec<u8, A>, CrashFault>
    requires sound { V.is_sound volume.now }
    requires there { file < V.count volume.now }
    requires long { 4096 * V.blocks volume.now ≤ length (seen_of disk.old) }
    requires found { V.is_in volume.now (seen_of disk.old) }
    ensures bytes { IfOk result (λ bytes. bytes.items ≡ bytes_of (V.files volume.now (seen_of disk.old)) file) }
    ensures same { seen_of disk.new ≡ seen_of disk.old }
{
    let mut copy = MemDisk::new(alloc, volume.length(file))?;
    match copy_pages(volume, disk, file, &mut copy) {
        Ok(()) => bytes_in(alloc, &copy),
        Err(_) => Err(CrashFault::Memory(AllocError)),
    }
}

// Returns the bytes of a disk.
fn bytes_in<A: Allocator + Copy>(alloc: A, disk: &MemDisk<A>) -> Result<Vec<u8, A>, CrashFault>
    ensures { IfOk result (λ bytes. bytes.items ≡ seen_of disk.now) }
{
    Ok(Vec::from_slice(alloc, disk.bytes())?)
}
