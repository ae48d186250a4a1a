// A volume with a log as a disk.
use crate::shape::NotBooted;
use device::Device;
use machine_log::LogDisk;
use std::alloc::Allocator;
use volume_files::refused_to_read;

/// Opens the volume with a log on a device, and returns it as a disk in layout 4, on which a machine can run. On
/// failure, returns the cause and the device.
pub fn show_log<'a, D: Device, A: Allocator + Copy>(
    alloc: A,
    device: D,
) -> Result<LogDisk<D, A>, (NotBooted<'a>, D)> {
    match LogDisk::open(alloc, device) {
        Ok(disk) => Ok(disk),
        Err((refusal, mut device)) => {
            let cause = NotBooted::Disk(refused_to_read(alloc, refusal, &mut device));
            Err((cause, device))
        }
    }
}
