// Compares the two disks in memory with what their models mean: a disk that records calls, and one that can crash.
ghost use Rattle.std.specs.Prelude.{◌≡◌, ◌+◌, ◌≤◌, length};

use deferred_disk::DeferredDisk;
use device::{Device, DeviceFault, MemDisk};
use std::alloc::{Allocator, Global};

// Makes a write within a disk.
fn write<D: Device>(disk: &mut D, at: u64, bytes: &[u8]) -> Result<(), DeviceFault>
    requires { at + length bytes.now ≤ length (D.seen disk.old) }
    ensures { length (D.seen disk.new) ≡ length (D.seen disk.old) }
{
    disk.write(at, bytes)
}

// Makes a read within a disk.
fn read<D: Device>(disk: &mut D, at: u64, buffer: &mut [u8]) -> Result<(), DeviceFault>
    requires { at + length buffer.old ≤ length (D.seen disk.old) }
    ensures disk { length (D.seen disk.new) ≡ length (D.seen disk.old) }
    ensures buffer { length buffer.new ≡ length buffer.old }
{
    disk.read(at, buffer)
}

// Returns a disk of zeros. None of its blocks is known.
fn unknown_zeros<A: Allocator + Copy>(alloc: A, blocks: u32) -> DeferredDisk<A> {
    DeferredDisk::new(alloc, blocks)
}

// Whether a part of the second of two blocks, and the whole of the first, are written.
fn writes_both<D: Device>(disk: &mut D) -> bool {
    disk.len() == 8192
        && write(disk, 4098, &[7, 8]).is_ok()
        && disk.sync().is_ok()
        && write(disk, 0, &[3; 4096]).is_ok()
}

// Whether the calls of `writes_both` are recorded.
fn records<A: Allocator + Copy>(disk: &mut DeferredDisk<A>) -> bool {
    disk.len() == 8192
        && disk.supply(1, &[0; 4096]).is_ok()
        && writes_both(disk)
        && disk.waiting() == 3
}

// Whether the recorded calls are carried out on a device, which then contains the disk's bytes.
fn are_carried_out<A: Allocator + Copy>(
    disk: &mut DeferredDisk<A>,
    device: &mut MemDisk<A>,
) -> bool {
    let mut buffer = [9; 8192];
    disk.len() == 8192
        && device.len() == 8192
        && disk.carry_out(device).is_ok()
        && disk.waiting() == 0
        && read(disk, 0, &mut buffer).is_ok()
        && device.bytes() == buffer.as_slice()
        && buffer[4097..4101] == [0, 7, 8, 0]
        && buffer[4095] == 3
}

// Whether a crash of the device leaves its choice in the block that wasn't synced, and a second one changes nothing.
fn crashes_once<A: Allocator + Copy>(device: &mut MemDisk<A>) -> bool {
    device.len() == 8192
        && leaves(device, 0x51, &[0x51, 0x51, 0, 8])
        && leaves(device, 0x52, &[0x51, 0x51, 0, 8])
        && device.calls() == 3
}

// Whether a crash with this choice leaves these bytes at 0, 4095, 4096 and 4099.
fn leaves<A: Allocator + Copy>(device: &mut MemDisk<A>, choice: u8, wanted: &[u8; 4]) -> bool {
    if device.bytes().len() != 8192 {
        return false;
    }
    device.stop(&[choice; 8192]);
    let bytes = device.bytes();
    let found = [0, 4095, 4096, 4099].map(|at| bytes.get(at).copied().unwrap_or(9));
    found == *wanted
}

#[test]
fn recorded_calls_are_carried_out(rt: HostRuntime) {
    let mut disk = unknown_zeros(rt.alloc(), 2);
    let mut device = MemDisk::new(rt.alloc(), 8192).expect(&rt, "memory");
    assert!(rt; records(&mut disk) && are_carried_out(&mut disk, &mut device));
    assert!(rt; crashes_once(&mut device));
}
