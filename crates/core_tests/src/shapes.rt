// Disks with a volume, and the shape of machines over them.
use device::MemDisk;
use machine::Shape;
use recovery::format_as;
use std::alloc::Global;
use volume_codec::FileSpec;

const SPECS: [FileSpec; 1] = [FileSpec {
    name: "a",
    length: 16_384,
    capacity: 16_384,
}];

// Returns a disk with a volume of four zero pages, or `None` without memory.
pub fn formatted(alloc: Global) -> Option<MemDisk<Global>> {
    let mut disk = MemDisk::new(alloc, 45_056).ok()?;
    if format_as(alloc, &mut disk, 1, &SPECS, 4).is_ok() {
        Some(disk)
    } else {
        None
    }
}

// Returns a shape with this number of processors, TLBs of 2 entries, 4 frames and 2 copy frames. With this shape pages
// often enter and leave memory.
pub fn shape(cpus: u64) -> Shape {
    Shape {
        cpus,
        tlb: 2,
        frames: 4,
        copies: 2,
    }
}
