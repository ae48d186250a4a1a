// Why no machine of a shape can run on the volume of a device.
use crate::failure::Failure;
use device::Device;
use machine::{MAX_COPIES, MAX_CPUS, MAX_TLB, Shape};
use page_entry::Refusal;
use std::alloc::Allocator;
use thiserror::Error;
use volume_codec::read_super;
use volume_files::{FileFailure, Refused, first_block, refused_to_open};

/// A part of a shape that is outside its limits, with the values that are allowed.
#[derive(Clone, Copy, Debug, Error)]
pub enum ShapeCause {
    #[error("cpus is {0}, but must be 1 to 16")]
    Cpus(u64),
    #[error("tlb is {0}, but must be 1 to 64")]
    Tlb(u64),
    #[error("frames is {found}, but must be 1 to {most}: the volume has {most} record slots")]
    Frames { found: u64, most: u64 },
    #[error("frames is {found}, but must be 1 to {most}: the volume has {most} record slots and one for the lengths")]
    FramesBesideLengths { found: u64, most: u64 },
    #[error("copies is {0}, but must be 0 to 64")]
    Copies(u64),
    #[error("trace is {0}, but must be 1 to 1000000")]
    Trace(u64),
}

/// Why no machine was booted over the volume of a device.
#[derive(Clone, Copy, Debug)]
pub enum NotBooted<'a> {
    /// The volume can't be opened.
    Disk(Refused<'a>),
    /// No machine of this shape can run on the volume.
    Shape(ShapeCause),
}

impl<'a> NotBooted<'a> {
    /// Returns this cause as the failure of a command on the volume in the file `path`.
    pub fn of_file(self, path: &'a str) -> Failure<'a> {
        match self {
            NotBooted::Disk(cause) => Failure::File(FileFailure::Disk { path, cause }),
            NotBooted::Shape(cause) => Failure::Shape { path, cause },
        }
    }
}

/// Returns why no machine of this shape was booted over the volume of a device. `refusal` is the reply to the boot.
pub fn refused_to_run<'a, D: Device, A: Allocator + Copy>(
    alloc: A,
    refusal: Refusal,
    device: &mut D,
    shape: Shape,
) -> NotBooted<'a> {
    match refusal {
        Refusal::BadShape => refused_shape(alloc, device, shape),
        _ => NotBooted::Disk(refused_to_open(alloc, refusal, device)),
    }
}

fn refused_shape<'a, D: Device, A: Allocator + Copy>(
    alloc: A,
    device: &mut D,
    shape: Shape,
) -> NotBooted<'a> {
    match cause_in_shape(alloc, device, shape) {
        Some(cause) => NotBooted::Shape(cause),
        None => NotBooted::Disk(Refused {
            refusal: Refusal::BadShape,
            cause: None,
        }),
    }
}

// The part of a shape that is outside the limits of machines on this volume.
fn cause_in_shape<D: Device, A: Allocator + Copy>(
    alloc: A,
    device: &mut D,
    shape: Shape,
) -> Option<ShapeCause> {
    if !(1..=MAX_CPUS).contains(&shape.cpus) {
        return Some(ShapeCause::Cpus(shape.cpus));
    }
    if !(1..=MAX_TLB).contains(&shape.tlb) {
        return Some(ShapeCause::Tlb(shape.tlb));
    }
    if shape.copies > MAX_COPIES {
        return Some(ShapeCause::Copies(shape.copies));
    }
    let table = read_super(alloc, &first_block(device)?).ok()?;
    let geometry = table.geometry();
    let found = shape.frames;
    let most = u64::from(geometry.max_frames());
    if geometry.layout().lengths_blocks() == 0 {
        Some(ShapeCause::Frames { found, most })
    } else {
        Some(ShapeCause::FramesBesideLengths { found, most })
    }
}
