// Makes machines.
ghost use Rattle.std.specs.Prelude.{◌≡◌, ◌↔◌, ◌<◌, ◌≤◌, IsTrue, IfOk};
ghost use Rattle.machine.specs.Fresh.{IsShape};
ghost use Rattle.machine.specs.inside.Booting.{IsFit, IsRoom};

use crate::{MAX_COPIES, MAX_CPUS, MAX_TLB, Shape};
use checkpoint::Checkpoint;
use device::Device;
use frames::Frames;
use journal::WriteOuts;
use recovery::Volume;
use shootdown::Shootdown;
use spaces::Spaces;
use std::alloc::{AllocError, Allocator};
use volume_codec::Super;

impl Shape {
    // Whether a machine over a volume with this table can have this shape.
    pub(crate) fn fits<A: Allocator + Copy>(self, table: &Super<A>) -> bool
        ensures { IsTrue result ↔ IsShape table.now self }
    {
        1 <= self.cpus
            && self.cpus <= MAX_CPUS
            && 1 <= self.tlb
            && self.tlb <= MAX_TLB
            && 1 <= self.frames
            && self.frames <= u64::from(table.geometry().max_frames())
            && self.copies <= MAX_COPIES
    }
}

// Returns the length of each file of a volume.
fn lengths_of<D: Device, A: Allocator + Copy>(
    alloc: A,
    volume: &Volume<D, A>,
) -> Result<Vec<u64, A>, AllocError>
    ensures { IfOk result (λ lengths. lengths.items ≡ volume.now.lengths) }
{
    let count = volume.file_count();
    let mut lengths = Vec::with_capacity(alloc, count)?;
    for file in 0..count {
        lengths.push(volume.length(file))?;
    }
    Ok(lengths)
}

/// The memory that a machine takes when it is made.
#[derive(Drop)]
pub(crate) struct Room<A: Allocator + Copy> {
    pub(crate) lengths: Vec<u64, A>,
    pub(crate) shootdown: Shootdown<A>,
    pub(crate) spaces: Spaces<A>,
    pub(crate) frames: Frames<A>,
    pub(crate) checkpoint: Checkpoint<A>,
    pub(crate) write_outs: WriteOuts<A>,
}

impl<A: Allocator + Copy> Room<A> {
    /// Takes the memory for a machine of this shape over a volume.
    pub(crate) fn new<D: Device>(
        alloc: A,
        volume: &Volume<D, A>,
        shape: Shape,
    ) -> Result<Self, AllocError>
        requires { IsFit shape }
        ensures { IfOk result (IsRoom volume.now.table volume.now.lengths shape) }
    {
        Ok(Room {
            lengths: lengths_of(alloc, volume)?,
            shootdown: Shootdown::new(alloc, shape.cpus as u8, shape.tlb as usize)?,
            spaces: Spaces::new(alloc)?,
            frames: Frames::new(alloc, shape.frames as u32, shape.copies as u32)?,
            checkpoint: Checkpoint::new(alloc, shape.frames as u32)?,
            write_outs: WriteOuts::new(alloc, volume.table().geometry())?,
        })
    }
}
