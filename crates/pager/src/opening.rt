// Opens a pager over a device.
ghost use Rattle.std.specs.Prelude.{◌≡◌, ◌⊎◌, min, IfOk, IfErr, Ok, Err};
ghost use Rattle.volume_codec.specs.Layout.{max_frames};
ghost use Rattle.recovery.specs.Opening.{Opens};
ghost use Rattle.recovery.specs.Volume.{IsWellFormed};
ghost use Rattle.pager.specs.State.{newly_opened, volume_in};
ghost use Rattle.pager.specs.Calls.{RefusesPagerOpening};
ghost use Rattle.pager.specs.inside.Opening.{IsRoom};

use crate::Pager;
use device::Device;
use journal::WriteOuts;
use kept_blocks::Blocks;
use page_entry::Refusal;
use recovery::Volume;
use std::alloc::{AllocError, Allocator};
use volume_codec::Super;

/// The memory that a pager allocates when it is opened.
#[derive(Drop)]
pub(crate) struct Room<A: Allocator + Copy> {
    pub(crate) lengths: Vec<u64, A>,
    pub(crate) write_outs: WriteOuts<A>,
    pub(crate) records: Vec<Blocks<A>, A>,
    pub(crate) homes: Vec<u32, A>,
}

// Allocates the memory for a pager over a volume.
fn room_for<D: Device, A: Allocator + Copy>(
    alloc: A,
    volume: &Volume<D, A>,
) -> Result<Room<A>, AllocError>
    ensures { IfOk result (IsRoom volume.now.table volume.now.lengths) }
{
    let geometry = volume.table().geometry();
    Ok(Room {
        lengths: Vec::from_slice(alloc, volume.lengths())?,
        write_outs: WriteOuts::new(alloc, geometry)?,
        records: Vec::with_capacity(alloc, geometry.journals() as usize)?,
        homes: Vec::with_capacity(alloc, geometry.slots() as usize)?,
    })
}

/// Returns the largest number of pages in a commit: `most`, or the number that the volume's journals can hold, if that
/// is less.
pub(crate) fn most_pages<A: Allocator + Copy>(table: &Super<A>, most: u32) -> u32
    ensures { result ≡ min most (max_frames table.now.layout table.now.slots) }
{
    let frames = table.geometry().max_frames();
    if most < frames { most } else { frames }
}

impl<D: Device, A: Allocator + Copy> Pager<D, A> {
    /// Opens the volume of a device as `recovery::open` does. A commit takes at most `most` pages, or fewer if the
    /// journals have room for fewer. After the opening no page is put, and each commit is done.
    ///
    /// Fails as `recovery::open` does, or with `OutOfMemory` if memory for the pager's lists runs out. A failure
    /// returns the device.
    pub fn open(alloc: A, device: D, most: u32) -> Result<Self, (Refusal, D)>
        ensures opens { IfOk result (λ pager. Opens D.Device device (Ok pager.table) pager.device) }
        ensures fresh { IfOk result (λ pager. pager ≡ newly_opened (volume_in pager)
            (min most (max_frames pager.table.layout pager.table.slots))) }
        ensures well_formed { IfOk result (λ pager. IsWellFormed D.Device (volume_in pager)) }
        ensures refused { IfErr result (λ e. RefusesPagerOpening D.Device device e.0 e.1) }
    {
        match recovery::open(alloc, device) {
            Ok(volume) => match room_for(alloc, &volume) {
                Ok(room) => Ok(Pager::over(alloc, volume, room, most)),
                Err(_) => Err((Refusal::OutOfMemory, volume.into_device())),
            },
            Err(refused) => Err(refused),
        }
    }
}
