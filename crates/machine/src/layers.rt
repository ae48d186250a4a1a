// The layers of a machine, which its acts use together.
ghost use Rattle.std.specs.Prelude.{◌≡◌, ◌<◌, if◌then◌else◌, length};
ghost use Rattle.shootdown.specs.Shootdown.{IsShootdown};
ghost use Rattle.shootdown.specs.Coherence.{Coheres};
ghost use Rattle.checkpoint.specs.Backing.{AreBacked};
ghost use Rattle.machine.specs.State.{length_of};
ghost use Rattle.machine.specs.inside.Sound.{IsSound};
ghost use Rattle.machine.specs.inside.Layers.{state_in};

use crate::Reply;
use crate::paging::length_at;
use checkpoint::Checkpoint;
use device::Device;
use frames::Frames;
use journal::WriteOuts;
use page_entry::FileNumber;
use shootdown::Shootdown;
use spaces::Spaces;
use std::alloc::Allocator;
use volume_codec::Super;

/// The layers of a machine over a device.
#[derive(Drop)]
pub(crate) struct Layers<D: Device, A: Allocator + Copy> {
    pub(crate) table: Super<A>,
    // The length of each file in bytes.
    pub(crate) lengths: Vec<u64, A>,
    pub(crate) shootdown: Shootdown<A>,
    pub(crate) spaces: Spaces<A>,
    pub(crate) frames: Frames<A>,
    pub(crate) checkpoint: Checkpoint<A>,
    pub(crate) write_outs: WriteOuts<A>,
    // The number of marks since boot.
    pub(crate) marks: u32,
    // Whether a length was set since the last mark.
    pub(crate) resized: bool,
    pub(crate) device: D,
}

// Returns the reply if something was done, or else `Nothing`.
pub(crate) fn reply_if(done: bool, reply: Reply) -> Reply
    ensures { result ≡ (if done then reply else Reply.Nothing) }
{
    if done { reply } else { Reply::Nothing }
}

impl<D: Device, A: Allocator + Copy> Layers<D, A> {
    // Returns the length of a file in bytes.
    pub(crate) fn file_length(&self, file: FileNumber) -> u64
        requires sound { IsSound (state_in self.now) }
        requires there { file < length self.now.table.files }
        ensures { result ≡ length_of (state_in self.now) file }
    {
        length_at(&self.lengths, file)
    }

    // Sound layers are coherent: processors with page tables, and page tables with frames.
    pub(crate) fn are_coherent(&self)
        requires sound { IsSound (state_in self.now) }
        ensures coheres { Coheres self.now.spaces.map self.now.shootdown }
        ensures backed { AreBacked self.now.frames self.now.checkpoint self.now.spaces.map }
        ensures phases { IsShootdown self.now.shootdown }
    {}
}
