// A crash within one commit that leaves the bytes of another commit.
ghost use Rattle.std.specs.Prelude.{◌≡◌};
ghost use Rattle.device.specs.Memory.{seen_of, may_leave_of};
ghost use Rattle.least_syncs.specs.Commit.{HasMade, IsCommit, Parting, WritesOver, content_at_sync, syncs_of};

use crate::Recovery;
use device::MemDisk;
use std::alloc::Allocator;

/// Crashes a disk within a commit that hasn't synced yet, so that it has the bytes of another disk. That disk was equal
/// when the commit began. Another commit was synced on it, which has changed only places that are unsynced here.
/// Whatever recovers that commit from there recovers it here as well.
pub fn crash_as_the_other<R: Recovery, A: Allocator + Copy>(
    under_way: &mut MemDisk<A>,
    synced: &MemDisk<A>,
)
    ghost parting: { Parting }

    requires under_way { HasMade parting.begun parting.these under_way.old × (syncs_of parting.these ≡ 0) }
    requires synced { HasMade parting.begun parting.others synced.now
        × (seen_of synced.now ≡ content_at_sync parting.begun parting.others) }
    requires over { WritesOver parting.begun parting.these parting.others }

    ensures left { may_leave_of under_way.old (seen_of under_way.new) }
    ensures bytes { seen_of under_way.new ≡ seen_of synced.now }
    ensures found { (old new : R.Contents) → IsCommit R.recovers old new parting.begun parting.others synced.now
        → R.recovers (seen_of under_way.new) new }
{
    under_way.stop(synced.bytes());
}
