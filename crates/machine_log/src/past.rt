// The part of a disk over a log that only proofs read. It takes no bytes, and its functions do nothing at run time.
ghost use Rattle.std.specs.Prelude.{◌≡◌, ℕ, ◌+◌, List, [], ◌∷◌, length};
ghost use Rattle.std.specs.Borrow.{ftrue};
ghost use Rattle.std.specs.Coded.{coded_list};
ghost use Rattle.device.specs.Memory.{DiskChange};
ghost use Rattle.device.specs.Memory.DiskChange.{write, sync};
ghost use Rattle.device.specs.inside.Codes.{change_code};

use device::Device;
use log_volume::LogSuper;
use std::alloc::Allocator;
use std::marker::Model;
use std::slice::from_ref;
use volume_codec::Super;

// The first contents of the disk, its writes and syncs, and its moments, each with that of the device. Of the writes,
// syncs and moments, the newest comes first.
#[derive(Drop)]
pub struct Past {
    pub ghost first: { List ℕ },
    pub ghost changes: { List DiskChange } by { coded_list change_code },
    pub ghost moments: { List (ℕ × ℕ) },
}

impl Model for Past {
    ghost also_owns = { λ _. ftrue };
}

impl Past {
    // Returns the past of a disk with this content, which shows a volume on a device at this moment.
    pub(crate) fn begin<D: Device, A: Allocator + Copy>(
        _volume: &LogSuper<A>,
        _table: &Super<A>,
        _device: &D,
    ) -> Past
        ghost began: { List ℕ × ℕ }
        ensures { (result.first ≡ began.0) × (result.changes ≡ []) × (result.moments ≡ (0, began.1) ∷ []) }
    {
        Past::holding(&[], &0, &[])
    }

    // Returns a past with these parts. The caller picks them from the arguments: the earlier past, if there is one, and
    // what came then.
    fn holding(_before: &[Past], _number: &u64, _bytes: &[u8]) -> Past
        ghost held: { List ℕ × (List DiskChange × List (ℕ × ℕ)) }
        ensures { (result.first ≡ held.0) × (result.changes ≡ held.1.0) × (result.moments ≡ held.1.1) }
    {
        Past {}
    }

    // Returns the past after a write of these bytes at an offset, with the device at this moment.
    pub(crate) fn with_write<D: Device>(before: &Past, at: &u64, bytes: &[u8], _device: &D) -> Past
        ghost moment: { ℕ }
        ensures { (result.first ≡ before.now.first)
            × (result.changes ≡ write at.now bytes.now ∷ before.now.changes)
            × (result.moments ≡ (length before.now.changes + 1, moment) ∷ before.now.moments) }
    {
        Past::holding(from_ref(before), at, bytes)
    }

    // Returns the past after a sync.
    pub(crate) fn with_sync<D: Device>(before: &Past, _device: &D) -> Past
        ghost moment: { ℕ }
        ensures { (result.first ≡ before.now.first)
            × (result.changes ≡ sync ∷ before.now.changes)
            × (result.moments ≡ (length before.now.changes + 1, moment) ∷ before.now.moments) }
    {
        Past::holding(from_ref(before), &0, &[])
    }

    // Returns the past after calls of the device that don't show on the disk.
    pub(crate) fn with_calls<D: Device>(before: &Past, _device: &D) -> Past
        ghost moment: { ℕ }
        ensures { (result.first ≡ before.now.first) × (result.changes ≡ before.now.changes)
            × (result.moments ≡ (length before.now.changes, moment) ∷ before.now.moments) }
    {
        Past::holding(from_ref(before), &0, &[])
    }
}
