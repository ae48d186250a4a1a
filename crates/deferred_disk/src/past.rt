// The part of a deferred disk that only proofs read. It takes no memory, and its functions do nothing at run time.
ghost use Rattle.std.specs.Prelude.{◌≡◌, ℕ, ◌+◌, ◌*◌, List, [], ◌∷◌, slice_range};
ghost use Rattle.std.specs.Borrow.{ftrue};
ghost use Rattle.std.specs.Coded.{coded_list};
ghost use Rattle.device.specs.Memory.{DiskChange, content_after};
ghost use Rattle.device.specs.Memory.DiskChange.{write, sync};
ghost use Rattle.device.specs.inside.Codes.{change_code};

use std::marker::Model;
use std::slice::from_ref;

// The first content of the disk, its writes and syncs with the last one first, and each supplied block. Beside a
// supplied block is the content that the disk had there at that time.
#[derive(Drop)]
pub struct Past {
    pub ghost first: { List ℕ },
    pub ghost changes: { List DiskChange } by { coded_list change_code },
    pub ghost supplied: { List (List ℕ × List ℕ) },
}

impl Model for Past {
    ghost also_owns = { λ _. ftrue };
}

impl Past {
    pub(crate) fn begin() -> Past
        ghost content: { List ℕ }
        ensures { (result.first ≡ content) × (result.changes ≡ []) × (result.supplied ≡ []) }
    {
        Past::holding(&[], &0, &[])
    }

    // Returns a past with the parts `held`. The caller derives them from the arguments: the past before, if there is
    // one, and the event that followed.
    fn holding(_before: &[Past], _number: &u64, _bytes: &[u8]) -> Past
        ghost held: { List ℕ × (List DiskChange × List (List ℕ × List ℕ)) }
        ensures { (result.first ≡ held.0) × (result.changes ≡ held.1.0) × (result.supplied ≡ held.1.1) }
    {
        Past {}
    }

    pub(crate) fn with_write(before: &Past, at: &u64, bytes: &[u8]) -> Past
        ensures { (result.first ≡ before.now.first)
            × (result.changes ≡ write at.now bytes.now ∷ before.now.changes)
            × (result.supplied ≡ before.now.supplied) }
    {
        Past::holding(from_ref(before), at, bytes)
    }

    pub(crate) fn with_sync(before: &Past) -> Past
        ensures { (result.first ≡ before.now.first)
            × (result.changes ≡ sync ∷ before.now.changes)
            × (result.supplied ≡ before.now.supplied) }
    {
        Past::holding(from_ref(before), &0, &[])
    }

    pub(crate) fn with_block(before: &Past, block: u32, bytes: &[u8]) -> Past
        ensures { (result.first ≡ before.now.first)
            × (result.changes ≡ before.now.changes)
            × (result.supplied ≡ (
              bytes.now,
              slice_range (content_after before.now.first before.now.changes) (4096 * block) (4096 * block + 4096),
            ) ∷ before.now.supplied) }
    {
        Past::holding(from_ref(before), &u64::from(block), bytes)
    }
}
