// The next step of write-outs: one of them makes it alone, or all of them share a sync.
ghost use Rattle.std.specs.Prelude.{◌≡◌, ◌≢◌, ◌⊎◌, ◌*◌, ◌<◌, ◌≤◌, if◌then◌else◌, IsSome, IfSome, IfNone, length, map, slice_index_or};
ghost use Rattle.std.specs.List.{AllByRecursion};
ghost use Rattle.std.specs.Option.{option_map_or};
ghost use Rattle.std.specs.Vec.{vec_len, vec_capacity};
ghost use Rattle.device.specs.Did.{Did};
ghost use Rattle.journal.specs.Work.{Sync, Nothing, has_done};
ghost use Rattle.journal.specs.WriteOut.{WriteOut, next_stage, work_of, answer_of};
ghost use Rattle.journal.specs.WriteOuts.{shares_syncs as in_common, moving, moved};
ghost use Rattle.journal.specs.inside.Sound.{IsWriteOut};
ghost use Rattle.journal.specs.inside.Queued.{queued_advanced};
ghost use Rattle.journal.specs.inside.Room.{write_outs_in, rooms_in, IsLone, IsJoint};

use crate::Flushed;
use crate::queued::Queued;
use device::{Device, make_durable};
use std::alloc::Allocator;
use volume_codec::Geometry;

// Counts the step of each of them as made.
fn advance_all<A: Allocator + Copy>(queued: &mut Vec<Queued<A>, A>)
    requires going { AllByRecursion (λ w. IsSome (next_stage w)) (write_outs_in queued.old.items) }
    ensures queued { queued.new.items ≡ map queued_advanced queued.old.items }
    ensures capacity { vec_capacity queued.new ≡ vec_capacity queued.old }
{
    for place in 0..queued.len() {
        queued[place].advance();
    }
}

// Makes one sync, which is the step of each of them. Returns the result of the oldest one's step, or `Device` if the
// sync failed.
fn share_sync<D: Device, A: Allocator + Copy>(
    queued: &mut Vec<Queued<A>, A>,
    device: &mut D,
) -> Flushed
    requires some { 0 < vec_len queued.old }
    requires going { AllByRecursion (λ w. IsSome (next_stage w)) (write_outs_in queued.old.items) }
    ensures answer { (d : WriteOut) → (result ≡ answer_of (slice_index_or (write_outs_in queued.old.items) 0 d))
        ⊎ (result ≡ Flushed.Device) }
    ensures sane { result ≢ Flushed.Broken }
    ensures queued { queued.new.items
        ≡ (if has_done result then map queued_advanced queued.old.items else queued.old.items) }
    ensures capacity { vec_capacity queued.new ≡ vec_capacity queued.old }
    ensures did { Did D.Device device.old Sync (has_done result) device.new }
{
    let answer = queued[0].answer();
    if make_durable(device).is_err() {
        return Flushed::Device;
    }
    advance_all(queued);
    answer
}

/// Makes the next step of these write-outs: of the one at `place` alone, or of all, which share a sync. Returns the
/// step's result, or `Device` if a device call failed.
pub(crate) fn step_next<D: Device, A: Allocator + Copy>(
    queued: &mut Vec<Queued<A>, A>,
    place: Option<usize>,
    geometry: &Geometry,
    device: &mut D,
    bytes: &[u8; 4096],
    buffer: &mut [u8; 4096],
) -> Flushed
    requires long { 4096 * geometry.now.blocks ≤ length (D.seen device.old) }
    requires some { 0 < vec_len queued.old }
    requires each { AllByRecursion (IsWriteOut geometry.now) (write_outs_in queued.old.items) }
    requires lone { IfSome place (IsLone (in_common geometry.now.layout) (write_outs_in queued.old.items)) }
    requires joint { IfNone place (IsJoint (in_common geometry.now.layout) (write_outs_in queued.old.items)) }
    ensures answer { (result ≡ option_map_or answer_of
        (moving (in_common geometry.now.layout) (write_outs_in queued.old.items)) Flushed.Broken)
        ⊎ (result ≡ Flushed.Device) }
    ensures sane { result ≢ Flushed.Broken }
    ensures batches { write_outs_in queued.new.items ≡ (if has_done result
        then moved (in_common geometry.now.layout) (write_outs_in queued.old.items)
        else write_outs_in queued.old.items) }
    ensures rooms { rooms_in queued.new.items ≡ rooms_in queued.old.items }
    ensures count { length queued.new.items ≡ length queued.old.items }
    ensures capacity { vec_capacity queued.new ≡ vec_capacity queued.old }
    ensures did { Did D.Device device.old (option_map_or (work_of geometry.now bytes.now)
        (moving (in_common geometry.now.layout) (write_outs_in queued.old.items)) Nothing)
        (has_done result) device.new }
{
    match place {
        Some(at) => queued[at].step(geometry, device, bytes, buffer),
        None => share_sync(queued, device),
    }
}
