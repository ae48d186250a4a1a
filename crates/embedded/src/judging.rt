// What is known of a disk before its volume is opened.
ghost use Rattle.std.specs.Prelude.{◌≡◌, ◌≢◌, ◌↔◌, true, false, get_or, slice_range, take, IsTrue, OnOk, IfErr};
ghost use Rattle.page_entry.specs.declared.refusal.Refusal.TheVariants.{NotAVolume};
ghost use Rattle.device.specs.Memory.{seen_of};
ghost use Rattle.deferred_disk.specs.Deferred.{as_memory, IsSuppliedWell};
ghost use Rattle.volume_codec.specs.declared.layout.Layout.{Layout};
ghost use Rattle.volume_codec.specs.Layout.{magic_of};
ghost use Rattle.volume_codec.specs.Recovery.{IsNotAVolume};
ghost use Rattle.pager.specs.Calls.{RefusesPagerOpening};
ghost use Rattle.embedded.specs.declared.reading.Unread.TheVariants.{Refused};
ghost use Rattle.embedded.specs.Opening.{KeepsForWanted};
ghost use Rattle.embedded.specs.Reading.{pager_refusal};
ghost use Rattle.embedded.specs.Recorded.{deferred_disk};
ghost use Rattle.embedded.specs.Supplying.{is_of_disk};
ghost use Rattle.embedded.specs.inside.Judging.{StopsOpening};

use crate::reading::Unread;
use crate::tending::is_of_disk;
use crate::trial::{Trial, after_lack, lacked_block};
use deferred_disk::DeferredDisk;
use page_entry::Refusal;
use std::alloc::Allocator;
use volume_codec::Layout;

// Whether a block doesn't begin with the magic of a layout.
fn has_no_magic(block: &[u8; 4096]) -> bool
    ensures { IsTrue result ↔ ((layout : Layout) → take 8 block.now ≢ magic_of layout) }
{
    let mut magic = [0; 8];
    magic.copy_from_slice(&block[..8]);
    Layout::from_magic(magic).is_none()
}

// Copies the first block of a disk, which is known.
fn peek_first<A: Allocator + Copy>(disk: &DeferredDisk<A>, block: &mut [u8; 4096])
    requires there { is_of_disk disk.now 0 ≡ true }
    requires known { get_or disk.now.known 0 false ≡ true }
    ensures { IsSuppliedWell disk.now → block.new ≡ slice_range (seen_of (as_memory disk.now)) 0 4096 }
{
    let _ = disk.peek(0, block);
}

// What can be read off the first block of a disk.
#[derive(Clone, Copy)]
enum First {
    // It isn't known.
    Unknown,
    // The disk has no volume with journals: it is shorter than a block, or begins with the magic of no layout.
    NoVolume,
    // The disk has a volume with journals, or a damaged one.
    Volume,
}

// Judges the first block of a disk. Counts no read.
fn judge_first<A: Allocator + Copy>(disk: &DeferredDisk<A>) -> First
    ensures unknown { result ≡ First.Unknown
        → (is_of_disk disk.now 0 ≡ true) × (get_or disk.now.known 0 false ≡ false) }
    ensures none { result ≡ First.NoVolume → IsSuppliedWell disk.now → IsNotAVolume (seen_of (as_memory disk.now)) }
    ensures some { result ≡ First.Volume → IsSuppliedWell disk.now
        → IsNotAVolume (seen_of (as_memory disk.now)) → ⊥ }
{
    if !is_of_disk(disk, 0) {
        return First::NoVolume;
    }
    if !disk.is_known(0) {
        return First::Unknown;
    }
    let mut block = [0; 4096];
    peek_first(disk, &mut block);
    if has_no_magic(&block) {
        return First::NoVolume;
    }
    First::Volume
}

// Tries to open the volume of a disk, to see whether a block is missing.
fn try_opening<A: Allocator + Copy>(alloc: A, disk: &DeferredDisk<A>) -> Result<(), Unread>
    ensures { IfErr result (StopsOpening disk.now) }
{
    match lacked_block(disk, recovery::open(alloc, Trial::new(disk))) {
        Ok(Some(block)) => Err(Unread::Wanted(block)),
        Ok(None) => Ok(()),
        Err(_) => Err(Unread::Refused(Refusal::OutOfMemory)),
    }
}

/// Fails if the volume of a disk can't be opened: a block is missing, the disk has no volume with journals, or memory
/// is refused. Counts no read.
pub(crate) fn judge<A: Allocator + Copy>(alloc: A, disk: &DeferredDisk<A>) -> Result<(), Unread>
    ensures stops { IfErr result (StopsOpening disk.now) }
    ensures some { OnOk result (IsSuppliedWell disk.now → IsNotAVolume (seen_of (as_memory disk.now)) → ⊥) }
{
    match judge_first(disk) {
        First::Unknown => Err(Unread::Wanted(0)),
        First::NoVolume => Err(Unread::Refused(Refusal::NotAVolume)),
        First::Volume => try_opening(alloc, disk),
    }
}

/// Returns a disk that isn't opened for this reason. If a block is missing, a read of it is made first.
pub(crate) fn hand_back<A: Allocator + Copy>(
    disk: DeferredDisk<A>,
    why: Unread,
) -> (Unread, DeferredDisk<A>)
    requires { StopsOpening disk why }
    ensures refused { RefusesPagerOpening deferred_disk disk (pager_refusal result.0) result.1 }
    ensures wanted { KeepsForWanted disk result.0 result.1 }
    ensures untouched { result.0 ≡ Refused NotAVolume → result.1 ≡ disk }
{
    match why {
        Unread::Wanted(block) => (Unread::Wanted(block), after_lack(disk, block)),
        Unread::Refused(refusal) => (Unread::Refused(refusal), disk),
    }
}
