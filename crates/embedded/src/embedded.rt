// A volume whose device calls a host makes.
ghost use Rattle.std.specs.Prelude.{◌≡◌, IfOk, IfErr};
ghost use Rattle.page_entry.specs.declared.refusal.Refusal.TheVariants.{NotAVolume};
ghost use Rattle.deferred_disk.specs.Deferred.{IsSuppliedWell};
ghost use Rattle.pager.specs.Calls.{RefusesPagerOpening};
ghost use Rattle.embedded.specs.Recorded.{deferred_disk};
ghost use Rattle.embedded.specs.Embedded.{ServesWell};
ghost use Rattle.embedded.specs.Opening.{OpensVolume, KeepsForWanted};
ghost use Rattle.embedded.specs.Reading.{pager_refusal};
ghost use Rattle.embedded.specs.declared.reading.Unread.TheVariants.{Refused};

use crate::judging::{hand_back, judge};
use crate::reading::Unread;
use deferred_disk::DeferredDisk;
use pager::Pager;
use recovery::opened_as_recovered;
use std::alloc::Allocator;
use std::marker::Model;

/// A volume inside the user's process: a pager over a disk that makes no call itself. The host supplies the blocks that
/// are wanted, and makes the waiting calls in order.
///
/// The host has to supply each block as it is on its device. Then the pager behaves as over a disk that makes each call
/// at once. All that holds of such a pager then holds of this one (`has_served`).
#[derive(Drop)]
pub struct Embedded<A: Allocator + Copy> {
    pub(crate) pager: Pager<DeferredDisk<A>, A>,
    // The mark of the last commit.
    pub(crate) committed: Option<u32>,
    // The number of device calls that were recorded when that commit was reported.
    pub(crate) due: u64,
    // The mark of the last commit whose device calls the host has made.
    pub(crate) acknowledged: Option<u32>,
}

impl<A: Allocator + Copy> Model for Embedded<A> {
    ghost use Rattle.embedded.specs.Embedded.{EmbeddedState, ServesWell};

    ghost Value = { EmbeddedState };

    ghost view = { λ e. record {
      pager = e.pager;
      committed = e.committed;
      due = e.due;
      acknowledged = e.acknowledged;
    } };

    ghost invariant = { λ e. ServesWell e.pager e.committed e.due e.acknowledged };
}

/// Opens the volume of a disk, as `Pager::open` does. A commit takes at most `most` pages of files, or fewer if the
/// journals have room for fewer. On failure, returns the disk with one of these causes:
///
/// - `Wanted` if a block is missing. The host supplies it, and opens again. Of a closed journal, only the gate is
///   wanted.
/// - `NotAVolume` or `Damaged`, as `recovery::open` does.
/// - `OutOfMemory` if memory can't be allocated.
///
/// The first block is judged, and then the opening is tried, before it is made. So no call is recorded if a block is
/// missing. A disk that has no volume with journals stays as it was.
pub fn open<A: Allocator + Copy>(
    alloc: A,
    disk: DeferredDisk<A>,
    most: u32,
) -> Result<Embedded<A>, (Unread, DeferredDisk<A>)>
    ensures opens { IfOk result (OpensVolume disk most) }
    ensures refused { IfErr result (λ e. RefusesPagerOpening deferred_disk disk (pager_refusal e.0) e.1) }
    ensures wanted { IfErr result (λ e. KeepsForWanted disk e.0 e.1) }
    ensures untouched { IsSuppliedWell disk → IfErr result (λ e. e.0 ≡ Refused NotAVolume → e.1 ≡ disk) }
{
    match judge(alloc, &disk) {
        Ok(()) => match Pager::open(alloc, disk, most) {
            Ok(pager) => {
                opened_as_recovered(pager.device());
                Ok(Embedded {
                    pager,
                    committed: None,
                    due: 0,
                    acknowledged: None,
                })
            }
            Err((refusal, disk)) => Err((Unread::Refused(refusal), disk)),
        },
        Err(why) => Err(hand_back(disk, why)),
    }
}

impl<A: Allocator + Copy> Embedded<A> {
    /// Returns the pager.
    pub fn pager(&self) -> &Pager<DeferredDisk<A>, A>
        ensures { result.now ≡ self.now.pager }
    {
        &self.pager
    }

    /// Returns the acknowledged mark. It is the mark of the last commit of which the host has made the device calls
    /// that were recorded when it was reported. Later calls may still wait. Only `commit` and `carried_out` change it.
    pub fn acknowledged(&self) -> Option<u32>
        ensures { result ≡ self.now.acknowledged }
    {
        self.acknowledged
    }

    /// States what holds of every embedded volume, as long as the host supplied each block as it was. Calls led to its
    /// pager from a volume at rest. That volume had the files to which the opened disk recovered. The mark of the last
    /// commit was acknowledged in the history of these calls, and needs the device calls that were recorded then. The
    /// acknowledged mark was acknowledged in that history as well, and the host has made its device calls.
    pub fn has_served(&self)
        ensures { ServesWell self.now.pager self.now.committed self.now.due self.now.acknowledged }
    {
        let _pager = &self.pager;
    }
}
