// A volume with a log, whose host makes the device calls.
ghost use Rattle.std.specs.Prelude.{◌≡◌, ◌-◌, IfOk, IfErr};
ghost use Rattle.embedded.specs.Opening.{KeepsForWanted};
ghost use Rattle.embedded.specs.Reading.{pager_refusal};
ghost use Rattle.embedded_log.specs.Opening.{OpensLogVolume, RefusesEmbeddedLog};
ghost use Rattle.embedded_log.specs.Serving.{ServesLogWell};

use deferred_disk::DeferredDisk;
use embedded::{Trial, Unread, after_lack, lacked_block};
use log_files::LogFiles;
use page_entry::Refusal;
use std::alloc::Allocator;
use std::marker::Model;

/// A volume with a log inside the user's process. Its files are on a disk that makes no call itself. The host supplies
/// wanted blocks, and makes the waiting calls in order.
///
/// This holds while the host supplies each block as it is on its device: the files are as over a disk that made each
/// call at once. All that holds of such files holds of these (`has_served`).
#[derive(Drop)]
pub struct EmbeddedLog<A: Allocator + Copy> {
    pub(crate) files: LogFiles<DeferredDisk<A>, A>,
    // The mark of the last commit.
    pub(crate) committed: Option<u32>,
    // The number of device calls that were recorded when that commit returned.
    pub(crate) due: u64,
    // The last acknowledged mark.
    pub(crate) acknowledged: Option<u32>,
}

impl<A: Allocator + Copy> Model for EmbeddedLog<A> {
    ghost use Rattle.embedded_log.specs.State.{EmbeddedLogState};
    ghost use Rattle.embedded_log.specs.Serving.{ServesLogWell};

    ghost Value = { EmbeddedLogState };

    ghost view = { λ e. record {
      files = e.files;
      committed = e.committed;
      due = e.due;
      acknowledged = e.acknowledged;
    } };

    ghost invariant = { λ e. ServesLogWell e.files e.committed e.due e.acknowledged };
}

/// Opens the volume with a log on a disk, as `LogFiles::open` does. A commit takes at most `most` pages of files, or
/// one less than the log has room for in one commit, if that is fewer. A failure returns the disk.
///
/// Fails with `Wanted` if a block is lacking. The host supplies that block, and opens again. The opening is tried
/// before it is made, so it records no call if a block is wanted. Fails with `NotAVolume`, `Damaged` and `Busy` as
/// `LogFiles::open` does, and with `OutOfMemory` if there is no memory.
pub fn open<A: Allocator + Copy>(
    alloc: A,
    disk: DeferredDisk<A>,
    most: u32,
) -> Result<EmbeddedLog<A>, (Unread, DeferredDisk<A>)>
    ensures opens { IfOk result (OpensLogVolume disk most) }
    ensures refused { IfErr result (λ e. RefusesEmbeddedLog disk (pager_refusal e.0) e.1) }
    ensures wanted { IfErr result (λ e. KeepsForWanted disk e.0 e.1) }
{
    match lacked_block(&disk, LogFiles::open(alloc, Trial::new(&disk), most)) {
        Ok(Some(block)) => return Err((Unread::Wanted(block), after_lack(disk, block))),
        Ok(None) => {}
        Err(_) => return Err((Unread::Refused(Refusal::OutOfMemory), disk)),
    }
    match LogFiles::open(alloc, disk, most) {
        Ok(files) => Ok(EmbeddedLog {
            files,
            committed: None,
            due: 0,
            acknowledged: None,
        }),
        Err((refusal, disk)) => Err((Unread::Refused(refusal), disk)),
    }
}

impl<A: Allocator + Copy> EmbeddedLog<A> {
    /// Returns the files.
    pub fn files(&self) -> &LogFiles<DeferredDisk<A>, A>
        ensures { result.now ≡ self.now.files }
    {
        &self.files
    }

    /// Returns the number of blocks of the log that are in use.
    pub fn used(&self) -> u32
        ensures { result ≡ self.now.files.pager.store.tail.used }
    {
        self.files.used()
    }

    /// Returns the same number as `used`. A host decides by it when to write commits home.
    pub fn unwritten(&self) -> u32
        ensures { result ≡ self.now.files.pager.store.tail.used }
    {
        self.files.used()
    }

    /// Returns the number of blocks of the log.
    pub fn ring(&self) -> u32
        ensures { result ≡ self.now.files.table.ring }
    {
        self.files.table().log().ring()
    }

    /// Returns the number of commits in the log that aren't all written home. A commit of nothing doesn't count.
    pub fn commits(&self) -> u64
        ensures { result ≡ self.now.files.pager.store.tail.number - self.now.files.pager.store.tail.start.number }
    {
        self.files.commits()
    }

    /// Returns the last acknowledged mark. The last commit's mark is acknowledged once the host has made all device
    /// calls that were recorded when that commit returned. Later calls may still wait. Only `commit` and `carried_out`
    /// acknowledge a mark.
    pub fn acknowledged(&self) -> Option<u32>
        ensures { result ≡ self.now.acknowledged }
    {
        self.acknowledged
    }

    /// States how each embedded volume with a log arose, if the host supplied each block as it was on its device. Calls
    /// led to its files from the opening of a volume, with the files to which a disk recovered.
    ///
    /// The history contains the acknowledgement of the last commit's mark. That mark needs as many device calls as were
    /// recorded then. The history also acknowledges the mark that `acknowledged` returns, whose device calls the host
    /// has made.
    pub fn has_served(&self)
        ensures { ServesLogWell self.now.files self.now.committed self.now.due self.now.acknowledged }
    {
        let _files = &self.files;
    }
}
