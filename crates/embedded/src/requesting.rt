// The requests to an embedded volume.
ghost use Rattle.std.specs.Prelude.{◌≡◌, ◌⊎◌, None, Some, OnOk, OnErr, IfOk, IfErr};
ghost use Rattle.deferred_disk.specs.Deferred.{as_memory, carried_moment, recorded_calls, IsSuppliedWell};
ghost use Rattle.device.specs.Memory.{seen_of};
ghost use Rattle.journal.specs.Pages.{home_of};
ghost use Rattle.recovery.specs.Counts.{Rises};
ghost use Rattle.recovery.specs.Reading.{IsOnlyRead};
ghost use Rattle.pager.specs.State.{current_in, up_to_end};
ghost use Rattle.pager.specs.Calls.{page_refusal, put_refusal, RefusesPut, after_put, read_calls, set_length_refusal, RefusesSetLength, after_length, last_page, length_calls};
ghost use Rattle.embedded.specs.Embedded.{acknowledged_by_calls, made_calls, over_device, with_mark, with_pager};
ghost use Rattle.embedded.specs.Reading.{pager_refusal, ReportsWanted};
ghost use Rattle.embedded.specs.Recorded.{deferred_disk};
ghost use Rattle.embedded.specs.Steps.{Commits, RefusesCommit, WritesOut, RefusesSteps};

use crate::embedded::Embedded;
use crate::reading::{Unread, block_number};
use crate::steps;
use deferred_disk::DeferredDisk;
use page_entry::{FileNumber, FilePage, Refusal};
use std::alloc::Allocator;

impl<A: Allocator + Copy> Embedded<A> {
    /// Copies a page into `buffer`, with zeros past its file's end, as `Pager::read` does.
    ///
    /// Fails with `Wanted` if the page's home block isn't known. Once the host has supplied it, the page can be read
    /// again.
    pub fn read(&mut self, page: FilePage, buffer: &mut [u8; 4096]) -> Result<(), Unread>
        ensures there { OnOk result (page_refusal self.old.pager.lengths page ≡ None) }
        ensures bytes { IsSuppliedWell self.old.pager.device
            → OnOk result (buffer.new ≡ up_to_end self.old.pager.lengths page
            (current_in self.old.pager.staged self.old.pager.records (seen_of (as_memory self.old.pager.device))
            (home_of self.old.pager.table page))) }
        ensures refused { IfErr result (λ e. (page_refusal self.old.pager.lengths page ≡ Some (pager_refusal e))
            ⊎ ((pager_refusal e ≡ Refusal.Device) × (page_refusal self.old.pager.lengths page ≡ None))) }
        ensures wanted { IfErr result (λ e. ReportsWanted self.new.pager.device.wanted e) }
        ensures state { self.new ≡ with_pager self.old (over_device self.old.pager self.new.pager.device) }
        ensures read { IsOnlyRead deferred_disk self.old.pager.device self.new.pager.device }
        ensures calls { Rises (read_calls self.old.pager page)
            self.old.pager.device.calls self.new.pager.device.calls }
        ensures carried { carried_moment self.new.pager.device ≡ carried_moment self.old.pager.device }
    {
        if let Err(why) = self.pager.read(page, buffer) {
            let wanted = block_number(self.pager.device().wanted());
            return Err(Unread::of(why, wanted));
        }
        Ok(())
    }

    /// Replaces the bytes of a page, up to its file's end, as `Pager::put` does. The next commit contains the page. A
    /// failure changes nothing.
    pub fn put(&mut self, page: FilePage, bytes: &[u8; 4096]) -> Result<(), Refusal>
        ensures ok { OnOk result (put_refusal self.old.pager page ≡ None) }
        ensures put { OnOk result (self.new ≡ with_pager self.old (after_put self.old.pager page bytes.now)) }
        ensures refused { IfErr result (RefusesPut self.old.pager page) }
        ensures unchanged { OnErr result (self.new ≡ self.old) }
    {
        self.pager.put(page, bytes)
    }

    /// Sets the length of a file in bytes, from 0 to its capacity, as `Pager::set_length` does (POSIX.1-2024,
    /// `ftruncate`). The next commit contains the change. A failure changes nothing but the disk, by a read.
    ///
    /// Fails with `Wanted` if the file grows from inside a page whose home block isn't known. Once the host has
    /// supplied it, the length can be set again.
    pub fn set_length(&mut self, file: FileNumber, length: u64) -> Result<(), Unread>
        ensures ok { OnOk result (set_length_refusal self.old.pager file length ≡ None) }
        ensures set { IsSuppliedWell self.old.pager.device → OnOk result (self.new.pager
            ≡ after_length self.old.pager file length (last_page self.old.pager
            (seen_of (as_memory self.old.pager.device)) file) self.new.pager.device) }
        ensures refused { IfErr result (λ e. RefusesSetLength self.old.pager file length (pager_refusal e)) }
        ensures wanted { IfErr result (λ e. ReportsWanted self.new.pager.device.wanted e) }
        ensures unchanged { OnErr result (self.new.pager ≡ over_device self.old.pager self.new.pager.device) }
        ensures rest { self.new ≡ with_pager self.old self.new.pager }
        ensures read { IsOnlyRead deferred_disk self.old.pager.device self.new.pager.device }
        ensures calls { Rises (length_calls self.old.pager file length)
            self.old.pager.device.calls self.new.pager.device.calls }
        ensures carried { carried_moment self.new.pager.device ≡ carried_moment self.old.pager.device }
    {
        match self.pager.set_length(file, length) {
            Ok(()) => Ok(()),
            Err(why) => Err(Unread::of(why, block_number(self.pager.device().wanted()))),
        }
    }

    /// Commits what was put since the last commit, and returns its mark. First makes those steps of earlier commits
    /// without which no commit can begin, and then the steps up to the acknowledgement by the pager. If nothing was
    /// put, no step follows. The mark is durable once the host has made the calls that wait then, as `acknowledged`
    /// reports.
    ///
    /// Fails with:
    ///
    /// - `Device` if a step failed because a block or memory was missing.
    /// - `Broken` if a step had failed earlier.
    /// - `Busy` if 2^32 - 1 commits were made.
    ///
    /// After `Device` or `Broken` no commit succeeds any more. The next opening finds the last acknowledged commit or a
    /// later one.
    pub fn commit(&mut self) -> Result<u32, Refusal>
        ensures commits { IfOk result (λ mark. Commits self.old.pager mark self.new.pager) }
        ensures mark { IfOk result (λ mark. self.new ≡ with_mark self.old mark self.new.pager) }
        ensures refused { IfErr result (λ why. RefusesCommit self.old.pager why self.new.pager) }
        ensures unmarked { OnErr result (self.new ≡ with_pager self.old self.new.pager) }
        ensures carried { carried_moment self.new.pager.device ≡ carried_moment self.old.pager.device }
    {
        let mark = steps::commit(&mut self.pager)?;
        let due = self.pager.device().recorded();
        let made = made_calls(self.pager.device());
        let acknowledged = confirmed(made, due, Some(mark), self.acknowledged);
        self.committed = Some(mark);
        self.due = due;
        self.acknowledged = acknowledged;
        Ok(mark)
    }

    /// Makes at most `most` further steps of the commits that aren't done. These steps copy their pages to the home
    /// blocks. Returns whether a step is left.
    ///
    /// Fails with `Device` if a step failed because a block or memory was missing, and with `Broken` if a step had
    /// failed earlier.
    pub fn write_out(&mut self, most: u32) -> Result<bool, Refusal>
        ensures steps { IfOk result (λ left. WritesOut most self.old.pager left self.new.pager) }
        ensures refused { IfErr result (λ why. RefusesSteps most self.old.pager why self.new.pager) }
        ensures rest { self.new ≡ with_pager self.old self.new.pager }
        ensures carried { carried_moment self.new.pager.device ≡ carried_moment self.old.pager.device }
    {
        steps::write_out(&mut self.pager, most)
    }
}

/// Returns the number of device calls that the host has made.
pub fn made_calls<A: Allocator + Copy>(disk: &DeferredDisk<A>) -> u64
    ensures { result ≡ made_calls disk.now }
{
    disk.recorded().saturating_sub(disk.waiting() as u64)
}

// Rule: deferred acknowledgement
/// Returns the mark that is acknowledged once the host has made `made` calls.
pub fn confirmed(
    made: u64,
    due: u64,
    committed: Option<u32>,
    acknowledged: Option<u32>,
) -> Option<u32>
    ensures { result ≡ acknowledged_by_calls made due committed acknowledged }
{
    if due <= made { committed } else { acknowledged }
}
