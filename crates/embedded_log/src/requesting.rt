// The requests to a volume with a log.
ghost use Rattle.std.specs.Prelude.{◌≡◌, ℕ, List, None, OnOk, OnErr, IfOk, IfErr};
ghost use Rattle.deferred_disk.specs.Deferred.{as_memory, carried_moment, IsSuppliedWell};
ghost use Rattle.recovery.specs.Counts.{Rises};
ghost use Rattle.pager.specs.State.{up_to_end};
ghost use Rattle.pager.specs.Calls.{page_refusal};
ghost use Rattle.log_recovery.specs.Reading.{ReadsAlone};
ghost use Rattle.log_pager.specs.Pager.{IsPagerOver, contents_put};
ghost use Rattle.log_files.specs.State.{log_home_of, on_device};
ghost use Rattle.log_files.specs.Calls.{RefusesPageRead, page_read_calls, log_put_refusal, RefusesPagePut};
ghost use Rattle.log_files.specs.Calls.{after_page_put, log_length_refusal, RefusesLogLength, log_length_calls};
ghost use Rattle.log_files.specs.Calls.{last_log_page, after_log_length};
ghost use Rattle.embedded.specs.Reading.{pager_refusal, ReportsWanted};
ghost use Rattle.embedded.specs.Recorded.{deferred_disk};
ghost use Rattle.embedded_log.specs.State.{with_files, with_log_mark};
ghost use Rattle.embedded_log.specs.Steps.{CommitsLog, StopsLogCommit, WritesCommitsHome, StopsSteps};

use crate::steps;
use crate::volume::EmbeddedLog;
use embedded::{Unread, block_number, confirmed, made_calls};
use page_entry::{FileNumber, FilePage, Refusal};
use std::alloc::Allocator;

impl<A: Allocator + Copy> EmbeddedLog<A> {
    /// Copies a page into `buffer`, with zeros past its file's end, as `LogFiles::read` does.
    ///
    /// Fails with `Wanted` if the block with the page's bytes isn't known. The host supplies that block, and reads the
    /// page again.
    pub fn read(&mut self, page: FilePage, buffer: &mut [u8; 4096]) -> Result<(), Unread>
        ensures there { OnOk result (page_refusal self.old.files.lengths page ≡ None) }
        ensures bytes { (contents : ℕ → List ℕ) → IsSuppliedWell self.old.files.pager.device
            → IsPagerOver deferred_disk self.old.files.pager contents
            → OnOk result (buffer.new ≡ up_to_end self.old.files.lengths page
            (contents_put contents self.old.files.pager.staged (log_home_of self.old.files.table page))) }
        ensures refused { IfErr result (λ e. RefusesPageRead self.old.files page (pager_refusal e)) }
        ensures wanted { IfErr result (λ e. ReportsWanted self.new.files.pager.device.wanted e) }
        ensures state { self.new ≡ with_files self.old (on_device self.old.files self.new.files.pager.device) }
        ensures alone { ReadsAlone deferred_disk self.old.files.pager.device self.new.files.pager.device }
        ensures calls { Rises (page_read_calls self.old.files page)
            self.old.files.pager.device.calls self.new.files.pager.device.calls }
    {
        if let Err(why) = self.files.read(page, buffer) {
            let wanted = block_number(self.files.device().wanted());
            return Err(Unread::of(why, wanted));
        }
        Ok(())
    }

    /// Puts these bytes into a page, up to its file's end, as `LogFiles::put` does. The next commit takes the page.
    /// After a failure nothing has changed.
    pub fn put(&mut self, page: FilePage, bytes: &[u8; 4096]) -> Result<(), Refusal>
        ensures ok { OnOk result (log_put_refusal self.old.files page ≡ None) }
        ensures put { OnOk result (self.new ≡ with_files self.old (after_page_put self.old.files page bytes.now)) }
        ensures refused { IfErr result (RefusesPagePut self.old.files page) }
        ensures unchanged { OnErr result (self.new ≡ self.old) }
    {
        self.files.put(page, bytes)
    }

    /// Sets the length of a file in bytes, from 0 to its capacity, as `LogFiles::set_length` does (POSIX.1-2024,
    /// `ftruncate`). The next commit takes the change. After a failure only the disk may have changed, by a read.
    ///
    /// Fails with `Wanted` if the file grows from inside a page, and the block with that page's bytes isn't known. The
    /// host supplies that block, and sets the length again.
    pub fn set_length(&mut self, file: FileNumber, length: u64) -> Result<(), Unread>
        ensures ok { OnOk result (log_length_refusal self.old.files file length ≡ None) }
        ensures set { (contents : ℕ → List ℕ) → IsSuppliedWell self.old.files.pager.device
            → IsPagerOver deferred_disk self.old.files.pager contents → OnOk result (self.new.files
            ≡ after_log_length self.old.files file length (last_log_page self.old.files contents file)
            self.new.files.pager.device) }
        ensures some { OnOk result ((last : List ℕ) × (self.new.files
            ≡ after_log_length self.old.files file length last self.new.files.pager.device)) }
        ensures refused { IfErr result (λ e. RefusesLogLength self.old.files file length (pager_refusal e)) }
        ensures wanted { IfErr result (λ e. ReportsWanted self.new.files.pager.device.wanted e) }
        ensures unchanged { OnErr result (self.new.files ≡ on_device self.old.files self.new.files.pager.device) }
        ensures rest { self.new ≡ with_files self.old self.new.files }
        ensures alone { ReadsAlone deferred_disk self.old.files.pager.device self.new.files.pager.device }
        ensures calls { Rises (log_length_calls self.old.files file length)
            self.old.files.pager.device.calls self.new.files.pager.device.calls }
    {
        if let Err(why) = self.files.set_length(file, length) {
            let wanted = block_number(self.files.device().wanted());
            return Err(Unread::of(why, wanted));
        }
        Ok(())
    }

    /// Commits what was put since the last commit, and returns the commit's mark. If the log has no room, this first
    /// makes steps, which write older commits home. The mark is durable once the host has made the calls that wait when
    /// this returns (see `acknowledged`). If nothing was put, no call is recorded.
    ///
    /// Fails with:
    ///
    /// * `Wanted` if a step or the commit needs a block that isn't known. The host supplies that block, and commits
    ///   again. Nothing is lost, and the steps that were made remain.
    /// * `Device` if a device call failed, and `Broken` if one had failed earlier. No later commit succeeds. The next
    ///   opening finds the last acknowledged commit or a later one.
    /// * `Busy` if a number is used up: 2^32 - 1 commits were made, or the log's commits have reached 2^64 - 2.
    /// * `OutOfMemory` if there is no memory. The caller can commit again.
    pub fn commit(&mut self) -> Result<u32, Unread>
        ensures commits { IfOk result (λ mark. CommitsLog self.old.files mark self.new.files) }
        ensures mark { IfOk result (λ mark. self.new ≡ with_log_mark self.old mark self.new.files) }
        ensures stopped { IfErr result (λ e. StopsLogCommit self.old.files e self.new.files) }
        ensures unmarked { OnErr result (self.new ≡ with_files self.old self.new.files) }
        ensures carried { carried_moment self.new.files.pager.device ≡ carried_moment self.old.files.pager.device }
    {
        let mark = match steps::commit(&mut self.files) {
            Ok(mark) => mark,
            Err(e) => return Err(e),
        };
        let due = self.files.device().recorded();
        let made = made_calls(self.files.device());
        let acknowledged = confirmed(made, due, Some(mark), self.acknowledged);
        self.committed = Some(mark);
        self.due = due;
        self.acknowledged = acknowledged;
        Ok(mark)
    }

    /// Makes at most `most` steps, which write commits home and then free their blocks of the log. Returns whether a
    /// step is left.
    ///
    /// Fails with `Wanted` if a step needs a block that isn't known. The host supplies that block, and calls this
    /// again. Steps that were made remain. Fails with `Device` if a device call failed, and with `Broken` if one had
    /// failed earlier. Fails with `OutOfMemory` if there is no memory; the caller can call this again.
    pub fn write_out(&mut self, most: u32) -> Result<bool, Unread>
        ensures steps { IfOk result (λ left. WritesCommitsHome most self.old.files left self.new.files) }
        ensures stopped { IfErr result (λ e. StopsSteps most self.old.files e self.new.files) }
        ensures rest { self.new ≡ with_files self.old self.new.files }
        ensures carried { carried_moment self.new.files.pager.device ≡ carried_moment self.old.files.pager.device }
    {
        steps::write_out(&mut self.files, most)
    }
}
