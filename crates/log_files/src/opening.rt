// Opens the files of a volume with a log.
ghost use Rattle.std.specs.Prelude.{◌≡◌, ◌≢◌, ◌+◌, ◌-◌, ◌*◌, ◌≤◌, ℕ, [], min, length, slice_index};
ghost use Rattle.std.specs.Prelude.{IfOk, IfErr};
ghost use Rattle.device.specs.Device.{LeavesOnly, Only};
ghost use Rattle.volume_codec.specs.Layout.{block_at};
ghost use Rattle.volume_codec.specs.Lengths.{AreLengths};
ghost use Rattle.log_codec.specs.Log.{IsCommitSize};
ghost use Rattle.log_codec.specs.Start.{counts_second};
ghost use Rattle.log_codec.specs.Chain.{HasLog};
ghost use Rattle.log_volume.specs.Super.{table_of, log_of};
ghost use Rattle.log_opening.specs.Opening.{HasWrittenNothing, IsCounted};
ghost use Rattle.log_opening.specs.Volume.{HasOpenedVolume, RefusesVolume, LeftByOpeningVolume};
ghost use Rattle.log_pager.specs.Pager.{IsPagerOver};
ghost use Rattle.log_files.specs.State.{fresh_log_files};
ghost use Rattle.log_files.specs.Calls.{opening_leaves, opening_result};

use crate::LogFiles;
use device::Device;
use log_commits::LogTail;
use log_opening::{OpenedLog, open_log_volume};
use log_pager::LogPager;
use log_store::{LogStore, opened_store};
use log_volume::LogSuper;
use page_entry::Refusal;
use std::alloc::Allocator;

/// Returns the greatest number of pages of files in a commit: `most`, or one less than the log's most records in a
/// commit, if that is fewer.
fn most_pages<A: Allocator + Copy>(table: &LogSuper<A>, most: u32) -> u32
    ensures value { (limit : ℕ) → IsCommitSize table.now.ring limit
        → ((n : ℕ) → IsCommitSize table.now.ring n → n ≤ limit) → result ≡ min most (limit - 1) }
    ensures size { IsCommitSize table.now.ring (result + 1) }
{
    most.min(table.log().most_records() - 1)
}

impl<D: Device, A: Allocator + Copy> LogFiles<D, A> {
    // Makes the files of a volume that was opened.
    fn over(alloc: A, opened: OpenedLog<A>, device: D, most: u32) -> Self
        requires fit { AreLengths (table_of opened.table) opened.lengths.items }
        requires long { 4096 * (log_of opened.table).blocks ≤ length (D.seen device) }
        ensures value { result ≡ fresh_log_files opened.table opened.lengths.items result.most opened.start
            opened.second device }
        ensures most { (limit : ℕ) → IsCommitSize opened.table.ring limit
            → ((n : ℕ) → IsCommitSize opened.table.ring n → n ≤ limit) → result.most ≡ min most (limit - 1) }
        ensures over { Only (D.may_leave device) (D.seen device)
            → HasLog (log_of opened.table) opened.start [] (D.seen device)
            → opened.second ≡ counts_second (slice_index (D.seen device) 4096)
            → IsPagerOver D.Device result.pager (block_at (D.seen device)) }
    {
        opened_store(&device);
        let OpenedLog {
            table,
            lengths,
            start,
            second,
        } = opened;
        let _blocks = table.table().block_count();
        let most = most_pages(&table, most);
        let store = LogStore::new(alloc, LogTail::new(table.log(), start), second);
        LogFiles {
            alloc,
            table,
            lengths,
            most,
            marks: 0,
            pager: LogPager::new(alloc, store, device),
        }
    }

    /// Opens the volume on a device, as `open_log_volume` does. Then nothing is put, and the log has no commit. A
    /// commit takes at most `most` pages of files, or one less than the log's most records in a commit, if that is
    /// fewer. One record is reserved for the lengths.
    ///
    /// Fails with `NotAVolume`, `Damaged`, `Busy`, `Device` or `OutOfMemory`, as `open_log_volume` does. A refusal
    /// returns the device.
    pub fn open(alloc: A, mut device: D, most: u32) -> Result<Self, (Refusal, D)>
        ensures opened { D.is_honest device → IfOk result (λ files. HasOpenedVolume D.Device device files.table
            files.lengths files.pager.store.tail.start files.pager.device) }
        ensures fresh { IfOk result (λ files. files ≡ fresh_log_files files.table files.lengths files.most
            files.pager.store.tail.start files.pager.store.second files.pager.device) }
        ensures second { D.is_honest device → IfOk result (λ files. files.pager.store.second
            ≡ counts_second (slice_index (D.seen files.pager.device) 4096)) }
        ensures most { IfOk result (λ files. (limit : ℕ) → IsCommitSize files.table.ring limit
            → ((n : ℕ) → IsCommitSize files.table.ring n → n ≤ limit) → files.most ≡ min most (limit - 1)) }
        ensures over { D.is_honest device → IfOk result (λ files. IsPagerOver D.Device files.pager
            (block_at (D.seen files.pager.device))) }
        ensures refused { D.is_honest device → IfErr result (λ e. RefusesVolume (D.seen device) e.0) }
        ensures unwritten { IfErr result (λ e. e.0 ≢ Refusal.Device → HasWrittenNothing D.Device device e.1) }
        ensures crash { D.is_honest device → LeavesOnly D.moment D.left_since device (opening_leaves result)
            (LeftByOpeningVolume D.Device device) }
        ensures counted { IsCounted D.Device device (opening_result result) (opening_leaves result) }
    {
        match open_log_volume(alloc, &mut device) {
            Ok(opened) => Ok(LogFiles::over(alloc, opened, device, most)),
            Err(refusal) => Err((refusal, device)),
        }
    }
}
