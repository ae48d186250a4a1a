// Changes the lengths of files.
ghost use Rattle.std.specs.Prelude.{◌≡◌, ◌+◌, ◌<◌, ◌==◌, ◌%◌, ◌&&◌, ◌∷◌, [], ℕ, List, not, nat_lt, true, false, length};
ghost use Rattle.std.specs.Prelude.{if◌then◌else◌, is_none, None, slice_index_or, IfOk, IfErr, OnOk, OnErr};
ghost use Rattle.page_entry.specs.declared.refusal.Refusal.TheVariants.{NoFrame};
ghost use Rattle.volume_codec.specs.Super.{capacities_in};
ghost use Rattle.recovery.specs.Counts.{Rises};
ghost use Rattle.pager.specs.State.{file_length};
ghost use Rattle.pager.specs.Calls.{end_page, first_reason, reason_if};
ghost use Rattle.kept_blocks.specs.Blocks.{bytes_in, cut_to};
ghost use Rattle.log_recovery.specs.Reading.{ReadsAlone};
ghost use Rattle.log_volume.specs.Super.{table_of};
ghost use Rattle.log_pager.specs.Pager.{IsPagerOver};
ghost use Rattle.log_files.specs.State.{log_home_of, on_device, pages_put};
ghost use Rattle.log_files.specs.Calls.{log_restaged, new_log_length_refusal, log_length_refusal, RefusesLogLength};
ghost use Rattle.log_files.specs.Calls.{log_length_calls, last_log_page, log_resized_to, after_log_length};
ghost use Rattle.log_files.specs.inside.Sound.{MayHaveLogLength};

use crate::LogFiles;
use crate::places::{end_home, home_after};
use device::Device;
use kept_blocks::cut_off;
use page_entry::{FileNumber, PAGE, Refusal};
use pager::{capacity_at, length_at, text_with};
use std::alloc::Allocator;

impl<D: Device, A: Allocator + Copy> LogFiles<D, A> {
    // Whether the file may have this length.
    fn admit_length(&self, file: FileNumber, to: u64) -> Result<(), Refusal>
        ensures may { OnOk result (MayHaveLogLength self.now.table file to) }
        ensures ok { OnOk result (log_length_refusal self.now file to
            ≡ first_reason ((if to == file_length self.now.lengths file then None
            else new_log_length_refusal self.now file to)
            ∷ [])) }
        ensures err { IfErr result (λ why. log_length_refusal self.now file to ≡ Some why) }
        ensures refused { IfErr result (RefusesLogLength self.now file to) }
    {
        if file as usize >= self.lengths.len() {
            return Err(Refusal::NoFile);
        }
        if capacity_at(self.table.table(), file) < to {
            return Err(Refusal::Einval);
        }
        Ok(())
    }

    // Whether the next commit would have too many pages after a growth.
    fn is_overfull(&self, file: FileNumber, from: u64, to: u64) -> bool
        requires may { MayHaveLogLength self.now.table file to }
        requires from { from ≡ file_length self.now.lengths file }
        requires more { from < to }
        ensures { result ≡ nat_lt self.now.most (pages_put self.now.table
            (log_restaged self.now.table self.now.lengths file to [] self.now.pager.staged)) }
    {
        let home = end_home(&self.table, file, from);
        let pages = (home_after(&self.table, file, to) - home) as usize;
        let more = if self.pager.is_put(home) {
            pages - 1
        } else {
            pages
        };
        self.staged_pages() + more > self.most as usize
    }

    // Reads the page in which the file ends, or returns zeros if the file ends at a page boundary.
    fn read_last(&mut self, file: FileNumber, from: u64) -> Result<[u8; 4096], Refusal>
        requires file { file < length self.old.table.files }
        requires from { from ≡ file_length self.old.lengths file }
        requires fits { from < slice_index_or (capacities_in (table_of self.old.table)) file 0 }
        ensures bytes { (contents : ℕ → List ℕ) → D.is_honest self.old.pager.device
            → IsPagerOver D.Device self.old.pager contents → IfOk result (λ last.
            cut_to (from % 4096) last ≡ cut_to (from % 4096) (last_log_page self.old contents file)) }
        ensures state { self.new ≡ on_device self.old self.new.pager.device }
        ensures alone { ReadsAlone D.Device self.old.pager.device self.new.pager.device }
        ensures fault { IfErr result (λ why. (why ≡ Refusal.Device) × ((not (from % 4096 == 0)
            && is_none (bytes_in self.old.pager.staged (log_home_of self.old.table (end_page file from)))) ≡ true)) }
        ensures calls { Rises (if not (from % 4096 == 0)
            && is_none (bytes_in self.old.pager.staged (log_home_of self.old.table (end_page file from)))
            then 1 else 0) (D.calls_made self.old.pager.device) (D.calls_made self.new.pager.device) }
        ensures over { (contents : ℕ → List ℕ) → D.is_honest self.old.pager.device
            → IsPagerOver D.Device self.old.pager contents → IsPagerOver D.Device self.new.pager contents }
    {
        let mut last = [0; 4096];
        if from % PAGE != 0 {
            let home = end_home(&self.table, file, from);
            self.read_home(home, &mut last)?;
        }
        Ok(last)
    }

    // Grows a file. `last` contains the bytes of the page in which it ended.
    fn put_growth(&mut self, file: FileNumber, to: u64, last: &[u8; 4096]) -> Result<(), Refusal>
        requires may { MayHaveLogLength self.old.table file to }
        requires more { file_length self.old.lengths file < to }
        requires room { nat_lt self.old.most (pages_put self.old.table
            (log_restaged self.old.table self.old.lengths file to [] self.old.pager.staged)) ≡ false }
        ensures ok { OnOk result (self.new ≡ log_resized_to self.old file to last.now self.old.pager.device) }
        ensures err { OnErr result (self.new ≡ self.old) }
        ensures memory { IfErr result (λ why. why ≡ Refusal.OutOfMemory) }
        ensures over { (contents : ℕ → List ℕ) → IsPagerOver D.Device self.old.pager contents
            → IsPagerOver D.Device self.new.pager contents }
    {
        let from = length_at(&self.lengths, file);
        let home = end_home(&self.table, file, from);
        let high = home_after(&self.table, file, to);
        let first = self.table.log().first_home();
        let text = text_with(&mut self.lengths, file, to);
        let mut block = *last;
        cut_off(&mut block, from % PAGE);
        match self.pager.grow(home, high, &block, first, &text) {
            Ok(()) => {
                self.lengths[file as usize] = to;
                Ok(())
            }
            Err(_) => Err(Refusal::OutOfMemory),
        }
    }

    // Grows a file.
    fn grow(&mut self, file: FileNumber, from: u64, to: u64) -> Result<(), Refusal>
        requires may { MayHaveLogLength self.old.table file to }
        requires from { from ≡ file_length self.old.lengths file }
        requires more { from < to }
        requires reason { log_length_refusal self.old file to
            ≡ first_reason (reason_if (nat_lt self.old.most (pages_put self.old.table
            (log_restaged self.old.table self.old.lengths file to [] self.old.pager.staged))) NoFrame ∷ []) }
        ensures ok { OnOk result (log_length_refusal self.old file to ≡ None) }
        ensures set { (contents : ℕ → List ℕ) → D.is_honest self.old.pager.device
            → IsPagerOver D.Device self.old.pager contents → OnOk result (self.new ≡ log_resized_to self.old file to
            (last_log_page self.old contents file) self.new.pager.device) }
        ensures some { OnOk result
            ((last : List ℕ) × (self.new ≡ log_resized_to self.old file to last self.new.pager.device)) }
        ensures refused { IfErr result (RefusesLogLength self.old file to) }
        ensures unchanged { OnErr result (self.new ≡ on_device self.old self.new.pager.device) }
        ensures alone { ReadsAlone D.Device self.old.pager.device self.new.pager.device }
        ensures calls { Rises (log_length_calls self.old file to)
            (D.calls_made self.old.pager.device) (D.calls_made self.new.pager.device) }
        ensures over { (contents : ℕ → List ℕ) → D.is_honest self.old.pager.device
            → IsPagerOver D.Device self.old.pager contents → IsPagerOver D.Device self.new.pager contents }
    {
        if self.is_overfull(file, from, to) {
            return Err(Refusal::NoFrame);
        }
        let last = self.read_last(file, from)?;
        self.put_growth(file, to, &last)
    }

    // Shrinks a file.
    fn shrink(&mut self, file: FileNumber, from: u64, to: u64) -> Result<(), Refusal>
        requires may { MayHaveLogLength self.old.table file to }
        requires from { from ≡ file_length self.old.lengths file }
        requires less { to < from }
        ensures room { nat_lt self.old.most (pages_put self.old.table
            (log_restaged self.old.table self.old.lengths file to [] self.old.pager.staged)) ≡ false }
        ensures ok { (last : List ℕ)
            → OnOk result (self.new ≡ log_resized_to self.old file to last self.old.pager.device) }
        ensures device { self.new.pager.device ≡ self.old.pager.device }
        ensures err { OnErr result (self.new ≡ self.old) }
        ensures memory { IfErr result (λ why. why ≡ Refusal.OutOfMemory) }
        ensures over { (contents : ℕ → List ℕ) → IsPagerOver D.Device self.old.pager contents
            → IsPagerOver D.Device self.new.pager contents }
    {
        let low = home_after(&self.table, file, to);
        let high = home_after(&self.table, file, from);
        let home = end_home(&self.table, file, to);
        let first = self.table.log().first_home();
        let text = text_with(&mut self.lengths, file, to);
        match self.pager.shrink(low, high, home, to % PAGE, first, &text) {
            Ok(()) => {
                self.lengths[file as usize] = to;
                Ok(())
            }
            Err(_) => Err(Refusal::OutOfMemory),
        }
    }

    /// Sets the length of a file in bytes, from 0 to its capacity (POSIX.1-2024, `ftruncate`). The next commit contains
    /// the change. If the file has this length already, nothing changes.
    ///
    /// A file that grows has zeros from its old end on. Its new pages, and the page in which it ended, are put. They
    /// count among the pages of the next commit. When a file shrinks, its pages past the new end are no longer put. If
    /// the page in which it then ends is put, its bytes from the new end on become zeros. A growth takes one device
    /// call if the old end is inside a page that isn't put. Nothing else takes one.
    ///
    /// Fails with:
    ///
    /// - `NoFile` if there is no such file.
    /// - `Einval` if the length exceeds the file's capacity.
    /// - `Broken` if a device call of a commit or a step failed.
    /// - `NoFrame` if the next commit can't take that many pages.
    /// - `Device` if the device call failed.
    /// - `OutOfMemory` if there is too little memory.
    ///
    /// A refusal changes nothing.
    pub fn set_length(&mut self, file: FileNumber, length: u64) -> Result<(), Refusal>
        ensures ok { OnOk result (log_length_refusal self.old file length ≡ None) }
        ensures set { (contents : ℕ → List ℕ) → D.is_honest self.old.pager.device
            → IsPagerOver D.Device self.old.pager contents → OnOk result (self.new ≡ after_log_length self.old file
            length (last_log_page self.old contents file) self.new.pager.device) }
        ensures some { OnOk result
            ((last : List ℕ) × (self.new ≡ after_log_length self.old file length last self.new.pager.device)) }
        ensures refused { IfErr result (RefusesLogLength self.old file length) }
        ensures unchanged { OnErr result (self.new ≡ on_device self.old self.new.pager.device) }
        ensures alone { ReadsAlone D.Device self.old.pager.device self.new.pager.device }
        ensures calls { Rises (log_length_calls self.old file length)
            (D.calls_made self.old.pager.device) (D.calls_made self.new.pager.device) }
        ensures over { (contents : ℕ → List ℕ) → D.is_honest self.old.pager.device
            → IsPagerOver D.Device self.old.pager contents → IsPagerOver D.Device self.new.pager contents }
    {
        self.admit_length(file, length)?;
        let from = length_at(&self.lengths, file);
        if length == from {
            return Ok(());
        }
        if self.pager.is_spent() {
            return Err(Refusal::Broken);
        }
        if length < from {
            self.shrink(file, from, length)
        } else {
            self.grow(file, from, length)
        }
    }
}
