// The files of a volume with a log.
ghost use Rattle.std.specs.Prelude.{◌≡◌, ◌+◌, ◌-◌, ◌*◌, ◌<◌, ℕ, List, length, false, None, Some};
ghost use Rattle.std.specs.Prelude.{if◌then◌else◌, is_none, IfOk, IfErr, OnOk, OnErr};
ghost use Rattle.volume_codec.specs.Lengths.{AreLengths};
ghost use Rattle.recovery.specs.Counts.{Rises};
ghost use Rattle.pager.specs.State.{file_length, up_to_end};
ghost use Rattle.pager.specs.Calls.{page_refusal};
ghost use Rattle.kept_blocks.specs.Blocks.{bytes_in, cut_to, with_home};
ghost use Rattle.log_codec.specs.Log.{first_log_home};
ghost use Rattle.log_codec.specs.Chain.{IsLogHome};
ghost use Rattle.log_recovery.specs.Reading.{ReadsAlone};
ghost use Rattle.log_volume.specs.Super.{table_of, log_of};
ghost use Rattle.log_pager.specs.Pager.{IsPagerOver, contents_put};
ghost use Rattle.log_files.specs.State.{log_home_of, on_device, takes_no_page, with_staged};
ghost use Rattle.log_files.specs.Calls.{log_put_refusal, RefusesPagePut, after_page_put, RefusesPageRead};
ghost use Rattle.log_files.specs.Calls.{page_read_calls};
ghost use Rattle.log_files.specs.inside.Sound.{IsInsideFile};

use crate::places::page_home;
use device::Device;
use kept_blocks::{boxed_page, cut_off};
use log_pager::LogPager;
use log_volume::LogSuper;
use page_entry::{FilePage, PAGE, Refusal};
use pager::length_at;
use std::alloc::Allocator;
use std::marker::Model;

/// The files of a volume with a log. Pages are put and lengths are set. Both are committed together, read back, and
/// written home in steps.
#[derive(Drop)]
pub struct LogFiles<D: Device, A: Allocator + Copy> {
    pub(crate) alloc: A,
    pub(crate) table: LogSuper<A>,
    // The length of each file in bytes.
    pub(crate) lengths: Vec<u64, A>,
    // The greatest number of pages of files in a commit.
    pub(crate) most: u32,
    // The number of commits since the opening.
    pub(crate) marks: u32,
    // The home blocks that were put, the log, and the device.
    pub(crate) pager: LogPager<D, A>,
}

impl<D: Device, A: Allocator + Copy> Model for LogFiles<D, A> {
    ghost use Rattle.log_files.specs.State.{LogFilesState};
    ghost use Rattle.log_files.specs.inside.Fields.{files_state_of};
    ghost use Rattle.log_files.specs.inside.Sound.{IsSoundLogFiles};

    ghost Value = { LogFilesState D };

    ghost view = { files_state_of };

    ghost invariant = { λ p. IsSoundLogFiles D.seen (files_state_of p) };
}

impl<D: Device, A: Allocator + Copy> LogFiles<D, A> {
    // Returns the home block of a page, which must begin before its file's end.
    pub(crate) fn admit_page(&self, page: FilePage) -> Result<u32, Refusal>
        ensures ok { OnOk result (page_refusal self.now.lengths page ≡ None) }
        ensures home { IfOk result (λ home. home ≡ log_home_of self.now.table page) }
        ensures low { IfOk result (λ home. first_log_home self.now.table.ring < home) }
        ensures within { IfOk result (λ home. home < (log_of self.now.table).blocks) }
        ensures inside { IfOk result (IsInsideFile self.now.table self.now.lengths) }
        ensures file { OnOk result (page.file < length self.now.lengths) }
        ensures err { IfErr result (λ why. page_refusal self.now.lengths page ≡ Some why) }
    {
        if page.file as usize >= self.lengths.len() {
            return Err(Refusal::NoFile);
        }
        if length_at(&self.lengths, page.file) <= PAGE * u64::from(page.page) {
            return Err(Refusal::Einval);
        }
        Ok(page_home(&self.table, &self.lengths, page))
    }

    // The number of the file's bytes from the beginning of the page on.
    fn left(&self, page: FilePage) -> u64
        requires { page.file < length self.now.lengths }
        ensures { result ≡ file_length self.now.lengths page.file - 4096 * page.page }
    {
        length_at(&self.lengths, page.file).saturating_sub(PAGE * u64::from(page.page))
    }

    // Whether the next commit can't take this home block, because it is full and the block isn't put yet.
    fn takes_no_page(&self, home: u32) -> bool
        ensures { result ≡ takes_no_page self.now.table self.now.most self.now.pager.staged home }
    {
        if self.pager.is_put(home) {
            return false;
        }
        self.staged_pages() >= self.most as usize
    }

    // Stages the first `left` bytes of a page, with zeros after them, for the next commit.
    fn stage(&mut self, home: u32, bytes: &[u8; 4096], left: u64) -> Result<(), Refusal>
        requires low { first_log_home self.old.table.ring < home }
        requires within { home < (log_of self.old.table).blocks }
        requires inside { IsInsideFile self.old.table self.old.lengths home }
        requires room { takes_no_page self.old.table self.old.most self.old.pager.staged home ≡ false }
        ensures ok { OnOk result (self.new
            ≡ with_staged self.old (with_home self.old.pager.staged home (cut_to left bytes.now))) }
        ensures err { OnErr result (self.new ≡ self.old) }
        ensures memory { IfErr result (λ why. why ≡ Refusal.OutOfMemory) }
        ensures over { (contents : ℕ → List ℕ) → IsPagerOver D.Device self.old.pager contents
            → IsPagerOver D.Device self.new.pager contents }
    {
        let Ok(block) = boxed_page(self.alloc, bytes, left) else {
            return Err(Refusal::OutOfMemory);
        };
        match self.pager.put_block(home, block) {
            Ok(()) => Ok(()),
            Err(_) => Err(Refusal::OutOfMemory),
        }
    }

    /// Puts the bytes of a page, up to its file's end. The next commit contains them. No device call is made.
    ///
    /// Fails with:
    ///
    /// - `NoFile` or `Einval` if there is no such page.
    /// - `Broken` if a device call of a commit or a step failed.
    /// - `NoFrame` if the next commit can't take another page.
    /// - `OutOfMemory` if there is too little memory.
    ///
    /// A refusal changes nothing.
    pub fn put(&mut self, page: FilePage, bytes: &[u8; 4096]) -> Result<(), Refusal>
        ensures ok { OnOk result (log_put_refusal self.old page ≡ None) }
        ensures put { OnOk result (self.new ≡ after_page_put self.old page bytes.now) }
        ensures refused { IfErr result (RefusesPagePut self.old page) }
        ensures unchanged { OnErr result (self.new ≡ self.old) }
        ensures over { (contents : ℕ → List ℕ) → IsPagerOver D.Device self.old.pager contents
            → IsPagerOver D.Device self.new.pager contents }
    {
        let home = self.admit_page(page)?;
        if self.pager.is_spent() {
            return Err(Refusal::Broken);
        }
        if self.takes_no_page(home) {
            return Err(Refusal::NoFrame);
        }
        self.stage(home, bytes, self.left(page))
    }

    // Reads a home block of a file: the bytes that were put last, or else those of the commits so far.
    pub(crate) fn read_home(&mut self, home: u32, buffer: &mut [u8; 4096]) -> Result<(), Refusal>
        requires home { IsLogHome (log_of self.old.table) home }
        ensures bytes { (contents : ℕ → List ℕ) → D.is_honest self.old.pager.device
            → IsPagerOver D.Device self.old.pager contents
            → OnOk result (buffer.new ≡ contents_put contents self.old.pager.staged home) }
        ensures fault { IfErr result (λ why.
            (why ≡ Refusal.Device) × (bytes_in self.old.pager.staged home ≡ None)) }
        ensures state { self.new ≡ on_device self.old self.new.pager.device }
        ensures alone { ReadsAlone D.Device self.old.pager.device self.new.pager.device }
        ensures calls { Rises (if is_none (bytes_in self.old.pager.staged home) then 1 else 0)
            (D.calls_made self.old.pager.device) (D.calls_made self.new.pager.device) }
        ensures over { (contents : ℕ → List ℕ) → D.is_honest self.old.pager.device
            → IsPagerOver D.Device self.old.pager contents → IsPagerOver D.Device self.new.pager contents }
    {
        let _log = self.pager.log();
        match self.pager.read(home, buffer) {
            Ok(()) => Ok(()),
            Err(_) => Err(Refusal::Device),
        }
    }

    /// Reads a page, with zeros past its file's end. Copies the bytes that were put last. If the page wasn't put since
    /// the last commit, copies what the commits so far left, which takes a device call.
    ///
    /// Fails with `NoFile` or `Einval` if there is no such page. Fails with `Device` if the device call failed.
    pub fn read(&mut self, page: FilePage, buffer: &mut [u8; 4096]) -> Result<(), Refusal>
        ensures there { OnOk result (page_refusal self.old.lengths page ≡ None) }
        ensures bytes { (contents : ℕ → List ℕ) → D.is_honest self.old.pager.device
            → IsPagerOver D.Device self.old.pager contents
            → OnOk result (buffer.new ≡ up_to_end self.old.lengths page
            (contents_put contents self.old.pager.staged (log_home_of self.old.table page))) }
        ensures refused { IfErr result (RefusesPageRead self.old page) }
        ensures state { self.new ≡ on_device self.old self.new.pager.device }
        ensures alone { ReadsAlone D.Device self.old.pager.device self.new.pager.device }
        ensures calls { Rises (page_read_calls self.old page)
            (D.calls_made self.old.pager.device) (D.calls_made self.new.pager.device) }
        ensures over { (contents : ℕ → List ℕ) → D.is_honest self.old.pager.device
            → IsPagerOver D.Device self.old.pager contents → IsPagerOver D.Device self.new.pager contents }
    {
        let home = self.admit_page(page)?;
        let left = self.left(page);
        self.read_home(home, buffer)?;
        cut_off(buffer, left);
        Ok(())
    }

    /// Returns the contents of the super block: how commits are sealed, the size of the log, and the table of files.
    pub fn table(&self) -> &LogSuper<A>
        ensures { result.now ≡ self.now.table }
    {
        &self.table
    }

    /// Returns the length of each file in bytes, in the table's order. No length exceeds its file's capacity.
    pub fn lengths(&self) -> &[u64]
        ensures value { result.now ≡ self.now.lengths }
        ensures each { AreLengths (table_of self.now.table) self.now.lengths }
    {
        &self.lengths
    }

    /// Returns the greatest number of pages of files in a commit.
    pub fn most(&self) -> u32
        ensures { result ≡ self.now.most }
    {
        self.most
    }

    /// Returns the number of commits since the opening.
    pub fn marks(&self) -> u32
        ensures { result ≡ self.now.marks }
    {
        self.marks
    }
}
