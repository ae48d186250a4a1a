// Puts blocks for the next commit.
ghost use Rattle.std.specs.Prelude.{◌≡◌, ◌+◌, ◌-◌, ◌<◌, ◌≤◌, ℕ, List, None, length, is_some, OnOk, OnErr, IfErr};
ghost use Rattle.std.specs.Option.{option_copied};
ghost use Rattle.volume_codec.specs.Descriptor.{RiseWithin};
ghost use Rattle.kept_blocks.specs.Blocks.{homes_in, bytes_in, with_home, with_zeros, without_run, cut_in};
ghost use Rattle.log_codec.specs.Log.{IsCommitSize};
ghost use Rattle.log_codec.specs.Chain.{IsLogHome};
ghost use Rattle.log_pager.specs.Pager.{IsPagerOver, RefusesLogPut};

use crate::fault::PagerFault;
use crate::pager::LogPager;
use device::Device;
use log_store::StoreFault;
use std::alloc::{AllocError, Allocator};

impl<D: Device, A: Allocator + Copy> LogPager<D, A> {
    // Whether the next commit may take the home block.
    fn admit(&self, home: u32) -> Result<(), PagerFault>
        ensures home { OnOk result (IsLogHome self.now.store.tail.log home) }
        ensures fits { OnOk result (bytes_in self.now.staged home ≡ None
            → IsCommitSize self.now.store.tail.log.ring (length self.now.staged + 1)) }
        ensures refused { IfErr result (RefusesLogPut self.now home) }
    {
        let log = self.store.log();
        if home < log.first_home() || home >= log.block_count() {
            return Err(PagerFault::Store(StoreFault::Range));
        }
        if self.staged.get(home).is_none() {
            let count = self.staged.len();
            if count >= 65535 || !log.is_commit_size(count as u32 + 1) {
                return Err(PagerFault::Full);
            }
        }
        Ok(())
    }

    // Stages the bytes of a home block for the next commit.
    fn keep(&mut self, home: u32, block: Box<[u8; 4096], A>) -> Result<(), PagerFault>
        requires { IsLogHome self.old.store.tail.log home }
        ensures put { OnOk result (self.new ≡ record self.old { staged = with_home self.old.staged home block.value }) }
        ensures unchanged { OnErr result (self.new ≡ self.old) }
        ensures memory { IfErr result (λ fault. fault ≡ PagerFault.Store StoreFault.OutOfMemory) }
        ensures over { (contents : ℕ → List ℕ) → IsPagerOver D.Device self.old contents
            → IsPagerOver D.Device self.new contents }
    {
        match self.staged.put(home, block) {
            Ok(()) => Ok(()),
            Err(_) => Err(PagerFault::Store(StoreFault::OutOfMemory)),
        }
    }

    /// Puts the bytes of a home block. The next commit contains them. Makes no device call. On failure nothing changes.
    pub fn put(&mut self, home: u32, bytes: &[u8; 4096]) -> Result<(), PagerFault>
        ensures put { OnOk result (self.new ≡ record self.old { staged = with_home self.old.staged home bytes.now }) }
        ensures home { OnOk result (IsLogHome self.old.store.tail.log home) }
        ensures fits { OnOk result (bytes_in self.old.staged home ≡ None
            → IsCommitSize self.old.store.tail.log.ring (length self.old.staged + 1)) }
        ensures refused { IfErr result (RefusesLogPut self.old home) }
        ensures unchanged { OnErr result (self.new ≡ self.old) }
        ensures over { (contents : ℕ → List ℕ) → IsPagerOver D.Device self.old contents
            → IsPagerOver D.Device self.new contents }
    {
        self.admit(home)?;
        match Box::new(self.alloc, *bytes) {
            Ok(block) => self.keep(home, block),
            Err(_) => Err(PagerFault::Store(StoreFault::OutOfMemory)),
        }
    }

    /// Puts the bytes of a home block, as `put` does, from a block that is on the heap already.
    pub fn put_block(&mut self, home: u32, block: Box<[u8; 4096], A>) -> Result<(), PagerFault>
        ensures put { OnOk result (self.new ≡ record self.old { staged = with_home self.old.staged home block.value }) }
        ensures home { OnOk result (IsLogHome self.old.store.tail.log home) }
        ensures fits { OnOk result (bytes_in self.old.staged home ≡ None
            → IsCommitSize self.old.store.tail.log.ring (length self.old.staged + 1)) }
        ensures refused { IfErr result (RefusesLogPut self.old home) }
        ensures unchanged { OnErr result (self.new ≡ self.old) }
        ensures over { (contents : ℕ → List ℕ) → IsPagerOver D.Device self.old contents
            → IsPagerOver D.Device self.new contents }
    {
        self.admit(home)?;
        self.keep(home, block)
    }

    /// Puts the last page of a file that grows, and zeros in the home blocks after it up to `high`, exclusive. Also
    /// puts the text of the lengths in the first home block. Makes no device call. On failure nothing changes.
    pub fn grow(
        &mut self,
        home: u32,
        high: u32,
        last: &[u8; 4096],
        first: u32,
        text: &[u8; 4096],
    ) -> Result<(), AllocError>
        requires volume { IsLogHome self.old.store.tail.log first × (high ≤ self.old.store.tail.log.blocks) }
        requires order { (first < home) × (home < high) }
        requires rising { (end : ℕ) × (high ≤ end) × RiseWithin first end (homes_in self.old.staged) }
        requires none { (q : ℕ) → home < q → q < high → bytes_in self.old.staged q ≡ None }
        ensures ok { OnOk result (self.new ≡ record self.old {
          staged = with_home
              (with_home (with_zeros self.old.staged (home + 1) (high - (home + 1))) home last.now) first text.now;
        }) }
        ensures err { OnErr result (self.new ≡ self.old) }
        ensures over { (contents : ℕ → List ℕ) → IsPagerOver D.Device self.old contents
            → IsPagerOver D.Device self.new contents }
    {
        self.staged.grow(self.alloc, home, high, last, first, text)
    }

    /// Unstages the home blocks from `low` to `high`, exclusive, when a file shrinks. Cuts the file's last page if it
    /// is staged, and puts the text of the lengths in the first home block. Makes no device call. On failure nothing
    /// changes.
    pub fn shrink(
        &mut self,
        low: u32,
        high: u32,
        home: u32,
        left: u64,
        first: u32,
        text: &[u8; 4096],
    ) -> Result<(), AllocError>
        requires volume { IsLogHome self.old.store.tail.log first }
        requires order { (first < low) × (first < home) }
        requires rising { (end : ℕ) × RiseWithin first end (homes_in self.old.staged) }
        ensures ok { OnOk result (self.new ≡ record self.old {
          staged = with_home (cut_in (without_run self.old.staged low high) home left) first text.now;
        }) }
        ensures err { OnErr result (self.new ≡ self.old) }
        ensures over { (contents : ℕ → List ℕ) → IsPagerOver D.Device self.old contents
            → IsPagerOver D.Device self.new contents }
    {
        self.staged
            .shrink(self.alloc, low, high, home, left, first, text)
    }

    /// Returns the number of blocks put since the last commit.
    pub fn staged(&self) -> usize
        ensures { result ≡ length self.now.staged }
    {
        self.staged.len()
    }

    /// Whether a home block was put since the last commit.
    pub fn is_put(&self, home: u32) -> bool
        ensures { result ≡ is_some (bytes_in self.now.staged home) }
    {
        self.staged.get(home).is_some()
    }

    /// Returns the bytes of a home block, if it was put since the last commit.
    pub fn kept(&self, home: u32) -> Option<&[u8; 4096]>
        ensures { option_copied result ≡ bytes_in self.now.staged home }
    {
        self.staged.get(home)
    }
}
