ghost use Rattle.std.specs.Prelude.{◌≡◌, ◌≢◌, ◌↔◌, ◌⊎◌, ◌<◌, ◌≤◌, ◌+◌, ◌-◌, ◌*◌, ◌^◌, ℕ, List, [], None, Ok, true};
ghost use Rattle.std.specs.Prelude.{false, length, IsTrue, IfErr, OnOk, OnErr, IfOk};
ghost use Rattle.device.specs.Device.{LeavesOnly, Only};
ghost use Rattle.kept_blocks.specs.Blocks.{AreWholeBlocks, homes_in, bytes_in};
ghost use Rattle.log_codec.specs.Log.{log_commit_blocks};
ghost use Rattle.log_codec.specs.Chain.{IsLogHome};
ghost use Rattle.log_recovery.specs.Reading.{ReadsAlone};
ghost use Rattle.log_commits.specs.Calls.{DidAll};
ghost use Rattle.log_commits.specs.Behind.{LeftUnchanged};
ghost use Rattle.log_commits.specs.Commit.{MayCommit};
ghost use Rattle.log_store.specs.Store.{HasNoted, KeepsStore, IsStoreOver, MayStepBy, StepsBy};
ghost use Rattle.log_store.specs.Store.{step_works, store_commit_works};
ghost use Rattle.log_pager.specs.Pager.{IsPagerOver, IsShort, RefusesPagerRead, RefusesPagerCommit, RefusesPagerStep};
ghost use Rattle.log_pager.specs.Pager.{LeftByPut, contents_put, records_put, pager_read_calls};

use crate::fault::PagerFault;
use crate::spelling::spell;
use device::Device;
use kept_blocks::Blocks;
use log_commits::{CommitFault, MoveFault};
use log_store::{LogStore, Progress, StoreFault};
use std::alloc::Allocator;
use std::marker::Model;

/// A block store over a volume with a log: blocks are put, committed together, read, and written home in steps.
#[derive(Drop)]
pub struct LogPager<D: Device, A: Allocator + Copy> {
    pub(crate) alloc: A,
    pub(crate) store: LogStore<A>,
    // The blocks put since the last commit.
    pub(crate) staged: Blocks<A>,
    pub(crate) device: D,
}

impl<D: Device, A: Allocator + Copy> Model for LogPager<D, A> {
    ghost use Rattle.log_pager.specs.Pager.{LogPagerValue};

    ghost Value = { LogPagerValue D };

    ghost view = { λ p. record { store = p.store; staged = p.staged; device = p.device } };
}

impl<D: Device, A: Allocator + Copy> LogPager<D, A> {
    /// Makes a pager of a store over this device.
    pub fn new(alloc: A, store: LogStore<A>, device: D) -> Self
        ensures value { result ≡ record { store = store; staged = []; device = device } }
        ensures over { (contents : ℕ → List ℕ) → IsStoreOver D.Device store contents device
            → 4096 * store.tail.log.blocks ≤ length (D.seen device) → IsPagerOver D.Device result contents }
    {
        LogPager {
            alloc,
            store,
            staged: Blocks::new(alloc),
            device,
        }
    }

    // Whether the device is shorter than the volume.
    pub(crate) fn is_short(&self) -> bool
        ensures { IsTrue result ↔ IsShort D.Device self.now }
    {
        self.device.len() < 4096 * u64::from(self.store.log().block_count())
    }

    /// States that each staged block has 4,096 bytes.
    pub fn are_whole(&self)
        ensures { AreWholeBlocks self.now.staged }
    {
        self.staged.are_whole();
    }

    /// Reads a home block: the bytes that were put last, or else those of the commits. Only the latter takes a device
    /// call.
    pub fn read(&mut self, home: u32, buffer: &mut [u8; 4096]) -> Result<(), PagerFault>
        ensures refused { IfErr result (RefusesPagerRead D.Device self.old home) }
        ensures state { self.new ≡ record self.old { device = self.new.device } }
        ensures unread { IfErr result (λ fault. fault ≢ PagerFault.Store StoreFault.Device → self.new ≡ self.old) }
        ensures held { bytes_in self.old.staged home ≢ None → self.new ≡ self.old }
        ensures alone { ReadsAlone D.Device self.old.device self.new.device }
        ensures calls { D.calls_made self.old.device < 2 ^ 64 - 1 → D.calls_made self.new.device
            ≡ D.calls_made self.old.device + pager_read_calls D.Device self.old home }
        ensures honest { D.is_honest self.new.device ↔ D.is_honest self.old.device }
        ensures bytes { (contents : ℕ → List ℕ) → D.is_honest self.old.device
            → IsPagerOver D.Device self.old contents → IsLogHome self.old.store.tail.log home
            → OnOk result (buffer.new ≡ contents_put contents self.old.staged home) }
        ensures over { (contents : ℕ → List ℕ) → D.is_honest self.old.device
            → IsPagerOver D.Device self.old contents → IsPagerOver D.Device self.new contents }
    {
        if let Some(bytes) = self.staged.get(home) {
            *buffer = *bytes;
            return Ok(());
        }
        if self.is_short() {
            return Err(PagerFault::Short);
        }
        match self.store.read(&mut self.device, home, buffer) {
            Ok(()) => Ok(()),
            Err(fault) => Err(PagerFault::Store(fault)),
        }
    }

    /// Commits all blocks put since the last commit. If nothing was put, makes no device call.
    pub fn commit(&mut self) -> Result<(), PagerFault>
        ensures value { OnOk result (self.new.staged ≡ []) }
        ensures kept { OnErr result (self.new.staged ≡ self.old.staged) }
        ensures refused { IfErr result (RefusesPagerCommit D.Device self.old) }
        ensures idle { self.old.staged ≡ [] → (result ≡ Ok tt) × (self.new ≡ self.old) }
        ensures may { OnOk result (self.old.staged ≢ [] → MayCommit self.old.store.tail (homes_in self.old.staged)
            (4096 * log_commit_blocks (length self.old.staged) + 1)) }
        ensures noted { OnOk result (self.old.staged ≢ []
            → HasNoted self.old.store self.new.store (homes_in self.old.staged)) }
        ensures did { OnOk result (self.old.staged ≢ [] → DidAll D.Device self.old.device
            (store_commit_works self.old.store (homes_in self.old.staged) (records_put self.old.staged))
            true self.new.device) }
        ensures failed { IfErr result (λ fault. fault ≡ PagerFault.Store (StoreFault.Commit CommitFault.Device)
            → DidAll D.Device self.old.device
            (store_commit_works self.old.store (homes_in self.old.staged) (records_put self.old.staged))
            false self.new.device) }
        ensures unchanged { IfErr result (λ fault. fault ≢ PagerFault.Store (StoreFault.Commit CommitFault.Device)
            → KeepsStore self.old.store self.new.store × (self.new.device ≡ self.old.device)) }
        ensures spent { IfErr result (λ fault. fault ≡ PagerFault.Store (StoreFault.Commit CommitFault.Device)
            → self.new.store.tail ≡ record self.old.store.tail { spent = true }) }
        ensures len { length (D.seen self.new.device) ≡ length (D.seen self.old.device) }
        ensures honest { D.is_honest self.new.device ↔ D.is_honest self.old.device }
        ensures over { (contents : ℕ → List ℕ) → D.is_honest self.old.device
            → IsPagerOver D.Device self.old contents
            → OnOk result (IsPagerOver D.Device self.new (contents_put contents self.old.staged)) }
        ensures stays { (contents : ℕ → List ℕ) → D.is_honest self.old.device
            → IsPagerOver D.Device self.old contents
            → IfErr result (λ fault. fault ≢ PagerFault.Store (StoreFault.Commit CommitFault.Device)
            → IsPagerOver D.Device self.new contents) }
        ensures leaves { (contents : ℕ → List ℕ) → D.is_honest self.old.device
            → IsPagerOver D.Device self.old contents
            → LeavesOnly D.moment D.left_since self.old.device self.new.device
            (LeftByPut self.old.store.tail contents self.old.staged) }
        ensures sure { (contents : ℕ → List ℕ) → D.is_honest self.old.device
            → IsPagerOver D.Device self.old contents → self.old.staged ≢ []
            → OnOk result (Only (D.may_leave self.new.device) (D.seen self.new.device)) }
    {
        self.staged.are_whole();
        let count = self.staged.len();
        if count == 0 {
            return Ok(());
        }
        if count > 65535 {
            return Err(PagerFault::Full);
        }
        if self.is_short() {
            return Err(PagerFault::Short);
        }
        let mut homes = Vec::new(self.alloc);
        let mut room = match spell(self.alloc, &self.staged, &mut homes) {
            Ok(room) => room,
            Err(_) => return Err(PagerFault::Store(StoreFault::OutOfMemory)),
        };
        match self.store.commit(&mut self.device, &homes, &mut room) {
            Ok(()) => {
                self.staged.clear();
                Ok(())
            }
            Err(fault) => Err(PagerFault::Store(fault)),
        }
    }

    /// Makes the next step of writing commits home, as `LogStore::step` does.
    pub fn step(&mut self) -> Result<Progress, PagerFault>
        ensures may { OnOk result (MayStepBy self.old.store self.old.store.stage) }
        ensures value { IfOk result (StepsBy self.old.store self.old.store.stage self.new.store) }
        ensures staged { self.new.staged ≡ self.old.staged }
        ensures refused { IfErr result (RefusesPagerStep D.Device self.old) }
        ensures unchanged { IfErr result (λ fault. fault ≢ PagerFault.Store (StoreFault.Move MoveFault.Device)
            → self.new ≡ self.old) }
        ensures spent { IfErr result (λ fault. fault ≡ PagerFault.Store (StoreFault.Move MoveFault.Device)
            → self.new.store.tail ≡ record self.old.store.tail { spent = true }) }
        ensures did { MayStepBy self.old.store self.old.store.stage → OnOk result (DidAll D.Device self.old.device
            (step_works self.old.store self.old.store.stage) true self.new.device) }
        ensures failed { MayStepBy self.old.store self.old.store.stage
            → IfErr result (λ fault. fault ≡ PagerFault.Store (StoreFault.Move MoveFault.Device)
            → DidAll D.Device self.old.device (step_works self.old.store self.old.store.stage) false self.new.device) }
        ensures len { length (D.seen self.new.device) ≡ length (D.seen self.old.device) }
        ensures honest { D.is_honest self.new.device ↔ D.is_honest self.old.device }
        ensures over { (contents : ℕ → List ℕ) → D.is_honest self.old.device
            → IsPagerOver D.Device self.old contents
            → OnOk result (IsPagerOver D.Device self.new contents) }
        ensures leaves { (contents : ℕ → List ℕ) → D.is_honest self.old.device
            → IsPagerOver D.Device self.old contents
            → LeavesOnly D.moment D.left_since self.old.device self.new.device
            (LeftUnchanged self.old.store.tail contents) }
    {
        if self.is_short() {
            return Err(PagerFault::Short);
        }
        match self.store.step(&mut self.device) {
            Ok(progress) => Ok(progress),
            Err(fault) => Err(PagerFault::Store(fault)),
        }
    }
}
