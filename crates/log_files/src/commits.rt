// Commits, and the steps that write them home.
ghost use Rattle.std.specs.Prelude.{◌≡◌, ◌≢◌, ◌↔◌, ◌+◌, ℕ, List, [], None, Some, IfOk, IfErr, OnOk, OnErr};
ghost use Rattle.device.specs.Device.{LeavesOnly};
ghost use Rattle.kept_blocks.specs.Blocks.{AreWholeBlocks};
ghost use Rattle.log_commits.specs.Behind.{LeftUnchanged};
ghost use Rattle.log_pager.specs.Pager.{IsPagerOver, LeftByPut, contents_put};
ghost use Rattle.log_files.specs.Calls.{log_commit_refusal, RefusesFilesCommit, IsLogFilesCommit, IsFailedLogCommit};
ghost use Rattle.log_files.specs.Calls.{KeepsLogFiles, IsLogFilesStep, IsFailedLogStep, RefusesFilesStep};
ghost use Rattle.log_files.specs.inside.Faults.{refusal_by};

use crate::LogFiles;
use device::Device;
use log_pager::PagerFault;
use log_store::{Progress, StoreFault};
use page_entry::Refusal;
use std::alloc::Allocator;

// The refusal for a fault of the pager, once all other reasons for a refusal are ruled out.
fn refusal_by(fault: PagerFault) -> Refusal
    ensures { result ≡ refusal_by fault }
{
    match fault {
        PagerFault::Store(StoreFault::OutOfMemory) => Refusal::OutOfMemory,
        _ => Refusal::Device,
    }
}

impl<D: Device, A: Allocator + Copy> LogFiles<D, A> {
    // Whether the staged blocks may be committed.
    fn judge_commit(&self) -> Result<(), Refusal>
        ensures ok { OnOk result (log_commit_refusal self.now ≡ None) }
        ensures err { IfErr result (λ why. log_commit_refusal self.now ≡ Some why) }
    {
        if self.pager.is_spent() {
            return Err(Refusal::Broken);
        }
        if self.marks == u32::MAX || !self.has_number() || !self.has_room() {
            return Err(Refusal::Busy);
        }
        Ok(())
    }

    /// Commits all pages and lengths put since the last commit, and returns the mark of the commit. Then they are
    /// durable. If nothing was put, no device call is made, and only the number of marks rises.
    ///
    /// Fails with:
    ///
    /// - `Broken` if a device call of an earlier commit or step failed.
    /// - `Busy` if the log has too few free blocks. Then `has_room` is false, and steps free some blocks.
    /// - `Busy` if a number is used up: marks have reached 2^32 - 1, or the log's commits 2^64 - 2.
    /// - `OutOfMemory` if there is too little memory.
    /// - `Device` if a device call failed. Then each later commit fails with `Broken`.
    pub fn commit(&mut self) -> Result<u32, Refusal>
        ensures ok { OnOk result (log_commit_refusal self.old ≡ None) }
        ensures mark { IfOk result (λ mark. mark ≡ self.old.marks + 1) }
        ensures nothing { self.old.pager.staged ≡ [] → OnOk result
            (self.new ≡ record self.old { marks = self.old.marks + 1 }) }
        ensures committed { self.old.pager.staged ≢ [] → OnOk result (IsLogFilesCommit D.Device self.old self.new) }
        ensures refused { IfErr result (RefusesFilesCommit self.old) }
        ensures unchanged { OnErr result (log_commit_refusal self.old ≢ None → self.new ≡ self.old) }
        ensures kept { IfErr result (λ why. why ≢ Refusal.Device → KeepsLogFiles self.old self.new
            × (self.new.pager.device ≡ self.old.pager.device)) }
        ensures failed { IfErr result (λ why. why ≡ Refusal.Device → IsFailedLogCommit D.Device self.old self.new) }
        ensures honest { D.is_honest self.new.pager.device ↔ D.is_honest self.old.pager.device }
        ensures whole { AreWholeBlocks self.old.pager.staged }

        // The home blocks contain the staged bytes, or the bytes from before.
        ensures over { (contents : ℕ → List ℕ) → D.is_honest self.old.pager.device
            → IsPagerOver D.Device self.old.pager contents
            → OnOk result (IsPagerOver D.Device self.new.pager (contents_put contents self.old.pager.staged)) }
        ensures stays { (contents : ℕ → List ℕ) → D.is_honest self.old.pager.device
            → IsPagerOver D.Device self.old.pager contents
            → IfErr result (λ why. why ≢ Refusal.Device → IsPagerOver D.Device self.new.pager contents) }
        ensures leaves { (contents : ℕ → List ℕ) → D.is_honest self.old.pager.device
            → IsPagerOver D.Device self.old.pager contents
            → LeavesOnly D.moment D.left_since self.old.pager.device self.new.pager.device
            (LeftByPut self.old.pager.store.tail contents self.old.pager.staged) }
    {
        self.pager.are_whole();
        self.judge_commit()?;
        match self.pager.commit() {
            Ok(()) => {
                self.marks += 1;
                Ok(self.marks)
            }
            Err(fault) => Err(refusal_by(fault)),
        }
    }

    /// Makes the next step of writing commits home, as `LogPager::step` does. The first step begins with all commits so
    /// far. Then each step copies one of their home blocks. Then three steps move the log's start behind these commits,
    /// which frees their blocks: the first writes the start, the second makes it durable, and the third selects it.
    /// Pages may be put and committed between two steps. Once the start is written, commits do the rest of the move.
    ///
    /// Fails with `Broken` if a device call of an earlier commit or step failed. Fails with `OutOfMemory` if there is
    /// no memory to begin; then nothing changes. Fails with `Device` if a device call failed; then each later commit
    /// and step fails with `Broken`.
    pub fn step(&mut self) -> Result<Progress, Refusal>
        ensures stepped { IfOk result (λ progress. IsLogFilesStep D.Device self.old progress self.new) }
        ensures refused { IfErr result (RefusesFilesStep self.old) }
        ensures unchanged { IfErr result (λ why. why ≢ Refusal.Device → self.new ≡ self.old) }
        ensures failed { IfErr result (λ why. why ≡ Refusal.Device → IsFailedLogStep D.Device self.old self.new) }
        ensures honest { D.is_honest self.new.pager.device ↔ D.is_honest self.old.pager.device }

        // The home blocks keep their contents.
        ensures over { (contents : ℕ → List ℕ) → D.is_honest self.old.pager.device
            → IsPagerOver D.Device self.old.pager contents
            → OnOk result (IsPagerOver D.Device self.new.pager contents) }
        ensures leaves { (contents : ℕ → List ℕ) → D.is_honest self.old.pager.device
            → IsPagerOver D.Device self.old.pager contents
            → LeavesOnly D.moment D.left_since self.old.pager.device self.new.pager.device
            (LeftUnchanged self.old.pager.store.tail contents) }
    {
        if self.pager.is_spent() {
            return Err(Refusal::Broken);
        }
        let _log = self.pager.log();
        match self.pager.step() {
            Ok(progress) => Ok(progress),
            Err(fault) => Err(refusal_by(fault)),
        }
    }
}
