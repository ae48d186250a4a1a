// A commit, with the rounds of steps that it needs to get room.
ghost use Rattle.std.specs.Prelude.{◌≡◌, ◌≢◌, ◌↔◌, ◌⊎◌, ◌≤◌, ◌+◌, ℕ, List, [], length};
ghost use Rattle.std.specs.Prelude.{Ok, Err, IsTrue, IfOk, IfErr, OnOk};
ghost use Rattle.device.specs.Device.{LeavesOnly};
ghost use Rattle.volume_codec.specs.Layout.{block_at};
ghost use Rattle.log_codec.specs.declared.sealing.Sealing.TheVariants.{ByByte};
ghost use Rattle.log_codec.specs.Chain.{LogRecovers};
ghost use Rattle.log_commits.specs.Tail.{HoldsUpTo};
ghost use Rattle.log_store.specs.Store.{StepsBy};
ghost use Rattle.log_pager.specs.Pager.{IsPagerOver, contents_put};
ghost use Rattle.log_room.specs.Room.{IsEnded, KeepsFirst, commits_of};
ghost use Rattle.log_room.specs.inside.Leading.{ChecksEnd, Commits, CommitsPut, MakesSteps};

use device::Device;
use log_commits::{CommitFault, MoveFault};
use log_pager::{LogPager, PagerFault};
use log_store::{Progress, StoreFault, rounds_end};
use std::alloc::Allocator;

// The log has no room.
const BUSY: PagerFault = PagerFault::Store(StoreFault::Commit(CommitFault::Busy));

// A device call failed.
const FAILED: PagerFault = PagerFault::Store(StoreFault::Commit(CommitFault::Device));

// Whether a step moved the start.
fn has_moved(progress: Progress) -> bool
    ensures { IsTrue result ↔ (progress ≡ Progress.Moved) }
{
    matches!(progress, Progress::Moved)
}

// Whether there was no step left to make.
fn was_idle(progress: Progress) -> bool
    ensures { IsTrue result ↔ (progress ≡ Progress.Idle) }
{
    matches!(progress, Progress::Idle)
}

// Whether the log has no room for a commit.
fn is_busy(made: &Result<(), PagerFault>) -> bool
    ensures { IsTrue result ↔ (made.now ≡ Err (PagerFault.Store (StoreFault.Commit CommitFault.Busy))) }
{
    matches!(
        made,
        Err(PagerFault::Store(StoreFault::Commit(CommitFault::Busy)))
    )
}

// Makes the next step of the pager.
fn make_step<D: Device, A: Allocator + Copy>(
    pager: &mut LogPager<D, A>,
) -> Result<Progress, PagerFault>
    ensures steps { MakesSteps D.Device pager.old result pager.new }
    ensures value { IfOk result (StepsBy pager.old.store pager.old.store.stage pager.new.store) }
{
    pager.step()
}

// Checks that the log ends behind the session's last commit. If a digest seals commits, leftover bytes there could be
// taken for the next commit.
fn check_end<D: Device, A: Allocator + Copy>(pager: &mut LogPager<D, A>) -> Result<(), PagerFault>
    ensures { ChecksEnd D.Device pager.old result pager.new }
{
    match pager.ends() {
        Ok(true) => Ok(()),
        _ => Err(FAILED),
    }
}

// Makes steps up to the step that moves the start.
fn make_round<D: Device, A: Allocator + Copy>(pager: &mut LogPager<D, A>) -> Result<(), PagerFault>
    ensures { MakesSteps D.Device pager.old result pager.new }
{
    rounds_end();
    'steps: loop {
        let progress = match make_step(pager) {
            Ok(progress) => progress,
            Err(fault) => return Err(fault),
        };
        if has_moved(progress) {
            return Ok(());
        }
        if was_idle(progress) {
            return Err(BUSY);
        }
    }
}

// Commits the staged blocks, of which there is at least one, if the log has room for them.
fn pager_commit<D: Device, A: Allocator + Copy>(
    pager: &mut LogPager<D, A>,
) -> Result<(), PagerFault>
    requires some { pager.old.staged ≢ [] }
    ensures { CommitsPut D.Device pager.old result pager.new }
{
    pager.commit()
}

// Commits the staged blocks, if the log has room for them. Then checks that the log ends behind the commit.
fn commit_put<D: Device, A: Allocator + Copy>(pager: &mut LogPager<D, A>) -> Result<(), PagerFault>
    ensures commits { Commits D.Device pager.old result pager.new }
    ensures idle { pager.old.staged ≡ [] → (result ≡ Ok tt) × (pager.new ≡ pager.old) }
{
    if pager.staged() == 0 {
        return Ok(());
    }
    match pager_commit(pager) {
        Ok(()) => check_end(pager),
        Err(fault) => Err(fault),
    }
}

// Commits the staged blocks after a round of steps.
fn commit_after_round<D: Device, A: Allocator + Copy>(
    pager: &mut LogPager<D, A>,
) -> Result<(), PagerFault>
    ensures { Commits D.Device pager.old result pager.new }
{
    match make_round(pager) {
        Ok(()) => commit_put(pager),
        Err(fault) => Err(fault),
    }
}

// Commits the staged blocks after the rounds of steps that it needs: the rest of the current round, and one round of
// all commits of the log.
fn commit_in_rounds<D: Device, A: Allocator + Copy>(
    pager: &mut LogPager<D, A>,
) -> Result<(), PagerFault>
    ensures commits { Commits D.Device pager.old result pager.new }
    ensures idle { pager.old.staged ≡ [] → (result ≡ Ok tt) × (pager.new ≡ pager.old) }
{
    let first = commit_put(pager);
    if !is_busy(&first) {
        return first;
    }
    let second = commit_after_round(pager);
    if !is_busy(&second) {
        return second;
    }
    commit_after_round(pager)
}

/// Commits the staged blocks. While the log has no room for them, writes the commits so far home, and moves the start
/// behind them. If nothing was put, makes no device call.
///
/// If a digest seals commits, the call also reads the log behind the commit. It fails with a commit's `Device` if such
/// a read fails, or if bytes there could be taken for the next commit. After any other error the blocks are still
/// staged. If a byte seals commits, this holds for each error.
pub fn commit_with_room<D: Device, A: Allocator + Copy>(
    pager: &mut LogPager<D, A>,
) -> Result<(), PagerFault>
    ensures log { pager.new.store.tail.log ≡ pager.old.store.tail.log }
    ensures value { OnOk result (pager.new.staged ≡ []) }
    ensures kept { IfErr result (λ fault. (fault ≢ PagerFault.Store (StoreFault.Commit CommitFault.Device))
        ⊎ (pager.old.store.tail.log.sealing ≡ ByByte) → pager.new.staged ≡ pager.old.staged) }
    ensures idle { pager.old.staged ≡ [] → (result ≡ Ok tt) × (pager.new ≡ pager.old) }
    ensures len { length (D.seen pager.new.device) ≡ length (D.seen pager.old.device) }
    ensures honest { D.is_honest pager.new.device ↔ D.is_honest pager.old.device }
    ensures later { D.moment pager.old.device ≤ D.moment pager.new.device }
    ensures over { (contents : ℕ → List ℕ) → D.is_honest pager.old.device → IsPagerOver D.Device pager.old contents
        → OnOk result (IsPagerOver D.Device pager.new (contents_put contents pager.old.staged)) }
    ensures stays { (contents : ℕ → List ℕ) → D.is_honest pager.old.device → IsPagerOver D.Device pager.old contents
        → IfErr result (λ fault. fault ≢ PagerFault.Store (StoreFault.Commit CommitFault.Device)
        → fault ≢ PagerFault.Store (StoreFault.Move MoveFault.Device) → IsPagerOver D.Device pager.new contents) }

    // A crash within the call leaves the commits before it, for either kind of seal.
    ensures held { (contents : ℕ → List ℕ) → D.is_honest pager.old.device → IsPagerOver D.Device pager.old contents
        → LeavesOnly D.moment D.left_since pager.old.device pager.new.device
        (HoldsUpTo pager.old.store.tail.log pager.old.store.tail.number contents) }
    ensures number { OnOk result
        (pager.new.store.tail.number ≡ pager.old.store.tail.number + commits_of pager.old.staged) }
    ensures ended { (contents : ℕ → List ℕ) → D.is_honest pager.old.device → IsPagerOver D.Device pager.old contents
        → IsEnded D.Device pager.old → OnOk result (IsEnded D.Device pager.new) }

    // Only if a byte seals commits.
    ensures leaves { (contents : ℕ → List ℕ) → D.is_honest pager.old.device
        → pager.old.store.tail.log.sealing ≡ ByByte → IsPagerOver D.Device pager.old contents
        → LeavesOnly D.moment D.left_since pager.old.device pager.new.device
        (λ c. LogRecovers pager.old.store.tail.log contents c
        ⊎ LogRecovers pager.old.store.tail.log (contents_put contents pager.old.staged) c) }

    // The first block of the device stays unchanged, at each moment and afterwards, even if the call fails.
    ensures first { (text : List ℕ) → ((c : List ℕ) → D.may_leave pager.old.device c → block_at c 0 ≡ text)
        → KeepsFirst D.Device text pager.old.device pager.new.device }
{
    commit_in_rounds(pager)
}
