// The steps that requests make, and commits.
ghost use Rattle.std.specs.Prelude.{◌≡◌, ◌↔◌, true, None, Some, IsTrue, IfOk, IfErr, OnOk};
ghost use Rattle.embedded.specs.Recorded.{deferred_disk};
ghost use Rattle.log_files.specs.Calls.{IsLogFilesStep};
ghost use Rattle.embedded_log.specs.Needs.{if_lacking, lacked_by_step, lacked_by_commit};
ghost use Rattle.embedded_log.specs.Steps.{CommitsLog, CommitsPut, StopsLogCommit, StopsAtCommit, WritesCommitsHome, StopsSteps};
ghost use Rattle.embedded_log.specs.Steps.{StopsAtStep, has_log_room};
ghost use Rattle.embedded_log.specs.inside.Leading.{HasAcknowledgedMark, LeadsLog, RunsLog};
ghost use Rattle.embedded_log.specs.inside.Rounds.{EndsRound, MakesWhileFull, StopsWhileFull};

use deferred_disk::DeferredDisk;
use embedded::Unread;
use log_files::LogFiles;
use log_store::{Progress, rounds_end};
use std::alloc::Allocator;

type DeferredFiles<A> = LogFiles<DeferredDisk<A>, A>;

// Returns the block if it isn't known.
fn if_lacking<A: Allocator + Copy>(disk: &DeferredDisk<A>, block: u32) -> Option<u32>
    ensures { result ≡ if_lacking disk.now.known (Some block) }
{
    if disk.is_known(block) {
        None
    } else {
        Some(block)
    }
}

// Returns the block that the next step needs, if it isn't known.
fn lacked_by_step<A: Allocator + Copy>(files: &DeferredFiles<A>) -> Option<u32>
    ensures { result ≡ lacked_by_step files.now }
{
    if files.is_broken() {
        return None;
    }
    match files.step_block() {
        Some(block) => if_lacking(files.device(), block),
        None => None,
    }
}

// Returns the first block that the next commit needs and that isn't known.
fn lacked_by_commit<A: Allocator + Copy>(files: &DeferredFiles<A>) -> Option<u32>
    ensures { result ≡ lacked_by_commit files.now }
{
    if files.is_broken() {
        return None;
    }
    match files.commit_edges() {
        Some((first, behind)) => match if_lacking(files.device(), first) {
            Some(block) => Some(block),
            None => if_lacking(files.device(), behind),
        },
        None => None,
    }
}

// Makes a step, if the block that it needs is known.
fn make_step<A: Allocator + Copy>(files: &mut DeferredFiles<A>) -> Result<Progress, Unread>
    ensures known { OnOk result (lacked_by_step files.old ≡ None) }
    ensures stepped { IfOk result (λ progress. IsLogFilesStep deferred_disk files.old progress files.new) }
    ensures stopped { IfErr result (λ e. StopsAtStep files.old e files.new) }
    ensures leads { LeadsLog files.old files.new }
{
    if let Some(block) = lacked_by_step(files) {
        return Err(Unread::Wanted(block));
    }
    match files.step() {
        Ok(progress) => Ok(progress),
        Err(why) => Err(Unread::Refused(why)),
    }
}

// Whether a step moved the start.
fn has_moved(progress: Progress) -> bool
    ensures { IsTrue result ↔ (progress ≡ Progress.Moved) }
{
    matches!(progress, Progress::Moved)
}

// Makes steps until the log has room for what was put, or until the start has moved.
fn make_round<A: Allocator + Copy>(files: &mut DeferredFiles<A>) -> Result<(), Unread>
    ensures steps { OnOk result (MakesWhileFull files.old files.new) }
    ensures ends { OnOk result (EndsRound files.old files.new) }
    ensures stopped { IfErr result (λ e. StopsWhileFull files.old e files.new) }
    ensures leads { LeadsLog files.old files.new }
{
    rounds_end();
    while !files.has_room() {
        files.fits_empty_log();
        match make_step(files) {
            Ok(progress) => {
                if has_moved(progress) {
                    return Ok(());
                }
            }
            Err(e) => return Err(e),
        }
    }
    Ok(())
}

// Makes steps until the log has room for what was put: first those of the current round, then those of a round of all
// commits.
fn make_room<A: Allocator + Copy>(files: &mut DeferredFiles<A>) -> Result<(), Unread>
    ensures steps { OnOk result (MakesWhileFull files.old files.new) }
    ensures room { OnOk result (has_log_room files.new ≡ true) }
    ensures stopped { IfErr result (λ e. StopsWhileFull files.old e files.new) }
    ensures leads { LeadsLog files.old files.new }
{
    match make_round(files) {
        Ok(()) => {}
        Err(e) => return Err(e),
    }
    if files.has_room() {
        return Ok(());
    }
    match make_round(files) {
        Ok(()) => {
            files.fits_empty_log();
            Ok(())
        }
        Err(e) => Err(e),
    }
}

// Commits what was put, if the blocks that this needs are known.
fn commit_put<A: Allocator + Copy>(files: &mut DeferredFiles<A>) -> Result<u32, Unread>
    ensures commits { IfOk result (λ mark. CommitsPut files.old mark files.new) }
    ensures stopped { IfErr result (λ e. StopsAtCommit files.old e files.new) }
    ensures acknowledges { IfOk result (λ mark. RunsLog (HasAcknowledgedMark mark) files.old files.new) }
    ensures leads { LeadsLog files.old files.new }
{
    if let Some(block) = lacked_by_commit(files) {
        return Err(Unread::Wanted(block));
    }
    match files.commit() {
        Ok(mark) => Ok(mark),
        Err(why) => Err(Unread::Refused(why)),
    }
}

// Commits what was put, after steps that make room for it in the log.
pub(crate) fn commit<A: Allocator + Copy>(files: &mut DeferredFiles<A>) -> Result<u32, Unread>
    ensures commits { IfOk result (λ mark. CommitsLog files.old mark files.new) }
    ensures stopped { IfErr result (λ e. StopsLogCommit files.old e files.new) }
    ensures acknowledges { IfOk result (λ mark. RunsLog (HasAcknowledgedMark mark) files.old files.new) }
    ensures leads { LeadsLog files.old files.new }
{
    match make_room(files) {
        Ok(()) => commit_put(files),
        Err(e) => Err(e),
    }
}

// Makes at most `most` steps. Returns whether one is left.
pub(crate) fn write_out<A: Allocator + Copy>(
    files: &mut DeferredFiles<A>,
    most: u32,
) -> Result<bool, Unread>
    ensures steps { IfOk result (λ left. WritesCommitsHome most files.old left files.new) }
    ensures stopped { IfErr result (λ e. StopsSteps most files.old e files.new) }
    ensures leads { LeadsLog files.old files.new }
{
    rounds_end();
    for _ in 0..most {
        if files.is_idle() {
            return Ok(false);
        }
        match make_step(files) {
            Ok(_) => {}
            Err(e) => return Err(e),
        }
    }
    Ok(!files.is_idle())
}
