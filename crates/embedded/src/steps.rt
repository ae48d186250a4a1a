// Makes the steps of the write-outs that requests need.
ghost use Rattle.std.specs.Prelude.{ℕ, ◌≡◌, ◌≢◌, ◌↔◌, ◌+◌, ◌<◌, false, true, [], Some, IsTrue, IfOk, IfErr};
ghost use Rattle.journal.specs.declared.flushed.Flushed.TheVariants as flushed;
ghost use Rattle.pager.specs.Calls.{commit_refusal};
ghost use Rattle.embedded.specs.Steps.{MakesStep, MakesSteps, AnyStep, WhileBusy, Commits, RefusesCommit, WritesOut, RefusesSteps};
ghost use Rattle.embedded.specs.inside.Awaiting.{HasTurned, EndsAwaiting, BeginsCommit, WritesUntil};

use deferred_disk::DeferredDisk;
use journal::Flushed;
use page_entry::Refusal;
use pager::Pager;
use std::alloc::Allocator;

type DeferredPager<A> = Pager<DeferredDisk<A>, A>;

// The outcome of a step.
#[derive(Clone, Copy)]
pub(crate) enum Turn {
    // Every commit is done, so there is no step.
    Idle,
    // The step was made, and returned this.
    Made(Flushed),
    // A device call failed.
    Failed,
    // A device call had failed earlier.
    Broken,
}

// Makes a step.
fn make_step<A: Allocator + Copy>(pager: &mut DeferredPager<A>) -> Turn
    ensures { HasTurned pager.old result pager.new }
{
    match pager.step() {
        None => Turn::Idle,
        Some(Flushed::Device) => Turn::Failed,
        Some(Flushed::Broken) => Turn::Broken,
        Some(answer) => Turn::Made(answer),
    }
}

// Makes steps until a commit may begin, and begins it. Returns its mark, and whether there was something to commit.
fn begin<A: Allocator + Copy>(pager: &mut DeferredPager<A>) -> Result<(u32, bool), Refusal>
    ensures begun { IfOk result (λ r. BeginsCommit pager.old r.0 r.1 pager.new) }
    ensures refused { IfErr result (λ why. RefusesCommit pager.old why pager.new) }
{
    while pager.is_busy() {
        match make_step(pager) {
            Turn::Made(_) => {}
            Turn::Failed => return Err(Refusal::Device),
            Turn::Broken => return Err(Refusal::Broken),
            // Never reached: while a commit can't begin, there is a step to make.
            Turn::Idle => return Err(Refusal::Busy),
        }
    }
    let some = pager.staged() > 0;
    match pager.commit() {
        Ok(mark) => Ok((mark, some)),
        Err(why) => Err(why),
    }
}

// Whether a step committed this mark.
fn is_committed(answer: Flushed, mark: u32) -> bool
    ensures { IsTrue result ↔ (answer ≡ flushed.Committed mark) }
{
    matches!(answer, Flushed::Committed(committed) if committed == u64::from(mark))
}

// Makes steps until one commits this mark. Returns whether none failed.
fn write_until<A: Allocator + Copy>(pager: &mut DeferredPager<A>, mark: u32) -> bool
    requires whole { pager.old.write_outs.broken ≡ false }
    requires awaits { EndsAwaiting mark pager.old.write_outs.batches }
    ensures written { result ≡ true → WritesUntil mark pager.old (flushed.Committed mark) pager.new }
    ensures failed { result ≡ false → WritesUntil mark pager.old flushed.Device pager.new }
{
    loop {
        match make_step(pager) {
            Turn::Made(answer) => {
                if is_committed(answer, mark) {
                    return true;
                }
            }
            Turn::Failed => return false,
            // Never reached: no call had failed before.
            Turn::Broken => return false,
            // Never reached: until then there is a step to make.
            Turn::Idle => return false,
        }
    }
}

// Commits what was put, and writes it out until the mark is acknowledged in the pager's history.
pub(crate) fn commit<A: Allocator + Copy>(pager: &mut DeferredPager<A>) -> Result<u32, Refusal>
    ensures commits { IfOk result (λ mark. Commits pager.old mark pager.new) }
    ensures refused { IfErr result (λ why. RefusesCommit pager.old why pager.new) }
{
    let (mark, some) = begin(pager)?;
    if some {
        if !write_until(pager, mark) {
            return Err(Refusal::Device);
        }
        return Ok(mark);
    }
    Ok(mark)
}

// Makes at most `most` steps. Returns whether one is left.
pub(crate) fn write_out<A: Allocator + Copy>(
    pager: &mut DeferredPager<A>,
    most: u32,
) -> Result<bool, Refusal>
    ensures steps { IfOk result (λ left. WritesOut most pager.old left pager.new) }
    ensures refused { IfErr result (λ why. RefusesSteps most pager.old why pager.new) }
{
    for _ in 0..most {
        match make_step(pager) {
            Turn::Idle => return Ok(false),
            Turn::Made(_) => {}
            Turn::Failed => return Err(Refusal::Device),
            Turn::Broken => return Err(Refusal::Broken),
        }
    }
    Ok(!pager.is_idle())
}
