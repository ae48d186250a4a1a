// The invalidations that are queued for processors when mappings change.
ghost use Rattle.std.specs.Prelude.{◌≡◌, ◌+◌, ◌≤◌, ◌^◌, map, if◌then◌else◌};
ghost use Rattle.spaces.specs.Changes.{touches};
ghost use Rattle.shootdown.specs.Processors.{notified, notified_all};
ghost use Rattle.shootdown.specs.Shootdown.{state_when_begun, range_actions, entry_actions, actions_of, begun_from};
ghost use Rattle.shootdown.specs.Calls.{HasUserPages};
ghost use Rattle.shootdown.specs.inside.Notifying.{interrupted_by};

use crate::ProcState;
use crate::processor::Processor;
use mappings::PageRange;
use page_entry::{FilePage, Pcid, ProcessorNumber};
use pcid_tlb::Invpcid;
use spaces::{Change, Spaces};
use std::alloc::Allocator;

// The largest number of pages that are invalidated one by one. For more pages the whole PCID is invalidated.
const FEW_PAGES: u64 = 4;

// Begins a change by processor p. It interrupts each other active processor whose space the change touches, and
// notifies all processors of the change's invalidations.
pub(super) fn begin_change<A: Allocator + Copy>(
    processors: &mut [Processor<A>],
    p: ProcessorNumber,
    spaces: &Spaces<A>,
    change: &Change,
)
    requires { HasUserPages change.now }
    ensures { processors.new ≡ begun_from 0 p spaces.now.map change.now processors.old }
{
    interrupt(processors, p, spaces, change);
    notify_of_change(processors, spaces, change);
}

// Notifies every processor of an invalidation, if it may cache entries that this drops.
pub(super) fn notify_all<A: Allocator + Copy>(processors: &mut [Processor<A>], action: Invpcid)
    ensures { processors.new ≡ map (λ x. notified x action) processors.old }
{
    for processor in processors.iter_mut() {
        processor.notify(action);
    }
}

// Notifies the processors of all invalidations of a change, one after the other.
fn notify_of_change<A: Allocator + Copy>(
    processors: &mut [Processor<A>],
    spaces: &Spaces<A>,
    change: &Change,
)
    requires { HasUserPages change.now }
    ensures { processors.new ≡ map (λ x. notified_all x (actions_of spaces.now.map change.now)) processors.old }
{
    match change {
        Change::Unmap { pcid, range } => notify_of_range(processors, *pcid, *range),
        Change::Protect { pcid, range, .. } => notify_of_range(processors, *pcid, *range),
        Change::Reclaim { page } => notify_of_entries(processors, spaces, *page),
        Change::SetLength { .. } | Change::Checkpoint => notify_all(
            processors,
            Invpcid::AllContexts,
        ),
    }
}

// Notifies the processors of the pages of a range.
fn notify_of_range<A: Allocator + Copy>(
    processors: &mut [Processor<A>],
    pcid: Pcid,
    range: PageRange,
)
    requires { range.first + range.count ≤ 2 ^ 35 }
    ensures { processors.new ≡ map (λ x. notified_all x (range_actions pcid range)) processors.old }
{
    if range.count > FEW_PAGES {
        notify_all(processors, Invpcid::SingleContext(pcid));
        return;
    }
    for page in range.first..range.first + range.count {
        notify_all(processors, Invpcid::IndividualAddress(pcid, page));
    }
}

// Notifies the processors of each present entry of a page of a file.
fn notify_of_entries<A: Allocator + Copy>(
    processors: &mut [Processor<A>],
    spaces: &Spaces<A>,
    page: FilePage,
)
    ensures { processors.new ≡ map (λ x. notified_all x (entry_actions spaces.now.map page)) processors.old }
{
    for (pcid, page) in spaces.entries_of(page) {
        notify_all(processors, Invpcid::IndividualAddress(pcid, page));
    }
}

// Makes processor p initiate a change, and interrupts each other active processor whose space the change touches.
fn interrupt<A: Allocator + Copy>(
    processors: &mut [Processor<A>],
    p: ProcessorNumber,
    spaces: &Spaces<A>,
    change: &Change,
)
    ensures { processors.new ≡ interrupted_by p spaces.now.map change.now processors.old }
{
    for (i, processor) in processors.iter_mut().enumerate() {
        let state = state_begun(i == p as usize, spaces, change, processor);
        processor.set_state(state);
    }
}

// Returns the state of a processor when a change begins that it initiates or doesn't.
fn state_begun<A: Allocator + Copy>(
    initiates: bool,
    spaces: &Spaces<A>,
    change: &Change,
    processor: &Processor<A>,
) -> ProcState
    ensures { result
        ≡ (if initiates then ProcState.Initiating
        else state_when_begun (touches spaces.now.map change.now processor.now.space) processor.now.state) }
{
    if initiates {
        return ProcState::Initiating;
    }
    match processor.state() {
        ProcState::Active if spaces.touches(change, processor.space()) => ProcState::Interrupted,
        state => state,
    }
}
