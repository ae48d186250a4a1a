// The decision on a fault, before anything is done.
ghost use Rattle.std.specs.Prelude.{◌≡◌, ◌&&◌, true, Some, not, Ok, Err, MatchResult, if◌then◌else◌};
ghost use Rattle.std.specs.List.{All};
ghost use Rattle.mappings.specs.Places.{may_write};
ghost use Rattle.frames.specs.Frames.{has_free};
ghost use Rattle.checkpoint.specs.Backing.{page_at};
ghost use Rattle.fault.specs.Fault.{is_in_memory, copies_out};
ghost use Rattle.fault.specs.Fixing.{refusal_of};
ghost use Rattle.fault.specs.inside.Frame.{IsPlanned};

use crate::PageFault;
use checkpoint::Checkpoint;
use frames::Frames;
use mappings::Place;
use page_entry::{FilePage, FrameNumber, PAGE, Refusal};
use std::alloc::Allocator;

/// What serves a fault.
#[derive(Clone, Copy, Debug, PartialEq, Eq)]
pub(crate) enum Plan {
    /// Nothing: this frame has the page.
    Keep(FrameNumber),
    /// This frame has the page, and its bytes are copied to a free copy frame.
    Copy(FrameNumber),
    /// The page is read into a free frame.
    Read,
}

/// Returns the page of a file that a place maps.
pub(crate) fn page_at(place: Place) -> FilePage
    ensures { result ≡ page_at place }
{
    FilePage {
        file: place.file,
        page: place.page,
    }
}

// Whether a frame is free.
fn has_free_frame<A: Allocator + Copy>(frames: &Frames<A>) -> bool
    ensures { result ≡ has_free frames.now.frames }
{
    frames.free_count() > 0
}

// Rule: frozen page
// Whether an access to a page copies the page's bytes first. A store to a held page does.
fn copies_out<A: Allocator + Copy>(
    frames: &Frames<A>,
    checkpoint: &Checkpoint<A>,
    page: FilePage,
    write: bool,
) -> bool
    ensures { result ≡ copies_out frames.now checkpoint.now page write }
{
    write && checkpoint.is_held(frames, page)
}

// Whether the fault is a store to a place that doesn't allow writing.
fn lacks_right(fault: PageFault) -> bool
    ensures { result ≡ (fault.write && not (may_write fault.place.rights)) }
{
    fault.write && !fault.place.rights.may_write()
}

/// Decides how to serve a fault, or why it isn't served. The first reason that applies is returned. Two reasons show
/// only later: no copy frame is free, or the read fails.
pub(crate) fn decide<A: Allocator + Copy>(
    frames: &Frames<A>,
    checkpoint: &Checkpoint<A>,
    fault: PageFault,
) -> Result<Plan, Refusal>
    requires { All (λ page. is_in_memory frames.now page ≡ true) checkpoint.now.frozen }
    ensures { MatchResult result (IsPlanned frames.now checkpoint.now fault)
        (λ why. refusal_of frames.now checkpoint.now fault ≡ Some why) }
{
    if lacks_right(fault) {
        return Err(Refusal::SegvAccErr);
    }
    // Rule: busadrerr
    if fault.length <= PAGE * u64::from(fault.place.page) {
        return Err(Refusal::BusAdrErr);
    }
    let page = page_at(fault.place);
    match frames.find(page) {
        Some(frame) => {
            let copies = copies_out(frames, checkpoint, page, fault.write);
            Ok(plan_for(frame, copies))
        }
        None => plan_to_read(frames, fault.broken),
    }
}

// Returns the plan for a page that is in a frame. `copies` is whether its bytes are copied.
fn plan_for(frame: FrameNumber, copies: bool) -> Plan
    ensures { result ≡ (if copies then Plan.Copy frame else Plan.Keep frame) }
{
    if copies {
        Plan::Copy(frame)
    } else {
        Plan::Keep(frame)
    }
}

// Returns the plan for a page that is in no frame, or why it can't be read.
fn plan_to_read<A: Allocator + Copy>(frames: &Frames<A>, broken: bool) -> Result<Plan, Refusal>
    ensures { result ≡ (if not (has_free frames.now.frames) then Err Refusal.NoFrame
        else (if broken then Err Refusal.Device else Ok Plan.Read)) }
{
    if !has_free_frame(frames) {
        return Err(Refusal::NoFrame);
    }
    if broken {
        return Err(Refusal::Device);
    }
    Ok(Plan::Read)
}
