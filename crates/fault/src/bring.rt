// The frame for the page of a fault: the frame that already has the page, or a free one into which the page is read.
ghost use Rattle.std.specs.Prelude.{◌≡◌, ◌+◌, ◌≤◌, true, false, length, is_err, is_ok, IfOk, IfErr, IsSome};
ghost use Rattle.std.specs.List.{All};
ghost use Rattle.page_entry.specs.declared.numbers.FilePage.{FilePage};
ghost use Rattle.frames.specs.Frames.{frame_at, has_free};
ghost use Rattle.checkpoint.specs.Checkpoint.{Holds, is_copied};
ghost use Rattle.checkpoint.specs.Backing.{page_at};
ghost use Rattle.fault.specs.Fault.{is_in_memory, CopiesOut};
ghost use Rattle.fault.specs.Fixing.{ReadsOnce, FixRefused, reads_home};
ghost use Rattle.fault.specs.inside.Frame.{IsReadIn, IsInFrame};

use crate::PageFault;
use crate::home::read_page;
use crate::plan::{Plan, decide, page_at};
use checkpoint::Checkpoint;
use device::Device;
use frames::Frames;
use page_entry::{FrameNumber, Refusal};
use std::alloc::Allocator;

// Rule: frozen page
// Copies a frame's bytes to a free copy frame. Fails with `Held` exactly if no copy frame is free.
fn keep_copy<A: Allocator + Copy>(
    frames: &mut Frames<A>,
    frame: FrameNumber,
) -> Result<FrameNumber, Refusal>
    requires in_use { IsSome (frame_at frames.old frame) }
    requires uncopied { (page : FilePage) → Holds frames.old frame page → is_copied frames.old page ≡ false }
    ensures copied { IfOk result (λ kept. (kept ≡ frame) × CopiesOut true frames.old frame frames.new) }
    ensures ok { is_ok result ≡ has_free frames.old.copies }
    ensures held { IfErr result (λ why. (why ≡ Refusal.Held) × (frames.new ≡ frames.old)) }
{
    frames.copy_out(frame)?;
    Ok(frame)
}

// Reads a page that isn't in memory into a free frame. Fails with `Device` exactly if the read fails.
fn read_in<D: Device, A: Allocator + Copy>(
    frames: &mut Frames<A>,
    device: &mut D,
    fault: PageFault,
) -> Result<FrameNumber, Refusal>
    requires absent { is_in_memory frames.old (page_at fault.place) ≡ false }
    requires free { has_free frames.old.frames ≡ true }
    requires home { fault.home + 4096 ≤ length (D.seen device.old) }
    ensures read { IfOk result
        (λ frame. IsReadIn (D.is_honest device.old) (D.seen device.old) frames.old fault frame frames.new) }
    ensures failed { IfErr result (λ why. (why ≡ Refusal.Device) × (frames.new ≡ frames.old)) }
    ensures device { ReadsOnce D.seen D.may_leave D.is_honest D.moment D.left_since D.calls_made D.faults_met
        (is_err result) device.old device.new }
{
    match read_page(device, fault.home, fault.length, fault.place.page) {
        Ok(bytes) => frames.take_with(page_at(fault.place), &bytes),
        Err(_) => Err(Refusal::Device),
    }
}

/// Returns the frame with the page of a fault. If no frame has the page, it is read into a free one. A store to a held
/// page first copies the page's bytes. After a failure the frames are unchanged.
pub(crate) fn frame_for<D: Device, A: Allocator + Copy>(
    frames: &mut Frames<A>,
    checkpoint: &Checkpoint<A>,
    device: &mut D,
    fault: PageFault,
) -> Result<FrameNumber, Refusal>
    requires frozen { All (λ page. is_in_memory frames.old page ≡ true) checkpoint.now.frozen }
    requires home { fault.home + 4096 ≤ length (D.seen device.old) }
    ensures found { IfOk result (λ frame. IsInFrame (D.is_honest device.old) (D.seen device.old)
        frames.old checkpoint.now fault frame frames.new) }
    ensures refused { IfErr result
        (λ why. (frames.new ≡ frames.old) × FixRefused frames.old checkpoint.now fault why) }
    ensures untouched { reads_home frames.old checkpoint.now fault ≡ false → device.new ≡ device.old }
    ensures device { reads_home frames.old checkpoint.now fault ≡ true
        → ReadsOnce D.seen D.may_leave D.is_honest D.moment D.left_since D.calls_made D.faults_met
        (is_err result) device.old device.new }
{
    match decide(frames, checkpoint, fault) {
        Ok(Plan::Keep(frame)) => Ok(frame),
        Ok(Plan::Copy(frame)) => keep_copy(frames, frame),
        Ok(Plan::Read) => read_in(frames, device, fault),
        Err(why) => Err(why),
    }
}
