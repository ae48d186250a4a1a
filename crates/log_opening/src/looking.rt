// Examines the log before anything is written.
ghost use Rattle.std.specs.Prelude.{◌≡◌, ℕ, ◌*◌, ◌≤◌, length, IfOk, IfErr, OnOk};
ghost use Rattle.log_codec.specs.Start.{IsLogStart};
ghost use Rattle.log_recovery.specs.Reading.{IsFoundLog};
ghost use Rattle.log_opening.specs.inside.Keeping.{IsLookedAt};
ghost use Rattle.log_opening.specs.Opening.{RefusesLogOpening, HasWrittenNothing, IsCounted};

use crate::epoch::free_epoch;
use device::{Device, make_durable};
use log_codec::{LogGeometry, LogStart};
use log_recovery::{FoundLog, read_log};
use page_entry::Refusal;
use std::alloc::Allocator;

/// A log that was found, and the next start, behind all of its commits.
#[derive(Drop)]
pub struct Looked<A: Allocator + Copy> {
    pub found: FoundLog<A>,
    pub next: LogStart,
}

/// Makes the device's bytes durable, and then reads its log. Returns the log and the start behind all of its commits.
/// The start's epoch is the first later epoch in which the log ends there.
pub fn look<D: Device, A: Allocator + Copy>(
    alloc: A,
    device: &mut D,
    log: &LogGeometry,
) -> Result<Looked<A>, Refusal>
    ensures looked { D.is_honest device.old
        → IfOk result (λ looked. IsLookedAt D.Device log.now looked.found looked.next device.new) }
    ensures found { IfOk result (λ looked. IsFoundLog log.now looked.found) }
    ensures start { IfOk result (λ looked. IsLogStart log.now.ring looked.next) }
    ensures long { OnOk result (4096 * log.now.blocks ≤ length (D.seen device.old)) }
    ensures refused { D.is_honest device.old → IfErr result (RefusesLogOpening log.now (D.seen device.old)) }
    ensures unwritten { HasWrittenNothing D.Device device.old device.new }
    ensures counted { IsCounted D.Device device.old result device.new }
{
    match make_durable(device) {
        Ok(()) => {}
        Err(_) => return Err(Refusal::Device),
    }
    let found = match read_log(alloc, device, log) {
        Ok(found) => found,
        Err(refusal) => return Err(refusal),
    };
    let (position, number) = (found.end_position, found.end_number);
    match free_epoch(alloc, device, log, found.start.epoch, position, number) {
        Ok(later) => {
            let next = LogStart {
                position,
                number,
                epoch: later,
            };
            Ok(Looked { found, next })
        }
        Err(refusal) => Err(refusal),
    }
}
