// Opens a volume with a log.
ghost use Rattle.std.specs.Prelude.{◌≡◌, ◌≢◌, ◌⊎◌, ◌*◌, ◌≤◌, not, length, slice_index, IfOk, IfErr, OnOk};
ghost use Rattle.device.specs.Device.{LeavesOnly};
ghost use Rattle.log_codec.specs.Start.{IsLogStart, counts_second};
ghost use Rattle.log_recovery.specs.Reading.{IsFoundLog};
ghost use Rattle.log_opening.specs.inside.Keeping.{IsLookedAt};
ghost use Rattle.log_opening.specs.Opening.{OpensLog, RefusesLogOpening, HasWrittenNothing, IsCounted, LeftByLogOpening};

use crate::looking::{Looked, look};
use crate::switching::{prepare, switch};
use crate::youngest::youngest_commits;
use device::Device;
use log_codec::{LogGeometry, LogStart};
use page_entry::Refusal;
use std::alloc::Allocator;

/// Finishes the opening of a volume whose log was examined. Writes its records home, and begins the log behind its
/// commits. Takes memory before it writes.
pub fn finish<D: Device, A: Allocator + Copy>(
    alloc: A,
    device: &mut D,
    log: &LogGeometry,
    looked: &Looked<A>,
) -> Result<(), Refusal>
    requires long { 4096 * log.now.blocks ≤ length (D.seen device.old) }
    requires found { IsFoundLog log.now looked.now.found }
    requires start { IsLogStart log.now.ring looked.now.next }
    ensures opened { IsLookedAt D.Device log.now looked.now.found looked.now.next device.old
        → OnOk result (OpensLog D.Device log.now device.old looked.now.next device.new) }
    ensures selected { IsLookedAt D.Device log.now looked.now.found looked.now.next device.old
        → OnOk result (counts_second (slice_index (D.seen device.new) 4096) ≡ not looked.now.found.second) }
    ensures crash { IsLookedAt D.Device log.now looked.now.found looked.now.next device.old
        → LeavesOnly D.moment D.left_since device.old device.new (LeftByLogOpening D.Device log.now device.old) }
    ensures refused { IfErr result (λ refusal. (refusal ≡ Refusal.Device) ⊎ (refusal ≡ Refusal.OutOfMemory)) }
    ensures unwritten { IfErr result (λ refusal. refusal ≢ Refusal.Device → device.new ≡ device.old) }
    ensures counted { IsCounted D.Device device.old result device.new }
{
    let youngest = match youngest_commits(alloc, &looked.found) {
        Ok(youngest) => youngest,
        Err(refusal) => return Err(refusal),
    };
    let _ring = log.ring();
    match prepare(device, log, &looked.found, &youngest, &looked.next) {
        Ok(()) => {}
        Err(_) => return Err(Refusal::Device),
    }
    match switch(device, !looked.found.second) {
        Ok(()) => Ok(()),
        Err(_) => Err(Refusal::Device),
    }
}

/// Opens a volume with a log, and returns the start of its log. The log then has no commit, each home block has its
/// newest record, and all of this is synced.
///
/// The call syncs and reads the log. Then it writes the records home, writes the start that doesn't count, and syncs.
/// Then it writes the byte that selects this start, and syncs.
///
/// Fails with:
///
/// - `Damaged` if the device contains no log of this volume.
/// - `Busy` if no epoch is left.
/// - `OutOfMemory` if there is too little memory.
/// - `Device` if a device call failed. Then the device recovers as before.
///
/// The first three errors leave the device unwritten. After a crash at any moment the device recovers as before, too.
pub fn open_log<D: Device, A: Allocator + Copy>(
    alloc: A,
    device: &mut D,
    log: &LogGeometry,
) -> Result<LogStart, Refusal>
    ensures opened { D.is_honest device.old
        → IfOk result (λ next. OpensLog D.Device log.now device.old next device.new) }
    ensures refused { D.is_honest device.old → IfErr result (RefusesLogOpening log.now (D.seen device.old)) }
    ensures unwritten { IfErr result (λ refusal. refusal ≢ Refusal.Device
        → HasWrittenNothing D.Device device.old device.new) }
    ensures crash { D.is_honest device.old → LeavesOnly D.moment D.left_since device.old device.new
        (LeftByLogOpening D.Device log.now device.old) }
    ensures start { IfOk result (IsLogStart log.now.ring) }
    ensures counted { IsCounted D.Device device.old result device.new }
{
    let looked = match look(alloc, device, log) {
        Ok(looked) => looked,
        Err(refusal) => return Err(refusal),
    };
    match finish(alloc, device, log, &looked) {
        Ok(()) => Ok(looked.next),
        Err(refusal) => Err(refusal),
    }
}
