// Writes the start behind all commits, and then makes it count.
ghost use Rattle.std.specs.Prelude.{◌≡◌, ℕ, Bool, not, ◌*◌, ◌≤◌, ◌<◌, if◌then◌else◌, is_ok, length, nat_eq, OnOk, [], ◌∷◌};
ghost use Rattle.device.specs.Count.{raised};
ghost use Rattle.indexmap.specs.IndexMap.{get};
ghost use Rattle.device.specs.Device.{Only, Torn, LeavesOnly, written};
ghost use Rattle.log_codec.specs.Start.{counts_second};
ghost use Rattle.log_recovery.specs.Reading.{IsFoundLog, chain_of};
ghost use Rattle.log_opening.specs.inside.Places.{ArePlaces};
ghost use Rattle.log_opening.specs.inside.Keeping.{WritesKeeping, IsSameDevice, IsReady, HasSwitched};

use crate::homes::write_homes;
use crate::youngest::Youngest;
use device::{Device, DeviceFault, make_durable, write_at};
use log_codec::{LogGeometry, LogStart, encode_start, selecting_byte, start_block_of};
use log_recovery::FoundLog;
use std::alloc::Allocator;

/// Writes all records home, and a start in place of the start that doesn't count. Then syncs both.
pub fn prepare<D: Device, A: Allocator + Copy>(
    device: &mut D,
    log: &LogGeometry,
    found: &FoundLog<A>,
    youngest: &Youngest<A>,
    next: &LogStart,
) -> Result<(), DeviceFault>
    requires long { 4096 * log.now.blocks ≤ length (D.seen device.old) }
    requires found { IsFoundLog log.now found.now }
    requires places { ArePlaces (chain_of found.now.commits.items) (get nat_eq youngest.now) }
    ensures ready { D.is_honest device.old → OnOk result (IsReady log.now found.now.start
        (chain_of found.now.commits.items) found.now.second next.now (D.seen device.old) (D.seen device.new)) }
    ensures synced { D.is_honest device.old → OnOk result (Only (D.may_leave device.new) (D.seen device.new)) }
    ensures keeps { WritesKeeping D.Device log.now found.now.start (chain_of found.now.commits.items)
        found.now.second device.old device.new }
    ensures same { IsSameDevice D.Device device.old device.new }
    ensures faults { D.faults_met device.new
        ≡ (if is_ok result then D.faults_met device.old else raised (D.faults_met device.old)) }
{
    let _ring = log.ring();
    match write_homes(device, log, found, youngest) {
        Ok(()) => {}
        Err(fault) => return Err(fault),
    }
    let at = 4096 * u64::from(start_block_of(!found.second));
    match write_at(device, at, &encode_start(next)) {
        Ok(()) => make_durable(device),
        Err(fault) => Err(fault),
    }
}

/// Makes one of the starts count from now on, durably.
pub fn switch<D: Device>(device: &mut D, second: bool) -> Result<(), DeviceFault>
    requires long { 8192 ≤ length (D.seen device.old) }
    ensures switched { D.is_honest device.old
        → OnOk result (HasSwitched D.Device second device.old device.new) }
    ensures crash { D.is_honest device.old → Only (D.may_leave device.old) (D.seen device.old)
        → LeavesOnly D.moment D.left_since device.old device.new (Torn 4096 1 (D.seen device.old)) }
    ensures same { IsSameDevice D.Device device.old device.new }
    ensures faults { D.faults_met device.new
        ≡ (if is_ok result then D.faults_met device.old else raised (D.faults_met device.old)) }
{
    match write_at(device, 4096, &[selecting_byte(second)]) {
        Ok(()) => make_durable(device),
        Err(fault) => Err(fault),
    }
}
