// Writes the records of commits to their home blocks.
ghost use Rattle.std.specs.Prelude.{◌≡◌, ℕ, Bool, List, ◌+◌, ◌*◌, ◌≤◌, if◌then◌else◌, is_ok, length, nat_eq, OnOk};
ghost use Rattle.device.specs.Count.{raised};
ghost use Rattle.device.specs.Work.{CopyBlock, Nothing};
ghost use Rattle.device.specs.Did.{Did};
ghost use Rattle.indexmap.specs.IndexMap.{get};
ghost use Rattle.log_codec.specs.declared.start.LogStart.{LogStart};
ghost use Rattle.log_codec.specs.Log.{log_descriptor_blocks};
ghost use Rattle.log_codec.specs.Commit.{LogDescriptor, IsLogged};
ghost use Rattle.log_codec.specs.Chain.{records_position};
ghost use Rattle.log_recovery.specs.Reading.{IsFoundLog, logged_of, chain_of};
ghost use Rattle.log_opening.specs.inside.Places.{ArePlaces};
ghost use Rattle.log_opening.specs.inside.Keeping.{AreLogged, WritesKeeping, IsSameDevice, HasRecords, HasHomes};

use crate::youngest::{Youngest, is_younger};
use device::{Device, DeviceFault, copy_block};
use log_codec::LogGeometry;
use log_recovery::{FoundCommit, FoundLog};
use std::alloc::Allocator;

/// Copies a block, unless `skip` is set.
fn copy_unless<D: Device>(
    device: &mut D,
    skip: bool,
    from: u32,
    to: u32,
    buffer: &mut [u8; 4096],
) -> Result<(), DeviceFault>
    requires from { 4096 * from + 4096 ≤ length (D.seen device.old) }
    requires to { 4096 * to + 4096 ≤ length (D.seen device.old) }
    ensures { Did D.Device device.old (if skip then Nothing else CopyBlock from to) (is_ok result) device.new }
{
    if skip {
        return Ok(());
    }
    copy_block(device, from, to, buffer)
}

/// Writes home the records of the commit at a place, except those of home blocks that a younger commit contains.
fn write_records<D: Device, A: Allocator + Copy>(
    device: &mut D,
    log: &LogGeometry,
    commit: &FoundCommit<A>,
    youngest: &Youngest<A>,
    place: usize,
    buffer: &mut [u8; 4096],
) -> Result<(), DeviceFault>
    requires long { 4096 * log.now.blocks ≤ length (D.seen device.old) }
    requires head { commit.now.head ≡ log_descriptor_blocks (length commit.now.homes.items) }
    requires logged { IsLogged log.now (logged_of commit.now) }
    ensures copied { D.is_honest device.old → OnOk result (HasRecords log.now
        (records_position commit.now.position (logged_of commit.now)) commit.now.homes.items
        (get nat_eq youngest.now) place (D.seen device.old) (D.seen device.new)) }
    ensures keeps { (s : LogStart) (chain : List LogDescriptor) (second : Bool)
        → AreLogged log.now s chain commit.now.homes.items
        → WritesKeeping D.Device log.now s chain second device.old device.new }
    ensures same { IsSameDevice D.Device device.old device.new }
    ensures faults { D.faults_met device.new
        ≡ (if is_ok result then D.faults_met device.old else raised (D.faults_met device.old)) }
{
    let homes: &[u32] = &commit.homes;
    for i in 0..homes.len() {
        let record = log.block_behind(commit.position, commit.head + i as u32);
        let skip = is_younger(youngest, homes[i], place);
        match copy_unless(device, skip, record, homes[i], buffer) {
            Ok(()) => {}
            Err(fault) => return Err(fault),
        }
    }
    Ok(())
}

/// Writes the newest record of each home block home.
pub fn write_homes<D: Device, A: Allocator + Copy>(
    device: &mut D,
    log: &LogGeometry,
    found: &FoundLog<A>,
    youngest: &Youngest<A>,
) -> Result<(), DeviceFault>
    requires long { 4096 * log.now.blocks ≤ length (D.seen device.old) }
    requires found { IsFoundLog log.now found.now }
    requires places { ArePlaces (chain_of found.now.commits.items) (get nat_eq youngest.now) }
    ensures copied { D.is_honest device.old → OnOk result (HasHomes log.now found.now.start.position
        (chain_of found.now.commits.items) (D.seen device.old) (D.seen device.new)) }
    ensures keeps { (second : Bool) → WritesKeeping D.Device log.now found.now.start
        (chain_of found.now.commits.items) second device.old device.new }
    ensures same { IsSameDevice D.Device device.old device.new }
    ensures faults { D.faults_met device.new
        ≡ (if is_ok result then D.faults_met device.old else raised (D.faults_met device.old)) }
{
    let _ring = log.ring();
    let mut buffer = [0; 4096];
    for i in 0..found.commits.len() {
        match write_records(device, log, &found.commits[i], youngest, i, &mut buffer) {
            Ok(()) => {}
            Err(fault) => return Err(fault),
        }
    }
    Ok(())
}
