// Reads the log of a device.
ghost use Rattle.std.specs.Prelude.{◌≡◌, ◌*◌, ◌≤◌, length, IfOk, IfErr};
ghost use Rattle.log_codec.specs.Start.{IsLogStart};
ghost use Rattle.log_recovery.specs.Reading.{ReadsAlone, HasFaultsBy, IsFoundLog, HoldsFound, RefusesLog};
ghost use Rattle.log_recovery.specs.inside.Commit.{HoldsChain, RefusesNext};

use crate::calls::read_block;
use crate::commit::read_next;
use crate::found::FoundLog;
use device::Device;
use log_codec::{LogGeometry, LogStart, decode_start, is_second, start_block_of};
use page_entry::{PAGE, Refusal};
use std::alloc::Allocator;

/// Reads the commits of the log from this start on. Fails with `Damaged` if the commits are followed by neither another
/// commit nor the end of the log.
fn read_chain<D: Device, A: Allocator + Copy>(
    alloc: A,
    device: &mut D,
    log: &LogGeometry,
    second: bool,
    start: LogStart,
) -> Result<FoundLog<A>, Refusal>
    requires long { 4096 * log.now.blocks ≤ length (D.seen device.old) }
    requires start { IsLogStart log.now.ring start }
    ensures chain { D.is_honest device.old → IfOk result (λ found. HoldsChain log.now found (D.seen device.old)) }
    ensures same { IfOk result (λ found. (found.second ≡ second) × (found.start ≡ start)) }
    ensures found { IfOk result (IsFoundLog log.now) }
    ensures refused { D.is_honest device.old → IfErr result
        (RefusesNext log.now start.epoch start.position start.number log.now.ring (D.seen device.old)) }
    ensures read { ReadsAlone D.Device device.old device.new }
    ensures faults { HasFaultsBy (D.faults_met device.old) (D.faults_met device.new) result }
{
    let ring = log.ring();
    let mut commits = Vec::new(alloc);
    let mut position = start.position;
    let mut number = start.number;
    let mut left = ring;
    loop {
        let next = read_next(alloc, device, log, start.epoch, position, number, left)?;
        let Some(commit) = next else {
            return Ok(FoundLog {
                second,
                start,
                commits,
                end_position: log.position_behind(position, 0),
                end_number: number,
            });
        };
        let homes: &[u32] = &commit.homes;
        let blocks = commit.head + homes.len() as u32;
        if commits.push(commit).is_err() {
            return Err(Refusal::OutOfMemory);
        }
        position += blocks;
        number += 1;
        left -= blocks;
    }
}

/// Reads the log of a device: the start that counts, the commits from there on, and where the log ends. Only reads the
/// device. Reads each block of a descriptor once. If a digest seals commits, also reads the records.
///
/// Fails with:
///
/// - `Damaged` if the device is shorter than the volume.
/// - `Damaged` if the start that counts breaks the grammar.
/// - `Damaged` if a byte seals commits, and there is neither the next commit nor the end of the log.
/// - `Device` if a device call failed.
/// - `OutOfMemory` if there is too little memory. This error may replace any of the others.
pub fn read_log<D: Device, A: Allocator + Copy>(
    alloc: A,
    device: &mut D,
    log: &LogGeometry,
) -> Result<FoundLog<A>, Refusal>
    ensures holds { D.is_honest device.old → IfOk result (λ found. HoldsFound log.now found (D.seen device.old)) }
    ensures found { IfOk result (IsFoundLog log.now) }
    ensures long { IfOk result (λ found. 4096 * log.now.blocks ≤ length (D.seen device.old)) }
    ensures refused { D.is_honest device.old → IfErr result (RefusesLog log.now (D.seen device.old)) }
    ensures read { ReadsAlone D.Device device.old device.new }
    ensures faults { HasFaultsBy (D.faults_met device.old) (D.faults_met device.new) result }
{
    if device.len() < PAGE * u64::from(log.block_count()) {
        return Err(Refusal::Damaged);
    }
    let selecting = read_block(device, 1)?;
    let second = is_second(selecting[0]);
    let block = read_block(device, start_block_of(second))?;
    let Some(start) = decode_start(log, &block) else {
        return Err(Refusal::Damaged);
    };
    let found = read_chain(alloc, device, log, second, start)?;
    Ok(found)
}
