// Finds the lengths of the files in a log that was read.
ghost use Rattle.std.specs.Prelude.{◌≡◌, ◌⊎◌, ◌+◌, ◌*◌, ◌≤◌, ◌<◌, length, IfOk, IfErr};
ghost use Rattle.volume_codec.specs.Lengths.{AreLengths, IsLengths};
ghost use Rattle.volume_codec.specs.Refusals.{RefusesLengths};
ghost use Rattle.log_codec.specs.Log.{IsLog, first_log_home};
ghost use Rattle.log_codec.specs.Chain.{newest_or, contents_of_log};
ghost use Rattle.log_recovery.specs.Reading.{IsFoundLog, ReadsAlone, chain_of};
ghost use Rattle.log_opening.specs.Opening.{HasFaults};

use device::Device;
use log_codec::LogGeometry;
use log_recovery::{FoundLog, read_block};
use page_entry::Refusal;
use std::alloc::Allocator;
use volume_codec::{Super, read_lengths};

/// Returns the block with the recovered bytes of the lengths block. That is the first home block, so a commit that
/// contains it lists it first.
fn newest_lengths<A: Allocator + Copy>(log: &LogGeometry, found: &FoundLog<A>) -> u32
    requires found { IsFoundLog log.now found.now }
    ensures value { result ≡ newest_or log.now.ring (first_log_home log.now.ring) found.now.start.position
        (chain_of found.now.commits.items) (first_log_home log.now.ring) }
    ensures within { result < log.now.blocks }
    ensures log { IsLog log.now }
{
    let first = log.first_home();
    let mut block = first;
    for i in 0..found.commits.len() {
        let commit = &found.commits[i];
        let homes: &[u32] = &commit.homes;
        if homes[0] == first {
            block = log.block_behind(commit.position, commit.head);
        }
    }
    block
}

/// Returns the lengths of the table's files, as the log of a device recovers them.
pub fn find_lengths<D: Device, A: Allocator + Copy>(
    alloc: A,
    device: &mut D,
    log: &LogGeometry,
    found: &FoundLog<A>,
    table: &Super<A>,
) -> Result<Vec<u64, A>, Refusal>
    requires long { 4096 * log.now.blocks ≤ length (D.seen device.old) }
    requires found { IsFoundLog log.now found.now }
    ensures ok { D.is_honest device.old → IfOk result (λ lengths. IsLengths table.now lengths.items
        (contents_of_log log.now found.now.start.position (chain_of found.now.commits.items)
        (D.seen device.old) (first_log_home log.now.ring))) }
    ensures fit { IfOk result (λ lengths. AreLengths table.now lengths.items) }
    ensures refused { D.is_honest device.old → IfErr result (λ refusal. (refusal ≡ Refusal.Device)
        ⊎ RefusesLengths table.now (contents_of_log log.now found.now.start.position
        (chain_of found.now.commits.items) (D.seen device.old) (first_log_home log.now.ring)) refusal) }
    ensures read { ReadsAlone D.Device device.old device.new }
    ensures faults { HasFaults (D.faults_met device.old) (D.faults_met device.new) result }
{
    let at = newest_lengths(log, found);
    let block = match read_block(device, at) {
        Ok(block) => block,
        Err(refusal) => return Err(refusal),
    };
    match read_lengths(alloc, table, &block) {
        Ok(lengths) => Ok(lengths),
        Err(refusal) => Err(refusal),
    }
}
