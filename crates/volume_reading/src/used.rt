// The blocks that the commits of a log use.
ghost use Rattle.std.specs.Prelude.{◌≡◌};
ghost use Rattle.log_codec.specs.Chain.{chain_blocks};
ghost use Rattle.log_volume.specs.Super.{log_of};
ghost use Rattle.log_recovery.specs.Reading.{IsFoundLog, chain_of};

use crate::logged::LoggedVolume;
use log_codec::LogGeometry;
use log_recovery::FoundLog;
use std::alloc::Allocator;

/// Returns the number of blocks that the commits of a log use.
fn blocks_in<A: Allocator + Copy>(log: &LogGeometry, found: &FoundLog<A>) -> u64
    requires found { IsFoundLog log.now found.now }
    ensures { result ≡ chain_blocks (chain_of found.now.commits.items) }
{
    let _ring = log.ring();
    let mut used = 0;
    for i in 0..found.commits.len() {
        let commit = &found.commits[i];
        used += u64::from(commit.head) + commit.homes.len() as u64;
    }
    used
}

/// Returns the number of blocks that the commits of a volume's log use.
pub fn used_blocks<A: Allocator + Copy>(volume: &LoggedVolume<A>) -> u64
    requires log { IsFoundLog (log_of volume.now.table) volume.now.log }
    ensures { result ≡ chain_blocks (chain_of volume.now.log.commits.items) }
{
    blocks_in(&volume.table.log(), &volume.log)
}
