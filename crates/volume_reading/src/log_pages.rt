// The pages of the files of a volume with a log.
ghost use Rattle.std.specs.Prelude.{◌≡◌, ◌*◌, ◌≤◌, ◌<◌, length, slice_index, IfOk, IfErr};
ghost use Rattle.volume_codec.specs.Super.{pages_of, capacities_in};
ghost use Rattle.log_codec.specs.Log.{log_descriptor_blocks};
ghost use Rattle.log_codec.specs.Commit.{IsLogged};
ghost use Rattle.log_codec.specs.Chain.{records_position, logged_or, newest_or};
ghost use Rattle.log_volume.specs.Super.{table_of, log_of};
ghost use Rattle.log_recovery.specs.Reading.{ReadsAlone, IsFoundLog, logged_of, chain_of};
ghost use Rattle.volume_reading.specs.Logged.{logged_contents, logged_home};

use crate::logged::LoggedVolume;
use device::Device;
use log_codec::{LogGeometry, recovered_from_log};
use log_recovery::{FoundCommit, FoundLog, read_block};
use page_entry::Refusal;
use std::alloc::Allocator;

/// Returns the block of a home block's record in a commit, or `other` if the commit has none.
fn record_or<A: Allocator + Copy>(
    log: &LogGeometry,
    commit: &FoundCommit<A>,
    home: u32,
    other: u32,
) -> u32
    requires logged { IsLogged log.now (logged_of commit.now) }
    requires head { commit.now.head ≡ log_descriptor_blocks (length commit.now.homes.items) }
    requires other { other < log.now.blocks }
    ensures value { result ≡ logged_or log.now.ring other
        (records_position commit.now.position (logged_of commit.now)) commit.now.homes.items home }
    ensures within { result < log.now.blocks }
{
    recovered_from_log();
    let _ring = log.ring();
    let homes: &[u32] = &commit.homes;
    for k in 0..homes.len() {
        if homes[k] == home {
            return log.block_behind(commit.position, commit.head + k as u32);
        }
    }
    other
}

/// Returns the block with the recovered bytes of a home block: its record in the newest commit that has one, or else
/// the home block itself.
pub fn newest_block<A: Allocator + Copy>(log: &LogGeometry, found: &FoundLog<A>, home: u32) -> u32
    requires found { IsFoundLog log.now found.now }
    requires home { home < log.now.blocks }
    ensures value { result ≡ newest_or log.now.ring home found.now.start.position
        (chain_of found.now.commits.items) home }
    ensures within { result < log.now.blocks }
{
    let mut block = home;
    for i in 0..found.commits.len() {
        block = record_or(log, &found.commits[i], home, block);
    }
    block
}

/// Returns the home block of a page of a file.
pub fn home_of<A: Allocator + Copy>(volume: &LoggedVolume<A>, file: usize, page: u32) -> u32
    requires there { file < length volume.now.table.files }
    requires page { page < pages_of (slice_index (capacities_in (table_of volume.now.table)) file) }
    ensures value { result ≡ logged_home volume.now.table file page }
    ensures within { result < (log_of volume.now.table).blocks }
{
    let log = volume.table.log();
    let table = volume.table.table();
    table.first_home(file) + log.ring() + 1 + page
}

/// Reads the recovered bytes of a page of a file. `device` must be the device from which the volume was read. Only
/// reads it. Fails with `Device` if the device call failed.
pub fn read_page<D: Device, A: Allocator + Copy>(
    volume: &LoggedVolume<A>,
    device: &mut D,
    file: usize,
    page: u32,
) -> Result<[u8; 4096], Refusal>
    requires there { file < length volume.now.table.files }
    requires page { page < pages_of (slice_index (capacities_in (table_of volume.now.table)) file) }
    requires log { IsFoundLog (log_of volume.now.table) volume.now.log }
    requires long { 4096 * (log_of volume.now.table).blocks ≤ length (D.seen device.old) }
    ensures bytes { D.is_honest device.old → IfOk result (λ bytes. bytes
        ≡ logged_contents volume.now (D.seen device.old) (logged_home volume.now.table file page)) }
    ensures read { ReadsAlone D.Device device.old device.new }
    ensures fault { IfErr result (λ refusal. refusal ≡ Refusal.Device) }
{
    let home = home_of(volume, file, page);
    let block = newest_block(&volume.table.log(), &volume.log, home);
    read_block(device, block)
}
