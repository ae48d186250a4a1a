// A log that was found on a device.
use log_codec::LogStart;
use std::alloc::Allocator;

/// A commit that was found in a log.
#[derive(Drop)]
pub struct FoundCommit<A: Allocator + Copy> {
    /// Its number.
    pub number: u64,
    /// The position of its first block. Positions continue to rise when the ring wraps.
    pub position: u32,
    /// The number of blocks of its descriptor. Its records follow.
    pub head: u32,
    /// The home block of each record.
    pub homes: Vec<u32, A>,
}

/// A log that was found: the start that counts, and the commits from there to the end of the log.
#[derive(Drop)]
pub struct FoundLog<A: Allocator + Copy> {
    /// Whether the second start counts.
    pub second: bool,
    /// The start that counts.
    pub start: LogStart,
    /// The commits, oldest first.
    pub commits: Vec<FoundCommit<A>, A>,
    /// The position behind the commits, in the ring.
    pub end_position: u32,
    /// The number of the next commit.
    pub end_number: u64,
}
