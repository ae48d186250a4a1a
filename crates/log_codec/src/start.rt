// The two starts: the place of the log's first commit, and which start is selected.
ghost use Rattle.std.specs.Prelude.{◌≡◌, ◌≢◌, IfSome, IfNone};
ghost use Rattle.log_codec.specs.Start.{IsStartBlock, start_text, counts_second, start_block};

use crate::block::{put_u32, put_u64, u32_at, u64_at, zero_block};
use crate::log::LogGeometry;

/// The first byte of block 1 if the second start is selected. Any other byte selects the first start.
const SECOND: u8 = 0xA7;

/// The start of a log: the position and the number of its first commit, and the epoch of the session.
#[derive(Clone, Copy, PartialEq, Eq, Debug)]
pub struct LogStart {
    /// The position of the first commit, below the number of blocks of the log.
    pub position: u32,
    /// The number of the commit that begins there, from 1.
    pub number: u64,
    /// The epoch, counted from 1. Each opening raises it.
    pub epoch: u64,
}

/// Whether the first byte of block 1 selects the second start.
pub fn is_second(byte: u8) -> bool
    ensures { result ≡ counts_second byte }
{
    byte == SECOND
}

/// Returns a first byte of block 1 that selects the second start, or the first one.
pub fn selecting_byte(second: bool) -> u8
    ensures { counts_second result ≡ second }
{
    if second { SECOND } else { 0 }
}

/// Returns the block of the second start, or of the first one.
pub fn start_block_of(second: bool) -> u32
    ensures { result ≡ start_block second }
{
    if second { 3 } else { 2 }
}

/// Returns the block that contains this start.
pub fn encode_start(start: &LogStart) -> [u8; 4096]
    ensures { result ≡ start_text start.now }
{
    let mut block = zero_block();
    put_u64(&mut block, 0, start.number);
    put_u64(&mut block, 8, start.epoch);
    put_u32(&mut block, 16, start.position);
    block
}

/// Returns the start that a block contains, if it contains one for this log.
pub fn decode_start(log: &LogGeometry, block: &[u8; 4096]) -> Option<LogStart>
    ensures some { IfSome result (λ start. IsStartBlock log.now.ring start block.now) }
    ensures none { IfNone result ((start : LogStart) → IsStartBlock log.now.ring start block.now → ⊥) }
{
    let ring = log.ring();
    let start = LogStart {
        number: u64_at(block, 0),
        epoch: u64_at(block, 8),
        position: u32_at(block, 16),
    };
    if start.number == 0 || start.epoch == 0 || start.position >= ring {
        return None;
    }
    if encode_start(&start) != *block {
        return None;
    }
    Some(start)
}
