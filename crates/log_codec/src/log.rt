// The places of the parts of a volume with a log, and the block of each position of the log.
ghost use Rattle.std.specs.Prelude.{◌≡◌, ◌<◌, ◌≤◌, ◌+◌, ◌-◌, ◌%◌, ◌^◌, ℕ, ◌↔◌, IsTrue, IfSome, IfNone};
ghost use Rattle.log_codec.specs.Log.{LogValue, IsLog, IsCommitSize, ring_block, first_log_home, first_log_file_home, log_descriptor_blocks, log_commit_blocks};

use crate::sealing::Sealing;
use std::marker::Model;

/// The smallest number of blocks of a log, with room for a page and the lengths.
const LEAST_RING: u64 = 4;

/// The largest number of blocks of a log.
const MOST_RING: u64 = 1 << 24;

/// The largest number of records of a commit.
const MOST_RECORDS: u32 = 65535;

/// Returns the number of blocks of a descriptor for this many records.
pub(crate) fn descriptor_blocks_of(records: u32) -> u32
    requires { records ≤ 65535 }
    ensures value { result ≡ log_descriptor_blocks records }
    ensures small { result ≤ 65 }
{
    (4 * records + 4127) / 4096
}

/// The places of the parts of a volume with a log. Positions of the log are counted from 0, and wrap at the end of the
/// ring.
#[derive(Clone, Copy, Debug)]
pub struct LogGeometry {
    sealing: Sealing,
    ring: u32,
    blocks: u32,
}

impl Model for LogGeometry {
    ghost use Rattle.log_codec.specs.Log.{LogValue, IsLog};

    ghost Value = { LogValue };

    ghost view = { λ g. record { sealing = g.sealing; ring = g.ring; blocks = g.blocks } };

    ghost invariant = { λ g. IsLog (record { sealing = g.sealing; ring = g.ring; blocks = g.blocks }) };

    ghost inverse = { λ v. record { sealing = v.sealing; ring = v.ring; blocks = v.blocks } };
}

impl LogGeometry {
    /// Returns the geometry of a volume with `ring` blocks of log and `blocks` blocks in all, if there is such a
    /// volume.
    pub fn new(sealing: Sealing, ring: u64, blocks: u64) -> Option<LogGeometry>
        ensures some { IfSome result (λ g. (g ≡ record { sealing = sealing; ring = ring; blocks = blocks }) × IsLog g) }
        ensures none { IfNone result (IsLog (record { sealing = sealing; ring = ring; blocks = blocks }) → ⊥) }
    {
        if ring < LEAST_RING || ring > MOST_RING {
            return None;
        }
        if blocks <= ring + 5 || blocks > u64::from(u32::MAX) {
            return None;
        }
        Some(LogGeometry {
            sealing,
            ring: ring as u32,
            blocks: blocks as u32,
        })
    }

    /// Returns how the commits are sealed.
    pub fn sealing(&self) -> Sealing
        ensures value { result ≡ self.now.sealing }
        ensures log { IsLog self.now }
    {
        self.sealing
    }

    /// Returns the number of blocks of the log, from 4 to 2^24.
    pub fn ring(&self) -> u32
        ensures value { result ≡ self.now.ring }
        ensures log { IsLog self.now }
    {
        self.ring
    }

    /// Returns the number of blocks of the volume, at most 2^32 - 1.
    pub fn block_count(&self) -> u32
        ensures value { result ≡ self.now.blocks }
        ensures log { IsLog self.now }
    {
        self.blocks
    }

    /// Returns the first home block, which contains the lengths of the files. It is the first block that a descriptor
    /// may name.
    pub fn first_home(&self) -> u32
        ensures value { result ≡ first_log_home self.now.ring }
        ensures log { IsLog self.now }
    {
        4 + self.ring
    }

    /// Returns the first home block of the files.
    pub fn first_file_home(&self) -> u32
        ensures value { result ≡ first_log_file_home self.now.ring }
        ensures log { IsLog self.now }
    {
        5 + self.ring
    }

    /// Returns the position that follows another one by this many blocks.
    pub fn position_behind(&self, position: u32, blocks: u32) -> u32
        ensures value { result ≡ (position + blocks) % self.now.ring }
        ensures within { result < self.now.ring }
        ensures log { IsLog self.now }
    {
        ((u64::from(position) + u64::from(blocks)) % u64::from(self.ring)) as u32
    }

    /// Returns the block that follows a position of the log by this many blocks.
    pub fn block_behind(&self, position: u32, blocks: u32) -> u32
        ensures value { result ≡ ring_block self.now.ring (position + blocks) }
        ensures low { result < first_log_home self.now.ring }
        ensures log { IsLog self.now }
    {
        4 + self.position_behind(position, blocks)
    }

    /// Returns the number of blocks from a position of the log to the end of the ring, at least 1.
    pub fn blocks_ahead(&self, position: u32) -> u32
        ensures value { result ≡ self.now.ring - position % self.now.ring }
        ensures some { 0 < result }
        ensures log { IsLog self.now }
    {
        self.ring - position % self.ring
    }

    /// Whether a commit may have this many records.
    pub fn is_commit_size(&self, records: u32) -> bool
        ensures { IsTrue result ↔ IsCommitSize self.now.ring records }
    {
        if records == 0 || records > MOST_RECORDS {
            return false;
        }
        descriptor_blocks_of(records) + records < self.ring
    }

    /// Returns the largest number of records that a commit may have.
    pub fn most_records(&self) -> u32
        ensures size { IsCommitSize self.now.ring result }
        ensures most { (records : ℕ) → IsCommitSize self.now.ring records → records ≤ result }
        ensures log { IsLog self.now }
    {
        let fits = ((u64::from(self.ring) + 7) * 1024 / 1025 - 8) as u32;
        fits.min(MOST_RECORDS)
    }

    /// Returns the number of blocks of a descriptor for this many records, or `None` if no commit may have that many.
    pub fn descriptor_blocks(&self, records: u32) -> Option<u32>
        ensures some { IfSome result (λ n. (n ≡ log_descriptor_blocks records) × IsCommitSize self.now.ring records) }
        ensures none { IfNone result (IsCommitSize self.now.ring records → ⊥) }
    {
        if self.is_commit_size(records) {
            Some(descriptor_blocks_of(records))
        } else {
            None
        }
    }
}
