// The super block of a volume with a log. Apart from its first 32 bytes, it is the super block of layout 1 with one
// slot.
ghost use Rattle.std.specs.Prelude.{◌≡◌, ◌≢◌, ◌⊎◌, ◌+◌, ◌<◌, ◌≤◌, ◌++◌, ◌^◌, IfOk, IfErr, IfSome, IfNone, List, ℕ, length, take, drop, codes};
ghost use Rattle.volume_codec.specs.Text.{number_text, number_in, zeros};
ghost use Rattle.volume_codec.specs.Super.{block_count};
ghost use Rattle.log_codec.specs.declared.sealing.Sealing.{Sealing};
ghost use Rattle.log_codec.specs.Log.{IsLog};
ghost use Rattle.log_volume.specs.Super.{LogSuperValue, IsLogSuper, RefusesLogSuper, FitsLog, table_of, log_of, log_magic, key_of, log_super_text};

use crate::block::{put, put_u32, put_u64};
use log_codec::{LogGeometry, Sealing, u32_at, u64_at};
use page_entry::Refusal;
use std::alloc::Allocator;
use std::marker::Model;
use volume_codec::{Layout, Super, one_reading, read_super};

/// The contents of the super block of a volume with a log: the table of its files, and where the log and the home
/// blocks lie.
#[derive(Drop)]
pub struct LogSuper<A: Allocator + Copy> {
    table: Super<A>,
    log: LogGeometry,
}

impl<A: Allocator + Copy> Model for LogSuper<A> {
    ghost use Rattle.std.specs.Prelude.{◌≡◌};
    ghost use Rattle.log_volume.specs.Super.{LogSuperValue, table_of, log_of};

    ghost Value = { LogSuperValue };

    ghost view = { λ s. record { sealing = s.log.sealing; ring = s.log.ring; files = s.table.files } };

    ghost invariant = { λ s. let v : LogSuperValue = record {
      sealing = s.log.sealing;
      ring = s.log.ring;
      files = s.table.files;
    } in (s.table ≡ table_of v) × (s.log ≡ log_of v) };
}

/// Returns the key of a kind of seal; zero if a byte seals.
fn key_in(sealing: Sealing) -> u64
    ensures value { result ≡ key_of sealing }
    ensures small { key_of sealing < 2 ^ 64 }
{
    match sealing {
        Sealing::ByByte => 0,
        Sealing::ByDigest(key) => key,
    }
}

/// Returns the first eight bytes of a super block.
fn magic_in(sealing: Sealing) -> [u8; 8]
    ensures { result ≡ log_magic sealing }
{
    match sealing {
        Sealing::ByByte => *b"FAMSYNC5",
        Sealing::ByDigest(_) => *b"FAMSYNC6",
    }
}

impl<A: Allocator + Copy> LogSuper<A> {
    /// Combines a table of files with the geometry of a log. Returns `None` unless the table is in layout 1 with one
    /// slot, and the volume's number of blocks matches both.
    pub fn new(table: Super<A>, log: LogGeometry) -> Option<LogSuper<A>>
        ensures some { IfSome result (λ s. (table ≡ table_of s) × (log ≡ log_of s)) }
        ensures none { IfNone result ((v : LogSuperValue) → table ≡ table_of v → log ≡ log_of v → ⊥) }
    {
        if table.layout() != Layout::One || table.slots() != 1 {
            return None;
        }
        if u64::from(log.block_count())
            != u64::from(log.ring()) + u64::from(table.block_count()) + 1
        {
            return None;
        }
        Some(LogSuper { table, log })
    }

    /// Returns the table of files. A file's home blocks lie behind those in the table. The distance is the number of
    /// the log's blocks, and one for the lengths block.
    pub fn table(&self) -> &Super<A>
        ensures { result.now ≡ table_of self.now }
    {
        &self.table
    }

    /// Returns the geometry of the volume.
    pub fn log(&self) -> LogGeometry
        ensures value { result ≡ log_of self.now }
        ensures log { IsLog (log_of self.now) }
    {
        let _ring = self.log.ring();
        self.log
    }

    /// Returns the super block with these contents.
    pub fn to_block(&self) -> [u8; 4096]
        ensures text { result ≡ log_super_text self.now }
        ensures says { IsLogSuper self.now result }
    {
        let mut block = self.table.to_block();
        let sealing = self.log.sealing();
        put(&mut block, 0, &magic_in(sealing));
        put_u32(&mut block, 8, self.table.file_count() as u32);
        put_u32(&mut block, 12, self.log.ring());
        put_u32(&mut block, 16, self.log.block_count());
        put_u32(&mut block, 20, self.log.block_behind(0, 0));
        put_u64(&mut block, 24, key_in(sealing));
        block
    }
}

/// Returns how a volume seals its commits, if its super block begins with the magic of layout 5 or 6.
fn sealing_of(block: &[u8; 4096]) -> Option<Sealing>
    ensures some { IfSome result (λ sealing. (take 8 block.now ≡ log_magic sealing)
        × (key_of sealing < 2 ^ 64)) }
    ensures only { IfSome result (λ sealing. (v : LogSuperValue) → IsLogSuper v block.now → sealing ≡ v.sealing) }
    ensures none { IfNone result ((sealing : Sealing) → take 8 block.now ≢ log_magic sealing) }
{
    let mut magic = [0; 8];
    magic.copy_from_slice(&block[..8]);
    if magic == magic_in(Sealing::ByByte) {
        return Some(Sealing::ByByte);
    }
    if magic == magic_in(Sealing::ByDigest(0)) {
        return Some(Sealing::ByDigest(u64_at(block, 24)));
    }
    None
}

/// Returns the block with its first 32 bytes replaced by those of layout 1 with one slot and this many blocks.
fn as_table(block: &[u8; 4096], blocks: u32) -> [u8; 4096]
    ensures { result ≡ (codes "FAMSYNC1" ++ take 4 (drop 8 block.now) ++ number_text 4 1 ++ number_text 4 blocks
        ++ zeros 12) ++ drop 32 block.now }
{
    let mut table = *block;
    put(&mut table, 0, b"FAMSYNC1");
    put(&mut table, 8, &block[8..12]);
    put_u32(&mut table, 12, 1);
    put_u32(&mut table, 16, blocks);
    put(&mut table, 20, &[0; 12]);
    table
}

/// Returns the refusal for a block whose table was refused: `OutOfMemory` or `Damaged`.
fn damage_of(refusal: Refusal) -> Refusal
    ensures memory { refusal ≡ Refusal.OutOfMemory → result ≡ Refusal.OutOfMemory }
    ensures names { (result ≡ Refusal.OutOfMemory) ⊎ (result ≡ Refusal.Damaged) }
{
    match refusal {
        Refusal::OutOfMemory => Refusal::OutOfMemory,
        _ => Refusal::Damaged,
    }
}

/// Reads the table of a super block as that of a volume in layout 1 with this many blocks.
fn read_table<A: Allocator + Copy>(
    alloc: A,
    block: &[u8; 4096],
    blocks: u32,
) -> Result<Super<A>, Refusal>
    ensures ok { IfOk result (λ table. (v : LogSuperValue) → IsLogSuper v block.now
        → blocks ≡ block_count (table_of v) → table ≡ table_of v) }
    ensures refused { IfErr result (λ refusal. refusal ≢ Refusal.OutOfMemory
        → (v : LogSuperValue) → IsLogSuper v block.now → blocks ≢ block_count (table_of v)) }
    ensures names { IfErr result (λ refusal. (refusal ≡ Refusal.OutOfMemory) ⊎ (refusal ≡ Refusal.Damaged)) }
{
    one_reading();
    match read_super(alloc, &as_table(block, blocks)) {
        Ok(table) => Ok(table),
        Err(refusal) => Err(damage_of(refusal)),
    }
}

/// Reads the super block of a volume with a log. Fails with `NotAVolume` if it doesn't begin with the magic of layout 5
/// or 6. Fails with `Damaged` if it breaks another rule of the grammar. `OutOfMemory` may replace either error.
pub fn read_log_super<A: Allocator + Copy>(
    alloc: A,
    block: &[u8; 4096],
) -> Result<LogSuper<A>, Refusal>
    ensures ok { IfOk result (λ s. IsLogSuper s block.now) }
    ensures refused { IfErr result (RefusesLogSuper block.now) }
{
    let Some(sealing) = sealing_of(block) else {
        return Err(Refusal::NotAVolume);
    };
    let (ring, blocks) = (u32_at(block, 12), u32_at(block, 16));
    let Some(log) = LogGeometry::new(sealing, u64::from(ring), u64::from(blocks)) else {
        return Err(Refusal::Damaged);
    };
    let table = match read_table(alloc, block, blocks - ring - 1) {
        Ok(table) => table,
        Err(refusal) => return Err(refusal),
    };
    let Some(found) = LogSuper::new(table, log) else {
        return Err(Refusal::Damaged);
    };
    if found.to_block() == *block {
        return Ok(found);
    }
    Err(Refusal::Damaged)
}
