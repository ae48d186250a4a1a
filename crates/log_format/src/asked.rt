// The super block for the files and the log that a caller asks for.
ghost use Rattle.std.specs.Prelude.{◌≡◌, ◌≤◌, ◌<◌, ◌^◌, ◌↔◌, IsTrue, IfOk, IfErr, All, length, take};
ghost use Rattle.volume_codec.specs.Files.{asked_by};
ghost use Rattle.log_volume.specs.Super.{LogSuperValue, log_of, key_of};
ghost use Rattle.log_format.specs.Asked.{IsLogAsked, RefusesLogTable};
ghost use Rattle.log_format.specs.inside.Full.{full_files, log_asked};

use log_codec::{LogGeometry, Sealing};
use log_volume::LogSuper;
use page_entry::Refusal;
use std::alloc::Allocator;
use volume_codec::{FileSpec, MAX_FILES, Super, block_count_as};

/// The greatest number of blocks in a log.
const MOST_BLOCKS: u64 = 1 << 24;

/// Whether no file is longer than its capacity.
fn have_room(files: &[FileSpec]) -> bool
    ensures { IsTrue result ↔ All (λ f. f.length ≤ f.capacity) files.now }
{
    files.iter().all(|file| file.length <= file.capacity)
}

/// Returns these files, each with its capacity as its length, followed by empty entries.
fn full_specs<'a>(files: &[FileSpec<'a>]) -> [FileSpec<'a>; 64]
    requires { length files.now ≤ 64 }
    ensures { asked_by (take (length files.now) result) ≡ full_files (asked_by files.now) }
{
    let mut full = [FileSpec {
        name: "",
        length: 0,
        capacity: 0,
    }; 64];
    for (i, file) in files.iter().enumerate() {
        full[i] = FileSpec {
            name: file.name,
            length: file.capacity,
            capacity: file.capacity,
        };
    }
    full
}

/// Returns the key of a kind of seal, which is below 2^64; zero if a byte seals.
fn key_in(sealing: Sealing) -> u64
    ensures { key_of sealing < 2 ^ 64 }
{
    match sealing {
        Sealing::ByByte => 0,
        Sealing::ByDigest(key) => key,
    }
}

/// Returns the geometry of the requested volume. Fails with `BadShape` if there is no such volume.
fn asked_log(sealing: Sealing, files: &[FileSpec], ring: u64) -> Result<LogGeometry, Refusal>
    ensures log { IfOk result (λ log. log ≡ log_of (log_asked sealing (asked_by files.now) ring)) }
    ensures asked { IfOk result (λ _.
        IsLogAsked sealing (asked_by files.now) ring (log_asked sealing (asked_by files.now) ring)) }
    ensures few { IfOk result (λ _. length files.now ≤ 64) }
    ensures err { IfErr result (λ refusal. (refusal ≡ Refusal.BadShape)
        × ((v : LogSuperValue) → IsLogAsked sealing (asked_by files.now) ring v → ⊥)) }
{
    let _key = key_in(sealing);
    if files.len() > MAX_FILES || ring > MOST_BLOCKS || !have_room(files) {
        return Err(Refusal::BadShape);
    }
    let full = full_specs(files);
    let blocks = match block_count_as(1, &full[..files.len()], 1) {
        Ok(blocks) => blocks,
        Err(refusal) => return Err(refusal),
    };
    match LogGeometry::new(sealing, ring, ring + blocks + 1) {
        Some(log) => Ok(log),
        None => Err(Refusal::BadShape),
    }
}

/// Returns the number of blocks of a volume with a log of `ring` blocks and with these files. Takes no memory. Fails
/// with `BadShape` if no volume has them. The rules are:
///
/// - 1 to 64 files, with distinct names.
/// - Names of 1 to 32 bytes, from 0x21 to 0x7E.
/// - Capacities from 1, and lengths up to the capacity.
/// - A log of 4 to 2^24 blocks.
/// - At most 2^32 - 1 blocks in all.
pub fn log_block_count(sealing: Sealing, files: &[FileSpec], ring: u64) -> Result<u64, Refusal>
    ensures ok { IfOk result (λ blocks. (v : LogSuperValue) × IsLogAsked sealing (asked_by files.now) ring v
        × (blocks ≡ (log_of v).blocks)) }
    ensures err { IfErr result (λ refusal. (refusal ≡ Refusal.BadShape)
        × ((v : LogSuperValue) → IsLogAsked sealing (asked_by files.now) ring v → ⊥)) }
{
    match asked_log(sealing, files, ring) {
        Ok(log) => Ok(u64::from(log.block_count())),
        Err(refusal) => Err(refusal),
    }
}

/// Returns the super block of a volume with a log of `ring` blocks and with these files. Fails with `BadShape` if no
/// volume has them, by the rules of `log_block_count`. This is found before any memory is taken.
pub fn asked_super<A: Allocator + Copy>(
    alloc: A,
    sealing: Sealing,
    files: &[FileSpec],
    ring: u64,
) -> Result<LogSuper<A>, Refusal>
    ensures ok { IfOk result (IsLogAsked sealing (asked_by files.now) ring) }
    ensures refused { IfErr result (RefusesLogTable sealing (asked_by files.now) ring) }
{
    let log = match asked_log(sealing, files, ring) {
        Ok(log) => log,
        Err(refusal) => return Err(refusal),
    };
    let full = full_specs(files);
    let table = match Super::new(alloc, 1, &full[..files.len()], 1) {
        Ok(table) => table,
        Err(refusal) => return Err(refusal),
    };
    match LogSuper::new(table, log) {
        Some(found) => Ok(found),
        None => Err(Refusal::BadShape),
    }
}
