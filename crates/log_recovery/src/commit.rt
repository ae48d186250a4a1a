// Reads the commit at a position of the log: its descriptor and its seal.
ghost use Rattle.std.specs.Prelude.{◌≡◌, ◌≢◌, ◌*◌, ◌≤◌, ◌<◌, ℕ, length, take, IfOk, IfErr, IfSome};
ghost use Rattle.volume_codec.specs.Layout.{block_at};
ghost use Rattle.log_codec.specs.declared.sealing.Sealing.TheVariants.{ByByte, ByDigest};
ghost use Rattle.log_codec.specs.Log.{IsLog, ring_block, ring_bytes, log_descriptor_blocks};
ghost use Rattle.log_codec.specs.Commit.{log_seal};
ghost use Rattle.log_codec.specs.Chain.{records_position, spare_blocks};
ghost use Rattle.log_recovery.specs.Reading.{ReadsAlone, HasFaultsBy, logged_of};
ghost use Rattle.log_recovery.specs.inside.Commit.{IsPlacedCommit, IsDescribedAt, RefusesHead, FindsNext, RefusesNext, refusal_by};

use crate::calls::read_block;
use crate::found::FoundCommit;
use device::Device;
use log_codec::{
    Broken, ByteSeal, CommitDigest, LogGeometry, Sealing, decode_count, decode_descriptor,
    read_seal,
};
use page_entry::Refusal;
use std::alloc::Allocator;

/// Returns the first eight bytes of a block.
fn seal_at(block: &[u8; 4096]) -> [u8; 8]
    ensures { result ≡ take 8 block.now }
{
    let mut seal = [0; 8];
    seal.copy_from_slice(&block[..8]);
    seal
}

/// Returns the number of blocks of a log that commits leave free.
fn spare(log: &LogGeometry) -> u32
    ensures { result ≡ spare_blocks log.now.sealing }
{
    match log.sealing() {
        Sealing::ByByte => 1,
        Sealing::ByDigest(_) => 0,
    }
}

/// Returns the refusal for a descriptor that breaks a rule of the grammar, or for which there was too little memory.
fn refusal_of(broken: Broken) -> Refusal
    ensures { result ≡ refusal_by broken }
{
    match broken {
        Broken::OutOfMemory => Refusal::OutOfMemory,
        _ => Refusal::Damaged,
    }
}

/// Reads the blocks of a descriptor at a position. `first` is its first block, which was read already.
fn read_head<D: Device, A: Allocator + Copy>(
    alloc: A,
    device: &mut D,
    log: &LogGeometry,
    position: u32,
    first: &[u8; 4096],
    blocks: u32,
) -> Result<Vec<u8, A>, Refusal>
    requires long { 4096 * log.now.blocks ≤ length (D.seen device.old) }
    requires some { 0 < blocks }
    requires first { D.is_honest device.old
        → first.now ≡ block_at (D.seen device.old) (ring_block log.now.ring position) }
    ensures head { D.is_honest device.old
        → IfOk result (λ head. head.items ≡ ring_bytes log.now.ring (D.seen device.old) position blocks) }
    ensures size { IfOk result (λ head. length head.items ≡ 4096 * blocks) }
    ensures begins { IfOk result (λ head. take 4096 head.items ≡ first.now) }
    ensures read { ReadsAlone D.Device device.old device.new }
    ensures faults { HasFaultsBy (D.faults_met device.old) (D.faults_met device.new) result }
    ensures refused { IfErr result (λ refusal. refusal ≢ Refusal.Damaged) }
{
    let Ok(mut head) = Vec::with_capacity(alloc, 4096 * blocks as usize) else {
        return Err(Refusal::OutOfMemory);
    };
    if head.extend_from_slice(first).is_err() {
        return Err(Refusal::OutOfMemory);
    }
    for i in 1..blocks {
        let block = read_block(device, log.block_behind(position, i))?;
        if head.extend_from_slice(&block).is_err() {
            return Err(Refusal::OutOfMemory);
        }
    }
    Ok(head)
}

/// Reads the descriptor of the commit at a position, which must have this number and fit the remaining blocks. Ignores
/// its seal. `first` is its first block, which was read already. Fails with `Damaged` if there is no such descriptor.
fn read_descriptor<D: Device, A: Allocator + Copy>(
    alloc: A,
    device: &mut D,
    log: &LogGeometry,
    position: u32,
    number: u64,
    left: u32,
    first: &[u8; 4096],
) -> Result<FoundCommit<A>, Refusal>
    requires log { IsLog log.now }
    requires long { 4096 * log.now.blocks ≤ length (D.seen device.old) }
    requires first { D.is_honest device.old
        → first.now ≡ block_at (D.seen device.old) (ring_block log.now.ring position) }
    ensures described { D.is_honest device.old
        → IfOk result (λ commit. IsDescribedAt log.now position commit (D.seen device.old)) }
    ensures placed { IfOk result (IsPlacedCommit log.now position number left) }
    ensures refused { D.is_honest device.old
        → IfErr result (RefusesHead log.now position number left (D.seen device.old)) }
    ensures read { ReadsAlone D.Device device.old device.new }
    ensures faults { HasFaultsBy (D.faults_met device.old) (D.faults_met device.new) result }
{
    let Ok(count) = decode_count(log, number, first) else {
        return Err(Refusal::Damaged);
    };
    let Some(head) = log.descriptor_blocks(count) else {
        return Err(Refusal::Damaged);
    };
    if head + count + spare(log) > left {
        return Err(Refusal::Damaged);
    }
    let bytes = read_head(alloc, device, log, position, first, head)?;
    match decode_descriptor(alloc, log, number, &bytes) {
        Ok(homes) => Ok(FoundCommit {
            number,
            position,
            head,
            homes,
        }),
        Err(broken) => Err(refusal_of(broken)),
    }
}

/// Computes the seal that a commit must have in a log sealed by digests, from its records on the device.
fn seal_of<D: Device, A: Allocator + Copy>(
    device: &mut D,
    log: &LogGeometry,
    key: u64,
    epoch: u64,
    commit: &FoundCommit<A>,
) -> Result<[u8; 8], Refusal>
    requires long { 4096 * log.now.blocks ≤ length (D.seen device.old) }
    requires few { length commit.now.homes.items ≤ 65535 }
    requires head { commit.now.head ≡ log_descriptor_blocks (length commit.now.homes.items) }
    ensures seal { D.is_honest device.old → IfOk result (λ seal. seal ≡ log_seal (ByDigest key) epoch
        (logged_of commit.now) (ring_bytes log.now.ring (D.seen device.old)
        (records_position commit.now.position (logged_of commit.now)) (length commit.now.homes.items))) }
    ensures read { ReadsAlone D.Device device.old device.new }
    ensures faults { HasFaultsBy (D.faults_met device.old) (D.faults_met device.new) result }
    ensures refused { IfErr result (λ refusal. refusal ≡ Refusal.Device) }
{
    let mut digest = CommitDigest::new(key, epoch, commit.number, &commit.homes);
    for i in 0..commit.homes.len() as u32 {
        let block = read_block(device, log.block_behind(commit.position, commit.head + i))?;
        digest.add(&block);
    }
    Ok(digest.seal())
}

/// Reads what is at a position of a log sealed by a byte: the next commit, or the end of the log. Fails with `Damaged`
/// if the seal there is open, but there is no next commit. Also if the seal is neither open nor closed.
fn next_by_byte<D: Device, A: Allocator + Copy>(
    alloc: A,
    device: &mut D,
    log: &LogGeometry,
    position: u32,
    number: u64,
    left: u32,
    first: &[u8; 4096],
) -> Result<Option<FoundCommit<A>>, Refusal>
    requires log { IsLog log.now }
    requires long { 4096 * log.now.blocks ≤ length (D.seen device.old) }
    requires sealing { log.now.sealing ≡ ByByte }
    requires first { D.is_honest device.old
        → first.now ≡ block_at (D.seen device.old) (ring_block log.now.ring position) }
    ensures found { (epoch : ℕ) → D.is_honest device.old
        → IfOk result (FindsNext log.now epoch position number left (D.seen device.old)) }
    ensures placed { IfOk result (λ next. IfSome next (IsPlacedCommit log.now position number left)) }
    ensures refused { (epoch : ℕ) → D.is_honest device.old
        → IfErr result (RefusesNext log.now epoch position number left (D.seen device.old)) }
    ensures read { ReadsAlone D.Device device.old device.new }
    ensures faults { HasFaultsBy (D.faults_met device.old) (D.faults_met device.new) result }
{
    match read_seal(&seal_at(first)) {
        ByteSeal::Closed => Ok(None),
        ByteSeal::Damaged => Err(Refusal::Damaged),
        ByteSeal::Open => {
            let commit = read_descriptor(alloc, device, log, position, number, left, first)?;
            Ok(Some(commit))
        }
    }
}

/// Reads what is at a position of a log sealed by digests: the next commit, or the end of the log.
fn next_by_digest<D: Device, A: Allocator + Copy>(
    alloc: A,
    device: &mut D,
    log: &LogGeometry,
    key: u64,
    epoch: u64,
    position: u32,
    number: u64,
    left: u32,
    first: &[u8; 4096],
) -> Result<Option<FoundCommit<A>>, Refusal>
    requires log { IsLog log.now }
    requires long { 4096 * log.now.blocks ≤ length (D.seen device.old) }
    requires sealing { log.now.sealing ≡ ByDigest key }
    requires first { D.is_honest device.old
        → first.now ≡ block_at (D.seen device.old) (ring_block log.now.ring position) }
    ensures found { D.is_honest device.old
        → IfOk result (FindsNext log.now epoch position number left (D.seen device.old)) }
    ensures placed { IfOk result (λ next. IfSome next (IsPlacedCommit log.now position number left)) }
    ensures refused { IfErr result (λ refusal. refusal ≢ Refusal.Damaged) }
    ensures read { ReadsAlone D.Device device.old device.new }
    ensures faults { HasFaultsBy (D.faults_met device.old) (D.faults_met device.new) result }
{
    match read_descriptor(alloc, device, log, position, number, left, first) {
        Err(Refusal::Damaged) => Ok(None),
        Err(other) => Err(other),
        Ok(commit) => {
            let seal = seal_of(device, log, key, epoch, &commit)?;
            if seal_at(first) == seal {
                Ok(Some(commit))
            } else {
                Ok(None)
            }
        }
    }
}

/// Reads what is at a position of the log: the next commit, or `None` at the end of the log. Fails with `Damaged` if it
/// is neither.
pub fn read_next<D: Device, A: Allocator + Copy>(
    alloc: A,
    device: &mut D,
    log: &LogGeometry,
    epoch: u64,
    position: u32,
    number: u64,
    left: u32,
) -> Result<Option<FoundCommit<A>>, Refusal>
    requires long { 4096 * log.now.blocks ≤ length (D.seen device.old) }
    ensures found { D.is_honest device.old
        → IfOk result (FindsNext log.now epoch position number left (D.seen device.old)) }
    ensures placed { IfOk result (λ next. IfSome next (IsPlacedCommit log.now position number left)) }
    ensures refused { D.is_honest device.old
        → IfErr result (RefusesNext log.now epoch position number left (D.seen device.old)) }
    ensures read { ReadsAlone D.Device device.old device.new }
    ensures faults { HasFaultsBy (D.faults_met device.old) (D.faults_met device.new) result }
    ensures byte { IfErr result (λ refusal. refusal ≡ Refusal.Damaged → log.now.sealing ≡ ByByte) }
    ensures len { length (D.seen device.new) ≡ length (D.seen device.old) }
{
    let first = read_block(device, log.block_behind(position, 0))?;
    match log.sealing() {
        Sealing::ByByte => next_by_byte(alloc, device, log, position, number, left, &first),
        Sealing::ByDigest(key) => next_by_digest(
            alloc, device, log, key, epoch, position, number, left, &first,
        ),
    }
}
