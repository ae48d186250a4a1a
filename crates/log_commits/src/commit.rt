// Commits.
ghost use Rattle.std.specs.Prelude.{◌≡◌, ◌≢◌, ◌↔◌, ◌⊎◌, ◌<◌, ◌≤◌, ◌+◌, ◌*◌, ◌^◌, ◌++◌, [], ◌∷◌, ℕ, Bool, List, true};
ghost use Rattle.std.specs.Prelude.{is_ok, length, take, IfOk, IfErr, OnOk, OnErr};
ghost use Rattle.log_codec.specs.Chain.{spare_blocks};
ghost use Rattle.device.specs.Work.{Sync, WriteAt};
ghost use Rattle.log_codec.specs.Log.{log_descriptor_blocks};
ghost use Rattle.log_commits.specs.declared.fault.CommitFault.TheVariants.{Device};
ghost use Rattle.log_commits.specs.Calls.{DidAll};
ghost use Rattle.log_commits.specs.Keeps.{KeepsTail};
ghost use Rattle.log_codec.specs.Commit.{LogDescriptor};
ghost use Rattle.log_commits.specs.Tail.{HoldsLog};
ghost use Rattle.log_commits.specs.Behind.{HasCommits, HoldsCommits, IsSameOutside};
ghost use Rattle.log_commits.specs.Selecting.{last_works};
ghost use Rattle.log_commits.specs.Commit.{MayCommit, RefusesTailCommit, CommitLeaves, committed_to};
ghost use Rattle.log_commits.specs.Commit.{next_logged, commit_bytes, commit_works, works_with, records_in};
ghost use Rattle.log_commits.specs.Commit.{tail_after};

use crate::behind::select_other;
use crate::fault::CommitFault;
use crate::image::fill;
use crate::ring::write_ring;
use crate::tail::LogTail;
use device::{Device, DeviceFault, make_durable, write_at};
use log_codec::{LogGeometry, Sealing, rise_within};

/// The byte that opens a seal.
const OPEN: u8 = 0xA7;

// Returns the number of blocks that no commit takes.
fn spare_of(sealing: Sealing) -> u32
    ensures value { result ≡ spare_blocks sealing }
    ensures small { result ≤ 1 }
{
    match sealing {
        Sealing::ByByte => 1,
        Sealing::ByDigest(_) => 0,
    }
}

// Syncs. If a start is to be selected, first selects the unselected start.
fn finish<D: Device>(device: &mut D, select: Option<bool>) -> Result<(), DeviceFault>
    requires long { 16384 ≤ length (D.seen device.old) }
    ensures { DidAll D.Device device.old (last_works select) (is_ok result) device.new }
{
    match select {
        None => make_durable(device),
        Some(second) => select_other(device, second),
    }
}

// Syncs, opens the seal at an offset, and finishes.
fn open_at<D: Device>(device: &mut D, at: u64, select: Option<bool>) -> Result<(), DeviceFault>
    requires long { 16384 ≤ length (D.seen device.old) }
    requires there { at + 1 ≤ length (D.seen device.old) }
    ensures { DidAll D.Device device.old (Sync ∷ WriteAt at (0xA7 ∷ []) ∷ last_works select) (is_ok result) device.new }
{
    match make_durable(device) {
        Ok(()) => {}
        Err(fault) => return Err(fault),
    }
    match write_at(device, at, &[OPEN]) {
        Ok(()) => {}
        Err(fault) => return Err(fault),
    }
    finish(device, select)
}

// Writes a commit, and one byte that closes the next seal, at a position of the log, and finishes.
fn write_commit<D: Device>(
    device: &mut D,
    log: &LogGeometry,
    position: u32,
    bytes: &[u8],
    select: Option<bool>,
) -> Result<(), DeviceFault>
    requires long { 4096 * log.now.blocks ≤ length (D.seen device.old) }
    requires some { 1 < length bytes.now }
    requires fits { length bytes.now ≤ 4096 * log.now.ring }
    ensures { (commit : List ℕ) → bytes.now ≡ commit ++ 0 ∷ []
        → DidAll D.Device device.old (works_with log.now.sealing log.now.ring position commit (last_works select))
        (is_ok result) device.new }
{
    let at = 4096 * u64::from(log.block_behind(position, 0));
    match log.sealing() {
        Sealing::ByByte => match write_ring(device, log, position, 1, bytes) {
            Ok(()) => open_at(device, at, select),
            Err(fault) => Err(fault),
        },
        Sealing::ByDigest(_) => {
            match write_ring(device, log, position, 0, &bytes[..bytes.len() - 1]) {
                Ok(()) => finish(device, select),
                Err(fault) => Err(fault),
            }
        }
    }
}

impl LogTail {
    // Returns the number of blocks of the next commit's descriptor, with records for these home blocks, for a `room` of
    // this size. Fails if the commit may not be made.
    pub(crate) fn judge(&self, homes: &[u32], room: usize) -> Result<u32, CommitFault>
        ensures ok { IfOk result (λ blocks. (blocks ≡ log_descriptor_blocks (length homes.now))
            × MayCommit self.now homes.now room) }
        ensures refused { IfErr result (RefusesTailCommit self.now homes.now room) }
        ensures early { IfErr result (λ fault. fault ≢ Device) }
    {
        if self.spent {
            return Err(CommitFault::Spent);
        }
        if homes.len() > 65535 {
            return Err(CommitFault::Count);
        }
        let count = homes.len() as u32;
        let Some(blocks) = self.log.descriptor_blocks(count) else {
            return Err(CommitFault::Count);
        };
        if !rise_within(homes, self.log.first_home(), self.log.block_count()) {
            return Err(CommitFault::Homes);
        }
        let size = blocks + count;
        if room != 4096 * size as usize + 1 {
            return Err(CommitFault::Room);
        }
        if self.number == u64::MAX {
            return Err(CommitFault::Number);
        }
        if self.used + size + spare_of(self.log.sealing()) > self.log.ring() {
            return Err(CommitFault::Busy);
        }
        Ok(blocks)
    }

    // Writes the next commit, whose records are in `room`, and finishes.
    pub(crate) fn write_next<D: Device>(
        &mut self,
        device: &mut D,
        homes: &[u32],
        room: &mut [u8],
        blocks: u32,
        select: Option<bool>,
    ) -> Result<(), CommitFault>
        requires long { 4096 * self.old.log.blocks ≤ length (D.seen device.old) }
        requires may { MayCommit self.old homes.now (length room.old) }
        requires blocks { blocks ≡ log_descriptor_blocks (length homes.now) }
        ensures failed { IfErr result (λ fault. fault ≡ Device) }
        ensures value { OnOk result (self.new ≡ tail_after self.old homes.now) }
        ensures spent { OnErr result (self.new ≡ record self.old { spent = true }) }
        ensures did { DidAll D.Device device.old (works_with self.old.log.sealing self.old.log.ring self.old.position
            (commit_bytes self.old homes.now (records_in homes.now room.old)) (last_works select))
            (is_ok result) device.new }
        ensures bytes { room.new ≡ commit_bytes self.old homes.now (records_in homes.now room.old) ++ 0 ∷ [] }
        ensures len { length (D.seen device.new) ≡ length (D.seen device.old) }
        ensures honest { D.is_honest device.new ↔ D.is_honest device.old }
    {
        let epoch = self.start.epoch;
        fill(&self.log, epoch, self.number, homes, blocks, room);
        match write_commit(device, &self.log, self.position, room, select) {
            Ok(()) => {}
            Err(_) => {
                self.spent = true;
                return Err(CommitFault::Device);
            }
        }
        let size = blocks + homes.len() as u32;
        self.position = self.log.position_behind(self.position, size);
        self.number += 1;
        self.used += size;
        Ok(())
    }

    /// Commits records for home blocks, which rise strictly. `room` is as long as the commit and one byte. It contains
    /// the records after the blocks of the descriptor, which this fills in. The call allocates no memory.
    ///
    /// With a byte seal, this writes all but the seal's byte, syncs, writes that byte, and syncs. With a digest seal,
    /// it writes and syncs. If the ring wraps within the commit, the write is split in two.
    pub fn commit<D: Device>(
        &mut self,
        device: &mut D,
        homes: &[u32],
        room: &mut [u8],
    ) -> Result<(), CommitFault>
        requires long { 4096 * self.old.log.blocks ≤ length (D.seen device.old) }
        ensures may { OnOk result (MayCommit self.old homes.now (length room.old)) }
        ensures refused { IfErr result (RefusesTailCommit self.old homes.now (length room.old)) }
        ensures keeps { KeepsTail D.Device Device result self.old self.new device.old device.new }
        ensures room { IfErr result (λ fault. fault ≢ Device → room.new ≡ room.old) }
        ensures value { OnOk result (self.new ≡ tail_after self.old homes.now) }
        ensures did { MayCommit self.old homes.now (length room.old)
            → DidAll D.Device device.old (commit_works self.old homes.now (records_in homes.now room.old))
            (is_ok result) device.new }
        ensures bytes { MayCommit self.old homes.now (length room.old)
            → room.new ≡ commit_bytes self.old homes.now (records_in homes.now room.old) ++ 0 ∷ [] }

        // Home blocks, the starts and the byte that selects one are unchanged.
        ensures outside { D.is_honest device.old
            → IsSameOutside self.old.log (D.seen device.old) (D.seen device.new) }

        // Premise: all bytes that a crash could have left before this call contain the log, with these contents and
        // commits.
        ensures commits { (second : Bool) (contents : ℕ → List ℕ) (chain : List LogDescriptor)
            → D.is_honest device.old
            → HasCommits D.Device second self.old contents chain device.old
            → OnOk result (HoldsCommits second (tail_after self.old homes.now)
            (committed_to contents homes.now (records_in homes.now room.old))
            (chain ++ next_logged self.old homes.now ∷ []) (D.seen device.new)) }

        // Premise: all bytes that a crash could have left before this call contain the log, with these contents.
        ensures leaves { (contents : ℕ → List ℕ) → D.is_honest device.old
            → ((c : List ℕ) → D.may_leave device.old c → HoldsLog self.old contents c)
            → CommitLeaves D.Device self.old contents homes.now (records_in homes.now room.old) (is_ok result)
            device.old device.new }
    {
        let _log = &self.log;
        let blocks = self.judge(homes, room.len())?;
        self.write_next(device, homes, room, blocks, None)?;
        Ok(())
    }
}
