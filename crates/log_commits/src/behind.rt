// Writing commits home, and moving the start past them.
ghost use Rattle.std.specs.Prelude.{◌≡◌, ◌≢◌, ◌↔◌, ◌<◌, ◌≤◌, ◌+◌, ◌*◌, ◌^◌, ◌++◌, ℕ, Bool, true, false, List, [], ◌∷◌, not, is_ok, length, slice_index, IsOk, IfErr, OnOk};
ghost use Rattle.volume_codec.specs.Layout.{block_at};
ghost use Rattle.device.specs.Device.{Only};
ghost use Rattle.device.specs.Did.{Did};
ghost use Rattle.device.specs.Work.{CopyBlock, Sync, WriteAt};
ghost use Rattle.log_codec.specs.Commit.{LogDescriptor};
ghost use Rattle.log_codec.specs.Start.{IsStartBlock, start_block, start_text};
ghost use Rattle.log_commits.specs.declared.behind.MoveFault.TheVariants.{Device};
ghost use Rattle.log_commits.specs.Calls.{DidAll};
ghost use Rattle.log_commits.specs.Keeps.{KeepsTail};
ghost use Rattle.log_commits.specs.Homes.{IsLoggedHome, AreWrittenHome};
ghost use Rattle.log_commits.specs.Behind.{MayMove, RefusesMove, RefusesSure, MayWriteHome, RefusesHome, MayCopyHome, RefusesCopy, start_behind, tail_behind, selecting as selected, start_work, select_works, move_works, HasCommits, AreOldest, LeavesCommits, HasHomes, IsReadyToMove, MoveLeaves};

use crate::tail::LogTail;
use device::{Device, DeviceFault, copy_block, make_durable, write_at};
use log_codec::{LogStart, encode_start, start_block_of};

/// The oldest commits of a log: those with numbers below `below`, and their blocks.
#[derive(Clone, Copy, PartialEq, Eq, Debug)]
pub struct OldCommits {
    /// The number of the first later commit.
    pub below: u64,
    /// The number of blocks of these commits.
    pub blocks: u32,
}

/// Why commits aren't written home, or why the start isn't moved.
#[derive(Clone, Copy, PartialEq, Eq, Debug)]
pub enum MoveFault {
    /// A device call failed before. The volume must be opened again.
    Spent,
    /// The log doesn't have these commits or blocks, or these aren't complete home blocks of the volume.
    Range,
    /// A device call failed now.
    Device,
}

// Returns the byte that selects the second start, or the first one.
fn selecting(second: bool) -> u8
    ensures { result ≡ selected second }
{
    if second { 0xA7 } else { 0 }
}

// Writes a start to the place of the unselected start.
fn write_other<D: Device>(device: &mut D, second: bool, start: &LogStart) -> Result<(), DeviceFault>
    requires long { 16384 ≤ length (D.seen device.old) }
    ensures { Did D.Device device.old (WriteAt (4096 * start_block (not second)) (start_text start.now))
        (is_ok result) device.new }
{
    let at = 4096 * u64::from(start_block_of(!second));
    write_at(device, at, &encode_start(start))
}

// Selects the unselected start, and syncs.
pub(crate) fn select_other<D: Device>(device: &mut D, second: bool) -> Result<(), DeviceFault>
    requires long { 16384 ≤ length (D.seen device.old) }
    ensures { DidAll D.Device device.old (select_works second) (is_ok result) device.new }
{
    match write_at(device, 4096, &[selecting(!second)]) {
        Ok(()) => make_durable(device),
        Err(fault) => Err(fault),
    }
}

// Writes a start to the place of the unselected start, syncs, selects it, and syncs.
fn move_to<D: Device>(device: &mut D, second: bool, start: &LogStart) -> Result<(), DeviceFault>
    requires long { 16384 ≤ length (D.seen device.old) }
    ensures { DidAll D.Device device.old
        (WriteAt (4096 * start_block (not second)) (start_text start.now) ∷ Sync ∷ select_works second)
        (is_ok result) device.new }
{
    match write_other(device, second, start) {
        Ok(()) => {}
        Err(fault) => return Err(fault),
    }
    match make_durable(device) {
        Ok(()) => select_other(device, second),
        Err(fault) => Err(fault),
    }
}

impl LogTail {
    /// Returns all commits of the log so far.
    pub fn commits_so_far(&self) -> OldCommits
        ensures { result ≡ record { below = self.now.number; blocks = self.now.used } }
    {
        OldCommits {
            below: self.number,
            blocks: self.used,
        }
    }

    // Whether the start may move past these commits, or why not.
    pub(crate) fn judge_move(&self, oldest: OldCommits) -> Result<(), MoveFault>
        ensures ok { OnOk result (MayMove self.now oldest) }
        ensures small { oldest.below < 2 ^ 64 }
        ensures refused { IfErr result (RefusesMove self.now oldest) }
        ensures early { IfErr result (λ fault. fault ≢ Device) }
    {
        if self.spent {
            return Err(MoveFault::Spent);
        }
        if oldest.blocks > self.used {
            return Err(MoveFault::Range);
        }
        if oldest.below < self.start.number || oldest.below > self.number {
            return Err(MoveFault::Range);
        }
        Ok(())
    }

    // Returns the start after these commits.
    pub(crate) fn start_behind(&self, oldest: OldCommits) -> LogStart
        ensures { result ≡ start_behind self.now oldest }
    {
        LogStart {
            position: self.log.position_behind(self.start.position, oldest.blocks),
            number: oldest.below,
            epoch: self.start.epoch,
        }
    }

    // Whether bytes may be written into home blocks from this one on, or why not.
    fn judge_home(&self, home: u32, size: usize) -> Result<(), MoveFault>
        ensures ok { OnOk result (MayWriteHome self.now home size) }
        ensures refused { IfErr result (RefusesHome self.now home size) }
        ensures early { IfErr result (λ fault. fault ≢ Device) }
    {
        if self.spent {
            return Err(MoveFault::Spent);
        }
        if size % 4096 != 0 || home < self.log.first_home() || home > self.log.block_count() {
            return Err(MoveFault::Range);
        }
        if size as u64 > 4096 * u64::from(self.log.block_count() - home) {
            return Err(MoveFault::Range);
        }
        Ok(())
    }

    /// Writes bytes into home blocks, from this one on. It makes one device call, and nothing becomes durable by it. If
    /// commits of the log have these blocks, a crash changes no contents.
    pub fn write_home<D: Device>(
        &mut self,
        device: &mut D,
        home: u32,
        bytes: &[u8],
    ) -> Result<(), MoveFault>
        requires long { 4096 * self.old.log.blocks ≤ length (D.seen device.old) }
        ensures may { OnOk result (MayWriteHome self.old home (length bytes.now)) }
        ensures refused { IfErr result (RefusesHome self.old home (length bytes.now)) }
        ensures keeps { KeepsTail D.Device Device result self.old self.new device.old device.new }
        ensures value { OnOk result (self.new ≡ self.old) }
        ensures did { MayWriteHome self.old home (length bytes.now)
            → Did D.Device device.old (WriteAt (4096 * home) bytes.now) (is_ok result) device.new }
        ensures written { D.is_honest device.old
            → OnOk result (HasHomes home bytes.now (D.seen device.old) (D.seen device.new)) }

        // Premise: all bytes that a crash could have left before this call contain the log with these commits. The
        // commits have these home blocks.
        ensures leaves { (second : Bool) (contents : ℕ → List ℕ) (chain : List LogDescriptor)
            → D.is_honest device.old
            → ((b : ℕ) → home ≤ b → 4096 * b < 4096 * home + length bytes.now → IsLoggedHome chain b)
            → HasCommits D.Device second self.old contents chain device.old
            → LeavesCommits D.Device second self.old contents chain device.old device.new }
    {
        self.judge_home(home, bytes.len())?;
        match write_at(device, 4096 * u64::from(home), bytes) {
            Ok(()) => Ok(()),
            Err(_) => {
                self.spent = true;
                Err(MoveFault::Device)
            }
        }
    }

    // Whether this block of the log may be copied to this home block, or why not.
    fn judge_copy(&self, block: u32, home: u32) -> Result<(), MoveFault>
        ensures ok { OnOk result (MayCopyHome self.now block home) }
        ensures refused { IfErr result (RefusesCopy self.now block home) }
        ensures early { IfErr result (λ fault. fault ≢ Device) }
    {
        if self.spent {
            return Err(MoveFault::Spent);
        }
        if block < 4 || block >= self.log.first_home() {
            return Err(MoveFault::Range);
        }
        if home < self.log.first_home() || home >= self.log.block_count() {
            return Err(MoveFault::Range);
        }
        Ok(())
    }

    /// Copies a block of the log to a home block. It makes a read and a write, and nothing becomes durable by it. If a
    /// commit of the log has the home block, a crash changes no contents.
    pub fn copy_home<D: Device>(
        &mut self,
        device: &mut D,
        block: u32,
        home: u32,
    ) -> Result<(), MoveFault>
        requires long { 4096 * self.old.log.blocks ≤ length (D.seen device.old) }
        ensures may { OnOk result (MayCopyHome self.old block home) }
        ensures refused { IfErr result (RefusesCopy self.old block home) }
        ensures keeps { KeepsTail D.Device Device result self.old self.new device.old device.new }
        ensures value { OnOk result (self.new ≡ self.old) }
        ensures did { MayCopyHome self.old block home
            → Did D.Device device.old (CopyBlock block home) (is_ok result) device.new }
        ensures copied { D.is_honest device.old
            → OnOk result (HasHomes home (block_at (D.seen device.old) block) (D.seen device.old) (D.seen device.new)) }

        // Premise: all bytes that a crash could have left before this call contain the log with these commits. One of
        // the commits has this home block.
        ensures leaves { (second : Bool) (contents : ℕ → List ℕ) (chain : List LogDescriptor)
            → D.is_honest device.old → IsLoggedHome chain home
            → HasCommits D.Device second self.old contents chain device.old
            → LeavesCommits D.Device second self.old contents chain device.old device.new }
    {
        self.judge_copy(block, home)?;
        let mut buffer = [0; 4096];
        match copy_block(device, block, home, &mut buffer) {
            Ok(()) => Ok(()),
            Err(_) => {
                self.spent = true;
                Err(MoveFault::Device)
            }
        }
    }

    /// Writes the start after these commits to the place of the unselected start. `second` is whether the second start
    /// is selected. It makes one device call, and nothing becomes durable by it. Once the written start is durable, by
    /// a commit or by a sync, and these commits are written home, it may be selected.
    pub fn write_start<D: Device>(
        &mut self,
        device: &mut D,
        second: bool,
        oldest: OldCommits,
    ) -> Result<(), MoveFault>
        requires long { 4096 * self.old.log.blocks ≤ length (D.seen device.old) }
        ensures may { OnOk result (MayMove self.old oldest) }
        ensures refused { IfErr result (RefusesMove self.old oldest) }
        ensures keeps { KeepsTail D.Device Device result self.old self.new device.old device.new }
        ensures value { OnOk result (self.new ≡ self.old) }
        ensures did { MayMove self.old oldest
            → Did D.Device device.old (start_work self.old second oldest) (is_ok result) device.new }

        // Premise: all bytes that a crash could have left before this call contain the log, by the selected start.
        ensures leaves { (contents : ℕ → List ℕ) (chain : List LogDescriptor) → D.is_honest device.old
            → HasCommits D.Device second self.old contents chain device.old
            → LeavesCommits D.Device second self.old contents chain device.old device.new }

        // If these commits are written home, the start is ready to be selected once it is durable.
        ensures ready { (contents : ℕ → List ℕ) (ds younger : List LogDescriptor) → D.is_honest device.old
            → HasCommits D.Device second self.old contents (ds ++ younger) device.old
            → AreOldest self.old oldest ds
            → AreWrittenHome self.old.log contents ds younger (D.seen device.old)
            → OnOk result (IsReadyToMove second self.old oldest contents ds younger (D.seen device.new)) }
    {
        self.judge_move(oldest)?;
        let start = self.start_behind(oldest);
        match write_other(device, second, &start) {
            Ok(()) => Ok(()),
            Err(_) => {
                self.spent = true;
                Err(MoveFault::Device)
            }
        }
    }

    /// Makes all that was written durable. It makes one device call.
    pub fn make_sure<D: Device>(&mut self, device: &mut D) -> Result<(), MoveFault>
        ensures may { OnOk result (self.old.spent ≡ false) }
        ensures refused { IfErr result (RefusesSure self.old) }
        ensures keeps { KeepsTail D.Device Device result self.old self.new device.old device.new }
        ensures value { OnOk result (self.new ≡ self.old) }
        ensures did { self.old.spent ≡ false → Did D.Device device.old Sync (is_ok result) device.new }
        ensures sure { D.is_honest device.old
            → OnOk result (Only (D.may_leave device.new) (D.seen device.new)
            × (D.seen device.new ≡ D.seen device.old)) }

        // Premise: all bytes that a crash could have left before this call contain the log.
        ensures leaves { (second : Bool) (contents : ℕ → List ℕ) (chain : List LogDescriptor)
            → HasCommits D.Device second self.old contents chain device.old
            → LeavesCommits D.Device second self.old contents chain device.old device.new }
    {
        if self.spent {
            return Err(MoveFault::Spent);
        }
        if make_durable(device).is_err() {
            self.spent = true;
            return Err(MoveFault::Device);
        }
        Ok(())
    }

    /// Selects the start after these commits, which was written and is durable, and makes the selection durable. It
    /// makes two device calls. The room of these commits is free then.
    pub fn select_start<D: Device>(
        &mut self,
        device: &mut D,
        second: bool,
        oldest: OldCommits,
    ) -> Result<(), MoveFault>
        requires long { 4096 * self.old.log.blocks ≤ length (D.seen device.old) }
        ensures may { OnOk result (MayMove self.old oldest) }
        ensures refused { IfErr result (RefusesMove self.old oldest) }
        ensures keeps { KeepsTail D.Device Device result self.old self.new device.old device.new }
        ensures value { OnOk result (self.new ≡ tail_behind self.old oldest) }
        ensures did { MayMove self.old oldest
            → DidAll D.Device device.old (select_works second) (is_ok result) device.new }

        // Premise: all is durable, the start is written, and these commits are written home.
        ensures leaves { (contents : ℕ → List ℕ) (ds younger : List LogDescriptor) → D.is_honest device.old
            → Only (D.may_leave device.old) (D.seen device.old)
            → IsReadyToMove second self.old oldest contents ds younger (D.seen device.old)
            → MoveLeaves D.Device second self.old oldest contents younger (is_ok result) device.old device.new }
    {
        self.judge_move(oldest)?;
        match select_other(device, second) {
            Ok(()) => {}
            Err(_) => {
                self.spent = true;
                return Err(MoveFault::Device);
            }
        }
        self.start = self.start_behind(oldest);
        self.used -= oldest.blocks;
        Ok(())
    }

    /// Moves the start past these commits, which are written home. It writes the start, syncs, selects the start, and
    /// syncs. The first sync also makes all earlier writes durable. It makes four device calls.
    pub fn move_start<D: Device>(
        &mut self,
        device: &mut D,
        second: bool,
        oldest: OldCommits,
    ) -> Result<(), MoveFault>
        requires long { 4096 * self.old.log.blocks ≤ length (D.seen device.old) }
        ensures may { OnOk result (MayMove self.old oldest) }
        ensures refused { IfErr result (RefusesMove self.old oldest) }
        ensures keeps { KeepsTail D.Device Device result self.old self.new device.old device.new }
        ensures value { OnOk result (self.new ≡ tail_behind self.old oldest) }
        ensures did { MayMove self.old oldest
            → DidAll D.Device device.old (move_works self.old second oldest) (is_ok result) device.new }

        // Premise: all bytes that a crash could have left before this call contain the log, by the selected start. A
        // read finds these commits written home.
        ensures leaves { (contents : ℕ → List ℕ) (ds younger : List LogDescriptor) → D.is_honest device.old
            → HasCommits D.Device second self.old contents (ds ++ younger) device.old
            → AreOldest self.old oldest ds
            → AreWrittenHome self.old.log contents ds younger (D.seen device.old)
            → MoveLeaves D.Device second self.old oldest contents younger (is_ok result) device.old device.new }
    {
        self.judge_move(oldest)?;
        let start = self.start_behind(oldest);
        match move_to(device, second, &start) {
            Ok(()) => {}
            Err(_) => {
                self.spent = true;
                return Err(MoveFault::Device);
            }
        }
        self.start = start;
        self.used -= oldest.blocks;
        Ok(())
    }
}
