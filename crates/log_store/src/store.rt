// The log of a volume in a session.
ghost use Rattle.std.specs.Prelude.{◌≡◌, ◌≢◌, ◌↔◌, ◌<◌, ◌≤◌, ◌+◌, ◌-◌, ◌*◌, ◌^◌, ◌++◌, ℕ, Bool, true, List, [], ◌∷◌, None, Some, is_ok, length, IsTrue};
ghost use Rattle.std.specs.Prelude.{IfOk, IfErr, OnOk, OnErr, IfSome, IfNone};
ghost use Rattle.log_codec.specs.Log.{log_descriptor_blocks, IsCommitSize};
ghost use Rattle.log_codec.specs.Chain.{IsLogHome};
ghost use Rattle.log_recovery.specs.Reading.{ReadsAlone};
ghost use Rattle.log_commits.specs.Calls.{DidAll};
ghost use Rattle.log_codec.specs.Commit.{LogDescriptor};
ghost use Rattle.log_commits.specs.Commit.{CommitLeaves, MayCommit, RefusesTailCommit, committed_to};
ghost use Rattle.log_commits.specs.Commit.{next_logged, records_in, tail_after};
ghost use Rattle.log_home.specs.Index.{find_in};
ghost use Rattle.log_home.specs.Work.{next_copy};
ghost use Rattle.log_store.specs.Store.{IsStoreOver, RefusesStoreCommit, RefusesRead, HasNoted, KeepsStore};
ghost use Rattle.log_store.specs.Store.{store_block, store_read_calls, fresh_store, StepsBy, RefusesStepBy};
ghost use Rattle.log_store.specs.Step.{MakesStoreStep, StaysOver};
ghost use Rattle.log_store.specs.Store.{IsSelectable, committing_tail, second_by, selection, stage_by};
ghost use Rattle.log_store.specs.Store.{store_commit_works, tail_by, unless_old, works_selecting};
ghost use Rattle.log_store.specs.Sound.{IsOfLog, IsStore};
ghost use Rattle.log_store.specs.declared.stage.HomeStage.TheVariants.{Resting, Copying, Written, Sure};
ghost use Rattle.log_commits.specs.Behind.{HasCommits, HoldsCommits, IsSameOutside};
ghost use Rattle.log_commits.specs.Keeps.{KeepsTail};
ghost use Rattle.log_store.specs.Needs.{commit_edges, copied_from, step_block};

use crate::fault::{Progress, StoreFault};
use crate::stage::HomeStage;
use device::Device;
use log_codec::{LogGeometry, Sealing};
use log_commits::{CommitFault, LogTail, MoveFault, OldCommits};
use log_home::{HomeWork, LogIndex};
use std::alloc::Allocator;
use std::marker::Model;

/// The log of a volume in a session: where it ends, which start counts, the newest record of each home block, and how
/// far the oldest commits are written home.
#[derive(Drop)]
pub struct LogStore<A: Allocator + Copy> {
    pub(crate) alloc: A,
    pub(crate) tail: LogTail,
    second: bool,
    index: LogIndex<A>,
    stage: HomeStage,
    // The commits that are written home. In the stage `Resting` this work is done.
    work: HomeWork<A>,
}

impl<A: Allocator + Copy> Model for LogStore<A> {
    ghost use Rattle.log_store.specs.Store.{StoreValue};
    ghost use Rattle.log_store.specs.Sound.{IsStore};

    ghost Value = { StoreValue };

    ghost view = { λ s. record {
      tail = s.tail;
      second = s.second;
      entries = s.index;
      stage = s.stage;
      work = s.work;
    } };

    ghost invariant = { λ s. IsStore (record {
      tail = s.tail;
      second = s.second;
      entries = s.index;
      stage = s.stage;
      work = s.work;
    }) };
}

// Returns the number of blocks of the descriptor of a commit with this many records, if such a commit is possible.
fn head_of(log: &LogGeometry, records: usize) -> Option<u32>
    ensures some { IfSome result (λ n. (n ≡ log_descriptor_blocks records) × IsCommitSize log.now.ring records) }
    ensures none { IfNone result (IsCommitSize log.now.ring records → ⊥) }
{
    if records > 65535 {
        return None;
    }
    log.descriptor_blocks(records as u32)
}

// Makes a commit. If `select` has old commits, the commit also selects the start behind them. `second` is true if the
// second start counts.
fn make<D: Device>(
    tail: &mut LogTail,
    device: &mut D,
    homes: &[u32],
    room: &mut [u8],
    second: bool,
    select: Option<OldCommits>,
) -> Result<(), CommitFault>
    requires long { 4096 * tail.old.log.blocks ≤ length (D.seen device.old) }
    requires of_log { IfSome select (IsOfLog tail.old) }
    ensures may { OnOk result (MayCommit tail.old homes.now (length room.old)) }
    ensures refused { IfErr result (RefusesTailCommit tail.old homes.now (length room.old)) }
    ensures keeps { KeepsTail D.Device CommitFault.Device result tail.old tail.new device.old device.new }
    ensures value { OnOk result (tail.new ≡ tail_after (tail_by tail.old select) homes.now) }
    ensures did { MayCommit tail.old homes.now (length room.old)
        → DidAll D.Device device.old (works_selecting tail.old second select homes.now (records_in homes.now room.old))
        (is_ok result) device.new }

    // These require that each crash state before the call holds the log, and that a selected start is ready.
    ensures leaves { (contents : ℕ → List ℕ) (ds younger : List LogDescriptor) → D.is_honest device.old
        → HasCommits D.Device second tail.old contents (ds ++ younger) device.old
        → IsSelectable D.Device second tail.old contents ds younger select device.old
        → CommitLeaves D.Device (tail_by tail.old select) contents homes.now (records_in homes.now room.old)
        (is_ok result) device.old device.new }
    ensures commits { (contents : ℕ → List ℕ) (ds younger : List LogDescriptor) → D.is_honest device.old
        → HasCommits D.Device second tail.old contents (ds ++ younger) device.old
        → IsSelectable D.Device second tail.old contents ds younger select device.old
        → OnOk result (HoldsCommits (second_by second select) (tail_after (tail_by tail.old select) homes.now)
        (committed_to contents homes.now (records_in homes.now room.old))
        (younger ++ next_logged tail.old homes.now ∷ []) (D.seen device.new)) }
    ensures outside { select ≡ None → D.is_honest device.old
        → IsSameOutside tail.old.log (D.seen device.old) (D.seen device.new) }
{
    match select {
        None => tail.commit(device, homes, room),
        Some(oldest) => tail.commit_selecting(device, homes, room, second, oldest),
    }
}

// Whether the second start counts after such a commit.
fn second_by(second: bool, select: Option<OldCommits>) -> bool
    ensures { result ≡ second_by second select }
{
    match select {
        None => second,
        Some(_) => !second,
    }
}

// How far old commits are written home after such a commit.
fn stage_by(stage: HomeStage, select: Option<OldCommits>) -> HomeStage
    ensures { result ≡ stage_by stage select }
{
    match (select, stage) {
        (Some(_), _) => HomeStage::Resting,
        (None, HomeStage::Resting) => HomeStage::Resting,
        (None, HomeStage::Copying) => HomeStage::Copying,
        (None, HomeStage::Written) => HomeStage::Sure,
        (None, HomeStage::Sure) => HomeStage::Sure,
    }
}

// Forgets the records of the old commits whose blocks a commit freed.
fn forget_freed<A: Allocator + Copy>(index: &mut LogIndex<A>, select: Option<OldCommits>)
    ensures { (b : ℕ) → find_in index.new b ≡ unless_old select (find_in index.old b) }
{
    match select {
        None => {}
        Some(oldest) => index.forget(oldest.below),
    }
}

// Returns the block of the record that the work copies next, if any.
fn copied_from<A: Allocator + Copy>(work: &HomeWork<A>, index: &LogIndex<A>) -> Option<u32>
    ensures { result ≡ copied_from (next_copy work.now index.now) }
{
    match work.next_copy(index) {
        Some((_, newest)) => Some(newest.block),
        None => None,
    }
}

impl<A: Allocator + Copy> LogStore<A> {
    /// Makes the store of a log without commits. `second` is true if the second start counts.
    pub fn new(alloc: A, tail: LogTail, second: bool) -> Self
        requires { tail.start.number ≤ tail.number }
        ensures { result ≡ fresh_store tail second }
    {
        LogStore {
            alloc,
            tail,
            second,
            index: LogIndex::new(alloc),
            stage: HomeStage::Resting,
            work: HomeWork::none(alloc),
        }
    }

    /// Returns the geometry of the volume.
    pub fn log(&self) -> LogGeometry
        ensures value { result ≡ self.now.tail.log }
        ensures store { IsStore self.now }
    {
        self.tail.log()
    }

    /// Returns the number of commits in the log: those that aren't all written home.
    pub fn commits(&self) -> u64
        ensures { result ≡ self.now.tail.number - self.now.tail.start.number }
    {
        self.tail.commits()
    }

    /// Returns the block that the next step reads or writes in part, if any. When a step copies a record, this is the
    /// record's block. When a step selects the start, this is block 1.
    pub fn step_block(&self) -> Option<u32>
        ensures { result ≡ step_block self.now }
    {
        match self.stage {
            HomeStage::Resting => None,
            HomeStage::Copying => copied_from(&self.work, &self.index),
            HomeStage::Written => None,
            HomeStage::Sure => Some(1),
        }
    }

    /// Returns the two blocks of the log that the next commit of this many records writes in part: its first block, and
    /// the block behind it. Returns `None` if a digest seals commits, or if a commit can't have this many records. A
    /// commit that selects a start also writes a byte of block 1.
    pub fn commit_edges(&self, records: u32) -> Option<(u32, u32)>
        ensures some { IsCommitSize self.now.tail.log.ring records → result ≡ commit_edges self.now.tail records }
        ensures none { (IsCommitSize self.now.tail.log.ring records → ⊥) → result ≡ None }
    {
        let log = self.tail.log();
        let Some(head) = head_of(&log, records as usize) else {
            return None;
        };
        let position = self.tail.position();
        match log.sealing() {
            Sealing::ByByte => Some((
                log.block_behind(position, 0),
                log.block_behind(position, head + records),
            )),
            Sealing::ByDigest(_) => None,
        }
    }

    /// Returns the number of the next commit.
    pub fn number(&self) -> u64
        ensures { result ≡ self.now.tail.number }
    {
        self.tail.number()
    }

    /// Returns the number of blocks of the ring that commits use, counted from the start.
    pub fn used(&self) -> u32
        ensures { result ≡ self.now.tail.used }
    {
        self.tail.commits_so_far().blocks
    }

    /// Whether a device call failed. Then no further commit is made.
    pub fn is_spent(&self) -> bool
        ensures { result ≡ self.now.tail.spent }
    {
        self.tail.is_spent()
    }

    /// Returns how far the oldest commits are written home.
    pub fn stage(&self) -> HomeStage
        ensures { result ≡ self.now.stage }
    {
        self.stage
    }

    /// Whether each commit is written home, and none is being written home.
    pub fn is_idle(&self) -> bool
        ensures { IsTrue result ↔ ((self.now.tail.used ≡ 0) × (self.now.stage ≡ Resting)) }
    {
        self.used() == 0 && self.stage == HomeStage::Resting
    }

    // Returns the old commits if the next commit selects the start behind them.
    fn selection(&self) -> Option<OldCommits>
        ensures { result ≡ selection self.now }
    {
        match self.stage {
            HomeStage::Resting => None,
            HomeStage::Copying => None,
            HomeStage::Written => match self.tail.log().sealing() {
                Sealing::ByByte => Some(self.work.oldest()),
                Sealing::ByDigest(_) => None,
            },
            HomeStage::Sure => Some(self.work.oldest()),
        }
    }

    /// Commits records for home blocks, as `LogTail::commit` does. The next steps write them home. Fails with
    /// `OutOfMemory` if there is no memory to note where the records are; then no device call was made.
    ///
    /// If the start behind old commits is written, a sync of this commit makes it durable. If a byte seals, the same
    /// commit selects this start. If a digest seals, the next commit does. Then the room of the old commits is free.
    pub fn commit<D: Device>(
        &mut self,
        device: &mut D,
        homes: &[u32],
        room: &mut [u8],
    ) -> Result<(), StoreFault>
        requires long { 4096 * self.old.tail.log.blocks ≤ length (D.seen device.old) }
        ensures may { OnOk result (MayCommit self.old.tail homes.now (length room.old)) }
        ensures refused { IfErr result (RefusesStoreCommit self.old homes.now (length room.old)) }
        ensures unchanged { IfErr result (λ fault. fault ≢ StoreFault.Commit CommitFault.Device
            → KeepsStore self.old self.new × (device.new ≡ device.old)) }
        ensures spent { IfErr result (λ fault. fault ≡ StoreFault.Commit CommitFault.Device
            → self.new.tail ≡ record self.old.tail { spent = true }) }
        ensures noted { OnOk result (HasNoted self.old self.new homes.now) }
        ensures did { IfErr result (λ fault. fault ≢ StoreFault.OutOfMemory)
            → MayCommit self.old.tail homes.now (length room.old)
            → DidAll D.Device device.old (store_commit_works self.old homes.now (records_in homes.now room.old))
            (is_ok result) device.new }
        ensures len { length (D.seen device.new) ≡ length (D.seen device.old) }
        ensures honest { D.is_honest device.new ↔ D.is_honest device.old }

        // If the store is over the device, each crash state holds its log, with these contents.
        ensures leaves { (contents : ℕ → List ℕ) → D.is_honest device.old
            → IsStoreOver D.Device self.old contents device.old
            → CommitLeaves D.Device (committing_tail self.old) contents homes.now (records_in homes.now room.old)
            (is_ok result) device.old device.new }
        ensures kept { (contents : ℕ → List ℕ) → D.is_honest device.old
            → IsStoreOver D.Device self.old contents device.old
            → IfErr result (λ fault. fault ≢ StoreFault.Commit CommitFault.Device
            → IsStoreOver D.Device self.new contents device.new) }
        ensures store { (contents : ℕ → List ℕ) → D.is_honest device.old
            → IsStoreOver D.Device self.old contents device.old
            → OnOk result (IsStoreOver D.Device self.new
            (committed_to contents homes.now (records_in homes.now room.old)) device.new) }
    {
        let log = self.tail.log();
        let Some(head) = head_of(&log, homes.len()) else {
            return Err(StoreFault::Commit(CommitFault::Count));
        };
        if self.index.admit(homes).is_err() {
            return Err(StoreFault::OutOfMemory);
        }
        let records = log.position_behind(self.tail.position(), head);
        let number = self.tail.number();
        let select = self.selection();
        match make(&mut self.tail, device, homes, room, self.second, select) {
            Ok(()) => {
                self.index.note(&log, records, number, homes);
                forget_freed(&mut self.index, select);
                self.second = second_by(self.second, select);
                self.stage = stage_by(self.stage, select);
                Ok(())
            }
            Err(fault) => Err(StoreFault::Commit(fault)),
        }
    }

    // Returns the block with the current bytes of a home block.
    fn store_block(&self, home: u32) -> u32
        ensures { result ≡ store_block self.now home }
    {
        match self.index.find(home) {
            Some(newest) => newest.block,
            None => home,
        }
    }

    /// Reads a home block as the commits so far left it: its newest record, or else the block itself. Makes one device
    /// call. Fails with `Range` if the block lies outside the volume, and with `Device` if the device call failed.
    pub fn read<D: Device>(
        &self,
        device: &mut D,
        home: u32,
        buffer: &mut [u8; 4096],
    ) -> Result<(), StoreFault>
        requires long { 4096 * self.now.tail.log.blocks ≤ length (D.seen device.old) }
        ensures refused { IfErr result (RefusesRead self.now home) }
        ensures unread { IfErr result (λ fault. fault ≡ StoreFault.Range → device.new ≡ device.old) }
        ensures failed { IfErr result (λ fault. fault ≡ StoreFault.Device → D.faults_met device.old < 2 ^ 64 - 1
            → D.faults_met device.new ≡ D.faults_met device.old + 1) }
        ensures done { OnOk result (D.faults_met device.new ≡ D.faults_met device.old) }
        ensures bytes { (contents : ℕ → List ℕ) → D.is_honest device.old
            → IsStoreOver D.Device self.now contents device.old → IsLogHome self.now.tail.log home
            → OnOk result (buffer.new ≡ contents home) }
        ensures store { (contents : ℕ → List ℕ) → D.is_honest device.old
            → IsStoreOver D.Device self.now contents device.old
            → IsStoreOver D.Device self.now contents device.new }
        ensures alone { ReadsAlone D.Device device.old device.new }
        ensures calls { D.calls_made device.old < 2 ^ 64 - 1
            → D.calls_made device.new ≡ D.calls_made device.old + store_read_calls self.now home }
        ensures len { length (D.seen device.new) ≡ length (D.seen device.old) }
        ensures honest { D.is_honest device.new ↔ D.is_honest device.old }
    {
        let block = self.store_block(home);
        if block >= self.tail.log().block_count() {
            return Err(StoreFault::Range);
        }
        match device.read(4096 * u64::from(block), buffer) {
            Ok(()) => Ok(()),
            Err(_) => Err(StoreFault::Device),
        }
    }

    // Begins to write all commits so far home, if there are any.
    fn begin(&mut self) -> Result<Progress, StoreFault>
        requires { self.old.stage ≡ Resting }
        ensures value { IfOk result (StepsBy self.old Resting self.new) }
        ensures refused { IfErr result (RefusesStepBy self.old Resting) }
        ensures memory { IfErr result (λ fault. fault ≡ StoreFault.OutOfMemory) }
        ensures unchanged { OnErr result (self.new ≡ self.old) }
    {
        if self.tail.commits_so_far().blocks == 0 {
            return Ok(Progress::Idle);
        }
        match HomeWork::begin(self.alloc, &self.tail, &self.index) {
            Ok(work) => {
                self.work = work;
                self.stage = HomeStage::Copying;
                Ok(Progress::Began)
            }
            Err(_) => Err(StoreFault::OutOfMemory),
        }
    }

    // Copies the next home block.
    fn copy<D: Device>(&mut self, device: &mut D) -> Result<Progress, StoreFault>
        requires long { 4096 * self.old.tail.log.blocks ≤ length (D.seen device.old) }
        requires stage { self.old.stage ≡ Copying }
        requires left { self.old.work.done ≢ length self.old.work.homes }
        ensures step { MakesStoreStep D.Device self.old Copying result self.new device.old device.new }
        ensures over { StaysOver D.Device self.old Copying result self.new device.old device.new }
    {
        match self.work.step(&mut self.tail, &self.index, device) {
            Ok(()) => {}
            Err(fault) => return Err(StoreFault::Move(fault)),
        }
        Ok(Progress::Copied)
    }

    // Writes the start behind the commits that are home.
    fn write_start<D: Device>(&mut self, device: &mut D) -> Result<Progress, StoreFault>
        requires long { 4096 * self.old.tail.log.blocks ≤ length (D.seen device.old) }
        requires stage { self.old.stage ≡ Copying }
        requires done { self.old.work.done ≡ length self.old.work.homes }
        ensures step { MakesStoreStep D.Device self.old Copying result self.new device.old device.new }
        ensures over { StaysOver D.Device self.old Copying result self.new device.old device.new }
    {
        match self
            .tail
            .write_start(device, self.second, self.work.oldest())
        {
            Ok(()) => {
                self.stage = HomeStage::Written;
                Ok(Progress::Wrote)
            }
            Err(fault) => Err(StoreFault::Move(fault)),
        }
    }

    // Makes the start durable.
    fn make_sure<D: Device>(&mut self, device: &mut D) -> Result<Progress, StoreFault>
        requires stage { self.old.stage ≡ Written }
        ensures step { MakesStoreStep D.Device self.old Written result self.new device.old device.new }
        ensures over { StaysOver D.Device self.old Written result self.new device.old device.new }
    {
        match self.tail.make_sure(device) {
            Ok(()) => {
                self.stage = HomeStage::Sure;
                Ok(Progress::Synced)
            }
            Err(fault) => Err(StoreFault::Move(fault)),
        }
    }

    // Selects the start, which is durable.
    fn select<D: Device>(&mut self, device: &mut D) -> Result<Progress, StoreFault>
        requires long { 4096 * self.old.tail.log.blocks ≤ length (D.seen device.old) }
        requires stage { self.old.stage ≡ Sure }
        ensures step { MakesStoreStep D.Device self.old Sure result self.new device.old device.new }
        ensures over { StaysOver D.Device self.old Sure result self.new device.old device.new }
    {
        let oldest = self.work.oldest();
        match self.tail.select_start(device, self.second, oldest) {
            Ok(()) => {
                self.second = !self.second;
                self.index.forget(oldest.below);
                self.stage = HomeStage::Resting;
                Ok(Progress::Moved)
            }
            Err(fault) => Err(StoreFault::Move(fault)),
        }
    }

    /// Makes the next step of writing commits home. The first step begins with all commits so far. Then each step
    /// copies one of their home blocks. Then three steps move the start behind these commits. The first writes the
    /// start, the second makes it durable, and the third selects it durably. Commits may be made between two steps.
    /// Once the start is written, they do the rest of the move, and no step makes a sync.
    pub fn step<D: Device>(&mut self, device: &mut D) -> Result<Progress, StoreFault>
        requires long { 4096 * self.old.tail.log.blocks ≤ length (D.seen device.old) }
        ensures step { MakesStoreStep D.Device self.old self.old.stage result self.new device.old device.new }
        ensures over { StaysOver D.Device self.old self.old.stage result self.new device.old device.new }
    {
        match self.stage {
            HomeStage::Resting => self.begin(),
            HomeStage::Copying => {
                if self.work.is_done() {
                    self.write_start(device)
                } else {
                    self.copy(device)
                }
            }
            HomeStage::Written => self.make_sure(device),
            HomeStage::Sure => self.select(device),
        }
    }
}
