// A commit whose last sync also makes a move of the start durable.
ghost use Rattle.std.specs.Prelude.{◌≡◌, ◌≢◌, ◌↔◌, ◌≤◌, ◌+◌, ◌*◌, ◌++◌, ℕ, Bool, List, [], ◌∷◌, not, true, is_ok, length, IfErr, OnOk};
ghost use Rattle.log_codec.specs.Commit.{LogDescriptor};
ghost use Rattle.log_commits.specs.declared.fault.CommitFault.TheVariants.{Device};
ghost use Rattle.log_commits.specs.Calls.{DidAll};
ghost use Rattle.log_commits.specs.Keeps.{KeepsTail};
ghost use Rattle.log_commits.specs.Commit.{CommitLeaves, MayCommit};
ghost use Rattle.log_commits.specs.Commit.{committed_to, next_logged, records_in, tail_after};
ghost use Rattle.log_commits.specs.Behind.{HasCommits, HoldsCommits, IsReadyToMove, MayMove, tail_behind};
ghost use Rattle.log_commits.specs.Selecting.{IsSureBy, RefusesSelecting, selecting_works};

use crate::behind::OldCommits;
use crate::fault::CommitFault;
use crate::tail::LogTail;
use device::Device;

impl LogTail {
    /// Commits as `commit` does, and selects the start after these old commits, which is written already. The byte that
    /// selects it is written before the commit's last sync, which makes both durable. The room of the old commits is
    /// free then. With a digest seal, the start must be durable before.
    pub fn commit_selecting<D: Device>(
        &mut self,
        device: &mut D,
        homes: &[u32],
        room: &mut [u8],
        second: bool,
        oldest: OldCommits,
    ) -> Result<(), CommitFault>
        requires long { 4096 * self.old.log.blocks ≤ length (D.seen device.old) }
        ensures may { OnOk result (MayCommit self.old homes.now (length room.old) × MayMove self.old oldest) }
        ensures refused { IfErr result (RefusesSelecting self.old oldest homes.now (length room.old)) }
        ensures keeps { KeepsTail D.Device Device result self.old self.new device.old device.new }
        ensures room { IfErr result (λ fault. fault ≢ Device → room.new ≡ room.old) }
        ensures value { OnOk result (self.new ≡ tail_after (tail_behind self.old oldest) homes.now) }
        ensures did { MayCommit self.old homes.now (length room.old) → MayMove self.old oldest
            → DidAll D.Device device.old (selecting_works self.old second homes.now (records_in homes.now room.old))
            (is_ok result) device.new }

        // Premise: all bytes that a crash could have left before this call contain the log, by the selected start. The
        // other start is ready.
        ensures leaves { (contents : ℕ → List ℕ) (ds younger : List LogDescriptor) → D.is_honest device.old
            → HasCommits D.Device second self.old contents (ds ++ younger) device.old
            → IsReadyToMove second self.old oldest contents ds younger (D.seen device.old)
            → IsSureBy D.Device self.old.log.sealing device.old
            → CommitLeaves D.Device (tail_behind self.old oldest) contents homes.now (records_in homes.now room.old)
            (is_ok result) device.old device.new }
        ensures commits { (contents : ℕ → List ℕ) (ds younger : List LogDescriptor) → D.is_honest device.old
            → HasCommits D.Device second self.old contents (ds ++ younger) device.old
            → IsReadyToMove second self.old oldest contents ds younger (D.seen device.old)
            → IsSureBy D.Device self.old.log.sealing device.old
            → OnOk result (HoldsCommits (not second) (tail_after (tail_behind self.old oldest) homes.now)
            (committed_to contents homes.now (records_in homes.now room.old))
            (younger ++ next_logged self.old homes.now ∷ []) (D.seen device.new)) }
    {
        let _log = &self.log;
        let blocks = self.judge(homes, room.len())?;
        match self.judge_move(oldest) {
            Ok(()) => {}
            Err(_) => return Err(CommitFault::Start),
        }
        self.write_next(device, homes, room, blocks, Some(second))?;
        self.start = self.start_behind(oldest);
        self.used -= oldest.blocks;
        Ok(())
    }
}
