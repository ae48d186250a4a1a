// The stages of a write-out.
ghost use Rattle.std.specs.Prelude.{◌≡◌};
ghost use Rattle.journal.specs.Stage.{stage_at, is_committed as committed, has_writes, is_ahead as ahead, answer_at};

use crate::Flushed;

/// A stage of a write-out. Each stage is one step.
#[derive(Clone, Copy, PartialEq, Eq, Debug)]
pub enum Stage {
    /// Writes record i, counted from 0.
    Recording(u32),
    /// Writes block i of the descriptor, counted from 0.
    Describing(u32),
    /// Syncs the records and the descriptor.
    SyncingRecords,
    /// Opens the gate.
    Opening,
    /// Syncs the open gate. This commits the batch.
    Committing,
    /// Writes record i to its home block.
    Applying(u32),
    /// Syncs the home blocks.
    SyncingHomes,
    /// Closes the gate.
    Closing,
    /// Syncs the closed gate.
    Finishing,
}

impl Stage {
    /// Whether the batch is committed at this stage, so that the open gate is durable.
    pub fn is_committed(self) -> bool
        ensures { result ≡ committed self }
    {
        match self {
            Stage::Recording(_)
            | Stage::Describing(_)
            | Stage::SyncingRecords
            | Stage::Opening
            | Stage::Committing => false,
            Stage::Applying(_) | Stage::SyncingHomes | Stage::Closing | Stage::Finishing => true,
        }
    }

    // Whether the step of this stage writes.
    pub(crate) fn writes(self) -> bool
        ensures { result ≡ has_writes self }
    {
        match self {
            Stage::Recording(_)
            | Stage::Describing(_)
            | Stage::Opening
            | Stage::Applying(_)
            | Stage::Closing => true,
            Stage::SyncingRecords | Stage::Committing | Stage::SyncingHomes | Stage::Finishing =>
                false,
        }
    }

    // Whether the batch isn't committed, and the next step isn't the sync of its records.
    pub(crate) fn is_ahead(self) -> bool
        ensures { result ≡ ahead self }
    {
        !self.is_committed() && self != Stage::SyncingRecords
    }

    /// Returns the result of this stage's step, for the write-out of this mark, if the device calls succeed.
    pub fn answer(self, mark: u64) -> Flushed
        ensures { result ≡ answer_at mark self }
    {
        match self {
            Stage::Committing => Flushed::Committed(mark),
            Stage::Finishing => Flushed::Done(mark),
            _ => Flushed::Going,
        }
    }
}

// Rule: closing order
/// Returns the stage of a write-out of `blocks` blocks after `steps` steps. Its descriptor has `described` blocks.
/// Returns `None` if the write-out is done.
#[tactic(auto, using(crate::proofs::Stages::stage_at_is_by, std::proofs::lemmas::Bool::Decides::nat_tests))]
pub fn stage_at(blocks: u32, described: u32, steps: u32) -> Option<Stage>
    ensures { result ≡ stage_at blocks described steps }
{
    let count = u64::from(blocks);
    let written = count + u64::from(described);
    let done = u64::from(steps);
    if done < count {
        return Some(Stage::Recording(steps));
    }
    if done < written {
        return Some(Stage::Describing((done - count) as u32));
    }
    if done == written {
        return Some(Stage::SyncingRecords);
    }
    if done == written + 1 {
        return Some(Stage::Opening);
    }
    if done == written + 2 {
        return Some(Stage::Committing);
    }
    if done < written + count + 3 {
        return Some(Stage::Applying((done - (written + 3)) as u32));
    }
    if done == written + count + 3 {
        return Some(Stage::SyncingHomes);
    }
    if done == written + count + 4 {
        return Some(Stage::Closing);
    }
    if done == written + count + 5 {
        return Some(Stage::Finishing);
    }
    None
}
