// The result of a step, and the reasons for which a call fails.
use log_commits::{CommitFault, MoveFault};

/// The reason for which a call fails.
#[derive(Clone, Copy, PartialEq, Eq, Debug)]
pub enum StoreFault {
    /// A commit failed, for this reason.
    Commit(CommitFault),
    /// A step failed, for this reason.
    Move(MoveFault),
    /// The block isn't a home block of the volume.
    Range,
    /// A device call of a read failed.
    Device,
    /// There was too little memory.
    OutOfMemory,
}

/// The result of a step.
#[derive(Clone, Copy, PartialEq, Eq, Debug)]
pub enum Progress {
    /// The log has no commits.
    Idle,
    /// The step began to write all commits so far home.
    Began,
    /// The step considered a home block. It copied the block's record, unless a younger commit contains the block.
    Copied,
    /// All home blocks of these commits are written. The step wrote the start behind them, which a commit may select.
    Wrote,
    /// The step made that start durable.
    Synced,
    /// The step selected that start durably. The room of these commits is free.
    Moved,
}
