//! The end of a log in a session: commits, and what a crash at any moment leaves of them.
#![tactic(auto)]

mod behind;
mod commit;
mod fault;
mod image;
mod laws;
mod ring;
mod selecting;
mod tail;

pub use behind::{MoveFault, OldCommits};
pub use fault::CommitFault;
pub use laws::{committing_keeps, held_log, one_held, told_commit, written_home};
pub use tail::LogTail;
