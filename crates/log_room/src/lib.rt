//! Commits to a log. If the log has no room, makes room first.
#![tactic(auto)]

mod room;

pub use room::commit_with_room;
