//! The laws of the histories of a volume with a log: what a crash leaves after any calls, and within them.
#![tactic(auto)]

mod laws;

pub use laws::{what_log_files_leave, what_log_runs_leave};
