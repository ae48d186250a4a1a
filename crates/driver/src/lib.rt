//! Runs programs for the processors of a machine over any disk, each in a thread of its own.
//!
//! A call that takes `rt` may wait for another thread. Its contract holds if it returns.
#![tactic(auto)]

mod acts;
mod commands;
mod running;

pub use running::{Ended, NotRun, Ran, run_programs};
