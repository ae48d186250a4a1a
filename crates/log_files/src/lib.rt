//! The files of a volume with a log. Pages are put and lengths are set. Both are committed together, read back, and
//! written home in steps.
#![tactic(auto)]

mod asking;
mod commits;
mod files;
mod lengths;
mod needs;
mod opening;
mod places;

pub use files::LogFiles;
