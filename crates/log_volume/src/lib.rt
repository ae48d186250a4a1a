//! The super block of a volume with a log, in layouts 5 and 6.
#![tactic(auto)]

mod block;
mod laws;
mod super_block;

pub use laws::{one_log_super, other_layouts};
pub use super_block::{LogSuper, read_log_super};
