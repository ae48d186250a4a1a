//! Reads the log of a volume on a device, from the start that counts to the log's end.
#![tactic(auto)]

mod calls;
mod commit;
mod ending;
mod found;
mod reading;

pub use calls::read_block;
pub use ending::ends_at;
pub use found::{FoundCommit, FoundLog};
pub use reading::read_log;
