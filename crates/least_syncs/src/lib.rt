//! The least number of syncs of an acknowledged commit, for any format of the volume and any recovery.
#![tactic(auto)]

mod forged;
mod laws;
mod recovery;

pub use forged::crash_as_the_other;
pub use laws::{one_sync_is_too_few, what_few_syncs_do};
pub use recovery::Recovery;
