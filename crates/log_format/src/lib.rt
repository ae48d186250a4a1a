//! Makes a volume with a log on a device whose bytes are all 0: a new one, or a copy of a volume with journals.
#![tactic(auto)]

mod asked;
mod formatting;
mod laws;
mod migration;

pub use asked::{asked_super, log_block_count};
pub use formatting::{finish_log, format_log, lay_log, log_shape};
pub use laws::fresh_volume;
pub use migration::{migrate_to_log, migrated_log_blocks};
