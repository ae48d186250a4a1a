//! Makes volumes on devices, opens them after a crash, and reads their files.
#![tactic(auto)]

mod calls;
mod formatting;
mod laws;
mod migration;
mod opening;
pub mod reading;
mod volume;

pub use formatting::{blocks, blocks_as, format, format_as, shape};
pub use laws::{
    crashed_since_opening, kinds_of_bytes, made_by_formatting, made_by_migrating,
    opened_after_formatting, opened_after_making, opened_again, opened_as_recovered,
};
pub use migration::{copy_files, migrate, migrated_blocks, specs_of};
pub use opening::open;
pub use volume::Volume;
