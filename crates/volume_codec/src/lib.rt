//! The bytes of a volume's super block, of its journals' descriptors and of its lengths block. One grammar over the
//! volume's layout reads and writes them. The crate also defines the place of each part of a volume, and the files that
//! a volume's bytes recover to.
#![tactic(auto)]

mod block;
mod descriptor;
mod file_spec;
mod geometry;
mod laws;
mod layout;
mod lengths_block;
mod rules;
mod super_block;

pub use descriptor::{Descriptor, read_descriptor, write_descriptor};
pub use file_spec::FileSpec;
pub use geometry::Geometry;
pub use laws::{files_from_contents, one_reading, parts_of_layouts, recovered_from};
pub use layout::{CLOSED_GATE, Layout, OPEN_GATE};
pub use lengths_block::{capacities, read_lengths, write_lengths, write_lengths_of};
pub use rules::{MAX_FILES, MAX_NAME, block_count_as, block_count_of, specs_of};
pub use super_block::{Super, read_super, write_super, write_super_as};
