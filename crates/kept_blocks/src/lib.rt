//! Blocks that are kept in memory: home blocks with their bytes, ordered by rising numbers.
#![tactic(auto)]

mod blocks;
mod cutting;
mod tending;

pub use blocks::Blocks;
pub use cutting::{boxed_page, cut_off, has_whole_block};
pub use tending::Tender;
