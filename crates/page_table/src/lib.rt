//! A page table as a map from page to entry. The table grows before entries are set, so a change of an entry allocates
//! no memory.
#![tactic(auto)]

mod change;
mod dirty_pages;
mod growing;
mod lanes;
mod leaves;
mod marks;
mod nodes;
mod table;

pub use dirty_pages::DirtyPages;
pub use lanes::{dirty_mask, first_set};
pub use marks::mark;
pub use table::Table;
