//! A page store over a volume. Callers put whole pages of files and commit them together. They are found again after a
//! crash.
#![tactic(auto)]

mod laws;
mod opening;
mod pager;
mod pages;
mod tending;

pub use laws::{what_pagers_leave, what_runs_leave};
pub use pager::Pager;
pub use pages::{block_after, capacity_at, home_block, last_block, length_at, text_with};
