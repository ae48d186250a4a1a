//! Blocks of a volume with a log: they are put, committed together, read, and written home in steps.
#![tactic(auto)]

mod closing;
mod fault;
mod held;
mod needs;
mod pager;
mod spelling;
mod staging;
mod tending;

pub use fault::PagerFault;
pub use pager::LogPager;
