//! Writes commits of a log home: an index of the newest record of each home block, and the copying in bounded steps.
#![tactic(auto)]

mod index;
mod laws;
mod work;

pub use index::{LogIndex, Newest};
pub use laws::{home_stays, index_stays};
pub use work::HomeWork;
