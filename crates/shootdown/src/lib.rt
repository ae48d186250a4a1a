//! The shootdown of translations: processors with their TLBs, and a lock. The holder of the lock changes page entries
//! that TLBs may have cached (Black, Rashid, Golub, Hill and Baron 1989, "Translation Lookaside Buffer Consistency").
#![tactic(auto)]

mod laws;
mod lock;
mod proc_state;
mod processor;
mod shootdown;

pub use laws::{kept_by_changes, kept_by_processors, kept_by_tables};
pub use lock::Lock;
pub use proc_state::ProcState;
pub use shootdown::Shootdown;
