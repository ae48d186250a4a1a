//! Page faults: the place of a fault's address, and how the fault is served (POSIX.1-2024, `mmap`, "References within
//! the address range"; Park, Kelly and Shen 2013, failure-atomic msync).
#![tactic(auto)]

mod bring;
mod home;
mod page_fault;
mod plan;
mod serve;

pub use page_fault::PageFault;
pub use serve::{fix, place};
