//! The address spaces of a machine, by PCID. A space has mappings, and the entries of its page table (POSIX.1-2024,
//! `mmap`, `munmap`, `mprotect`; Intel SDM volume 3, "Process-Context Identifiers").
#![tactic(auto)]

mod change;
mod entries_of;
mod entry_pages;
mod pcids;
mod space;
mod spaces;

pub use change::Change;
pub use entries_of::EntriesOf;
pub use pcids::Pcids;
pub use spaces::{ALL_PAGES, Spaces};
