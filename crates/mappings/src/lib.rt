//! The mappings of one address space: which page maps which page of which file, with which rights (POSIX.1-2024,
//! `mmap`, `munmap`, `mprotect`).
#![tactic(auto)]

mod list;
mod mapping;
mod mappings;
mod page_range;
mod pages_of;
mod place;

pub use mappings::Mappings;
pub use page_range::{MAX_PAGES, PageRange, mapped_pages};
pub use pages_of::PagesOf;
pub use place::{Place, Rights};
