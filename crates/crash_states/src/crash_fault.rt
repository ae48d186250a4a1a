// Why a run has no table of its crashes.
use page_entry::Refusal;
use std::alloc::AllocError;
use thiserror::Error;

/// Why a run has no table of its crashes.
#[derive(Debug, Drop, Error)]
pub enum CrashFault {
    /// The volume can't be opened, or no machine of the shape can run on it.
    #[error("{0}")]
    Refused(Refusal),
    /// When the run was made again, it got other replies, for example because memory couldn't be allocated.
    #[error("the repeated run had different replies")]
    Otherwise,
    /// Memory can't be allocated.
    #[error("out of memory")]
    Memory(#[from(alloc)] AllocError),
}
