//! Page entries as the processor reads them, the numbers that the crates share, and the refusals of all calls.
#![tactic(auto)]

mod entry;
mod numbers;
mod refusal;

pub use entry::{Entry, EntryFlags};
pub use numbers::{
    ADDRESS_END, FileNumber, FilePage, FrameNumber, PAGE, PCIDS, PageIndex, PageNumber, Pcid,
    ProcessorNumber,
};
pub use refusal::Refusal;
