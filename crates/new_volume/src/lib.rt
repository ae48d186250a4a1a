//! Makes a volume on a device, or a file with holes, whose bytes are all 0 at first. Only writes what isn't zero.
#![tactic(auto)]

mod formatting;
mod new_file;

pub use formatting::{finish_new, format_new};
pub use new_file::{EmptyFile, NewFile, WriteListener};
