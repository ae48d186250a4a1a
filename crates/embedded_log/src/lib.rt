//! A volume with a log inside the user's process. It makes no IO itself: it takes requests, and records the device
//! calls that its host is to make.
#![tactic(auto)]

mod hosting;
mod laws;
mod requesting;
mod steps;
mod volume;

pub use laws::{crashed_on_the_host, told_by_byte};
pub use volume::{EmbeddedLog, open};
