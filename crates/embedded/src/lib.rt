//! A volume inside the user's process that makes no system calls. It takes requests, and returns the device calls that
//! they need.
#![tactic(auto)]

mod embedded;
mod hosting;
mod judging;
mod laws;
mod reading;
mod requesting;
mod steps;
mod tending;
mod trial;

pub use embedded::{Embedded, open};
pub use laws::crashed_on_the_host;
pub use reading::{Unread, block_number};
pub use requesting::{confirmed, made_calls};
pub use tending::{Carrying, Forgetting, Supplying};
pub use trial::{Trial, after_lack, lacked_block};
