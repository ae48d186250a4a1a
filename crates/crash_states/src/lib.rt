//! The device calls of a run, the parts of a volume that they touch, and the crash states that each call can leave.
//! These make the rows of a table.
#![tactic(auto)]

mod any_part;
mod call;
mod choice;
mod crash_fault;
mod log_part;
mod part;
mod row;

pub use any_part::VolumePlaces;
pub use call::{Call, CallKind, Listing, are_until};
pub use choice::{Choice, Contents, MOST_MIXTURES};
pub use crash_fault::CrashFault;
pub use log_part::LogPlaces;
pub use part::{Part, Places};
pub use row::{Found, Row};
