//! The command `crashes`, which prints what a crash within each device call of a script leaves of the volume in a file:
//! as text, as JSON objects, or as an HTML page.
#![tactic(auto)]

mod crashing;
mod json;
mod page;
mod printed;
mod text;

pub use crashing::crashes;
pub use json::{json_end, json_row};
pub use page::{begin_page, end_page, reply_on_page, row_on_page};
pub use printed::Printed;
pub use text::{text_end, text_reply, text_row};
