//! Reads the bytes of a volume without writing to it: its table, its journals, what opening would carry out, and
//! whether it is damaged. Prints them as text and as JSON.
#![tactic(auto)]

mod file;
mod found;
mod health;
mod json;
mod lines;
mod log_health;
mod log_json;
mod log_text;
mod place;
mod reading;
mod text;

pub use found::{Found, Journal, inspect};
pub use health::{Health, examine};
pub use json::{damage_value, found_value, health_value};
pub use lines::{write_file_lines, write_line};
pub use log_health::examine_log;
pub use log_json::log_found_value;
pub use log_text::write_log_found;
pub use place::{HomePage, pages_have_places, place_of};
pub use text::write_found;
