//! Histories of stores, length changes and marks: the files after a history, its durable prefixes, and what openings
//! find after a crash.
#![tactic(auto)]

mod laws;

pub use laws::{nothing_stored, opened_later};
