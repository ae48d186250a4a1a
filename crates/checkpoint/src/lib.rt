//! Tracks which pages are dirty, and which are frozen until their records are written. The calls that clear page-table
//! entries note the dirty pages first (Park, Kelly and Shen 2013, failure-atomic msync).
#![tactic(auto)]

mod checkpoint;
mod copies;
mod notes;
mod resizing;

pub use checkpoint::Checkpoint;
