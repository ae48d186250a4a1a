//! The main job over any disk: it opens a volume, boots a machine over it, and makes steps one at a time.
#![tactic(auto)]

mod laws;
mod listener;
mod running;

pub use laws::{crashed_since_refusal, ran_after_making, ran_since_start, steps_are_a_run};
pub use listener::Listener;
pub use running::{run, start};
