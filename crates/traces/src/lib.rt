//! Traces: a line with the shape of a machine, and a line for each step that it made, with the text of the reply.
#![tactic(auto)]

mod act;
mod line;
mod trace;
mod trace_fault;
mod word;
mod write;

pub use line::Line;
pub use trace::Trace;
pub use trace_fault::TraceFault;
pub use write::{write_entry, write_shape};
