//! Scripts: a machine's shape, and the steps to make on it or programs for its processors, as one JSON object. A script
//! that breaks the grammar is refused as a whole.
#![tactic(auto)]

mod act;
mod argument;
mod command;
mod form;
mod items;
mod member;
mod script;
mod script_fault;
mod step;
mod threads;

pub use argument::{byte, long, number, short};
pub use command::Command;
pub use form::{Form, judge_form};
pub use member::{parsed, shape, shown, size};
pub use script::Script;
pub use script_fault::{ScriptFault, StepFault};
pub use step::{read_step, read_steps};
pub use threads::ThreadScript;
