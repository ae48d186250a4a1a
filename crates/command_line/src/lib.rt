//! Reads the command line: which job its words ask for.
#![tactic(auto)]

mod command;
mod commands;
mod job;
mod word_fault;
mod words;

pub use command::read_words;
pub use job::{Export, Form, Job, Logged, Look, Make, Migration, NewLayout, Scripted, Seal, Sight};
pub use word_fault::WordFault;
pub use words::{decimal, file_spec};
