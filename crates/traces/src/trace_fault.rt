// Why a trace is refused.
use scripts::{ScriptFault, StepFault};
use std::alloc::AllocError;
use std::fmt;
use thiserror::Error;

/// Why a trace is refused. Its `Debug` form is its text.
#[derive(Drop, Error)]
pub enum TraceFault {
    #[error("it isn't UTF-8")]
    NotUtf8,
    #[error("it has no lines: the first must be the machine's shape")]
    Empty,
    #[error("line 1: {0}")]
    Shape(ScriptFault),
    #[error("line {line}: it isn't JSON: {cause}")]
    NotJson { line: u64, cause: serde_json::Error },
    #[error("line {line}: it isn't a list of a step and the text of its reply")]
    Form { line: u64 },
    #[error("line {line}: {cause}")]
    Step { line: u64, cause: StepFault },
    #[error("out of memory")]
    Memory(#[from(alloc)] AllocError),
}

impl fmt::Debug for TraceFault {
    fn fmt<W: fmt::Write>(&self, f: &mut fmt::Formatter<W>) -> fmt::Result {
        fmt::Display::fmt(self, f)
    }
}
