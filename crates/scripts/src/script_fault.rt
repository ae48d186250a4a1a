// The faults of scripts.
use crate::form::Form;
use std::alloc::AllocError;
use std::fmt;
use thiserror::Error;

/// The reason for which a script, or the first line of a trace, is refused. `Debug` prints the text of the fault.
#[derive(Drop, Error)]
pub enum ScriptFault {
    #[error("it isn't UTF-8")]
    NotUtf8,
    #[error("it isn't JSON: {0}")]
    NotJson(serde_json::Error),
    #[error("it isn't an object")]
    NotAnObject,
    #[error("the member {name:?} is missing: {form} are required")]
    Missing {
        name: &'static str,
        form: Form,
    },
    #[error("it has a member {name:?}, but only {form} are allowed")]
    Unknown {
        name: String,
        form: Form,
    },
    #[error("the member {name:?} is {found}, which isn't a whole number up to 2^64 - 1")]
    Number {
        name: &'static str,
        found: String,
    },
    #[error("the member {0:?} isn't a list")]
    NotAList(&'static str),
    #[error("step {number}, {found}: {cause}")]
    Step {
        number: u64,
        found: String,
        cause: StepFault,
    },
    #[error("it has {found} programs, but needs one for each of {cpus} processors")]
    Programs {
        found: u64,
        cpus: u64,
    },
    #[error("program {0} isn't a list")]
    Program(u64),
    #[error("program {program}, command {number}, {found}: {cause}")]
    Command {
        program: u64,
        number: u64,
        found: String,
        cause: StepFault,
    },
    #[error("step {number} names a processor that doesn't exist: cpus is {cpus}")]
    Processor {
        number: u64,
        cpus: u64,
    },
    #[error("out of memory")]
    Memory(#[from(alloc)] AllocError),
}

impl fmt::Debug for ScriptFault {
    fn fmt<W: fmt::Write>(&self, f: &mut fmt::Formatter<W>) -> fmt::Result {
        fmt::Display::fmt(self, f)
    }
}

/// The reason for which a step or a command is refused. `Debug` prints the text of the fault.
#[derive(Clone, Copy, Error)]
pub enum StepFault {
    #[error("it isn't a list of a processor, the name of an act, and arguments")]
    Form,
    #[error("it isn't a list of the name of a command, and arguments")]
    CommandForm,
    #[error("no act has this name")]
    Name,
    #[error("no command has this name")]
    CommandName,
    #[error("{act} has the arguments {arguments}")]
    Arguments {
        act: &'static str,
        arguments: &'static str,
    },
    #[error("{what} isn't a whole number up to {most}")]
    Number {
        what: &'static str,
        most: u64,
    },
    #[error("{what} isn't one of {choices}")]
    Choice {
        what: &'static str,
        choices: &'static str,
    },
    #[error("the bytes aren't a list of at most 8 whole numbers up to 255")]
    Bytes,
}

impl fmt::Debug for StepFault {
    fn fmt<W: fmt::Write>(&self, f: &mut fmt::Formatter<W>) -> fmt::Result {
        fmt::Display::fmt(self, f)
    }
}
