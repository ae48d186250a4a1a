// Why the words of a command line are refused.
ghost use Rattle.std.specs.Prelude.{◌≡◌};
ghost use Rattle.command_line.specs.Faults.{word_status};

use std::alloc::AllocError;
use thiserror::Error;

/// Why the words of a command line are refused. Its text is one line.
#[derive(Debug, Drop, Error)]
pub enum WordFault<'a> {
    /// The words don't have a form that the help shows.
    #[error("{0}")]
    CommandLine(String),
    /// The word for the layout isn't a number.
    #[error("LAYOUT is {0:?}, which isn't a decimal number up to 2^64 - 1")]
    Layout(&'a str),
    /// The word for the number of record slots isn't a number.
    #[error("SLOTS is {0:?}, which isn't a decimal number up to 2^64 - 1")]
    Slots(&'a str),
    /// A word for a file isn't a name with a length.
    #[error("FILE is {0:?}, which isn't a name, `=` and a decimal length up to 2^64 - 1, in layouts 3 to 6 also with `/` and a capacity")]
    FileSpec(&'a str),
    /// These words are missing.
    #[error("the following required arguments were not provided: {0}")]
    Missing(&'a str),
    /// The word for the blocks of a log isn't a number.
    #[error("BLOCKS is {0:?}, which isn't a decimal number up to 2^64 - 1")]
    Blocks(&'a str),
    /// The word for a key isn't a key.
    #[error("KEY is {0:?}, which isn't 16 hexadecimal digits")]
    Key(&'a str),
    /// An option isn't allowed in layout `found`, but only in `layouts`.
    #[error("{option} is only for {layouts}, but LAYOUT is {found}")]
    OtherLayout {
        option: &'a str,
        layouts: &'a str,
        found: u64,
    },
    /// Memory can't be allocated.
    #[error("out of memory")]
    Memory(#[from(alloc)] AllocError),
}

impl WordFault<'_> {
    /// Returns the program's exit status: 3 for `Memory`, and 2 for every other fault.
    pub fn status(&self) -> u8
        ensures { result ≡ word_status self.now }
    {
        match self {
            WordFault::CommandLine(_)
            | WordFault::Layout(_)
            | WordFault::Slots(_)
            | WordFault::FileSpec(_)
            | WordFault::Missing(_)
            | WordFault::Blocks(_)
            | WordFault::Key(_)
            | WordFault::OtherLayout { .. } => 2,
            WordFault::Memory(_) => 3,
        }
    }
}
