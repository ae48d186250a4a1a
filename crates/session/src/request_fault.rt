// Why a line isn't a request.
use scripts::StepFault;
use std::alloc::AllocError;
use thiserror::Error;

/// Why a line isn't a request. The answer to a bad line contains words for its fault, which a contract defines
/// (`cause_words`). The displayed fault comes after them.
#[derive(Debug, Drop, Error)]
pub enum RequestFault {
    /// It has more than this number of bytes.
    #[error("")]
    Long(u64),
    #[error("")]
    NotUtf8,
    #[error("{0}")]
    NotJson(serde_json::Error),
    #[error("")]
    NotAList,
    #[error("")]
    Empty,
    #[error("{0}")]
    Step(StepFault),
    /// The step of this number, counted from 1, isn't a step.
    #[error("{found}: {cause}")]
    Steps {
        number: u64,
        found: String,
        cause: StepFault,
    },
    /// The bytes aren't hexadecimal digits, or are more than this number.
    #[error("")]
    Bytes(u64),
    #[error("")]
    Memory(#[from(alloc)] AllocError),
}
