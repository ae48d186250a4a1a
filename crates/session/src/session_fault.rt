// Why a session ends before its input does.
use std::alloc::AllocError;
use std::io;
use thiserror::Error;

/// Why a session ends before its input does.
#[derive(Debug, Drop, Error)]
pub enum SessionFault {
    /// The input couldn't be read.
    #[error("input: {0}")]
    Input(io::Error),
    /// The output couldn't be written.
    #[error("output: {0}")]
    Output(io::Error),
    /// Memory was refused, for a request or its reply.
    #[error("out of memory")]
    Memory(#[from(alloc)] AllocError),
}
