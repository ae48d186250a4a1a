// Why a run of the program fails.
ghost use Rattle.std.specs.Prelude.{◌≡◌};
ghost use Rattle.commands.specs.Failure.{status_of};

use crate::shape::ShapeCause;
use command_line::WordFault;
use page_entry::Refusal;
use scripts::ScriptFault;
use std::alloc::AllocError;
use std::io;
use thiserror::Error;
use traces::TraceFault;
use volume_files::FileFailure;

/// Why a run of the program fails. Its text is one line.
#[derive(Debug, Drop, Error)]
pub enum Failure<'a> {
    /// The words of the command line were refused.
    #[error("{0}")]
    Words(#[from] WordFault<'a>),
    /// The script was refused, before anything was opened.
    #[error("script {path:?}: {cause}")]
    Script { path: &'a str, cause: ScriptFault },
    /// The trace was refused, before anything was opened.
    #[error("trace {path:?}: {cause}")]
    Trace { path: &'a str, cause: TraceFault },
    /// A fault of the volume's file, or of another file.
    #[error("{0}")]
    File(#[from] FileFailure<'a>),
    /// No machine of this shape can run on the volume.
    #[error("disk {path:?}: badshape: {cause}")]
    Shape { path: &'a str, cause: ShapeCause },
    /// The reply to a step of the script is that the device failed.
    #[error("script {path:?}: step {step}: the device failed")]
    Step { path: &'a str, step: u64 },
    /// The reply to an entry of the trace is that the device failed.
    #[error("trace {path:?}: entry {entry}: the device failed")]
    Entry { path: &'a str, entry: u64 },
    /// The reply to an act of a thread is that the device failed. `entry` is its entry in the trace.
    #[error("script {path:?}: entry {entry} of the trace: the device failed")]
    Act { path: &'a str, entry: u64 },
    /// A thread waited for others, and none of them made progress.
    #[error("script {path:?}: a wait timed out: no other thread made progress")]
    Wait { path: &'a str },
    /// The trace isn't what the threads were answered.
    #[error("script {path:?}: {cause}: the trace differs from the threads' replies")]
    Gather { path: &'a str, cause: Refusal },
    /// The crashes of a run couldn't be made.
    #[error("script {path:?}: {cause}")]
    Crashes { path: &'a str, cause: Refusal },
    /// The crashes of a run couldn't be made, because its second run got other replies.
    #[error("script {path:?}: the repeated run had different replies")]
    Otherwise { path: &'a str },
    /// The reply to a step of a session is that the device failed.
    #[error("disk {path:?}: the device failed")]
    Session { path: &'a str },
    /// The input couldn't be read.
    #[error("input: {0}")]
    Input(io::Error),
    /// The output couldn't be written.
    #[error("output: {0}")]
    Output(#[from] io::Error),
    /// Memory can't be allocated.
    #[error("out of memory")]
    Memory(#[from(alloc)] AllocError),
}

impl Failure<'_> {
    /// Returns the program's exit status: 1 for a refused script or trace, and 3 for other failures. A `WordFault` has
    /// its own status.
    pub fn status(&self) -> u8
        ensures { result ≡ status_of self.now }
    {
        match self {
            Failure::Script { .. } | Failure::Trace { .. } => 1,
            Failure::Words(fault) => fault.status(),
            _ => 3,
        }
    }
}
