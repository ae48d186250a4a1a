// Why a request about a volume's file failed.
use crate::cause::Refused;
use std::alloc::AllocError;
use std::{fmt, io};
use thiserror::Error;

/// Why a request about a volume's file failed. Its text is one line, and its `Debug` form is this text.
#[derive(Drop, Error)]
pub enum FileFailure<'a> {
    /// A real file couldn't be made, opened or read.
    #[error("file {path:?}: {cause}")]
    File { path: &'a str, cause: io::Error },
    /// A file beside a volume couldn't be made or removed.
    #[error("file {path:?}: {cause}")]
    Beside { path: String, cause: io::Error },
    // Rule: file lock: A volume's file is locked until it is closed. The lock is exclusive if the file is opened for
    // writing, and otherwise shared.
    /// Another process has the file of the volume locked.
    #[error("disk {path:?}: in use by another process")]
    InUse { path: &'a str },
    /// The file of the volume isn't a regular file.
    #[error("disk {path:?}: it is {kind}, but a volume must be a regular file")]
    NotRegular { path: &'a str, kind: &'a str },
    /// The file of the volume has several names, by which others may use it.
    #[error("disk {path:?}: the file has {names} names (hard links), but a file to be written must have only one")]
    SeveralNames { path: &'a str, names: u64 },
    /// Each time the file was locked, the path named another file.
    #[error("disk {path:?}: another process keeps replacing the file")]
    Replaced { path: &'a str },
    /// A new volume would replace a file that isn't empty.
    #[error("disk {path:?}: the file isn't empty: use --replace to replace it")]
    NotEmpty { path: &'a str },
    /// The file in which a new volume is made exists already.
    #[error("disk {path:?}: {new:?} already exists: remove it, unless another format is running")]
    NewIsThere { path: &'a str, new: String },
    /// The volume has no file of this name.
    #[error("disk {path:?}: it has no file {file:?}")]
    NoFile { path: &'a str, file: &'a str },
    /// A copy would replace something that isn't a regular file.
    #[error("file {path:?}: it is {kind}, but a copy can replace only a regular file")]
    NotReplaced { path: &'a str, kind: &'a str },
    /// A copy would replace the file of the volume.
    #[error("file {path:?}: it is the volume's file")]
    SameFile { path: &'a str },
    /// A copy would replace a file that another process has locked.
    #[error("file {path:?}: in use by another process")]
    CopyInUse { path: &'a str },
    /// The file in which a copy is made exists already.
    #[error("file {path:?}: {new:?} already exists: remove it, unless another export is running")]
    CopyIsThere { path: &'a str, new: String },
    // Rule: suspect volume: If a volume's file can't be synced, the volume is flagged. A flagged volume is opened only
    // with `--trust`.
    /// The volume is flagged, because a sync of its file failed.
    #[error("disk {path:?}: {mark:?} exists because a sync failed, so the disk may lack data that can be read: compare the volume with a copy, then use --trust, or format it")]
    Suspect { path: &'a str, mark: String },
    /// The file of the volume couldn't be synced when it was opened.
    #[error("disk {path:?}: the file can't be synced: {cause}")]
    Unsynced { path: &'a str, cause: io::Error },
    /// The volume was refused.
    #[error("disk {path:?}: {cause}")]
    Disk { path: &'a str, cause: Refused<'a> },
    /// The output couldn't be written.
    #[error("output: {0}")]
    Output(#[from] io::Error),
    /// Memory was refused.
    #[error("out of memory")]
    Memory(#[from(alloc)] AllocError),
}

impl fmt::Debug for FileFailure<'_> {
    fn fmt<W: fmt::Write>(&self, f: &mut fmt::Formatter<W>) -> fmt::Result {
        fmt::Display::fmt(self, f)
    }
}
