// The message about a volume whose file couldn't be synced.
use std::{fmt, io};

/// The message about failed syncs, which follows the failure that they caused.
#[derive(Drop)]
pub enum SyncNote {
    /// No sync failed.
    Nothing,
    /// A sync failed, and the file with this path marks the volume.
    Marked(String),
    /// One failed, and the file with this path couldn't be made.
    Unmarked(String, io::Error),
}

impl SyncNote {
    /// Returns the message about a failed sync, for which the file with this path was to be made.
    pub fn of_mark(path: String, made: io::Result<()>) -> Self {
        match made {
            Ok(()) => SyncNote::Marked(path),
            Err(fault) => SyncNote::Unmarked(path, fault),
        }
    }
}

impl fmt::Display for SyncNote {
    fn fmt<W: fmt::Write>(&self, f: &mut fmt::Formatter<W>) -> fmt::Result {
        match self {
            SyncNote::Nothing => Ok(()),
            SyncNote::Marked(mark) => write!(
                f,
                "; a sync of the disk failed, and {mark:?} marks it"
            ),
            SyncNote::Unmarked(mark, cause) => write!(
                f,
                "; a sync of the disk failed, and {mark:?}, which is to mark it, can't be made: {cause}"
            ),
        }
    }
}
