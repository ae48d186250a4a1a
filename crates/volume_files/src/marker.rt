// Marks a volume whose file couldn't be synced.
use crate::suspect_flag::SuspectFlag;
use crate::sync_note::SyncNote;
use crate::watched_file::{WatchedFile, Watcher};
use device::{BlockFile, FileDisk};
use std::fs::{File, Files};
use std::io;

/// Marks a volume as suspect as soon as a sync of its file fails.
#[derive(Drop)]
pub struct Marker<'a, R: Files<File = File>> {
    mark: SuspectFlag<'a, R>,
    /// Whether a sync failed, and if so, whether the last failure could be marked.
    marked: Option<io::Result<()>>,
}

impl<'a, R: Files<File = File> + AllocGlobal> Marker<'a, R> {
    /// Returns a marker that knows of no failure yet.
    pub fn new(mark: SuspectFlag<'a, R>) -> Self {
        Marker { mark, marked: None }
    }

    /// Returns its mark.
    pub fn into_mark(self) -> SuspectFlag<'a, R> {
        let Marker { mark, marked: _ } = self;
        mark
    }
}

impl<R: Files<File = File> + AllocGlobal> Watcher for Marker<'_, R> {
    fn hear_failure(&mut self) {
        self.marked = Some(self.mark.make());
    }
}

impl<F: BlockFile + Drop, R: Files<File = File> + AllocGlobal> WatchedFile<F, Marker<'_, R>> {
    /// Returns the message about the syncs that failed.
    pub fn into_note(self) -> SyncNote {
        let (_file, Marker { mark, marked }) = self.into_parts();
        match marked {
            None => SyncNote::Nothing,
            Some(made) => SyncNote::of_mark(mark.into_path(), made),
        }
    }
}

/// A disk that knows which syncs of its file failed.
pub trait Noted {
    /// Returns the message about them.
    fn into_note(self) -> SyncNote;
}

impl<F: BlockFile + Drop, R: Files<File = File> + AllocGlobal> Noted
    for FileDisk<WatchedFile<F, Marker<'_, R>>> {
    fn into_note(self) -> SyncNote {
        self.into_file().into_note()
    }
}
