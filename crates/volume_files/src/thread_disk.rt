// The disk of a volume that threads use. Its failed syncs are noted, and marked once it comes back.
use crate::disk::VolumeDisk;
use crate::failure::FileFailure;
use crate::suspect_flag::SuspectFlag;
use crate::sync_note::SyncNote;
use crate::watched_file::{WatchedFile, Watcher};
use device::{BlockFile, FileDisk};
use std::fs::{File, Files};

/// A disk over the file of a volume, which may be used by a thread.
pub type ThreadDisk = FileDisk<WatchedFile<File, Reminder>>;

/// Remembers whether a sync of a file failed. It has no handle that makes files, so it can be used by a thread. The
/// code that gets it back marks the volume.
#[derive(Drop)]
pub struct Reminder {
    failed: bool,
}

impl Watcher for Reminder {
    fn hear_failure(&mut self) {
        self.failed = true;
    }
}

impl<F: BlockFile + Drop> WatchedFile<F, Reminder> {
    /// If a sync of the file failed, marks the volume as suspect. Returns the message about that.
    pub fn into_note<R>(self, mark: SuspectFlag<'_, R>) -> SyncNote
    where
        R: Files<File = File> + AllocGlobal,
    {
        let (_file, reminder) = self.into_parts();
        if reminder.failed {
            let made = mark.make();
            SyncNote::of_mark(mark.into_path(), made)
        } else {
            SyncNote::Nothing
        }
    }
}

/// Returns the disk of a volume as one that a thread can use, and the mark for when it comes back. The file is synced
/// once more.
pub fn for_threads<'a, 'b, R>(
    disk: VolumeDisk<'b, R>,
    path: &'a str,
    note: &mut SyncNote,
) -> Result<(ThreadDisk, SuspectFlag<'b, R>), FileFailure<'a>>
where
    R: Files<File = File> + AllocGlobal,
{
    let (file, marker) = disk.into_file().into_parts();
    let mark = marker.into_mark();
    match FileDisk::over(WatchedFile::new(file, Reminder { failed: false })) {
        Ok(disk) => Ok((disk, mark)),
        Err((cause, file)) => {
            *note = file.into_note(mark);
            Err(FileFailure::Unsynced { path, cause })
        }
    }
}
