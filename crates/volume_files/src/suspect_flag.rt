// The mark of a volume whose file couldn't be synced.
use crate::volume_file::{off_streams, sync_folder_of, unless};
use std::alloc::AllocError;
use std::fs::{File, Files, OpenOptions};
use std::io::{ErrorKind, Write};
use std::{fs, io};

/// The file beside a volume which shows that a sync of the volume failed. After that, a system may treat pages as
/// written that it couldn't write. What it returns of the volume may then be lost at its next start.
#[derive(Drop)]
pub struct SuspectFlag<'a, R: Files<File = File>> {
    rt: &'a R,
    place: &'a str,
    path: String,
}

/// The text in the file of a mark.
const TEXT: &[u8] =
    b"A sync of the volume beside this file failed. What the system gives of it may not be on the disk.\n";

impl<'a, R: Files<File = File> + AllocGlobal> SuspectFlag<'a, R> {
    /// Returns the mark of the volume at a place. It may exist or not.
    pub fn of(rt: &'a R, place: &'a str) -> Result<Self, AllocError> {
        Ok(SuspectFlag {
            rt,
            place,
            path: format!(in rt.alloc(); "{place}.suspect")?,
        })
    }

    /// Returns the path of its file.
    pub fn path(&self) -> &str {
        self.path.as_str()
    }

    /// Returns the path of its file, and drops the rest.
    pub fn into_path(self) -> String {
        let SuspectFlag {
            rt: _,
            place: _,
            path,
        } = self;
        path
    }

    /// Whether its file exists. If this can't be determined, it returns true.
    pub fn is_there(&self) -> bool {
        match fs::symlink_metadata(self.rt, self.path.as_str()) {
            Ok(_) => true,
            Err(fault) => fault.kind() != ErrorKind::NotFound,
        }
    }

    /// Makes its file, and puts it on the disk.
    pub fn make(&self) -> io::Result<()> {
        let mut file = OpenOptions::new()
            .write(true)
            .create(true)
            .truncate(true)
            .open(self.rt, self.path.as_str())
            .and_then(off_streams)?;
        file.write_all(TEXT)?;
        file.sync_all()?;
        sync_folder_of(self.rt, self.place)
    }

    /// Removes its file, if it exists, and puts the removal on the disk.
    pub fn remove(&self) -> io::Result<()> {
        match fs::remove_file(self.rt, self.path.as_str()) {
            Ok(()) => sync_folder_of(self.rt, self.place),
            Err(fault) => unless(ErrorKind::NotFound, fault),
        }
    }
}
