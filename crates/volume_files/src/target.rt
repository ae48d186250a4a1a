// A file that is made whole in another one beside it, which then takes its name.
use crate::failure::FileFailure;
use crate::suspect_flag::SuspectFlag;
use crate::volume_file::{Access, lock, off_streams, open_locked, sync_folder_of, unless};
use device::{BlockFile, FileDisk};
use page_entry::PAGE;
use std::alloc::{AllocError, Allocator};
use std::fs::{File, Files, OpenOptions, Permissions};
use std::io::ErrorKind;
use std::os::unix::fs::{FileExt, MetadataExt, PermissionsExt, fchown};
use std::{fs, io};

/// A file that is made or replaced: the path for failures, and the place where it is.
#[derive(Drop)]
pub struct Target<'a, 'b, R> {
    pub rt: &'b R,
    pub path: &'a str,
    pub place: &'b str,
}

impl<'a, R: Files<File = File> + AllocGlobal> Target<'a, '_, R> {
    /// Returns the failure of a call on it.
    pub fn failed(&self, cause: io::Error) -> FileFailure<'a> {
        FileFailure::File {
            path: self.path,
            cause,
        }
    }

    /// Returns the volume that is to be replaced, locked, if there is one.
    pub fn old_volume(&self) -> Result<Option<File>, FileFailure<'a>> {
        match fs::exists(self.rt, self.place) {
            Ok(there) => {
                if there {
                    Ok(Some(open_locked(self.rt, self.path, self.place, Access::Write)?))
                } else {
                    Ok(None)
                }
            }
            Err(cause) => Err(self.failed(cause)),
        }
    }

    /// Checks that the file that is to be replaced, if there is one, is empty.
    pub fn judge_empty(&self, old: Option<&File>) -> Result<(), FileFailure<'a>> {
        let Some(old) = old else {
            return Ok(());
        };
        match old.metadata() {
            Ok(found) if found.len() == 0 => Ok(()),
            Ok(_) => Err(FileFailure::NotEmpty { path: self.path }),
            Err(cause) => Err(self.failed(cause)),
        }
    }

    /// Returns the path of the file beside it in which it is made.
    pub fn new_path(&self) -> Result<String, AllocError> {
        let place = self.place;
        format!(in self.rt.alloc(); "{place}.new")
    }

    /// Returns the path of a new empty file, and the file. It is for a volume that takes its name once it is whole.
    pub fn new_volume(&self) -> Result<(String, File), FileFailure<'a>> {
        let new = self.new_path()?;
        match new_file(self.rt, &new)? {
            Some(file) => Ok((new, file)),
            None => Err(FileFailure::NewIsThere {
                path: self.path,
                new,
            }),
        }
    }

    /// Locks a new file, lengthens it to this number of blocks, all zeros, and returns it. It gets the owner and mode
    /// of the old file, if there is one.
    pub fn whole<A: Allocator + Copy>(
        &self,
        alloc: A,
        blocks: u64,
        preallocate: bool,
        old: Option<&File>,
        file: File,
    ) -> Result<File, FileFailure<'a>> {
        self.prepare(old, &file)?;
        lengthen(alloc, self.path, &file, blocks, preallocate)?;
        Ok(file)
    }

    /// Writes zeros over the first blocks of such a file, all of which are zeros, and returns it. So they have disk
    /// space: the first opening of a volume with a log writes them, and may find the disk full.
    pub fn claimed<A: Allocator + Copy>(
        &self,
        alloc: A,
        file: File,
    ) -> Result<File, FileFailure<'a>> {
        fill(alloc, self.path, &file, FIRST_BLOCKS)?;
        Ok(file)
    }

    /// Returns a disk over such a file.
    pub fn disk<F: BlockFile + Drop>(&self, file: F) -> Result<FileDisk<F>, FileFailure<'a>> {
        match FileDisk::over(file) {
            Ok(disk) => Ok(disk),
            Err((cause, _)) => Err(self.failed(cause)),
        }
    }

    // Locks a new file, and copies to it the old one's owner and mode, if there is an old one.
    fn prepare(&self, old: Option<&File>, file: &File) -> Result<(), FileFailure<'a>> {
        lock(self.path, file, Access::Write)?;
        match old {
            Some(old) => take_after(file, old).map_err(|cause| self.failed(cause)),
            None => self.judge_absent(),
        }
    }

    // While a new file for a place exists, no other process makes a volume there. But one may have been made before.
    fn judge_absent(&self) -> Result<(), FileFailure<'a>> {
        if fs::exists(self.rt, self.place).unwrap_or(true) {
            Err(FileFailure::InUse { path: self.path })
        } else {
            Ok(())
        }
    }

    /// Gives the new file, all of which is on the disk, the name of the old one. If the file wasn't made, or can't take
    /// the name, it is removed. If this fails too, the next call that makes a file for this place finds it there.
    pub fn named(
        &self,
        new: &str,
        made: Result<File, FileFailure<'a>>,
    ) -> Result<File, FileFailure<'a>> {
        match made.and_then(|file| self.renamed(new, file)) {
            Ok(file) => Ok(file),
            Err(failure) => {
                let _ = fs::remove_file(self.rt, new);
                Err(failure)
            }
        }
    }

    // Gives the new file the name of the old one.
    fn renamed(&self, new: &str, file: File) -> Result<File, FileFailure<'a>> {
        match fs::rename(self.rt, new, self.place) {
            Ok(()) => Ok(file),
            Err(cause) => Err(self.failed(cause)),
        }
    }

    /// Puts the new file's name on the disk.
    pub fn sync_name(&self) -> Result<(), FileFailure<'a>> {
        sync_folder_of(self.rt, self.place).map_err(|cause| self.failed(cause))
    }

    /// Puts the name of a new volume on the disk, and removes the mark that the old one was suspect.
    pub fn durably_name(&self) -> Result<(), FileFailure<'a>> {
        self.sync_name()?;
        SuspectFlag::of(self.rt, self.place)?
            .remove()
            .map_err(|cause| self.failed(cause))
    }
}

/// Returns an empty file that takes another file's name once it is whole. Returns `None` if a file has this name
/// already.
pub fn new_file<'a, R: Files<File = File>>(
    rt: &R,
    new: &String,
) -> Result<Option<File>, FileFailure<'a>> {
    let opened = OpenOptions::new()
        .read(true)
        .write(true)
        .create_new(true)
        .open(rt, new.as_str())
        .and_then(off_streams);
    match opened {
        Ok(file) => Ok(Some(file)),
        Err(cause) => not_made(new, cause),
    }
}

// Returns `None` if the new file wasn't made because a file of its name exists already.
fn not_made<'a>(new: &String, cause: io::Error) -> Result<Option<File>, FileFailure<'a>> {
    match unless(ErrorKind::AlreadyExists, cause) {
        Ok(()) => Ok(None),
        Err(cause) => Err(beside(new, cause)),
    }
}

fn beside<'a>(new: &String, cause: io::Error) -> FileFailure<'a> {
    match new.clone() {
        Ok(path) => FileFailure::Beside { path, cause },
        Err(fault) => FileFailure::Memory(fault),
    }
}

/// Gives a new file the mode of an old one, and its group and owner if the system allows it.
pub fn take_after(new: &File, old: &File) -> io::Result<()> {
    let was = old.metadata()?;
    unless_denied(fchown(new, None, Some(was.gid())))?;
    unless_denied(fchown(new, Some(was.uid()), None))?;
    new.set_permissions(Permissions::from_mode(was.mode() & 0o777))
}

fn unless_denied(outcome: io::Result<()>) -> io::Result<()> {
    match outcome {
        Ok(()) => Ok(()),
        Err(fault) => unless(ErrorKind::PermissionDenied, fault),
    }
}

// Lengthens a new file to `blocks` blocks, all zeros. They are a hole, unless disk space for them is allocated.
fn lengthen<'a, A: Allocator + Copy>(
    alloc: A,
    path: &'a str,
    file: &File,
    blocks: u64,
    preallocate: bool,
) -> Result<(), FileFailure<'a>> {
    if preallocate {
        return fill(alloc, path, file, blocks);
    }
    file.set_len(blocks.saturating_mul(PAGE))
        .map_err(|cause| FileFailure::File { path, cause })
}

// The number of blocks before a log. A volume with a log is longer.
const FIRST_BLOCKS: u64 = 4;

// The largest number of bytes that are written at once.
const PIECE: u64 = 1 << 20;

// Writes zeros over the first blocks of a new file. So a disk without room for them fails here, and not in the middle
// of a commit.
fn fill<'a, A: Allocator + Copy>(
    alloc: A,
    path: &'a str,
    file: &File,
    blocks: u64,
) -> Result<(), FileFailure<'a>> {
    let bytes = blocks.saturating_mul(PAGE);
    let zeros = vec![in alloc; 0; bytes.min(PIECE) as usize]?;
    for piece in 0..bytes.div_ceil(PIECE) {
        let at = piece.saturating_mul(PIECE);
        let count = bytes.saturating_sub(at).min(zeros.len() as u64);
        file.write_all_at(&zeros[..count as usize], at)
            .map_err(|cause| FileFailure::File { path, cause })?;
    }
    Ok(())
}
