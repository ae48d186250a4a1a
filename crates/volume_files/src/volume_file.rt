// The file of a volume: found by its path, opened, locked and checked.
use crate::failure::FileFailure;
use std::fs::{File, Files, Metadata, OpenOptions, TryLockError};
use std::io::ErrorKind;
use std::os::fd::AsRawFd;
use std::os::unix::fs::MetadataExt;
use std::path::Path;
use std::{fs, io};

/// What a command does with a volume.
#[derive(Clone, Copy, Debug, PartialEq, Eq)]
pub enum Access {
    /// It only reads, possibly at the same time as others that read.
    Read,
    /// It writes, and no other process uses the volume.
    Write,
}

/// The number of attempts to open a file if another one has its place when it is locked.
const TRIES: u32 = 64;

/// Returns the place of a volume's file: the path, or the target of the path if it is a link.
pub fn place<'a, R>(rt: &R, path: &'a str) -> Result<String, FileFailure<'a>>
where
    R: Files<File = File> + AllocGlobal,
{
    let refused = |cause| FileFailure::File { path, cause };
    match fs::symlink_metadata(rt, path) {
        Ok(found) if found.is_symlink() => Ok(String::from_str(
            rt.alloc(),
            fs::canonicalize(rt, path).map_err(refused)?.as_str(),
        )?),
        _ => Ok(String::from_str(rt.alloc(), path)?),
    }
}

// Rule: file lock
/// Opens the file at a place, and locks it: exclusively if it is written to, else together with other readers. It must
/// be a regular file, and have no other name if it is written to. Until it is dropped, no other process that requests
/// such a lock gets it. A failure contains `path`.
pub fn open_locked<'a, R>(
    rt: &R,
    path: &'a str,
    place: &str,
    access: Access,
) -> Result<File, FileFailure<'a>>
where
    R: Files<File = File>,
{
    for _ in 0..TRIES {
        let file = open(rt, path, place, access)?;
        lock(path, &file, access)?;
        let found = file
            .metadata()
            .map_err(|cause| FileFailure::File { path, cause })?;
        if is_at(rt, place, &found) {
            judge(path, &found, access)?;
            return Ok(file);
        }
    }
    Err(FileFailure::Replaced { path })
}

// Opens the named file, if it is a regular one. Opening a pipe would wait for its other end.
fn open<'a, R>(rt: &R, path: &'a str, place: &str, access: Access) -> Result<File, FileFailure<'a>>
where
    R: Files<File = File>,
{
    let refused = |cause| FileFailure::File { path, cause };
    judge_kind(path, &fs::metadata(rt, place).map_err(refused)?)?;
    OpenOptions::new()
        .read(true)
        .write(access == Access::Write)
        .open(rt, place)
        .and_then(off_streams)
        .map_err(refused)
}

/// Returns the same open file under a descriptor above 2. If a standard stream was closed, a newly opened file gets its
/// number, and data for the stream would be written to the file.
pub fn off_streams(file: File) -> io::Result<File> {
    if file.as_raw_fd() <= 2 {
        file.try_clone()
    } else {
        Ok(file)
    }
}

/// Locks an open file exclusively or together with other readers. Fails if another process holds it.
pub fn lock<'a>(path: &'a str, file: &File, access: Access) -> Result<(), FileFailure<'a>> {
    let locked = match access {
        Access::Read => file.try_lock_shared(),
        Access::Write => file.try_lock(),
    };
    match locked {
        Ok(()) => Ok(()),
        Err(TryLockError::WouldBlock) => Err(FileFailure::InUse { path }),
        Err(TryLockError::Error(cause)) => Err(FileFailure::File { path, cause }),
    }
}

// Whether the file with this metadata is the one at a place.
fn is_at<R: Files<File = File>>(rt: &R, place: &str, found: &Metadata) -> bool {
    match fs::metadata(rt, place) {
        Ok(named) => is_same(&named, found),
        Err(_) => false,
    }
}

// Whether both belong to the same file.
fn is_same(one: &Metadata, other: &Metadata) -> bool {
    one.dev() == other.dev() && one.ino() == other.ino()
}

/// Returns what is at a place, if anything is. A failure contains `path`.
pub fn found_at<'a, R>(
    rt: &R,
    path: &'a str,
    place: &str,
) -> Result<Option<Metadata>, FileFailure<'a>>
where
    R: Files<File = File>,
{
    match fs::metadata(rt, place) {
        Ok(found) => Ok(Some(found)),
        Err(cause) => not_found(path, cause),
    }
}

// Returns `None` if the fault is that nothing is there.
fn not_found<'a>(path: &'a str, cause: io::Error) -> Result<Option<Metadata>, FileFailure<'a>> {
    match unless(ErrorKind::NotFound, cause) {
        Ok(()) => Ok(None),
        Err(cause) => Err(FileFailure::File { path, cause }),
    }
}

/// Returns this fault, unless it is of the given kind.
pub fn unless(kind: ErrorKind, fault: io::Error) -> io::Result<()> {
    if fault.kind() == kind {
        Ok(())
    } else {
        Err(fault)
    }
}

/// Checks that two files are different. A failure contains `path`, which names one of them.
pub fn apart<'a>(path: &'a str, one: &Metadata, other: &Metadata) -> Result<(), FileFailure<'a>> {
    if is_same(one, other) {
        Err(FileFailure::SameFile { path })
    } else {
        Ok(())
    }
}

fn judge<'a>(path: &'a str, found: &Metadata, access: Access) -> Result<(), FileFailure<'a>> {
    judge_kind(path, found)?;
    let names = found.nlink();
    if access == Access::Write && names > 1 {
        return Err(FileFailure::SeveralNames { path, names });
    }
    Ok(())
}

fn judge_kind<'a>(path: &'a str, found: &Metadata) -> Result<(), FileFailure<'a>> {
    match other_kind(found) {
        Some(kind) => Err(FileFailure::NotRegular { path, kind }),
        None => Ok(()),
    }
}

// The bits of a file's mode that determine its kind.
const KIND: u32 = 0o170_000;

/// Returns the kind of a file that isn't regular. Returns `None` if it is.
pub fn other_kind(found: &Metadata) -> Option<&'static str> {
    match found.mode() & KIND {
        0o100_000 => None,
        0o040_000 => Some("a folder"),
        0o010_000 => Some("a pipe"),
        0o140_000 => Some("a socket"),
        0o060_000 => Some("a block device"),
        0o020_000 => Some("a character device"),
        _ => Some("no file"),
    }
}

/// Puts the names in a folder on the disk.
pub fn sync_folder_of<R: Files<File = File>>(rt: &R, place: &str) -> io::Result<()> {
    off_streams(File::open(rt, folder_of(place))?)?.sync_all()
}

// Returns the folder of a place.
fn folder_of(place: &str) -> &str {
    match Path::new(place).parent() {
        Some(folder) if !folder.as_str().is_empty() => folder.as_str(),
        _ => ".",
    }
}
