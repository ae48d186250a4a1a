// The replies to requests of an open volume, as codes.
ghost use Rattle.std.specs.Prelude.{◌≡◌};
ghost use Rattle.deferred_disk.specs.Deferred.{carried_moment};
ghost use Rattle.famsync_core.specs.Held.{disk_of};
ghost use Rattle.famsync_core.specs.Requests.{AnswersRead, AnswersWrite, AnswersSetLength, AnswersCommit};
ghost use Rattle.famsync_core.specs.Requests.{AnswersWriteOut};

use crate::codes::{ARGUMENT, NONE, OK, code_of_outcome, code_of_reading, code_of_unread};
use crate::volume::OpenVolume;
use page_entry::{FileNumber, FilePage};

/// Reads a page into `to`, if `to` has exactly the length of a page.
pub(crate) fn read_page(
    volume: &mut OpenVolume,
    page: FilePage,
    to: &mut [u8],
    wanted: &mut u32,
) -> i32
    ensures { AnswersRead volume.old page to.old to.new result wanted.old wanted.new volume.new }
{
    if to.len() != 4096 {
        return ARGUMENT;
    }
    let mut buffer = [0; 4096];
    let outcome = volume.read(page, &mut buffer);
    if outcome.is_ok() {
        to.copy_from_slice(&buffer);
    }
    code_of_reading(&outcome, wanted)
}

/// Writes these bytes to a page, if they have exactly the length of a page.
pub(crate) fn write_page(volume: &mut OpenVolume, page: FilePage, bytes: &[u8]) -> i32
    ensures { AnswersWrite volume.old page bytes.now result volume.new }
{
    match bytes.as_array() {
        Some(block) => code_of_outcome(&volume.write(page, block)),
        None => ARGUMENT,
    }
}

/// Sets the length of a file.
pub(crate) fn change_length(
    volume: &mut OpenVolume,
    file: FileNumber,
    length: u64,
    wanted: &mut u32,
) -> i32
    ensures { AnswersSetLength volume.old file length result wanted.old wanted.new volume.new }
{
    let outcome = volume.set_length(file, length);
    code_of_reading(&outcome, wanted)
}

/// Makes a commit, and stores its mark in `mark`.
pub(crate) fn make_commit(volume: &mut OpenVolume, mark: &mut u32, wanted: &mut u32) -> i32
    ensures answers { AnswersCommit volume.old result mark.old mark.new wanted.old wanted.new volume.new }
    ensures carried { carried_moment (disk_of volume.new) ≡ carried_moment (disk_of volume.old) }
{
    match volume.commit() {
        Ok(number) => {
            *mark = number;
            OK
        }
        Err(why) => code_of_unread(&why, wanted),
    }
}

/// Makes further steps of earlier commits.
pub(crate) fn make_steps(volume: &mut OpenVolume, most: u32, wanted: &mut u32) -> i32
    ensures answers { AnswersWriteOut most volume.old result wanted.old wanted.new volume.new }
    ensures carried { carried_moment (disk_of volume.new) ≡ carried_moment (disk_of volume.old) }
{
    match volume.write_out(most) {
        Ok(true) => OK,
        Ok(false) => NONE,
        Err(why) => code_of_unread(&why, wanted),
    }
}
