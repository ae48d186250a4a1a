// The requests to an open volume, and its opening.
ghost use Rattle.std.specs.Prelude.{◌≡◌, ℕ, ◌-◌, ◌^◌, min, is_some, IfSome, IfNone, None};
ghost use Rattle.std.specs.Option.{option_map};
ghost use Rattle.deferred_disk.specs.Deferred.{carried_moment};
ghost use Rattle.famsync_core.specs.Codes.{order_code};
ghost use Rattle.famsync_core.specs.Held.{disk_of, page_numbered};
ghost use Rattle.famsync_core.specs.Opening.{AnswersOpen, TellsOpening, most_pages};
ghost use Rattle.famsync_core.specs.Requests.{AnswersRead, AnswersWrite, AnswersSetLength, AnswersCommit};
ghost use Rattle.famsync_core.specs.Requests.{AnswersWriteOut};

use crate::answering::{change_length, make_commit, make_steps, read_page, write_page};
use crate::codes::{OK, ORDER, code_of_unread};
use crate::state::State;
use crate::volume::{OpenVolume, open_volume};
use deferred_disk::DeferredDisk;
use embedded::Unread;
use page_entry::FilePage;
use std::alloc::Global;

// Returns the page of a file with these numbers. A number too large for its type becomes the largest, which no volume
// has.
pub(crate) fn page_numbered(file: u32, page: u64) -> FilePage
    ensures { result ≡ page_numbered file page }
{
    FilePage {
        file: file.min(0xFFFF) as u16,
        page: page.min(0xFFFF_FFFF) as u32,
    }
}

// Returns the largest number of pages of a commit, where 0 means as many as the journals or the log can take.
fn most_pages(pages: u32) -> u32
    ensures { result ≡ most_pages pages }
{
    if pages == 0 { u32::MAX } else { pages }
}

impl State {
    /// Opens the volume.
    pub(crate) fn open(&mut self, alloc: Global, pages: u32, wanted: &mut u32) -> i32
        ensures order { IfNone self.old.disk
            ((result ≡ order_code) × (wanted.new ≡ wanted.old) × (self.new ≡ self.old)) }
        ensures answers { IfSome self.old.disk (λ disk.
            AnswersOpen self.old disk (most_pages pages) result wanted.old wanted.new self.new) }
    {
        match self.disk.take() {
            Some(disk) => {
                let opened = open_volume(alloc, disk, most_pages(pages));
                self.hold(opened, wanted)
            }
            None => ORDER,
        }
    }

    // Keeps the opened volume, or the disk if the opening failed.
    fn hold(
        &mut self,
        opened: Result<OpenVolume, (Unread, DeferredDisk<Global>)>,
        wanted: &mut u32,
    ) -> i32
        requires { self.old.disk ≡ None }
        ensures { TellsOpening self.old opened result wanted.old wanted.new self.new }
    {
        match opened {
            Ok(volume) => {
                self.volume = Some(volume);
                OK
            }
            Err((why, disk)) => {
                self.disk = Some(disk);
                code_of_unread(&why, wanted)
            }
        }
    }

    /// Reads a page of a file.
    pub(crate) fn read(&mut self, file: u32, page: u64, to: &mut [u8], wanted: &mut u32) -> i32
        ensures order { IfNone self.old.volume
            ((result ≡ order_code) × (to.new ≡ to.old) × (wanted.new ≡ wanted.old) × (self.new ≡ self.old)) }
        ensures open { is_some self.new.volume ≡ is_some self.old.volume }
        ensures disk { self.new.disk ≡ self.old.disk }
        ensures answers { IfSome self.old.volume (λ v. IfSome self.new.volume
            (AnswersRead v (page_numbered file page) to.old to.new result wanted.old wanted.new)) }
    {
        let Some(volume) = &mut self.volume else {
            return ORDER;
        };
        read_page(volume, page_numbered(file, page), to, wanted)
    }

    /// Writes a page of a file.
    pub(crate) fn write(&mut self, file: u32, page: u64, bytes: &[u8]) -> i32
        ensures order { IfNone self.old.volume ((result ≡ order_code) × (self.new ≡ self.old)) }
        ensures open { is_some self.new.volume ≡ is_some self.old.volume }
        ensures disk { self.new.disk ≡ self.old.disk }
        ensures answers { IfSome self.old.volume (λ v. IfSome self.new.volume
            (AnswersWrite v (page_numbered file page) bytes.now result)) }
    {
        let Some(volume) = &mut self.volume else {
            return ORDER;
        };
        write_page(volume, page_numbered(file, page), bytes)
    }

    /// Makes a commit. In a volume with a log it may want a block; the steps that were made remain.
    pub(crate) fn commit(&mut self, mark: &mut u32, wanted: &mut u32) -> i32
        ensures order { IfNone self.old.volume ((result ≡ order_code) × (mark.new ≡ mark.old)
            × (wanted.new ≡ wanted.old) × (self.new ≡ self.old)) }
        ensures open { is_some self.new.volume ≡ is_some self.old.volume }
        ensures disk { self.new.disk ≡ self.old.disk }
        ensures answers { IfSome self.old.volume (λ v. IfSome self.new.volume
            (AnswersCommit v result mark.old mark.new wanted.old wanted.new)) }
        ensures carried { option_map (λ v. carried_moment (disk_of v)) self.new.volume
            ≡ option_map (λ v. carried_moment (disk_of v)) self.old.volume }
    {
        let Some(volume) = &mut self.volume else {
            return ORDER;
        };
        make_commit(volume, mark, wanted)
    }

    /// Makes further steps of earlier commits. In a volume with a log it may want a block; the steps that were made
    /// remain.
    pub(crate) fn write_out(&mut self, most: u32, wanted: &mut u32) -> i32
        ensures order { IfNone self.old.volume
            ((result ≡ order_code) × (wanted.new ≡ wanted.old) × (self.new ≡ self.old)) }
        ensures open { is_some self.new.volume ≡ is_some self.old.volume }
        ensures disk { self.new.disk ≡ self.old.disk }
        ensures answers { IfSome self.old.volume (λ v. IfSome self.new.volume
            (AnswersWriteOut most v result wanted.old wanted.new)) }
        ensures carried { option_map (λ v. carried_moment (disk_of v)) self.new.volume
            ≡ option_map (λ v. carried_moment (disk_of v)) self.old.volume }
    {
        let Some(volume) = &mut self.volume else {
            return ORDER;
        };
        make_steps(volume, most, wanted)
    }

    /// Sets the length of a file.
    pub(crate) fn set_length(&mut self, file: u32, length: u64, wanted: &mut u32) -> i32
        ensures order { IfNone self.old.volume
            ((result ≡ order_code) × (wanted.new ≡ wanted.old) × (self.new ≡ self.old)) }
        ensures open { is_some self.new.volume ≡ is_some self.old.volume }
        ensures disk { self.new.disk ≡ self.old.disk }
        ensures answers { IfSome self.old.volume (λ v. IfSome self.new.volume
            (AnswersSetLength v (min file (2 ^ 16 - 1)) length result wanted.old wanted.new)) }
    {
        let Some(volume) = &mut self.volume else {
            return ORDER;
        };
        change_length(volume, file.min(0xFFFF) as u16, length, wanted)
    }
}
