// The properties of an open volume that a C program can ask for.
ghost use Rattle.std.specs.Prelude.{◌≡◌, ℕ, ◌-◌, ◌^◌, min, pos, unwrap_or, IfSome, IfNone};
ghost use Rattle.famsync_core.specs.Codes.{order_code};
ghost use Rattle.famsync_core.specs.Held.{page_numbered};
ghost use Rattle.famsync_core.specs.Told.{AnswersFile, AnswersLog, AnswersName, told, files_told, frames_told, head_told};
ghost use Rattle.famsync_core.specs.Told.{shares_told, acknowledged_told, staged_told, is_staged_told, unwritten_told};

use crate::codes::{ARGUMENT, NONE, OK, ORDER};
use crate::requests::page_numbered;
use crate::state::State;
use crate::volume::OpenVolume;
use device::put;

/// Returns a count as a C integer, at most 2^63 - 1.
pub(crate) fn number_of(count: u64) -> i64
    ensures { result ≡ pos (min count (2 ^ 63 - 1)) }
{
    i64::try_from(count).unwrap_or(i64::MAX)
}

// Returns a mark as a C integer, 0 if there is none.
fn mark_of(mark: Option<u32>) -> i64
    ensures { result ≡ pos (unwrap_or mark 0) }
{
    match mark {
        Some(mark) => i64::from(mark),
        None => 0,
    }
}

// Stores the length of a file, and the number of pages that it can have.
fn tell_file(volume: &OpenVolume, file: u32, length: &mut u64, pages: &mut u64) -> i32
    ensures { AnswersFile volume.now file result length.old length.new pages.old pages.new }
{
    let table = volume.table();
    let place = file as usize;
    if place >= table.file_count() {
        return ARGUMENT;
    }
    *length = volume.lengths()[place];
    *pages = u64::from(table.pages(place));
    OK
}

// Copies the name of a file to `to`, if `to` has room, and returns its length.
fn tell_name(volume: &OpenVolume, file: u32, to: &mut [u8]) -> i64
    ensures { AnswersName volume.now file result to.old to.new }
{
    let table = volume.table();
    let place = file as usize;
    if place >= table.file_count() {
        return i64::from(ARGUMENT);
    }
    let name = table.name(place).as_bytes();
    if name.len() > to.len() {
        return i64::from(ARGUMENT);
    }
    put(to, 0, name);
    number_of(name.len() as u64)
}

// Stores a log's numbers of blocks, of blocks in use, and of commits.
fn tell_log(volume: &OpenVolume, blocks: &mut u64, used: &mut u64, commits: &mut u64) -> i32
    ensures { AnswersLog volume.now result blocks.old blocks.new used.old used.new commits.old commits.new }
{
    match volume {
        OpenVolume::Journals(_) => NONE,
        OpenVolume::Log(volume) => {
            *blocks = u64::from(volume.ring());
            *used = u64::from(volume.used());
            *commits = volume.commits();
            OK
        }
    }
}

impl State {
    /// Returns the number of files of the volume.
    pub(crate) fn files(&self) -> i64
        ensures { result ≡ told files_told self.now }
    {
        match &self.volume {
            Some(volume) => number_of(volume.table().file_count() as u64),
            None => i64::from(ORDER),
        }
    }

    /// Returns the largest number of pages that a commit can have.
    pub(crate) fn frames(&self) -> i64
        ensures { result ≡ told frames_told self.now }
    {
        match &self.volume {
            Some(OpenVolume::Journals(volume)) => i64::from(volume.pager().most()),
            Some(OpenVolume::Log(volume)) => i64::from(volume.files().most()),
            None => i64::from(ORDER),
        }
    }

    /// Returns the number of blocks before those of the first file.
    pub(crate) fn head(&self) -> i64
        ensures { result ≡ told head_told self.now }
    {
        match &self.volume {
            Some(OpenVolume::Journals(volume)) => {
                i64::from(volume.pager().table().geometry().first_file_home())
            }
            Some(OpenVolume::Log(volume)) => {
                i64::from(volume.files().table().log().first_file_home())
            }
            None => i64::from(ORDER),
        }
    }

    /// Whether commits share their syncs.
    pub(crate) fn shares_syncs(&self) -> i32
        ensures { result ≡ told shares_told self.now }
    {
        match &self.volume {
            Some(OpenVolume::Journals(volume)) => {
                i32::from(volume.pager().table().geometry().journals() == 4)
            }
            Some(OpenVolume::Log(_)) => 1,
            None => ORDER,
        }
    }

    /// Stores the length of a file, and the number of pages that it can have.
    pub(crate) fn file(&self, file: u32, length: &mut u64, pages: &mut u64) -> i32
        ensures order { IfNone self.now.volume
            ((result ≡ order_code) × (length.new ≡ length.old) × (pages.new ≡ pages.old)) }
        ensures answers { IfSome self.now.volume (λ v.
            AnswersFile v file result length.old length.new pages.old pages.new) }
    {
        match &self.volume {
            Some(volume) => tell_file(volume, file, length, pages),
            None => ORDER,
        }
    }

    /// Copies the name of a file to `to`, and returns its length.
    pub(crate) fn file_name(&self, file: u32, to: &mut [u8]) -> i64
        ensures order { IfNone self.now.volume ((result ≡ order_code) × (to.new ≡ to.old)) }
        ensures answers { IfSome self.now.volume (λ v. AnswersName v file result to.old to.new) }
    {
        match &self.volume {
            Some(volume) => tell_name(volume, file, to),
            None => i64::from(ORDER),
        }
    }

    /// Returns the last acknowledged mark, or 0 if there is none.
    pub(crate) fn acknowledged(&self) -> i64
        ensures { result ≡ told acknowledged_told self.now }
    {
        match &self.volume {
            Some(OpenVolume::Journals(volume)) => mark_of(volume.acknowledged()),
            Some(OpenVolume::Log(volume)) => mark_of(volume.acknowledged()),
            None => i64::from(ORDER),
        }
    }

    /// Returns the number of pages that the next commit takes.
    pub(crate) fn staged(&self) -> i64
        ensures { result ≡ told staged_told self.now }
    {
        match &self.volume {
            Some(OpenVolume::Journals(volume)) => number_of(volume.pager().staged_pages() as u64),
            Some(OpenVolume::Log(volume)) => number_of(volume.files().staged_pages() as u64),
            None => i64::from(ORDER),
        }
    }

    /// Whether the next commit takes a page.
    pub(crate) fn is_staged(&self, file: u32, page: u64) -> i32
        ensures { result ≡ told (is_staged_told (page_numbered file page)) self.now }
    {
        let page = page_numbered(file, page);
        match &self.volume {
            Some(OpenVolume::Journals(volume)) => i32::from(volume.pager().is_staged(page)),
            Some(OpenVolume::Log(volume)) => i32::from(volume.files().is_staged(page)),
            None => ORDER,
        }
    }

    /// Returns the number of pages that commits still have to write home. For a log, returns the number of its blocks
    /// in use.
    pub(crate) fn unwritten(&self) -> i64
        ensures { result ≡ told unwritten_told self.now }
    {
        match &self.volume {
            Some(OpenVolume::Journals(volume)) => number_of(volume.pager().unwritten() as u64),
            Some(OpenVolume::Log(volume)) => i64::from(volume.unwritten()),
            None => i64::from(ORDER),
        }
    }

    /// Stores a log's numbers of blocks, of blocks in use, and of commits.
    pub(crate) fn log(&self, blocks: &mut u64, used: &mut u64, commits: &mut u64) -> i32
        ensures order { IfNone self.now.volume ((result ≡ order_code) × (blocks.new ≡ blocks.old)
            × (used.new ≡ used.old) × (commits.new ≡ commits.old)) }
        ensures answers { IfSome self.now.volume (λ v.
            AnswersLog v result blocks.old blocks.new used.old used.new commits.old commits.new) }
    {
        match &self.volume {
            Some(volume) => tell_log(volume, blocks, used, commits),
            None => ORDER,
        }
    }
}
