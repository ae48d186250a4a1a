// An open volume, with journals or with a log.
ghost use Rattle.std.specs.Prelude.{◌≡◌, ◌↔◌, true, false, IsTrue, OnOk, OnErr};
ghost use Rattle.page_entry.specs.declared.refusal.Refusal.TheVariants.{NotAVolume};
ghost use Rattle.deferred_disk.specs.Deferred.{after_forget, carried_moment};
ghost use Rattle.volume_codec.specs.Lengths.{AreLengths};
ghost use Rattle.embedded.specs.declared.reading.Unread.TheVariants.{Refused};
ghost use Rattle.embedded.specs.Supplying.{with_supplied};
ghost use Rattle.famsync_core.specs.Held.{disk_of, file_lengths, may_lose, over_disk, table_in, without_oldest_call};
ghost use Rattle.famsync_core.specs.Opening.{OpensEither};
ghost use Rattle.famsync_core.specs.Requests.{IsRead, IsWritten, IsLengthSet, IsCommitted, IsWrittenHome, bytes_read};

use deferred_disk::DeferredDisk;
use embedded::{Embedded, Unread};
use embedded_log::EmbeddedLog;
use page_entry::{FileNumber, FilePage, Refusal};
use std::alloc::{AllocError, Global};
use volume_codec::Super;

/// An open volume of one of two kinds.
#[derive(Drop)]
pub enum OpenVolume {
    /// A volume of layouts 1 to 4.
    Journals(Embedded<Global>),
    /// A volume of layouts 5 and 6.
    Log(EmbeddedLog<Global>),
}

// Whether a disk has no volume with journals, as this failure reports.
fn is_not_a_volume(why: &Unread) -> bool
    ensures { IsTrue result ↔ (why.now ≡ Refused NotAVolume) }
{
    matches!(why, Unread::Refused(Refusal::NotAVolume))
}

/// Opens the volume of a disk, of either kind. A failure returns the disk.
pub(crate) fn open_volume(
    alloc: Global,
    disk: DeferredDisk<Global>,
    most: u32,
) -> Result<OpenVolume, (Unread, DeferredDisk<Global>)>
    ensures { OpensEither disk most result }
{
    match embedded::open(alloc, disk, most) {
        Ok(volume) => Ok(OpenVolume::Journals(volume)),
        Err((why, disk)) => {
            if !is_not_a_volume(&why) {
                return Err((why, disk));
            }
            match embedded_log::open(alloc, disk, most) {
                Ok(volume) => Ok(OpenVolume::Log(volume)),
                Err(left) => Err(left),
            }
        }
    }
}

impl OpenVolume {
    /// Returns the volume's disk.
    pub(crate) fn disk(&self) -> &DeferredDisk<Global>
        ensures { result.now ≡ disk_of self.now }
    {
        match self {
            OpenVolume::Journals(volume) => volume.pager().device(),
            OpenVolume::Log(volume) => volume.files().device(),
        }
    }

    /// Returns the volume's table of files.
    pub(crate) fn table(&self) -> &Super<Global>
        ensures { result.now ≡ table_in self.now }
    {
        match self {
            OpenVolume::Journals(volume) => volume.pager().table(),
            OpenVolume::Log(volume) => volume.files().table().table(),
        }
    }

    /// Returns the length of each file, in bytes.
    pub(crate) fn lengths(&self) -> &[u64]
        ensures value { result.now ≡ file_lengths self.now }
        ensures each { AreLengths (table_in self.now) (file_lengths self.now) }
    {
        match self {
            OpenVolume::Journals(volume) => volume.pager().lengths(),
            OpenVolume::Log(volume) => volume.files().lengths(),
        }
    }

    /// Supplies the bytes of a block that the host has read. Fails if there is no memory.
    pub(crate) fn supply(&mut self, block: u32, bytes: &[u8; 4096]) -> Result<(), AllocError>
        ensures ok { OnOk result (self.new ≡ over_disk self.old (with_supplied (disk_of self.old) block bytes.now)) }
        ensures err { OnErr result (self.new ≡ self.old) }
    {
        match self {
            OpenVolume::Journals(volume) => volume.supply(block, bytes),
            OpenVolume::Log(volume) => volume.supply(block, bytes),
        }
    }

    /// Forgets a block, if the volume allows it. Returns whether it did.
    pub(crate) fn forget(&mut self, block: u32) -> bool
        ensures result { result ≡ may_lose self.old block }
        ensures forgotten { result ≡ true → self.new ≡ over_disk self.old (after_forget (disk_of self.old) block) }
        ensures kept { result ≡ false → self.new ≡ self.old }
    {
        match self {
            OpenVolume::Journals(volume) => volume.forget(block),
            OpenVolume::Log(volume) => volume.forget(block),
        }
    }

    /// Reports that the host has made the oldest call.
    pub(crate) fn carried_out(&mut self)
        ensures { self.new ≡ without_oldest_call self.old }
    {
        match self {
            OpenVolume::Journals(volume) => volume.carried_out(),
            OpenVolume::Log(volume) => volume.carried_out(),
        }
    }

    /// Reads a page into a block.
    pub(crate) fn read(&mut self, page: FilePage, block: &mut [u8; 4096]) -> Result<(), Unread>
        ensures { IsRead self.old page (bytes_read result block.new) self.new }
    {
        match self {
            OpenVolume::Journals(volume) => volume.read(page, block),
            OpenVolume::Log(volume) => volume.read(page, block),
        }
    }

    /// Writes a page.
    pub(crate) fn write(&mut self, page: FilePage, bytes: &[u8; 4096]) -> Result<(), Refusal>
        ensures { IsWritten self.old page bytes.now result self.new }
    {
        match self {
            OpenVolume::Journals(volume) => volume.put(page, bytes),
            OpenVolume::Log(volume) => volume.put(page, bytes),
        }
    }

    /// Sets the length of a file.
    pub(crate) fn set_length(&mut self, file: FileNumber, length: u64) -> Result<(), Unread>
        ensures { IsLengthSet self.old file length result self.new }
    {
        match self {
            OpenVolume::Journals(volume) => volume.set_length(file, length),
            OpenVolume::Log(volume) => volume.set_length(file, length),
        }
    }

    /// Makes a commit, until the pager acknowledges it. In a log, steps make room for it first.
    pub(crate) fn commit(&mut self) -> Result<u32, Unread>
        ensures made { IsCommitted self.old result self.new }
        ensures carried { carried_moment (disk_of self.new) ≡ carried_moment (disk_of self.old) }
    {
        match self {
            OpenVolume::Journals(volume) => match volume.commit() {
                Ok(mark) => Ok(mark),
                Err(why) => Err(Unread::Refused(why)),
            },
            OpenVolume::Log(volume) => volume.commit(),
        }
    }

    /// Makes further steps of earlier commits. Returns whether one is left.
    pub(crate) fn write_out(&mut self, most: u32) -> Result<bool, Unread>
        ensures made { IsWrittenHome most self.old result self.new }
        ensures carried { carried_moment (disk_of self.new) ≡ carried_moment (disk_of self.old) }
    {
        match self {
            OpenVolume::Journals(volume) => match volume.write_out(most) {
                Ok(left) => Ok(left),
                Err(why) => Err(Unread::Refused(why)),
            },
            OpenVolume::Log(volume) => volume.write_out(most),
        }
    }
}
