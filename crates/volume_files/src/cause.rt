// The causes why a volume is refused, if they can be determined: what was found, and what is allowed.
ghost use Rattle.std.specs.Prelude.{◌≡◌, ◌≢◌, ◌+◌, ◌⊎◌, true, false, take, codes};
ghost use Rattle.volume_codec.specs.Layout.{lengths_blocks, max_slots as most_slots};
ghost use Rattle.recovery.specs.Reading.{IsOnlyRead};

use device::Device;
use log_volume::read_log_super;
use page_entry::{PAGE, Refusal};
use recovery::reading::read;
use std::alloc::Allocator;
use std::fmt;
use thiserror::Error;
use volume_codec::{FileSpec, Layout, read_super};

/// A refusal, and its cause if it could be determined. Its text is the refusal's word, followed by the cause.
#[derive(Clone, Copy, Debug)]
pub struct Refused<'a> {
    pub refusal: Refusal,
    pub cause: Option<Cause<'a>>,
}

impl fmt::Display for Refused<'_> {
    fn fmt<W: fmt::Write>(&self, f: &mut fmt::Formatter<W>) -> fmt::Result {
        match &self.cause {
            Some(cause) => write!(f, "{}: {cause}", self.refusal),
            None => write!(f, "{}", self.refusal),
        }
    }
}

/// What was found, and what is allowed. Its `Debug` form is its text.
#[derive(Clone, Copy, Error)]
pub enum Cause<'a> {
    #[error("LAYOUT is {0}, but must be 1 to 6")]
    Layout(u64),
    #[error("LAYOUT is {0}, but must be 3 to 6")]
    NewLayout(u64),
    #[error("LAYOUT is {found}, but must be at least {old}, the old volume's layout")]
    LowerLayout {
        found: u64,
        old: u64,
    },
    #[error("SLOTS is {found}, but must be {least} to {most}")]
    Slots {
        found: u64,
        least: u64,
        most: u64,
    },
    #[error("BLOCKS is {0}, but must be 4 to 16777216")]
    Blocks(u64),
    #[error("a volume must have 1 to 64 files, not {0}")]
    FileCount(usize),
    #[error("the name {0:?} isn't 1 to 32 characters from ! to ~")]
    Name(&'a str),
    #[error("two files have the name {0:?}")]
    SameName(&'a str),
    #[error("the length of {0:?} is 0, but must be at least 1")]
    NoLength(&'a str),
    #[error("the capacity of {0:?} is 0, but must be at least 1")]
    NoCapacity(&'a str),
    #[error("the length of {name:?} is {length}, which exceeds its capacity {capacity}")]
    TooLong {
        name: &'a str,
        length: u64,
        capacity: u64,
    },
    #[error("the volume would have more than 4294967295 blocks")]
    TooManyBlocks,
    #[error("the file has {0} bytes, but a volume has at least 4096")]
    TooShort(u64),
    #[error("the file doesn't begin with FAMSYNC1, FAMSYNC2, FAMSYNC3 or FAMSYNC4")]
    Magic,
    #[error("the file doesn't begin with FAMSYNC1, FAMSYNC2, FAMSYNC3, FAMSYNC4, FAMSYNC5 or FAMSYNC6")]
    AnyMagic,
    #[error("the volume is in layout 5 or 6, which this command doesn't accept")]
    HasLog,
    #[error("the super block is invalid")]
    SuperBlock,
    #[error("the file has {found} bytes, but its super block requires {wanted}")]
    CutOff {
        found: u64,
        wanted: u64,
    },
    #[error("the descriptor of an open journal is invalid, or two journals have the same mark")]
    Journal,
    #[error("the descriptor of an open journal or the lengths block is invalid, or two journals have the same mark")]
    JournalOrLengths,
    #[error("the log or the lengths block is invalid")]
    LogOrLengths,
    #[error("a read, a write or a sync of the file failed")]
    Call,
}

impl fmt::Debug for Cause<'_> {
    fn fmt<W: fmt::Write>(&self, f: &mut fmt::Formatter<W>) -> fmt::Result {
        fmt::Display::fmt(self, f)
    }
}

impl<'a> Refused<'a> {
    // Returns why no volume is made. If the shape is refused, `shape` is what is outside the limits.
    fn to_make(refusal: Refusal, shape: Cause<'a>) -> Self {
        let cause = match refusal {
            Refusal::BadShape => Some(shape),
            Refusal::Device => Some(Cause::Call),
            _ => None,
        };
        Refused { refusal, cause }
    }
}

/// Returns why no volume is made of these files.
pub fn refused_to_format<'a>(
    refusal: Refusal,
    layout: u64,
    files: &[FileSpec<'a>],
    slots: u64,
) -> Refused<'a> {
    Refused::to_make(refusal, cause_in_files(layout, files, slots))
}

/// Returns why no volume with a log of `ring` blocks is made of these files.
pub fn refused_to_format_log<'a>(
    refusal: Refusal,
    files: &[FileSpec<'a>],
    ring: u64,
) -> Refused<'a> {
    Refused::to_make(refusal, cause_in_log(files, ring))
}

// Returns what is outside the limits of volumes with a log.
fn cause_in_log<'a>(files: &[FileSpec<'a>], ring: u64) -> Cause<'a> {
    if !(4..=1 << 24).contains(&ring) {
        return Cause::Blocks(ring);
    }
    cause_in_list(true, files)
}

/// Returns why the files of a volume in one layout aren't migrated to the layout of this number, with this number of
/// slots.
pub fn refused_to_migrate<'a>(
    refusal: Refusal,
    old: Layout,
    layout: u64,
    slots: u64,
) -> Refused<'a> {
    Refused::to_make(refusal, cause_in_migration(old, layout, slots))
}

// Returns what is outside the limits of a migration from a layout.
fn cause_in_migration<'a>(old: Layout, layout: u64, slots: u64) -> Cause<'a> {
    match Layout::from_number(layout) {
        Some(new) if new.lengths_blocks() > 0 => {
            if layout < old.number() {
                return Cause::LowerLayout {
                    found: layout,
                    old: old.number(),
                };
            }
            cause_in_slots(new, slots).unwrap_or(Cause::TooManyBlocks)
        }
        _ => Cause::NewLayout(layout),
    }
}

// Returns the smallest and the largest number of record slots of each journal in a layout. A batch may contain the
// lengths in addition to a page.
fn slots_of(layout: Layout) -> (u64, u64)
    ensures { result ≡ (lengths_blocks layout + 1, most_slots layout) }
{
    (
        u64::from(layout.lengths_blocks()) + 1,
        u64::from(layout.max_slots()),
    )
}

// Returns what is outside the limits, if each journal of a layout is to have this number of record slots.
fn cause_in_slots<'a>(layout: Layout, slots: u64) -> Option<Cause<'a>> {
    let (least, most) = slots_of(layout);
    if (least..=most).contains(&slots) {
        return None;
    }
    Some(Cause::Slots {
        found: slots,
        least,
        most,
    })
}

// Returns what is outside the limits of volumes.
fn cause_in_files<'a>(layout: u64, files: &[FileSpec<'a>], slots: u64) -> Cause<'a> {
    let Some(layout) = Layout::from_number(layout) else {
        return Cause::Layout(layout);
    };
    if let Some(cause) = cause_in_slots(layout, slots) {
        return cause;
    }
    cause_in_list(layout.lengths_blocks() > 0, files)
}

// Returns what is outside the limits of files, which may grow or not.
fn cause_in_list<'a>(grows: bool, files: &[FileSpec<'a>]) -> Cause<'a> {
    if !(1..=64).contains(&files.len()) {
        return Cause::FileCount(files.len());
    }
    for (i, file) in files.iter().enumerate() {
        if !is_name(file.name) {
            return Cause::Name(file.name);
        }
        if files[..i].iter().any(|other| other.name == file.name) {
            return Cause::SameName(file.name);
        }
        if let Some(cause) = cause_in_extent(grows, file) {
            return cause;
        }
    }
    Cause::TooManyBlocks
}

// Returns what is outside the limits of a file's length and capacity.
fn cause_in_extent<'a>(grows: bool, file: &FileSpec<'a>) -> Option<Cause<'a>> {
    let name = file.name;
    let length = file.length;
    let capacity = file.capacity;
    if capacity == 0 && grows {
        Some(Cause::NoCapacity(name))
    } else if capacity == 0 {
        Some(Cause::NoLength(name))
    } else if length > capacity {
        Some(Cause::TooLong {
            name,
            length,
            capacity,
        })
    } else {
        None
    }
}

// Whether a file of a volume may have this name.
fn is_name(name: &str) -> bool {
    (1..=32).contains(&name.len()) && name.bytes().all(|letter| (0x21..=0x7E).contains(&letter))
}

/// Returns why the volume of a device isn't opened. The device is only read.
pub fn refused_to_open<'a, D: Device, A: Allocator + Copy>(
    alloc: A,
    refusal: Refusal,
    device: &mut D,
) -> Refused<'a>
    ensures refusal { result.refusal ≡ refusal }
    ensures still { refusal ≡ Refusal.Device → device.new ≡ device.old }
    ensures read { IsOnlyRead D.Device device.old device.new }
{
    let cause = cause_in_bytes(alloc, refusal, device);
    Refused { refusal, cause }
}

// Returns what breaks the format of volumes on a device.
fn cause_in_bytes<D: Device, A: Allocator + Copy>(
    alloc: A,
    refusal: Refusal,
    device: &mut D,
) -> Option<Cause<'static>>
    ensures still { refusal ≡ Refusal.Device → device.new ≡ device.old }
    ensures read { IsOnlyRead D.Device device.old device.new }
{
    let found = device.len();
    match refusal {
        Refusal::NotAVolume if found < PAGE => Some(Cause::TooShort(found)),
        Refusal::NotAVolume => Some(cause_of_magic(device)),
        Refusal::Damaged => cause_of_damage(alloc, found, &first_block(device)?),
        Refusal::Device => Some(Cause::Call),
        _ => None,
    }
}

// Returns what a device contains instead of a volume without a log.
fn cause_of_magic<D: Device>(device: &mut D) -> Cause<'static>
    ensures { IsOnlyRead D.Device device.old device.new }
{
    match first_block(device) {
        Some(block) => {
            if begins_with_log_magic(&block) {
                Cause::HasLog
            } else {
                Cause::Magic
            }
        }
        None => Cause::Magic,
    }
}

// Whether a block begins with the magic of a layout with a log.
pub(crate) fn begins_with_log_magic(block: &[u8; 4096]) -> bool
    ensures yes { result ≡ true → (take 8 block.now ≡ codes "FAMSYNC5") ⊎ (take 8 block.now ≡ codes "FAMSYNC6") }
    ensures no { result ≡ false → (take 8 block.now ≢ codes "FAMSYNC5") × (take 8 block.now ≢ codes "FAMSYNC6") }
{
    let mut magic = [0; 8];
    magic.copy_from_slice(&block[..8]);
    if magic == *b"FAMSYNC5" {
        return true;
    }
    if magic == *b"FAMSYNC6" {
        return true;
    }
    false
}

/// Returns why the volume of a device, with journals or with a log, isn't read. The device is only read.
pub fn refused_to_read<'a, D: Device, A: Allocator + Copy>(
    alloc: A,
    refusal: Refusal,
    device: &mut D,
) -> Refused<'a>
    ensures refusal { result.refusal ≡ refusal }
    ensures still { refusal ≡ Refusal.Device → device.new ≡ device.old }
    ensures read { IsOnlyRead D.Device device.old device.new }
{
    let cause = cause_in_any_bytes(alloc, refusal, device);
    Refused { refusal, cause }
}

// Returns what breaks the format of volumes with journals or with a log on a device.
fn cause_in_any_bytes<D: Device, A: Allocator + Copy>(
    alloc: A,
    refusal: Refusal,
    device: &mut D,
) -> Option<Cause<'static>>
    ensures still { refusal ≡ Refusal.Device → device.new ≡ device.old }
    ensures read { IsOnlyRead D.Device device.old device.new }
{
    let found = device.len();
    match refusal {
        Refusal::NotAVolume if found < PAGE => Some(Cause::TooShort(found)),
        Refusal::NotAVolume => Some(Cause::AnyMagic),
        Refusal::Damaged => cause_of_any_damage(alloc, found, &first_block(device)?),
        Refusal::Device => Some(Cause::Call),
        _ => None,
    }
}

// Returns what is damaged on a device of this length with this super block, with journals or with a log.
fn cause_of_any_damage<A: Allocator + Copy>(
    alloc: A,
    found: u64,
    block: &[u8; 4096],
) -> Option<Cause<'static>> {
    if begins_with_log_magic(block) {
        cause_of_log_damage(alloc, found, block)
    } else {
        cause_of_damage(alloc, found, block)
    }
}

// Returns what is damaged on a device of this length with this super block of a volume with a log.
fn cause_of_log_damage<A: Allocator + Copy>(
    alloc: A,
    found: u64,
    block: &[u8; 4096],
) -> Option<Cause<'static>> {
    match read_log_super(alloc, block) {
        Ok(table) => {
            let wanted = PAGE * u64::from(table.log().block_count());
            if found < wanted {
                Some(Cause::CutOff { found, wanted })
            } else {
                Some(Cause::LogOrLengths)
            }
        }
        Err(Refusal::OutOfMemory) => None,
        Err(_) => Some(Cause::SuperBlock),
    }
}

// Returns what is damaged on a device of this length with this super block.
fn cause_of_damage<A: Allocator + Copy>(
    alloc: A,
    found: u64,
    block: &[u8; 4096],
) -> Option<Cause<'static>> {
    match read_super(alloc, block) {
        Ok(table) => {
            let wanted = PAGE * u64::from(table.block_count());
            if found < wanted {
                Some(Cause::CutOff { found, wanted })
            } else if table.geometry().layout().lengths_blocks() == 0 {
                Some(Cause::Journal)
            } else {
                Some(Cause::JournalOrLengths)
            }
        }
        Err(Refusal::OutOfMemory) => None,
        Err(_) => Some(Cause::SuperBlock),
    }
}

/// Returns the first block of a device, if it can be read.
pub fn first_block<D: Device>(device: &mut D) -> Option<[u8; 4096]>
    ensures { IsOnlyRead D.Device device.old device.new }
{
    if device.len() < PAGE {
        return None;
    }
    let mut block = [0; PAGE as usize];
    read(device, 0, &mut block).ok()?;
    Some(block)
}
