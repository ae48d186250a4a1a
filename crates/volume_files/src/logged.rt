// Makes a volume with a log, as `format` makes a volume with journals.
ghost use Rattle.std.specs.Prelude.{IfOk, OnOk};
ghost use Rattle.volume_codec.specs.Files.{asked_by};
ghost use Rattle.new_volume.specs.Formatting.{IsZero};
ghost use Rattle.log_format.specs.Formatting.{HasFormattedLog};

use crate::cause::refused_to_format_log;
use crate::failure::FileFailure;
use crate::target::Target;
use crate::volume_file::{off_streams, place};
use device::{Device, FileDisk};
use log_codec::Sealing;
use log_format::log_block_count;
use page_entry::Refusal;
use std::alloc::Allocator;
use std::fs::{File, Files};
use std::io::{self, Read};
use volume_codec::FileSpec;

/// A volume with a log to be made: how it seals its commits, its files, the number of its log's blocks, whether it
/// replaces a file that isn't empty, and whether disk space for its blocks is allocated at once.
#[derive(Clone, Copy)]
pub struct LogPlan<'a, 'b> {
    pub sealing: Sealing,
    pub files: &'b [FileSpec<'a>],
    pub ring: u64,
    pub replace: bool,
    pub preallocate: bool,
}

impl<'a> LogPlan<'a, '_> {
    // Returns why no volume was made.
    fn refused(&self, path: &'a str, refusal: Refusal) -> FileFailure<'a> {
        FileFailure::Disk {
            path,
            cause: refused_to_format_log(refusal, self.files, self.ring),
        }
    }
}

/// The source of random bytes.
const RANDOM: &str = "/dev/urandom";

/// Returns a key for the digests of a log, drawn at random.
pub fn draw_key<'a, R: Files<File = File>>(rt: &R) -> Result<u64, FileFailure<'a>> {
    match random_word(rt) {
        Ok(key) => Ok(key),
        Err(cause) => Err(FileFailure::File {
            path: RANDOM,
            cause,
        }),
    }
}

// Returns 8 random bytes as a number.
fn random_word<R: Files<File = File>>(rt: &R) -> io::Result<u64> {
    let mut bytes = [0; 8];
    let mut file = off_streams(File::open(rt, RANDOM)?)?;
    file.read_exact(&mut bytes)?;
    Ok(u64::from_be_bytes(bytes))
}

/// Makes or replaces the file at a path with the volume of a plan, and returns the number of its blocks. A file that
/// isn't empty is replaced only if the plan says so. The volume is made in another file beside it, as `format` makes
/// one.
pub fn format_log<'a, R: Files<File = File> + AllocGlobal, A: Allocator + Copy>(
    rt: &R,
    alloc: A,
    path: &'a str,
    plan: LogPlan<'a, '_>,
) -> Result<u64, FileFailure<'a>> {
    let blocks = match log_block_count(plan.sealing, plan.files, plan.ring) {
        Ok(blocks) => blocks,
        Err(refusal) => return Err(plan.refused(path, refusal)),
    };
    let place = place(rt, path)?;
    let target = Target {
        rt,
        path,
        place: &place,
    };
    // Both files stay locked until the end.
    let old = target.old_volume()?;
    if !plan.replace {
        target.judge_empty(old.as_ref())?;
    }
    let _file = named_volume(&target, alloc, plan, blocks, old.as_ref())?;
    target.durably_name()?;
    Ok(blocks)
}

// Makes the volume of a plan, which has this number of blocks, in a new file, and gives this file the old one's name.
fn named_volume<'a, R: Files<File = File> + AllocGlobal, A: Allocator + Copy>(
    target: &Target<'a, '_, R>,
    alloc: A,
    plan: LogPlan<'a, '_>,
    blocks: u64,
    old: Option<&File>,
) -> Result<File, FileFailure<'a>> {
    let (new, file) = target.new_volume()?;
    let volume = match target.whole(alloc, blocks, plan.preallocate, old, file) {
        Ok(file) => made_in(target, alloc, plan, file),
        Err(failure) => Err(failure),
    };
    target.named(&new, volume)
}

// Makes the volume in a new file, in which all bytes are 0.
fn made_in<'a, R: Files<File = File> + AllocGlobal, A: Allocator + Copy>(
    target: &Target<'a, '_, R>,
    alloc: A,
    plan: LogPlan<'a, '_>,
    file: File,
) -> Result<File, FileFailure<'a>> {
    let file = target.claimed(alloc, file)?;
    let disk = target.disk(file)?;
    made(alloc, target.path, plan, disk).map(FileDisk::into_file)
}

// Makes the volume on a new device, in which all bytes are 0. It returns the device only if all of the volume is on it.
// So after a failure there is no file that could take a name.
fn made<'a, D: Device + Drop, A: Allocator + Copy>(
    alloc: A,
    path: &'a str,
    plan: LogPlan<'a, '_>,
    mut new: D,
) -> Result<D, FileFailure<'a>>
    ensures { D.is_honest new → IsZero (D.seen new) → IfOk result
        (λ made. HasFormattedLog D.Device plan.entry.sealing (asked_by plan.entry.files.now) plan.entry.ring new made) }
{
    match format_on(alloc, plan, &mut new) {
        Ok(()) => Ok(new),
        Err(refusal) => Err(plan.refused(path, refusal)),
    }
}

// Makes the volume on a device in which all bytes are 0.
fn format_on<D: Device, A: Allocator + Copy>(
    alloc: A,
    plan: LogPlan<'_, '_>,
    new: &mut D,
) -> Result<(), Refusal>
    ensures { D.is_honest new.old → IsZero (D.seen new.old) → OnOk result
        (HasFormattedLog D.Device plan.entry.sealing (asked_by plan.entry.files.now) plan.entry.ring new.old new.new) }
{
    log_format::format_log(alloc, new, plan.sealing, plan.files, plan.ring)
}
