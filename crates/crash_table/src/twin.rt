// A volume with a log, and a volume in layout 4 with the same files.
ghost use Rattle.std.specs.Prelude.{◌≡◌, map, drop, IfOk, IfErr};
ghost use Rattle.device.specs.Memory.{new_disk};
ghost use Rattle.machine_log.specs.Opening.{fitted, shown_bytes};
ghost use Rattle.crash_table.specs.Twins.{IsTwin, HasNoTwin};
ghost use Rattle.crash_table.specs.inside.Shown.{IsShownBy};

use crate::files::Files;
use crate::log_reading::read_files;
use crate::running::{memory_alone, why_refused};
use crash_states::CrashFault;
use device::MemDisk;
use kept_blocks::has_whole_block;
use log_volume::LogSuper;
use machine_log::LogDisk;
use std::alloc::{AllocError, Allocator};
use std::marker::Model;
use volume_codec::Super;

/// A volume with a log, its files, and a volume in layout 4 that has the same files. The second volume shows which
/// files exist at each mark of a run.
#[derive(Drop)]
pub struct Twin<'a, A: Allocator + Copy> {
    image: &'a [u8],
    files: Files<A>,
    shown: Vec<u8, A>,
}

impl<'a, A: Allocator + Copy> Model for Twin<'a, A> {
    ghost use Rattle.std.specs.Prelude.{map};
    ghost use Rattle.crash_table.specs.Twins.{TwinValue, IsTwin};

    ghost Value = { TwinValue };

    ghost view = { λ t. record {
      image = t.image.now;
      files = map (λ v. v.items) t.files.items;
      shown = t.shown.items;
    } };

    ghost invariant = { λ t. IsTwin (record {
      image = t.image.now;
      files = map (λ v. v.items) t.files.items;
      shown = t.shown.items;
    }) };
}

impl<'a, A: Allocator + Copy> Twin<'a, A> {
    /// Reads the volume with a log that has these bytes, and makes the other one. Fails with `Refused` if the volume
    /// can't be opened as a disk in layout 4. Otherwise it can fail only with `Memory`.
    pub fn new(alloc: A, image: &'a [u8]) -> Result<Self, CrashFault>
        ensures made { IfOk result (λ twin. twin.image ≡ image.now) }
        ensures refused { IfErr result (HasNoTwin image.now) }
    {
        let Ok(copy) = copy_of(alloc, image) else {
            return Err(CrashFault::Memory(AllocError));
        };
        match LogDisk::open(alloc, copy) {
            // The volume was opened, so reading its files can fail only for lack of memory.
            Ok(disk) => memory_alone(Twin::shown_by(alloc, image, disk)),
            Err(refused) => Err(why_refused(refused)),
        }
    }

    // Returns the volume with a log that has these bytes, and the volume that its disk shows.
    fn shown_by(alloc: A, image: &'a [u8], disk: LogDisk<MemDisk<A>, A>) -> Result<Self, CrashFault>
        requires { IsShownBy image.now disk }
        ensures { IfOk result (λ twin. twin.image ≡ image.now) }
    {
        let mut copy = copy_of(alloc, image)?;
        let files = read_files(alloc, &mut copy)?;
        let (device, volume, table) = disk.into_parts();
        let shown = shown_of(alloc, &volume, &table, device.bytes())?;
        Ok(Twin {
            image,
            files,
            shown,
        })
    }

    /// Returns the bytes of the volume with a log.
    pub fn image(&self) -> &'a [u8]
        ensures { result.now ≡ self.now.image }
    {
        self.image
    }

    // Returns the bytes of the volume in layout 4.
    pub(crate) fn shown(&self) -> &[u8]
        ensures { result.now ≡ self.now.shown }
    {
        &self.shown
    }

    // Returns the bytes of the files.
    pub(crate) fn files(&self) -> &[Vec<u8, A>]
        ensures bytes { map (λ v. v.items) result.now ≡ self.now.files }
        ensures twin { IsTwin self.now }
    {
        &self.files
    }
}

// Returns a disk in memory with these bytes.
fn copy_of<A: Allocator + Copy>(alloc: A, image: &[u8]) -> Result<MemDisk<A>, AllocError>
    ensures { IfOk result (λ disk. disk ≡ new_disk image.now) }
{
    MemDisk::from_bytes(alloc, Vec::from_slice(alloc, image)?)
}

// Returns the bytes of the volume in layout 4 that shows these bytes.
fn shown_of<A: Allocator + Copy>(
    alloc: A,
    volume: &LogSuper<A>,
    table: &Super<A>,
    bytes: &[u8],
) -> Result<Vec<u8, A>, AllocError>
    ensures { IfOk result (λ shown. shown.items ≡ shown_bytes volume.now table.now bytes.now) }
{
    let first = u64::from(table.geometry().first_home());
    let blocks = u64::from(table.block_count());
    let log = u64::from(volume.log().first_home());
    let homes = behind(bytes, 4096 * log);
    let block = table.to_block();
    has_whole_block(&block);
    let mut shown = fit(alloc, &block, 4096 * first)?;
    let homes = fit(alloc, homes, 4096 * (blocks - first))?;
    shown.extend_from_slice(&homes)?;
    Ok(shown)
}

// Returns the bytes from an offset on.
fn behind(bytes: &[u8], at: u64) -> &[u8]
    ensures { result.now ≡ drop at bytes.now }
{
    if at > bytes.len() as u64 {
        return &[];
    }
    &bytes[at as usize..]
}

// Returns the first `count` bytes, with zeros at the end if there are fewer.
fn fit<A: Allocator + Copy>(alloc: A, bytes: &[u8], count: u64) -> Result<Vec<u8, A>, AllocError>
    ensures { IfOk result (λ fit. fit.items ≡ fitted count bytes.now) }
{
    let mut fit = Vec::from_slice(alloc, bytes)?;
    fit.resize(count as usize, 0)?;
    Ok(fit)
}
