// A volume in any layout.
ghost use Rattle.std.specs.Prelude.{◌*◌, ◌≤◌, length, IfOk, IfErr};
ghost use Rattle.volume_codec.specs.Recovery.{IsNotAVolume};
ghost use Rattle.recovery.specs.Reading.{IsOnlyRead};
ghost use Rattle.volume_reading.specs.Volume.{IsSoundAny, IsAny, RefusesAny, HasCounted, any_count, any_size, any_blocks, any_files};

use crate::found::FoundFiles;
use crate::logged::{LoggedVolume, read_log_volume};
use crate::recovered::Recovered;
use device::Device;
use page_entry::Refusal;
use std::alloc::Allocator;

/// A volume that was found on a device.
#[derive(Drop)]
pub enum AnyVolume<A: Allocator + Copy> {
    /// A volume with journals, in layouts 1 to 4.
    Journals(Recovered<A>),
    /// A volume with a log, in layout 5 or 6.
    Log(LoggedVolume<A>),
}

impl<A: Allocator + Copy> AnyVolume<A> {
    /// Finds the volume on a device, with journals or with a log. The device is only read.
    ///
    /// Fails with:
    ///
    /// - `NotAVolume` if the bytes are no volume of either kind.
    /// - `Damaged` if they are a damaged volume.
    /// - `Device` if a device call failed.
    /// - `OutOfMemory` if memory can't be allocated. It may come in place of any other result.
    pub fn find<D: Device>(alloc: A, device: &mut D) -> Result<Self, Refusal>
        ensures found { D.is_honest device.old → IfOk result (λ volume. IsAny volume (D.seen device.old)) }
        ensures sound { IfOk result IsSoundAny }
        ensures long { IfOk result (λ volume. 4096 * any_blocks volume ≤ length (D.seen device.old)) }
        ensures refused { D.is_honest device.old → IfErr result (RefusesAny (D.seen device.old)) }
        ensures read { IsOnlyRead D.Device device.old device.new }
        ensures counted { HasCounted (D.faults_met device.old) (D.faults_met device.new) result }
    {
        match Recovered::find(alloc, device) {
            Ok(volume) => Ok(AnyVolume::Journals(volume)),
            Err(Refusal::NotAVolume) => find_log(alloc, device),
            Err(refusal) => Err(refusal),
        }
    }
}

// Finds a volume with a log on a device that contains no volume with journals.
fn find_log<D: Device, A: Allocator + Copy>(
    alloc: A,
    device: &mut D,
) -> Result<AnyVolume<A>, Refusal>
    requires other { D.is_honest device.old → IsNotAVolume (D.seen device.old) }
    ensures found { D.is_honest device.old → IfOk result (λ volume. IsAny volume (D.seen device.old)) }
    ensures sound { IfOk result IsSoundAny }
    ensures long { IfOk result (λ volume. 4096 * any_blocks volume ≤ length (D.seen device.old)) }
    ensures refused { D.is_honest device.old → IfErr result (RefusesAny (D.seen device.old)) }
    ensures read { IsOnlyRead D.Device device.old device.new }
    ensures counted { HasCounted (D.faults_met device.old) (D.faults_met device.new) result }
{
    match read_log_volume(alloc, device) {
        Ok(volume) => Ok(AnyVolume::Log(volume)),
        Err(refusal) => Err(refusal),
    }
}

impl<A: Allocator + Copy> FoundFiles for AnyVolume<A> {
    ghost is_sound = { λ volume. IsSoundAny volume };

    ghost count = { λ volume. any_count volume };

    ghost size = { λ volume file. any_size volume file };

    ghost blocks = { λ volume. any_blocks volume };

    ghost is_in = { λ volume bytes. IsAny volume bytes };

    ghost files = { λ volume bytes. any_files volume bytes };

    fn file_count(&self) -> usize {
        match self {
            AnyVolume::Journals(volume) => volume.file_count(),
            AnyVolume::Log(volume) => volume.file_count(),
        }
    }

    fn name(&self, file: usize) -> &str {
        match self {
            AnyVolume::Journals(volume) => volume.name(file),
            AnyVolume::Log(volume) => volume.name(file),
        }
    }

    fn length(&self, file: usize) -> u64 {
        match self {
            AnyVolume::Journals(volume) => volume.length(file),
            AnyVolume::Log(volume) => volume.length(file),
        }
    }

    fn block_of(&self, file: usize, page: u64) -> u32 {
        match self {
            AnyVolume::Journals(volume) => volume.block_of(file, page),
            AnyVolume::Log(volume) => volume.block_of(file, page),
        }
    }
}
