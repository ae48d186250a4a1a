// The recovered volume of a device.
ghost use Rattle.std.specs.Prelude.{◌≡◌, ◌*◌, ◌<◌, ◌≤◌, length, slice_index, IfOk, IfErr};
ghost use Rattle.volume_codec.specs.Super.{Fits, block_count, geometry_of};
ghost use Rattle.volume_codec.specs.Recovery.{IsVolume};
ghost use Rattle.recovery.specs.Counts.{IsAccounted};
ghost use Rattle.recovery.specs.Opening.{RefusesOpening};
ghost use Rattle.recovery.specs.Reading.{AreBatches, IsOnlyRead, batches_of};
ghost use Rattle.volume_reading.specs.Recovered.{IsRecovered, recovered_files};

use crate::found::FoundFiles;
use device::Device;
use page_entry::Refusal;
use recovery::reading::{OpenJournal, find_block, find_lengths, read_open, read_table};
use std::alloc::Allocator;
use std::marker::Model;
use volume_codec::Super;

/// The state to which a device's volume recovers: the table of its files, its open journals, the newest first, and the
/// length of each file. Files are counted from 0, in the table's order.
#[derive(Drop)]
pub struct Recovered<A: Allocator + Copy> {
    table: Super<A>,
    open: Vec<OpenJournal<A>, A>,
    lengths: Vec<u64, A>,
}

impl<A: Allocator + Copy> Model for Recovered<A> {
    ghost use Rattle.recovery.specs.Reading.{batches_of};
    ghost use Rattle.volume_reading.specs.Recovered.{RecoveredState, IsSound};

    ghost Value = { RecoveredState };

    ghost view = { λ v.
        record { table = v.table; batches = batches_of v.open.items; lengths = v.lengths.items } };

    ghost invariant = { λ v.
        IsSound (record { table = v.table; batches = batches_of v.open.items; lengths = v.lengths.items }) };
}

impl<A: Allocator + Copy> Recovered<A> {
    /// Finds the state to which a device's volume recovers. The device is only read.
    ///
    /// Fails as opening the volume does: with `NotAVolume` if the bytes are no volume, with `Damaged` if they are a
    /// damaged volume, and with `Device` if a device call failed.
    pub fn find<D: Device>(alloc: A, device: &mut D) -> Result<Self, Refusal>
        ensures found { D.is_honest device.old → IfOk result (λ volume. IsRecovered volume (D.seen device.old)) }
        ensures long { IfOk result (λ volume. 4096 * block_count volume.table ≤ length (D.seen device.old)) }
        ensures refused { D.is_honest device.old → IfErr result (RefusesOpening (D.seen device.old)) }
        ensures read { IsOnlyRead D.Device device.old device.new }
        ensures kept { IsAccounted D.Device device.old result device.new }
    {
        let (table, open) = find_parts(alloc, device)?;
        let lengths = find_lengths(alloc, device, &table, &open)?;
        Ok(Recovered {
            table,
            open,
            lengths,
        })
    }

    // Returns the length of a file in bytes.
    fn size(&self, file: usize) -> u64
        requires { file < length self.now.table.files }
        ensures { result ≡ slice_index self.now.lengths file }
    {
        self.lengths[file]
    }
}

impl<A: Allocator + Copy> FoundFiles for Recovered<A> {
    ghost is_sound = { λ volume. Unit {0} };

    ghost count = { λ volume. length volume.table.files };

    ghost size = { λ volume file. slice_index volume.lengths file };

    ghost blocks = { λ volume. block_count volume.table };

    ghost is_in = { IsRecovered };

    ghost files = { recovered_files };

    fn file_count(&self) -> usize {
        self.table.file_count()
    }

    fn name(&self, file: usize) -> &str {
        self.table.name(file)
    }

    fn length(&self, file: usize) -> u64 {
        self.size(file)
    }

    fn block_of(&self, file: usize, page: u64) -> u32 {
        let home = self.table.first_home(file) + page as u32;
        find_block(&self.table.geometry(), &self.open, home)
    }
}

// Returns the table of a device's volume, and its open journals, the newest first.
fn find_parts<D: Device, A: Allocator + Copy>(
    alloc: A,
    device: &mut D,
) -> Result<(Super<A>, Vec<OpenJournal<A>, A>), Refusal>
    ensures volume { D.is_honest device.old
        → IfOk result (λ parts. IsVolume parts.0 (batches_of parts.1.items) (D.seen device.old)) }
    ensures fits { IfOk result (λ parts. Fits parts.0) }
    ensures batches { IfOk result (λ parts. AreBatches (geometry_of parts.0) (batches_of parts.1.items)) }
    ensures long { IfOk result (λ parts. 4096 * block_count parts.0 ≤ length (D.seen device.old)) }
    ensures refused { D.is_honest device.old → IfErr result (RefusesOpening (D.seen device.old)) }
    ensures read { IsOnlyRead D.Device device.old device.new }
    ensures kept { IsAccounted D.Device device.old result device.new }
{
    let table = read_table(alloc, device)?;
    let open = read_open(alloc, device, &table.geometry())?;
    Ok((table, open))
}
