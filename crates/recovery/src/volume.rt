// An opened volume and its files.
ghost use Rattle.std.specs.Prelude.{◌≡◌, ◌==◌, ◌+◌, ◌≤◌, ◌<◌, if◌then◌else◌, length, slice_get, slice_index, slice_range, Some, OnOk, IfErr};
ghost use Rattle.volume_codec.specs.Super.{names_in, capacities_in};
ghost use Rattle.recovery.specs.Counts.{Rises, IsAccounted};
ghost use Rattle.recovery.specs.Opening.{IsUnwritten};
ghost use Rattle.recovery.specs.Volume.{IsWellFormed, files_of, bytes_of};

use crate::calls::read;
use device::Device;
use page_entry::{PAGE, Refusal};
use std::alloc::Allocator;
use std::marker::Model;
use volume_codec::{Layout, Super};

/// A volume on a device, as `open` returns it: the table of its files, their lengths, and the device. The gates are
/// closed and the device is synced. Files are counted from 0, in the table's order.
#[derive(Drop)]
pub struct Volume<D: Device, A: Allocator + Copy> {
    table: Super<A>,
    lengths: Vec<u64, A>,
    device: D,
}

impl<D: Device, A: Allocator + Copy> Model for Volume<D, A> {
    ghost use Rattle.recovery.specs.Volume.{VolumeState, IsWellFormed};

    ghost Value = { VolumeState D };

    ghost view = { λ v. record { table = v.table; lengths = v.lengths.items; device = v.device } };

    ghost invariant = { λ v.
        IsWellFormed D.Device (record { table = v.table; lengths = v.lengths.items; device = v.device }) };
}

impl<D: Device, A: Allocator + Copy> Volume<D, A> {
    /// Makes a volume from a device that is ready, its table, and the length of each file in bytes.
    pub(crate) fn new(table: Super<A>, lengths: Vec<u64, A>, device: D) -> Self
        requires { IsWellFormed D.Device (record { table = table; lengths = lengths.items; device = device }) }
        ensures { result ≡ record { table = table; lengths = lengths.items; device = device } }
    {
        Volume {
            table,
            lengths,
            device,
        }
    }

    /// Returns the volume's layout.
    pub fn layout(&self) -> Layout
        ensures { result ≡ self.now.table.layout }
    {
        self.table.layout()
    }

    /// Returns the number of files, 1 to 64.
    pub fn file_count(&self) -> usize
        ensures value { result ≡ length self.now.table.files }
        ensures well_formed { IsWellFormed D.Device self.now }
    {
        self.table.file_count()
    }

    /// Returns the name of a file.
    pub fn name(&self, file: usize) -> &str
        requires { file < length self.now.table.files }
        ensures { slice_get (names_in self.now.table) file ≡ Some result.now }
    {
        self.table.name(file)
    }

    /// Returns the length of a file in bytes.
    pub fn length(&self, file: usize) -> u64
        requires { file < length self.now.table.files }
        ensures { slice_get self.now.lengths file ≡ Some result }
    {
        self.lengths[file]
    }

    /// Returns the length of each file in bytes, in the table's order.
    pub fn lengths(&self) -> &[u64]
        ensures lengths { result.now ≡ self.now.lengths }
        ensures well_formed { IsWellFormed D.Device self.now }
    {
        &self.lengths
    }

    /// Returns the capacity of a file: the largest length in bytes that it can have, at least 1.
    pub fn capacity(&self, file: usize) -> u64
        requires { file < length self.now.table.files }
        ensures { slice_get (capacities_in self.now.table) file ≡ Some result }
    {
        self.table.capacity(file)
    }

    /// Fills the buffer with the bytes of a file from offset `at` on. The range must lie within the file's length.
    /// Makes one device call, or none if the buffer is empty. Fails with `Device` if it fails.
    pub fn read_file(&mut self, file: usize, at: u64, buffer: &mut [u8]) -> Result<(), Refusal>
        requires there { file < length self.old.table.files }
        requires within { at + length buffer.old ≤ slice_index self.old.lengths file }

        ensures bytes { D.is_honest self.old.device → OnOk result (buffer.new
            ≡ slice_range (bytes_of (files_of self.old.table (D.seen self.old.device)) file)
            at (at + length buffer.old)) }

        // Nothing is written, and the volume is unchanged.
        ensures table { self.new.table ≡ self.old.table }
        ensures lengths { self.new.lengths ≡ self.old.lengths }
        ensures unwritten { D.is_honest self.old.device → IsUnwritten D.Device self.old.device self.new.device }

        ensures kept { IsAccounted D.Device self.old.device result self.new.device }
        ensures fault { IfErr result (λ refusal. refusal ≡ Refusal.Device) }
        ensures calls { Rises (if length buffer.old == 0 then 0 else 1)
            (D.calls_made self.old.device) (D.calls_made self.new.device) }
    {
        if buffer.is_empty() {
            return Ok(());
        }
        let home = u64::from(self.table.first_home(file));
        read(&mut self.device, PAGE * home + at, buffer)
    }

    /// Returns the table of the files.
    pub fn table(&self) -> &Super<A>
        ensures table { result.now ≡ self.now.table }
        ensures well_formed { IsWellFormed D.Device self.now }
    {
        &self.table
    }

    /// Returns the device, which contains the volume with its gates closed, all of it synced.
    pub fn into_device(self) -> D
        ensures device { result ≡ self.device }
        ensures well_formed { IsWellFormed D.Device self }
    {
        let (table, device) = self.into_parts();
        drop(table);
        device
    }

    /// Returns the table and the device.
    pub fn into_parts(self) -> (Super<A>, D)
        ensures table { result.0 ≡ self.table }
        ensures device { result.1 ≡ self.device }
        ensures well_formed { IsWellFormed D.Device self }
    {
        let Volume {
            table,
            lengths,
            device,
        } = self;
        drop(lengths);
        (table, device)
    }
}
