// The files of a volume that was found on a device.
ghost use Rattle.std.specs.Prelude.{◌≡◌, ℕ, ◌-◌, ◌*◌, ◌<◌, List, length, take, slice_get, Some};
ghost use Rattle.volume_codec.specs.Files.{File};
ghost use Rattle.volume_codec.specs.Layout.{block_at};
ghost use Rattle.recovery.specs.Volume.{bytes_of};
ghost use Rattle.volume_reading.specs.Reading.{part_of};

/// A volume that was found on a device, with its recovered files. Files are counted from 0, in the table's order.
pub trait FoundFiles {
    /// The properties of each such volume, even if its device isn't honest.
    ghost is_sound: { Self → Type 0 };

    /// The number of files.
    ghost count: { Self → ℕ };

    /// The length of a file in bytes.
    ghost size: { Self → ℕ → ℕ };

    /// The number of blocks of the volume.
    ghost blocks: { Self → ℕ };

    /// Whether a device with these bytes contains this volume.
    ghost is_in: { Self → List ℕ → Type 0 };

    /// The recovered files, if the device has these bytes.
    ghost files: { Self → List ℕ → List File };

    /// Returns the number of files.
    fn file_count(&self) -> usize
        requires sound { is_sound self.now }
        ensures value { result ≡ count self.now }
        ensures listed { (bytes : List ℕ) → is_in self.now bytes → length (files self.now bytes) ≡ result };

    /// Returns the name of a file.
    fn name(&self, file: usize) -> &str
        requires sound { is_sound self.now }
        requires there { file < count self.now }
        ensures named { (bytes : List ℕ) (f : File) → is_in self.now bytes
            → slice_get (files self.now bytes) file ≡ Some f → f.name ≡ result.now };

    /// Returns the length of a file in bytes.
    fn length(&self, file: usize) -> u64
        requires sound { is_sound self.now }
        requires there { file < count self.now }
        ensures value { result ≡ size self.now file }
        ensures long { (bytes : List ℕ) → is_in self.now bytes
            → length (bytes_of (files self.now bytes) file) ≡ result };

    /// Returns the number of the block that contains the recovered bytes of a page. Past the file's end that block may
    /// have other bytes.
    fn block_of(&self, file: usize, page: u64) -> u32
        requires sound { is_sound self.now }
        requires there { file < count self.now }
        requires within { 4096 * page < size self.now file }
        ensures within { result < blocks self.now }
        ensures page { (bytes : List ℕ) → is_in self.now bytes → part_of (bytes_of (files self.now bytes) file) page
            ≡ take (size self.now file - 4096 * page) (block_at bytes result) };
}
