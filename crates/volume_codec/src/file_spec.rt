// A file that is requested for a volume.

/// A file that is requested for a volume: its name, its length in bytes, and the number of bytes to which it may grow.
#[derive(Clone, Copy, Debug)]
pub struct FileSpec<'a> {
    /// 1 to 32 printable ASCII characters, none of them a space.
    pub name: &'a str,
    /// In bytes, at most the capacity. In a layout without a lengths block it is the capacity.
    pub length: u64,
    /// In bytes, at least 1.
    pub capacity: u64,
}
