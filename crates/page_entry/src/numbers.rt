// The numbers of processors, spaces, pages, frames and files.

/// The number of bytes of a page, a frame and a block: 4 KiB (Intel SDM volume 3, 4-level paging).
pub const PAGE: u64 = 4096;

/// The end of user addresses: 2^47, the first address that isn't canonical (Intel SDM volume 3, 4-level paging).
pub const ADDRESS_END: u64 = 1 << 47;

/// The number of process-context identifiers (Intel SDM volume 3, "Process-Context Identifiers").
pub const PCIDS: u64 = 4096;

/// A processor, counted from 0.
pub type ProcessorNumber = u8;

/// A process-context identifier, 0 to 4,095 (Intel SDM volume 3, "Process-Context Identifiers"). A space's number is
/// its PCID.
pub type Pcid = u16;

/// A page of an address space: a linear address divided by 4,096. User addresses are below 2^47, so pages are below
/// 2^35.
pub type PageNumber = u64;

/// A frame of memory, counted from 0. A page entry has 40 bits for it, of which this uses 32.
pub type FrameNumber = u32;

/// A file, by its place in the volume's table, counted from 0.
pub type FileNumber = u16;

/// The index of a page in its file: an offset divided by 4,096.
pub type PageIndex = u32;

/// A page of a file. Pages are ordered as their home blocks are: by file, then by page index.
#[derive(Clone, Copy, Debug, PartialEq, Eq, PartialOrd, Ord)]
pub struct FilePage {
    pub file: FileNumber,
    pub page: PageIndex,
}
