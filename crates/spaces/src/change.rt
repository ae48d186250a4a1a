// The changes of spaces that need a shootdown.
use mappings::{PageRange, Rights};
use page_entry::{FileNumber, FilePage, Pcid};

/// A change of spaces that may make cached entries of processors stale. The processors that may use these entries are
/// stopped before it is made (Black, Rashid, Golub, Hill and Baron 1989).
#[derive(Clone, Copy, Debug, PartialEq, Eq)]
pub enum Change {
    /// The pages of a range of a space become unmapped (`munmap`).
    Unmap {
        pcid: Pcid,
        range: PageRange,
    },
    /// The pages of a range of a space get these rights (`mprotect`).
    Protect {
        pcid: Pcid,
        range: PageRange,
        rights: Rights,
    },
    /// A page of a file leaves memory, and every entry that maps it is removed.
    Reclaim {
        page: FilePage,
    },
    /// The length of a file becomes this many bytes (`ftruncate`). Pages that begin at or past it leave memory, and
    /// every entry that maps one of them is removed.
    SetLength {
        file: FileNumber,
        length: u64,
    },
    /// Dirty pages are gathered, and every entry that maps one of them is write-protected (`msync`).
    Checkpoint,
}
