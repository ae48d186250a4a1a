// A page fault that is to be served.
use mappings::Place;
use page_entry::{PageNumber, Pcid};

/// A page fault at a mapped page, with the facts of its mapping, its file and the machine that serving it needs.
#[derive(Clone, Copy, Debug, PartialEq, Eq)]
pub struct PageFault {
    /// The space of the faulting access.
    pub pcid: Pcid,
    /// The page of that space.
    pub page: PageNumber,
    /// The page of a file to which that page is mapped.
    pub place: Place,
    /// Whether the access was a store.
    pub write: bool,
    /// The offset on the device, in bytes, of the home block of that page of the file.
    pub home: u64,
    /// The file's length in bytes.
    pub length: u64,
    /// Whether the machine is broken. The device isn't read then.
    pub broken: bool,
}
