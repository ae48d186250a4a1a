// Why a commit fails.

/// Why a commit isn't made.
#[derive(Clone, Copy, PartialEq, Eq, Debug)]
pub enum CommitFault {
    /// A device call failed before. The volume must be opened again.
    Spent,
    /// No commit of this log may have this number of records.
    Count,
    /// The home blocks don't rise strictly, or one is no home block of the volume.
    Homes,
    /// The size of the room isn't that of the commit and one byte.
    Room,
    /// All commit numbers are used.
    Number,
    /// The log is too full until older commits are written home.
    Busy,
    /// The start can't move past the commits that it is to pass.
    Start,
    /// A device call failed now.
    Device,
}
