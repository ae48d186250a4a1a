// Why bytes aren't the descriptor of a commit.

/// The rule that bytes break, so that they aren't the descriptor of a commit with the wanted number.
#[derive(Clone, Copy, PartialEq, Eq, Debug)]
pub enum Broken {
    /// There is less than a block, or not the number of blocks that the number of records needs.
    Length,
    /// The commit has another number, or no commit may have the wanted number.
    Number,
    /// There is no record, there are more than 65,535, or there are more than the log has room for.
    Count,
    /// One of the twelve bytes after the number of records isn't zero.
    Reserved,
    /// A byte after the last home block isn't zero.
    Padding,
    /// The home blocks don't rise strictly, or one is no home block of the volume.
    Homes,
    /// There was no memory. The bytes follow the other rules.
    OutOfMemory,
}
