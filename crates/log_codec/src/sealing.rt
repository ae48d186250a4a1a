// The ways in which the commits of a log are sealed.

/// How the commits of a log are sealed, so that a reader recognizes complete commits.
#[derive(Clone, Copy, PartialEq, Eq, Debug)]
pub enum Sealing {
    /// By one byte, which is written after a sync of the commit.
    ByByte,
    /// By a digest of the commit, with the volume's key.
    ByDigest(u64),
}
