// The results of a write-out's steps.

/// The result of a write-out's step.
#[derive(Clone, Copy, PartialEq, Eq, Debug)]
pub enum Flushed {
    /// The step is done, and more follow.
    Going,
    /// The batch of this mark is committed. From now on the new bytes of its blocks survive a crash.
    Committed(u64),
    /// The write-out of this mark is done. Its blocks are written home, its gate is closed, and both are durable.
    Done(u64),
    /// A device call failed. No further step is made.
    Device,
    /// A device call failed in an earlier step. This step did nothing.
    Broken,
}
