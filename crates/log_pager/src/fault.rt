// The reasons for which a call of a pager fails.
use log_store::StoreFault;

/// The reason for which a call fails.
#[derive(Clone, Copy, PartialEq, Eq, Debug)]
pub enum PagerFault {
    /// The next commit can't take another block.
    Full,
    /// The device is shorter than the volume.
    Short,
    /// The store failed, for this reason.
    Store(StoreFault),
}
