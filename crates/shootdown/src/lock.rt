// The machine's one lock.
use page_entry::ProcessorNumber;
use spaces::Change;

/// The holder of the lock, and the change for which it is held.
#[derive(Clone, Copy, Debug, PartialEq, Eq)]
pub struct Lock {
    pub holder: ProcessorNumber,
    pub change: Change,
}
