// The states of a processor.

/// The state of a processor (Black, Rashid, Golub, Hill and Baron 1989: the initiator of a shootdown and its
/// responders).
#[derive(Clone, Copy, Debug, PartialEq, Eq)]
pub enum ProcState {
    /// It runs.
    Active,
    /// It runs, and a change that touches its space interrupted it: it stalls next.
    Interrupted,
    /// It waits until the change is made.
    Stalled,
    /// It holds the lock, and makes the change once no processor is interrupted.
    Initiating,
    /// It uses no translations until it wakes.
    Idle,
}
