// How far commits are written home.

/// How far the oldest commits of a log are written home.
#[derive(Clone, Copy, PartialEq, Eq, Debug)]
pub enum HomeStage {
    /// No commits are being written home.
    Resting,
    /// Their home blocks are being copied, one after another.
    Copying,
    /// The start behind them is written, and there was no sync since.
    Written,
    /// The start behind them is durable, and may be selected.
    Sure,
}
