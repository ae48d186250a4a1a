//! Opens a volume with a log: writes the records of its commits home, and continues the log behind them.
#![tactic(auto)]

mod epoch;
mod homes;
mod laws;
mod lengths;
mod looking;
mod opening;
mod switching;
mod volume;
mod youngest;

pub use laws::{cut_off_openings, files_of_openings};
pub use lengths::find_lengths;
pub use opening::open_log;
pub use volume::{OpenedLog, open_log_volume, read_first};
