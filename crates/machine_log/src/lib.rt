//! The simulated machine over a volume with a log: a disk that shows the machine a volume with journals, and the run.
#![tactic(auto)]

mod calls;
mod committing;
mod disk;
mod laws;
mod opened;
mod opening;
mod parts;
mod past;
mod running;
mod serving;
mod shown;
mod writing;

pub use disk::LogDisk;
pub use opened::OpenJournal;
pub use running::run;
pub use shown::ShownVolume;
