//! Finds what a crash leaves at each device call of a run, over a volume with journals or with a log. The run is made
//! again on copies of the disk in memory, up to that call and into it. Then each crash state is opened, which finds the
//! files at a mark of the run.
#![tactic(auto)]

mod crashed_run;
mod files;
mod first_run;
mod found;
mod log_reading;
mod log_trial;
mod make;
mod row;
mod running;
mod same;
mod trial;
mod twin;

pub use crashed_run::CrashedRun;
pub use files::{Files, are_same, fault_of};
pub use first_run::{FirstRun, steps_before};
pub use log_trial::LogTrial;
pub use make::{not_opened, run_on};
pub use row::Rows;
pub use trial::{Trial, calls_of};
pub use twin::Twin;
