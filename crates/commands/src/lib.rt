//! The commands of the program.
#![tactic(auto)]

mod failure;
mod log;
mod looking;
mod making;
mod print;
mod printer;
mod progress;
mod replaying;
mod reply;
mod running;
mod script;
mod scripted;
mod serving;
mod shape;
mod threading;

pub use failure::Failure;
pub use log::show_log;
pub use looking::look;
pub use making::make;
pub use replaying::replay;
pub use reply::is_failure;
pub use running::run;
pub use script::read_script;
pub use serving::serve;
pub use shape::{NotBooted, ShapeCause, refused_to_run};
pub use threading::threads;
