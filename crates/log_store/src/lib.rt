//! The log of a volume in a session: commits, reads of home blocks, and steps by which commits are written home.
#![tactic(auto)]

mod closing;
mod fault;
mod laws;
mod rounds;
mod stage;
mod store;

pub use fault::{Progress, StoreFault};
pub use laws::opened_store;
pub use rounds::rounds_end;
pub use stage::HomeStage;
pub use store::LogStore;
