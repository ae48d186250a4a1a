//! A disk that records its writes and syncs for a host to make. It makes no system call itself.
#![tactic(auto)]

mod blocks;
mod deferred;
mod past;
mod run;
mod waiting;

pub use deferred::{DeferredCall, DeferredDisk};
