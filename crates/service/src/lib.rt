//! A machine that threads share. It is under one lock, with the trace of its steps, and makes one step at a time. At
//! every moment the trace is a legal run of the machine, from its state after boot. When the service and all processors
//! are gathered, the calls of each processor are exactly its entries of the trace.
//!
//! A call that takes `rt` may wait for another thread. Its contract holds if the call returns.
#![tactic(auto)]

mod entry;
mod gathering;
mod locked;
mod processor;
mod raising;
mod service;
mod shared;
mod starting;

pub use entry::Entry;
pub use locked::Origin;
pub use processor::Cpu;
pub use service::Service;
pub use shared::Shared;
