//! A machine: processors with TLBs over address spaces, frames and a volume. Each step has one reply.
#![tactic(auto)]

mod access;
mod act;
mod at_once;
mod beginning;
mod booting;
mod changing;
mod faults;
mod few_bytes;
mod flushing;
mod freshness;
mod laws;
mod layers;
mod machine;
mod mapping;
mod marking;
mod msync_flags;
mod paging;
mod running;
mod stepping;
mod switching;

pub use act::{Access, Act, MAX_COPIES, MAX_CPUS, MAX_TLB, Outcome, Reply, Shape, Step};
pub use few_bytes::FewBytes;
pub use laws::{
    calls_of_steps, counts_of_a_write_out, faults_are_served, runs_keep_the_laws, steps_after_steps,
};
pub use machine::Machine;
pub use msync_flags::MsyncFlags;
pub use shootdown::ProcState;
