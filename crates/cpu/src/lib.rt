//! Loads and stores of processors through their TLBs and the page tables. A TLB may also fill and evict entries on its
//! own (Intel SDM volume 3, "4-Level Paging", "Caching Translation Information").
#![tactic(auto)]

mod access;
mod at_once;
mod caching;
mod translation;

pub use access::{load, store};
pub use at_once::{load_run, store_run};
pub use caching::{evict, fill};
