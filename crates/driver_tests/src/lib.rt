//! Tests of programs in threads over disks in memory, with few turns for a wait. Some waits run out, and disks are
//! returned.
#![tactic(auto)]

#[cfg(test)]
mod waits;
