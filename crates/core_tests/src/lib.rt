//! Tests of what no contract states and no test of the program shows: definitions compared with plain programs, one
//! machine that goes on after each refused request, full traces, and calls that only programs over the crates make.
#![tactic(auto)]

#[cfg(test)]
mod acts;
#[cfg(test)]
mod calls;
#[cfg(test)]
mod digests;
#[cfg(test)]
mod disks;
#[cfg(test)]
mod failures;
#[cfg(test)]
mod formats;
#[cfg(test)]
mod loads;
#[cfg(test)]
mod queues;
#[cfg(test)]
mod refusals;
#[cfg(test)]
mod runs;
#[cfg(test)]
mod shapes;
#[cfg(test)]
mod trials;
