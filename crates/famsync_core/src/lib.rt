//! An embedded volume for programs in C. It makes no system call, and reports the writes and syncs that it wants.
#![tactic(auto)]

mod answering;
mod codes;
mod exports;
mod handle;
mod host;
mod place;
mod requests;
mod state;
mod told;
mod volume;
