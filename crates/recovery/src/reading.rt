//! The calls with which `open` reads a volume, for callers that only inspect one. No call here writes.
pub use crate::calls::read;
pub use crate::opening::{
    OpenJournal, find_block, find_lengths, opening_calls, read_journal as read_descriptor_of,
    read_open, read_table,
};
