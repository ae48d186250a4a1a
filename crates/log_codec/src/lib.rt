//! The bytes of a volume's log: where its parts are, its two starts, and its commits, each sealed by one byte or by a
//! digest.
#![tactic(auto)]

mod block;
mod broken;
mod descriptor;
mod laws;
mod log;
mod seal;
mod sealing;
mod start;

pub use block::{u32_at, u64_at};
pub use broken::Broken;
pub use descriptor::{decode_count, decode_descriptor, encode_descriptor, rise_within};
pub use laws::{
    broken_bytes, ends_of_log, next_commit, one_log, parts_of_log, recovered_from_log,
    room_of_chain,
};
pub use log::LogGeometry;
pub use seal::{ByteSeal, CommitDigest, open_seal, read_seal};
pub use sealing::Sealing;
pub use start::{LogStart, decode_start, encode_start, is_second, selecting_byte, start_block_of};
