//! The journal of a volume: a redo log (Park, Kelly and Shen 2013, failure-atomic msync). The blocks of a batch are
//! first written to record slots, then committed together by one byte, and then written home. Contracts describe what a
//! crash leaves by the contents to which the volume's bytes recover.
#![tactic(auto)]

mod batch_of_blocks;
mod copying;
mod finishing;
mod flush;
mod flushed;
mod gate;
mod laws;
mod queued;
mod sharing;
mod stage;
mod write_outs;

pub use finishing::finish;
pub use flush::Flush;
pub use flushed::Flushed;
pub use laws::{
    a_journal_is_free, a_step_answers_what_it_commits, no_step_makes_a_batch, steps_of_a_write_out,
    torn_gates, two_syncs_a_commit, unread_blocks, what_a_write_out_leaves, what_write_outs_leave,
    whose_step_comes_next, whose_step_comes_next_with_shared_syncs,
};
pub use stage::{Stage, stage_at};
pub use write_outs::WriteOuts;
