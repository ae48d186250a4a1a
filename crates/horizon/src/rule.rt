// The rule of the two words: what holds of them between any two steps, and the two kinds of step.
ghost use Rattle.horizon.specs.inside.Rule.{IsKept, Reads, Steps};

use atomic_table::Split;
use crossbeam_utils::atomic::seq_cell::{Pass, RuledSeqCell};
use crossbeam_utils::rule::{Outcome, Protocol};

/// What a holder has seen, and by how much its steps raised each word. No value of this type is made.
pub struct View {
    pub stalled: u64,
    pub committed: u64,
    pub stalled_raised: u64,
    pub committed_raised: u64,
}

/// A step that raises the words. `committed` remains at most `stalled`.
pub struct Rising;

impl Protocol<[u64; 2], View> for Rising {
    ghost holds = { IsKept };

    ghost first = { record { stalled = 0; committed = 0; stalled_raised = 0; committed_raised = 0 } };
}

pub struct Read;

impl Outcome<[u64; 2], View> for Read {
    ghost then = { Reads };
}

pub struct Raise;

impl Outcome<[u64; 2], View> for Raise {
    ghost then = { Steps };
}

/// A step that makes a further holder, which has seen the same as the holder it is made from.
pub struct Same;

impl Split<View> for Same {
    ghost left = { λ v. v };

    ghost right = { λ v. v };
}

pub type Words = RuledSeqCell<[u64; 2], View, Rising, 2>;

pub type Holder = Pass<[u64; 2], View>;
