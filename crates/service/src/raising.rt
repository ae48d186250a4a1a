// The raise of the horizon by the last entry of the trace. It depends on the changes in the trace that no mark contains
// yet.
ghost use Rattle.std.specs.Prelude.{◌≡◌};
ghost use Rattle.service.specs.Marks.{has_unmarked};
ghost use Rattle.service.specs.inside.Raising.{raise_by};

use crate::Entry;
use machine::{Outcome, Reply};

// The raise of the horizon: none, or the number to which `stalled` rises, or the number to which both `stalled` and
// `committed` rise.
#[derive(Clone, Copy)]
pub(crate) enum Raise {
    Nothing,
    Stalled(u64),
    Committed(u64),
}

// Whether these entries contain a store or a change of a length after their last mark, or after their start if there is
// none.
pub(crate) fn has_unmarked(trace: &[Entry]) -> bool
    ensures { result ≡ has_unmarked trace.now }
{
    let mut left = trace.len();
    while left > 0 {
        left -= 1;
        match trace[left].reply.decides() {
            Some(unmarked) => return unmarked,
            None => {}
        }
    }
    false
}

// Returns the raise of the horizon by a reply after these entries.
pub(crate) fn raise_by(before: &[Entry], reply: &Reply) -> Raise
    ensures { result ≡ raise_by (has_unmarked before.now) reply.now }
{
    match reply.outcome() {
        Outcome::Marked(mark) => {
            let mark = u64::from(mark);
            if has_unmarked(before) {
                Raise::Stalled(mark)
            } else {
                Raise::Committed(mark)
            }
        }
        Outcome::Committed(mark) => Raise::Committed(u64::from(mark)),
        Outcome::Unmarked | Outcome::Other | Outcome::Nothing | Outcome::Refused(_) => {
            Raise::Nothing
        }
    }
}
