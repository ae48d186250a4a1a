// The changes that can be made to the entries of a range.
ghost use Rattle.std.specs.Prelude.{◌≡◌};
ghost use Rattle.page_table.specs.Table.{is_marked};
ghost use Rattle.page_table.specs.inside.Changes.{changed_by};

use page_entry::{Entry, FrameNumber};

/// A change to the entries of a range.
#[derive(Clone, Copy)]
pub(crate) enum Change<'a> {
    /// The entries become absent.
    Clear,
    /// The entries become read-only.
    MakeReadOnly,
    /// The entries that map a marked frame become read-only, and their dirty bit is cleared.
    Protect(&'a [bool]),
}

/// Returns the entry after the change.
pub(crate) fn changed(change: Change, entry: Entry) -> Entry
    ensures { result ≡ changed_by change.entry entry }
{
    match change {
        Change::Clear => Entry::absent(),
        Change::MakeReadOnly => entry.with_writable(false),
        Change::Protect(marked) => {
            if entry.present() && is_marked(marked, entry.frame()) {
                entry.protected()
            } else {
                entry
            }
        }
    }
}

// Whether the frame with this number is marked. A frame past the end of the list isn't.
fn is_marked(marked: &[bool], frame: FrameNumber) -> bool
    ensures { result ≡ is_marked marked.now frame }
{
    match marked.get(frame as usize) {
        Some(mark) => *mark,
        None => false,
    }
}
