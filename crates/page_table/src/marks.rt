// Bit masks of the present entries in a table's nodes, and changes to these entries alone.
ghost use Rattle.std.specs.Prelude.{◌≡◌, ◌≤◌, ◌<◌, ◌+◌, ◌*◌, ◌^◌, ℕ, false, length};
ghost use Rattle.page_table.specs.inside.Nodes.{IsTable, EditsPages};
ghost use Rattle.page_table.specs.inside.Changes.{changed_bits};
ghost use Rattle.page_table.specs.inside.Marks.{HasMarks, AreMarked, EditsMarked, NotesMarked, AreBelow, Keeps};
ghost use Rattle.page_table.specs.Bits.{is_set, Marks};

use crate::change::{Change, changed};
use crate::lanes::first_set;
use crate::nodes::NODE;
use page_entry::Entry;

/// Sets or clears bit `place` of a mask, which is bit `place` % 64 of word `place` / 64.
pub fn mark(mask: &mut [u64], place: u64, set: bool)
    requires { place < length mask.old * 64 }
    ensures { Marks place set mask.old mask.new }
{
    let at = (place / 64) as usize;
    let bit = 1 << (place % 64);
    mask[at] = if set { mask[at] | bit } else { mask[at] & !bit };
}

/// Whether a node is in use. Returns false only if none of the first `nodes` nodes is.
pub(crate) fn has_used(in_use: &[u64], nodes: u64) -> bool
    requires ample { nodes ≤ length in_use.now * 64 }
    requires small { nodes < 2 ^ 62 }
    ensures { result ≡ false → (node : ℕ) → node < nodes → is_set in_use.now node ≡ false }
{
    first_set(in_use, 0, (nodes + 63) / 64 * 64).is_some()
}

// Changes the present entries of one node.
fn change_node(words: &mut [u64], present: &[u64], node: u64, change: Change)
    requires node { (node + 1) * 512 ≤ length words.old }
    requires ample { length words.old ≤ length present.now * 64 }
    requires entries { AreMarked words.old present.now (node * 512) ((node + 1) * 512) }
    ensures { EditsMarked (changed_bits change.entry) present.now (node * 512) ((node + 1) * 512) words.old words.new }
{
    let end = (node + 1) * NODE;
    let mut place = node * NODE;
    'entries: while let Some(at) = first_set(present, place, end) {
        words[at as usize] = changed(change, Entry::of_bits(words[at as usize])).bits();
        place = at + 1;
    }
}

/// Changes every present entry. Absent entries stay absent, since the change leaves them so (`kept`). Visits only the
/// nodes in use and their present entries.
pub(crate) fn change_present(words: &mut [u64], present: &[u64], in_use: &[u64], change: Change)
    requires table { IsTable words.old }
    requires marks { HasMarks words.old present.now in_use.now }
    requires kept { Keeps (changed_bits change) }
    ensures edits { EditsPages (changed_bits change.entry) 0 (2 ^ 36) words.old words.new }
    ensures marks { HasMarks words.new present.now in_use.now }
{
    let end = (words.len() as u64 / NODE + 63) / 64 * 64;
    let mut node = 0;
    'nodes: while let Some(used) = first_set(in_use, node, end) {
        change_node(words, present, used, change);
        node = used + 1;
    }
}

// Sets the note of each frame that a dirty entry of one node maps.
fn note_node(words: &[u64], present: &[u64], node: u64, notes: &mut [bool])
    requires node { (node + 1) * 512 ≤ length words.now }
    requires ample { length words.now ≤ length present.now * 64 }
    requires entries { AreMarked words.now present.now (node * 512) ((node + 1) * 512) }
    requires notes { AreBelow words.now present.now (node * 512) ((node + 1) * 512) (length notes.old) }
    ensures { NotesMarked words.now present.now (node * 512) ((node + 1) * 512) notes.old notes.new }
{
    let end = (node + 1) * NODE;
    let mut place = node * NODE;
    'entries: while let Some(at) = first_set(present, place, end) {
        let entry = Entry::of_bits(words[at as usize]);
        if entry.dirty() {
            notes[entry.frame() as usize] = true;
        }
        place = at + 1;
    }
}

/// Sets the note of each frame that a dirty entry maps. Visits only the nodes in use and their present entries.
pub(crate) fn note_present(words: &[u64], present: &[u64], in_use: &[u64], notes: &mut [bool])
    requires table { IsTable words.now }
    requires marks { HasMarks words.now present.now in_use.now }
    requires notes { AreBelow words.now present.now 0 (length words.now) (length notes.old) }
    ensures { NotesMarked words.now present.now 0 (length words.now) notes.old notes.new }
{
    let end = (words.len() as u64 / NODE + 63) / 64 * 64;
    let mut node = 0;
    'nodes: while let Some(used) = first_set(in_use, node, end) {
        note_node(words, present, used, notes);
        node = used + 1;
    }
}
