// The nodes of a table: walks from the root, and the pages that have a leaf.
ghost use Rattle.std.specs.Prelude.{◌≡◌, ◌≤◌, ◌<◌, ◌+◌, ◌-◌, ◌*◌, ◌/◌, ◌^◌, ℕ, length};
ghost use Rattle.page_table.specs.inside.Nodes.{word, read_by_walk, IsWalkable, IsPastGap, IsFirstGrown};

use page_entry::PageNumber;

/// The number of words in a node.
pub(crate) const NODE: u64 = 512;

/// The number of pages that four levels can map, with addresses of 48 bits.
pub(crate) const PAGES: PageNumber = 1 << 36;

/// The number of pages below one word of the root.
pub(crate) const ROOT_BLOCK: PageNumber = 1 << 27;

/// The number of pages below one word of a second-level node.
pub(crate) const MIDDLE_BLOCK: PageNumber = 1 << 18;

// Returns a word of a node, or 0 if `node` is 0 (no node).
fn word(words: &[u64], node: u64, place: u64) -> u64
    requires node { node * 512 ≤ length words.now }
    requires place { place < 512 }
    ensures { result ≡ word words.now node place }
{
    if node == 0 {
        return 0;
    }
    words[((node - 1) * NODE + place) as usize]
}

/// Returns the word that a walk of `depth` levels to the block reads. Up to depth 3 this is the number of a node, or 0
/// for none. At depth 4 it is the bits of an entry, or 0.
pub(crate) fn walk(words: &[u64], depth: u64, block: u64) -> u64
    requires words { IsWalkable words.now }
    requires depth { depth ≤ 4 }
    ensures { result ≡ read_by_walk words.now depth block }
{
    if depth == 0 {
        return if block == 0 { 1 } else { 0 };
    }
    word(words, walk(words, depth - 1, block / NODE), block % NODE)
}

// Returns `page` if it has a leaf. Otherwise returns a later page, and no page before that one, from `page` on, has a
// leaf. It is the end of the largest block without a node that contains `page`.
fn past_gap(words: &[u64], page: PageNumber) -> PageNumber
    requires words { IsWalkable words.now }
    requires page { page < 2 ^ 36 }
    ensures { IsPastGap words.now page result }
{
    if walk(words, 1, page / ROOT_BLOCK) == 0 {
        return (page / ROOT_BLOCK + 1) * ROOT_BLOCK;
    }
    if walk(words, 2, page / MIDDLE_BLOCK) == 0 {
        return (page / MIDDLE_BLOCK + 1) * MIDDLE_BLOCK;
    }
    if walk(words, 3, page / NODE) == 0 {
        return (page / NODE + 1) * NODE;
    }
    page
}

/// Returns the first page from `start` up to, but not including, `end` that has a leaf. Visits missing blocks, not
/// single pages.
pub(crate) fn first_grown(words: &[u64], start: PageNumber, end: PageNumber) -> Option<PageNumber>
    requires words { IsWalkable words.now }
    requires end { end ≤ 2 ^ 36 }
    ensures { IsFirstGrown words.now start end result }
{
    let mut page = start;
    while page < end {
        let next = past_gap(words, page);
        if next == page {
            return Some(page);
        }
        page = next;
    }
    None
}
