// The growth of a table: counts the nodes that a range needs, and links new nodes.
ghost use Rattle.std.specs.Prelude.{◌≡◌, ◌≤◌, ◌<◌, ◌+◌, ◌-◌, ◌*◌, ◌/◌, ◌^◌, ℕ, length};
ghost use Rattle.page_table.specs.inside.Nodes.{read_by_walk, IsWalkable, IsTree, missing, needed, LinksBlocks, GrowsPages};

use crate::nodes::{MIDDLE_BLOCK, NODE, ROOT_BLOCK, walk};
use page_entry::PageNumber;

// Returns the number of blocks from `first` up to, but not including, `end` that have no node at this depth.
fn missing(words: &[u64], depth: u64, first: u64, end: u64) -> u64
    requires words { IsWalkable words.now }
    requires depth { depth ≤ 3 }
    requires forward { first ≤ end }
    ensures { result ≡ missing words.now depth first (end - first) }
{
    let mut count = 0;
    for block in first..end {
        if walk(words, depth, block) == 0 {
            count += 1;
        }
    }
    count
}

// Links the next unused node to the block. No node refers to it before.
fn link(words: &mut [u64], depth: u64, block: u64, used: u64)
    requires tree { IsTree words.old used }
    requires room { (used + 1) * 512 ≤ length words.old }
    requires depth { 0 < depth }
    requires least { depth ≤ 3 }
    requires parent { 0 < read_by_walk words.old (depth - 1) (block / 512) }
    requires missing { read_by_walk words.old depth block ≡ 0 }
    ensures { LinksBlocks depth block (block + 1) used (used + 1) words.old words.new }
{
    let parent = walk(words, depth - 1, block / NODE);
    words[((parent - 1) * NODE + block % NODE) as usize] = used + 1;
}

// Links a new node to each block from `first` up to, but not including, `end` that has none. Returns the number of all
// nodes that are then linked.
fn link_blocks(words: &mut [u64], depth: u64, first: u64, end: u64, used: u64) -> u64
    requires tree { IsTree words.old used }
    requires depth { 0 < depth }
    requires least { depth ≤ 3 }
    requires forward { first ≤ end }
    requires parents { (block : ℕ) → first ≤ block → block < end
        → 0 < read_by_walk words.old (depth - 1) (block / 512) }
    requires room { (used + missing words.old depth first (end - first)) * 512 ≤ length words.old }
    ensures { LinksBlocks depth first end used result words.old words.new }
{
    let mut made = used;
    for block in first..end {
        if walk(words, depth, block) == 0 {
            link(words, depth, block, made);
            made += 1;
        }
    }
    made
}

/// Returns the number of nodes that are missing until each page of the range has a leaf.
pub(crate) fn needed(words: &[u64], start: PageNumber, end: PageNumber) -> u64
    requires words { IsWalkable words.now }
    requires pages { start < end }
    requires small { end ≤ 2 ^ 36 }
    ensures value { result ≡ needed words.now start end }
    ensures few { result ≤ 2 ^ 29 }
{
    let last = end - 1;
    missing(words, 1, start / ROOT_BLOCK, last / ROOT_BLOCK + 1)
        + missing(words, 2, start / MIDDLE_BLOCK, last / MIDDLE_BLOCK + 1)
        + missing(words, 3, start / NODE, last / NODE + 1)
}

/// Links the unused nodes so that each page of the range has a leaf. The range must need exactly all of them.
pub(crate) fn link_pages(words: &mut [u64], start: PageNumber, end: PageNumber, used: u64)
    requires tree { IsTree words.old used }
    requires pages { start < end }
    requires small { end ≤ 2 ^ 36 }
    requires room { length words.old ≡ (used + needed words.old start end) * 512 }
    ensures { GrowsPages start end words.old words.new }
{
    let last = end - 1;
    let tops = link_blocks(words, 1, start / ROOT_BLOCK, last / ROOT_BLOCK + 1, used);
    let middles = link_blocks(
        words,
        2,
        start / MIDDLE_BLOCK,
        last / MIDDLE_BLOCK + 1,
        tops,
    );
    link_blocks(words, 3, start / NODE, last / NODE + 1, middles);
}
