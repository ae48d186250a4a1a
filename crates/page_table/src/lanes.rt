// Finds the dirty entries of a node, eight at a time.
ghost use Rattle.std.specs.Prelude.{◌≡◌, ◌<◌, ◌≤◌, ◌*◌, ◌/◌, ◌%◌, ℕ, length, map, slice_index_or};
ghost use Rattle.page_table.specs.Bits.{IsFirstSet};
ghost use Rattle.std.specs.Simd.Lanes.{mask_l};
ghost use Rattle.page_entry.specs.Entry.{has_bit};

use std::simd::prelude::*;

/// The dirty bit of an entry, bit 6 (Intel SDM volume 3, "4-Level Paging").
const DIRTY: u64 = 64;

// Returns a bit for each of eight entries, the first entry's bit lowest. The bit is set if the entry is dirty.
fn dirty_lanes(entries: u64x8) -> u64
    ensures { result ≡ mask_l (map (λ entry. has_bit entry 6) entries) }
{
    (entries & u64x8::splat(DIRTY))
        .simd_eq(u64x8::splat(DIRTY))
        .to_bitmask()
}

// Returns a bit for each of 64 entries, the first entry's bit lowest. The bit is set if the entry is dirty.
fn dirty_word(entries: &[u64]) -> u64
    requires { length entries.now ≡ 64 }
    ensures { result ≡ mask_l (map (λ entry. has_bit entry 6) entries.now) }
{
    let mut word = 0;
    let mut from = 64;
    while from > 0 {
        from -= 8;
        word = word * 256 + dirty_lanes(u64x8::from_slice(&entries[from..from + 8]));
    }
    word
}

/// Returns a bit for each entry of a node: bit i of word w is the dirty bit (bit 6) of entry 64w+i.
pub fn dirty_mask(entries: &[u64; 512]) -> [u64; 8]
    ensures { (i : ℕ) → i < 512
        → has_bit (slice_index_or result (i / 64) 0) (i % 64) ≡ has_bit (slice_index_or entries.now i 0) 6 }
{
    let mut mask = [0; 8];
    for place in 0..8 {
        mask[place] = dirty_word(&entries[place * 64..place * 64 + 64]);
    }
    mask
}

/// Returns the first bit that is set from `from` up to, but not including, `end`. Bit i of the mask is bit i % 64 of
/// word i / 64. Zero words are skipped whole.
pub fn first_set(mask: &[u64], from: u64, end: u64) -> Option<u64>
    requires within { end ≤ length mask.now * 64 }
    requires whole { end % 64 ≡ 0 }
    ensures { IsFirstSet mask.now from end result }
{
    let mut place = from;
    while place < end {
        let word = mask[(place / 64) as usize] >> (place % 64);
        if word != 0 {
            return Some(place + word.trailing_zeros() as u64);
        }
        place = (place / 64 + 1) * 64;
    }
    None
}
