// Four lanes over stripes of 32 bytes.
ghost use Rattle.std.specs.Prelude.{◌≡◌, ◌+◌, ◌≤◌, length};
ghost use Rattle.xxh64.specs.Xxh64.{word_at, round, first_lanes, striped, merged, converged};

use crate::primes::{PRIME_1, PRIME_2, PRIME_4};

// Returns the word at an offset, lowest byte first.
#[inline(always)]
pub(crate) fn word_at(bytes: &[u8], i: usize) -> u64
    requires { i + 8 ≤ length bytes.now }
    ensures { result ≡ word_at bytes.now i }
{
    u64::from_le_bytes([
        bytes[i],
        bytes[i + 1],
        bytes[i + 2],
        bytes[i + 3],
        bytes[i + 4],
        bytes[i + 5],
        bytes[i + 6],
        bytes[i + 7],
    ])
}

// Returns a lane after one more word.
#[inline(always)]
pub(crate) fn round(lane: u64, word: u64) -> u64
    ensures { result ≡ round lane word }
{
    lane.wrapping_add(word.wrapping_mul(PRIME_2))
        .rotate_left(31)
        .wrapping_mul(PRIME_1)
}

// Returns the lanes before the first stripe.
pub(crate) fn first_lanes(seed: u64) -> [u64; 4]
    ensures { result ≡ first_lanes seed }
{
    [
        seed.wrapping_add(PRIME_1).wrapping_add(PRIME_2),
        seed.wrapping_add(PRIME_2),
        seed,
        seed.wrapping_sub(PRIME_1),
    ]
}

// Adds one stripe to the lanes.
#[inline(always)]
pub(crate) fn take_stripe(lanes: &mut [u64; 4], stripe: &[u8])
    requires { 32 ≤ length stripe.now }
    ensures { lanes.new ≡ striped lanes.old stripe.now }
{
    let [a, b, c, d] = *lanes;
    *lanes = [
        round(a, word_at(stripe, 0)),
        round(b, word_at(stripe, 8)),
        round(c, word_at(stripe, 16)),
        round(d, word_at(stripe, 24)),
    ];
}

// Merges one more lane into the accumulator.
#[inline(always)]
fn merge(acc: u64, lane: u64) -> u64
    ensures { result ≡ merged acc lane }
{
    (acc ^ round(0, lane))
        .wrapping_mul(PRIME_1)
        .wrapping_add(PRIME_4)
}

// Merges the lanes into one word.
pub(crate) fn converge(lanes: &[u64; 4]) -> u64
    ensures { result ≡ converged lanes.now }
{
    let [a, b, c, d] = *lanes;
    let sum = a
        .rotate_left(1)
        .wrapping_add(b.rotate_left(7))
        .wrapping_add(c.rotate_left(12))
        .wrapping_add(d.rotate_left(18));
    merge(merge(merge(merge(sum, a), b), c), d)
}
