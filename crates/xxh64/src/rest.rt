// The bytes after the last stripe, and the final mixing of the bits.
ghost use Rattle.std.specs.Prelude.{◌≡◌, ◌+◌, ◌*◌, ◌≤◌, length};
ghost use Rattle.xxh64.specs.Xxh64.{half_at, with_word, with_half, with_byte, words_after, half_after, bytes_after, rest_after, mixed};

use crate::lanes::{round, word_at};
use crate::primes::{PRIME_1, PRIME_2, PRIME_3, PRIME_4, PRIME_5};

// Returns the half word at an offset, lowest byte first.
fn half_at(bytes: &[u8], i: usize) -> u32
    requires { i + 4 ≤ length bytes.now }
    ensures { result ≡ half_at bytes.now i }
{
    u32::from_le_bytes([bytes[i], bytes[i + 1], bytes[i + 2], bytes[i + 3]])
}

fn with_word(acc: u64, word: u64) -> u64
    ensures { result ≡ with_word acc word }
{
    (acc ^ round(0, word))
        .rotate_left(27)
        .wrapping_mul(PRIME_1)
        .wrapping_add(PRIME_4)
}

fn with_half(acc: u64, half: u32) -> u64
    ensures { result ≡ with_half acc half }
{
    (acc ^ u64::from(half).wrapping_mul(PRIME_1))
        .rotate_left(23)
        .wrapping_mul(PRIME_2)
        .wrapping_add(PRIME_3)
}

fn with_byte(acc: u64, byte: u8) -> u64
    ensures { result ≡ with_byte acc byte }
{
    (acc ^ u64::from(byte).wrapping_mul(PRIME_5))
        .rotate_left(11)
        .wrapping_mul(PRIME_1)
}

// Returns the accumulator after the first words.
fn take_words(acc: u64, rest: &[u8], words: usize) -> u64
    requires { 8 * words ≤ length rest.now }
    ensures { result ≡ words_after acc rest.now words }
{
    let mut acc = acc;
    'words: for i in 0..words {
        acc = with_word(acc, word_at(rest, 8 * i));
    }
    acc
}

// Returns the accumulator after the half word behind the last word, if there is one.
fn take_half(acc: u64, rest: &[u8], count: usize) -> u64
    requires { count ≤ length rest.now }
    ensures { result ≡ half_after acc rest.now count }
{
    if count % 8 < 4 {
        acc
    } else {
        with_half(acc, half_at(rest, count / 8 * 8))
    }
}

// Returns the accumulator after some bytes from an offset on.
fn take_bytes(acc: u64, rest: &[u8], from: usize, count: usize) -> u64
    requires { from + count ≤ length rest.now }
    ensures { result ≡ bytes_after acc rest.now from count }
{
    let mut acc = acc;
    'bytes: for i in 0..count {
        acc = with_byte(acc, rest[from + i]);
    }
    acc
}

// Returns the accumulator after the first bytes of a list.
pub(crate) fn take_rest(acc: u64, rest: &[u8], count: usize) -> u64
    requires { count ≤ length rest.now }
    ensures { result ≡ rest_after acc rest.now count }
{
    let words = take_words(acc, rest, count / 8);
    let half = take_half(words, rest, count);
    take_bytes(half, rest, count / 4 * 4, count % 4)
}

// Mixes the bits of the accumulator.
pub(crate) fn mix(acc: u64) -> u64
    ensures { result ≡ mixed acc }
{
    let one = (acc ^ (acc >> 33)).wrapping_mul(PRIME_2);
    let two = (one ^ (one >> 29)).wrapping_mul(PRIME_3);
    two ^ (two >> 32)
}
