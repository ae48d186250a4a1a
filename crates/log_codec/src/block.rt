// Blocks of 4,096 bytes: reading numbers at a place, and appending bytes to those already written.
ghost use Rattle.std.specs.Prelude.{◌≡◌, ◌≤◌, ◌+◌, ◌++◌, ℕ, List, [], length, drop};
ghost use Rattle.volume_codec.specs.Text.{number_text, number_in, padded};

use byteorder::{BigEndian, ByteOrder};

/// Returns the number in the 4 bytes that begin at `at`.
#[tactic(auto, unfolding(volume_codec::specs::Text::number_in))]
pub fn u32_at(bytes: &[u8], at: usize) -> u32
    requires { at + 4 ≤ length bytes.now }
    ensures { result ≡ number_in 4 (drop at bytes.now) }
{
    BigEndian::read_u32(&bytes[at..])
}

/// Returns the number in the 8 bytes that begin at `at`.
#[tactic(auto, unfolding(volume_codec::specs::Text::number_in))]
pub fn u64_at(bytes: &[u8], at: usize) -> u64
    requires { at + 8 ≤ length bytes.now }
    ensures { result ≡ number_in 8 (drop at bytes.now) }
{
    BigEndian::read_u64(&bytes[at..])
}

/// Returns the 8 bytes of a number.
#[tactic(auto, unfolding(volume_codec::specs::Text::number_text))]
pub fn number_bytes(n: u64) -> [u8; 8]
    ensures { result ≡ number_text 8 n }
{
    let mut bytes = [0; 8];
    BigEndian::write_u64(&mut bytes, n);
    bytes
}

/// Returns a block of zeros.
pub fn zero_block() -> [u8; 4096]
    ensures { result ≡ padded 4096 [] }
{
    [0; 4096]
}

/// Writes bytes at `at`, the end of the bytes already written.
pub fn put(block: &mut [u8; 4096], at: usize, bytes: &[u8])
    requires { at + length bytes.now ≤ 4096 }
    ensures { (text : List ℕ) → block.old ≡ padded 4096 text → length text ≡ at
        → block.new ≡ padded 4096 (text ++ bytes.now) }
{
    block[at..at + bytes.len()].copy_from_slice(bytes);
}

/// Writes a number of 4 bytes at `at`, the end of the bytes already written.
#[tactic(auto, unfolding(volume_codec::specs::Text::number_text))]
pub fn put_u32(block: &mut [u8; 4096], at: usize, n: u32)
    requires { at + 4 ≤ 4096 }
    ensures { (text : List ℕ) → block.old ≡ padded 4096 text → length text ≡ at
        → block.new ≡ padded 4096 (text ++ number_text 4 n) }
{
    let mut bytes = [0; 4];
    BigEndian::write_u32(&mut bytes, n);
    put(block, at, &bytes);
}

/// Writes a number of 8 bytes at `at`, the end of the bytes already written.
pub fn put_u64(block: &mut [u8; 4096], at: usize, n: u64)
    requires { at + 8 ≤ 4096 }
    ensures { (text : List ℕ) → block.old ≡ padded 4096 text → length text ≡ at
        → block.new ≡ padded 4096 (text ++ number_text 8 n) }
{
    put(block, at, &number_bytes(n));
}
