// Replaces the first bytes of a 4,096-byte block, one field after another.
ghost use Rattle.std.specs.Prelude.{◌≡◌, ◌≤◌, ◌+◌, ◌++◌, ℕ, List, length, drop};
ghost use Rattle.volume_codec.specs.Text.{number_text};

use byteorder::{BigEndian, ByteOrder};

/// Replaces the next bytes, after those that were replaced already.
pub fn put(block: &mut [u8; 4096], at: usize, bytes: &[u8])
    requires { at + length bytes.now ≤ 4096 }
    ensures { (text old : List ℕ) → block.old ≡ text ++ drop at old → length text ≡ at
        → block.new ≡ (text ++ bytes.now) ++ drop (at + length bytes.now) old }
{
    block[at..at + bytes.len()].copy_from_slice(bytes);
}

/// Replaces the next 4 bytes by a big-endian number.
#[tactic(auto, unfolding(volume_codec::specs::Text::number_text))]
pub fn put_u32(block: &mut [u8; 4096], at: usize, n: u32)
    requires { at + 4 ≤ 4096 }
    ensures { (text old : List ℕ) → block.old ≡ text ++ drop at old → length text ≡ at
        → block.new ≡ (text ++ number_text 4 n) ++ drop (at + 4) old }
{
    let mut bytes = [0; 4];
    BigEndian::write_u32(&mut bytes, n);
    put(block, at, &bytes);
}

/// Replaces the next 8 bytes by a big-endian number.
#[tactic(auto, unfolding(volume_codec::specs::Text::number_text))]
pub fn put_u64(block: &mut [u8; 4096], at: usize, n: u64)
    requires { at + 8 ≤ 4096 }
    ensures { (text old : List ℕ) → block.old ≡ text ++ drop at old → length text ≡ at
        → block.new ≡ (text ++ number_text 8 n) ++ drop (at + 8) old }
{
    let mut bytes = [0; 8];
    BigEndian::write_u64(&mut bytes, n);
    put(block, at, &bytes);
}
