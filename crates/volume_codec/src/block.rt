// Blocks of 4,096 bytes: numbers that are read at a place, and bytes that are written one after another.
ghost use Rattle.std.specs.Prelude.{◌≡◌, ◌≤◌, ◌+◌, ◌++◌, [], length, drop};
ghost use Rattle.volume_codec.specs.Text.{number_text, number_in, zeros, padded};

use byteorder::{BigEndian, ByteOrder};
use std::marker::Model;

/// Returns the number in the 4 bytes from this place on.
#[tactic(auto, unfolding(crate::specs::Text::number_in))]
pub fn u32_at(bytes: &[u8], at: usize) -> u32
    requires { at + 4 ≤ length bytes.now }
    ensures { result ≡ number_in 4 (drop at bytes.now) }
{
    BigEndian::read_u32(&bytes[at..])
}

/// Returns the number in the 8 bytes from this place on.
#[tactic(auto, unfolding(crate::specs::Text::number_in))]
pub fn u64_at(bytes: &[u8], at: usize) -> u64
    requires { at + 8 ≤ length bytes.now }
    ensures { result ≡ number_in 8 (drop at bytes.now) }
{
    BigEndian::read_u64(&bytes[at..])
}

/// Returns a block of zeros.
fn zero_block() -> [u8; 4096]
    ensures { result ≡ zeros 4096 }
{
    [0; 4096]
}

/// A block whose bytes are written one after another. Bytes that aren't written are zero.
#[derive(Drop)]
pub struct BlockWriter {
    block: [u8; 4096],
    at: usize,
}

impl Model for BlockWriter {
    ghost use Rattle.std.specs.Prelude.{◌≡◌, ◌≤◌, ◌-◌, List, ℕ, length, take, drop};
    ghost use Rattle.volume_codec.specs.Text.{zeros};

    ghost Value = { List ℕ };

    ghost view = { λ w. take w.at w.block };

    ghost invariant = { λ w. (w.at ≤ 4096) × (length w.block ≡ 4096) × (drop w.at w.block ≡ zeros (4096 - w.at)) };
}

impl BlockWriter {
    /// Returns a block of zeros, into which nothing is written yet.
    pub fn new() -> Self
        ensures { result ≡ [] }
    {
        BlockWriter {
            block: zero_block(),
            at: 0,
        }
    }

    /// Writes these bytes next.
    pub fn push(&mut self, bytes: &[u8])
        requires { length self.old + length bytes.now ≤ 4096 }
        ensures value { self.new ≡ self.old ++ bytes.now }
        ensures len { length self.new ≡ length self.old + length bytes.now }
    {
        let end = self.at + bytes.len();
        self.block[self.at..end].copy_from_slice(bytes);
        self.at = end;
    }

    /// Writes a number of 4 bytes next.
    #[tactic(auto, unfolding(crate::specs::Text::number_text))]
    pub fn push_u32(&mut self, n: u32)
        requires { length self.old + 4 ≤ 4096 }
        ensures value { self.new ≡ self.old ++ number_text 4 n }
        ensures len { length self.new ≡ length self.old + 4 }
    {
        let mut bytes = [0; 4];
        BigEndian::write_u32(&mut bytes, n);
        self.push(&bytes);
    }

    /// Writes a number of 8 bytes next.
    #[tactic(auto, unfolding(crate::specs::Text::number_text))]
    pub fn push_u64(&mut self, n: u64)
        requires { length self.old + 8 ≤ 4096 }
        ensures value { self.new ≡ self.old ++ number_text 8 n }
        ensures len { length self.new ≡ length self.old + 8 }
    {
        let mut bytes = [0; 8];
        BigEndian::write_u64(&mut bytes, n);
        self.push(&bytes);
    }

    /// Leaves the next `n` bytes zero.
    pub fn skip(&mut self, n: usize)
        requires { length self.old + n ≤ 4096 }
        ensures value { self.new ≡ self.old ++ zeros n }
        ensures len { length self.new ≡ length self.old + n }
    {
        self.at += n;
    }

    /// Returns the whole block.
    pub fn finish(self) -> [u8; 4096]
        ensures { result ≡ padded 4096 self }
    {
        self.block
    }
}
