// The seals of commits: one byte, or a digest of the whole commit.
ghost use Rattle.std.specs.Prelude.{◌≡◌, ◌≤◌, ◌<◌, ◌^◌, ◌++◌, ℕ, List, [], length};
ghost use Rattle.log_codec.specs.declared.sealing.Sealing.TheVariants.{ByDigest};
ghost use Rattle.log_codec.specs.Commit.{LogDescriptor, open_seal as opened, log_seal};
ghost use Rattle.log_codec.specs.Seal.{SealSays, HasTakenCommit};

use crate::block::number_bytes;
use crate::descriptor::encode_descriptor;
use crate::log::descriptor_blocks_of;
use xxh64::Xxh64;

/// The byte that opens a seal.
const OPEN: u8 = 0xA7;

/// The state of a commit's seal in a log that is sealed by a byte.
#[derive(Clone, Copy, PartialEq, Eq, Debug)]
pub enum ByteSeal {
    /// The commit isn't complete.
    Closed,
    /// The commit is complete.
    Open,
    /// The first byte opens the seal, but another byte isn't zero.
    Damaged,
}

/// Returns the open seal of a log that is sealed by a byte. A seal with any other first byte is closed.
pub fn open_seal() -> [u8; 8]
    ensures { result ≡ opened }
{
    [OPEN, 0, 0, 0, 0, 0, 0, 0]
}

/// Returns the state of a seal in a log that is sealed by a byte.
pub fn read_seal(seal: &[u8; 8]) -> ByteSeal
    ensures { SealSays result seal.now }
{
    if seal[0] != OPEN {
        return ByteSeal::Closed;
    }
    if *seal != open_seal() {
        return ByteSeal::Damaged;
    }
    ByteSeal::Open
}

/// The digest of a commit, computed in pieces. `new` takes the descriptor's body, and `add` takes the records.
#[derive(Drop)]
pub struct CommitDigest {
    hasher: Xxh64,
}

impl CommitDigest {
    /// Begins with the body of the descriptor of the commit with this number and these home blocks. The seed is the
    /// volume's key, changed by the epoch of the session.
    pub fn new(key: u64, epoch: u64, number: u64, homes: &[u32]) -> Self
        requires { length homes.now ≤ 65535 }
        ensures { HasTakenCommit result key epoch (record { number = number; homes = homes.now }) [] }
    {
        prove!(homes.len() <= 65535);
        let mut hasher = Xxh64::new(key ^ epoch);
        let first = encode_descriptor(&open_seal(), number, homes, 0);
        hasher.update(&first[8..]);
        for index in 1..descriptor_blocks_of(homes.len() as u32) {
            let block = encode_descriptor(&open_seal(), number, homes, index);
            hasher.update(&block);
        }
        CommitDigest { hasher }
    }

    /// Adds the next records, in order.
    pub fn add(&mut self, records: &[u8])
        ensures { (key epoch : ℕ) (d : LogDescriptor) (taken : List ℕ)
            → HasTakenCommit self.old key epoch d taken
            → HasTakenCommit self.new key epoch d (taken ++ records.now) }
    {
        self.hasher.update(records);
    }

    /// Returns the seal of the commit with the added records. These must be shorter than 2^32 bytes.
    pub fn seal(&self) -> [u8; 8]
        ensures { (key epoch : ℕ) (d : LogDescriptor) (taken : List ℕ)
            → HasTakenCommit self.now key epoch d taken → length d.homes ≤ 65535 → length taken < 2 ^ 32
            → result ≡ log_seal (ByDigest key) epoch d taken }
    {
        number_bytes(self.hasher.finish())
    }
}
