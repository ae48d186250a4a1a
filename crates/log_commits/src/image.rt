// The bytes of a commit.
ghost use Rattle.std.specs.Prelude.{◌≡◌, ◌≤◌, ◌<◌, ◌+◌, ◌*◌, ◌^◌, ◌++◌, [], ◌∷◌, length, drop};
ghost use Rattle.log_codec.specs.Log.{log_descriptor_blocks, log_commit_blocks};
ghost use Rattle.log_codec.specs.Commit.{LogDescriptor, log_body, log_seal};
ghost use Rattle.log_commits.specs.Commit.{records_in};

use log_codec::{CommitDigest, LogGeometry, Sealing, encode_descriptor, open_seal};

/// Returns the seal of the commit with this number, these home blocks and these records, in a session of this epoch.
pub fn seal_of(log: &LogGeometry, epoch: u64, number: u64, homes: &[u32], records: &[u8]) -> [u8; 8]
    requires few { length homes.now ≤ 65535 }
    requires short { length records.now < 2 ^ 32 }
    ensures { result ≡ log_seal log.now.sealing epoch (record { number = number; homes = homes.now }) records.now }
{
    match log.sealing() {
        Sealing::ByByte => open_seal(),
        Sealing::ByDigest(key) => {
            let mut digest = CommitDigest::new(key, epoch, number, homes);
            digest.add(records);
            digest.seal()
        }
    }
}

/// Writes the descriptor of a commit into the first blocks of a buffer, under this seal.
pub fn put_descriptor(room: &mut [u8], seal: &[u8; 8], number: u64, homes: &[u32], blocks: u32)
    requires few { length homes.now ≤ 65535 }
    requires blocks { blocks ≡ log_descriptor_blocks (length homes.now) }
    requires room { 4096 * blocks ≤ length room.old }
    ensures { room.new ≡ (seal.now ++ log_body (record { number = number; homes = homes.now }))
        ++ drop (4096 * blocks) room.old }
{
    for index in 0..blocks {
        let block = encode_descriptor(seal, number, homes, index);
        let at = 4096 * index as usize;
        room[at..at + 4096].copy_from_slice(&block);
    }
}

/// Fills in the bytes of a commit around the records, which are already in `room`: the seal and the descriptor before
/// them, and a zero after them.
pub fn fill(log: &LogGeometry, epoch: u64, number: u64, homes: &[u32], blocks: u32, room: &mut [u8])
    requires few { length homes.now ≤ 65535 }
    requires blocks { blocks ≡ log_descriptor_blocks (length homes.now) }
    requires room { length room.old ≡ 4096 * log_commit_blocks (length homes.now) + 1 }
    ensures { let d : LogDescriptor = record { number = number; homes = homes.now } in
        room.new ≡ log_seal log.now.sealing epoch d (records_in homes.now room.old) ++ log_body d
        ++ records_in homes.now room.old ++ 0 ∷ [] }
{
    let first = 4096 * blocks as usize;
    let end = room.len() - 1;
    let seal = seal_of(log, epoch, number, homes, &room[first..end]);
    put_descriptor(room, &seal, number, homes, blocks);
    room[end] = 0;
}
