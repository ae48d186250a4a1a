// Facts that follow from the definitions alone.
ghost use Rattle.std.specs.Prelude.{◌≡◌, ◌≢◌, ℕ, ◌+◌, ◌-◌, ◌*◌, ◌%◌, ◌^◌, ◌<◌, ◌≤◌, List, [], ◌∷◌, ◌++◌, length, take, slice_index};
ghost use Rattle.std.specs.List.{AllByRecursion};
ghost use Rattle.volume_codec.specs.Descriptor.{RiseWithin};
ghost use Rattle.volume_codec.specs.Layout.{block_at};
ghost use Rattle.log_codec.specs.declared.broken.Broken.{Broken};
ghost use Rattle.log_codec.specs.declared.broken.Broken.TheVariants.{OutOfMemory};
ghost use Rattle.log_codec.specs.declared.sealing.Sealing.TheVariants.{ByByte, ByDigest};
ghost use Rattle.log_codec.specs.declared.start.LogStart.{LogStart};
ghost use Rattle.log_codec.specs.Log.{LogValue, IsLog, ring_block, ring_bytes, first_log_home, log_descriptor_blocks, log_commit_blocks};
ghost use Rattle.log_codec.specs.Start.{IsLogStart, IsStartBlock, HasLogStart, start_text};
ghost use Rattle.log_codec.specs.Commit.{LogDescriptor, IsLogged, IsLogDescriptor, log_body, log_seal};
ghost use Rattle.log_codec.specs.Broken.{BreaksFirstRule, BreaksLogRule, records_said};
ghost use Rattle.log_codec.specs.Chain.{IsSealedAt, IsNextCommit, HasLog, IsLogHome, LogRecovers, IsChain, IsDamagedLog, spare_blocks, position_after, records_position, chain_end, chain_blocks, logged_or, newest_or};

/// States that what is written reads back, and that bytes have at most one reading. The text of a start, and that of a
/// descriptor under any seal, follow the grammar. A block contains at most one start. Bytes contain at most one
/// descriptor, and a position has at most one sealed commit. Bytes have at most one log, and recover to at most one
/// list of contents.
pub fn one_log()
    ensures start_back { (ring : ℕ) (s : LogStart) → IsLogStart ring s → IsStartBlock ring s (start_text s) }
    ensures descriptor_back { (g : LogValue) (d : LogDescriptor) (seal : List ℕ) → IsLogged g d → length seal ≡ 8
        → IsLogDescriptor g d (seal ++ log_body d) }
    ensures starts { (g : LogValue) (s t : LogStart) (block : List ℕ) → IsLog g → IsStartBlock g.ring s block
        → IsStartBlock g.ring t block → s ≡ t }
    ensures descriptors { (g : LogValue) (d e : LogDescriptor) (bytes : List ℕ) → IsLog g
        → IsLogDescriptor g d bytes → IsLogDescriptor g e bytes → d ≡ e }
    ensures commits { (g : LogValue) (epoch p : ℕ) (d e : LogDescriptor) (bytes : List ℕ) → IsLog g
        → 4096 * g.blocks ≤ length bytes → IsSealedAt g epoch p d bytes → IsSealedAt g epoch p e bytes → d ≡ e }
    ensures logs { (g : LogValue) (s t : LogStart) (ds es : List LogDescriptor) (bytes : List ℕ) → IsLog g
        → HasLog g s ds bytes → HasLog g t es bytes → (s ≡ t) × (ds ≡ es) }
    ensures contents { (g : LogValue) (contents others : ℕ → List ℕ) (bytes : List ℕ) (b : ℕ) → IsLog g
        → LogRecovers g contents bytes → LogRecovers g others bytes → IsLogHome g b → contents b ≡ others b }
{}

/// States that bytes which break a rule aren't a descriptor with the wanted number.
pub fn broken_bytes()
    ensures { (g : LogValue) (number : ℕ) (bytes : List ℕ) (broken : Broken) → IsLog g
        → BreaksLogRule g number bytes broken → broken ≢ OutOfMemory → (d : LogDescriptor) → d.number ≡ number
        → IsLogDescriptor g d bytes → ⊥ }
{}

/// States where the parts of a log are. Its blocks are at block 4 and later, and before the home blocks. A position and
/// the one that follows it by the length of the ring are the same block. A descriptor has room for 32 bytes and 4 more
/// for each record. It has no more blocks than it needs.
pub fn parts_of_log()
    ensures within { (ring p : ℕ) → 0 < ring → (4 ≤ ring_block ring p) × (ring_block ring p < first_log_home ring) }
    ensures round { (ring p : ℕ) → 0 < ring → ring_block ring (p + ring) ≡ ring_block ring p }
    ensures room { (records : ℕ) → 32 + 4 * records ≤ 4096 * log_descriptor_blocks records }
    ensures no_more { (records : ℕ) → 4096 * log_descriptor_blocks records < 32 + 4 * records + 4096 }
{}

/// States how the next commit is found at a position. The first block contains its number of records, and breaks no
/// rule. The descriptor's blocks contain the commit, and begin with its seal. A descriptor is that of the next commit
/// if it has the wanted number, room in the remaining blocks, and the seal of its records.
pub fn next_commit()
    ensures first { (g : LogValue) (epoch p number left : ℕ) (d : LogDescriptor) (bytes : List ℕ) (broken : Broken)
        → IsLog g → 4096 * g.blocks ≤ length bytes → IsNextCommit g epoch p number left d bytes
        → let block = block_at bytes (ring_block g.ring p) in
        (records_said block ≡ length d.homes) × (BreaksFirstRule g number block broken → ⊥) }
    ensures descriptor { (g : LogValue) (epoch p number left : ℕ) (d : LogDescriptor) (bytes : List ℕ)
        → IsNextCommit g epoch p number left d bytes
        → let head = ring_bytes g.ring bytes p (log_descriptor_blocks (length d.homes)) in
        IsLogDescriptor g d head × (take 8 head
        ≡ log_seal g.sealing epoch d (ring_bytes g.ring bytes (records_position p d) (length d.homes))) }
    ensures found { (g : LogValue) (epoch p number left : ℕ) (d : LogDescriptor) (bytes : List ℕ)
        → let head = ring_bytes g.ring bytes p (log_descriptor_blocks (length d.homes)) in
        IsLogDescriptor g d head
        → take 8 head ≡ log_seal g.sealing epoch d (ring_bytes g.ring bytes (records_position p d) (length d.homes))
        → d.number ≡ number → log_commit_blocks (length d.homes) + spare_blocks g.sealing ≤ left
        → IsNextCommit g epoch p number left d bytes }
{}

/// States where a log continues, where it ends, and when it is damaged. A chain continues with the next commit, if
/// there is one at its position. Otherwise a log that a digest seals ends there. If a byte seals, and the seal there is
/// open, there is no chain. A log is damaged if it has a start and no chain, or no start.
pub fn ends_of_log()
    ensures goes_on { (g : LogValue) (epoch p number left : ℕ) (d : LogDescriptor) (ds : List LogDescriptor)
        (bytes : List ℕ) → IsLog g → 4096 * g.blocks ≤ length bytes → IsNextCommit g epoch p number left d bytes
        → IsChain g epoch p number left ds bytes
        → (rest : List LogDescriptor) × (ds ≡ d ∷ rest) × IsChain g epoch (position_after p d) (number + 1)
        (left - log_commit_blocks (length d.homes)) rest bytes }
    ensures damaged { (g : LogValue) (epoch p number left : ℕ) (bytes : List ℕ) → g.sealing ≡ ByByte
        → slice_index (block_at bytes (ring_block g.ring p)) 0 ≡ 0xA7
        → ((d : LogDescriptor) → IsNextCommit g epoch p number left d bytes → ⊥)
        → (ds : List LogDescriptor) → IsChain g epoch p number left ds bytes → ⊥ }
    ensures ended { (g : LogValue) (key epoch p number left : ℕ) (bytes : List ℕ) → g.sealing ≡ ByDigest key
        → ((d : LogDescriptor) → IsNextCommit g epoch p number left d bytes → ⊥)
        → IsChain g epoch p number left [] bytes }
    ensures no_chain { (g : LogValue) (s : LogStart) (bytes : List ℕ) → IsLog g → HasLogStart g.ring s bytes
        → ((ds : List LogDescriptor) → IsChain g s.epoch s.position s.number g.ring ds bytes → ⊥)
        → IsDamagedLog g bytes }
    ensures no_start { (g : LogValue) (bytes : List ℕ) → ((s : LogStart) → HasLogStart g.ring s bytes → ⊥)
        → IsDamagedLog g bytes }
{}

/// States the room of a chain, and its end. The commits follow one another. With the block that no commit takes, they
/// fit in the blocks that were left for them, so none overlaps another. A new start may be at the end of the last
/// commit.
pub fn room_of_chain()
    ensures behind { (p : ℕ) (ds : List LogDescriptor) → chain_end p ds ≡ p + chain_blocks ds }
    ensures fits { (g : LogValue) (epoch p number left : ℕ) (ds : List LogDescriptor) (bytes : List ℕ)
        → spare_blocks g.sealing ≤ left → IsChain g epoch p number left ds bytes
        → chain_blocks ds + spare_blocks g.sealing ≤ left }
    ensures next_start { (g : LogValue) (s : LogStart) (ds : List LogDescriptor) (bytes : List ℕ) → IsLog g
        → HasLog g s ds bytes → s.epoch + 1 < 2 ^ 64
        → IsLogStart g.ring (record {
          position = chain_end s.position ds % g.ring;
          number = s.number + length ds;
          epoch = s.epoch + 1;
        }) }
{}

/// States what recovered contents consist of. Record i of the newest commit is the contents of the home block at place
/// i. Every other home block has the contents that it has without that commit. Without any commit, a home block has its
/// own contents.
pub fn recovered_from_log()
    ensures newest { (ring other p : ℕ) (ds : List LogDescriptor) (d : LogDescriptor) (b : ℕ)
        → newest_or ring other p (ds ++ d ∷ []) b
        ≡ logged_or ring (newest_or ring other p ds b) (records_position (chain_end p ds) d) d.homes b }
    ensures record_of { (ring other p low high i : ℕ) (homes : List ℕ) → RiseWithin low high homes
        → i < length homes → logged_or ring other p homes (slice_index homes i) ≡ ring_block ring (p + i) }
    ensures no_record { (ring other p b : ℕ) (homes : List ℕ) → AllByRecursion (λ home. home ≢ b) homes
        → logged_or ring other p homes b ≡ other }
{}
