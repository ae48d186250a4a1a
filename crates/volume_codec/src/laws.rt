// What follows from the definitions alone.
ghost use Rattle.std.specs.Prelude.{◌≡◌, ◌≢◌, ℕ, ◌+◌, ◌*◌, ◌/◌, ◌%◌, ◌<◌, ◌≤◌, List, ◌∷◌, length, take, drop, slice_index, slice_get, Some};
ghost use Rattle.std.specs.List.{AllByRecursion};
ghost use Rattle.volume_codec.specs.declared.layout.Layout.TheVariants.{One, Two, Three, Four};
ghost use Rattle.volume_codec.specs.Files.{File, TableFile};
ghost use Rattle.volume_codec.specs.Layout.{GeometryValue, IsGeometry, IsHome, journals_of, descriptor_blocks, gate_block, descriptor_block, record_block, first_home, first_file_home, block_at};
ghost use Rattle.volume_codec.specs.Super.{SuperValue, Fits, IsSuper, pages_of, first_home_of, block_count, geometry_of};
ghost use Rattle.volume_codec.specs.Descriptor.{DescriptorValue, RiseWithin, IsDescriptor};
ghost use Rattle.volume_codec.specs.Lengths.{IsLengths, HasLengths, lengths_in};
ghost use Rattle.volume_codec.specs.Recovery.{Batch, AreOpen, recovered_block, blocks_from, contents_in, files_in, Recovers, RecoversTo, IsVolume};

/// Each value has one reading:
/// - A block contains at most one table.
/// - Blocks contain at most one descriptor in a volume of one geometry.
/// - A block contains at most one list of lengths in a volume with one table.
/// - Bytes have at most one list of open batches, and recover to at most one table, contents and list of files.
///
/// So reading a written block returns the written value.
pub fn one_reading()
    ensures tables { (v w : SuperValue) (block : List ℕ) → IsSuper v block → IsSuper w block → v ≡ w }
    ensures descriptors { (g : GeometryValue) (d e : DescriptorValue) (block : List ℕ) → IsGeometry g
        → IsDescriptor g d block → IsDescriptor g e block → d ≡ e }
    ensures lengths { (v : SuperValue) (lengths others : List ℕ) (block : List ℕ) → Fits v
        → IsLengths v lengths block → IsLengths v others block → lengths ≡ others }
    ensures batches { (g : GeometryValue) (batches others : List Batch) (bytes : List ℕ) → IsGeometry g
        → AreOpen g batches bytes → AreOpen g others bytes → batches ≡ others }
    ensures contents { (v w : SuperValue) (contents others : ℕ → List ℕ) (bytes : List ℕ)
        → Recovers v contents bytes → Recovers w others bytes
        → (v ≡ w) × ((b : ℕ) → IsHome (geometry_of v) b → contents b ≡ others b) }
    ensures files { (bytes : List ℕ) (files others : List File) → RecoversTo bytes files → RecoversTo bytes others
        → files ≡ others }
{}

/// Where the layouts place their parts. With J slots, up to 1,020, a descriptor has one block.
/// - Journal 0 has its gate in block 1, its descriptor in block 2 and record i in block 3 + i.
/// - In layouts 2 and 3, journal 1 has its gate in block 3 + J, its descriptor in block 4 + J and record i in block 5 +
///   J + i.
/// - Home blocks begin at 3 + J in layout 1, and at 5 + 2J in layouts 2 and 3.
/// - In layout 3 block 5 + 2J contains the lengths, and the home blocks of files begin at 6 + 2J.
///
/// In general a descriptor has D blocks, with room for 16 bytes and 4 bytes for each slot. The gate of journal j is in
/// block 1 + j (1 + D + J). In layout 4 the lengths are in block 1 + 4 (1 + D + J), and the home blocks of files
/// follow. In every volume the parts of its journals are apart, and come before the home blocks.
pub fn parts_of_layouts()
    ensures one_block { (slots : ℕ) → slots ≤ 1020 → descriptor_blocks slots ≡ 1 }
    ensures room { (slots : ℕ) → 16 + 4 * slots ≤ 4096 * descriptor_blocks slots }
    ensures no_more { (slots : ℕ) → 4096 * descriptor_blocks slots < 16 + 4 * slots + 4096 }
    ensures first_journal { (slots i : ℕ) → slots ≤ 1020
        → (gate_block slots 0 ≡ 1) × (descriptor_block slots 0 ≡ 2) × (record_block slots 0 i ≡ 3 + i) }
    ensures second_journal { (slots i : ℕ) → slots ≤ 1020
        → (gate_block slots 1 ≡ 3 + slots) × (descriptor_block slots 1 ≡ 4 + slots)
        × (record_block slots 1 i ≡ 5 + slots + i) }
    ensures each_journal { (slots j i : ℕ) → let d = descriptor_blocks slots in
        (gate_block slots j ≡ 1 + j * (1 + d + slots)) × (descriptor_block slots j ≡ 1 + gate_block slots j)
        × (record_block slots j i ≡ descriptor_block slots j + d + i) }
    ensures homes { (slots : ℕ) → slots ≤ 1020
        → (first_home One slots ≡ 3 + slots) × (first_home Two slots ≡ 5 + 2 * slots)
        × (first_home Three slots ≡ 5 + 2 * slots) }
    ensures file_homes { (slots : ℕ) → slots ≤ 1020 → (first_file_home One slots ≡ 3 + slots)
        × (first_file_home Two slots ≡ 5 + 2 * slots) × (first_file_home Three slots ≡ 6 + 2 * slots) }
    ensures four_homes { (slots : ℕ) → let d = descriptor_blocks slots in
        (first_home Four slots ≡ 5 + 4 * (d + slots)) × (first_file_home Four slots ≡ 6 + 4 * (d + slots)) }
    ensures in_order { (g : GeometryValue) (j i k : ℕ) → j < journals_of g.layout → i < g.slots
        → k < descriptor_blocks g.slots
        → (gate_block g.slots j < descriptor_block g.slots j)
        × (descriptor_block g.slots j + k < record_block g.slots j i)
        × (record_block g.slots j i < first_home g.layout g.slots) }
    ensures apart { (slots j k i : ℕ) → j < k → i < slots → record_block slots j i < gate_block slots k }
    ensures whole { (g : GeometryValue) → IsGeometry g → first_home g.layout g.slots < g.blocks }
{}

/// The source of recovered contents. Record i of the newest batch replaces its home block. Every other block recovers
/// as it does without that batch, and a home block without a record recovers to itself.
///
/// All parts of a volume are in its first 4,096 x block count bytes. Each home block of its contents has 4,096 bytes.
pub fn recovered_from()
    ensures record_of_newest { (slots low high : ℕ) (batch : Batch) (older : List Batch) (i : ℕ)
        → RiseWithin low high batch.homes → i < length batch.homes
        → recovered_block slots (batch ∷ older) (slice_index batch.homes i) ≡ record_block slots batch.journal i }
    ensures no_record { (slots b : ℕ) (batch : Batch) (older : List Batch)
        → AllByRecursion (λ home. home ≢ b) batch.homes
        → recovered_block slots (batch ∷ older) b ≡ recovered_block slots older b }
    ensures within { (v : SuperValue) (contents : ℕ → List ℕ) (bytes other : List ℕ)
        → Recovers v contents bytes → take (4096 * block_count v) other ≡ take (4096 * block_count v) bytes
        → Recovers v contents other }
    ensures whole { (v : SuperValue) (contents : ℕ → List ℕ) (bytes : List ℕ) (b : ℕ)
        → Recovers v contents bytes → IsHome (geometry_of v) b → length (contents b) ≡ 4096 }
{}

/// Files consist of the contents of home blocks alone. The bytes of file i are those of its home blocks, one after
/// another, cut at its length. If the contents are a device's own blocks, these bytes are a range of the device.
pub fn files_from_contents()
    ensures same { (v : SuperValue) (contents others : ℕ → List ℕ)
        → ((b : ℕ) → IsHome (geometry_of v) b → contents b ≡ others b) → files_in v contents ≡ files_in v others }
    ensures file { (v : SuperValue) (contents : ℕ → List ℕ) (i n : ℕ) (f : TableFile) → slice_get v.files i ≡ Some f
        → slice_get (lengths_in v contents) i ≡ Some n
        → slice_get (files_in v contents) i ≡ Some (record {
          name = f.name;
          bytes = take n (blocks_from contents (first_home_of v i) (pages_of f.capacity));
          capacity = f.capacity;
        }) }
    ensures lengths { (v : SuperValue) (contents : ℕ → List ℕ) → length (lengths_in v contents) ≡ length v.files }
    ensures within { (v : SuperValue) (contents : ℕ → List ℕ) (i n : ℕ) (f : TableFile) → HasLengths v contents
        → slice_get v.files i ≡ Some f → slice_get (lengths_in v contents) i ≡ Some n → n ≤ f.capacity }
    ensures device { (bytes : List ℕ) (b n : ℕ)
        → blocks_from (block_at bytes) b n ≡ take (4096 * n) (drop (4096 * b) bytes) }
    ensures byte { (contents : ℕ → List ℕ) (b n k : ℕ) → ((i : ℕ) → b ≤ i → i < b + n → length (contents i) ≡ 4096)
        → k < 4096 * n
        → slice_index (blocks_from contents b n) k ≡ slice_index (contents (b + k / 4096)) (k % 4096) }
{}
