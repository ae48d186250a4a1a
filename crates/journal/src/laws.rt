// Facts that follow from the definitions alone.
ghost use Rattle.std.specs.Prelude.{◌≡◌, ◌↔◌, ℕ, ◌+◌, ◌*◌, ◌<◌, ◌≤◌, true, false, List, [], ◌∷◌, ◌++◌, length, map, slice_index, Contains, Some, None, IsSome, MatchBool};
ghost use Rattle.std.specs.List.{list_any};
ghost use Rattle.device.specs.Device.{Torn, Only};
ghost use Rattle.volume_codec.specs.Layout.{GeometryValue, IsGeometry, IsHome, journals_of, gate_block, descriptor_block, descriptor_blocks, record_block, block_at, blocks_at};
ghost use Rattle.volume_codec.specs.Super.{SuperValue, geometry_of};
ghost use Rattle.volume_codec.specs.Descriptor.{descriptor_text};
ghost use Rattle.volume_codec.specs.Recovery.{Batch, IsOpen, IsNewer, has_journal, IsVolume};
ghost use Rattle.journal.specs.declared.stage.Stage.TheVariants.{Committing, Finishing};
ghost use Rattle.journal.specs.Stage.{stage_at, has_writes, is_ahead};
ghost use Rattle.journal.specs.declared.flushed.Flushed.{Flushed};
ghost use Rattle.journal.specs.declared.flushed.Flushed.TheVariants.{Committed};
ghost use Rattle.journal.specs.WriteOut.{WriteOut, IsBatch, FlushValue, next_stage, advanced_of, has_committed, answer_of, calls_in_steps};
ghost use Rattle.journal.specs.WriteOuts.{WriteOutsValue, has_uncommitted, shares_syncs, is_at, moving, moved, current, advanced, current_stage, HasBlock, outs_after, is_busy};
ghost use Rattle.journal.specs.Commits.{HaveCommitted, HaveGoneOn};
ghost use Rattle.journal.specs.Recovered.{RecoversBy, IsUnread};
ghost use Rattle.journal.specs.Crash.{LeftBefore, LeftWithin};
ghost use Rattle.journal.specs.LedTo.{HasLedTo};
ghost use Rattle.journal.specs.Alone.{HasLedAlone};

use device::Device;

/// States the steps of some stages, for a write-out of k blocks whose descriptor has d blocks. Step k + d + 3 commits
/// the batch, and step 2k + d + 6 is the last one. All steps together make 3k + d + 6 device calls.
pub fn steps_of_a_write_out()
    ensures commits { (k d : ℕ) → stage_at k d (k + d + 2) ≡ Some Committing }
    ensures finishes { (k d : ℕ) → stage_at k d (2 * k + d + 5) ≡ Some Finishing }
    ensures ends { (k d n : ℕ) → (stage_at k d n ≡ None) ↔ (2 * k + d + 6 ≤ n) }
    ensures calls { (g : GeometryValue) (batch : Batch) → let k = length batch.homes in
        let d = descriptor_blocks g.slots in calls_in_steps g batch (2 * k + d + 6) ≡ 3 * k + d + 6 }
{}

/// States that a step returns `Committed` exactly if it commits the batch: the batch is not committed before the step,
/// and is committed after it.
pub fn a_step_answers_what_it_commits()
    ensures { (w : WriteOut) (mark : ℕ) → (answer_of w ≡ Committed mark)
        ↔ ((mark ≡ w.batch.mark) × (has_committed w ≡ false) × (has_committed (advanced_of w) ≡ true)) }
{}

/// States which write-out makes the next step. If the newest batch isn't committed, its write-out does, and only that
/// one changes. If all batches after the oldest are committed, the oldest write-out does. (In `WriteOuts` only the
/// newest batch can be uncommitted.)
pub fn whose_step_comes_next()
    ensures newest { (older : List WriteOut) (newest : WriteOut) → has_committed newest ≡ false
        → (current (older ++ newest ∷ []) ≡ Some newest)
        × (advanced (older ++ newest ∷ []) ≡ older ++ advanced_of newest ∷ []) }
    ensures oldest { (oldest : WriteOut) (newer : List WriteOut) → has_uncommitted newer ≡ false
        → (current (oldest ∷ newer) ≡ Some oldest) × (advanced (oldest ∷ newer) ≡ advanced_of oldest ∷ newer) }
{}

/// States which write-out makes the next step if syncs are shared. The newest makes its steps alone until its records
/// are to be synced, and from there to its commit. Otherwise the oldest that has something to write makes the next step
/// alone. If none has anything to write, all make the step, by one sync.
pub fn whose_step_comes_next_with_shared_syncs()
    ensures ahead { (older : List WriteOut) (newest : WriteOut) → is_at is_ahead newest ≡ true
        → (moving true (older ++ newest ∷ []) ≡ Some newest)
        × (moved true (older ++ newest ∷ []) ≡ older ++ advanced_of newest ∷ []) }
    ensures writer { (older : List WriteOut) (writer : WriteOut) (newer : List WriteOut)
        → list_any (is_at has_writes) older ≡ false → is_at has_writes writer ≡ true
        → list_any (is_at is_ahead) (writer ∷ newer) ≡ false
        → (moving true (older ++ writer ∷ newer) ≡ Some writer)
        × (moved true (older ++ writer ∷ newer) ≡ older ++ advanced_of writer ∷ newer) }
    ensures all { (oldest : WriteOut) (newer : List WriteOut) → IsSome (next_stage oldest)
        → list_any (is_at is_ahead) (oldest ∷ newer) ≡ false → list_any (is_at has_writes) (oldest ∷ newer) ≡ false
        → (moving true (oldest ∷ newer) ≡ Some oldest)
        × (moved true (oldest ∷ newer) ≡ map advanced_of (oldest ∷ newer)) }
{}

/// States that consecutive commits make two syncs each if syncs are shared. The second sync commits a batch. By then
/// the home blocks of the previous batch are durable, and so is the closed gate of the batch before that.
pub fn two_syncs_a_commit()
    ensures { (g : GeometryValue) (outs : WriteOutsValue) (commits syncs : ℕ) → IsGeometry g
        → shares_syncs g.layout ≡ true → HaveCommitted g outs commits syncs → has_uncommitted outs.batches ≡ false
        → syncs ≡ 2 * commits }
{}

/// States that at most two more syncs finish the last of these commits, if no batch follows.
pub fn two_more_syncs_at_the_end()
    ensures { (g : GeometryValue) (outs ended : WriteOutsValue) (commits syncs more : ℕ) → IsGeometry g
        → shares_syncs g.layout ≡ true → HaveCommitted g outs commits syncs → has_uncommitted outs.batches ≡ false
        → HaveGoneOn outs ended more → more ≤ 2 }
{}

/// States that, with shared syncs, a batch may begin once the previous one is committed. At most two batches are in
/// progress then.
pub fn a_journal_is_free<D: Device>(device: &D)
    ensures { (v : SuperValue) (outs : WriteOutsValue) (old new : ℕ → List ℕ)
        → HasLedTo D.Device v outs old new device.now → shares_syncs v.layout ≡ true
        → has_uncommitted outs.batches ≡ false → (length outs.batches ≤ 2) × (is_busy outs ≡ false) }
{}

/// States that a step makes no batch: each batch that is not done after the step was there before it.
pub fn no_step_makes_a_batch()
    ensures { (outs : WriteOutsValue) (answer : Flushed) (w : WriteOut) → Contains (outs_after outs answer).batches w
        → (before : WriteOut) × Contains outs.batches before × (before.batch ≡ w.batch) }
{}

/// States what is on a device after any batches and steps that led to these write-outs: what a crash may leave, what a
/// read of a home block returns, and what the device contains once all batches are done.
pub fn what_write_outs_leave<D: Device>(device: &D)
    ensures left { (v : SuperValue) (outs : WriteOutsValue) (old new : ℕ → List ℕ)
        → HasLedTo D.Device v outs old new device.now → (c : List ℕ) → D.may_leave device.now c
        → MatchBool outs.broken (LeftWithin v old new (current_stage outs) c)
        (LeftBefore v old new (current_stage outs) c) }
    ensures reads { (v : SuperValue) (outs : WriteOutsValue) (old new : ℕ → List ℕ)
        → HasLedTo D.Device v outs old new device.now → outs.broken ≡ false
        → (b : ℕ) → IsHome (geometry_of v) b → (HasBlock outs b → ⊥) → block_at (D.seen device.now) b ≡ new b }
    ensures rests { (v : SuperValue) (outs : WriteOutsValue) (old new : ℕ → List ℕ)
        → HasLedTo D.Device v outs old new device.now → outs.broken ≡ false → outs.batches ≡ []
        → IsVolume v [] (D.seen device.now) × Only (D.may_leave device.now) (D.seen device.now) }
{}

/// States the same for the only write-out of a volume. Once it is done, New is on the disk, and no journal is open.
pub fn what_a_write_out_leaves<D: Device>(device: &D)
    ensures left { (v : SuperValue) (flush : FlushValue) (old new : ℕ → List ℕ)
        → HasLedAlone D.Device v flush old new device.now → (c : List ℕ) → D.may_leave device.now c
        → MatchBool flush.broken (LeftWithin v old new (next_stage flush.write_out) c)
        (LeftBefore v old new (next_stage flush.write_out) c) }
    ensures reads { (v : SuperValue) (flush : FlushValue) (old new : ℕ → List ℕ)
        → HasLedAlone D.Device v flush old new device.now → flush.broken ≡ false → (b : ℕ) → IsHome (geometry_of v) b
        → (Contains flush.write_out.batch.homes b → ⊥) → block_at (D.seen device.now) b ≡ new b }
    ensures rests { (v : SuperValue) (flush : FlushValue) (old new : ℕ → List ℕ)
        → HasLedAlone D.Device v flush old new device.now → flush.broken ≡ false → next_stage flush.write_out ≡ None
        → IsVolume v [] (D.seen device.now) × Only (D.may_leave device.now) (D.seen device.now)
        × ((b : ℕ) → IsHome (geometry_of v) b → block_at (D.seen device.now) b ≡ new b) }
{}

/// States that blocks which recovery doesn't read may change freely. The bytes still recover to the same contents, by
/// the same batches. Such a block is in the record slots or the descriptor of a closed journal. Or it is a home block
/// that has a record in an open journal.
pub fn unread_blocks()
    ensures kept { (v : SuperValue) (opened : List Batch) (contents : ℕ → List ℕ) (c torn : List ℕ) (block n : ℕ)
        → RecoversBy v opened contents c → IsUnread v opened block → n ≤ 4096 → Torn (4096 * block) n c torn
        → RecoversBy v opened contents torn }
    ensures record_slot { (v : SuperValue) (opened : List Batch) (c : List ℕ) (j i : ℕ) → IsVolume v opened c
        → j < journals_of v.layout → i < v.slots → has_journal opened j ≡ false
        → IsUnread v opened (record_block v.slots j i) }
    ensures descriptor { (v : SuperValue) (opened : List Batch) (c : List ℕ) (j i : ℕ) → IsVolume v opened c
        → j < journals_of v.layout → i < descriptor_blocks v.slots → has_journal opened j ≡ false
        → IsUnread v opened (descriptor_block v.slots j + i) }
    ensures home { (v : SuperValue) (opened : List Batch) (c : List ℕ) (batch : Batch) (b : ℕ) → IsVolume v opened c
        → Contains opened batch → Contains batch.homes b → IsHome (geometry_of v) b → IsUnread v opened b }
{}

// Rule: torn gate
/// States how torn gate bytes change the recovered contents:
///
/// * If the gate remains open or remains closed, the contents are unchanged.
/// * If the gate opens over a complete descriptor and its records, the records become the contents of the batch's
///   blocks.
/// * If the gate of the oldest batch closes, and its records are all at home, the contents are unchanged.
pub fn torn_gates()
    ensures kept { (v : SuperValue) (opened : List Batch) (contents : ℕ → List ℕ) (c torn : List ℕ) (j : ℕ)
        → RecoversBy v opened contents c → j < journals_of v.layout → Torn (4096 * gate_block v.slots j) 1 c torn
        → (IsOpen torn v.slots j → IsOpen c v.slots j) → (IsOpen c v.slots j → IsOpen torn v.slots j)
        → RecoversBy v opened contents torn }
    ensures opens { (v : SuperValue) (opened : List Batch) (old new : ℕ → List ℕ) (batch : Batch) (c torn : List ℕ)
        → RecoversBy v opened old c → IsBatch (geometry_of v) batch → IsNewer batch opened
        → has_journal opened batch.journal ≡ false
        → blocks_at c (descriptor_block v.slots batch.journal) (descriptor_blocks v.slots)
        ≡ descriptor_text v.slots (record { mark = batch.mark; homes = batch.homes })
        → ((i : ℕ) → i < length batch.homes
        → block_at c (record_block v.slots batch.journal i) ≡ new (slice_index batch.homes i))
        → ((b : ℕ) → (Contains batch.homes b → ⊥) → new b ≡ old b)
        → Torn (4096 * gate_block v.slots batch.journal) 1 c torn → IsOpen torn v.slots batch.journal
        → RecoversBy v (batch ∷ opened) new torn }
    ensures closes { (v : SuperValue) (newer : List Batch) (oldest : Batch) (contents : ℕ → List ℕ) (c torn : List ℕ)
        → RecoversBy v (newer ++ oldest ∷ []) contents c → has_journal newer oldest.journal ≡ false
        → ((i : ℕ) → i < length oldest.homes
        → block_at c (slice_index oldest.homes i) ≡ block_at c (record_block v.slots oldest.journal i))
        → Torn (4096 * gate_block v.slots oldest.journal) 1 c torn → (IsOpen torn v.slots oldest.journal → ⊥)
        → RecoversBy v newer contents torn }
{}
