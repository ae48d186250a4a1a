// Writes to the volume, and its gates.
ghost use Rattle.std.specs.Prelude.{◌≡◌, ◌↔◌, ◌⊎◌, ◌<◌, ◌≤◌, ◌+◌, ◌*◌, ℕ, List, [], ◌∷◌, IsTrue, IfOk, IfErr, IfSome};
ghost use Rattle.std.specs.Prelude.{OnOk, OnErr, length, Some, slice_index, true};
ghost use Rattle.device.specs.Device.{written};
ghost use Rattle.volume_codec.specs.Layout.{journals_of, gate_block, descriptor_block, descriptor_blocks, record_block};
ghost use Rattle.volume_codec.specs.Recovery.{Batch, IsNewer, has_journal};
ghost use Rattle.kept_blocks.specs.Blocks.{bytes_in, with_home};
ghost use Rattle.journal.specs.WriteOut.{IsBatch};
ghost use Rattle.machine_log.specs.Shown.{ShownValue, IsAdmitted, StaysShown, MayOpen, OpensShown};
ghost use Rattle.machine_log.specs.inside.Closing.{AreHomeBy, ClosesOldest, HasText};

use crate::opened::OpenJournal;
use crate::shown::{ShownVolume, has_journal, has_record};
use std::alloc::{AllocError, Allocator};
use volume_codec::{read_descriptor, recovered_from};

// Shows that a block has 4,096 bytes.
fn is_whole(_block: &[u8; 4096])
    ensures { length _block.now ≡ 4096 }
{}

// Whether two blocks have the same bytes.
fn are_equal(block: &[u8], other: &[u8]) -> bool
    ensures { IsTrue result ↔ (block.now ≡ other.now) }
{
    block == other
}

impl<A: Allocator + Copy> ShownVolume<A> {
    /// Whether a block may be written, because recovery doesn't read it.
    pub fn admits(&self, block: u32) -> bool
        ensures { IsTrue result → IsAdmitted self.now block }
    {
        match self.journal_of(block) {
            Some(journal) => !self.is_open(journal),
            None => self.has_record_of(block),
        }
    }

    /// Keeps the bytes of a block that may be written. On failure nothing changes.
    pub fn write(&mut self, block: u32, bytes: &[u8; 4096]) -> Result<(), AllocError>
        requires admitted { IsAdmitted self.old block }
        ensures kept { OnOk result
            (self.new ≡ record self.old { blocks = with_home self.old.blocks block bytes.now }) }
        ensures stays { OnOk result (StaysShown self.old self.new (λ seen. written seen (4096 * block) bytes.now)) }
        ensures unchanged { OnErr result (self.new ≡ self.old) }
    {
        let copy = Box::new(self.alloc, *bytes)?;
        self.blocks.put(block, copy)
    }

    // Returns the blocks of a journal's descriptor, one after the other, if all of them are kept.
    fn descriptor_of(&self, journal: u32) -> Result<Option<Vec<u8, A>>, AllocError>
        requires there { journal < journals_of self.now.geometry.layout }
        ensures { IfOk result (λ found. IfSome found (λ bytes. HasText self.now journal bytes.items)) }
    {
        let first = self.geometry.descriptor_block(journal);
        let mut bytes = Vec::new(self.alloc);
        for i in 0..self.geometry.descriptor_blocks() {
            match self.blocks.get(first + i) {
                Some(block) => {
                    is_whole(block);
                    bytes.extend_from_slice(block)?;
                }
                None => return Ok(None),
            }
        }
        Ok(Some(bytes))
    }

    // Whether a batch of this mark is newer than those of the open journals.
    fn is_newer(&self, mark: u64) -> bool
        ensures { IsTrue result → (batch : Batch) → batch.mark ≡ mark → IsNewer batch self.now.opened }
    {
        match self.opened.first() {
            Some(newest) => newest.mark() < mark,
            None => true,
        }
    }

    /// Returns the batch that opening this journal's gate would commit, if there is one. Then the journal is closed,
    /// its descriptor is kept, and the batch is newer than those of the open journals.
    pub fn batch_in(&self, journal: u32) -> Result<Option<OpenJournal<A>>, AllocError>
        requires there { journal < journals_of self.now.geometry.layout }
        ensures { IfOk result (λ found. IfSome found
            (λ batch. (batch.journal ≡ journal) × MayOpen self.now batch)) }
    {
        if self.is_open(journal) {
            return Ok(None);
        }
        let Some(bytes) = self.descriptor_of(journal)? else {
            return Ok(None);
        };
        let Ok(descriptor) = read_descriptor(self.alloc, &self.geometry, &bytes) else {
            return Ok(None);
        };
        if !self.is_newer(descriptor.mark()) {
            return Ok(None);
        }
        Ok(Some(OpenJournal::new(self.geometry, journal, descriptor)))
    }

    /// Returns the record at a place of a batch, if it is kept.
    pub fn record(&self, batch: &OpenJournal<A>, place: u32) -> Option<&[u8; 4096]>
        requires there { batch.now.journal < journals_of self.now.geometry.layout }
        requires within { place < self.now.geometry.slots }
        ensures { IfSome result (λ bytes.
            bytes_in self.now.blocks (record_block self.now.geometry.slots batch.now.journal place) ≡ Some bytes.now) }
    {
        self.blocks
            .get(self.geometry.record_block(batch.journal(), place))
    }

    /// Opens the gate of a batch. On failure nothing changes.
    pub fn open(&mut self, batch: OpenJournal<A>) -> Result<(), AllocError>
        requires may { MayOpen self.old batch }
        ensures opened { OnOk result (self.new ≡ record self.old { opened = batch ∷ self.old.opened }) }
        ensures opens { OnOk result (OpensShown self.old batch self.new) }
        ensures unchanged { OnErr result (self.new ≡ self.old) }
    {
        recovered_from();
        self.opened.insert(0, batch)?;
        Ok(())
    }

    // Whether each home block of a batch has its record's bytes, or a record in a newer batch.
    fn are_home(&self, oldest: &OpenJournal<A>, newer: &[OpenJournal<A>]) -> bool
        requires batch { IsBatch self.now.geometry oldest.now }
        ensures { IsTrue result → AreHomeBy self.now newer.now oldest.now }
    {
        // A batch has at most as many blocks as there are slots.
        let _slots = self.geometry.slots();
        for (place, home) in oldest.homes().iter().enumerate() {
            if has_record(newer, *home) {
                continue;
            }
            let record = self.geometry.record_block(oldest.journal(), place as u32);
            match (self.blocks.get(*home), self.blocks.get(record)) {
                (Some(bytes), Some(recorded)) if are_equal(bytes, recorded) => {}
                _ => return false,
            }
        }
        true
    }

    /// Closes the gate of a journal, if it may be closed, and returns whether it did. The gate may be closed if its
    /// batch is the oldest. Each of the batch's home blocks must have its record's bytes, or a record in a newer batch.
    ///
    /// Afterwards the blocks of the journal aren't kept any more, and no home blocks are kept once all journals are
    /// closed. If it returns false, nothing changes.
    pub fn close(&mut self, journal: u32) -> bool
        requires there { journal < journals_of self.old.geometry.layout }
        ensures closed { result ≡ true → StaysShown self.old self.new
            (λ seen. written seen (4096 * gate_block self.old.geometry.slots journal) (0 ∷ [])) }
        ensures geometry { self.new.geometry ≡ self.old.geometry }
        ensures unchanged { IsTrue result ⊎ (self.new ≡ self.old) }
    {
        if !self.may_close(journal) {
            return false;
        }
        drop(self.opened.pop());
        let gate = self.geometry.gate_block(journal);
        let end = gate + 1 + self.geometry.descriptor_blocks() + self.geometry.slots();
        self.blocks.remove(gate, end);
        if self.opened.is_empty() {
            self.blocks.remove(self.geometry.first_home(), u32::MAX);
        }
        true
    }

    // Whether the gate of a journal may be closed.
    fn may_close(&self, journal: u32) -> bool
        ensures { IsTrue result → ClosesOldest self.now journal }
    {
        let Some(last) = self.opened.len().checked_sub(1) else {
            return false;
        };
        let oldest = &self.opened[last];
        let newer = &self.opened[..last];
        if oldest.journal() != journal {
            return false;
        }
        if has_journal(newer, journal) {
            return false;
        }
        self.are_home(oldest, newer)
    }
}
