// Blocks that are kept in memory.
ghost use Rattle.std.specs.Prelude.{◌≡◌, ◌↔◌, ◌+◌, ◌-◌, ◌<◌, ◌≤◌, ◌==◌, ◌++◌, ℕ, [], length, None, IsTrue, OnOk, OnErr};
ghost use Rattle.std.specs.Option.{option_copied};
ghost use Rattle.std.specs.Vec.{vec_capacity};
ghost use Rattle.volume_codec.specs.Descriptor.{RiseWithin};
ghost use Rattle.kept_blocks.specs.Blocks.{homes_in, bytes_in, all_bytes, AreWholeBlocks, with_home, with_zeros};
ghost use Rattle.kept_blocks.specs.Blocks.{without_run, cut_in};

use crate::cutting::{cut_off, has_whole_block};
use std::alloc::{AllocError, Allocator};
use std::collections::BTreeMap;
use std::marker::Model;

/// Home blocks with their bytes, ordered by rising numbers.
#[derive(Drop)]
pub struct Blocks<A: Allocator + Copy> {
    tree: BTreeMap<u32, Box<[u8; 4096], A>, A>,
}

impl<A: Allocator + Copy> Model for Blocks<A> {
    ghost use Rattle.std.specs.Prelude.{map};
    ghost use Rattle.kept_blocks.specs.Blocks.{Blocks as BlocksValue, AreWholeBlocks};

    ghost Value = { BlocksValue };

    ghost view = { λ b. map (λ entry. (entry.0, entry.1.value)) b.tree.entries };

    ghost invariant = { λ b. AreWholeBlocks (map (λ entry. (entry.0, entry.1.value)) b.tree.entries) };
}

impl<A: Allocator + Copy> Blocks<A> {
    /// Returns an empty collection. It allocates no memory.
    pub fn new(alloc: A) -> Self
        ensures { result ≡ [] }
    {
        Blocks {
            tree: BTreeMap::new(alloc),
        }
    }

    /// Returns the number of blocks.
    pub fn len(&self) -> usize
        ensures { result ≡ length self.now }
    {
        self.tree.len()
    }

    /// States that each block has 4,096 bytes.
    pub fn are_whole(&self)
        ensures { AreWholeBlocks self.now }
    {
        let _ = &self.tree;
    }

    /// Whether there is no block.
    pub fn is_empty(&self) -> bool
        ensures { IsTrue result ↔ (self.now ≡ []) }
    {
        self.len() == 0
    }

    /// Returns the bytes of a home block, if it is one of these.
    pub fn get(&self, home: u32) -> Option<&[u8; 4096]>
        ensures { option_copied result ≡ bytes_in self.now home }
    {
        match self.tree.get(&home) {
            Some(bytes) => Some(&**bytes),
            None => None,
        }
    }

    /// Sets the bytes of a home block. If this fails, nothing has changed.
    pub fn put(&mut self, home: u32, bytes: Box<[u8; 4096], A>) -> Result<(), AllocError>
        ensures ok { OnOk result (self.new ≡ with_home self.old home bytes.value) }
        ensures err { OnErr result (self.new ≡ self.old) }
        ensures absent { OnErr result (bytes_in self.old home ≡ None) }
    {
        has_whole_block(&bytes);
        self.tree.insert(home, bytes)?;
        Ok(())
    }

    /// Removes all home blocks.
    pub fn clear(&mut self)
        ensures { self.new ≡ [] }
    {
        self.tree.clear();
    }

    /// Removes the home blocks from `low` up to, but not including, `high`.
    pub fn remove(&mut self, low: u32, high: u32)
        ensures { self.new ≡ without_run self.old low high }
    {
        self.tree.retain(|home, _| *home < low || high <= *home);
    }

    /// Sets the bytes of a home block after the first `left` to zero, if it is one of these.
    pub fn cut(&mut self, home: u32, left: u64)
        ensures { self.new ≡ cut_in self.old home left }
    {
        self.tree.retain(|key, bytes| {
            if *key == home {
                cut_off(bytes, left);
            }
            true
        });
    }

    // Sets the home blocks from `low` up to, but not including, `high` to zeros. If this fails, no other block has
    // changed.
    fn put_zeros(&mut self, alloc: A, low: u32, high: u32) -> Result<(), AllocError>
        requires { low ≤ high }
        ensures ok { OnOk result (self.new ≡ with_zeros self.old low (high - low)) }
        ensures err { OnErr result (without_run self.new low high ≡ without_run self.old low high) }
    {
        for home in low..high {
            let block = Box::new(alloc, [0; 4096])?;
            self.put(home, block)?;
        }
        Ok(())
    }

    // Sets the home blocks from `low` up to `high` to zeros, and another block to a text. If this fails, only blocks
    // from `low` up to `high` have changed.
    fn fill(
        &mut self,
        alloc: A,
        low: u32,
        high: u32,
        first: u32,
        text: &[u8; 4096],
    ) -> Result<(), AllocError>
        requires { low ≤ high }
        ensures ok { OnOk result
            (self.new ≡ with_home (with_zeros self.old low (high - low)) first text.now) }
        ensures err { OnErr result (without_run self.new low high ≡ without_run self.old low high) }
    {
        self.put_zeros(alloc, low, high)?;
        let block = Box::new(alloc, *text)?;
        self.put(first, block)
    }

    /// Grows a file: sets its last page, and sets the first home block to the text of the lengths. The home blocks
    /// after that page and before `high` become zeros. If this fails, nothing has changed.
    pub fn grow(
        &mut self,
        alloc: A,
        home: u32,
        high: u32,
        last: &[u8; 4096],
        first: u32,
        text: &[u8; 4096],
    ) -> Result<(), AllocError>
        requires order { (first < home) × (home < high) }
        requires rising { (end : ℕ) × (high ≤ end) × RiseWithin first end (homes_in self.old) }
        requires none { (q : ℕ) → home < q → q < high → bytes_in self.old q ≡ None }
        ensures ok { OnOk result (self.new ≡ with_home
            (with_home (with_zeros self.old (home + 1) (high - (home + 1))) home last.now) first text.now) }
        ensures err { OnErr result (self.new ≡ self.old) }
    {
        let block = Box::new(alloc, *last)?;
        let low = if self.get(home).is_some() {
            home + 1
        } else {
            home
        };
        match self.fill(alloc, low, high, first, text) {
            Ok(()) => {
                // The block is already here, so this can't fail.
                let _ = self.put(home, block);
                Ok(())
            }
            Err(error) => {
                self.remove(low, high);
                Err(error)
            }
        }
    }

    /// Shrinks a file: cuts its last page, and sets the first home block to the text of the lengths. Removes the home
    /// blocks from `low` up to, but not including, `high`. If this fails, nothing has changed.
    pub fn shrink(
        &mut self,
        alloc: A,
        low: u32,
        high: u32,
        home: u32,
        left: u64,
        first: u32,
        text: &[u8; 4096],
    ) -> Result<(), AllocError>
        requires order { (first < low) × (first < home) }
        requires rising { (end : ℕ) × RiseWithin first end (homes_in self.old) }
        ensures ok { OnOk result
            (self.new ≡ with_home (cut_in (without_run self.old low high) home left) first text.now) }
        ensures err { OnErr result (self.new ≡ self.old) }
    {
        let block = Box::new(alloc, *text)?;
        self.put(first, block)?;
        self.remove(low, high);
        self.cut(home, left);
        Ok(())
    }

    /// Adds the numbers of the home blocks to an empty list that has room for them.
    pub fn list_homes(&self, list: &mut Vec<u32, A>)
        requires none { list.old.items ≡ [] }
        requires room { length self.now ≤ vec_capacity list.old }
        ensures items { list.new.items ≡ homes_in self.now }
        ensures room { vec_capacity list.old ≤ vec_capacity list.new }
    {
        for home in self.tree.keys() {
            // The list has room for it.
            let _ = list.push(*home);
        }
    }
    /// Adds the bytes of all blocks to a list, in the order of the blocks.
    pub fn list_bytes(&self, list: &mut Vec<u8, A>) -> Result<(), AllocError>
        ensures bytes { OnOk result (list.new.items ≡ list.old.items ++ all_bytes self.now) }
        ensures whole { AreWholeBlocks self.now }
    {
        for (_home, bytes) in &self.tree {
            list.extend_from_slice(&**bytes)?;
        }
        Ok(())
    }
}
