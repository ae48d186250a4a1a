// The newest record of each home block.
ghost use Rattle.std.specs.Prelude.{◌≡◌, ◌<◌, ◌≤◌, ◌+◌, ℕ, [], length, OnOk};
ghost use Rattle.std.specs.List.{Contains};
ghost use Rattle.volume_codec.specs.Descriptor.{RiseWithin};
ghost use Rattle.log_home.specs.Index.{find_in, indexed_homes, recorded_or, is_from, from_number};

use log_codec::LogGeometry;
use std::alloc::{AllocError, Allocator};
use std::collections::BTreeMap;
use std::marker::Model;

/// Where a record lies.
#[derive(Clone, Copy, PartialEq, Eq, Debug)]
pub struct Newest {
    /// The number of its commit.
    pub number: u64,
    /// Its block, which is one of the log.
    pub block: u32,
}

// Whether there is a record, and its commit has this number or a later one.
fn is_from(newest: &Option<Newest>, below: u64) -> bool
    ensures { result ≡ is_from below newest.now }
{
    match newest {
        Some(newest) => newest.number >= below,
        None => false,
    }
}

/// The newest record of each home block in the commits of a log, with room for further records.
#[derive(Drop)]
pub struct LogIndex<A: Allocator + Copy> {
    tree: BTreeMap<u32, Option<Newest>, A>,
}

impl<A: Allocator + Copy> Model for LogIndex<A> {
    ghost use Rattle.log_home.specs.Index.{Entries};

    ghost Value = { Entries };

    ghost view = { λ index. index.tree.entries };
}

impl<A: Allocator + Copy> LogIndex<A> {
    /// Makes the index of a log without commits. Takes no memory.
    pub fn new(alloc: A) -> Self
        ensures { result ≡ [] }
    {
        LogIndex {
            tree: BTreeMap::new(alloc),
        }
    }

    /// Returns the newest record of a home block, if a commit has one.
    pub fn find(&self, home: u32) -> Option<Newest>
        ensures { result ≡ find_in self.now home }
    {
        match self.tree.get(&home) {
            Some(newest) => *newest,
            None => None,
        }
    }

    /// Takes the memory for records of these home blocks. No record changes, even if the call fails.
    pub fn admit(&mut self, homes: &[u32]) -> Result<(), AllocError>
        ensures same { (b : ℕ) → find_in self.new b ≡ find_in self.old b }
        ensures room { OnOk result ((b : ℕ) → Contains homes.now b → Contains (indexed_homes self.new) b) }
    {
        for home in homes {
            self.admit_one(*home)?;
        }
        Ok(())
    }

    // Takes the memory for a record of this home block.
    fn admit_one(&mut self, home: u32) -> Result<(), AllocError>
        ensures same { (b : ℕ) → find_in self.new b ≡ find_in self.old b }
        ensures kept { (b : ℕ) → Contains (indexed_homes self.old) b → Contains (indexed_homes self.new) b }
        ensures room { OnOk result (Contains (indexed_homes self.new) home) }
    {
        if self.tree.contains_key(&home) {
            return Ok(());
        }
        self.tree.insert(home, None)?;
        Ok(())
    }

    /// Notes the records of a commit. They begin at position `records` of the log. Takes no memory: `admit` made the
    /// room.
    pub fn note(&mut self, log: &LogGeometry, records: u32, number: u64, homes: &[u32])
        requires few { length homes.now ≤ 65535 }
        requires room { (b : ℕ) → Contains homes.now b → Contains (indexed_homes self.old) b }
        ensures { (b : ℕ) → find_in self.new b
            ≡ recorded_or log.now.ring (find_in self.old b) records number homes.now b }
    {
        for place in (0..homes.len()).rev() {
            let newest = Newest {
                number,
                block: log.block_behind(records, place as u32),
            };
            // There is room for it.
            let _ = self.tree.insert(homes[place], Some(newest));
        }
    }

    /// Forgets the records of the commits below a number.
    pub fn forget(&mut self, below: u64)
        ensures { (b : ℕ) → find_in self.new b ≡ from_number below (find_in self.old b) }
    {
        self.tree.retain(|_, newest| is_from(newest, below));
    }

    /// Returns the number of home blocks that have a record, or room for one.
    pub fn len(&self) -> usize
        ensures { result ≡ length self.now }
    {
        self.tree.len()
    }

    // Lists the home blocks that have a record, or room for one.
    pub(crate) fn list_homes(&self, list: &mut Vec<u32, A>) -> Result<(), AllocError>
        requires none { list.old.items ≡ [] }
        ensures items { OnOk result (list.new.items ≡ indexed_homes self.now) }
    {
        for home in self.tree.keys() {
            list.push(*home)?;
        }
        Ok(())
    }
}
