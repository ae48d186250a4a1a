// A row of the table: the crash states of one device call.
ghost use Rattle.std.specs.Prelude.{◌≡◌, ◌==◌};
ghost use Rattle.std.specs.List.{count_by};
ghost use Rattle.crash_states.specs.Rows.{newest_of};

use crate::choice::Choice;
use std::alloc::Allocator;

/// A crash state, and the mark whose files an opening of it finds.
#[derive(Clone, Copy)]
pub struct Found {
    pub choice: Choice,
    pub mark: u32,
}

/// The crash states of one device call. The row after that of the last call contains those of the end of the run.
#[derive(Drop)]
pub struct Row<A: Allocator + Copy> {
    /// The number of the call, counted from 1.
    pub number: u64,
    /// The number of blocks that were written since the last sync, including those of the call.
    pub unsynced: u64,
    /// The crash states that were opened.
    pub found: Vec<Found, A>,
}

impl<A: Allocator + Copy> Row<A> {
    /// Returns the number of crash states that have the files at a mark.
    pub fn count(&self, mark: u32) -> u64
        ensures { result ≡ count_by (λ found. found.mark == mark) self.now.found.items }
    {
        self.found.iter().filter(|found| found.mark == mark).count() as u64
    }

    /// Returns the newest mark whose files are found, or 0 if there is no crash state.
    pub fn newest(&self) -> u32
        ensures { result ≡ newest_of self.now.found.items }
    {
        let mut newest = 0u32;
        for found in &self.found {
            newest = newest.max(found.mark);
        }
        newest
    }
}
