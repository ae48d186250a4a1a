// Writes the home blocks of a log's oldest commits, one after another.
ghost use Rattle.std.specs.Prelude.{◌≡◌, ◌≢◌, ◌↔◌, ◌<◌, ◌≤◌, ◌+◌, ◌*◌, ◌++◌, ℕ, Bool, true, List, [], is_ok, length, take, IsTrue, IfOk, IfErr, OnOk, OnErr};
ghost use Rattle.device.specs.Did.{Did};
ghost use Rattle.log_codec.specs.Chain.{IsLogHome, chain_blocks};
ghost use Rattle.log_codec.specs.Commit.{LogDescriptor};
ghost use Rattle.log_commits.specs.declared.behind.MoveFault.TheVariants.{Device};
ghost use Rattle.log_commits.specs.Behind.{AreOldest, HasCommits, HoldsCommits, LeavesCommits};
ghost use Rattle.log_commits.specs.Keeps.{KeepsTail};
ghost use Rattle.log_commits.specs.Homes.{AreWrittenHome};
ghost use Rattle.log_home.specs.Index.{IsIndexOf, indexed_homes, find_in};
ghost use Rattle.log_home.specs.Work.{AreHome, MayStep, RefusesStep, copy_work, next_copy, no_work, stepped};

use crate::index::{LogIndex, Newest};
use device::Device;
use log_commits::{LogTail, MoveFault, OldCommits};
use std::alloc::{AllocError, Allocator};
use std::marker::Model;

/// Work that writes home, in steps, the commits that a log had when the work began. Further commits may be made between
/// two steps.
#[derive(Drop)]
pub struct HomeWork<A: Allocator + Copy> {
    oldest: OldCommits,
    homes: Vec<u32, A>,
    done: usize,
}

impl<A: Allocator + Copy> Model for HomeWork<A> {
    ghost use Rattle.std.specs.Prelude.{◌≤◌, length};
    ghost use Rattle.log_home.specs.Work.{HomeWorkValue};

    ghost Value = { HomeWorkValue };

    ghost view = { λ w. record { oldest = w.oldest; homes = w.homes.items; done = w.done } };

    ghost invariant = { λ w. w.done ≤ length w.homes.items };
}

impl<A: Allocator + Copy> HomeWork<A> {
    /// Makes work without commits, which is done already. Takes no memory.
    pub fn none(alloc: A) -> HomeWork<A>
        ensures { result ≡ no_work }
    {
        HomeWork {
            oldest: OldCommits {
                below: 0,
                blocks: 0,
            },
            homes: Vec::new(alloc),
            done: 0,
        }
    }

    /// Begins the work with all commits of the log so far.
    pub fn begin(alloc: A, tail: &LogTail, index: &LogIndex<A>) -> Result<HomeWork<A>, AllocError>
        ensures { IfOk result (λ work. work ≡ record {
          oldest = record { below = tail.now.number; blocks = tail.now.used };
          homes = indexed_homes index.now;
          done = 0;
        }) }
    {
        let mut homes = Vec::new(alloc);
        index.list_homes(&mut homes)?;
        Ok(HomeWork {
            oldest: tail.commits_so_far(),
            homes,
            done: 0,
        })
    }

    /// Returns the commits that this work writes home. Once all is done, the start may move behind them.
    pub fn oldest(&self) -> OldCommits
        ensures { result ≡ self.now.oldest }
    {
        self.oldest
    }

    /// Whether all of the work is done.
    pub fn is_done(&self) -> bool
        ensures { IsTrue result ↔ (self.now.done ≡ length self.now.homes) }
    {
        self.done == self.homes.len()
    }

    /// Returns the home block that the next step considers, and its newest record, if that record belongs to the oldest
    /// commits. Only then does the step copy it.
    pub fn next_copy(&self, index: &LogIndex<A>) -> Option<(u32, Newest)>
        ensures { result ≡ next_copy self.now index.now }
    {
        if self.done == self.homes.len() {
            return None;
        }
        let home = self.homes[self.done];
        match index.find(home) {
            Some(newest) if newest.number < self.oldest.below => Some((home, newest)),
            Some(_) => None,
            None => None,
        }
    }

    // Counts the next home block as done.
    fn pass(&mut self)
        ensures { self.new ≡ stepped self.old }
    {
        if self.done < self.homes.len() {
            self.done += 1;
        }
    }

    /// Copies the newest record of the next home block to its place, by a read and a write. If a younger commit
    /// contains the home block, the record isn't copied, and no device call is made.
    pub fn step<D: Device>(
        &mut self,
        tail: &mut LogTail,
        index: &LogIndex<A>,
        device: &mut D,
    ) -> Result<(), MoveFault>
        requires long { 4096 * tail.old.log.blocks ≤ length (D.seen device.old) }
        ensures may { OnOk result (MayStep tail.old (next_copy self.old index.now)) }
        ensures refused { IfErr result (RefusesStep tail.old (next_copy self.old index.now)) }
        ensures keeps { KeepsTail D.Device Device result tail.old tail.new device.old device.new }
        ensures stays { OnErr result (self.new ≡ self.old) }
        ensures value { OnOk result ((self.new ≡ stepped self.old) × (tail.new ≡ tail.old)) }
        ensures did { MayStep tail.old (next_copy self.old index.now)
            → Did D.Device device.old (copy_work (next_copy self.old index.now)) (is_ok result) device.new }

        // If the index belongs to the log's commits, and each crash state before holds the log, each crash state keeps
        // holding it.
        ensures leaves { (second : Bool) (contents : ℕ → List ℕ) (chain : List LogDescriptor)
            → D.is_honest device.old
            → IsIndexOf tail.old.log tail.old.start.position chain index.now
            → HasCommits D.Device second tail.old contents chain device.old
            → LeavesCommits D.Device second tail.old contents chain device.old device.new }

        // One more home block is written, or a younger commit contains it.
        ensures home { (second : Bool) (contents : ℕ → List ℕ) (ds younger : List LogDescriptor)
            → D.is_honest device.old
            → HoldsCommits second tail.old contents (ds ++ younger) (D.seen device.old)
            → AreOldest tail.old self.old.oldest ds
            → IsIndexOf tail.old.log tail.old.start.position (ds ++ younger) index.now
            → AreHome tail.old.log contents ds younger (take self.old.done self.old.homes) (D.seen device.old)
            → OnOk result (AreHome tail.old.log contents ds younger (take self.new.done self.old.homes)
            (D.seen device.new)) }
    {
        match self.next_copy(index) {
            None => {
                self.pass();
                Ok(())
            }
            Some((home, newest)) => {
                tail.copy_home(device, newest.block, home)?;
                self.pass();
                Ok(())
            }
        }
    }
}
