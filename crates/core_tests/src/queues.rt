// Compares a processor with a plain program, while another processor changes mappings. The plain program scans a list
// of entries, and stores each invalidation of which it is notified.
ghost use Rattle.std.specs.Prelude.{◌≤◌, ◌+◌, ◌^◌};
ghost use Rattle.shootdown.specs.Calls.{HasUserPages};

use mappings::PageRange;
use page_entry::{PageNumber, Pcid};
use pcid_tlb::{CachedEntry, Invpcid};
use shootdown::{ProcState, Shootdown};
use spaces::{Change, Spaces};
use std::alloc::{AllocError, Global};
use std::process::Abort;

const CAPACITY: usize = 5;

#[derive(Drop)]
struct Plain {
    space: Pcid,
    entries: Vec<CachedEntry>,
    notified: Vec<Invpcid>,
    // For each PCID: whether it was loaded, and not invalidated whole since.
    known: [bool; 4],
}

// Whether an invalidation drops the entry of a page of a PCID. Without a page: whether it drops all entries of the
// PCID.
fn drops(action: Invpcid, pcid: Pcid, page: Option<PageNumber>) -> bool {
    match action {
        Invpcid::IndividualAddress(named, number) => named == pcid && page == Some(number),
        Invpcid::SingleContext(named) => named == pcid,
        Invpcid::AllContextsAndGlobals | Invpcid::AllContexts => true,
    }
}

impl Plain {
    fn cached(&self, page: PageNumber) -> Option<CachedEntry> {
        for entry in &self.entries {
            if entry.pcid == self.space && entry.page == page {
                return Some(*entry);
            }
        }
        None
    }

    // Drops the entries that an invalidation names.
    fn invalidate(&mut self, action: Invpcid) {
        self.entries
            .retain(|entry| !drops(action, entry.pcid, Some(entry.page)));
        for (pcid, known) in self.known.iter_mut().enumerate() {
            let pcid = pcid as Pcid;
            *known = *known && (pcid == self.space || !drops(action, pcid, None));
        }
    }

    fn fill(&mut self, entry: CachedEntry) -> Result<(), AllocError> {
        self.invalidate(Invpcid::IndividualAddress(entry.pcid, entry.page));
        if self.entries.len() == CAPACITY {
            self.entries.remove(0);
        }
        self.entries.push(entry)?;
        Ok(())
    }

    // Drops the entry in a slot. Returns whether there was one.
    fn evict(&mut self, slot: usize) -> bool {
        let is_there = slot < self.entries.len();
        if is_there {
            self.entries.remove(slot);
        }
        is_there
    }

    // Queues an invalidation if it concerns a PCID of which an entry may be cached.
    fn notify(&mut self, action: Invpcid) -> Result<(), AllocError> {
        let concerned = match action {
            Invpcid::IndividualAddress(pcid, _) | Invpcid::SingleContext(pcid) => {
                self.known.get(usize::from(pcid)) == Some(&true)
            }
            Invpcid::AllContextsAndGlobals | Invpcid::AllContexts => true,
        };
        if concerned {
            self.notified.push(action)?;
        }
        Ok(())
    }

    // Up to 4 pages are invalidated one by one, and more pages by their PCID.
    fn notify_range(&mut self, pcid: Pcid, first: u64, count: u64) -> Result<(), AllocError> {
        if count > 4 {
            return self.notify(Invpcid::SingleContext(pcid));
        }
        for page in first..first.saturating_add(count) {
            self.notify(Invpcid::IndividualAddress(pcid, page))?;
        }
        Ok(())
    }

    // A queue has room for 8 invalidations. More of them drop everything.
    fn drain(&mut self) {
        if self.notified.len() > 8 {
            self.invalidate(Invpcid::AllContexts);
        }
        for place in 0..self.notified.len() {
            let notified = self.notified.get(place).copied();
            if let Some(action) = notified {
                self.invalidate(action);
            }
        }
        self.notified.clear();
    }

    fn switch(&mut self, pcid: Pcid, keep: bool) {
        self.drain();
        self.space = pcid;
        if !keep {
            self.invalidate(Invpcid::SingleContext(pcid));
        }
        if let Some(known) = self.known.get_mut(usize::from(pcid)) {
            *known = true;
        }
    }
}

// Processor 0 and the plain program that it is compared with. Processor 1 stays in space 0.
#[derive(Drop)]
struct Pair {
    shootdown: Shootdown,
    spaces: Spaces,
    plain: Plain,
}

impl Pair {
    fn new(rt: &impl Abort, alloc: Global) -> Self {
        Pair {
            shootdown: Shootdown::new(alloc, 2, CAPACITY).expect(rt, "memory for processors"),
            spaces: Spaces::new(alloc).expect(rt, "memory for spaces"),
            plain: Plain {
                space: 0,
                entries: Vec::new(alloc),
                notified: Vec::new(alloc),
                known: [true, false, false, false],
            },
        }
    }

    // Makes both cache an entry that this number chooses. Returns whether this succeeds.
    fn fill(&mut self, number: u64) -> bool {
        if self.shootdown.state(0).is_err() {
            return false;
        }
        let entry = CachedEntry {
            pcid: self.shootdown.space(0),
            page: number % 6,
            frame: (number / 6 % 100) as u32,
            writable: number / 600 % 2 == 1,
            dirty: number / 1200 % 2 == 1,
        };
        self.shootdown.fill(0, entry);
        self.plain.fill(entry).is_ok()
    }

    // Drops the entry in a slot of both. Returns whether both had one, or neither.
    fn evict(&mut self, slot: usize) -> bool {
        self.shootdown.state(0).is_ok() && self.shootdown.evict(0, slot) == self.plain.evict(slot)
    }

    // Makes a change on processor 1. Processor 0 stalls if it is interrupted. Returns whether it was, or `None` if a
    // call is refused.
    fn change(&mut self, change: Change) -> Option<bool>
        requires { HasUserPages change }
    {
        if self.shootdown.admit_free(1).is_err() {
            return None;
        }
        self.shootdown.begin(1, &self.spaces, change);
        let interrupted = self.shootdown.state(0) == Ok(ProcState::Interrupted);
        if self.make_change() {
            Some(interrupted)
        } else {
            None
        }
    }

    // Acknowledges the change on processor 0, makes it on processor 1, and resumes processor 0. Returns whether all of
    // this succeeds.
    fn make_change(&mut self) -> bool {
        let acked = self.shootdown.ack(0).is_ok();
        let made = match self.shootdown.change(1) {
            Ok(Some(_)) => {
                self.shootdown.finish(1);
                true
            }
            Ok(None) => true,
            Err(_) => false,
        };
        acked && made && self.shootdown.resume(0).is_ok()
    }

    // Unmaps pages of a space. Returns whether processor 0 was interrupted exactly if it is in this space.
    fn unmap(&mut self, pcid: Pcid, first: u64, count: u64) -> bool
        requires { first + count ≤ 2 ^ 35 }
    {
        let range = PageRange { first, count };
        let interrupted = self.change(Change::Unmap { pcid, range });
        let notified = self.plain.notify_range(pcid, first, count).is_ok();
        let is_here = self.plain.space == pcid;
        if is_here {
            self.plain.drain();
        }
        notified && interrupted == Some(is_here)
    }

    // Makes a change that interrupts every processor: a mark, or a change of a file's length.
    fn drop_all(&mut self, change: Change) -> bool
        requires { HasUserPages change }
    {
        let interrupted = self.change(change);
        let notified = self.plain.notify(Invpcid::AllContexts).is_ok();
        self.plain.drain();
        notified && interrupted == Some(true)
    }

    // Removes a space in which no processor is.
    fn forget(&mut self, pcid: Pcid) -> bool {
        if self.shootdown.is_current(pcid) {
            return true;
        }
        self.shootdown.forget(pcid);
        self.plain.notify(Invpcid::SingleContext(pcid)).is_ok()
    }

    fn switch(&mut self, pcid: Pcid, keep: bool) -> bool {
        self.plain.switch(pcid, keep);
        self.shootdown.switch(0, &self.spaces, pcid, keep).is_ok()
    }

    // Makes a step that this number chooses. Returns whether both answer alike.
    fn step(&mut self, number: u64) -> bool {
        let argument = number / 16;
        let pcid = (argument % 3 + 1) as Pcid;
        match number % 16 {
            0..=7 => self.fill(argument),
            8 => self.evict((argument % 6) as usize),
            9..=11 => self.unmap(pcid, argument / 3 % 6, argument / 18 % 6 + 1),
            12 if argument % 8 == 0 => self.drop_all(Change::Checkpoint),
            12 if argument % 8 == 1 => self.drop_all(Change::SetLength {
                file: 0,
                length: argument,
            }),
            12 => self.forget(pcid),
            _ => self.switch(pcid, argument / 3 % 3 > 0),
        }
    }

    // Whether both cache the same entry for each page, and may cache the same PCIDs.
    fn agrees(&self) -> bool {
        if self.shootdown.state(0).is_err() {
            return false;
        }
        for page in 0..6 {
            if self.shootdown.cached(0, page) != self.plain.cached(page) {
                return false;
            }
        }
        for (pcid, known) in self.plain.known.iter().enumerate() {
            if self.shootdown.may_cache(0, pcid as Pcid) != *known {
                return false;
            }
        }
        true
    }

    // Whether both agree after each of `steps` steps in three spaces. A fixed sequence of pseudo-random numbers chooses
    // the steps.
    fn agree_for(&mut self, steps: u32) -> bool {
        let mut seed: u64 = 1989;
        for pcid in 1..4 {
            if self.spaces.create() != Ok(pcid) {
                return false;
            }
        }
        for _ in 0..steps {
            seed = seed
                .wrapping_mul(6_364_136_223_846_793_005)
                .wrapping_add(1_442_695_040_888_963_407);
            if !self.step(seed >> 32) || !self.agrees() {
                return false;
            }
        }
        true
    }
}

#[test]
fn agrees_with_a_scanned_list(rt: HostRuntime) {
    let mut pair = Pair::new(&rt, rt.alloc());
    assert!(rt; pair.agree_for(6_000));
}
