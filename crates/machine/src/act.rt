// The acts of processors and the replies to them.
ghost use Rattle.std.specs.Prelude.{◌≡◌, ◌↔◌, IsTrue};
ghost use Rattle.machine.specs.Accesses.{access_of};
ghost use Rattle.machine.specs.Outcomes.{outcome_of};
ghost use Rattle.machine.specs.Unmarked.{decides, unmarked_by};

use crate::{FewBytes, MsyncFlags};
use mappings::Rights;
use page_entry::{FileNumber, PageIndex, Pcid, ProcessorNumber, Refusal};
use std::fmt;

/// The greatest number of processors of a machine.
pub const MAX_CPUS: u64 = 16;

/// The greatest number of entries in a processor's TLB.
pub const MAX_TLB: u64 = 64;

/// The greatest number of copy frames of a machine.
pub const MAX_COPIES: u64 = 64;

/// The size of a machine.
#[derive(Clone, Copy)]
pub struct Shape {
    /// The number of processors, 1 to [`MAX_CPUS`].
    pub cpus: u64,
    /// The number of entries in each processor's TLB, 1 to [`MAX_TLB`].
    pub tlb: u64,
    /// The number of frames for pages of files: 1 to the limit of the volume's layout and slots.
    pub frames: u64,
    /// The number of copy frames, 0 to [`MAX_COPIES`]. A copy frame holds a page that a program stores to before its
    /// record is written.
    pub copies: u64,
}

/// One act of one processor.
#[derive(Clone, Copy, PartialEq, Eq)]
pub enum Act {
    /// Reads `count` bytes, 1 to 8 inside one page below 2^47.
    Load {
        va: u64,
        count: u8,
    },
    /// Writes bytes, 1 to 8 inside one page below 2^47.
    Store {
        va: u64,
        bytes: FewBytes,
    },
    /// Fills the TLB with a page of the current space, which hardware may do at any time.
    Fill {
        page: u64,
    },
    /// Drops the entry in a slot of the TLB, which hardware may do at any time.
    Evict {
        slot: u8,
    },
    /// Makes a space the current one; `keep` keeps the TLB's entries of its PCID.
    Switch {
        space: Pcid,
        keep: bool,
    },
    /// Goes to sleep. Shootdowns don't wait for a sleeping processor.
    Idle,
    /// Ends its sleep, once no change is under way.
    Wake,
    /// Serves a page fault at an address of the current space, for a write or a read.
    Fix {
        va: u64,
        write: bool,
    },
    /// Makes a space.
    Create,
    /// Destroys a space.
    Destroy {
        space: Pcid,
    },
    /// Maps `len` bytes from `va` on to a file's bytes from `offset` on (POSIX.1-2024, `mmap` with `MAP_SHARED`).
    Map {
        space: Pcid,
        va: u64,
        len: u64,
        file: FileNumber,
        offset: u64,
        prot: Rights,
        access: Rights,
    },
    /// Begins to unmap `len` bytes from `va` on (POSIX.1-2024, `munmap`).
    Unmap {
        space: Pcid,
        va: u64,
        len: u64,
    },
    /// Begins to set the rights of `len` bytes from `va` on (POSIX.1-2024, `mprotect`).
    Protect {
        space: Pcid,
        va: u64,
        len: u64,
        prot: Rights,
    },
    /// Begins to remove a page of a file from memory.
    Reclaim {
        file: FileNumber,
        page: PageIndex,
    },
    /// Begins to set the length of a file in bytes, up to its capacity (POSIX.1-2024, `ftruncate`). Only volumes of
    /// layouts 3 and 4 can store lengths that change.
    SetLength {
        file: FileNumber,
        length: u64,
    },
    /// Begins a commit of all stores (POSIX.1-2024, `msync`).
    Msync {
        va: u64,
        len: u64,
        flags: MsyncFlags,
    },
    /// Stalls, if the processor was interrupted.
    Ack,
    /// Makes the change that the processor began.
    Change,
    /// Continues after a stall, once no change is under way.
    Resume,
    /// Makes the next step of the write-outs.
    Flush,
}

/// How an act uses the memory at the address that it names.
#[derive(Clone, Copy)]
pub enum Access {
    /// The act reads from this address on.
    Load(u64),
    /// The act writes from this address on.
    Store(u64),
    /// The act changes a TLB, as hardware may at any time.
    Translation,
    /// The act does something else.
    Other,
}

impl Act {
    /// Whether both acts have the same kind and the same values.
    pub fn is_same(&self, other: &Act) -> bool
        ensures { IsTrue result ↔ (self.now ≡ other.now) }
    {
        *self == *other
    }

    /// Returns how the act uses the memory at the address that it names.
    pub fn access(&self) -> Access
        ensures { result ≡ access_of self.now }
    {
        match self {
            Act::Load { va, .. } => Access::Load(*va),
            Act::Store { va, .. } => Access::Store(*va),
            Act::Fill { .. } | Act::Evict { .. } => Access::Translation,
            Act::Switch { .. }
            | Act::Idle
            | Act::Wake
            | Act::Fix { .. }
            | Act::Create
            | Act::Destroy { .. }
            | Act::Map { .. }
            | Act::Unmap { .. }
            | Act::Protect { .. }
            | Act::Reclaim { .. }
            | Act::SetLength { .. }
            | Act::Msync { .. }
            | Act::Ack
            | Act::Change
            | Act::Resume
            | Act::Flush => Access::Other,
        }
    }
}

/// An act, and the processor that makes it.
#[derive(Clone, Copy, PartialEq, Eq)]
pub struct Step {
    pub p: ProcessorNumber,
    pub act: Act,
}

/// The reply to a step.
#[derive(Clone, Copy, PartialEq, Eq)]
pub enum Reply {
    /// The bytes that a load read.
    Bytes(FewBytes),
    /// A store was made.
    Stored,
    /// The page was cached.
    Filled,
    /// The entry was dropped.
    Evicted,
    /// The space is current.
    Switched,
    /// The processor sleeps.
    Idled,
    /// The processor is awake.
    Woken,
    /// The fault was served.
    Fixed,
    /// A space was made, with this number.
    Space(Pcid),
    /// The space is gone.
    Destroyed,
    /// The range was mapped.
    Mapped,
    /// The change was begun. It takes place at `Change`.
    Begun,
    /// Nothing was mapped in the range, so there is nothing to unmap. Or the file has this length already.
    Fine,
    /// The range is no longer mapped.
    Unmapped,
    /// The range has the requested rights.
    Protected,
    /// The file has the requested length. Bytes past the smaller of the old and the new length are zeros.
    Resized,
    /// The page is no longer in memory.
    Reclaimed,
    /// The page couldn't leave memory.
    Kept,
    /// All stores so far belong to the mark of this number, counted from 1 since boot.
    Marked(u32),
    /// The processor stalls until the change is made.
    Acked,
    /// The processor continues.
    Resumed,
    /// A step of a write-out was made, and more follow.
    Going,
    /// The mark of this number is durable.
    Committed(u32),
    /// The write-out of the mark of this number is over.
    Done(u32),
    /// There was nothing to do.
    Nothing,
    /// The step was refused.
    Refused(Refusal),
}

/// What a reply means for stores and marks.
#[derive(Clone, Copy)]
pub enum Outcome {
    /// Something was stored, or a length was set, that belongs to no mark yet.
    Unmarked,
    /// All stores so far belong to the mark of this number.
    Marked(u32),
    /// The mark of this number is durable.
    Committed(u32),
    /// Something else was done.
    Other,
    /// There was nothing to do.
    Nothing,
    /// The step was refused.
    Refused(Refusal),
}

impl Reply {
    /// Whether both replies have the same kind and the same values.
    pub fn is_same(&self, other: &Reply) -> bool
        ensures { IsTrue result ↔ (self.now ≡ other.now) }
    {
        match self {
            Reply::Bytes(x) => matches!(other, Reply::Bytes(y) if *x == *y),
            Reply::Stored => matches!(other, Reply::Stored),
            Reply::Filled => matches!(other, Reply::Filled),
            Reply::Evicted => matches!(other, Reply::Evicted),
            Reply::Switched => matches!(other, Reply::Switched),
            Reply::Idled => matches!(other, Reply::Idled),
            Reply::Woken => matches!(other, Reply::Woken),
            Reply::Fixed => matches!(other, Reply::Fixed),
            Reply::Space(x) => matches!(other, Reply::Space(y) if *x == *y),
            Reply::Destroyed => matches!(other, Reply::Destroyed),
            Reply::Mapped => matches!(other, Reply::Mapped),
            Reply::Begun => matches!(other, Reply::Begun),
            Reply::Fine => matches!(other, Reply::Fine),
            Reply::Unmapped => matches!(other, Reply::Unmapped),
            Reply::Protected => matches!(other, Reply::Protected),
            Reply::Resized => matches!(other, Reply::Resized),
            Reply::Reclaimed => matches!(other, Reply::Reclaimed),
            Reply::Kept => matches!(other, Reply::Kept),
            Reply::Marked(x) => matches!(other, Reply::Marked(y) if *x == *y),
            Reply::Acked => matches!(other, Reply::Acked),
            Reply::Resumed => matches!(other, Reply::Resumed),
            Reply::Going => matches!(other, Reply::Going),
            Reply::Committed(x) => matches!(other, Reply::Committed(y) if *x == *y),
            Reply::Done(x) => matches!(other, Reply::Done(y) if *x == *y),
            Reply::Nothing => matches!(other, Reply::Nothing),
            Reply::Refused(x) => matches!(other, Reply::Refused(y) if *x == *y),
        }
    }

    /// Returns what the reply means for stores and marks.
    pub fn outcome(&self) -> Outcome
        ensures { result ≡ outcome_of self.now }
    {
        match self {
            Reply::Stored | Reply::Resized => Outcome::Unmarked,
            Reply::Marked(mark) => Outcome::Marked(*mark),
            Reply::Committed(mark) => Outcome::Committed(*mark),
            Reply::Bytes(_)
            | Reply::Filled
            | Reply::Evicted
            | Reply::Switched
            | Reply::Idled
            | Reply::Woken
            | Reply::Fixed
            | Reply::Space(_)
            | Reply::Destroyed
            | Reply::Mapped
            | Reply::Begun
            | Reply::Fine
            | Reply::Unmapped
            | Reply::Protected
            | Reply::Reclaimed
            | Reply::Kept
            | Reply::Acked
            | Reply::Resumed
            | Reply::Going
            | Reply::Done(_) => Outcome::Other,
            Reply::Nothing => Outcome::Nothing,
            Reply::Refused(refusal) => Outcome::Refused(*refusal),
        }
    }

    /// Returns whether there are stores or lengths that belong to no mark yet, or `None` if the reply doesn't determine
    /// it.
    pub fn decides(&self) -> Option<bool>
        ensures { result ≡ decides self.now }
    {
        match self.outcome() {
            Outcome::Unmarked => Some(true),
            Outcome::Marked(_) => Some(false),
            Outcome::Committed(_) | Outcome::Other | Outcome::Nothing | Outcome::Refused(_) => None,
        }
    }

    /// Whether there are stores or lengths that belong to no mark yet, after this reply. `before` is the answer before
    /// it.
    pub fn leaves_unmarked(&self, before: bool) -> bool
        ensures { result ≡ unmarked_by before self.now }
    {
        self.decides().unwrap_or(before)
    }
}

impl fmt::Display for Reply {
    ghost use Rattle.std.specs.Prelude.{Some};
    ghost use Rattle.machine.specs.Words.{reply_text};

    ghost output = { λ reply. Some (reply_text reply) };

    /// Writes the reply's word in lower case, then its bytes or number in decimal, each after one space.
    fn fmt<W: fmt::Write>(&self, f: &mut fmt::Formatter<W>) -> fmt::Result {
        match self {
            Reply::Bytes(bytes) => write!(f, "bytes{}", Numbers(bytes.as_slice())),
            Reply::Stored => f.write_str("stored"),
            Reply::Filled => f.write_str("filled"),
            Reply::Evicted => f.write_str("evicted"),
            Reply::Switched => f.write_str("switched"),
            Reply::Idled => f.write_str("idled"),
            Reply::Woken => f.write_str("woken"),
            Reply::Fixed => f.write_str("fixed"),
            Reply::Space(space) => write!(f, "space {space}"),
            Reply::Destroyed => f.write_str("destroyed"),
            Reply::Mapped => f.write_str("mapped"),
            Reply::Begun => f.write_str("begun"),
            Reply::Fine => f.write_str("fine"),
            Reply::Unmapped => f.write_str("unmapped"),
            Reply::Protected => f.write_str("protected"),
            Reply::Resized => f.write_str("resized"),
            Reply::Reclaimed => f.write_str("reclaimed"),
            Reply::Kept => f.write_str("kept"),
            Reply::Marked(mark) => write!(f, "marked {mark}"),
            Reply::Acked => f.write_str("acked"),
            Reply::Resumed => f.write_str("resumed"),
            Reply::Going => f.write_str("going"),
            Reply::Committed(mark) => write!(f, "committed {mark}"),
            Reply::Done(mark) => write!(f, "done {mark}"),
            Reply::Nothing => f.write_str("nothing"),
            Reply::Refused(refusal) => write!(f, "{refusal}"),
        }
    }
}

// Numbers in decimal, each after one space.
#[derive(Clone, Copy)]
struct Numbers<'a>(&'a [u8]);

impl fmt::Display for Numbers<'_> {
    ghost use Rattle.std.specs.Prelude.{Some};
    ghost use Rattle.machine.specs.Words.{numbers_text};

    ghost output = { λ numbers. Some (numbers_text numbers.0.now) };

    fn fmt<W: fmt::Write>(&self, f: &mut fmt::Formatter<W>) -> fmt::Result {
        for number in self.0 {
            write!(f, " {number}")?;
        }
        Ok(())
    }
}
