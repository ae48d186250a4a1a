// A page-table entry, with the bits that the processor reads.
ghost use Rattle.std.specs.Prelude.{⊤, ◌≡◌, ◌==◌, ◌↔◌, ◌^◌, ◌<◌, None, [], ◌∷◌, codes, is_some, IsSome, IfSome};
ghost use Rattle.std.specs.Int.RustNames.{bit_and};
ghost use Rattle.page_entry.specs.Entry.{IsEntry, entry_of, bits_of, is_writable, is_accessed, is_dirty, frame_of, with_present_of, with_writable_of, with_accessed_of, with_dirty_of, with_frame_of, protected_of};
ghost use Rattle.page_entry.specs.inside.Flags.{bit_of, flag_of, with_flag_of};

use crate::{FrameNumber, PAGE};
use bitflags::{Flag, Flags, bitflag_items};
use std::marker::Model;

/// The named bits of an entry of 4-level paging that maps a 4 KiB page (Intel SDM volume 3, "4-Level Paging").
#[derive(Clone, Copy, PartialEq, Eq, Debug)]
pub struct EntryFlags(u64);

bitflag_items! {
    impl EntryFlags: u64 {
        const PRESENT = 1;
        const WRITABLE = 2;
        const USER = 4;
        const ACCESSED = 32;
        const DIRTY = 64;
    }
}

impl Flags for EntryFlags {
    type Bits = u64;

    ghost exact = { ⊤ };

    ghost table = { (codes "PRESENT", 1) ∷ (codes "WRITABLE", 2) ∷ (codes "USER", 4) ∷ (codes "ACCESSED", 32)
        ∷ (codes "DIRTY", 64) ∷ [] };

    ghost set_of = { λ flags. flags.0 };

    fn flags<'a>() -> &'a [Flag<EntryFlags>] {
        EntryFlags::FLAGS
    }

    fn bits(&self) -> u64 {
        self.0
    }

    fn from_bits_retain(bits: u64) -> EntryFlags {
        EntryFlags(bits)
    }
}

// A bit of a present entry.
#[derive(Clone, Copy)]
enum EntryFlag {
    // Whether a store is allowed.
    Writable,
    // Whether a walk used the entry.
    Accessed,
    // Whether a walk for a store used the entry.
    Dirty,
}

// Returns the bit of a flag.
fn bit_of(flag: EntryFlag) -> EntryFlags
    ensures { result.0 ≡ 2 ^ bit_of flag }
{
    match flag {
        EntryFlag::Writable => EntryFlags::WRITABLE,
        EntryFlag::Accessed => EntryFlags::ACCESSED,
        EntryFlag::Dirty => EntryFlags::DIRTY,
    }
}

/// An entry of a page table: absent, or a frame with the right to write and the processor's record of its use. An
/// absent entry is 0. A present entry has the user bit. All bits without a name are 0.
#[derive(Clone, Copy, Debug, PartialEq, Eq)]
pub struct Entry(u64);

impl Model for Entry {
    ghost use Rattle.std.specs.Prelude.{ℕ, Option};
    ghost use Rattle.std.proofs.Common.{ap};
    ghost use Rattle.page_entry.specs.Entry.{Mapped, bits_of, entry_of, IsEntry};

    ghost Value = { Option Mapped };

    ghost use Rattle.page_entry.specs.declared.entry.Entry.TheInside.{Inside};

    ghost view = { λ e. entry_of e.0 };

    ghost invariant = { λ e. IsEntry e.0 };

    ghost inverse = { λ entry. record { 0 = bits_of entry } };

    ghost inverse_ok = { λ e h. let rebuilt : ℕ → Inside = λ bits. record { 0 = bits } in ap rebuilt h.named };
}

impl Entry {
    /// Returns the entry that maps nothing.
    pub fn absent() -> Self
        ensures { result ≡ None }
    {
        Entry(0)
    }

    /// Returns the entry with these bits. Returns `None` in these cases:
    ///
    /// - A bit without a name is set.
    /// - A present entry lacks the user bit.
    /// - An absent entry isn't 0.
    /// - The frame's number has more than 32 bits.
    pub fn from_bits(bits: u64) -> Option<Self>
        ensures some { IsSome result ↔ IsEntry bits }
        ensures read { IfSome result (λ entry. entry ≡ entry_of bits) }
    {
        let flags = EntryFlags(bits);
        let frame = FrameNumber::try_from(bits / PAGE).ok()?;
        let entry = Entry::absent()
            .with_present(flags.contains(EntryFlags::PRESENT))
            .with_frame(frame)
            .with_writable(flags.contains(EntryFlags::WRITABLE))
            .with_accessed(flags.contains(EntryFlags::ACCESSED))
            .with_dirty(flags.contains(EntryFlags::DIRTY));
        if entry.bits() == bits {
            Some(entry)
        } else {
            None
        }
    }

    /// Returns the entry with these bits, which must be those of an entry. If they may not be, use `from_bits`.
    pub fn of_bits(bits: u64) -> Self
        requires { IsEntry bits }
        ensures { result ≡ entry_of bits }
    {
        Entry(bits)
    }

    /// Returns the entry as the processor reads it: bit 0 present, 1 writable, 2 user, 5 accessed, 6 dirty, 51:12 the
    /// frame.
    pub fn bits(self) -> u64
        ensures bits { result ≡ bits_of self }
        ensures entry { IsEntry result }
    {
        EntryFlags(self.0).bits()
    }

    /// Whether a walk finds a frame here.
    pub fn present(self) -> bool
        ensures { result ≡ is_some self }
    {
        EntryFlags(self.0).contains(EntryFlags::PRESENT)
    }

    /// Whether a store is allowed.
    pub fn writable(self) -> bool
        ensures { result ≡ is_writable self }
    {
        self.flag(EntryFlag::Writable)
    }

    /// Whether a walk used the entry.
    pub fn accessed(self) -> bool
        ensures { result ≡ is_accessed self }
    {
        self.flag(EntryFlag::Accessed)
    }

    /// Whether a walk for a store used the entry.
    pub fn dirty(self) -> bool
        ensures { result ≡ is_dirty self }
    {
        self.flag(EntryFlag::Dirty)
    }

    /// Returns the mapped frame; 0 for an absent entry.
    pub fn frame(self) -> FrameNumber
        ensures { result ≡ frame_of self }
    {
        (self.0 / PAGE) as FrameNumber
    }

    /// Returns the entry made present or absent. An entry that wasn't present becomes blank: its frame is 0, and only
    /// the present and user bits are set.
    pub fn with_present(self, present: bool) -> Self
        ensures { result ≡ with_present_of self present }
    {
        match (self.present(), present) {
            (_, false) => Entry::absent(),
            (false, true) => Entry(EntryFlags::PRESENT.union(EntryFlags::USER).bits()),
            (true, true) => self,
        }
    }

    /// Returns the entry with or without the right to write. An absent entry stays absent.
    pub fn with_writable(self, writable: bool) -> Self
        ensures { result ≡ with_writable_of self writable }
    {
        self.with_flag(EntryFlag::Writable, writable)
    }

    /// Returns the entry with the accessed bit set or clear. An absent entry stays absent.
    pub fn with_accessed(self, accessed: bool) -> Self
        ensures { result ≡ with_accessed_of self accessed }
    {
        self.with_flag(EntryFlag::Accessed, accessed)
    }

    /// Returns the entry with the dirty bit set or clear. An absent entry stays absent.
    pub fn with_dirty(self, dirty: bool) -> Self
        ensures { result ≡ with_dirty_of self dirty }
    {
        self.with_flag(EntryFlag::Dirty, dirty)
    }

    // Whether a flag of the entry is set. An absent entry has no flags.
    fn flag(self, flag: EntryFlag) -> bool
        ensures { result ≡ flag_of flag self }
    {
        EntryFlags(self.0).contains(bit_of(flag))
    }

    // Returns the entry with a flag set or clear. An absent entry stays absent.
    fn with_flag(self, flag: EntryFlag, set: bool) -> Self
        ensures { result ≡ with_flag_of flag self set }
    {
        if !self.present() {
            return self;
        }
        let mut flags = EntryFlags(self.0);
        flags.set(bit_of(flag), set);
        Entry(flags.bits())
    }

    /// Returns the entry with another frame. An absent entry stays absent.
    pub fn with_frame(self, frame: FrameNumber) -> Self
        ensures { result ≡ with_frame_of self frame }
    {
        if !self.present() {
            return self;
        }
        Entry(self.0 % PAGE + frame as u64 * PAGE)
    }

    /// Returns the entry without the right to write and without the dirty bit (bits 1 and 6). Nothing else changes.
    pub fn protected(self) -> Self
        ensures { result ≡ protected_of self }
    {
        self.with_writable(false).with_dirty(false)
    }
}
