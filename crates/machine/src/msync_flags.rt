// The flags of a request for a commit.
ghost use Rattle.std.specs.Prelude.{⊤, ◌≡◌, [], ◌∷◌, codes};
ghost use Rattle.machine.specs.Refusals.{are_of_msync};

use bitflags::{Flag, Flags, bitflag_items};

/// The flags of `msync` (POSIX.1-2024), as bits. Keeps any bits. The machine judges whether they may request a commit.
#[derive(Clone, Copy, Debug, PartialEq, Eq)]
pub struct MsyncFlags(u8);

bitflag_items! {
    impl MsyncFlags: u8 {
        /// `MS_ASYNC`: the call doesn't wait for the commit.
        const ASYNC = 1;
        /// `MS_INVALIDATE`, which changes nothing: all mappings of a page share its frame.
        const INVALIDATE = 2;
        /// `MS_SYNC`: the call waits until the commit is durable.
        const SYNC = 4;
    }
}

impl Flags for MsyncFlags {
    type Bits = u8;

    ghost exact = { ⊤ };

    ghost table = { (codes "ASYNC", 1) ∷ (codes "INVALIDATE", 2) ∷ (codes "SYNC", 4) ∷ [] };

    ghost set_of = { λ flags. flags.0 };

    fn flags<'a>() -> &'a [Flag<MsyncFlags>] {
        MsyncFlags::FLAGS
    }

    fn bits(&self) -> u8 {
        self.0
    }

    fn from_bits_retain(bits: u8) -> MsyncFlags {
        MsyncFlags(bits)
    }
}

impl MsyncFlags {
    // Whether these flags may request a commit: exactly one of `ASYNC` and `SYNC`, with or without `INVALIDATE`.
    pub(crate) fn are_of_msync(self) -> bool
        ensures { result ≡ are_of_msync self }
    {
        self == MsyncFlags::ASYNC
            || self == MsyncFlags::ASYNC.union(MsyncFlags::INVALIDATE)
            || self == MsyncFlags::SYNC
            || self == MsyncFlags::SYNC.union(MsyncFlags::INVALIDATE)
    }
}
