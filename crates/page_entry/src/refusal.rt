// The reasons for which a call is refused.
use std::error::Error;
use std::fmt;

/// The reason for which a call was refused.
///
/// If several reasons hold, the reply is the first in this order: `Einval` for a missing processor, `Stalled`,
/// `Locked`, other `Einval`, `NoFile`, `Enomem`, `Eacces`, `Overlap`, `Broken`, `Busy`, `NotResident`, `NoFrame`,
/// `OutOfMemory`. `BadShape` is checked before any memory is taken, and before any read, write or sync of a device.
///
/// Serving a fault has an order of its own after `Locked`: `Einval`, `SegvMapErr`, `SegvAccErr`, `BusAdrErr`, `Held`,
/// `NoFrame`, `Device`.
///
/// The names in capitals after `E`, and the three of signals, are those of POSIX.1-2024 (`mmap`, `mprotect`, `msync`,
/// `<signal.h>`).
#[derive(Clone, Copy, Debug, PartialEq, Eq)]
pub enum Refusal {
    /// The processor isn't active.
    Stalled,
    /// The machine's lock is held.
    Locked,
    /// This number of processors are still interrupted.
    NotYet(u32),
    /// A page fault, with its error code: bit 0 a protection violation, bit 1 a write, bit 2 a user access.
    Fault(u8),
    /// The page isn't mapped (`SIGSEGV`, `SEGV_MAPERR`).
    SegvMapErr,
    /// The mapping doesn't allow the access (`SIGSEGV`, `SEGV_ACCERR`).
    SegvAccErr,
    /// The page is wholly past the file's end (`SIGBUS`, `BUS_ADRERR`).
    BusAdrErr,
    /// The page is frozen until its record is written, and no copy frame is free.
    Held,
    /// No frame is free.
    NoFrame,
    /// A device call failed.
    Device,
    /// A device call of a write-out failed earlier. The volume must be opened again.
    Broken,
    /// An argument is outside its range.
    Einval,
    /// A page of the range isn't mapped, or there is no free address space.
    Enomem,
    /// Write access was requested to a file that was opened read-only.
    Eacces,
    /// A page of the range is mapped already.
    Overlap,
    /// There is no such file.
    NoFile,
    /// The call must wait: a write-out isn't done, or the space is in use. Or no mark's number is left.
    Busy,
    /// A change of a file's length needs the file's last page in memory, but the page isn't there.
    NotResident,
    /// The trace is full.
    TraceFull,
    /// There was too little memory.
    OutOfMemory,
    /// The device contains no volume.
    NotAVolume,
    /// The volume's bytes break its grammar.
    Damaged,
    /// A number is outside the limits of volumes or machines.
    BadShape,
}

impl fmt::Display for Refusal {
    ghost use Rattle.std.specs.Prelude.{Some};
    ghost use Rattle.page_entry.specs.Refusal.{words_of};

    ghost output = { λ refusal. Some (words_of refusal) };

    /// Writes the name in lower case without spaces. After `notyet` and `fault`, writes one space and the number.
    fn fmt<W: fmt::Write>(&self, f: &mut fmt::Formatter<W>) -> fmt::Result {
        match self {
            Refusal::Stalled => f.write_str("stalled"),
            Refusal::Locked => f.write_str("locked"),
            Refusal::NotYet(count) => write!(f, "notyet {count}"),
            Refusal::Fault(code) => write!(f, "fault {code}"),
            Refusal::SegvMapErr => f.write_str("segvmaperr"),
            Refusal::SegvAccErr => f.write_str("segvaccerr"),
            Refusal::BusAdrErr => f.write_str("busadrerr"),
            Refusal::Held => f.write_str("held"),
            Refusal::NoFrame => f.write_str("noframe"),
            Refusal::Device => f.write_str("device"),
            Refusal::Broken => f.write_str("broken"),
            Refusal::Einval => f.write_str("einval"),
            Refusal::Enomem => f.write_str("enomem"),
            Refusal::Eacces => f.write_str("eacces"),
            Refusal::Overlap => f.write_str("overlap"),
            Refusal::NoFile => f.write_str("nofile"),
            Refusal::Busy => f.write_str("busy"),
            Refusal::NotResident => f.write_str("notresident"),
            Refusal::TraceFull => f.write_str("tracefull"),
            Refusal::OutOfMemory => f.write_str("outofmemory"),
            Refusal::NotAVolume => f.write_str("notavolume"),
            Refusal::Damaged => f.write_str("damaged"),
            Refusal::BadShape => f.write_str("badshape"),
        }
    }
}

impl Error for Refusal {}
