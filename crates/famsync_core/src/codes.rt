// The codes that the calls return, as famsync_core.h defines them.
ghost use Rattle.std.specs.Prelude.{◌≡◌};
ghost use Rattle.famsync_core.specs.Codes.{refusal_code, outcome_code, reading_code, unread_block, unread_code, wanted_block};

use embedded::Unread;
use page_entry::Refusal;

pub(crate) const OK: i32 = 0;

pub(crate) const WANTED: i32 = 1;

pub(crate) const NONE: i32 = 2;

pub(crate) const ARGUMENT: i32 = -1;

pub(crate) const NO_MEMORY: i32 = -2;

pub(crate) const ORDER: i32 = -3;

const OTHER: i32 = -38;

// Returns the code of a refusal.
pub(crate) fn code_of_refusal(refusal: &Refusal) -> i32
    ensures { result ≡ refusal_code refusal.now }
{
    match refusal {
        Refusal::OutOfMemory => NO_MEMORY,
        Refusal::NotAVolume => -11,
        Refusal::Damaged => -12,
        Refusal::NoFrame => -27,
        Refusal::Device => -28,
        Refusal::Broken => -29,
        Refusal::Einval => -30,
        Refusal::NoFile => -34,
        Refusal::Busy => -35,
        // Refusals of the machine, and of a trace.
        Refusal::Stalled
        | Refusal::Locked
        | Refusal::NotYet(_)
        | Refusal::Fault(_)
        | Refusal::SegvMapErr
        | Refusal::SegvAccErr
        | Refusal::BusAdrErr
        | Refusal::Held
        | Refusal::Enomem
        | Refusal::Eacces
        | Refusal::Overlap
        | Refusal::NotResident
        | Refusal::TraceFull
        | Refusal::BadShape => OTHER,
    }
}

// Returns the code of a request that succeeded or was refused.
pub(crate) fn code_of_outcome(outcome: &Result<(), Refusal>) -> i32
    ensures { result ≡ outcome_code outcome.now }
{
    match outcome {
        Ok(()) => OK,
        Err(refusal) => code_of_refusal(refusal),
    }
}

// Returns the code of a request that failed. Stores the wanted block, if there is one.
pub(crate) fn code_of_unread(why: &Unread, wanted: &mut u32) -> i32
    ensures code { result ≡ unread_code why.now }
    ensures wanted { wanted.new ≡ unread_block why.now wanted.old }
{
    match why {
        Unread::Wanted(block) => {
            *wanted = *block;
            WANTED
        }
        Unread::Refused(refusal) => code_of_refusal(refusal),
    }
}

// Returns the code of a request that may want a block, and stores that block.
pub(crate) fn code_of_reading(outcome: &Result<(), Unread>, wanted: &mut u32) -> i32
    ensures code { result ≡ reading_code outcome.now }
    ensures wanted { wanted.new ≡ wanted_block outcome.now wanted.old }
{
    match outcome {
        Ok(()) => OK,
        Err(why) => code_of_unread(why, wanted),
    }
}
