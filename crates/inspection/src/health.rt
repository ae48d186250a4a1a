// Whether a volume is undamaged, and whether it needs opening.
ghost use Rattle.std.specs.Prelude.{◌≡◌, Some, IfOk, IfErr};
ghost use Rattle.std.specs.List.{list_any};
ghost use Rattle.recovery.specs.Opening.{RefusesOpening};
ghost use Rattle.recovery.specs.Reading.{IsOnlyRead};
ghost use Rattle.inspection.specs.Health.{IsHealth};
ghost use Rattle.inspection.specs.Reading.{IsJudged};
ghost use Rattle.inspection.specs.inside.Health.{is_open, health_by};

use crate::found::{Found, Journal, inspect};
use device::Device;
use page_entry::Refusal;
use std::alloc::Allocator;
use std::fmt;

/// The state of a volume that isn't damaged.
#[derive(Clone, Copy, Debug, PartialEq, Eq)]
pub enum Health {
    /// All its gates are closed.
    Clean,
    /// A journal is open. Opening will write its records home.
    NeedsOpening,
}

impl fmt::Display for Health {
    ghost use Rattle.inspection.specs.Text.{health_words};

    ghost output = { λ health. Some (health_words health) };

    /// Writes the text that `check` prints.
    fn fmt<W: fmt::Write>(&self, f: &mut fmt::Formatter<W>) -> fmt::Result {
        f.write_str(match self {
            Health::Clean => "clean",
            Health::NeedsOpening => "needs opening",
        })
    }
}

/// Returns the state of a device's volume. The device is only read.
///
/// Fails as opening fails: with `NotAVolume` if the bytes are no volume, and with `Damaged` if they are a damaged
/// volume. It may fail instead with `Device`, if a device call failed, or with `OutOfMemory`.
pub fn examine<D: Device, A: Allocator + Copy>(alloc: A, device: &mut D) -> Result<Health, Refusal>
    ensures health { D.is_honest device.old → IfOk result (IsHealth (D.seen device.old)) }
    ensures refused { D.is_honest device.old → IfErr result (RefusesOpening (D.seen device.old)) }
    ensures judged { D.is_honest device.old → IsJudged (D.seen device.old) result }
    ensures read { IsOnlyRead D.Device device.old device.new }
{
    match inspect(alloc, device) {
        Ok(found) => Ok(health_of(&found)),
        Err(refusal) => Err(refusal),
    }
}

// Returns the state of the volume for which this was found.
fn health_of<A: Allocator + Copy>(found: &Found<A>) -> Health
    ensures { result ≡ health_by (list_any is_open found.now.journals.items) }
{
    if is_any_open(&found.journals) {
        Health::NeedsOpening
    } else {
        Health::Clean
    }
}

// Whether one of these journals is open.
fn is_any_open<A: Allocator + Copy>(journals: &[Journal<A>]) -> bool
    ensures { result ≡ list_any is_open journals.now }
{
    journals.iter().any(|journal| journal.descriptor.is_some())
}
