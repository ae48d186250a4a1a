// The fills and evictions of a TLB. A processor may cache a translation, or drop a cached one, at any time.
ghost use Rattle.std.specs.Prelude.{◌≡◌};
ghost use Rattle.frames.specs.Frames.{FramesState};
ghost use Rattle.spaces.specs.Spaces.{Spaces as AddressSpaces};
ghost use Rattle.shootdown.specs.Coherence.{Coheres};
ghost use Rattle.cpu.specs.Access.{hardware, Fills, Evicts};
ghost use Rattle.cpu.specs.Keeping.{OnlyUses};

use crate::translation::walk;
use page_entry::{PageNumber, ProcessorNumber, Refusal};
use shootdown::Shootdown;
use spaces::Spaces;
use std::alloc::Allocator;

/// Caches the entry of a page of a processor's current space, in any state of the processor, and marks the entry as
/// accessed. Returns false if the page has no entry, and then nothing changes. Fails with `Einval` if there is no
/// processor with this number.
pub fn fill<A: Allocator + Copy>(
    shootdown: &mut Shootdown<A>,
    spaces: &mut Spaces<A>,
    p: ProcessorNumber,
    page: PageNumber,
) -> Result<bool, Refusal>
    ensures filled { (memory : FramesState) → Fills (hardware shootdown.old spaces.old.map memory) p page result
        (hardware shootdown.new spaces.new.map memory) }
    ensures uses { OnlyUses spaces.old spaces.new }
    ensures coherent { Coheres spaces.old.map shootdown.old → Coheres spaces.new.map shootdown.new }
{
    shootdown.state(p)?;
    Ok(walk(shootdown, spaces, p, page, false).is_ok())
}

/// Drops the entry in a slot of a processor's TLB, in any state of the processor. Slot 0 contains the oldest entry.
/// Returns false if there is no such slot. Fails with `Einval` if there is no processor with this number.
pub fn evict<A: Allocator + Copy>(
    shootdown: &mut Shootdown<A>,
    p: ProcessorNumber,
    slot: usize,
) -> Result<bool, Refusal>
    ensures evicted { (spaces : AddressSpaces) (memory : FramesState)
        → Evicts (hardware shootdown.old spaces memory) p slot result (hardware shootdown.new spaces memory) }
{
    shootdown.state(p)?;
    Ok(shootdown.evict(p, slot))
}
