// Loads and stores.
ghost use Rattle.std.specs.Prelude.{◌≡◌, ◌/◌, ◌%◌, length, None, Ok, Err, IfOk, IfErr, OnOk, IsTrue, MatchResult};
ghost use Rattle.page_entry.specs.declared.refusal.Refusal.TheVariants.{Einval};
ghost use Rattle.frames.specs.Frames.{FramesState};
ghost use Rattle.spaces.specs.Spaces.{Spaces as AddressSpaces};
ghost use Rattle.shootdown.specs.Shootdown.{current, is_there, not_running};
ghost use Rattle.cpu.specs.Access.{hardware, IsAccess, AccessRefused, Loads, Stores, IsReachable, ReadsThrough, WritesThrough};
ghost use Rattle.cpu.specs.Keeping.{OnlyUses, IsDirtyAt};

use crate::translation::translate;
use frames::Frames;
use page_entry::{ADDRESS_END, PAGE, ProcessorNumber, Refusal};
use shootdown::Shootdown;
use spaces::Spaces;
use std::alloc::Allocator;

// Returns the offset in its page of an access. The access must have 1 to 8 bytes inside one page below 2^47.
fn place_in_page(va: u64, count: usize) -> Result<usize, Refusal>
    ensures { MatchResult result (λ at. IsAccess va count × (at ≡ va % 4096))
        (λ why. (why ≡ Einval) × (IsAccess va count → ⊥)) }
{
    let at = (va % PAGE) as usize;
    if count == 0 || count > 8 || va >= ADDRESS_END || at + count > 4096 {
        return Err(Refusal::Einval);
    }
    Ok(at)
}

// Returns the offset in its page of an access by a processor that may load and store now.
fn admit<A: Allocator + Copy>(
    shootdown: &Shootdown<A>,
    p: ProcessorNumber,
    va: u64,
    count: usize,
) -> Result<usize, Refusal>
    ensures ok { IfOk result
        (λ at. (not_running shootdown.now p ≡ None) × IsAccess va count × (at ≡ va % 4096)) }
    ensures there { OnOk result (IsTrue (is_there shootdown.now p)) }
    ensures err { IfErr result (λ why. (spaces : AddressSpaces) (memory : FramesState)
        → AccessRefused (hardware shootdown.now spaces memory) p va count why) }
{
    shootdown.admit(p)?;
    place_in_page(va, count)
}

/// Reads `count` bytes from an address of a processor's current space. They are 1 to 8 bytes inside one page below
/// 2^47.
///
/// If the processor caches an entry of the page, the load goes through it. Otherwise the processor walks the page
/// table, marks the entry as accessed, and caches it.
///
/// Fails with the first of these that applies:
///
/// - `Einval` if there is no processor with this number.
/// - `Stalled` if the processor is neither active nor interrupted.
/// - `Einval` for another address or count.
/// - `Fault` with the error code of the page fault, if nothing is cached and the page has no entry. The processor then
///   drops what it caches of the page.
pub fn load<'f, A: Allocator + Copy>(
    shootdown: &mut Shootdown<A>,
    spaces: &mut Spaces<A>,
    frames: &'f Frames<A>,
    p: ProcessorNumber,
    va: u64,
    count: usize,
) -> Result<&'f [u8], Refusal>
    requires { IsReachable (hardware shootdown.old spaces.old.map frames.now) }
    ensures loaded { MatchResult result
        (λ bytes. Loads (hardware shootdown.old spaces.old.map frames.now) p va count (Ok bytes.now)
        (hardware shootdown.new spaces.new.map frames.now))
        (λ why. Loads (hardware shootdown.old spaces.old.map frames.now) p va count (Err why)
        (hardware shootdown.new spaces.new.map frames.now)) }
    ensures count { IfOk result (λ bytes. length bytes.now ≡ count) }
    ensures through { IfOk result
        (λ bytes. ReadsThrough (hardware shootdown.old spaces.old.map frames.now) p va count bytes.now) }
    ensures uses { OnlyUses spaces.old spaces.new }
    ensures reachable { IsReachable (hardware shootdown.new spaces.new.map frames.now) }
{
    let at = admit(shootdown, p, va, count)?;
    let frame = translate(shootdown, spaces, p, va / PAGE, false)?;
    Ok(&frames.bytes(frame)[at..at + count])
}

/// Writes bytes to an address of a processor's current space. They are 1 to 8 bytes inside one page below 2^47.
///
/// If the processor caches an entry of the page that is writable and dirty, the store goes through it. Otherwise the
/// processor walks the page table, marks the entry as accessed and dirty, and caches it.
///
/// Fails with the first of these that applies:
///
/// - `Einval` if there is no processor with this number.
/// - `Stalled` if the processor is neither active nor interrupted.
/// - `Einval` for another address or number of bytes.
/// - `Fault` with the error code of the page fault, if no cached entry serves the store, and the page has no writable
///   entry. The processor then drops what it caches of the page.
pub fn store<A: Allocator + Copy>(
    shootdown: &mut Shootdown<A>,
    spaces: &mut Spaces<A>,
    frames: &mut Frames<A>,
    p: ProcessorNumber,
    va: u64,
    bytes: &[u8],
) -> Result<(), Refusal>
    requires { IsReachable (hardware shootdown.old spaces.old.map frames.old) }
    ensures stored { Stores (hardware shootdown.old spaces.old.map frames.old) p va bytes.now result
        (hardware shootdown.new spaces.new.map frames.new) }
    ensures through { OnOk result
        (WritesThrough (hardware shootdown.old spaces.old.map frames.old) p va bytes.now frames.new) }
    ensures dirty { OnOk result (IsDirtyAt spaces.new.map (current shootdown.old p) (va / 4096)) }
    ensures uses { OnlyUses spaces.old spaces.new }
    ensures reachable { IsReachable (hardware shootdown.new spaces.new.map frames.new) }
{
    let at = admit(shootdown, p, va, bytes.len())?;
    let frame = translate(shootdown, spaces, p, va / PAGE, true)?;
    frames.write(frame, at, bytes);
    Ok(())
}
