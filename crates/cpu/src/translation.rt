// Translates a page of a processor's current space to a frame: through the TLB, or by a walk of the page table.
ghost use Rattle.std.specs.Prelude.{◌≡◌, Some, Ok, Err, IfOk, IfErr, IsTrue};
ghost use Rattle.page_entry.specs.Entry.{Mapped};
ghost use Rattle.spaces.specs.Spaces.{entry_at};
ghost use Rattle.shootdown.specs.Shootdown.{is_there, current};
ghost use Rattle.shootdown.specs.Coherence.{Coheres};
ghost use Rattle.cpu.specs.Access.{frame_served, walk};
ghost use Rattle.cpu.specs.Keeping.{OnlyUses};
ghost use Rattle.cpu.specs.inside.Walks.{HasWalked, Translates, HasFaulted};

use page_entry::{Entry, FrameNumber, PageNumber, ProcessorNumber, Refusal};
use pcid_tlb::CachedEntry;
use shootdown::Shootdown;
use spaces::Spaces;
use std::alloc::Allocator;

// The error codes of page faults (Intel SDM volume 3, "Page-Fault Exceptions"). Bit 0 is set if the page is present,
// bit 1 for a store, and bit 2 for a user access.
const LOAD_OF_ABSENT: u8 = 0b100;

const STORE_TO_ABSENT: u8 = 0b110;

const STORE_TO_READ_ONLY: u8 = 0b111;

/// Returns the frame of the cached entry, if it serves the access without a walk of the page table.
pub(crate) fn served(cached: Option<CachedEntry>, write: bool) -> Option<FrameNumber>
    ensures { result ≡ frame_served write cached }
{
    match cached {
        Some(entry) if !write || entry.writable && entry.dirty => Some(entry.frame),
        _ => None,
    }
}

// Returns the entry with its use noted, if it allows the access. Fails with the error code of the page fault otherwise.
fn used(entry: Entry, write: bool) -> Result<Entry, u8>
    ensures ok { IfOk result (λ used. (now : Mapped) × (used ≡ Some now) × (walk entry write ≡ Ok now)) }
    ensures err { IfErr result (λ code. walk entry write ≡ Err code) }
{
    if !entry.present() {
        return Err(if write {
            STORE_TO_ABSENT
        } else {
            LOAD_OF_ABSENT
        });
    }
    if write && !entry.writable() {
        return Err(STORE_TO_READ_ONLY);
    }
    Ok(entry.with_accessed(true).with_dirty(entry.dirty() || write))
}

/// Walks the page table of a processor's current space, and returns the frame of the page. An entry that allows the
/// access is marked as accessed, for a store also as dirty, and is cached. Otherwise nothing changes, and the call
/// fails with the error code of the page fault.
pub(crate) fn walk<A: Allocator + Copy>(
    shootdown: &mut Shootdown<A>,
    spaces: &mut Spaces<A>,
    p: ProcessorNumber,
    page: PageNumber,
    write: bool,
) -> Result<FrameNumber, u8>
    requires { IsTrue (is_there shootdown.old p) }
    ensures ok { IfOk result
        (λ frame. HasWalked shootdown.old spaces.old.map p page write frame shootdown.new spaces.new.map) }
    ensures err { IfErr result
        (λ code. (walk (entry_at spaces.old.map (current shootdown.old p) page) write ≡ Err code)
        × (shootdown.new ≡ shootdown.old) × (spaces.new ≡ spaces.old)) }
    ensures uses { OnlyUses spaces.old spaces.new }
    ensures coherent { Coheres spaces.old.map shootdown.old → Coheres spaces.new.map shootdown.new }
{
    let pcid = shootdown.space(p);
    let entry = used(spaces.entry(pcid, page), write)?;
    spaces.set_entry(pcid, page, entry);
    let cached = CachedEntry {
        pcid,
        page,
        frame: entry.frame(),
        writable: entry.writable(),
        dirty: entry.dirty(),
    };
    shootdown.fill(p, cached);
    Ok(entry.frame())
}

/// Returns the frame that a processor reaches at a page of its current space. It uses a cached entry that serves the
/// access, or else a walk. If the walk faults, the processor drops what it cached of the page.
pub(crate) fn translate<A: Allocator + Copy>(
    shootdown: &mut Shootdown<A>,
    spaces: &mut Spaces<A>,
    p: ProcessorNumber,
    page: PageNumber,
    write: bool,
) -> Result<FrameNumber, Refusal>
    requires { IsTrue (is_there shootdown.old p) }
    ensures ok { IfOk result
        (λ frame. Translates shootdown.old spaces.old.map p page write frame shootdown.new spaces.new.map) }
    ensures err { IfErr result (λ why. (HasFaulted shootdown.old spaces.old.map p page write why shootdown.new)
        × (spaces.new ≡ spaces.old)) }
    ensures uses { OnlyUses spaces.old spaces.new }
    ensures coherent { Coheres spaces.old.map shootdown.old → Coheres spaces.new.map shootdown.new }
{
    if let Some(frame) = served(shootdown.cached(p, page), write) {
        return Ok(frame);
    }
    match walk(shootdown, spaces, p, page, write) {
        Ok(frame) => Ok(frame),
        Err(code) => {
            shootdown.drop_page(p, page);
            Err(Refusal::Fault(code))
        }
    }
}
