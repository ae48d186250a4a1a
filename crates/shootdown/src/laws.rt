// What keeps processors and page tables coherent, stated about the definitions of the calls' effects.
ghost use Rattle.std.specs.Prelude.{ℕ, Bool, ◌≡◌, ◌≢◌, ◌<◌, length, None, Some};
ghost use Rattle.std.specs.FinMap as maps;
ghost use Rattle.pcid_tlb.specs.declared.CachedEntry.{CachedEntry};
ghost use Rattle.pcid_tlb.specs.Tlb.{filled, evicted, without_page};
ghost use Rattle.spaces.specs.declared.change.Change.{Change};
ghost use Rattle.spaces.specs.Spaces.{Spaces};
ghost use Rattle.spaces.specs.Changes.{ChangesOnlyAffected, Grows};
ghost use Rattle.shootdown.specs.declared.lock.Lock.{Lock};
ghost use Rattle.shootdown.specs.Shootdown.{ShootdownState, fresh_shootdown, current, interrupted, tlb_of, with_tlb, begun, stalled, finished, resumed, idled, switched_to, destroyed, IsShootdown};
ghost use Rattle.shootdown.specs.Coherence.{Coheres, KeepsCoherence, Agrees, IsUnused, IsForgotten, IsNoWider};

/// New processors cohere with any page tables, since they cache nothing. A processor's own acts keep this coherence:
/// - It stalls or idles.
/// - It goes on, or switches to another space, while the lock is free.
/// - It caches an entry that agrees with the tables.
/// - It drops one entry, or all entries of a page.
pub fn kept_by_processors()
    ensures fresh { (spaces : Spaces) (cpus tlb : ℕ) → Coheres spaces (fresh_shootdown cpus tlb) }
    ensures stalled { (s : ShootdownState) (p : ℕ) → p < length s.processors → KeepsCoherence s (stalled s p) }
    ensures idled { (s : ShootdownState) (p : ℕ) → p < length s.processors → KeepsCoherence s (idled s p) }
    ensures resumed { (s : ShootdownState) (p : ℕ) → p < length s.processors → s.lock ≡ None
        → KeepsCoherence s (resumed s p) }
    ensures switched { (s : ShootdownState) (p pcid : ℕ) (keep : Bool) → p < length s.processors → s.lock ≡ None
        → KeepsCoherence s (switched_to s p pcid keep) }
    ensures filled { (spaces : Spaces) (s : ShootdownState) (p : ℕ) (entry : CachedEntry) → p < length s.processors
        → Agrees spaces entry → Coheres spaces s → Coheres spaces (with_tlb s p (filled (tlb_of s p) entry)) }
    ensures evicted { (s : ShootdownState) (p slot : ℕ) → p < length s.processors
        → KeepsCoherence s (with_tlb s p (evicted (tlb_of s p) slot)) }
    ensures dropped { (s : ShootdownState) (p pcid page : ℕ) → p < length s.processors
        → KeepsCoherence s (with_tlb s p (without_page (tlb_of s p) pcid page)) }
{}

/// The beginning and the end of a change keep processors and page tables coherent. In between, once no processor is
/// interrupted, no processor uses an entry that the change affects (`unused`). Then the change can be made.
///
/// The tables may change at affected pages only, and no change in progress may affect more because of it. Then
/// processors and tables cohere as before (`changed`).
pub fn kept_by_changes()
    ensures begun { (spaces : Spaces) (s : ShootdownState) (p : ℕ) (change : Change) → Coheres spaces s
        → Coheres spaces (begun s p spaces change) }
    ensures unused { (spaces : Spaces) (change : Change) (s : ShootdownState) (lock : Lock) → IsShootdown s
        → Coheres spaces s → s.lock ≡ Some lock → lock.change ≡ change → interrupted s ≡ 0
        → IsUnused spaces change s }
    ensures changed { (change : Change) (old new : Spaces) (s : ShootdownState) → ChangesOnlyAffected change old new
        → IsUnused old change s → ((lock : Lock) → s.lock ≡ Some lock → IsNoWider lock.change old new)
        → Coheres old s → Coheres new s }
    ensures finished { (s : ShootdownState) (p : ℕ) → p < length s.processors → KeepsCoherence s (finished s p) }
{}

/// Page tables grow, for example when a fault is served. If a change in progress affects no more because of it,
/// processors and tables cohere as before (`grown`).
///
/// A space may be removed if it is no processor's current one, and each processor that may cache its PCID is notified.
/// Then they cohere as well (`removed`), and no processor can use an entry of that PCID afterwards (`forgotten`).
pub fn kept_by_tables()
    ensures grown { (old new : Spaces) (s : ShootdownState) → Grows old new
        → ((lock : Lock) → s.lock ≡ Some lock → IsNoWider lock.change old new) → Coheres old s → Coheres new s }
    ensures removed { (spaces : Spaces) (s : ShootdownState) (pcid : ℕ) → IsShootdown s
        → ((p : ℕ) → p < length s.processors → current s p ≢ pcid) → Coheres spaces s
        → Coheres (maps.remove spaces pcid) (destroyed s pcid) }
    ensures forgotten { (s : ShootdownState) (pcid : ℕ) → IsShootdown s
        → ((p : ℕ) → p < length s.processors → current s p ≢ pcid) → IsForgotten (destroyed s pcid) pcid }
{}
