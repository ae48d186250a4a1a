// The youngest commit that contains each home block.
ghost use Rattle.std.specs.Prelude.{◌≡◌, ◌⊎◌, ◌↔◌, ◌+◌, ℕ, Some, nat_eq, IsTrue, IfOk, IfErr, OnOk};
ghost use Rattle.std.specs.List.{Contains};
ghost use Rattle.indexmap.specs.IndexMap.{get};
ghost use Rattle.log_recovery.specs.Reading.{chain_of};
ghost use Rattle.log_opening.specs.inside.Places.{ArePlaces, IsYounger};

use indexmap::IndexMap;
use log_recovery::FoundLog;
use page_entry::Refusal;
use std::alloc::Allocator;
use std::hash::{BuildHasherDefault, FoldHasher};

/// The place of the youngest commit that contains a home block, for each home block.
pub type Youngest<A> = IndexMap<u32, usize, BuildHasherDefault<FoldHasher>, A>;

/// Notes that the commit at a place contains these home blocks.
fn note<A: Allocator + Copy>(
    youngest: &mut Youngest<A>,
    homes: &[u32],
    place: usize,
) -> Result<(), Refusal>
    ensures ok { OnOk result ((b k : ℕ) → get nat_eq youngest.new b ≡ Some k
        → (get nat_eq youngest.old b ≡ Some k) ⊎ ((k ≡ place) × Contains homes.now b)) }
    ensures refused { IfErr result (λ refusal. refusal ≡ Refusal.OutOfMemory) }
{
    for i in 0..homes.len() {
        if youngest.insert(homes[i], place).is_err() {
            return Err(Refusal::OutOfMemory);
        }
    }
    Ok(())
}

/// Finds the youngest commit for each home block in a log.
pub fn youngest_commits<A: Allocator + Copy>(
    alloc: A,
    found: &FoundLog<A>,
) -> Result<Youngest<A>, Refusal>
    ensures ok { IfOk result (λ youngest. ArePlaces (chain_of found.now.commits.items) (get nat_eq youngest)) }
    ensures refused { IfErr result (λ refusal. refusal ≡ Refusal.OutOfMemory) }
{
    let mut youngest = IndexMap::new(alloc);
    for place in 0..found.commits.len() {
        match note(&mut youngest, &found.commits[place].homes, place) {
            Ok(()) => {}
            Err(refusal) => return Err(refusal),
        }
    }
    Ok(youngest)
}

/// Whether the youngest commit that contains a home block comes after a place.
pub fn is_younger<A: Allocator + Copy>(youngest: &Youngest<A>, home: u32, place: usize) -> bool
    ensures { IsTrue result ↔ IsYounger (get nat_eq youngest.now) (place + 1) home }
{
    match youngest.get(&home) {
        Some(last) => *last > place,
        None => false,
    }
}
