// The PCIDs of the spaces that exist.
ghost use Rattle.std.specs.Prelude.{◌≡◌};
ghost use Rattle.std.specs.Iterator.{YieldsFirst, item_count};

use crate::space::Space;
use page_entry::Pcid;
use std::alloc::Allocator;
use std::marker::Model;

/// An iterator over the PCIDs of the spaces that exist, in ascending order. It allocates no memory.
#[derive(Drop)]
pub struct Pcids<'a, A: Allocator + Copy> {
    // The slots from the one of PCID `next` on.
    pub(crate) slots: &'a [Option<Space<A>>],
    pub(crate) next: Pcid,
}

impl<'a, A: Allocator + Copy> Model for Pcids<'a, A> {
    ghost use Rattle.std.specs.Prelude.{ℕ, List, map, length, ◌+◌, ◌≤◌};
    ghost use Rattle.spaces.specs.inside.Slots.{listed_from};

    ghost Value = { List ℕ };

    ghost view = { λ p. map (λ s. s.0) (listed_from p.next p.slots.now) };

    ghost invariant = { λ p. p.next + length p.slots.now ≤ 4096 };
}

impl<'a, A: Allocator + Copy> Iterator for Pcids<'a, A> {
    type Item = Pcid;

    ghost next_gives = { YieldsFirst (λ pcids. pcids) };

    ghost remaining = { item_count (λ pcids. pcids) };

    fn next(&mut self) -> Option<Pcid> {
        while let Some((slot, later)) = self.slots.split_first() {
            let pcid = self.next;
            self.slots = later;
            self.next = pcid + 1;
            if slot.is_some() {
                return Some(pcid);
            }
        }
        None
    }
}
