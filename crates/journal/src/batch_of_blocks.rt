// A batch that is begun with its list of home blocks.
ghost use Rattle.std.specs.Prelude.{◌≡◌, ◌<◌, ◌≤◌, false, length};
ghost use Rattle.std.specs.List.{AllByRecursion};
ghost use Rattle.std.specs.Vec.{vec_capacity};
ghost use Rattle.volume_codec.specs.Descriptor.{AreHomes};
ghost use Rattle.journal.specs.WriteOuts.{is_busy, begun};

use crate::WriteOuts;
use crate::queued::Queued;
use crate::write_outs::journal_after;
use std::alloc::Allocator;

// Returns these home blocks as a list, in the memory of another one.
fn filled<A: Allocator + Copy>(mut list: Vec<u32, A>, homes: &[u32]) -> Vec<u32, A>
    requires { length homes.now ≤ vec_capacity list }
    ensures items { result.items ≡ homes.now }
    ensures room { vec_capacity list ≤ vec_capacity result }
{
    list.clear();
    // The list has room for them.
    let _ = list.extend_from_slice(homes);
    list
}

impl<A: Allocator + Copy> WriteOuts<A> {
    /// Begins the write-out of a batch of these home blocks, as `begin` does. It allocates no memory and makes no
    /// device call.
    pub fn begin_blocks(&mut self, mark: u64, homes: &[u32])
        requires whole { self.old.broken ≡ false }
        requires free { is_busy self.old ≡ false }
        requires some_mark { 0 < mark }
        requires homes { AreHomes self.old.geometry homes.now }
        requires newest { AllByRecursion (λ w. w.batch.mark < mark) self.old.batches }
        ensures { self.new ≡ begun self.old mark homes.now }
    {
        let list = filled(self.spare.pop().unwrap(), homes);
        let one = Queued::new(&self.geometry, self.next, mark, list);
        // There is room for a write-out in each journal.
        let _ = self.queued.push(one);
        self.next = journal_after(&self.geometry, self.next);
    }
}
