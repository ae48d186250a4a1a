// Loads and stores, and what a TLB caches and drops on its own.
ghost use Rattle.cpu.specs.Access.{IsReachable};
ghost use Rattle.machine.specs.declared.act.Act.TheVariants.{Load, Store, Fill, Evict};
ghost use Rattle.machine.specs.Rules.{Reaches};
ghost use Rattle.machine.specs.inside.Layers.{state_in, reply_to, IsQuiet};

use crate::layers::{Layers, reply_if};
use crate::{FewBytes, Reply};
use device::Device;
use page_entry::{PageNumber, ProcessorNumber, Refusal};
use std::alloc::Allocator;

impl<D: Device, A: Allocator + Copy> Layers<D, A> {
    // Reads bytes at an address of a processor's current space.
    pub(crate) fn load(&mut self, p: ProcessorNumber, va: u64, count: u8) -> Result<Reply, Refusal>
        requires { IsReachable (state_in self.old).hardware }
        ensures rules { Reaches (state_in self.old) p (Load va count) (reply_to result) (state_in self.new) }
        ensures quiet { IsQuiet self.old self.new }
    {
        let bytes = cpu::load(
            &mut self.shootdown,
            &mut self.spaces,
            &self.frames,
            p,
            va,
            count as usize,
        )?;
        Ok(Reply::Bytes(FewBytes::of(bytes)))
    }

    // Writes bytes at an address of a processor's current space.
    pub(crate) fn store(
        &mut self,
        p: ProcessorNumber,
        va: u64,
        bytes: FewBytes,
    ) -> Result<Reply, Refusal>
        requires { IsReachable (state_in self.old).hardware }
        ensures rules { Reaches (state_in self.old) p (Store va bytes) (reply_to result) (state_in self.new) }
        ensures quiet { IsQuiet self.old self.new }
    {
        cpu::store(
            &mut self.shootdown,
            &mut self.spaces,
            &mut self.frames,
            p,
            va,
            bytes.as_slice(),
        )?;
        Ok(Reply::Stored)
    }

    // Caches a page of a processor's current space, if it has an entry.
    pub(crate) fn fill(&mut self, p: ProcessorNumber, page: PageNumber) -> Result<Reply, Refusal>
        ensures rules { Reaches (state_in self.old) p (Fill page) (reply_to result) (state_in self.new) }
        ensures quiet { IsQuiet self.old self.new }
    {
        let filled = cpu::fill(&mut self.shootdown, &mut self.spaces, p, page)?;
        Ok(reply_if(filled, Reply::Filled))
    }

    // Drops the entry in a slot of a processor's TLB, if there is such a slot.
    pub(crate) fn evict(&mut self, p: ProcessorNumber, slot: u8) -> Result<Reply, Refusal>
        ensures rules { Reaches (state_in self.old) p (Evict slot) (reply_to result) (state_in self.new) }
        ensures quiet { IsQuiet self.old self.new }
    {
        let evicted = cpu::evict(&mut self.shootdown, p, slot as usize)?;
        Ok(reply_if(evicted, Reply::Evicted))
    }
}
