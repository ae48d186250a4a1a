// Makes one act of the layers.
ghost use Rattle.machine.specs.inside.Layers.{reply_to, AreLayers};
ghost use Rattle.machine.specs.inside.Acting.{ActDone};

use crate::layers::Layers;
use crate::{Act, Reply, Step};
use device::Device;
use page_entry::{FilePage, Refusal};
use std::alloc::Allocator;

impl<D: Device, A: Allocator + Copy> Layers<D, A> {
    // Makes one act of one processor.
    pub(crate) fn act(&mut self, step: &Step) -> Result<Reply, Refusal>
        requires { AreLayers D.seen self.old }
        ensures { ActDone D.Device self.old step.now (reply_to result) self.new }
    {
        let p = step.p;
        match &step.act {
            Act::Load { va, count } => self.load(p, *va, *count),
            Act::Store { va, bytes } => self.store(p, *va, *bytes),
            Act::Fill { page } => self.fill(p, *page),
            Act::Evict { slot } => self.evict(p, *slot),
            Act::Switch { space, keep } => self.switch(p, *space, *keep),
            Act::Idle => self.idle(p),
            Act::Wake => self.wake(p),
            Act::Fix { va, write } => self.fix(p, *va, *write),
            Act::Create => self.create(p),
            Act::Destroy { space } => self.destroy(p, *space),
            Act::Map { .. } => self.map(p, &step.act),
            Act::Unmap { space, va, len } => self.unmap(p, *space, *va, *len),
            Act::Protect {
                space,
                va,
                len,
                prot,
            } => self.protect(p, *space, *va, *len, *prot),
            Act::Reclaim { file, page } => self.reclaim(
                p,
                FilePage {
                    file: *file,
                    page: *page,
                },
            ),
            Act::SetLength { file, length } => self.set_length(p, *file, *length),
            Act::Msync { va, len, flags } => self.msync(p, *va, *len, *flags),
            Act::Ack => self.acknowledge(p),
            Act::Change => self.change(p),
            Act::Resume => self.resume(p),
            Act::Flush => self.flush(p),
        }
    }
}
