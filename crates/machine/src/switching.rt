// Processors that switch to other spaces, stall, resume, idle and wake.
ghost use Rattle.machine.specs.declared.act.Act.TheVariants.{Switch, Ack, Resume, Wake, Idle};
ghost use Rattle.machine.specs.inside.Layers.{reply_to};
ghost use Rattle.machine.specs.inside.Acting.{IsAnsweredQuietly};

use crate::Reply;
use crate::layers::{Layers, reply_if};
use device::Device;
use page_entry::{Pcid, ProcessorNumber, Refusal};
use std::alloc::Allocator;

impl<D: Device, A: Allocator + Copy> Layers<D, A> {
    // Makes another space the current one.
    pub(crate) fn switch(
        &mut self,
        p: ProcessorNumber,
        space: Pcid,
        keep: bool,
    ) -> Result<Reply, Refusal>
        ensures { IsAnsweredQuietly self.old p (Switch space keep) (reply_to result) self.new }
    {
        self.shootdown.switch(p, &self.spaces, space, keep)?;
        Ok(Reply::Switched)
    }

    // Stalls an interrupted processor.
    pub(crate) fn acknowledge(&mut self, p: ProcessorNumber) -> Result<Reply, Refusal>
        ensures { IsAnsweredQuietly self.old p Ack (reply_to result) self.new }
    {
        Ok(reply_if(self.shootdown.ack(p)?, Reply::Acked))
    }

    // Resumes a stalled processor.
    pub(crate) fn resume(&mut self, p: ProcessorNumber) -> Result<Reply, Refusal>
        ensures { IsAnsweredQuietly self.old p Resume (reply_to result) self.new }
    {
        Ok(reply_if(self.shootdown.resume(p)?, Reply::Resumed))
    }

    // Wakes an idle processor.
    pub(crate) fn wake(&mut self, p: ProcessorNumber) -> Result<Reply, Refusal>
        ensures { IsAnsweredQuietly self.old p Wake (reply_to result) self.new }
    {
        Ok(reply_if(self.shootdown.wake(p)?, Reply::Woken))
    }

    // Puts a processor to sleep.
    pub(crate) fn idle(&mut self, p: ProcessorNumber) -> Result<Reply, Refusal>
        ensures { IsAnsweredQuietly self.old p Idle (reply_to result) self.new }
    {
        self.shootdown.idle(p)?;
        Ok(Reply::Idled)
    }
}
