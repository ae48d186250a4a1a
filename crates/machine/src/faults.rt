// Serves page faults.
ghost use Rattle.std.specs.Prelude.{◌≡◌, ◌*◌, ◌≤◌, ℕ, List, length, true, false, is_err, IfOk};
ghost use Rattle.volume_codec.specs.Super.{block_count};
ghost use Rattle.fault.specs.Fixing.{ReadsOnce};
ghost use Rattle.machine.specs.declared.act.Act.TheVariants.{Fix};
ghost use Rattle.machine.specs.Refusals.{reads_page};
ghost use Rattle.machine.specs.inside.Sound.{IsSound};
ghost use Rattle.machine.specs.Rules.{Answers};
ghost use Rattle.machine.specs.inside.Layers.{state_in, reply_to, AnswersBy, KeepsReserved};

use crate::Reply;
use crate::layers::Layers;
use crate::paging::home_block;
use device::Device;
use fault::PageFault;
use page_entry::{FilePage, PAGE, ProcessorNumber, Refusal};
use std::alloc::Allocator;

impl<D: Device, A: Allocator + Copy> Layers<D, A> {
    // Serves a fault at an address of a processor's current space.
    pub(crate) fn fix(&mut self, p: ProcessorNumber, va: u64, write: bool) -> Result<Reply, Refusal>
        requires sound { IsSound (state_in self.old) }
        requires long { 4096 * block_count self.old.table ≤ length (D.seen self.old.device) }

        // The rules hold for some bytes of the page that was read. On an honest device they hold for the device's own
        // bytes.
        ensures rules { AnswersBy (D.is_honest self.old.device)
            (λ d d'. Answers (state_in self.old) d p (Fix va write) (reply_to result) (state_in self.new) × (d' ≡ d))
            (D.seen self.old.device) (D.seen self.new.device) }
        ensures fixed { IfOk result (λ reply. reply ≡ Reply.Fixed) }
        ensures untouched { reads_page (state_in self.old) p va write ≡ false → self.new.device ≡ self.old.device }
        ensures device { reads_page (state_in self.old) p va write ≡ true
            → ReadsOnce D.seen D.may_leave D.is_honest D.moment D.left_since D.calls_made D.faults_met
            (is_err result) self.old.device self.new.device }
        ensures kept { KeepsReserved self.old self.new }
    {
        self.shootdown.admit_free(p)?;
        let pcid = self.shootdown.space(p);
        let place = fault::place(&self.spaces, pcid, va, write)?;
        let length = self.file_length(place.file);
        if length <= PAGE * u64::from(place.page) {
            return Err(Refusal::BusAdrErr);
        }
        let page = FilePage {
            file: place.file,
            page: place.page,
        };
        let fault = PageFault {
            pcid,
            page: va / PAGE,
            place,
            write,
            home: PAGE * u64::from(home_block(&self.table, page)),
            length,
            broken: self.write_outs.is_broken(),
        };
        fault::fix(
            &mut self.spaces,
            &mut self.frames,
            &self.checkpoint,
            &mut self.device,
            fault,
        )?;
        Ok(Reply::Fixed)
    }
}
