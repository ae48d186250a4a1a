// Spaces and mappings: acts that take effect at once.
ghost use Rattle.std.specs.Prelude.{ℕ, List, length};
ghost use Rattle.checkpoint.specs.Backing.{HasNotes};
ghost use Rattle.machine.specs.declared.act.Act.TheVariants.{Create, Destroy};
ghost use Rattle.machine.specs.Rules.{Answers};
ghost use Rattle.machine.specs.inside.Layers.{state_in, reply_to, IsQuiet};
ghost use Rattle.machine.specs.inside.Acting.{IsMap};

use crate::layers::Layers;
use crate::{Act, Reply};
use device::Device;
use mappings::Place;
use page_entry::{Pcid, ProcessorNumber, Refusal};
use std::alloc::Allocator;

impl<D: Device, A: Allocator + Copy> Layers<D, A> {
    // Makes a space with the lowest free PCID.
    pub(crate) fn create(&mut self, p: ProcessorNumber) -> Result<Reply, Refusal>
        ensures rules { (disk : List ℕ)
            → Answers (state_in self.old) disk p Create (reply_to result) (state_in self.new) }
        ensures quiet { IsQuiet self.old self.new }
    {
        self.shootdown.admit_free(p)?;
        let space = self.spaces.create()?;
        Ok(Reply::Space(space))
    }

    // Destroys a space that no processor is in, with its mappings and its entries.
    pub(crate) fn destroy(&mut self, p: ProcessorNumber, space: Pcid) -> Result<Reply, Refusal>
        requires { HasNotes self.old.spaces.map (length self.old.checkpoint.notes) }
        ensures rules { (disk : List ℕ)
            → Answers (state_in self.old) disk p (Destroy space) (reply_to result) (state_in self.new) }
        ensures quiet { IsQuiet self.old self.new }
    {
        self.shootdown.admit_free(p)?;
        self.shootdown.may_destroy(&self.spaces, space)?;
        self.shootdown.forget(space);
        self.checkpoint.destroy(&mut self.spaces, space);
        Ok(Reply::Destroyed)
    }

    // Maps pages of a space to pages of a file, as the act requests.
    pub(crate) fn map(&mut self, p: ProcessorNumber, act: &Act) -> Result<Reply, Refusal>
        requires { IsMap act.now }
        ensures rules { (disk : List ℕ)
            → Answers (state_in self.old) disk p act.now (reply_to result) (state_in self.new) }
        ensures quiet { IsQuiet self.old self.new }
    {
        let Act::Map {
            space,
            va,
            len,
            file,
            offset,
            prot,
            access,
        } = act
        else {
            unreachable!()
        };
        self.shootdown.admit_free(p)?;
        let (range, page) = self.spaces.judge_mapping(*space, *va, *len, *offset)?;
        if *file as usize >= self.table.file_count() {
            return Err(Refusal::NoFile);
        }
        let place = Place {
            file: *file,
            page,
            rights: *prot,
            access: *access,
        };
        self.spaces.map(*space, range, place)?;
        Ok(Reply::Mapped)
    }
}
