// The machine: how it is made, its queries, and its step.
ghost use Rattle.std.specs.Prelude.{◌≡◌, ◌≢◌, ◌↔◌, ℕ, List, length, false, IsTrue, IfOk, IfErr, OnOk};
ghost use Rattle.shootdown.specs.Shootdown.{is_there, state_of, IsShootdown};
ghost use Rattle.shootdown.specs.Coherence.{Coheres};
ghost use Rattle.checkpoint.specs.Backing.{AreBacked};
ghost use Rattle.machine.specs.Fresh.{IsShape, IsFresh, fresh};
ghost use Rattle.machine.specs.Booting.{RefusesShape};
ghost use Rattle.machine.specs.Calls.{CallsOf};
ghost use Rattle.machine.specs.Rules.{Rules, WantsMemory};
ghost use Rattle.machine.specs.Runs.{StepsTaken};
ghost use Rattle.machine.specs.Steps.{StepMade};
ghost use Rattle.machine.specs.Devices.{DeviceAfter};
ghost use Rattle.machine.specs.inside.Layers.{reply_to};
ghost use Rattle.machine.specs.inside.Booting.{IsRoom};

use crate::booting::Room;
use crate::layers::Layers;
use crate::{Reply, Shape, Step};
use device::Device;
use page_entry::{ProcessorNumber, Refusal};
use recovery::Volume;
use shootdown::ProcState;
use std::alloc::Allocator;
use std::marker::Model;
use volume_codec::Super;

/// A machine over a volume: processors with TLBs, address spaces, frames, and unfinished write-outs.
#[derive(Drop)]
pub struct Machine<D: Device, A: Allocator + Copy> {
    pub(crate) layers: Layers<D, A>,
}

impl<D: Device, A: Allocator + Copy> Model for Machine<D, A> {
    ghost use Rattle.std.specs.Coded.{codes};
    ghost use Rattle.machine.specs.State.{Whole};
    ghost use Rattle.machine.specs.inside.Codes.{map_code};

    ghost Value = { Whole D };

    ghost coded = { Prim.hlevel (codes, map_code, D.code) };

    ghost use Rattle.machine.specs.inside.Layers.{whole_in, AreLayers};

    ghost view = { λ m. whole_in m.layers };

    ghost invariant = { λ m. AreLayers D.seen m.layers };
}

// The reply for the result of an act.
fn reply_to(answer: Result<Reply, Refusal>) -> Reply
    ensures { result ≡ reply_to answer }
{
    match answer {
        Ok(reply) => reply,
        Err(refusal) => Reply::Refused(refusal),
    }
}

impl<D: Device, A: Allocator + Copy> Machine<D, A> {
    /// Boots a machine over an opened volume. Each processor is active in space 0, which maps nothing, and its TLB is
    /// empty. No page is in memory, and nothing was begun. Makes no device call.
    ///
    /// Fails with `BadShape`, before any memory is taken, if the shape's numbers exceed their limits. Fails with
    /// `OutOfMemory` if there is too little memory. A refusal returns the volume.
    pub fn boot(
        alloc: A,
        volume: Volume<D, A>,
        shape: Shape,
    ) -> Result<Self, (Refusal, Volume<D, A>)>
        ensures booted { IfOk result (λ machine. machine
            ≡ record { state = fresh volume.table volume.lengths shape; device = volume.device }) }
        ensures shaped { OnOk result (IsShape volume.table shape) }
        ensures refused { IfErr result (λ e. RefusesShape volume.table shape e.0) }
        ensures volume { IfErr result (λ e. e.1 ≡ volume) }
    {
        if !shape.fits(volume.table()) {
            return Err((Refusal::BadShape, volume));
        }
        match Room::new(alloc, &volume, shape) {
            Ok(room) => Ok(Machine::over(volume, room, shape)),
            Err(_) => Err((Refusal::OutOfMemory, volume)),
        }
    }

    // Makes a machine of this shape over a volume, from its memory.
    fn over(volume: Volume<D, A>, room: Room<A>, shape: Shape) -> Self
        requires shaped { IsShape volume.table shape }
        requires room { IsRoom volume.table volume.lengths shape room }
        ensures { result ≡ record { state = fresh volume.table volume.lengths shape; device = volume.device } }
    {
        let Room {
            lengths,
            shootdown,
            spaces,
            frames,
            checkpoint,
            write_outs,
        } = room;
        let (table, device) = volume.into_parts();
        Machine {
            layers: Layers {
                table,
                lengths,
                shootdown,
                spaces,
                frames,
                checkpoint,
                write_outs,
                marks: 0,
                resized: false,
                device,
            },
        }
    }

    /// Whether the machine is as `boot` makes a machine of its shape over its volume.
    pub fn is_fresh(&self) -> bool
        ensures { IsTrue result ↔ IsFresh self.now.state }
    {
        self.layers.shape().fits(&self.layers.table) && self.layers.look_fresh()
    }

    /// Returns the number of processors, 1 to 16. They are numbered from 0.
    pub fn processors(&self) -> u8
        ensures { result ≡ length self.now.state.hardware.shootdown.processors }
    {
        self.layers.shootdown.processors()
    }

    /// Returns the state of a processor. Fails with `Einval` if there is no processor with this number.
    pub fn state(&self, p: ProcessorNumber) -> Result<ProcState, Refusal>
        ensures ok { IfOk result (λ state. IsTrue (is_there self.now.state.hardware.shootdown p)
            × (state ≡ state_of self.now.state.hardware.shootdown p)) }
        ensures err { IfErr result (λ why. (is_there self.now.state.hardware.shootdown p ≡ false)
            × (why ≡ Refusal.Einval)) }
    {
        self.layers.shootdown.state(p)
    }

    /// States what holds of every machine, whatever was done with it:
    ///
    /// - A cached entry that may still be used agrees with the page table (`coheres`).
    /// - Each entry of the tables maps a frame that contains its page (`backed`). It is writable only if its mapping
    ///   allows writing and the page isn't held.
    /// - The processor that holds the lock initiates, and no other does. None is interrupted while the lock is free
    ///   (`phases`).
    pub fn is_coherent(&self)
        ensures coheres { Coheres self.now.state.hardware.spaces self.now.state.hardware.shootdown }
        ensures backed { AreBacked self.now.state.hardware.memory self.now.state.checkpoint
            self.now.state.hardware.spaces }
        ensures phases { IsShootdown self.now.state.hardware.shootdown }
    {
        self.layers.are_coherent();
    }

    /// Makes one act of one processor, and returns the reply. Every act returns. A refused act changes nothing except
    /// what the rules allow.
    pub fn step(&mut self, step: &Step) -> Reply
        // Over any device the rules hold for some bytes.
        ensures rules { (disk disk' : List ℕ) × Rules self.old.state disk step.now result self.new.state disk' }
        ensures made { D.is_honest self.old.device → StepMade D.Device self.old step.now result self.new }
        ensures device { DeviceAfter D.Device self.old.state step.now.p step.now.act result self.old.device
            self.new.device }
        ensures calls { CallsOf self.old.state step.now.p step.now.act result (D.calls_made self.old.device)
            (D.calls_made self.new.device) (D.faults_met self.old.device) (D.faults_met self.new.device) }
        ensures honest { D.is_honest self.new.device ↔ D.is_honest self.old.device }
        ensures len { length (D.seen self.new.device) ≡ length (D.seen self.old.device) }
        ensures not_full { result ≢ Reply.Refused Refusal.TraceFull }
        ensures memory { result ≡ Reply.Refused Refusal.OutOfMemory
            → WantsMemory self.old.state step.now.p step.now.act }
    {
        reply_to(self.layers.act(step))
    }

    // Makes the steps in order, and stores the reply of each at its place.
    pub(crate) fn make_all(&mut self, steps: &[Step], replies: &mut [Reply])
        requires { length replies.old ≡ length steps.now }
        ensures steps { StepsTaken D.Device self.old steps.now replies.new self.new }
        ensures honest { D.is_honest self.new.device ↔ D.is_honest self.old.device }
        ensures len { length (D.seen self.new.device) ≡ length (D.seen self.old.device) }
    {
        for (i, step) in steps.iter().enumerate() {
            replies[i] = self.enter(step);
        }
    }

    /// Returns the table of the volume's files.
    pub fn table(&self) -> &Super<A>
        ensures { result.now ≡ self.now.state.table }
    {
        &self.layers.table
    }

    /// Returns the machine's device, for reading.
    pub fn device(&self) -> &D
        ensures { result.now ≡ self.now.device }
    {
        &self.layers.device
    }

    /// Returns the machine's device as it is.
    pub fn into_device(self) -> D
        ensures { result ≡ self.device }
    {
        let Machine { layers } = self;
        let Layers { device, .. } = layers;
        device
    }
}
