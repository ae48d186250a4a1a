// A machine that carries out requests, and what must be known about the steps that were made on it.
ghost use Rattle.std.specs.Prelude.{◌≡◌, ◌+◌, ◌^◌, ◌≤◌, [], ◌∷◌, length, take, IfOk, IfErr};
ghost use Rattle.shootdown.specs.Shootdown.{IsShootdown};
ghost use Rattle.machine.specs.AtOnce.{load_steps, load_replies, store_steps, store_replies};
ghost use Rattle.engine.specs.Engine.{HasStarted, HasNotStarted};
ghost use Rattle.session.specs.Files.{AreFiles, page_after};
ghost use Rattle.session.specs.Sessions.{IsStarted, no_notes};
ghost use Rattle.session.specs.Steps.{Makes};

use crate::files::Files;
use crate::notes::Notes;
use device::Device;
use machine::{Machine, Reply, Shape, Step};
use page_entry::{FilePage, ProcessorNumber, Refusal};
use recovery::opened_as_recovered;
use std::alloc::Allocator;
use std::marker::Model;

/// The machine of a session. A request's contract relates the machines before and after the request. Only for a
/// `Session` it is known that steps from its start led to this machine.
///
/// Contracts see the machine, the notes about the steps that were made since its start, and the files.
#[derive(Drop)]
pub(crate) struct Requests<D: Device, A: Allocator + Copy> {
    machine: Machine<D, A>,
    // The notes about the steps that were made.
    notes: Notes,
    files: Files<A>,
}

impl<D: Device, A: Allocator + Copy> Model for Requests<D, A> {
    ghost use Rattle.std.specs.Coded.{codes};
    ghost use Rattle.machine.specs.inside.Codes.{map_code};
    ghost use Rattle.session.specs.Sessions.{SessionState};

    ghost Value = { SessionState D A };

    ghost coded = { Prim.hlevel (codes, map_code, D.code) };

    ghost view = { λ s. record { machine = s.machine; notes = s.notes; files = s.files } };
}

fn open_and_boot<D: Device, A: Allocator + Copy>(
    alloc: A,
    device: D,
    shape: Shape,
) -> Result<Requests<D, A>, (Refusal, D)>
    ensures started { IfOk result (λ requests. HasStarted D.Device device shape requests.machine) }
    ensures files { IfOk result (λ requests. AreFiles requests.machine.state.table requests.machine.state.lengths
        requests.files.lines.items) }
    ensures nothing { IfOk result (λ requests. requests.notes ≡ no_notes) }
    ensures refused { IfErr result (λ refused. HasNotStarted D.Device device shape refused.1 refused.0) }
{
    let volume = match recovery::open(alloc, device) {
        Ok(volume) => volume,
        Err(refused) => return Err(refused),
    };
    let files = Files::of(alloc, &volume);
    match Machine::boot(alloc, volume, shape) {
        Ok(machine) => match files {
            Ok(files) => Ok(Requests {
                machine,
                notes: Notes::new(),
                files,
            }),
            Err(_) => Err((Refusal::OutOfMemory, machine.into_device())),
        },
        Err((refusal, volume)) => Err((refusal, volume.into_device())),
    }
}

impl<D: Device, A: Allocator + Copy> Requests<D, A> {
    /// Opens the volume of a device, and boots a machine of this shape over it. It lists the volume's files with their
    /// lengths as they were opened: the files that the device's bytes recover to (`IsStarted`). On failure it returns
    /// the device.
    ///
    /// Fails with `NotAVolume`, `Damaged` or `Device` as `recovery::open`, with `BadShape` as `Machine::boot`, and with
    /// `OutOfMemory` if memory is refused.
    pub fn start(alloc: A, device: D, shape: Shape) -> Result<Self, (Refusal, D)>
        ensures started { IfOk result (λ requests. IsStarted D.Device device shape requests.machine requests.notes
            requests.files.lines.items) }
        ensures refused { IfErr result (λ refused. HasNotStarted D.Device device shape refused.1 refused.0) }
    {
        match open_and_boot(alloc, device, shape) {
            Ok(requests) => {
                opened_as_recovered(requests.machine().device());
                Ok(requests)
            }
            Err(refused) => Err(refused),
        }
    }

    /// Makes a step, and notes its reply.
    pub fn make(&mut self, step: &Step) -> Reply
        ensures makes { Makes D.Device self.old.machine self.old.notes (step.now ∷ []) (result ∷ []) self.new.machine
            self.new.notes }
        ensures files { self.new.files ≡ self.old.files }
    {
        let reply = self.machine.enter(step);
        self.notes = self.notes.after(&reply);
        reply
    }

    /// Loads up to `count` bytes from the address `va` on at once, each as by a step. It loads the bytes in the page of
    /// the address if the processor has cached an entry that serves them, and otherwise none.
    pub(crate) fn load_run(&self, p: ProcessorNumber, va: u64, count: usize) -> &[u8]
        ensures makes { Makes D.Device self.now.machine self.now.notes (load_steps p va result.now)
            (load_replies result.now) self.now.machine self.now.notes }
        ensures few { length result.now ≤ count }
        ensures below { va + length result.now ≤ 2 ^ 64 }
    {
        self.machine.load_run(p, va, count)
    }

    /// Stores bytes from the address `va` on at once, each as by a step. It stores the bytes in the page of the address
    /// if the processor has cached an entry that serves them, and otherwise none. Returns the number of stored bytes.
    pub(crate) fn store_run(&mut self, p: ProcessorNumber, va: u64, bytes: &[u8]) -> usize
        ensures makes { Makes D.Device self.old.machine self.old.notes (store_steps p va (take result bytes.now))
            (store_replies (take result bytes.now)) self.new.machine self.new.notes }
        ensures files { self.new.files ≡ self.old.files }
        ensures few { result ≤ length bytes.now }
        ensures below { va + result ≤ 2 ^ 64 }
    {
        let count = self.machine.store_run(p, va, bytes);
        self.notes = self.notes.after_stores(count);
        count
    }

    /// Returns the machine on which the steps are made.
    pub fn machine(&self) -> &Machine<D, A>
        ensures { result.now ≡ self.now.machine }
    {
        &self.machine
    }

    /// Returns the notes about the steps that were made.
    pub fn notes(&self) -> Notes
        ensures { result ≡ self.now.notes }
    {
        self.notes
    }

    /// Returns the page to be reclaimed next, and turns to the page after it.
    pub(crate) fn turn(&mut self) -> FilePage
        ensures page { result ≡ self.old.files.next }
        ensures next { self.new.files.next ≡ page_after self.old.files.lines.items self.old.files.next }
        ensures lines { self.new.files.lines.items ≡ self.old.files.lines.items }
        ensures machine { self.new.machine ≡ self.old.machine }
        ensures notes { self.new.notes ≡ self.old.notes }
    {
        self.files.turn()
    }

    /// Returns the volume's files.
    pub fn files(&self) -> &Files<A>
        ensures { result.now ≡ self.now.files }
    {
        &self.files
    }

    // At most one change is in progress on the machine, and the phases of its processors fit together.
    pub(crate) fn has_phases(&self)
        ensures { IsShootdown self.now.machine.state.hardware.shootdown }
    {
        self.machine.is_coherent();
    }

    /// Returns the device in its present state.
    pub fn into_device(self) -> D
        ensures { result ≡ self.machine.device }
    {
        let Requests { machine, .. } = self;
        machine.into_device()
    }
}
