// A session: a machine that carries out requests, reached by steps from its start.
ghost use Rattle.std.specs.Prelude.{◌≡◌, [], ◌∷◌, IfOk, IfErr};
ghost use Rattle.engine.specs.Engine.{HasNotStarted};
ghost use Rattle.session.specs.CarriedOut.{CarriesOut};
ghost use Rattle.session.specs.Commits.{AnswersCommit};
ghost use Rattle.session.specs.Lengths.{AnswersLength};
ghost use Rattle.session.specs.Ranges.{LoadsReached, StoresReached};
ghost use Rattle.session.specs.Sessions.{IsServing, IsStarted};
ghost use Rattle.session.specs.Steps.{Makes};
ghost use Rattle.session.specs.Turns.{InTurn};

use crate::files::Files;
use crate::notes::Notes;
use crate::ranges::Reached;
use crate::requests::Requests;
use device::Device;
use machine::{Machine, Reply, Shape, Step};
use page_entry::{ProcessorNumber, Refusal};
use std::alloc::Allocator;
use std::marker::Model;

/// A machine that carries out requests, and makes no other steps.
///
/// Contracts see the machine, the notes about the steps that were made since its start, and the files.
#[derive(Drop)]
pub struct Session<D: Device, A: Allocator + Copy> {
    requests: Requests<D, A>,
}

impl<D: Device, A: Allocator + Copy> Model for Session<D, A> {
    ghost use Rattle.std.specs.Coded.{codes};
    ghost use Rattle.machine.specs.inside.Codes.{map_code};
    ghost use Rattle.session.specs.Sessions.{SessionState, IsServing};

    ghost Value = { SessionState D A };

    ghost coded = { Prim.hlevel (codes, map_code, D.code) };

    ghost view = { λ s. s.requests };

    ghost invariant = { λ s. IsServing D.Device s.requests.machine s.requests.notes };
}

/// Opens the volume of a device, and boots a machine of this shape over it. The session lists the volume's files with
/// their lengths as they were opened: the files that the device's bytes recover to (`IsStarted`). On failure it returns
/// the device.
///
/// Fails with `NotAVolume`, `Damaged` or `Device` as `recovery::open`, with `BadShape` as `Machine::boot`, and with
/// `OutOfMemory` if memory is refused.
pub fn start<D: Device, A: Allocator + Copy>(
    alloc: A,
    device: D,
    shape: Shape,
) -> Result<Session<D, A>, (Refusal, D)>
    ensures started { IfOk result (λ session. IsStarted D.Device device shape session.machine session.notes
        session.files.lines.items) }
    ensures refused { IfErr result (λ refused. HasNotStarted D.Device device shape refused.1 refused.0) }
{
    match Requests::start(alloc, device, shape) {
        Ok(requests) => Ok(Session { requests }),
        Err(refused) => Err(refused),
    }
}

impl<D: Device, A: Allocator + Copy> Session<D, A> {
    /// Makes a step, and notes its reply.
    pub fn make(&mut self, step: &Step) -> Reply
        ensures makes { Makes D.Device self.old.machine self.old.notes (step.now ∷ []) (result ∷ []) self.new.machine
            self.new.notes }
        ensures files { self.new.files ≡ self.old.files }
    {
        self.requests.make(step)
    }

    /// Loads `len` bytes from the address `va` on into an empty vector. Returns how far it got.
    pub fn load(&mut self, p: ProcessorNumber, va: u64, len: usize, out: &mut Vec<u8, A>) -> Reached
        requires { out.old.items ≡ [] }
        ensures { CarriesOut D.Device self.old.machine self.old.notes
            (InTurn self.old.files (LoadsReached p va len out.new.items result) self.new.files)
            self.new.machine self.new.notes }
    {
        self.requests.load(p, va, len, out)
    }

    /// Stores bytes from the address `va` on. Returns how far it got.
    pub fn store(&mut self, p: ProcessorNumber, va: u64, bytes: &[u8]) -> Reached
        ensures { CarriesOut D.Device self.old.machine self.old.notes
            (InTurn self.old.files (StoresReached p va bytes.now result) self.new.files)
            self.new.machine self.new.notes }
    {
        self.requests.store(p, va, bytes)
    }

    /// Commits all stores. Returns the number of the mark, which is durable. Otherwise fails with the reply to the step
    /// that stopped the commit: a refusal, or that there was nothing to do.
    pub fn commit(&mut self, p: ProcessorNumber) -> Result<u32, Reply>
        ensures answers { CarriesOut D.Device self.old.machine self.old.notes (AnswersCommit p self.old.notes result)
            self.new.machine self.new.notes }
        ensures files { self.new.files ≡ self.old.files }
    {
        self.requests.commit(p)
    }

    /// Sets the length of a file, and returns the reply to the change. The new length isn't committed.
    ///
    /// If no change was begun, it returns the reply to the last step that would have begun it. The reply is `Fine` if
    /// the file has this length already. Otherwise it is a refusal. If this step was busy, and the write-out step that
    /// it waits for was refused, it returns that refusal.
    pub fn set_length(&mut self, p: ProcessorNumber, file: u16, length: u64) -> Reply
        ensures { CarriesOut D.Device self.old.machine self.old.notes
            (InTurn self.old.files (AnswersLength p file length result) self.new.files)
            self.new.machine self.new.notes }
    {
        self.requests.set_length(p, file, length)
    }

    /// Returns the machine on which the steps are made.
    pub fn machine(&self) -> &Machine<D, A>
        ensures { result.now ≡ self.now.machine }
    {
        self.requests.machine()
    }

    /// Returns the notes about the steps that were made.
    pub fn notes(&self) -> Notes
        ensures { result ≡ self.now.notes }
    {
        self.requests.notes()
    }

    /// Returns the volume's files.
    pub fn files(&self) -> &Files<A>
        ensures { result.now ≡ self.now.files }
    {
        self.requests.files()
    }

    /// Shows that every session's machine was started over a device. Steps and their replies led from there to its
    /// present state, and the notes are exactly those of these steps.
    pub fn has_served(&self)
        ensures { IsServing D.Device self.now.machine self.now.notes }
    {
        self.requests.has_phases();
    }

    /// Returns the device in its present state.
    pub fn into_device(self) -> D
        ensures { result ≡ self.machine.device }
    {
        let Session { requests } = self;
        requests.into_device()
    }
}
