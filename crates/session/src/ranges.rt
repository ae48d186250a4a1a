// Loads and stores of ranges of addresses. In each page, an access of up to eight bytes comes first, and its fault is
// served. The rest of the page is then accessed at once, as far as the cached entry serves it.
ghost use Rattle.std.specs.Prelude.{◌≡◌, ◌↔◌, ◌<◌, ◌≤◌, ◌++◌, length, [], true, false, IfOk, IfErr, IsTrue};
ghost use Rattle.machine.specs.declared.act.Act.TheVariants as acts;
ghost use Rattle.machine.specs.declared.act.Reply.TheVariants as replied;
ghost use Rattle.session.specs.CarriedOut.{CarriesOut};
ghost use Rattle.session.specs.Ends.{IsAccessFor, IsPiece, reports_fault};
ghost use Rattle.session.specs.Ranges.{LoadsReached, StoresReached};
ghost use Rattle.session.specs.Steps.{reports_fixed};
ghost use Rattle.session.specs.Turns.{InTurn};
ghost use Rattle.session.specs.inside.Paging.{EndsBy, StopsAt, LoadsOn};

use crate::requests::Requests;
use device::Device;
use machine::{Act, FewBytes, Reply, Step, faults_are_served};
use page_entry::{PAGE, ProcessorNumber, Refusal};
use std::alloc::{AllocError, Allocator};

/// How far a range was loaded or stored.
#[derive(Clone, Copy)]
pub enum Reached {
    /// All of it.
    All,
    /// The accesses before this byte were made. The next step got this reply.
    Refused { count: usize, reply: Reply },
    /// Memory was refused before the end.
    NoMemory,
}

impl<D: Device, A: Allocator + Copy> Requests<D, A> {
    /// Loads `count` bytes from the address `va` on into an empty vector. Returns how far it got.
    pub fn load(
        &mut self,
        p: ProcessorNumber,
        va: u64,
        count: usize,
        bytes: &mut Vec<u8, A>,
    ) -> Reached
        requires { bytes.old.items ≡ [] }
        ensures { CarriesOut D.Device self.old.machine self.old.notes
            (InTurn self.old.files (LoadsReached p va count bytes.new.items result) self.new.files)
            self.new.machine self.new.notes }
    {
        let mut done = 0;
        while done < count {
            let from = va.saturating_add(done as u64);
            let few = piece(from, count - done);
            let read = match self.load_piece(p, from, few) {
                Ok(read) => read,
                Err(reply) => return Reached::Refused { count: done, reply },
            };
            done += few;
            match self.load_on(p, va, done, count - done, &read, bytes) {
                Ok(more) => done += more,
                Err(_) => return Reached::NoMemory,
            }
        }
        Reached::All
    }

    /// Stores bytes from the address `va` on. Returns how far it got.
    pub fn store(&mut self, p: ProcessorNumber, va: u64, bytes: &[u8]) -> Reached
        ensures { CarriesOut D.Device self.old.machine self.old.notes
            (InTurn self.old.files (StoresReached p va bytes.now result) self.new.files)
            self.new.machine self.new.notes }
    {
        let mut done = 0;
        while done < bytes.len() {
            let from = va.saturating_add(done as u64);
            let few = piece(from, bytes.len() - done);
            if let Err(reply) = self.store_piece(p, from, &bytes[done..done + few]) {
                return Reached::Refused { count: done, reply };
            }
            done += few;
            let next = va.saturating_add(done as u64);
            let more = self.store_run(p, next, &bytes[done..]);
            done += more;
        }
        Reached::All
    }

    // Appends a loaded piece. Then loads at once from byte `done` of the range on, at most the `left` bytes that are
    // missing. Returns the number of bytes that it loaded at once.
    fn load_on(
        &self,
        p: ProcessorNumber,
        va: u64,
        done: usize,
        left: usize,
        piece: &FewBytes,
        bytes: &mut Vec<u8, A>,
    ) -> Result<usize, AllocError>
        ensures loads { IfOk result (λ more. CarriesOut D.Device self.now.machine self.now.notes
            (InTurn self.now.files (λ _. LoadsOn p va done more (bytes.old.items ++ piece.now) bytes.new.items)
            self.now.files) self.now.machine self.now.notes) }
        ensures few { IfOk result (λ more. more ≤ left) }
    {
        bytes.extend_from_slice(piece.as_slice())?;
        let from = va.saturating_add(done as u64);
        let run = self.load_run(p, from, left);
        bytes.extend_from_slice(run)?;
        Ok(run.len())
    }

    // Loads a piece from an address on, and returns its bytes. Fails with the reply that ends the range before the
    // piece.
    fn load_piece(&mut self, p: ProcessorNumber, va: u64, count: usize) -> Result<FewBytes, Reply>
        requires { IsPiece va count }
        ensures ok { IfOk result (λ bytes. CarriesOut D.Device self.old.machine self.old.notes
            (InTurn self.old.files (λ _. EndsBy (record { p = p; act = acts.Load va count }) (replied.Bytes bytes))
            self.new.files) self.new.machine self.new.notes) }
        ensures err { IfErr result (λ reply. CarriesOut D.Device self.old.machine self.old.notes
            (InTurn self.old.files (StopsAt p va false reply) self.new.files) self.new.machine self.new.notes) }
    {
        let load = Act::Load {
            va,
            count: count as u8,
        };
        let answer = self.access(p, load, va, false)?;
        if let Reply::Bytes(bytes) = answer {
            Ok(bytes)
        } else {
            Err(answer)
        }
    }

    // Stores a piece from an address on. If it isn't stored, fails with the reply that ends the range before it.
    fn store_piece(&mut self, p: ProcessorNumber, va: u64, bytes: &[u8]) -> Result<(), Reply>
        requires { IsPiece va (length bytes.now) }
        ensures ok { IfOk result (λ _. CarriesOut D.Device self.old.machine self.old.notes
            (InTurn self.old.files (λ _. EndsBy (record { p = p; act = acts.Store va bytes.now }) replied.Stored)
            self.new.files) self.new.machine self.new.notes) }
        ensures err { IfErr result (λ reply. CarriesOut D.Device self.old.machine self.old.notes
            (InTurn self.old.files (StopsAt p va true reply) self.new.files) self.new.machine self.new.notes) }
    {
        let bytes = part(bytes);
        let answer = self.access(p, Act::Store { va, bytes }, va, true)?;
        if is_stored(&answer) {
            Ok(())
        } else {
            Err(answer)
        }
    }

    // Makes a load or a store at an address, and serves its fault. Returns the final reply, which is never a fault. If
    // the fault isn't served, fails with the reply to the last attempt.
    fn access(&mut self, p: ProcessorNumber, act: Act, va: u64, write: bool) -> Result<Reply, Reply>
        requires { IsAccessFor va write act }
        ensures ok { IfOk result (λ reply. CarriesOut D.Device self.old.machine self.old.notes
            (InTurn self.old.files (λ _. EndsBy (record { p = p; act = act }) reply) self.new.files)
            self.new.machine self.new.notes) }
        ensures no_fault { IfOk result (λ reply. reports_fault reply ≡ false) }
        ensures err { IfErr result (λ reply. CarriesOut D.Device self.old.machine self.old.notes
            (InTurn self.old.files (StopsAt p va write reply) self.new.files) self.new.machine self.new.notes) }
    {
        let step = Step { p, act };
        let reply = self.make(&step);
        if !is_fault(&reply) {
            return Ok(reply);
        }
        let fixed = self.fix(p, va, write);
        if !is_fixed(&fixed) {
            return Err(fixed);
        }
        let last = self.make(&step);
        faults_are_served(self.machine().device());
        Ok(last)
    }
}

// Returns the number of bytes of the next step, at most the `left` bytes and eight. They lie in the page of the
// address.
fn piece(va: u64, left: usize) -> usize
    requires { 0 < left }
    ensures piece { IsPiece va result }
    ensures left { result ≤ left }
{
    let to_border = (PAGE - va % PAGE) as usize;
    left.min(8).min(to_border)
}

// Returns these bytes, which are at most eight.
fn part(bytes: &[u8]) -> FewBytes
    requires { length bytes.now ≤ 8 }
    ensures { result ≡ bytes.now }
{
    FewBytes::new(bytes).unwrap()
}

fn is_fault(reply: &Reply) -> bool
    ensures { result ≡ reports_fault reply.now }
{
    matches!(reply, Reply::Refused(Refusal::Fault(_)))
}

fn is_fixed(reply: &Reply) -> bool
    ensures { result ≡ reports_fixed reply.now }
{
    matches!(reply, Reply::Fixed)
}

fn is_stored(reply: &Reply) -> bool
    ensures { IsTrue result ↔ (reply.now ≡ replied.Stored) }
{
    matches!(reply, Reply::Stored)
}
