// Carries out the commands of a program, one after the other.
ghost use Rattle.std.specs.Prelude.{◌≡◌, ◌≤◌, ◌↔◌, IsTrue, Some, if◌then◌else◌, Option, None, true};
ghost use Rattle.driver.specs.Programs.{IsAccessAnswer, IsAccessReply, IsLastFlush, IsOtherByte};
ghost use Rattle.driver.specs.Programs.{FollowsProgram, GoesToSleep, Flushes, IsUpkeep, MakesChange, Obeys, ObeysAll};
ghost use Rattle.driver.specs.Programs.{WaitsForMark};
ghost use Rattle.driver.specs.Programs.{fix_of, is_begun, is_fault, is_fixed, is_refusal, is_sync, mark_to_sync};
ghost use Rattle.driver.specs.inside.Working.{ComesTo, IsDone, IsDoneBy, IsWritten};

use crate::acts::{Answer, Stop, made, waited};
use bitflags::Flags;
use device::Device;
use machine::{Access, Act, MsyncFlags, Reply};
use page_entry::Refusal;
use scripts::Command;
use service::{Cpu, Origin};
use std::alloc::Global;
use std::sync::Wait;

// Carries out the commands of a program, makes the remaining steps of the write-outs, and puts the processor to sleep.
pub fn worked<D: Device, L: Origin<D>, R: Wait>(
    rt: &R,
    cpu: &mut Cpu<D, Global, L>,
    turns: u64,
    program: &[Command],
) -> Result<(), Stop>
    ensures { IsDone (FollowsProgram program.now) result cpu.old cpu.new }
{
    all_obeyed(rt, cpu, turns, program)?;
    put_to_sleep(rt, cpu, turns)
}

fn all_obeyed<D: Device, L: Origin<D>, R: Wait>(
    rt: &R,
    cpu: &mut Cpu<D, Global, L>,
    turns: u64,
    program: &[Command],
) -> Result<(), Stop>
    ensures { IsDone (ObeysAll program.now) result cpu.old cpu.new }
{
    for i in 0..program.len() {
        obeyed(rt, cpu, turns, &program[i])?;
    }
    Ok(())
}

fn put_to_sleep<D: Device, L: Origin<D>, R: Wait>(
    rt: &R,
    cpu: &mut Cpu<D, Global, L>,
    turns: u64,
) -> Result<(), Stop>
    ensures { IsDone GoesToSleep result cpu.old cpu.new }
{
    flushed(rt, cpu, turns)?;
    made(rt, cpu, turns, &Act::Idle)?;
    Ok(())
}

fn obeyed<D: Device, L: Origin<D>, R: Wait>(
    rt: &R,
    cpu: &mut Cpu<D, Global, L>,
    turns: u64,
    command: &Command,
) -> Result<(), Stop>
    ensures { IsDone (Obeys command.now) result cpu.old cpu.new }
{
    match command {
        Command::Do(act) => done(rt, cpu, turns, act),
        Command::Await { va, byte } => awaited(rt, cpu, turns, *va, *byte),
    }
}

// Makes an act, and the change that it began.
fn done<D: Device, L: Origin<D>, R: Wait>(
    rt: &R,
    cpu: &mut Cpu<D, Global, L>,
    turns: u64,
    act: &Act,
) -> Result<(), Stop>
    ensures { IsDone (Obeys (Command.Do act.now)) result cpu.old cpu.new }
{
    let begun = served(rt, cpu, turns, act)?;
    if has_begun(&begun.reply) {
        changed(rt, cpu, turns, act)
    } else {
        Ok(())
    }
}

// Makes the change that an act began. If its mark is to be durable, waits until it is.
fn changed<D: Device, L: Origin<D>, R: Wait>(
    rt: &R,
    cpu: &mut Cpu<D, Global, L>,
    turns: u64,
    act: &Act,
) -> Result<(), Stop>
    ensures { IsDone (MakesChange true act.now) result cpu.old cpu.new }
{
    let changed = made(rt, cpu, turns, &Act::Change)?;
    match mark_to_sync(act, &changed.reply) {
        Some(mark) => committed(rt, cpu, turns, mark),
        None => Ok(()),
    }
}

// Whether an act began a change.
fn has_begun(reply: &Reply) -> bool
    ensures { result ≡ is_begun reply.now }
{
    matches!(reply, Reply::Begun)
}

// Returns the mark that an act is to make durable, if there is one.
fn mark_to_sync(act: &Act, changed: &Reply) -> Option<u64>
    ensures { result ≡ mark_to_sync act.now changed.now }
{
    if let Reply::Marked(mark) = changed {
        if is_sync(act) {
            return Some(u64::from(*mark));
        }
    }
    None
}

// Whether an act asks for a durable commit.
fn is_sync(act: &Act) -> bool
    ensures { result ≡ is_sync act.now }
{
    if let Act::Msync { flags, .. } = act {
        flags.contains(MsyncFlags::SYNC)
    } else {
        false
    }
}

// Makes steps of the write-outs until a mark is durable, or a step is refused.
fn committed<D: Device, L: Origin<D>, R: Wait>(
    rt: &R,
    cpu: &mut Cpu<D, Global, L>,
    turns: u64,
    mark: u64,
) -> Result<(), Stop>
    ensures { IsDoneBy IsUpkeep (WaitsForMark mark) result cpu.old cpu.new }
{
    for _ in rt.forever() {
        if is_written(rt, cpu, turns, mark)? {
            return Ok(());
        }
    }
    unreachable!()
}

// Returns whether a wait for a mark ends. If the mark isn't durable, makes a step of the write-outs, whose refusal ends
// the wait.
fn is_written<D: Device, L: Origin<D>, R: Wait>(
    rt: &R,
    cpu: &mut Cpu<D, Global, L>,
    turns: u64,
    mark: u64,
) -> Result<bool, Stop>
    ensures { IsWritten mark result cpu.old cpu.new }
{
    if is_committed(rt, cpu, mark) {
        return Ok(true);
    }
    let flushed = made(rt, cpu, turns, &Act::Flush)?;
    Ok(is_refused(&flushed.reply))
}

fn is_refused(reply: &Reply) -> bool
    ensures { result ≡ is_refusal reply.now }
{
    matches!(reply, Reply::Refused(_))
}

// Whether a mark is durable.
fn is_committed<D: Device, L: Origin<D>, R: Wait>(
    rt: &R,
    cpu: &mut Cpu<D, Global, L>,
    mark: u64,
) -> bool
    ensures committed { IsTrue result → mark ≤ cpu.new.committed }
    ensures number { cpu.new.number ≡ cpu.old.number }
    ensures answered { cpu.new.answered ≡ cpu.old.answered }
{
    let (_, committed) = cpu.horizon(rt);
    committed >= mark
}

// Makes steps of the write-outs until there are none, or a step is refused.
fn flushed<D: Device, L: Origin<D>, R: Wait>(
    rt: &R,
    cpu: &mut Cpu<D, Global, L>,
    turns: u64,
) -> Result<(), Stop>
    ensures { IsDoneBy IsUpkeep Flushes result cpu.old cpu.new }
{
    for _ in rt.forever() {
        let flushed = made(rt, cpu, turns, &Act::Flush)?;
        if is_last_flush(&flushed.reply) {
            return Ok(());
        }
    }
    unreachable!()
}

// Whether there was nothing to write, or the step was refused.
fn is_last_flush(reply: &Reply) -> bool
    ensures { IsTrue result ↔ IsLastFlush reply.now }
{
    matches!(reply, Reply::Nothing | Reply::Refused(_))
}

// Loads the byte at an address until it is `byte`, or a load is refused. Waits for progress between two loads.
fn awaited<D: Device, L: Origin<D>, R: Wait>(
    rt: &R,
    cpu: &mut Cpu<D, Global, L>,
    turns: u64,
    va: u64,
    byte: u8,
) -> Result<(), Stop>
    ensures { IsDone (Obeys (Command.Await va byte)) result cpu.old cpu.new }
{
    let load = Act::Load { va, count: 1 };
    for _ in rt.forever() {
        let loaded = served(rt, cpu, turns, &load)?;
        if has_other_byte(&loaded.reply, byte) {
            waited(rt, cpu, loaded.seen, turns)?;
        } else {
            return Ok(());
        }
    }
    unreachable!()
}

// Whether a load read another byte than this one.
fn has_other_byte(reply: &Reply, byte: u8) -> bool
    ensures { IsTrue result ↔ IsOtherByte byte reply.now }
{
    matches!(reply, Reply::Bytes(bytes) if bytes.as_slice() != [byte].as_slice())
}

// Makes an act, and serves its faults, until its reply isn't a fault. If a fault can't be served, returns the reply to
// that attempt.
fn served<D: Device, L: Origin<D>, R: Wait>(
    rt: &R,
    cpu: &mut Cpu<D, Global, L>,
    turns: u64,
    act: &Act,
) -> Result<Answer, Stop>
    ensures { ComesTo IsAccessAnswer act.now result cpu.old cpu.new }
{
    let mut answer = made(rt, cpu, turns, act)?;
    for _ in rt.forever() {
        let Some(fix) = fix_for(act, &answer.reply) else {
            return Ok(answer);
        };
        answer = fixed(rt, cpu, turns, act, &fix)?;
    }
    unreachable!()
}

// Serves the fault of an act. If it is served, makes the act again.
fn fixed<D: Device, L: Origin<D>, R: Wait>(
    rt: &R,
    cpu: &mut Cpu<D, Global, L>,
    turns: u64,
    act: &Act,
    fix: &Act,
) -> Result<Answer, Stop>
    requires { fix_of act.now ≡ Some fix.now }
    ensures { ComesTo IsAccessReply act.now result cpu.old cpu.new }
{
    let answer = made(rt, cpu, turns, fix)?;
    if is_fixed(&answer.reply) {
        made(rt, cpu, turns, act)
    } else {
        Ok(answer)
    }
}

fn is_fixed(reply: &Reply) -> bool
    ensures { result ≡ is_fixed reply.now }
{
    matches!(reply, Reply::Fixed)
}

// Returns the act that serves the fault of a load or a store.
fn fix_for(act: &Act, reply: &Reply) -> Option<Act>
    ensures { result ≡ (if is_fault reply.now then fix_of act.now else None) }
{
    if is_fault(reply) { fix_of(act) } else { None }
}

fn is_fault(reply: &Reply) -> bool
    ensures { result ≡ is_fault reply.now }
{
    matches!(reply, Reply::Refused(Refusal::Fault(_)))
}

fn fix_of(act: &Act) -> Option<Act>
    ensures { result ≡ fix_of act.now }
{
    match act.access() {
        Access::Load(va) => Some(Act::Fix { va, write: false }),
        Access::Store(va) => Some(Act::Fix { va, write: true }),
        Access::Translation | Access::Other => None,
    }
}
