// Makes one act of a processor, again while it has to wait for other processors.
ghost use Rattle.std.specs.Prelude.{◌≡◌, ◌↔◌, IsTrue, IfErr};
ghost use Rattle.page_entry.specs.declared.refusal.Refusal.{Refusal};
ghost use Rattle.machine.specs.declared.act.Reply.{Reply};
ghost use Rattle.driver.specs.Programs.{IsUpkeep, MakesCalls, asks_to_wait, asks_to_flush};
ghost use Rattle.driver.specs.inside.Working.{IsAttempted, IsCalled, HasMadeAct};

use device::Device;
use machine::{Act, ProcState, Reply};
use page_entry::Refusal;
use service::{Cpu, Origin};
use std::alloc::Global;
use std::sync::Wait;

// Why a thread ends before its program does.
#[derive(Clone, Copy, Debug, PartialEq, Eq)]
pub enum Stop {
    // The trace is full.
    Full,
    // A wait ran out.
    RanOut,
}

// The final reply to an act, and the number of entries of the trace that were progress before it.
#[derive(Clone, Copy)]
pub struct Answer {
    pub reply: Reply,
    pub seen: u64,
}

// Makes an act until its reply isn't that it has to wait or to flush.
pub fn made<D: Device, L: Origin<D>, R: Wait>(
    rt: &R,
    cpu: &mut Cpu<D, Global, L>,
    turns: u64,
    act: &Act,
) -> Result<Answer, Stop>
    ensures { HasMadeAct act.now result cpu.old cpu.new }
{
    for _ in rt.forever() {
        if let Some(answer) = attempted(rt, cpu, turns, act)? {
            return Ok(answer);
        }
    }
    unreachable!()
}

// Makes an act once. Before it, acknowledges what interrupts the processor, and ends its stalls. Returns `None` if the
// act is to be made again.
fn attempted<D: Device, L: Origin<D>, R: Wait>(
    rt: &R,
    cpu: &mut Cpu<D, Global, L>,
    turns: u64,
    act: &Act,
) -> Result<Option<Answer>, Stop>
    ensures { IsAttempted act.now result cpu.old cpu.new }
{
    let seen = ready(rt, cpu, turns)?;
    let reply = called(rt, cpu, act)?;
    if has_to_wait(&reply) {
        waited(rt, cpu, seen, turns)?;
        return Ok(None);
    }
    if has_to_flush(&reply) {
        called(rt, cpu, &Act::Flush)?;
        return Ok(None);
    }
    Ok(Some(Answer { reply, seen }))
}

// Waits until the processor is neither interrupted nor stalled. Returns the number of entries of the trace that are
// progress then.
fn ready<D: Device, L: Origin<D>, R: Wait>(
    rt: &R,
    cpu: &mut Cpu<D, Global, L>,
    turns: u64,
) -> Result<u64, Stop>
    ensures { MakesCalls IsUpkeep cpu.old cpu.new }
{
    for _ in rt.forever() {
        let (state, seen) = cpu.look(rt);
        match state {
            ProcState::Interrupted => {
                called(rt, cpu, &Act::Ack)?;
            }
            ProcState::Stalled => resumed(rt, cpu, seen, turns)?,
            _ => return Ok(seen),
        }
    }
    unreachable!()
}

// Ends a stall, or waits for progress.
fn resumed<D: Device, L: Origin<D>, R: Wait>(
    rt: &R,
    cpu: &mut Cpu<D, Global, L>,
    seen: u64,
    turns: u64,
) -> Result<(), Stop>
    ensures { MakesCalls IsUpkeep cpu.old cpu.new }
{
    let reply = called(rt, cpu, &Act::Resume)?;
    if has_to_wait(&reply) {
        waited(rt, cpu, seen, turns)?;
    }
    Ok(())
}

// Makes one call. Fails if the trace is full, and then the call isn't made.
fn called<D: Device, L: Origin<D>, R: Wait>(
    rt: &R,
    cpu: &mut Cpu<D, Global, L>,
    act: &Act,
) -> Result<Reply, Stop>
    ensures full { IfErr result (λ why. why ≡ Stop.Full) }
    ensures called { IsCalled act.now result cpu.old cpu.new }
{
    let reply = cpu.call(rt, *act);
    if is_trace_full(&reply) {
        return Err(Stop::Full);
    }
    Ok(reply)
}

// Whether a reply is that the trace is full.
pub fn is_trace_full(reply: &Reply) -> bool
    ensures { IsTrue result ↔ (reply.now ≡ Reply.Refused Refusal.TraceFull) }
{
    matches!(reply, Reply::Refused(Refusal::TraceFull))
}

// Waits until more entries of the trace are progress than `seen`. Fails if the wait runs out.
pub fn waited<D: Device, L: Origin<D>, R: Wait>(
    rt: &R,
    cpu: &Cpu<D, Global, L>,
    seen: u64,
    turns: u64,
) -> Result<(), Stop>
    ensures { IfErr result (λ why. why ≡ Stop.RanOut) }
{
    if cpu.wait(rt, seen, turns) {
        Ok(())
    } else {
        Err(Stop::RanOut)
    }
}

// Whether an act is to be made again after progress.
fn has_to_wait(reply: &Reply) -> bool
    ensures { result ≡ asks_to_wait reply.now }
{
    matches!(
        reply,
        Reply::Refused(Refusal::Stalled | Refusal::Locked | Refusal::NotYet(_))
    )
}

// Whether an act is to be made again after a step of the write-outs.
fn has_to_flush(reply: &Reply) -> bool
    ensures { result ≡ asks_to_flush reply.now }
{
    matches!(reply, Reply::Refused(Refusal::Held | Refusal::Busy))
}
