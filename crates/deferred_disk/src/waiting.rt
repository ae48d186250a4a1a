// The calls that wait for the host.
ghost use Rattle.std.specs.Prelude.{◌≡◌, ◌+◌, ◌-◌, ◌^◌, ◌<◌, ◌≤◌, Some, [], ◌∷◌, ◌++◌, length, is_ok, option_map, slice_get, OnOk, OnErr};
ghost use Rattle.std.specs.VecDeque.{deque_len, deque_capacity};
ghost use Rattle.device.specs.Device.{written};
ghost use Rattle.device.specs.Did.{Did};
ghost use Rattle.device.specs.Memory.DiskChange.{write, sync};
ghost use Rattle.device.specs.inside.Replay.{AreWithin};
ghost use Rattle.deferred_disk.specs.Deferred.{with_known, first_block, end_block, reaches, one_reaches, done_by};
ghost use Rattle.deferred_disk.specs.Lent.{change_lent};
ghost use Rattle.deferred_disk.specs.inside.Waiting.{change_of, changes_of};

use crate::blocks::Blocks;
use crate::deferred::DeferredCall;
use crate::run::Part;
use device::{Device, DeviceFault, make_durable, write_at};
use std::alloc::{AllocError, Allocator};
use std::collections::VecDeque;

// A write of these bytes at an offset, or a sync.
#[derive(Drop)]
pub enum WaitingCall<A: Allocator + Copy> {
    Write(u64, Part<A>),
    Sync,
}

// Whether a call of a log writes to a block.
pub(crate) fn waits_for<A: Allocator + Copy>(log: &VecDeque<WaitingCall<A>, A>, block: u32) -> bool
    requires { AreWithin (2 ^ 64 - 1) (changes_of log.now.items) }
    ensures { result ≡ one_reaches (changes_of log.now.items) block }
{
    let (older, newer) = log.as_slices();
    let newer_one = one_writes_to(newer, block);
    let older_one = one_writes_to(older, block);
    newer_one || older_one
}

fn one_writes_to<A: Allocator + Copy>(calls: &[WaitingCall<A>], block: u32) -> bool
    requires { AreWithin (2 ^ 64 - 1) (changes_of calls.now) }
    ensures { result ≡ one_reaches (changes_of calls.now) block }
{
    for entry in calls {
        if writes_to(entry, block) {
            return true;
        }
    }
    false
}

fn writes_to<A: Allocator + Copy>(call: &WaitingCall<A>, block: u32) -> bool
    requires { AreWithin (2 ^ 64 - 1) (change_of call.now ∷ []) }
    ensures { result ≡ reaches (change_of call.now) block }
{
    let start = 4096 * u64::from(block);
    match call {
        WaitingCall::Write(at, part) => {
            *at < start + 4096 && start < *at + part.bytes().len() as u64
        }
        WaitingCall::Sync => false,
    }
}

// Lends the call at an index of a log.
pub(crate) fn lend_at<A: Allocator + Copy>(
    log: &VecDeque<WaitingCall<A>, A>,
    index: usize,
) -> Option<DeferredCall<'_>>
    ensures { option_map change_lent result ≡ option_map change_of (slice_get log.now.items index) }
{
    match log.get(index) {
        Some(call) => Some(lend(call)),
        None => None,
    }
}

// Lends a recorded call.
fn lend<A: Allocator + Copy>(call: &WaitingCall<A>) -> DeferredCall<'_>
    ensures { change_lent result ≡ change_of call.now }
{
    match call {
        WaitingCall::Write(at, part) => DeferredCall::Write {
            at: *at,
            bytes: part.bytes(),
        },
        WaitingCall::Sync => DeferredCall::Sync,
    }
}

// Makes the first call of a log on a device.
pub(crate) fn make_first<A: Allocator + Copy, D: Device>(
    log: &VecDeque<WaitingCall<A>, A>,
    device: &mut D,
) -> Result<(), DeviceFault>
    requires { AreWithin (length (D.seen device.old)) (changes_of log.now.items) }
    ensures { Did D.Device device.old (done_by (option_map change_of (slice_get log.now.items 0)))
        (is_ok result) device.new }
{
    match log.front() {
        Some(call) => make_call(call, device),
        None => Ok(()),
    }
}

// Makes a recorded call on a device.
fn make_call<A: Allocator + Copy, D: Device>(
    call: &WaitingCall<A>,
    device: &mut D,
) -> Result<(), DeviceFault>
    requires { AreWithin (length (D.seen device.old)) (change_of call.now ∷ []) }
    ensures { Did D.Device device.old (done_by (Some (change_of call.now))) (is_ok result) device.new }
{
    match call {
        WaitingCall::Write(at, part) => write_at(device, *at, part.bytes()),
        WaitingCall::Sync => make_durable(device),
    }
}

// Records a write after the others, and puts its bytes into its blocks. A failure changes nothing.
pub(crate) fn keep_write<A: Allocator + Copy>(
    log: &mut VecDeque<WaitingCall<A>, A>,
    blocks: &mut Blocks<A>,
    at: u64,
    bytes: &[u8],
) -> Result<(), AllocError>
    requires { at + length bytes.now ≤ length blocks.old.bytes }
    ensures log { OnOk result (changes_of log.new.items ≡ write at bytes.now ∷ changes_of log.old.items) }
    ensures bytes { OnOk result (blocks.new.bytes ≡ written blocks.old.bytes at bytes.now) }
    ensures flags { OnOk result (blocks.new.flags
        ≡ with_known blocks.old.flags (first_block at) (end_block at (length bytes.now))) }
    ensures log_stays { OnErr result (log.new.items ≡ log.old.items) }
    ensures blocks_stay { OnErr result (blocks.new ≡ blocks.old) }
{
    log.reserve(1)?;
    let written = blocks.put(at as usize, bytes)?;
    keep(log, WaitingCall::Write(at, written));
    Ok(())
}

// Records a sync after the others.
pub(crate) fn keep_sync<A: Allocator + Copy>(
    log: &mut VecDeque<WaitingCall<A>, A>,
) -> Result<(), AllocError>
    ensures ok { OnOk result (changes_of log.new.items ≡ sync ∷ changes_of log.old.items) }
    ensures err { OnErr result (log.new.items ≡ log.old.items) }
{
    log.reserve(1)?;
    keep(log, WaitingCall::Sync);
    Ok(())
}

// Records a call. The log has room for it.
fn keep<A: Allocator + Copy>(log: &mut VecDeque<WaitingCall<A>, A>, call: WaitingCall<A>)
    requires { deque_len log.old < deque_capacity log.old }
    ensures { log.new.items ≡ log.old.items ++ call ∷ [] }
{
    drop(log.push_back(call));
}
