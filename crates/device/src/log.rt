// The record of the writes and syncs of a disk that keeps them in memory.
ghost use Rattle.std.specs.Prelude.{◌≡◌, ◌+◌, ◌≤◌, ◌∷◌, length, OnOk, OnErr};
ghost use Rattle.device.specs.Device.{written};
ghost use Rattle.device.specs.Memory.DiskChange.{write, sync};
ghost use Rattle.device.specs.inside.Logged.{changes_of};

use std::alloc::{AllocError, Allocator};

/// A write or a sync that was done.
#[derive(Drop)]
pub enum Logged<A: Allocator + Copy> {
    Write(u64, Vec<u8, A>),
    Sync,
}

/// Records a write. Fails if memory can't be allocated, and then records nothing.
pub fn log_write<A: Allocator + Copy>(
    alloc: A,
    log: &mut Vec<Logged<A>, A>,
    at: u64,
    bytes: &[u8],
) -> Result<(), AllocError>
    ensures ok { OnOk result (changes_of log.new.items ≡ write at bytes.now ∷ changes_of log.old.items) }
    ensures err { OnErr result (log.new.items ≡ log.old.items) }
{
    log.push(Logged::Write(at, Vec::from_slice(alloc, bytes)?))?;
    Ok(())
}

/// Records a sync. Fails if memory can't be allocated, and then records nothing.
pub fn log_sync<A: Allocator + Copy>(log: &mut Vec<Logged<A>, A>) -> Result<(), AllocError>
    ensures ok { OnOk result (changes_of log.new.items ≡ sync ∷ changes_of log.old.items) }
    ensures err { OnErr result (log.new.items ≡ log.old.items) }
{
    log.push(Logged::Sync)?;
    Ok(())
}

/// Writes bytes over a part of a content.
pub fn put(content: &mut [u8], at: usize, bytes: &[u8])
    requires { at + length bytes.now ≤ length content.old }
    ensures { content.new ≡ written content.old at bytes.now }
{
    content[at..at + bytes.len()].copy_from_slice(bytes);
}
