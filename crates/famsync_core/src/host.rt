// What a host does: it supplies blocks, makes the core forget some, and makes the waiting calls.
ghost use Rattle.std.specs.Prelude.{◌≡◌, true, false, OnOk, OnErr};
ghost use Rattle.std.specs.Option.{option_map, option_map_or};
ghost use Rattle.deferred_disk.specs.Deferred.{after_forget};
ghost use Rattle.deferred_disk.specs.Lent.{change_lent};
ghost use Rattle.embedded.specs.Supplying.{is_of_disk, is_free, with_supplied};
ghost use Rattle.famsync_core.specs.Held.{has_block, knows, needs_no, waiting_in, waits_in, without_oldest, after_supplied, after_forgotten, after_call_made};
ghost use Rattle.famsync_core.specs.Requests.{AnswersSupply, AnswersForget, AnswersCall, AnswersMade};

use crate::codes::{ARGUMENT, NO_MEMORY, NONE, OK};
use crate::place::place_of;
use crate::state::State;
use deferred_disk::{DeferredCall, DeferredDisk};
use device::Device;
use std::alloc::{AllocError, Global};

impl State {
    /// Takes a block that the host has read.
    pub(crate) fn supply(&mut self, block: u32, bytes: &[u8]) -> i32
        ensures { AnswersSupply self.old block bytes.now result self.new }
    {
        let Some(bytes) = bytes.as_array() else {
            return ARGUMENT;
        };
        if !self.has_block(block) {
            return ARGUMENT;
        }
        match self.put_block(block, bytes) {
            Ok(()) => OK,
            Err(_) => NO_MEMORY,
        }
    }

    fn put_block(&mut self, block: u32, bytes: &[u8; 4096]) -> Result<(), AllocError>
        ensures ok { OnOk result (self.new ≡ after_supplied block bytes.now self.old) }
        ensures err { OnErr result (self.new ≡ self.old) }
    {
        match &mut self.volume {
            Some(volume) => volume.supply(block, bytes),
            None => put_before(&mut self.disk, block, bytes),
        }
    }

    // Whether the disk has this block.
    fn has_block(&self, block: u32) -> bool
        ensures { result ≡ has_block self.now block }
    {
        match (&self.volume, &self.disk) {
            (Some(volume), _) => is_of_disk(volume.disk(), block),
            (None, Some(disk)) => is_of_disk(disk, block),
            (None, None) => false,
        }
    }

    /// Whether a block is known.
    pub(crate) fn is_known(&self, block: u32) -> bool
        ensures { result ≡ knows self.now block }
    {
        match (&self.volume, &self.disk) {
            (Some(volume), _) => volume.disk().is_known(block),
            (None, Some(disk)) => disk.is_known(block),
            (None, None) => false,
        }
    }

    /// Forgets a block, unless a waiting call writes to it.
    pub(crate) fn forget(&mut self, block: u32) -> i32
        ensures { AnswersForget self.old block result self.new }
    {
        if !self.has_block(block) {
            return ARGUMENT;
        }
        if self.forget_block(block) { OK } else { NONE }
    }

    fn forget_block(&mut self, block: u32) -> bool
        ensures result { result ≡ needs_no self.old block }
        ensures forgotten { result ≡ true → self.new ≡ after_forgotten block self.old }
        ensures kept { result ≡ false → self.new ≡ self.old }
    {
        match &mut self.volume {
            Some(volume) => volume.forget(block),
            None => forget_before(&mut self.disk, block),
        }
    }

    /// Returns the number of calls that wait for the host.
    pub(crate) fn waiting(&self) -> usize
        ensures { result ≡ waiting_in self.now }
    {
        match (&self.volume, &self.disk) {
            (Some(volume), _) => volume.disk().waiting(),
            (None, Some(disk)) => disk.waiting(),
            (None, None) => 0,
        }
    }

    // Returns the waiting call that has `others` older ones before it.
    fn lent(&self, others: usize) -> Option<DeferredCall<'_>>
        ensures { option_map change_lent result ≡ waits_in others self.now }
    {
        match (&self.volume, &self.disk) {
            (Some(volume), _) => volume.disk().call(others),
            (None, Some(disk)) => disk.call(others),
            (None, None) => None,
        }
    }

    /// Stores the waiting call that has `index` older ones before it, as numbers.
    pub(crate) fn call(
        &self,
        index: u32,
        kind: &mut u32,
        offset: &mut u64,
        bytes: &mut *const u8,
        length: &mut u64,
    ) -> i32
        ensures { AnswersCall (waits_in index self.now) result
            kind.old kind.new offset.old offset.new length.old length.new }
    {
        match self.lent(index as usize) {
            Some(DeferredCall::Write { at, bytes: written }) => {
                *kind = 1;
                *offset = at;
                *length = written.len() as u64;
                *bytes = place_of(written);
                OK
            }
            Some(DeferredCall::Sync) => {
                *kind = 2;
                OK
            }
            None => NONE,
        }
    }

    /// Reports that the host has made the oldest `count` calls.
    pub(crate) fn carried_out(&mut self, count: u32) -> i32
        ensures { AnswersMade self.old count result self.new }
    {
        if count as usize > self.waiting() {
            return ARGUMENT;
        }
        for _ in 0..count {
            self.carry_one();
        }
        OK
    }

    fn carry_one(&mut self)
        ensures { self.new ≡ after_call_made self.old }
    {
        match &mut self.volume {
            Some(volume) => volume.carried_out(),
            None => carry_before(&mut self.disk),
        }
    }
}

// Whether a block lies before the end of a disk.
fn is_of_disk(disk: &DeferredDisk<Global>, block: u32) -> bool
    ensures { result ≡ is_of_disk disk.now block }
{
    4096 * u64::from(block) + 4096 <= disk.len()
}

fn put_before(
    disk: &mut Option<DeferredDisk<Global>>,
    block: u32,
    bytes: &[u8; 4096],
) -> Result<(), AllocError>
    ensures ok { OnOk result (disk.new ≡ option_map (λ d. with_supplied d block bytes.now) disk.old) }
    ensures err { OnErr result (disk.new ≡ disk.old) }
{
    match disk {
        Some(disk) => put_on(disk, block, bytes),
        None => Ok(()),
    }
}

fn put_on(disk: &mut DeferredDisk<Global>, block: u32, bytes: &[u8; 4096]) -> Result<(), AllocError>
    ensures ok { OnOk result (disk.new ≡ with_supplied disk.old block bytes.now) }
    ensures err { OnErr result (disk.new ≡ disk.old) }
{
    if is_of_disk(disk, block) {
        return disk.supply(block, bytes);
    }
    Ok(())
}

fn forget_before(disk: &mut Option<DeferredDisk<Global>>, block: u32) -> bool
    ensures result { result ≡ option_map_or (λ d. is_free d block) disk.old false }
    ensures forgotten { result ≡ true → disk.new ≡ option_map (λ d. after_forget d block) disk.old }
    ensures kept { result ≡ false → disk.new ≡ disk.old }
{
    match disk {
        Some(disk) => forget_on(disk, block),
        None => false,
    }
}

fn forget_on(disk: &mut DeferredDisk<Global>, block: u32) -> bool
    ensures result { result ≡ is_free disk.old block }
    ensures forgotten { result ≡ true → disk.new ≡ after_forget disk.old block }
    ensures kept { result ≡ false → disk.new ≡ disk.old }
{
    is_of_disk(disk, block) && disk.forget(block)
}

fn carry_before(disk: &mut Option<DeferredDisk<Global>>)
    ensures { disk.new ≡ option_map without_oldest disk.old }
{
    if let Some(disk) = disk {
        disk.carried_out();
    }
}
