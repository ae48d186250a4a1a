// Tries an opening, to see which block it lacks.
ghost use Rattle.std.specs.Prelude.{◌≡◌, ◌&&◌, false, get_or, if◌then◌else◌, not, true, IfOk, IfSome, None, Some};
ghost use Rattle.deferred_disk.specs.Deferred.{after_read};
ghost use Rattle.embedded.specs.Supplying.{is_of_disk};

use crate::reading::block_number;
use crate::tending::is_of_disk;
use deferred_disk::DeferredDisk;
use device::{Device, DeviceFault, raise};
use page_entry::Refusal;
use std::alloc::{AllocError, Allocator};

/// A disk that is only read. Its writes and syncs succeed and do nothing, so it promises nothing of its content.
#[derive(Drop)]
pub struct Trial<'a, A: Allocator + Copy> {
    disk: &'a DeferredDisk<A>,
    // The block that the last read lacked.
    lacked: Option<usize>,
    calls: u64,
    faults: u64,
}

impl<'a, A: Allocator + Copy> Device for Trial<'a, A> {
    ghost use Rattle.device.specs.Memory.{seen_of};
    ghost use Rattle.deferred_disk.specs.Deferred.{as_memory};

    ghost seen = { λ trial. seen_of (as_memory trial.disk.now) };

    ghost may_leave = { λ _ _. ⊥ };

    ghost moment = { λ _. 0 };

    ghost left_since = { λ _ _ _. ⊥ };

    ghost calls_made = { λ trial. trial.calls };

    ghost faults_met = { λ trial. trial.faults };

    ghost carried = { λ _. 0 };

    ghost is_honest = { λ _. ⊥ };

    ghost seen_is_left = { λ _ honest. absurd honest };

    ghost left_is_whole = { λ _ _ honest left. absurd honest };

    ghost now_is_since = { λ _ _ _ _ left. left };

    ghost since_now = { λ _ _ left. left };

    fn len(&self) -> u64 {
        self.disk.len()
    }

    fn read(&mut self, at: u64, buffer: &mut [u8]) -> Result<(), DeviceFault> {
        raise(&mut self.calls);
        self.lacked = self.disk.peek(at, buffer);
        if self.lacked.is_some() {
            raise(&mut self.faults);
            return Err(DeviceFault);
        }
        Ok(())
    }

    fn write(&mut self, _at: u64, _bytes: &[u8]) -> Result<(), DeviceFault> {
        raise(&mut self.calls);
        Ok(())
    }

    fn sync(&mut self) -> Result<(), DeviceFault> {
        raise(&mut self.calls);
        Ok(())
    }

    fn calls(&self) -> u64 {
        self.calls
    }

    fn faults(&self) -> u64 {
        self.faults
    }
}

impl<'a, A: Allocator + Copy> Trial<'a, A> {
    /// Returns a trial of this disk, before its first read.
    pub fn new(disk: &'a DeferredDisk<A>) -> Self
        ensures { result.disk.now ≡ disk.now }
    {
        Trial {
            disk,
            lacked: None,
            calls: 0,
            faults: 0,
        }
    }
}

// Returns the block that an opening of a disk lacked, as far as its trial shows.
fn lacked_in_trial<A: Allocator + Copy, T: Drop>(
    tried: Result<T, (Refusal, Trial<'_, A>)>,
) -> Result<Option<usize>, AllocError> {
    match tried {
        Ok(_) => Ok(None),
        Err((Refusal::OutOfMemory, _)) => Err(AllocError),
        Err((_, trial)) => Ok(trial.lacked),
    }
}

// Returns this block, if it is a block of the disk and isn't known.
fn if_unknown<A: Allocator + Copy>(disk: &DeferredDisk<A>, block: u32) -> Option<u32>
    ensures judged { result ≡ (if is_of_disk disk.now block && not (get_or disk.now.known block false)
        then Some block else None) }
    ensures unknown { IfSome result (λ block. (is_of_disk disk.now block ≡ true)
        × (get_or disk.now.known block false ≡ false)) }
{
    if is_of_disk(disk, block) && !disk.is_known(block) {
        Some(block)
    } else {
        None
    }
}

/// Returns the first block that an opening of a disk lacks, if it lacks one. `tried` is the result of an opening that
/// was tried. The block isn't known on the disk. Fails if memory was refused.
pub fn lacked_block<A: Allocator + Copy, T: Drop>(
    disk: &DeferredDisk<A>,
    tried: Result<T, (Refusal, Trial<'_, A>)>,
) -> Result<Option<u32>, AllocError>
    ensures { IfOk result (λ found. IfSome found (λ block. (is_of_disk disk.now block ≡ true)
        × (get_or disk.now.known block false ≡ false))) }
{
    match block_number(lacked_in_trial(tried)?) {
        Some(block) => Ok(if_unknown(disk, block)),
        None => Ok(None),
    }
}

/// Returns a disk after a read that lacked this block.
pub fn after_lack<A: Allocator + Copy>(disk: DeferredDisk<A>, block: u32) -> DeferredDisk<A>
    requires there { is_of_disk disk block ≡ true }
    requires unknown { get_or disk.known block false ≡ false }
    ensures { result ≡ after_read disk (Some block) false }
{
    let mut disk = disk;
    let mut byte = [0];
    let _ = disk.read(4096 * u64::from(block), &mut byte);
    disk
}
