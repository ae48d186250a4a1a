// Putting a batch of the disk for a commit to the log.
ghost use Rattle.std.specs.Prelude.{◌≡◌, ℕ, ◌+◌, ◌^◌, ◌<◌, ◌≤◌, List, [], length, OnOk};
ghost use Rattle.volume_codec.specs.Layout.{first_home};
ghost use Rattle.journal.specs.WriteOut.{IsBatch};
ghost use Rattle.log_pager.specs.Pager.{IsPagerOver};
ghost use Rattle.machine_log.specs.Shown.{MayOpen, OpensShown};
ghost use Rattle.machine_log.specs.inside.Committing.{ArePut, moved_home, with_batch};

use crate::opened::OpenJournal;
use crate::shown::ShownVolume;
use device::{Device, DeviceFault};
use log_pager::LogPager;
use std::alloc::Allocator;

// The first home blocks of the disk and of the volume.
#[derive(Clone, Copy)]
pub(crate) struct Firsts {
    pub(crate) shown: u32,
    pub(crate) volume: u32,
}

// Returns the home block of the volume for one of the disk.
pub(crate) fn moved_home(firsts: Firsts, home: u32) -> u32
    requires low { firsts.shown ≤ home }
    requires high { home + firsts.volume < firsts.shown + 2 ^ 32 }
    ensures { result ≡ moved_home firsts.volume firsts.shown home }
{
    home - firsts.shown + firsts.volume
}

// Puts the records of a batch.
fn put_records<D: Device, A: Allocator + Copy>(
    pager: &mut LogPager<D, A>,
    shown: &ShownVolume<A>,
    batch: &OpenJournal<A>,
    firsts: Firsts,
) -> Result<(), DeviceFault>
    requires empty { pager.old.staged ≡ [] }
    requires batch { IsBatch shown.now.geometry batch.now }
    requires low { firsts.shown ≡ first_home shown.now.geometry.layout shown.now.geometry.slots }
    requires high { shown.now.geometry.blocks + firsts.volume ≤ firsts.shown + 2 ^ 32 }
    ensures put { OnOk result (ArePut shown.now batch.now firsts.shown firsts.volume (length batch.now.homes)
        pager.new.staged) }
    ensures staged { pager.new ≡ record pager.old { staged = pager.new.staged } }
    ensures over { (contents : ℕ → List ℕ) → IsPagerOver D.Device pager.old contents
        → IsPagerOver D.Device pager.new contents }
{
    let _slots = shown.geometry().slots();
    for (place, home) in batch.homes().iter().enumerate() {
        let Some(record) = shown.record(batch, place as u32) else {
            return Err(DeviceFault);
        };
        match pager.put(moved_home(firsts, *home), record) {
            Ok(()) => {}
            Err(_) => return Err(DeviceFault),
        }
    }
    Ok(())
}

// Puts the records of a batch, and opens its gate.
pub(crate) fn put_batch<D: Device, A: Allocator + Copy>(
    pager: &mut LogPager<D, A>,
    shown: &mut ShownVolume<A>,
    batch: OpenJournal<A>,
    firsts: Firsts,
) -> Result<(), DeviceFault>
    requires empty { pager.old.staged ≡ [] }
    requires may { MayOpen shown.old batch }
    requires low { firsts.shown ≡ first_home shown.old.geometry.layout shown.old.geometry.slots }
    requires high { shown.old.geometry.blocks + firsts.volume ≤ firsts.shown + 2 ^ 32 }
    ensures put { OnOk result (ArePut shown.old batch firsts.shown firsts.volume (length batch.homes)
        pager.new.staged) }
    ensures staged { pager.new ≡ record pager.old { staged = pager.new.staged } }
    ensures over { (contents : ℕ → List ℕ) → IsPagerOver D.Device pager.old contents
        → IsPagerOver D.Device pager.new contents }
    ensures opened { OnOk result (shown.new ≡ with_batch shown.old batch) }
    ensures opens { OnOk result (OpensShown shown.old batch shown.new) }
{
    put_records(pager, shown, &batch, firsts)?;
    match shown.open(batch) {
        Ok(()) => Ok(()),
        Err(_) => Err(DeviceFault),
    }
}
