// Finishing the batch of an open journal, as recovery finds it.
ghost use Rattle.std.specs.Prelude.{◌≡◌, ◌+◌, ◌*◌, ◌≤◌, false, length};
ghost use Rattle.journal.specs.Finished.{Finishes};
ghost use Rattle.volume_codec.specs.Layout.{descriptor_blocks};
ghost use Rattle.journal.specs.WriteOut.{IsBatch};

use crate::{Flush, Flushed};
use device::{Device, DeviceFault};
use std::alloc::Allocator;
use volume_codec::Geometry;

// The bytes of a record to write. No step here writes one.
const BLANK: [u8; 4096] = [0; 4096];

// Makes the remaining steps of a committed write-out.
fn make_steps<D: Device, A: Allocator + Copy>(
    device: &mut D,
    flush: &mut Flush<A>,
    steps: usize,
) -> Result<(), DeviceFault>
    requires long { 4096 * flush.old.geometry.blocks ≤ length (D.seen device.old) }
    requires batch { IsBatch flush.old.geometry flush.old.write_out.batch }
    requires described { flush.old.write_out.described ≡ descriptor_blocks flush.old.geometry.slots }
    requires committed { flush.old.write_out.steps
        ≡ length flush.old.write_out.batch.homes + flush.old.write_out.described + 3 }
    requires whole { flush.old.broken ≡ false }
    requires steps { steps ≡ length flush.old.write_out.batch.homes + 3 }
    ensures { Finishes D.Device flush.old.geometry flush.old.write_out.batch device.old result device.new }
{
    let mut buffer = BLANK;
    for _step in 0..steps {
        match flush.step(device, &BLANK, &mut buffer) {
            Flushed::Device => return Err(DeviceFault),
            _ => {}
        }
    }
    Ok(())
}

/// Finishes the oldest batch of its volume, whose gate is open. The write-out continues after the step that committed
/// the batch. It writes the records to their home blocks and syncs, then closes the gate and syncs. A batch of k
/// records takes 2k + 3 device calls. The call allocates no memory.
pub fn finish<D: Device, A: Allocator + Copy>(
    device: &mut D,
    geometry: &Geometry,
    journal: u32,
    mark: u64,
    homes: Vec<u32, A>,
) -> Result<(), DeviceFault>
    requires long { 4096 * geometry.now.blocks ≤ length (D.seen device.old) }
    requires batch { IsBatch geometry.now (record { journal = journal; mark = mark; homes = homes.items }) }
    ensures { Finishes D.Device geometry.now (record { journal = journal; mark = mark; homes = homes.items })
        device.old result device.new }
{
    let slots = geometry.slots();
    prove!(homes.len() <= slots as usize);
    let steps = homes.len() + 3;
    let mut flush = Flush::new(*geometry, journal, mark, homes);
    flush.set_committed();
    make_steps(device, &mut flush, steps)
}
