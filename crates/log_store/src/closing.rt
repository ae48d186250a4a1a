// Whether the log ends behind its last commit.
ghost use Rattle.std.specs.Prelude.{◌≡◌, ◌≤◌, ◌*◌, IsTrue, IfOk, IfErr, Ok, true, length};
ghost use Rattle.log_codec.specs.declared.sealing.Sealing.TheVariants.{ByByte};
ghost use Rattle.log_recovery.specs.Reading.{ReadsAlone};
ghost use Rattle.log_commits.specs.Tail.{EndsAtTail};
ghost use Rattle.log_store.specs.Store.{RefusesEnd};

use crate::fault::StoreFault;
use crate::store::LogStore;
use device::Device;
use log_codec::Sealing;
use log_recovery::ends_at;
use page_entry::Refusal;
use std::alloc::Allocator;

impl<A: Allocator + Copy> LogStore<A> {
    /// Whether the log on the device ends behind the last commit: no bytes there have the next number and a matching
    /// digest. If a digest seals commits, reads the device from there on. If a byte does, reads nothing, and returns
    /// true.
    pub fn ends<D: Device>(&self, device: &mut D) -> Result<bool, StoreFault>
        requires long { 4096 * self.now.tail.log.blocks ≤ length (D.seen device.old) }
        ensures ends { D.is_honest device.old
            → IfOk result (λ ends. IsTrue ends → EndsAtTail self.now.tail (D.seen device.old)) }
        ensures goes_on { D.is_honest device.old
            → IfOk result (λ ends. EndsAtTail self.now.tail (D.seen device.old) → IsTrue ends) }
        ensures byte { self.now.tail.log.sealing ≡ ByByte → (result ≡ Ok true) × (device.new ≡ device.old) }
        ensures refused { IfErr result RefusesEnd }
        ensures read { ReadsAlone D.Device device.old device.new }
        ensures len { length (D.seen device.new) ≡ length (D.seen device.old) }
    {
        let tail = &self.tail;
        let log = tail.log();
        match log.sealing() {
            Sealing::ByByte => Ok(true),
            Sealing::ByDigest(_) => {
                match ends_at(
                    self.alloc,
                    device,
                    &log,
                    tail.epoch(),
                    tail.position(),
                    tail.number(),
                ) {
                    Ok(ends) => Ok(ends),
                    Err(Refusal::OutOfMemory) => Err(StoreFault::OutOfMemory),
                    Err(_) => Err(StoreFault::Device),
                }
            }
        }
    }
}
