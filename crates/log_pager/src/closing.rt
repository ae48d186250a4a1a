// Whether the log ends behind its last commit.
ghost use Rattle.std.specs.Prelude.{◌≡◌, ◌↔◌, IsTrue, IfOk, IfErr, Ok, true, false, length};
ghost use Rattle.log_codec.specs.declared.sealing.Sealing.TheVariants.{ByByte};
ghost use Rattle.log_recovery.specs.Reading.{ReadsAlone};
ghost use Rattle.log_commits.specs.Tail.{EndsAtTail};
ghost use Rattle.log_pager.specs.Pager.{IsPagerOver, IsShort, RefusesPagerEnd};

use crate::fault::PagerFault;
use crate::pager::LogPager;
use device::Device;
use log_codec::Sealing;
use std::alloc::Allocator;

impl<D: Device, A: Allocator + Copy> LogPager<D, A> {
    /// Whether the log ends behind the last commit, as `LogStore::ends` determines it.
    pub fn ends(&mut self) -> Result<bool, PagerFault>
        ensures state { self.new ≡ record self.old { device = self.new.device } }
        ensures ends { D.is_honest self.old.device
            → IfOk result (λ ends. IsTrue ends → EndsAtTail self.old.store.tail (D.seen self.old.device)) }
        ensures goes_on { D.is_honest self.old.device
            → IfOk result (λ ends. EndsAtTail self.old.store.tail (D.seen self.old.device) → IsTrue ends) }
        ensures byte { self.old.store.tail.log.sealing ≡ ByByte → (result ≡ Ok true) × (self.new ≡ self.old) }
        ensures refused { IfErr result (RefusesPagerEnd D.Device self.old) }
        ensures read { ReadsAlone D.Device self.old.device self.new.device }
        ensures len { length (D.seen self.new.device) ≡ length (D.seen self.old.device) }
    {
        match self.store.log().sealing() {
            Sealing::ByByte => return Ok(true),
            Sealing::ByDigest(_) => {}
        }
        if self.is_short() {
            return Err(PagerFault::Short);
        }
        match self.store.ends(&mut self.device) {
            Ok(ends) => Ok(ends),
            Err(fault) => Err(PagerFault::Store(fault)),
        }
    }
}
