// The calls of a host for an embedded volume: it supplies blocks, and makes the waiting calls.
ghost use Rattle.std.specs.Prelude.{◌≡◌, ◌-◌, true, false, get_or, option_map, OnOk, OnErr};
ghost use Rattle.deferred_disk.specs.Deferred.{after_forget, waits_behind, with_waiting};
ghost use Rattle.deferred_disk.specs.Lent.{change_lent};
ghost use Rattle.embedded.specs.Embedded.{over_device, with_call_made, with_pager};
ghost use Rattle.embedded.specs.Supplying.{may_forget, with_supplied};

use crate::embedded::Embedded;
use crate::requesting::{confirmed, made_calls};
use crate::tending::{Carrying, Forgetting, Supplying};
use deferred_disk::DeferredCall;
use std::alloc::{AllocError, Allocator};

impl<A: Allocator + Copy> Embedded<A> {
    /// Supplies a block that the host has read. A block that is known keeps its bytes, which were written or supplied
    /// before. A block past the end of the disk changes nothing. Fails if memory can't be allocated, and then changes
    /// nothing.
    pub fn supply(&mut self, block: u32, bytes: &[u8; 4096]) -> Result<(), AllocError>
        ensures ok { OnOk result (self.new ≡ with_pager self.old
            (over_device self.old.pager (with_supplied self.old.pager.device block bytes.now))) }
        ensures err { OnErr result (self.new ≡ self.old) }
    {
        let mut supplying = Supplying {
            block,
            bytes,
            refused: false,
        };
        self.pager.tend(&mut supplying);
        if supplying.refused {
            Err(AllocError)
        } else {
            Ok(())
        }
    }

    /// Forgets a block of a file, and returns true. If a waiting call writes to the block, changes nothing, and returns
    /// false. Blocks before the first file's home are never forgotten, since write-outs read them. If the bytes of a
    /// forgotten block are wanted, the host supplies them again.
    pub fn forget(&mut self, block: u32) -> bool
        ensures result { result ≡ may_forget self.old.pager block }
        ensures forgotten { result ≡ true → self.new ≡ with_pager self.old
            (over_device self.old.pager (after_forget self.old.pager.device block)) }
        ensures kept { result ≡ false → self.new ≡ self.old }
    {
        if block < self.pager.table().geometry().first_file_home() {
            return false;
        }
        let mut forgetting = Forgetting { block, done: false };
        self.pager.tend(&mut forgetting);
        forgetting.done
    }

    /// Whether a block is known, so that it needn't be supplied.
    pub fn is_known(&self, block: u32) -> bool
        ensures { result ≡ get_or self.now.pager.device.known block false }
    {
        self.pager.device().is_known(block)
    }

    /// Returns the number of device calls that wait for the host.
    pub fn waiting(&self) -> usize
        ensures { result ≡ self.now.pager.device.waiting }
    {
        self.pager.device().waiting()
    }

    /// Returns the device call that waits behind `others` older waiting calls, or `None` if there is none. The host
    /// makes the calls in order, and reports each of them by `carried_out`.
    pub fn call(&self, others: usize) -> Option<DeferredCall<'_>>
        ensures { option_map change_lent result ≡ waits_behind others self.now.pager.device }
    {
        self.pager.device().call(others)
    }

    /// Reports that the host has made the oldest waiting device call. Once it has made those that were recorded when
    /// the last commit was reported, that commit's mark is acknowledged, even if later calls wait.
    pub fn carried_out(&mut self)
        ensures { self.new ≡ with_call_made self.old
            (with_waiting self.old.pager.device (self.old.pager.device.waiting - 1)) }
    {
        self.pager.tend(&mut Carrying);
        let made = made_calls(self.pager.device());
        let acknowledged = confirmed(made, self.due, self.committed, self.acknowledged);
        self.acknowledged = acknowledged;
    }
}
