// What a host does for a volume with a log: it supplies blocks, and makes the calls that wait.
ghost use Rattle.std.specs.Prelude.{◌≡◌, ◌-◌, true, false, get_or, option_map, OnOk, OnErr};
ghost use Rattle.deferred_disk.specs.Deferred.{after_forget, waits_behind, with_waiting};
ghost use Rattle.deferred_disk.specs.Lent.{change_lent};
ghost use Rattle.log_files.specs.State.{on_device};
ghost use Rattle.embedded.specs.Supplying.{with_supplied};
ghost use Rattle.embedded_log.specs.State.{with_files, with_log_call_made};
ghost use Rattle.embedded_log.specs.Supplying.{may_forget_log};

use crate::volume::EmbeddedLog;
use deferred_disk::DeferredCall;
use embedded::{Carrying, Forgetting, Supplying, confirmed, made_calls};
use std::alloc::{AllocError, Allocator};

impl<A: Allocator + Copy> EmbeddedLog<A> {
    /// Supplies the bytes of a block that the host has read. A known block keeps its bytes, which were written or
    /// supplied before. A block past the end of the disk changes nothing.
    ///
    /// Fails with `AllocError` if there is no memory; the volume is unchanged then.
    pub fn supply(&mut self, block: u32, bytes: &[u8; 4096]) -> Result<(), AllocError>
        ensures ok { OnOk result (self.new ≡ with_files self.old
            (on_device self.old.files (with_supplied self.old.files.pager.device block bytes.now))) }
        ensures err { OnErr result (self.new ≡ self.old) }
    {
        let mut supplying = Supplying {
            block,
            bytes,
            refused: false,
        };
        self.files.tend(&mut supplying);
        if supplying.refused {
            Err(AllocError)
        } else {
            Ok(())
        }
    }

    /// Forgets a block of the log or of a file, unless a waiting call writes to it. Returns whether the block was
    /// forgotten. If the block is needed later, the host supplies it again. The four blocks before the log and the
    /// block of the lengths are never forgotten.
    pub fn forget(&mut self, block: u32) -> bool
        ensures result { result ≡ may_forget_log self.old.files block }
        ensures forgotten { result ≡ true → self.new ≡ with_files self.old
            (on_device self.old.files (after_forget self.old.files.pager.device block)) }
        ensures kept { result ≡ false → self.new ≡ self.old }
    {
        if block < 4 || block == self.files.table().log().first_home() {
            return false;
        }
        let mut forgetting = Forgetting { block, done: false };
        self.files.tend(&mut forgetting);
        forgetting.done
    }

    /// Whether a block is known. A known block need not be supplied.
    pub fn is_known(&self, block: u32) -> bool
        ensures { result ≡ get_or self.now.files.pager.device.known block false }
    {
        self.files.device().is_known(block)
    }

    /// Returns the number of device calls that wait for the host to make them.
    pub fn waiting(&self) -> usize
        ensures { result ≡ self.now.files.pager.device.waiting }
    {
        self.files.device().waiting()
    }

    /// Returns the waiting device call that has `others` older ones before it. The host makes the calls in order, and
    /// reports each with `carried_out`.
    pub fn call(&self, others: usize) -> Option<DeferredCall<'_>>
        ensures { option_map change_lent result ≡ waits_behind others self.now.files.pager.device }
    {
        self.files.device().call(others)
    }

    /// Reports that the host has made the oldest waiting device call. The last commit's mark is acknowledged once all
    /// calls are made that were recorded when that commit returned. Calls recorded later may still wait.
    pub fn carried_out(&mut self)
        ensures { self.new ≡ with_log_call_made self.old
            (with_waiting self.old.files.pager.device (self.old.files.pager.device.waiting - 1)) }
    {
        self.files.tend(&mut Carrying);
        let made = made_calls(self.files.device());
        let acknowledged = confirmed(made, self.due, self.committed, self.acknowledged);
        self.acknowledged = acknowledged;
    }
}
