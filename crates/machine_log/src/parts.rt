// The data of a disk over a volume with a log.
ghost use Rattle.std.specs.Prelude.{◌≡◌};

use crate::past::Past;
use crate::shown::ShownVolume;
use device::Device;
use log_codec::LogStart;
use log_pager::LogPager;
use log_volume::LogSuper;
use std::alloc::Allocator;
use std::marker::Model;
use volume_codec::Super;

// The parts of a disk. Once a commit fails, each call fails.
#[derive(Drop)]
pub struct DiskParts<D: Device, A: Allocator + Copy> {
    pub(crate) alloc: A,
    pub(crate) volume: LogSuper<A>,
    pub(crate) table: Super<A>,
    // The start that the opening wrote.
    pub(crate) log_start: LogStart,
    pub(crate) pager: LogPager<D, A>,
    pub(crate) shown: ShownVolume<A>,
    pub(crate) failed: bool,
    pub(crate) past: Past,
    pub(crate) calls: u64,
    pub(crate) faults: u64,
}

impl<D: Device, A: Allocator + Copy> Model for DiskParts<D, A> {
    ghost use Rattle.machine_log.specs.Disk.{LogDiskValue};
    ghost use Rattle.std.specs.Coded.{codes};
    ghost use Rattle.machine_log.specs.inside.Keeping.{IsKeptDisk};

    ghost Value = { LogDiskValue D };

    ghost coded = { Prim.hlevel (codes, D.code) };

    ghost view = { λ d. record {
      device = d.pager.device;
      volume = d.volume;
      table = d.table;
      log_start = d.log_start;
      memory = record {
        first = d.past.first;
        changes = d.past.changes;
        start = 0;
        calls = d.calls;
        faults = d.faults;
      };
      moments = d.past.moments;
    } };

    ghost invariant = { λ d. IsKeptDisk D.Device d.volume d.table d.log_start d.past.first d.past.changes
        d.past.moments d.pager d.shown d.failed };
}

impl<D: Device, A: Allocator + Copy> DiskParts<D, A> {
    // Returns the device of the volume, the volume's super block, and the disk's super block.
    pub(crate) fn into_parts(self) -> (D, LogSuper<A>, Super<A>)
        ensures device { result.0 ≡ self.device }
        ensures volume { result.1 ≡ self.volume }
        ensures table { result.2 ≡ self.table }
    {
        let DiskParts {
            alloc: _,
            volume,
            table,
            log_start: _,
            pager,
            shown: _,
            failed: _,
            past: _,
            calls: _,
            faults: _,
        } = self;
        (pager.into_device(), volume, table)
    }
}
