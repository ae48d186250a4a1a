// The files of a volume with a log, for callers that read them page by page.
ghost use Rattle.std.specs.Prelude.{◌≡◌, ◌<◌, length, slice_index};
ghost use Rattle.log_volume.specs.Super.{log_of};
ghost use Rattle.volume_reading.specs.Logged.{IsLoggedVolume, IsSoundLogged, logged_files};

use crate::found::FoundFiles;
use crate::log_pages::{home_of, newest_block};
use crate::logged::LoggedVolume;
use std::alloc::Allocator;

// The length of a file in bytes.
fn size_of<A: Allocator + Copy>(volume: &LoggedVolume<A>, file: usize) -> u64
    requires { file < length volume.now.lengths.items }
    ensures { result ≡ slice_index volume.now.lengths.items file }
{
    volume.lengths[file]
}

impl<A: Allocator + Copy> FoundFiles for LoggedVolume<A> {
    ghost is_sound = { λ volume. IsSoundLogged volume };

    ghost count = { λ volume. length volume.table.files };

    ghost size = { λ volume file. slice_index volume.lengths.items file };

    ghost blocks = { λ volume. (log_of volume.table).blocks };

    ghost is_in = { λ volume bytes. IsLoggedVolume bytes volume };

    ghost files = { λ volume bytes. logged_files volume bytes };

    fn file_count(&self) -> usize {
        self.table.table().file_count()
    }

    fn name(&self, file: usize) -> &str {
        self.table.table().name(file)
    }

    fn length(&self, file: usize) -> u64 {
        size_of(self, file)
    }

    fn block_of(&self, file: usize, page: u64) -> u32 {
        let log = self.table.log();
        let page = page as u32;
        let home = home_of(self, file, page);
        newest_block(&log, &self.log, home)
    }
}
