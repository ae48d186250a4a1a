// A file that reports its failed syncs to a watcher.
ghost use Rattle.std.specs.Prelude.{◌≡◌};

use device::BlockFile;
use std::io;

/// A watcher that is notified of each failed sync of a file, before anyone else is.
pub trait Watcher {
    /// Notifies it that a sync failed.
    fn hear_failure(&mut self);
}

/// A file that notifies a watcher of each failed sync. Apart from that it is the file over which it is made.
#[derive(Drop)]
pub struct WatchedFile<F: BlockFile, W: Watcher> {
    file: F,
    watcher: W,
}

impl<F: BlockFile, W: Watcher> WatchedFile<F, W> {
    /// Returns this file, on which no sync has failed yet.
    pub fn new(file: F, watcher: W) -> Self {
        WatchedFile { file, watcher }
    }

    // Notifies the watcher if a sync failed.
    fn watch(&mut self, synced: &io::Result<()>)
        ensures { self.new.file ≡ self.old.file }
    {
        if synced.is_err() {
            self.watcher.hear_failure();
        }
    }

    /// Returns the file and its watcher.
    pub fn into_parts(self) -> (F, W) {
        let WatchedFile { file, watcher } = self;
        (file, watcher)
    }
}

impl<F: BlockFile, W: Watcher> BlockFile for WatchedFile<F, W> {
    ghost seen = { λ watched. F.seen watched.file };

    ghost may_leave = { λ watched. F.may_leave watched.file };

    ghost moment = { λ watched. F.moment watched.file };

    ghost left_since = { λ watched. F.left_since watched.file };

    ghost is_honest = { λ watched. F.is_honest watched.file };

    ghost calls_made = { λ watched. F.calls_made watched.file };

    ghost seen_is_left = { λ watched. F.seen_is_left watched.file };

    ghost left_is_whole = { λ watched. F.left_is_whole watched.file };

    ghost now_is_since = { λ watched. F.now_is_since watched.file };

    ghost since_now = { λ watched. F.since_now watched.file };

    fn size(&self) -> io::Result<u64> {
        self.file.size()
    }

    fn read_exact_at(&mut self, buffer: &mut [u8], at: u64) -> io::Result<()> {
        self.file.read_exact_at(buffer, at)
    }

    fn write_all_at(&mut self, bytes: &[u8], at: u64) -> io::Result<()> {
        self.file.write_all_at(bytes, at)
    }

    fn sync_all(&mut self) -> io::Result<()> {
        let synced = self.file.sync_all();
        self.watch(&synced);
        synced
    }

    fn sync_data(&mut self) -> io::Result<()> {
        let synced = self.file.sync_data();
        self.watch(&synced);
        synced
    }
}
