// A file over another file whose bytes are all 0.
ghost use Rattle.std.specs.Prelude.{◌≡◌, ◌↔◌, ◌==◌, length, IsTrue, OnOk};
ghost use Rattle.std.specs.List.{list_all};
ghost use Rattle.new_volume.specs.Formatting.{IsZero};

use device::BlockFile;
use std::fs::File;
use std::io;
use std::marker::Model;

/// A new file without bytes, whose length can be set.
pub trait EmptyFile: BlockFile {
    /// Sets the file's length in bytes. All of them are 0 (POSIX.1-2024, `ftruncate`).
    fn lengthen(&mut self, bytes: u64) -> io::Result<()>
        ensures { Self.is_honest self.new
            → OnOk result ((length (Self.seen self.new) ≡ bytes) × IsZero (Self.seen self.new)) };
}

impl EmptyFile for File {
    fn lengthen(&mut self, bytes: u64) -> io::Result<()> {
        self.set_len(bytes)
    }
}

/// Listens to the writes of a file.
pub trait WriteListener {
    /// Called with the approximate number of bytes that will be written in all.
    fn expect(&mut self, bytes: u64);

    /// Called with the number of bytes that are about to be written or left out.
    fn hear_write(&mut self, bytes: u64);
}

impl<W: WriteListener> WriteListener for &mut W {
    fn expect(&mut self, bytes: u64) {
        (**self).expect(bytes);
    }

    fn hear_write(&mut self, bytes: u64) {
        (**self).hear_write(bytes);
    }
}

/// A file over another file whose bytes are all 0. It leaves out each write of zeros past everything written so far, so
/// the other file keeps its holes there. It passes each other call to the other file. A listener hears of each write.
#[derive(Drop)]
pub struct NewFile<F: BlockFile, W: WriteListener> {
    inner: F,
    size: u64,
    end: u64,
    listener: W,
}

impl<F: BlockFile, W: WriteListener> Model for NewFile<F, W> {
    ghost use Rattle.new_volume.specs.NewFile.{IsBlankFrom, NewValue, new_code};

    ghost Value = { NewValue F };

    ghost coded = { new_code F.code };

    ghost view = { λ file. record { inner = file.inner; size = file.size; end = file.end } };

    ghost invariant = { λ file. F.is_honest file.inner
        → IsBlankFrom file.end file.size (F.seen file.inner) };
}

impl<F: BlockFile, W: WriteListener> NewFile<F, W> {
    /// Makes a file over this one, whose bytes are all 0.
    pub fn over(inner: F, listener: W) -> Self
        requires { F.is_honest inner → IsZero (F.seen inner) }
        ensures { result.inner ≡ inner }
    {
        let size = inner.size().unwrap_or(0);
        NewFile {
            inner,
            size,
            end: 0,
            listener,
        }
    }

    /// Returns the other file, as the calls left it, and the listener.
    pub fn into_parts(self) -> (F, W)
        ensures { result.0 ≡ self.inner }
    {
        let NewFile {
            inner,
            listener,
            ..
        } = self;
        (inner, listener)
    }
}

impl<F: BlockFile, W: WriteListener> BlockFile for NewFile<F, W> {
    ghost seen = { λ file. F.seen file.inner };

    ghost may_leave = { λ file. F.may_leave file.inner };

    ghost moment = { λ file. F.moment file.inner };

    ghost left_since = { λ file. F.left_since file.inner };

    ghost is_honest = { λ file. F.is_honest file.inner };

    ghost use Rattle.std.specs.Prelude.{None};

    ghost calls_made = { λ file. None };

    ghost seen_is_left = { λ file. F.seen_is_left file.inner };

    ghost left_is_whole = { λ file. F.left_is_whole file.inner };

    ghost now_is_since = { λ file. F.now_is_since file.inner };

    ghost since_now = { λ file. F.since_now file.inner };

    fn size(&self) -> io::Result<u64> {
        self.inner.size()
    }

    fn read_exact_at(&mut self, buffer: &mut [u8], at: u64) -> io::Result<()> {
        self.inner.read_exact_at(buffer, at)
    }

    fn write_all_at(&mut self, bytes: &[u8], at: u64) -> io::Result<()> {
        let count = bytes.len() as u64;
        self.listener.hear_write(count);
        if self.end <= at && self.size >= at && self.size - at >= count && is_zero(bytes) {
            return Ok(());
        }
        self.end = self.end.max(at.saturating_add(count));
        self.inner.write_all_at(bytes, at)
    }

    fn sync_all(&mut self) -> io::Result<()> {
        self.inner.sync_all()
    }

    fn sync_data(&mut self) -> io::Result<()> {
        self.inner.sync_data()
    }
}

// Whether each byte is 0.
fn is_zero(bytes: &[u8]) -> bool
    ensures { IsTrue result ↔ IsZero bytes.now }
{
    passes_all(bytes)
}

fn passes_all(bytes: &[u8]) -> bool
    ensures { result ≡ list_all (λ byte. byte == 0) bytes.now }
{
    bytes.iter().all(|byte| *byte == 0)
}
