// The form in which a caller writes files.
ghost use Rattle.std.specs.Prelude.{◌≡◌, ℕ, List, OnOk};
ghost use Rattle.std.specs.Io.KnownBytes.{Appends};

use page_entry::Refusal;
use std::alloc::AllocError;
use std::io;
use thiserror::Error;

/// Why the files of a volume were not written, or not all of them.
#[derive(Debug, Drop, Error)]
pub enum ListFault {
    /// A file couldn't be read, since a device call failed.
    #[error("{0}")]
    Unreadable(Refusal),
    /// A form couldn't write what was read.
    #[error("{0}")]
    Unwritten(WriteFault),
}

/// Why a form did not write a head, a row or a page, or not all of it.
#[derive(Debug, Drop, Error)]
pub enum WriteFault {
    /// The output couldn't be written.
    #[error("output: {0}")]
    Output(#[from] io::Error),
    /// There was no memory.
    #[error("out of memory")]
    Memory(#[from(alloc)] AllocError),
}

/// Writes the head of a file, and rows of the file's bytes.
pub trait Form {
    /// The text of the head of a file with this name and length.
    ghost head_text: { Self → List ℕ → ℕ → List ℕ };

    /// The text of a row with these bytes. The first byte is at this offset of the file.
    ghost row_text: { Self → ℕ → List ℕ → List ℕ };

    /// Writes the head of a file.
    fn write_head<W: io::Write>(
        &self,
        name: &str,
        bytes: u64,
        out: &mut W,
    ) -> Result<(), WriteFault>
        ensures { OnOk result (Appends (W.contents out.old) (W.contents out.new) (head_text self.now name.now bytes)) };

    /// Writes a row.
    fn write_row<W: io::Write>(&self, at: u64, bytes: &[u8], out: &mut W) -> Result<(), WriteFault>
        ensures { OnOk result (Appends (W.contents out.old) (W.contents out.new) (row_text self.now at bytes.now)) };
}
