// The dump of a volume: the name and length of each file, and its rows of 16 bytes in hexadecimal.
ghost use Rattle.std.specs.Prelude.{Some};
ghost use Rattle.volume_files.specs.Dump.{head_line, row_text, row_line};

use std::fmt;
use std::io::Write;
use volume_reading::{Form, WriteFault};

/// Up to 16 bytes of a file, and the offset of the first of them.
#[derive(Clone, Copy)]
pub struct Row<'a> {
    pub at: u64,
    pub bytes: &'a [u8],
}

impl fmt::Display for Row<'_> {
    ghost output = { λ row. Some (row_text row.at row.bytes.now) };

    /// Writes the offset in 12 hexadecimal digits, and then each byte in two digits after a space.
    fn fmt<W: fmt::Write>(&self, f: &mut fmt::Formatter<W>) -> fmt::Result {
        let at = self.at;
        write!(f, "{at:012x}")?;
        for &byte in self.bytes {
            write!(f, " {byte:02x}")?;
        }
        Ok(())
    }
}

/// The files of a volume as the lines of a dump.
#[derive(Clone, Copy)]
pub struct DumpLines;

impl Form for DumpLines {
    ghost head_text = { λ lines. head_line };

    ghost row_text = { λ lines. row_line };

    fn write_head<W: Write>(&self, name: &str, bytes: u64, out: &mut W) -> Result<(), WriteFault> {
        writeln!(out, "{name} {bytes}")?;
        Ok(())
    }

    fn write_row<W: Write>(&self, at: u64, bytes: &[u8], out: &mut W) -> Result<(), WriteFault> {
        let row = Row { at, bytes };
        writeln!(out, "{row}")?;
        Ok(())
    }
}
