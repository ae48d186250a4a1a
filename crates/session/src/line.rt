// The lines of an input.
ghost use Rattle.std.specs.Prelude.{Option, List, ℕ, IfOk, OnOk, true, false};
ghost use Rattle.session.specs.Lines.{ReadsLine};
ghost use Rattle.session.specs.inside.Reading.{IsPart, ReadsPart};

use std::alloc::Allocator;
use std::io;
use std::io::{BufRead, ErrorKind};

// Rule: long line
/// The largest number of bytes in a line, without its line feed.
pub const MOST_OF_LINE: u64 = 262_144;

/// What comes next in an input.
#[derive(Clone, Copy, Debug, PartialEq, Eq)]
pub enum Line {
    /// A line that isn't too long.
    Whole,
    /// A line that is too long, and was skipped.
    Long,
    /// The end of the input.
    End,
}

/// Reads the next line into `line`, without its line feed. The buffer is cleared first.
///
/// If it returns `Ok`, it has consumed this line and its line feed, and nothing after them.
pub fn read_line<A: Allocator + Copy, I: BufRead>(
    input: &mut I,
    line: &mut Vec<u8, A>,
) -> io::Result<Line>
    ensures { IfOk result (λ found.
        ReadsLine (I.remaining input.old) (I.remaining input.new) found line.new.items) }
{
    line.clear();
    read_start(input, line)?;
    if line.is_empty() {
        return Ok(Line::End);
    }
    if line[line.len() - 1] == b'\n' {
        line.pop();
        return Ok(Line::Whole);
    }
    if line.len() as u64 <= MOST_OF_LINE {
        return Ok(Line::Whole);
    }
    input.skip_until(b'\n')?;
    Ok(Line::Long)
}

// Appends the next line, with its line feed, to an empty buffer. If the line is too long, it appends one byte more than
// the limit.
fn read_start<A: Allocator + Copy, I: BufRead>(
    input: &mut I,
    line: &mut Vec<u8, A>,
) -> io::Result<()>
    ensures { OnOk result ((known : Option (List ℕ)) → ReadsPart known (I.remaining input.old) line.old.items false
        → ReadsPart known (I.remaining input.new) line.new.items true) }
{
    for _ in 0..u64::MAX {
        if append_part(input, line)? {
            return Ok(());
        }
    }
    Err(io::Error::from(ErrorKind::TimedOut))
}

// Appends the part of the line that the input has at hand. Returns whether the line needs no further read. A read that
// a signal interrupts isn't an error.
fn append_part<A: Allocator + Copy, I: BufRead>(
    input: &mut I,
    line: &mut Vec<u8, A>,
) -> io::Result<bool>
    ensures { IfOk result (λ ends. (known : Option (List ℕ))
        → ReadsPart known (I.remaining input.old) line.old.items false
        → ReadsPart known (I.remaining input.new) line.new.items ends) }
{
    let left = (MOST_OF_LINE as usize + 1).saturating_sub(line.len());
    if left == 0 {
        return Ok(true);
    }
    let available = match input.fill_buf() {
        Ok(available) => available,
        Err(cause) => {
            return if cause.kind() == ErrorKind::Interrupted {
                Ok(false)
            } else {
                Err(cause)
            };
        }
    };
    let (count, ends) = part_of_line(available, left);
    line.extend_from_slice(&available[..count])?;
    input.consume(count);
    Ok(ends)
}

// Returns the number of bytes that belong to one line and its line feed, at most `most`, and whether they end it.
fn part_of_line(bytes: &[u8], most: usize) -> (usize, bool)
    ensures { IsPart bytes.now most result.0 result.1 }
{
    let within = bytes.len().min(most);
    for i in 0..within {
        if bytes[i] == b'\n' {
            return (i + 1, true);
        }
    }
    (within, within == 0)
}
