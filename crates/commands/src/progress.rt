// The progress of writing a new file, on a terminal.
use new_volume::WriteListener;
use std::io;
use std::io::IsTerminal;

/// A line on a terminal with the percentage of a new file that is written. It changes at most once for each percent. If
/// the output isn't a terminal, nothing is written.
#[derive(Drop)]
pub struct Progress<'a, E: io::Write> {
    err: &'a mut E,
    shows: bool,
    doing: &'static str,
    expected: u64,
    written: u64,
    percent: u64,
}

impl<'a, E: io::Write + IsTerminal> Progress<'a, E> {
    /// Returns a line that begins with `doing`, a word of at most 9 letters.
    pub fn new(err: &'a mut E, doing: &'static str) -> Self {
        let shows = err.is_terminal();
        Progress {
            err,
            shows,
            doing,
            expected: 0,
            written: 0,
            percent: 0,
        }
    }

    /// Removes the line, if there is one.
    pub fn clear(&mut self) {
        if self.percent > 0 {
            let _ = write!(self.err, "\r              \r");
            let _ = self.err.flush();
        }
    }
}

impl<E: io::Write> Progress<'_, E> {
    fn show(&mut self) {
        let percent = (self.written.saturating_mul(100) / self.expected.max(1)).min(100);
        if percent > self.percent {
            self.percent = percent;
            let doing = self.doing;
            let _ = write!(self.err, "\r{doing} {percent}%");
            let _ = self.err.flush();
        }
    }
}

impl<E: io::Write> WriteListener for Progress<'_, E> {
    fn expect(&mut self, bytes: u64) {
        self.expected = bytes;
    }

    fn hear_write(&mut self, bytes: u64) {
        self.written = self.written.saturating_add(bytes);
        if self.shows {
            self.show();
        }
    }
}
