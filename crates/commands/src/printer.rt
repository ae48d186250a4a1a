// Prints the replies of a run as they come.
ghost use Rattle.std.specs.Prelude.{◌≡◌, ◌+◌, ◌<◌, ◌^◌, [], ◌∷◌, OnOk, OnErr, Some, None};
ghost use Rattle.std.specs.Io.KnownBytes.{Appends};
ghost use Rattle.commands.specs.Printed.{line_of, Prints};

use crate::reply::is_failure;
use engine::Listener;
use machine::Reply;
use std::io;

/// Prints each reply on its own line and flushes it, so the reader of a pipe has it before the next step is made. The
/// reply `going` isn't flushed, since it informs of nothing; it comes with the next reply. If the output fails, the run
/// stops. The printer keeps no replies, only the number of the first one that reports that the device failed.
#[derive(Drop)]
pub struct Printer<W: io::Write + Drop> {
    pub out: W,
    /// The number of replies that were printed.
    pub count: u64,
    /// The number, counted from 1, of the first reply that reports that the device failed.
    pub failure: Option<u64>,
    /// The error of the output, if it failed.
    pub fault: Option<io::Error>,
}

impl<W: io::Write + Drop> Printer<W> {
    /// Returns a printer that has printed nothing.
    pub fn new(out: W) -> Self
        ensures { result ≡ record { out = out; count = 0; failure = None; fault = None } }
    {
        Printer {
            out,
            count: 0,
            failure: None,
            fault: None,
        }
    }
}

impl<W: io::Write + Drop> Listener for Printer<W> {
    ghost hears = { Prints W.contents };

    fn hear(&mut self, reply: &Reply) -> bool {
        match print_line(&mut self.out, reply) {
            Ok(()) => {
                self.count = self.count.saturating_add(1);
                if self.failure.is_none() && is_failure(reply) {
                    self.failure = Some(self.count);
                }
                true
            }
            Err(fault) => {
                self.fault = Some(fault);
                false
            }
        }
    }
}

// Writes a reply on its own line, and flushes it unless it is `going`.
fn print_line<W: io::Write>(out: &mut W, reply: &Reply) -> io::Result<()>
    ensures { OnOk result (Appends (W.contents out.old) (W.contents out.new) (line_of reply.now)) }
{
    // Most replies are this one.
    if let Reply::Going = reply {
        return out.write_all(b"going\n");
    }
    print_flushed(out, reply)
}

// A separate function, so that `going` doesn't pay for the stack space and the checks of formatting.
#[inline(never)]
fn print_flushed<W: io::Write>(out: &mut W, reply: &Reply) -> io::Result<()>
    ensures { OnOk result (Appends (W.contents out.old) (W.contents out.new) (line_of reply.now)) }
{
    writeln!(out, "{reply}")?;
    out.flush()
}
