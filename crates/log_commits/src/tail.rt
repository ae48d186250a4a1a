// The end of a log.
ghost use Rattle.std.specs.Prelude.{◌≡◌, ◌-◌, false};
ghost use Rattle.log_commits.specs.Tail.{IsTail, tail_at};

use log_codec::{LogGeometry, LogStart};
use std::marker::Model;

/// The end of a log, as a session knows it: the place of the next commit, and the blocks in use.
#[derive(Drop)]
pub struct LogTail {
    pub(crate) log: LogGeometry,
    pub(crate) start: LogStart,
    pub(crate) position: u32,
    pub(crate) number: u64,
    pub(crate) used: u32,
    pub(crate) spent: bool,
}

impl Model for LogTail {
    ghost use Rattle.log_commits.specs.Tail.{TailValue, IsTail};

    ghost Value = { TailValue };

    ghost view = { λ t. record {
      log = t.log;
      start = t.start;
      position = t.position;
      number = t.number;
      used = t.used;
      spent = t.spent;
    } };

    ghost invariant = { λ t. IsTail (record {
      log = t.log;
      start = t.start;
      position = t.position;
      number = t.number;
      used = t.used;
      spent = t.spent;
    }) };
}

impl LogTail {
    /// Returns the end of a log that has no commit, with this selected start.
    pub fn new(log: LogGeometry, start: LogStart) -> Self
        ensures { result ≡ tail_at log start false }
    {
        let _ring = log.ring();
        LogTail {
            log,
            start,
            position: log.position_behind(start.position, 0),
            number: start.number,
            used: 0,
            spent: false,
        }
    }

    /// Returns the places of the volume's parts.
    pub fn log(&self) -> LogGeometry
        ensures { result ≡ self.now.log }
    {
        self.log
    }

    /// Returns the position of the next commit.
    pub fn position(&self) -> u32
        ensures { result ≡ self.now.position }
    {
        self.position
    }

    /// Returns the number of the next commit.
    pub fn number(&self) -> u64
        ensures { result ≡ self.now.number }
    {
        self.number
    }

    /// Returns the epoch of the session.
    pub fn epoch(&self) -> u64
        ensures { result ≡ self.now.start.epoch }
    {
        self.start.epoch
    }

    /// Returns the number of commits in the log that aren't all written home.
    pub fn commits(&self) -> u64
        ensures { result ≡ self.now.number - self.now.start.number }
    {
        self.number.saturating_sub(self.start.number)
    }

    /// Whether a device call failed. No further commit is made then.
    pub fn is_spent(&self) -> bool
        ensures { result ≡ self.now.spent }
    {
        self.spent
    }
}
