//! A writer that fails once.

ghost use Rattle.std.specs.Prelude.{◌≡◌, IsErr, Some};
ghost use Rattle.std.specs.Io.{WritesAtMost};
ghost use Rattle.std.specs.Io.KnownBytes.{Keeps, WriteAppends};

use std::io;
use std::io::{Error, ErrorKind, Write};

/// A writer that takes all that it is given, but that one of its writes fails.
#[derive(Drop)]
pub struct FailsOnce {
    /// The bytes taken so far.
    pub held: Vec<u8>,
    /// How many writes were made so far.
    pub writes: u64,
    /// The number of the write that fails. The first is 1, and with 0 none fails.
    pub failing: u64,
}

impl Write for FailsOnce {
    ghost contents = { λ w. Some w.held.items };

    fn write(&mut self, buf: &[u8]) -> io::Result<usize>
        ensures bound { WritesAtMost result buf.now }
        ensures bytes { WriteAppends
            (Some self.old.held.items) (Some self.new.held.items) result buf.now }
        ensures fails { self.new.writes ≡ self.old.failing → IsErr result }
        ensures failing { self.new.failing ≡ self.old.failing }
    {
        self.writes = self.writes.saturating_add(1);
        if self.writes == self.failing {
            return Err(Error::from(ErrorKind::Other));
        }
        self.held.extend_from_slice(buf)?;
        Ok(buf.len())
    }

    fn flush(&mut self) -> io::Result<()>
        ensures bytes { Keeps (Some self.old.held.items) (Some self.new.held.items) }
    {
        Ok(())
    }
}
