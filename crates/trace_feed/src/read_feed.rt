//! A feed over a reader.

ghost use Rattle.std.specs.Prelude.{◌≡◌};

use crate::feed::{Feed, FeedFault};
use std::io::Read;
use std::marker::Model;

/// A feed over a reader, such as a file, standard input or a socket. Its contract knows its bytes
/// where that of the reader does.
#[derive(Drop)]
pub struct ReadFeed<R: Read> {
    reader: R,
    faults: u64,
}

impl<R: Read> Model for ReadFeed<R> {
    ghost use Rattle.trace_feed.specs.Feeds.{FeedState};

    ghost Value = { FeedState };

    ghost view = { λ f. record { to_come = R.remaining f.reader; faults = f.faults } };
}

impl<R: Read> ReadFeed<R> {
    /// A feed of what `reader` has left, of which no read has failed. It reads nothing yet.
    pub fn new(reader: R) -> ReadFeed<R>
        ensures bytes { result.to_come ≡ R.remaining reader }
        ensures fresh { result.faults ≡ 0 }
    {
        ReadFeed { reader, faults: 0 }
    }
}

impl<R: Read> Feed for ReadFeed<R> {
    ghost seen = { λ f. f };

    /// One read of the reader. Any error of it is a failed read, an interrupted one too.
    fn next(&mut self, buf: &mut [u8]) -> Result<usize, FeedFault> {
        match self.reader.read(buf) {
            Ok(count) => Ok(count),
            Err(_) => {
                self.faults += 1;
                Err(FeedFault)
            }
        }
    }

    fn faults(&self) -> u64 {
        self.faults
    }
}
