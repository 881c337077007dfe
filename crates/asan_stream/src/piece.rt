//! The bytes of one read.

ghost use Rattle.std.specs.Prelude.{◌≤◌};
ghost use Rattle.asan_stream.specs.Ranges.{read_size};

use trace_feed::{Feed, FeedFault};

/// How many bytes one read asks for.
const READ_SIZE: usize = 4096;

/// The bytes that a read gave, and how many of them were used.
#[derive(Drop)]
pub(crate) struct Piece {
    buffer: [u8; READ_SIZE],
    used: usize,
    filled: usize,
    ghost used_in_range: { used ≤ filled },
    ghost filled_in_range: { filled ≤ read_size },
}

impl Piece {
    ghost use Rattle.std.specs.Prelude.{◌≡◌, ◌+◌, ◌-◌, ◌<◌, ◌^◌, [], IfOk, OnErr, drop};
    ghost use Rattle.std.specs.Prelude.{length, if◌then◌else◌, is_ok};
    ghost use Rattle.std.specs.Io.KnownBytes.{Consumes, Keeps, IsAtEnd};
    ghost use Rattle.asan_stream.specs.Pieces.{rest_of};

    /// A piece of no bytes.
    pub(crate) fn new() -> Piece
        ensures { rest_of result ≡ [] }
    {
        Piece {
            buffer: [0; READ_SIZE],
            used: 0,
            filled: 0,
        }
    }

    /// The bytes that were not used yet.
    pub(crate) fn rest(&self) -> &[u8]
        ensures { result.now ≡ rest_of self.now }
    {
        &self.buffer[self.used..self.filled]
    }

    /// Uses the first of these bytes.
    pub(crate) fn advance(&mut self, count: usize)
        requires { count ≤ length (rest_of self.old) }
        ensures { rest_of self.new ≡ drop count (rest_of self.old) }
    {
        self.used += count;
    }

    /// Reads the next piece of a feed in place of this one, and answers its length, which is 0 at
    /// the end of the feed only. Where the read fails the piece has no bytes.
    pub(crate) fn refill<F: Feed>(&mut self, feed: &mut F) -> Result<usize, FeedFault>
        requires { (F.seen feed.old).faults < 2 ^ 64 - 1 }
        ensures length { IfOk result (λ n. n ≡ length (rest_of self.new)) }
        ensures bytes { IfOk result (λ _.
            Consumes (F.seen feed.old).to_come (F.seen feed.new).to_come (rest_of self.new)) }
        ensures at_end { IfOk result (λ n. n ≡ 0 → IsAtEnd (F.seen feed.new).to_come) }
        ensures kept { OnErr result (Keeps (F.seen feed.old).to_come (F.seen feed.new).to_come) }
        ensures none { OnErr result (rest_of self.new ≡ []) }
        ensures faults { (F.seen feed.new).faults ≡
            (if is_ok result then (F.seen feed.old).faults else (F.seen feed.old).faults + 1) }
    {
        self.used = 0;
        self.filled = 0;
        self.filled = feed.next(&mut self.buffer)?;
        Ok(self.filled)
    }
}
