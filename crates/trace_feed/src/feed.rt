//! The trait of feeds: the bytes of one sender, in pieces.

ghost use Rattle.std.specs.Prelude.{◌≡◌, ◌+◌, ◌-◌, ◌<◌, ◌≤◌, ◌^◌, IfOk};
ghost use Rattle.std.specs.Prelude.{if◌then◌else◌, is_ok, length};
ghost use Rattle.std.specs.Io.KnownBytes.{ReadConsumes};
ghost use Rattle.trace_feed.specs.Feeds.{FeedState};

use thiserror::Error;

/// A read failed.
#[derive(Clone, Copy, Debug, Error, PartialEq, Eq)]
#[error("a read failed")]
pub struct FeedFault;

/// Bytes that come in pieces, and a count of the reads that failed.
pub trait Feed {
    // What is seen of the feed.
    ghost seen: { Self → FeedState };

    /// Reads the next piece into the front of `buf`.
    ///
    /// `Ok(n)` with n > 0 moves the next n bytes into the front of `buf` and leaves the count.
    /// `Ok(0)` for a `buf` with room comes only at the end. `Err` raises the count by one and
    /// leaves the bytes still to come as they were. The count has to be below `u64::MAX` before
    /// the call.
    fn next(&mut self, buf: &mut [u8]) -> Result<usize, FeedFault>
        requires { (seen self.old).faults < 2 ^ 64 - 1 }
        ensures bound { IfOk result (λ n. n ≤ length buf.new) }
        ensures bytes { ReadConsumes (seen self.old).to_come (seen self.new).to_come
            result buf.new }
        ensures faults { (seen self.new).faults ≡
            (if is_ok result then (seen self.old).faults else (seen self.old).faults + 1) };

    /// How many reads have failed.
    fn faults(&self) -> u64
        ensures { result ≡ (seen self.now).faults };
}
