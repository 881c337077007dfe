//! Streams for tests, what is printed of them, and feeds that send them.
#![tactic(auto)]

ghost use Rattle.std.specs.Prelude.{◌≡◌, IfOk};

use std::alloc::{AllocError, Global};
use trace_feed::MemFeed;

/// A malloc of 5 bytes at 0x1000, a store of 4 bytes at 0x1004, and the close.
pub const STREAM: [u8; 36] = [
    0x41, 0x53, 0x54, 0x52, 1, 0, 0, 0, 3, 0, 0x10, 0, 0, 0, 0, 0, 0, 5, 0, 0, 0, 0, 0, 0, 0, 2, 4,
    4, 0x10, 0, 0, 0, 0, 0, 0, 7,
];

/// The same stream, and 20 bytes that nobody reads.
pub const STREAM_AND_MORE: [u8; 56] = [
    0x41, 0x53, 0x54, 0x52, 1, 0, 0, 0, 3, 0, 0x10, 0, 0, 0, 0, 0, 0, 5, 0, 0, 0, 0, 0, 0, 0, 2, 4,
    4, 0x10, 0, 0, 0, 0, 0, 0, 7, 1, 2, 3, 4, 5, 6, 7, 8, 9, 10, 11, 12, 13, 14, 15, 16, 17, 18,
    19, 20,
];

/// How many bytes the stream has.
pub const LENGTH: usize = STREAM.len();

/// What is printed of the stream.
pub const TEXT: &str = "\
p0 #2 store 4 at 000000001004 bad 000000001005 heap-buffer-overflow shadow 05
p0 end closed events 2 offset 36 reports 1
";

/// Three loads of a byte at 0x1000, and the close.
pub const LOADS: [u8; 39] = [
    0x41, 0x53, 0x54, 0x52, 1, 0, 0, 0, 1, 1, 0, 0x10, 0, 0, 0, 0, 0, 0, 1, 1, 0, 0x10, 0, 0, 0, 0,
    0, 0, 1, 1, 0, 0x10, 0, 0, 0, 0, 0, 0, 7,
];

/// A malloc of 8 bytes at 0x1000, a store of 4 bytes at 0x1006, which is missed, and the close.
pub const MISS: [u8; 36] = [
    0x41, 0x53, 0x54, 0x52, 1, 0, 0, 0, 3, 0, 0x10, 0, 0, 0, 0, 0, 0, 8, 0, 0, 0, 0, 0, 0, 0, 2, 4,
    6, 0x10, 0, 0, 0, 0, 0, 0, 7,
];

/// In version 2, a poison of 12 bytes at 0x1004 on the stack, a load of 8 bytes at 0x1000, and the
/// close.
pub const POISON: [u8; 37] = [
    0x41, 0x53, 0x54, 0x52, 2, 0, 0, 0, 5, 1, 4, 0x10, 0, 0, 0, 0, 0, 0, 12, 0, 0, 0, 0, 0, 0, 0,
    1, 8, 0, 0x10, 0, 0, 0, 0, 0, 0, 7,
];

/// What is printed of the stream with more bytes after it, of its first 30 bytes with a failing
/// read after them, and of no bytes, as processes 0 to 2.
pub const THREE_TEXTS: &str = "\
p0 #2 store 4 at 000000001004 bad 000000001005 heap-buffer-overflow shadow 05
p0 end closed events 2 offset 36 reports 1
p1 end read-failed events 1 offset 25 reports 0
p2 end truncated events 0 offset 0 reports 0
";

/// A feed of bytes whose reads are cut at these places and fail at one.
pub fn feed_of(
    alloc: Global,
    bytes: &[u8],
    cuts: &[u64],
    fail_at: Option<u64>,
) -> Result<MemFeed, AllocError>
    ensures { IfOk result (λ f. f.faults ≡ 0) }
{
    Ok(MemFeed::new(bytes.to_vec(alloc)?, cuts.to_vec(alloc)?, fail_at))
}
