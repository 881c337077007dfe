//! The numbers that every crate shares: the addresses of a process, its granules, redzones and
//! widths, and the quarantine's limit.
//!
//! Each stands here once in code and once, as its meaning, in `specs/Units.antt`.
#![tactic(auto)]

ghost use Rattle.std.specs.Prelude.{◌≡◌, ◌+◌, ◌^◌, ◌<◌};
ghost use Rattle.asan_units.specs.Units.{is_width, round_up};

/// The first address past those that a process has: that of user space on x86-64.
pub const ADDRESS_END: u64 = 1 << 47;

/// How many bytes a granule has: each granule has one shadow byte.
pub const GRANULE: u64 = 8;

/// How many granules the addresses make up.
pub const GRANULES: u64 = ADDRESS_END / GRANULE;

/// How many bytes a redzone has: a block on the heap has one on each side.
pub const REDZONE: u64 = 32;

/// The greatest bound of a quarantine, in bytes of spans.
pub const MAX_QUARANTINE: u64 = 1 << 40;

/// Whether an access can have this width. It is computed without branches: of four comparisons a
/// processor would often predict one wrong.
#[inline]
#[tactic(auto, using(crate::proofs::Widths::powers))]
pub fn is_width(width: u8) -> bool
    ensures { result ≡ is_width width }
{
    width <= 8 && width.is_power_of_two()
}

/// A size, in bytes, rounded up to whole granules.
#[inline]
pub fn round_up(size: u64) -> u64
    requires { size + 7 < 2 ^ 64 }
    ensures { result ≡ round_up size }
{
    size.next_multiple_of(GRANULE)
}
