//! A block and its span.
ghost use Rattle.std.specs.Prelude.{◌≡◌, ◌+◌, ◌≤◌, ◌↔◌, IsSome, IfSome};
ghost use Rattle.asan_units.specs.Units.{address_end};
ghost use Rattle.heap_book.specs.Spans.{IsPlaced, span_from, span_to};

use asan_units::{ADDRESS_END, GRANULE, REDZONE, round_up};
use std::marker::Model;

/// A block that was admitted. Its span is its bytes, rounded up to whole granules of 8, and a
/// redzone of 32 bytes on each side. It starts at a granule, and its span has room from 0 up to
/// 2^47.
#[derive(Clone, Copy, Debug, PartialEq, Eq)]
pub struct Block {
    at: u64,
    size: u64,
}

impl Model for Block {
    ghost use Rattle.heap_book.specs.Spans.{Extent, IsPlaced};

    ghost Value = { Extent };

    ghost view = { λ b. record { at = b.at; size = b.size } };

    ghost invariant = { λ b. IsPlaced record { at = b.at; size = b.size } };

    ghost inverse = { λ extent. record { at = extent.at; size = extent.size } };
}

impl Block {
    /// The block of that many bytes at an address, if it starts at a granule and its redzones have
    /// room.
    pub(crate) fn new(at: u64, size: u64) -> Option<Block>
        requires { at + size ≤ address_end }
        ensures some { IsSome result ↔ IsPlaced (record { at = at; size = size }) }
        ensures block { IfSome result (λ block. block ≡ record { at = at; size = size }) }
    {
        let to = at + round_up(size) + REDZONE;
        if at.is_multiple_of(GRANULE) && at >= REDZONE && to <= ADDRESS_END {
            Some(Block { at, size })
        } else {
            None
        }
    }

    /// A block of that many bytes at an address, which is known to have its place.
    #[inline]
    pub(crate) fn from_parts(at: u64, size: u64) -> Block
        requires { IsPlaced (record { at = at; size = size }) }
        ensures { result ≡ record { at = at; size = size } }
    {
        Block { at, size }
    }

    /// The address of its first byte.
    #[inline]
    pub fn at(&self) -> u64
        ensures at { result ≡ self.now.at }
        ensures placed { IsPlaced self.now }
    {
        self.at
    }

    /// How many bytes it has.
    #[inline]
    pub fn size(&self) -> u64
        ensures size { result ≡ self.now.size }
        ensures placed { IsPlaced self.now }
    {
        self.size
    }

    /// The address of its span's first byte.
    #[inline]
    pub fn from(&self) -> u64
        ensures from { result ≡ span_from self.now }
        ensures placed { IsPlaced self.now }
    {
        self.at - REDZONE
    }

    /// The first address past its span.
    #[inline]
    pub fn to(&self) -> u64
        ensures to { result ≡ span_to self.now }
        ensures placed { IsPlaced self.now }
    {
        self.at + round_up(self.size) + REDZONE
    }
}
