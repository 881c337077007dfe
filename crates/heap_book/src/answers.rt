//! What a book answers, and how it refuses a bound.
use crate::block::Block;
use thiserror::Error;

/// What a book answers to a malloc.
#[derive(Clone, Copy, Debug, PartialEq, Eq)]
pub enum Admit {
    /// The malloc gave address 0: the allocator had no memory.
    Ignored,
    /// The block is live from now on.
    Admitted(Block),
    /// No block may start there: it isn't at a multiple of 8, has no room for its redzones, or its
    /// span meets another.
    Refused,
}

/// What a book answers to a free.
#[derive(Clone, Copy, Debug, PartialEq, Eq)]
pub enum Freed {
    /// The address is 0.
    Ignored,
    /// The live block that starts there, which is now the last in quarantine.
    Held(Block),
    /// A block in quarantine starts there: it was freed before.
    Twice,
    /// No block starts there that is live or in quarantine.
    Stranger,
}

/// The bound for the quarantine is over 2^40 bytes.
#[derive(Clone, Copy, Debug, PartialEq, Eq, Error)]
#[error("the quarantine may be bounded by at most 2^40 bytes")]
pub struct Bound;
