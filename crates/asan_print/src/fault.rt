//! Why a text did not go out whole.

use thiserror::Error;

/// Why a text did not go out whole.
#[derive(Clone, Copy, Debug, PartialEq, Eq)]
pub enum Why {
    /// There was no memory for a line.
    NoMemory = 1,
    /// A write failed or took nothing.
    Write,
}

/// A text did not go out whole: exactly its first `written` bytes did.
#[derive(Clone, Copy, Debug, PartialEq, Eq, Error)]
#[error("only {written} bytes went out")]
pub struct WriteFault {
    /// How many bytes went out.
    pub written: u64,
    /// What stopped the rest.
    pub why: Why,
}
