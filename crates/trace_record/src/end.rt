//! How a stream ended, and what was wrong with it.

use thiserror::Error;

/// What is wrong with a header or a record.
///
/// Where the numbers of a record have several flaws, it is the first of these: `Width`, `Kind`,
/// `Size`, `Range`. The number of a flaw only names it, and says nothing of this order.
#[derive(Clone, Copy, Debug, PartialEq, Eq, Error)]
pub enum Flaw {
    /// The first eight bytes are not the header.
    #[error("the first eight bytes are not the header")]
    Header = 1,
    /// A record begins with a byte that is no code.
    #[error("a record begins with an unknown code")]
    Code,
    /// The width of a load or store is not 1, 2, 4 or 8.
    #[error("the width of an access is not 1, 2, 4 or 8")]
    Width,
    /// A malloc, poison or unpoison speaks of more bytes than its version allows: 2^28 in version
    /// 1, and 2^32 in version 2.
    #[error("a region has more bytes than the version allows")]
    Size,
    /// The record reaches past the last address.
    #[error("a record reaches past the last address")]
    Range,
    /// The kind of a poison is over 2.
    #[error("the kind of a poison is none of 0, 1 and 2")]
    Kind,
}

/// How a stream ended.
#[derive(Clone, Copy, Debug, PartialEq, Eq)]
pub enum Fate {
    /// The close was read.
    Closed,
    /// The header or a record has a flaw.
    Malformed(Flaw),
    /// The input ended inside the header or inside a record; an empty input too.
    Truncated,
    /// The input ended right after the header or a whole record.
    NoClose,
    /// A read failed before anything else had ended the stream.
    ReadFailed,
    /// The limit's number of events was read, and the next byte is not the close.
    TooMany,
}

/// The end of a stream.
#[derive(Clone, Copy, Debug, PartialEq, Eq)]
pub struct End {
    pub fate: Fate,
    /// How many whole good records were read.
    pub events: u64,
    /// How many bytes the header, the whole good records and the close take.
    pub offset: u64,
}
