//! The versions of the format, and the one limit in which they differ.

ghost use Rattle.std.specs.Prelude.{◌≡◌, ◌≤◌};
ghost use Rattle.trace_record.specs.declared.version.Version.TheVariants as version;
ghost use Rattle.trace_record.specs.Ranges.{largest_region};

/// A version of the format. The header of a stream says its version, and all its events spell in
/// that.
#[derive(Clone, Copy, Debug, PartialEq, Eq)]
pub enum Version {
    /// Version 1. Its poison has no kind: each is a user's. A region has at most 2^28 bytes.
    One,
    /// Version 2. A poison has a kind. A region has at most 2^32 bytes.
    Two,
    /// Version 3. As version 2, and the history can begin anew.
    Three,
}

impl Version {
    /// The most bytes that a malloc, a poison or an unpoison may speak of.
    pub(crate) fn largest_region(self) -> u64
        ensures region { result ≡ largest_region self }
        ensures most { result ≤ largest_region version.Two }
    {
        match self {
            Version::One => 1 << 28,
            Version::Two | Version::Three => 1 << 32,
        }
    }
}
