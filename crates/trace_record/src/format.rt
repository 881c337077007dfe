//! The bytes of a stream: its header, its close, and the codes of records with their lengths.

ghost use Rattle.std.specs.Prelude.{◌≡◌};
ghost use Rattle.trace_record.specs.Spelling.{record_length};
ghost use Rattle.trace_record.specs.Stream.{version_of};

use crate::version::Version;

/// The eight bytes that a stream of version 1 begins with: `ASTR`, and the version as a number of
/// four bytes.
pub const HEADER: [u8; 8] = [b'A', b'S', b'T', b'R', 1, 0, 0, 0];

/// The eight bytes that a stream of version 2 begins with.
pub const HEADER_2: [u8; 8] = [b'A', b'S', b'T', b'R', 2, 0, 0, 0];

/// The eight bytes that a stream of version 3 begins with.
pub const HEADER_3: [u8; 8] = [b'A', b'S', b'T', b'R', 3, 0, 0, 0];

/// The byte that closes a stream. No record begins with it.
pub const CLOSE: u8 = 7;

/// How many bytes the header has.
pub const HEADER_LENGTH: usize = 8;

/// How many bytes a buffer has that takes the header or any one record.
pub const RECORD_ROOM: usize = 24;

/// The code of a load, the first byte of its record. The other codes follow.
pub const LOAD: u8 = 1;

pub const STORE: u8 = 2;

pub const MALLOC: u8 = 3;

pub const FREE: u8 = 4;

pub const POISON: u8 = 5;

pub const UNPOISON: u8 = 6;

/// The code of a history that begins anew, in version 3. The close has the code between.
pub const ANEW: u8 = 8;

/// How many bytes the record of a load or a store has: its code, a width and an address.
pub const ACCESS_LENGTH: usize = 10;

/// How many bytes the record of a malloc, an unpoison or a poison of version 1 has: its code, an
/// address and a size.
pub const REGION_LENGTH: usize = 17;

/// How many bytes the record of a poison has from version 2 on: its code, a kind, an address and a
/// size.
pub const SHADE_LENGTH: usize = 18;

/// How many bytes the record of a free has: its code and an address.
pub const PLACE_LENGTH: usize = 9;

/// How many bytes the record of a history that begins anew has: its code.
pub const ANEW_LENGTH: usize = 1;

/// The version of a stream that begins with these bytes, if they begin with a header.
pub fn read_header(bytes: &[u8]) -> Option<Version>
    ensures { result ≡ version_of bytes.now }
{
    if bytes.starts_with(&HEADER) {
        Some(Version::One)
    } else if bytes.starts_with(&HEADER_2) {
        Some(Version::Two)
    } else if bytes.starts_with(&HEADER_3) {
        Some(Version::Three)
    } else {
        None
    }
}

/// How many bytes a record of this code has in a version, or 0 where no record has it.
pub fn length_of(version: Version, code: u8) -> usize
    ensures { result ≡ record_length version code }
{
    match code {
        LOAD | STORE => ACCESS_LENGTH,
        MALLOC | UNPOISON => REGION_LENGTH,
        FREE => PLACE_LENGTH,
        POISON => match version {
            Version::One => REGION_LENGTH,
            Version::Two | Version::Three => SHADE_LENGTH,
        },
        ANEW => match version {
            Version::One | Version::Two => 0,
            Version::Three => ANEW_LENGTH,
        },
        _ => 0,
    }
}
