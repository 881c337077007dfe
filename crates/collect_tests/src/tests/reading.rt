//! A slow reading of a whole stream, by the tables of docs/FORMAT.md: what the page says, and none
//! of the decoder.

use std::process::Abort;
use trace_record::{End, Fate, Flaw};

/// The header of version 1.
const HEADER_1: [u8; 8] = [0x41, 0x53, 0x54, 0x52, 0x01, 0x00, 0x00, 0x00];

/// The header of version 2.
const HEADER_2: [u8; 8] = [0x41, 0x53, 0x54, 0x52, 0x02, 0x00, 0x00, 0x00];

/// The header of version 3.
const HEADER_3: [u8; 8] = [0x41, 0x53, 0x54, 0x52, 0x03, 0x00, 0x00, 0x00];

/// The end of each address.
const PAST_ADDRESSES: u128 = 1 << 47;

/// The greatest size of a region in version 1.
const MAX_SIZE_1: u128 = 268_435_456;

/// The greatest size of a region from version 2 on.
const MAX_SIZE_2: u128 = 4_294_967_296;

/// The greatest kind of a poison.
const MAX_KIND: u128 = 2;

/// The version of a stream, by its first eight bytes.
fn version_of(text: &[u8]) -> Option<u8> {
    if text.starts_with(&HEADER_1) {
        Some(1)
    } else if text.starts_with(&HEADER_2) {
        Some(2)
    } else if text.starts_with(&HEADER_3) {
        Some(3)
    } else {
        None
    }
}

/// How many bytes the record of each code has in all.
fn length_of(version: u8, code: u8) -> Option<usize> {
    match code {
        0x01 | 0x02 => Some(10),
        0x03 | 0x06 => Some(17),
        0x04 => Some(9),
        0x05 if version == 1 => Some(17),
        0x05 => Some(18),
        0x08 if version == 3 => Some(1),
        _ => None,
    }
}

/// The number that these bytes of a record are: the lowest byte comes first.
fn number(record: &[u8], from: usize, to: usize) -> u128 {
    let mut number = 0u128;
    for &byte in record.get(from..to).unwrap_or(&[]).iter().rev() {
        number = number.wrapping_mul(256).wrapping_add(u128::from(byte));
    }
    number
}

/// The first flaw of an address and a size that stand in a record from this byte on.
fn region_flaw(version: u8, record: &[u8], from: usize) -> Option<Flaw> {
    let greatest = if version == 1 { MAX_SIZE_1 } else { MAX_SIZE_2 };
    let middle = from.wrapping_add(8);
    let address = number(record, from, middle);
    let size = number(record, middle, from.wrapping_add(16));
    if size > greatest {
        Some(Flaw::Size)
    } else if address.wrapping_add(size) > PAST_ADDRESSES {
        Some(Flaw::Range)
    } else {
        None
    }
}

/// The first flaw of a whole record, in the order in which they are tried.
fn flaw_of(version: u8, code: u8, record: &[u8]) -> Option<Flaw> {
    match code {
        0x01 | 0x02 => {
            let width = number(record, 1, 2);
            let address = number(record, 2, 10);
            if !matches!(width, 1 | 2 | 4 | 8) {
                Some(Flaw::Width)
            } else if address.wrapping_add(width) > PAST_ADDRESSES {
                Some(Flaw::Range)
            } else {
                None
            }
        }
        0x04 if number(record, 1, 9) >= PAST_ADDRESSES => Some(Flaw::Range),
        0x04 => None,
        0x05 if version != 1 && number(record, 1, 2) > MAX_KIND => Some(Flaw::Kind),
        0x05 if version != 1 => region_flaw(version, record, 2),
        0x08 => None,
        _ => region_flaw(version, record, 1),
    }
}

/// What stands next in a stream.
#[derive(Clone, Copy)]
enum Next {
    /// A sound record of this many bytes.
    Record(usize),
    /// The end, for this reason.
    End(Fate),
}

/// What stands at the front of the rest of a stream.
fn next_of(version: u8, rest: &[u8]) -> Next {
    let Some(&code) = rest.first() else {
        return Next::End(Fate::NoClose);
    };
    if code == 0x07 {
        return Next::End(Fate::Closed);
    }
    let Some(length) = length_of(version, code) else {
        return Next::End(Fate::Malformed(Flaw::Code));
    };
    let Some(record) = rest.get(..length) else {
        return Next::End(Fate::Truncated);
    };
    match flaw_of(version, code, record) {
        Some(flaw) => Next::End(Fate::Malformed(flaw)),
        None => Next::Record(length),
    }
}

/// The end for this reason, after these numbers of events and bytes.
fn an_end(fate: Fate, events: u64, offset: usize) -> End {
    End {
        fate,
        events,
        offset: offset as u64,
    }
}

/// How the stream ends where no more bytes follow, under an event limit.
pub(super) fn end_of(rt: &impl Abort, text: &[u8], limit: u64) -> End {
    if text.len() < 8 {
        return an_end(Fate::Truncated, 0, 0);
    }
    let Some(version) = version_of(text) else {
        return an_end(Fate::Malformed(Flaw::Header), 0, 0);
    };
    let mut offset = 8usize;
    for events in 0..=limit {
        match next_of(version, text.get(offset..).unwrap_or(&[])) {
            Next::End(Fate::NoClose) => return an_end(Fate::NoClose, events, offset),
            Next::End(Fate::Closed) => {
                return an_end(Fate::Closed, events, offset.wrapping_add(1));
            }
            _ if events == limit => return an_end(Fate::TooMany, events, offset),
            Next::End(fate) => return an_end(fate, events, offset),
            Next::Record(length) => offset = offset.wrapping_add(length),
        }
    }
    panic!(rt; "the limit was reached")
}
