//! Tests of version 2: poison with a kind, larger regions, what a header says, and what all
//! versions share. Version 3 has the same of these.

use super::{
    LOADS, Made, STREAM, an_end, encoded, end_in, end_of, end_of_fault, events_of, expect_at,
    expect_by_bytes, expect_cut_anywhere, expect_eq, expect_eq_at, expect_record, expect_spells,
    header_of, load, malloc, new_decoder, next, poison, store, unpoison,
};
use std::alloc::Global;
use std::process::Abort;
use std::test::Fail;
use trace_record::{Ahead, End, Event, Fate, Flaw, HEADER, HEADER_2, Kind, Out, Shade, Version};

/// Poison of kind 1 of 16 bytes at 0x2000 and of kind 2 of 16 bytes at 0x2010, a load of a byte at
/// 0x2008, a store of 4 bytes at 0x2010, an unpoison of 32 bytes at 0x2000, a load of 8 bytes
/// there, and the close.
const REDZONES: [u8; 92] = [
    0x41, 0x53, 0x54, 0x52, 2, 0, 0, 0, 5, 1, 0, 0x20, 0, 0, 0, 0, 0, 0, 16, 0, 0, 0, 0, 0, 0, 0,
    5, 2, 0x10, 0x20, 0, 0, 0, 0, 0, 0, 16, 0, 0, 0, 0, 0, 0, 0, 1, 1, 8, 0x20, 0, 0, 0, 0, 0, 0,
    2, 4, 0x10, 0x20, 0, 0, 0, 0, 0, 0, 6, 0, 0x20, 0, 0, 0, 0, 0, 0, 32, 0, 0, 0, 0, 0, 0, 0, 1,
    8, 0, 0x20, 0, 0, 0, 0, 0, 0, 7,
];

/// Poison of kind 1 of 12 bytes at 0x1004, a load of 8 bytes at 0x1000, and the close.
const HALF_A_GRANULE: [u8; 37] = [
    0x41, 0x53, 0x54, 0x52, 2, 0, 0, 0, 5, 1, 4, 0x10, 0, 0, 0, 0, 0, 0, 12, 0, 0, 0, 0, 0, 0, 0,
    1, 8, 0, 0x10, 0, 0, 0, 0, 0, 0, 7,
];

/// What is read ahead of the records of a stream of version 2, where eight events have room, and
/// the events.
fn read_ahead(stream: &[u8; 92], filler: Event) -> Result<(Ahead, [Event; 8]), Fail> {
    let mut ahead = [filler; 8];
    let mut decoder = new_decoder(1 << 24)?;
    let _ = next(&mut decoder, &stream[..8]);
    let answer = decoder.next_events(&stream[8..], &mut ahead);
    Ok((answer, ahead))
}

#[test]
fn redzones_cut_anywhere(rt: HostRuntime) -> Result<(), Fail> {
    let events = [
        poison(1, 0x2000, 16)?,
        poison(2, 0x2010, 16)?,
        load(1, 0x2008)?,
        store(4, 0x2010)?,
        unpoison(0x2000, 32)?,
        load(8, 0x2000)?,
    ];
    let closed = an_end(Fate::Closed, 6, 92);
    expect_cut_anywhere(&rt, rt.alloc(), &REDZONES, &events, closed)?;
    expect_by_bytes(&rt, rt.alloc(), &REDZONES, &events, closed)?;
    let (answer, ahead) = read_ahead(&REDZONES, events[5])?;
    expect_eq(&rt, answer, Ahead { count: 6, used: 83 });
    assert!(rt; ahead.starts_with(&events));
    Ok(())
}

/// How the first bytes of the stream of a poison end, this many of them, where nothing more comes.
fn end_of_prefix(length: usize) -> End {
    match length {
        0..=7 => an_end(Fate::Truncated, 0, 0),
        8 => an_end(Fate::NoClose, 0, 8),
        9..=25 => an_end(Fate::Truncated, 0, 8),
        26 => an_end(Fate::NoClose, 1, 26),
        27..=35 => an_end(Fate::Truncated, 1, 26),
        36 => an_end(Fate::NoClose, 2, 36),
        _ => an_end(Fate::Closed, 2, 37),
    }
}

/// How they end where a read fails after them.
fn fault_of_prefix(length: usize) -> End {
    let end = end_of_prefix(length);
    match end.fate {
        Fate::Closed => end,
        _ => an_end(Fate::ReadFailed, end.events, end.offset),
    }
}

/// What each prefix of a stream comes to where nothing more comes, and where a read fails.
#[test]
fn each_prefix_of_a_poison(rt: HostRuntime) -> Result<(), Fail> {
    for length in 0..=HALF_A_GRANULE.len() {
        let prefix = &HALF_A_GRANULE[..length];
        let end = end_of(&rt, rt.alloc(), 1 << 24, prefix, 0)?;
        expect_eq_at(&rt, length, end, end_of_prefix(length));
        let end = end_of_fault(&rt, rt.alloc(), 1 << 24, prefix, 0)?;
        expect_eq_at(&rt, length, end, fault_of_prefix(length));
    }
    Ok(())
}

/// A record with a region in a version. A poison with a kind is a global's.
fn region_record(
    alloc: Global,
    version: Version,
    code: u8,
    at: u64,
    size: u64,
) -> Result<Vec<u8>, Fail> {
    let mut record = Vec::new(alloc);
    record.push(code)?;
    if code == 5 && version != Version::One {
        record.push(2)?;
    }
    record.extend_from_slice(&at.to_le_bytes())?;
    record.extend_from_slice(&size.to_le_bytes())?;
    Ok(record)
}

/// A version, the size of a region, where the last region of this size starts, and what becomes of
/// a region of this size.
const MAX_REGIONS: [(Version, u64, u64, Fate); 7] = [
    (Version::One, 0x1000_0000, 0x7fff_f000_0000, Fate::Closed),
    (
        Version::One,
        0x1000_0001,
        0x7fff_efff_ffff,
        Fate::Malformed(Flaw::Size),
    ),
    (Version::Two, 0x1000_0001, 0x7fff_efff_ffff, Fate::Closed),
    (Version::Two, 0x1_0000_0000, 0x7fff_0000_0000, Fate::Closed),
    (
        Version::Two,
        0x1_0000_0001,
        0x7ffe_ffff_ffff,
        Fate::Malformed(Flaw::Size),
    ),
    (
        Version::Three,
        0x1_0000_0000,
        0x7fff_0000_0000,
        Fate::Closed,
    ),
    (
        Version::Three,
        0x1_0000_0001,
        0x7ffe_ffff_ffff,
        Fate::Malformed(Flaw::Size),
    ),
];

/// Asserts that a region of a record of each code has this fate, behind the header of a version.
fn expect_fate(
    rt: &impl Abort,
    alloc: Global,
    version: Version,
    (at, size): (u64, u64),
    fate: Fate,
) -> Result<(), Fail> {
    for code in [3, 5, 6] {
        let record = region_record(alloc, version, code, at, size)?;
        let want = match fate {
            Fate::Closed => an_end(fate, 1, 9 + record.len() as u64),
            _ => an_end(fate, 0, 8),
        };
        let end = end_in(rt, alloc, &header_of(version), &record)?;
        expect_eq_at(rt, (version, code, size, at), end, want);
    }
    Ok(())
}

#[test]
fn largest_region_of_each_version(rt: HostRuntime) -> Result<(), Fail> {
    for (version, size, last, fate) in &MAX_REGIONS {
        let past = match fate {
            Fate::Closed => Fate::Malformed(Flaw::Range),
            _ => *fate,
        };
        for (at, fate) in [
            (0, *fate),
            (*last, *fate),
            (*last + 1, past),
            (u64::MAX, past),
        ] {
            expect_fate(&rt, rt.alloc(), *version, (at, *size), fate)?;
        }
    }
    Ok(())
}

/// Asserts that regions of a size spell from version 2 on, and whether they do in version 1.
fn expect_larger(rt: &impl Abort, size: u64, in_version_1: bool) -> Result<(), Fail> {
    for made in [
        malloc(0x1000, size),
        unpoison(0x1000, size),
        poison(0, 0x1000, size),
    ] {
        let cases = [
            (made, Version::One, in_version_1),
            (made, Version::Two, true),
            (made, Version::Three, true),
        ];
        expect_spells(rt, &cases)?;
    }
    Ok(())
}

#[test]
fn larger_regions_do_not_spell_in_version_1(rt: HostRuntime) -> Result<(), Fail> {
    for (size, in_version_1) in [(1 << 28, true), ((1 << 28) + 1, false), (1 << 32, false)] {
        expect_larger(&rt, size, in_version_1)?;
    }
    let malloc = malloc(0x1000, 1 << 32)?;
    let record = [3, 0, 0x10, 0, 0, 0, 0, 0, 0, 0, 0, 0, 0, 1, 0, 0, 0];
    expect_record(&rt, Version::Two, &malloc, &record);
    expect_record(&rt, Version::Three, &malloc, &record);
    Ok(())
}

/// The kind of poison that each number stands for.
fn kind_of(number: u8) -> Option<Kind> {
    match number {
        0 => Some(Kind::User),
        1 => Some(Kind::Stack),
        2 => Some(Kind::Global),
        _ => None,
    }
}

/// The address, the size and the kind of the poison of these numbers, or their first flaw.
fn poison_parts(at: u64, size: u64, kind: u8) -> Result<(u64, u64, Kind), Flaw> {
    let shade = Shade::new(at, size, kind)?;
    Ok((shade.at(), shade.size(), shade.kind()))
}

/// Asserts what a poison of a kind of this number comes to, in a stream and by its parts.
fn expect_kind(rt: &impl Abort, alloc: Global, number: u8) -> Result<(), Fail> {
    let mut text = HALF_A_GRANULE;
    text[9] = number;
    let end = end_of(rt, alloc, 1 << 24, &text, 20)?;
    let parts = poison_parts(0x1004, 12, number);
    match kind_of(number) {
        Some(kind) => {
            expect_eq(rt, end, an_end(Fate::Closed, 2, 37));
            expect_eq(rt, parts, Ok((0x1004, 12, kind)));
        }
        None => {
            expect_eq(rt, end, an_end(Fate::Malformed(Flaw::Kind), 0, 8));
            expect_eq(rt, parts, Err(Flaw::Kind));
        }
    }
    Ok(())
}

/// Asserts that the first event of a stream is a poison of the kind of this number.
fn expect_first_kind(rt: &impl Abort, alloc: Global, number: u8) -> Result<(), Fail> {
    let mut text = HALF_A_GRANULE;
    text[9] = number;
    let events = events_of(alloc, &text, 20)?;
    expect_eq(rt, events.first(), Some(&poison(number, 0x1004, 12)?));
    Ok(())
}

#[test]
fn each_kind(rt: HostRuntime) -> Result<(), Fail> {
    for number in 0..=255u8 {
        expect_kind(&rt, rt.alloc(), number)?;
        if kind_of(number).is_some() {
            expect_first_kind(&rt, rt.alloc(), number)?;
        }
    }
    Ok(())
}

/// How three loads end behind a header.
fn end_behind(rt: &impl Abort, alloc: Global, header: &[u8; 8]) -> Result<End, Fail> {
    let mut text = LOADS;
    for (place, byte) in text.iter_mut().zip(header) {
        *place = *byte;
    }
    end_of(rt, alloc, 1 << 24, &text, 4)
}

#[test]
fn each_version(rt: HostRuntime) -> Result<(), Fail> {
    let refused = an_end(Fate::Malformed(Flaw::Header), 0, 0);
    for version in 0..=255u8 {
        let mut header = HEADER;
        header[4] = version;
        let want = match version {
            1..=3 => an_end(Fate::Closed, 3, 39),
            _ => refused,
        };
        let end = end_behind(&rt, rt.alloc(), &header)?;
        expect_eq_at(&rt, version, end, want);
    }
    for place in 5..8 {
        let mut header = HEADER_2;
        header[place] = 1;
        expect_eq(&rt, end_behind(&rt, rt.alloc(), &header)?, refused);
    }
    Ok(())
}

/// Asserts that the stream has the same events and the same end in a version.
fn expect_same_in(rt: &impl Abort, alloc: Global, version: u8) -> Result<(), Fail> {
    let mut text = STREAM;
    text[4] = version;
    for cut in 0..=STREAM.len() {
        let events = events_of(alloc, &STREAM, cut)?;
        let others = events_of(alloc, &text, cut)?;
        expect_at(rt, cut, events == others);
    }
    for cut in 0..=STREAM.len() {
        let first = end_of(rt, alloc, 1 << 24, &STREAM, cut)?;
        let second = end_of(rt, alloc, 1 << 24, &text, cut)?;
        expect_eq_at(rt, cut, first, second);
    }
    Ok(())
}

/// Records without poison mean the same in each version.
#[test]
fn other_records_are_those_of_version_1(rt: HostRuntime) -> Result<(), Fail> {
    expect_same_in(&rt, rt.alloc(), 2)?;
    expect_same_in(&rt, rt.alloc(), 3)
}

/// A malloc of 8 bytes at 0x1000, a poison of 6 bytes at 0x1002 and a load of a byte at 0x1003,
/// written for version 1.
#[test]
fn version_1_behind_the_header_of_version_2(rt: HostRuntime) -> Result<(), Fail> {
    let body = [
        3, 0, 0x10, 0, 0, 0, 0, 0, 0, 8, 0, 0, 0, 0, 0, 0, 0, 5, 2, 0x10, 0, 0, 0, 0, 0, 0, 6, 0,
        0, 0, 0, 0, 0, 0, 1, 1, 3, 0x10, 0, 0, 0, 0, 0, 0,
    ];
    for (header, end) in [
        (&HEADER, an_end(Fate::Closed, 3, 53)),
        (&HEADER_2, an_end(Fate::Malformed(Flaw::Size), 1, 25)),
    ] {
        expect_eq(&rt, end_in(&rt, rt.alloc(), header, &body)?, end);
    }
    Ok(())
}

#[test]
fn version_2_behind_the_header_of_version_1(rt: HostRuntime) -> Result<(), Fail> {
    let poison = [5, 1, 0, 0x20, 0, 0, 0, 0, 0, 0, 16, 0, 0, 0, 0, 0, 0, 0];
    for (header, end) in [
        (&HEADER_2, an_end(Fate::Closed, 1, 27)),
        (&HEADER, an_end(Fate::Malformed(Flaw::Code), 1, 25)),
    ] {
        expect_eq(&rt, end_in(&rt, rt.alloc(), header, &poison)?, end);
    }
    Ok(())
}

/// Asserts that a decoder behind the header of a version needs more than the first of these pieces,
/// and reads an event once it has this many bytes of the last.
fn expect_in_two(
    rt: &impl Abort,
    version: Version,
    event: Event,
    [first, last]: [&[u8]; 2],
    used: usize,
) -> Result<(), Fail> {
    let mut decoder = new_decoder(1)?;
    let _ = next(&mut decoder, &header_of(version));
    let cut = first.len();
    expect_eq_at(rt, cut, next(&mut decoder, first).out, Out::Need);
    let step = next(&mut decoder, last);
    expect_eq_at(rt, cut, step.out, Out::Got(event));
    expect_eq_at(rt, cut, step.used, used);
    Ok(())
}

/// The record of a poison, cut at each of its bytes, is read in each version.
#[test]
fn poison_cut_at_each_byte(rt: HostRuntime) -> Result<(), Fail> {
    for (version, made) in [
        (Version::One, poison(0, 0x1_0203_0405, 0xa0b_0c0d)),
        (Version::Two, poison(0, 0x1_0203_0405, 0xa0b_0c0d)),
        (Version::Two, poison(1, 0x1_0203_0405, 0xa0b_0c0d)),
        (Version::Two, poison(2, 0x1_0203_0405, 0xa0b_0c0d)),
        (Version::Two, poison(2, 0x1_0203_0405, 1 << 32)),
        (Version::Three, poison(2, 0x1_0203_0405, 1 << 32)),
    ] {
        let event = made?;
        let (record, length) = encoded(&rt, version, &event);
        for cut in 0..length {
            let pieces = [&record[..cut], &record[cut..]];
            expect_in_two(&rt, version, event, pieces, length - cut)?;
        }
    }
    Ok(())
}

#[test]
fn poison_is_spelled_by_version(rt: HostRuntime) -> Result<(), Fail> {
    let user = poison(0, 0x2000, 10);
    let stack = poison(1, 0x2000, 16);
    let global = poison(2, 0x2000, 1 << 28);
    let unpoison = unpoison(0x2000, 1 << 28);
    let spells = [
        (user, Version::One, true),
        (user, Version::Two, true),
        (stack, Version::One, false),
        (stack, Version::Two, true),
        (stack, Version::Three, true),
        (global, Version::One, false),
        (global, Version::Two, true),
        (unpoison, Version::One, true),
        (unpoison, Version::Two, true),
    ];
    expect_spells(&rt, &spells)?;
    let records: [(Made, [u8; 18]); 3] = [
        (
            user,
            [5, 0, 0, 0x20, 0, 0, 0, 0, 0, 0, 10, 0, 0, 0, 0, 0, 0, 0],
        ),
        (
            stack,
            [5, 1, 0, 0x20, 0, 0, 0, 0, 0, 0, 16, 0, 0, 0, 0, 0, 0, 0],
        ),
        (
            global,
            [5, 2, 0, 0x20, 0, 0, 0, 0, 0, 0, 0, 0, 0, 0x10, 0, 0, 0, 0],
        ),
    ];
    for (event, record) in records {
        let event = event?;
        expect_record(&rt, Version::Two, &event, &record);
        expect_record(&rt, Version::Three, &event, &record);
    }
    Ok(())
}

#[test]
fn size_and_kind_are_kept_apart(rt: HostRuntime) -> Result<(), Fail> {
    for (number, kind) in [(0, Kind::User), (1, Kind::Stack), (2, Kind::Global)] {
        for (at, size) in [
            (0, 0),
            (1, 1),
            (1 << 47, 0),
            ((1 << 47) - 3, 3),
            (9, 1 << 32),
            ((1 << 47) - (1 << 32), 1 << 32),
        ] {
            expect_eq(&rt, poison_parts(at, size, number), Ok((at, size, kind)));
        }
    }
    for (size, number, flaw) in [
        (u64::MAX, 3, Flaw::Kind),
        (u64::MAX, 2, Flaw::Size),
        ((1 << 32) + 1, 1, Flaw::Size),
        (1 << 32, 0, Flaw::Range),
    ] {
        expect_eq(&rt, poison_parts(u64::MAX, size, number), Err(flaw));
    }
    Ok(())
}
