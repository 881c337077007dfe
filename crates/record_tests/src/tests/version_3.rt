//! Tests of version 3: a history that begins anew.

use super::{
    Made, an_end, encoded, end_in, end_of, end_of_fault, expect_by_bytes, expect_cut_anywhere,
    expect_ends, expect_eq, expect_eq_at, expect_record, expect_spells, header_of, load, malloc,
    new_decoder, next, poison,
};
use std::test::Fail;
use trace_record::{Ahead, End, Event, Fate, Flaw, HEADER, HEADER_2, HEADER_3, Out, Version};

/// A malloc of 8 bytes at 0x1000, an anew, a poison of kind 1 of 16 bytes at 0x2000, an anew, a
/// load of a byte at 0x1000, and the close.
const TWICE: [u8; 56] = [
    0x41, 0x53, 0x54, 0x52, 3, 0, 0, 0, 3, 0, 0x10, 0, 0, 0, 0, 0, 0, 8, 0, 0, 0, 0, 0, 0, 0, 8, 5,
    1, 0, 0x20, 0, 0, 0, 0, 0, 0, 16, 0, 0, 0, 0, 0, 0, 0, 8, 1, 1, 0, 0x10, 0, 0, 0, 0, 0, 0, 7,
];

/// Three anews, and the close.
const THREE: [u8; 12] = [0x41, 0x53, 0x54, 0x52, 3, 0, 0, 0, 8, 8, 8, 7];

/// The events of the first stream.
fn events_of_twice() -> Result<[Event; 5], Fail> {
    Ok([
        malloc(0x1000, 8)?,
        Event::Anew,
        poison(1, 0x2000, 16)?,
        Event::Anew,
        load(1, 0x1000)?,
    ])
}

/// What is read ahead of the records of the first stream, where eight events have room, and the
/// events.
fn read_twice_ahead() -> Result<(Ahead, [Event; 8]), Fail> {
    let mut ahead = [Event::Anew; 8];
    let mut decoder = new_decoder(1 << 24)?;
    let _ = next(&mut decoder, &TWICE[..8]);
    let answer = decoder.next_events(&TWICE[8..], &mut ahead);
    Ok((answer, ahead))
}

#[test]
fn anew_cut_anywhere(rt: HostRuntime) -> Result<(), Fail> {
    let events = events_of_twice()?;
    let closed = an_end(Fate::Closed, 5, 56);
    expect_cut_anywhere(&rt, rt.alloc(), &TWICE, &events, closed)?;
    expect_by_bytes(&rt, rt.alloc(), &TWICE, &events, closed)?;
    let (answer, ahead) = read_twice_ahead()?;
    expect_eq(&rt, answer, Ahead { count: 5, used: 47 });
    assert!(rt; ahead.starts_with(&events));
    Ok(())
}

/// How the first bytes of the first stream end, this many of them, where nothing more comes.
fn end_of_prefix(length: usize) -> End {
    match length {
        0..=7 => an_end(Fate::Truncated, 0, 0),
        8 => an_end(Fate::NoClose, 0, 8),
        9..=24 => an_end(Fate::Truncated, 0, 8),
        25 => an_end(Fate::NoClose, 1, 25),
        26 => an_end(Fate::NoClose, 2, 26),
        27..=43 => an_end(Fate::Truncated, 2, 26),
        44 => an_end(Fate::NoClose, 3, 44),
        45 => an_end(Fate::NoClose, 4, 45),
        46..=54 => an_end(Fate::Truncated, 4, 45),
        55 => an_end(Fate::NoClose, 5, 55),
        _ => an_end(Fate::Closed, 5, 56),
    }
}

/// How they end where a read fails after them.
fn fault_of_prefix(length: usize) -> End {
    let end = end_of_prefix(length);
    match end.fate {
        Fate::Closed => end,
        _ => an_end(Fate::ReadFailed, end.events, end.offset),
    }
}

/// What each prefix of a stream comes to where nothing more comes, and where a read fails.
#[test]
fn each_prefix_of_an_anew(rt: HostRuntime) -> Result<(), Fail> {
    for length in 0..=TWICE.len() {
        let prefix = &TWICE[..length];
        let end = end_of(&rt, rt.alloc(), 1 << 24, prefix, 0)?;
        expect_eq_at(&rt, length, end, end_of_prefix(length));
        let end = end_of_fault(&rt, rt.alloc(), 1 << 24, prefix, 0)?;
        expect_eq_at(&rt, length, end, fault_of_prefix(length));
    }
    Ok(())
}

#[test]
fn anew_spells_in_version_3_alone(rt: HostRuntime) -> Result<(), Fail> {
    let anew: Made = Ok(Event::Anew);
    let spells = [
        (anew, Version::One, false),
        (anew, Version::Two, false),
        (anew, Version::Three, true),
    ];
    expect_spells(&rt, &spells)?;
    expect_record(&rt, Version::Three, &Event::Anew, &[8]);
    Ok(())
}

/// The code has no record before version 3.
#[test]
fn anew_behind_each_header(rt: HostRuntime) -> Result<(), Fail> {
    for (header, end) in [
        (&HEADER, an_end(Fate::Malformed(Flaw::Code), 0, 8)),
        (&HEADER_2, an_end(Fate::Malformed(Flaw::Code), 0, 8)),
        (&HEADER_3, an_end(Fate::Closed, 1, 10)),
    ] {
        expect_eq(&rt, end_in(&rt, rt.alloc(), header, &[8])?, end);
    }
    Ok(())
}

/// The record is read as soon as its one byte has come, and no byte after it.
#[test]
fn anew_is_read_at_once(rt: HostRuntime) -> Result<(), Fail> {
    let (record, length) = encoded(&rt, Version::Three, &Event::Anew);
    expect_eq(&rt, length, 1);
    let mut decoder = new_decoder(2)?;
    let _ = next(&mut decoder, &header_of(Version::Three));
    for _ in 0..2 {
        let step = next(&mut decoder, &record);
        expect_eq(&rt, step.out, Out::Got(Event::Anew));
        expect_eq(&rt, step.used, 1);
    }
    Ok(())
}

#[test]
fn anew_counts_for_the_limit(rt: HostRuntime) -> Result<(), Fail> {
    let many = [
        (&THREE[..], an_end(Fate::TooMany, 2, 10)),
        (&THREE[..10], an_end(Fate::NoClose, 2, 10)),
        (&THREE[..9], an_end(Fate::NoClose, 1, 9)),
    ];
    expect_ends(&rt, rt.alloc(), 2, &many)?;
    let closed = [(&THREE[..], an_end(Fate::Closed, 3, 12))];
    expect_ends(&rt, rt.alloc(), 3, &closed)
}
