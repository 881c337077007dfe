//! Tests of the decoder and the encoder by bytes and events that are written out.

ghost use Rattle.std.specs.Prelude.{◌≤◌, length};

mod version_2;
mod version_3;

use std::alloc::{AllocError, Global};
use std::fmt::Debug;
use std::process::Abort;
use std::test::Fail;
use trace_record::{
    Access, Ahead, CLOSE, Decoder, End, Event, Fate, Flaw, HEADER, HEADER_2, HEADER_3, Out, Place,
    RECORD_ROOM, Region, Shade, Step, Version, encode,
};

// What a macro writes is proved in each test that has it, so tests call these in place of std's
// asserts.

/// Asserts that a value is the one that is wanted.
fn expect_eq<T: Copy + PartialEq + Debug>(rt: &impl Abort, got: T, wanted: T) {
    assert_eq!(rt; got, wanted);
}

/// Asserts it at a place of a table, or in a turn of a loop, which a failure names.
fn expect_eq_at<P: Copy + Debug, T: Copy + PartialEq + Debug>(
    rt: &impl Abort,
    place: P,
    got: T,
    wanted: T,
) {
    assert_eq!(rt; got, wanted, "at {place:?}");
}

/// Asserts that something holds at a place of a table, or in a turn of a loop, which a failure
/// names.
fn expect_at<P: Copy + Debug>(rt: &impl Abort, place: P, holds: bool) {
    assert!(rt; holds, "at {place:?}");
}

/// The event of some numbers, or their first flaw. Tests put these into tables as they are, since a
/// `?` for each makes a test far dearer to prove.
type Made = Result<Event, Flaw>;

fn load(width: u8, at: u64) -> Made {
    Ok(Event::Load(Access::new(at, width)?))
}

fn store(width: u8, at: u64) -> Made {
    Ok(Event::Store(Access::new(at, width)?))
}

fn malloc(at: u64, size: u64) -> Made {
    Ok(Event::Malloc(Region::new(at, size)?))
}

fn free(at: u64) -> Made {
    Ok(Event::Free(Place::new(at)?))
}

/// A poison of the kind with this number: 0 for a user's, 1 for the stack's, 2 for a global's.
fn poison(kind: u8, at: u64, size: u64) -> Made {
    Ok(Event::Poison(Shade::new(at, size, kind)?))
}

fn unpoison(at: u64, size: u64) -> Made {
    Ok(Event::Unpoison(Region::new(at, size)?))
}

/// A malloc of 5 bytes at 0x1000, a store of 4 bytes at 0x1004, the close, and 20 bytes that nobody
/// reads.
const STREAM: [u8; 56] = [
    0x41, 0x53, 0x54, 0x52, 1, 0, 0, 0, 3, 0, 0x10, 0, 0, 0, 0, 0, 0, 5, 0, 0, 0, 0, 0, 0, 0, 2, 4,
    4, 0x10, 0, 0, 0, 0, 0, 0, 7, 1, 2, 3, 4, 5, 6, 7, 8, 9, 10, 11, 12, 13, 14, 15, 16, 17, 18,
    19, 20,
];

/// Its length up to the close.
const STREAM_LENGTH: usize = 36;

/// Three loads of a byte at 0x1000, and the close.
const LOADS: [u8; 39] = [
    0x41, 0x53, 0x54, 0x52, 1, 0, 0, 0, 1, 1, 0, 0x10, 0, 0, 0, 0, 0, 0, 1, 1, 0, 0x10, 0, 0, 0, 0,
    0, 0, 1, 1, 0, 0x10, 0, 0, 0, 0, 0, 0, 7,
];

fn an_end(fate: Fate, events: u64, offset: u64) -> End {
    End {
        fate,
        events,
        offset,
    }
}

// What a call of the product promises stays in view of all that follows it in a body. These helpers
// say no more of it than their callers need, so that the tests are cheap to prove.

/// A decoder that has read nothing.
fn new_decoder(limit: u32) -> Result<Decoder, Fail> {
    Ok(Decoder::new(limit).ok_or("no such limit")?)
}

/// What a decoder answers to a piece.
fn next(decoder: &mut Decoder, piece: &[u8]) -> Step
    ensures { result.used ≤ length piece.now }
{
    decoder.next(piece)
}

/// How a stream ends for a decoder where nothing more comes.
fn at_end(decoder: Decoder) -> End {
    decoder.at_end()
}

/// How a stream ends for a decoder where a read fails.
fn at_fault(decoder: Decoder) -> End {
    decoder.at_fault()
}

/// Gives a decoder all of a piece, up to an end, and keeps the events.
fn give(decoder: &mut Decoder, piece: &[u8], events: &mut Vec<Event>) -> Result<(), AllocError> {
    let mut rest = piece;
    for _ in 0..=piece.len() {
        let step = next(decoder, rest);
        rest = &rest[step.used..];
        match step.out {
            Out::Got(event) => events.push(event)?,
            Out::Need | Out::Stop(_) => return Ok(()),
        }
    }
    Ok(())
}

/// A decoder that was given a text in two pieces, and its events.
fn read(alloc: Global, limit: u32, text: &[u8], cut: usize) -> Result<(Decoder, Vec<Event>), Fail>
    requires { cut ≤ length text.now }
{
    let mut events = Vec::new(alloc);
    let mut decoder = new_decoder(limit)?;
    give(&mut decoder, &text[..cut], &mut events)?;
    give(&mut decoder, &text[cut..], &mut events)?;
    Ok((decoder, events))
}

/// A decoder that was given a text byte by byte, and its events.
fn read_by_bytes(alloc: Global, text: &[u8]) -> Result<(Decoder, Vec<Event>), Fail> {
    let mut events = Vec::new(alloc);
    let mut decoder = new_decoder(1 << 24)?;
    for byte in text.chunks(1) {
        give(&mut decoder, byte, &mut events)?;
    }
    Ok((decoder, events))
}

/// How a text ends that is given in two pieces, where nothing more comes. It gives as many events
/// as the end says.
fn end_of(rt: &impl Abort, alloc: Global, limit: u32, text: &[u8], cut: usize) -> Result<End, Fail>
    requires { cut ≤ length text.now }
{
    let (decoder, events) = read(alloc, limit, text, cut)?;
    let end = at_end(decoder);
    expect_eq_at(rt, cut, events.len() as u64, end.events);
    Ok(end)
}

/// The same where a read fails after the two pieces.
fn end_of_fault(
    rt: &impl Abort,
    alloc: Global,
    limit: u32,
    text: &[u8],
    cut: usize,
) -> Result<End, Fail>
    requires { cut ≤ length text.now }
{
    let (decoder, events) = read(alloc, limit, text, cut)?;
    let end = at_fault(decoder);
    expect_eq_at(rt, cut, events.len() as u64, end.events);
    Ok(end)
}

/// Asserts how texts end, each of which is given at once.
fn expect_ends(
    rt: &impl Abort,
    alloc: Global,
    limit: u32,
    ends: &[(&[u8], End)],
) -> Result<(), Fail> {
    for (text, want) in ends {
        expect_eq(rt, end_of(rt, alloc, limit, text, 0)?, *want);
    }
    Ok(())
}

/// The events of a text that is cut in two.
fn events_of(alloc: Global, text: &[u8], cut: usize) -> Result<Vec<Event>, Fail>
    requires { cut ≤ length text.now }
{
    let (_, events) = read(alloc, 1 << 24, text, cut)?;
    Ok(events)
}

/// Asserts that a text that is cut in two has these events and this end.
fn expect_cut(
    rt: &impl Abort,
    alloc: Global,
    text: &[u8],
    cut: usize,
    events: &[Event],
    end: End,
) -> Result<(), Fail>
    requires { cut ≤ length text.now }
{
    let got = events_of(alloc, text, cut)?;
    expect_eq_at(rt, cut, got.as_slice(), events);
    expect_eq_at(rt, cut, end_of(rt, alloc, 1 << 24, text, cut)?, end);
    Ok(())
}

/// Asserts that a text has these events and this end, wherever it is cut in two.
fn expect_cut_anywhere(
    rt: &impl Abort,
    alloc: Global,
    text: &[u8],
    events: &[Event],
    end: End,
) -> Result<(), Fail> {
    for cut in 0..=text.len() {
        expect_cut(rt, alloc, text, cut, events, end)?;
    }
    Ok(())
}

/// Asserts that a text that comes byte by byte has these events, and that its decoder has come to
/// this end then.
fn expect_by_bytes(
    rt: &impl Abort,
    alloc: Global,
    text: &[u8],
    events: &[Event],
    end: End,
) -> Result<(), Fail> {
    let (mut decoder, got) = read_by_bytes(alloc, text)?;
    expect_eq(rt, got.as_slice(), events);
    let out = Out::Stop(end);
    expect_eq(rt, next(&mut decoder, text), Step { used: 0, out });
    expect_eq(rt, at_fault(decoder), end);
    Ok(())
}

/// What a decoder that has read the header reads ahead of a piece, where four events have room.
fn read_ahead(limit: u32, piece: &[u8]) -> Result<Ahead, Fail> {
    let mut decoder = new_decoder(limit)?;
    let _ = next(&mut decoder, &HEADER);
    let mut events = [Event::Load(Access::new(0, 1)?); 4];
    Ok(decoder.next_events(piece, &mut events))
}

/// The header of a version.
fn header_of(version: Version) -> [u8; 8] {
    match version {
        Version::One => HEADER,
        Version::Two => HEADER_2,
        Version::Three => HEADER_3,
    }
}

/// A stream of one record and the close, behind this header.
fn stream_of(alloc: Global, header: &[u8; 8], record: &[u8]) -> Result<Vec<u8>, AllocError> {
    let mut text = Vec::new(alloc);
    text.extend_from_slice(header)?;
    text.extend_from_slice(record)?;
    text.push(CLOSE)?;
    Ok(text)
}

/// The end of a stream of one record and the close, behind this header.
fn end_in(rt: &impl Abort, alloc: Global, header: &[u8; 8], record: &[u8]) -> Result<End, Fail> {
    let text = stream_of(alloc, header, record)?;
    end_of(rt, alloc, 1 << 24, &text, 0)
}

/// The room of a record that holds a record and, after it, what was there.
fn room_with(record: &[u8]) -> [u8; RECORD_ROOM] {
    let mut room = [0xee; RECORD_ROOM];
    for (place, byte) in room.iter_mut().zip(record) {
        *place = *byte;
    }
    room
}

/// The record of an event in a version that it spells in, before what was in its room, and how many
/// bytes it has.
fn encoded(rt: &impl Abort, version: Version, event: &Event) -> ([u8; RECORD_ROOM], usize)
    ensures { result.1 ≤ 18 }
{
    assert!(rt; event.spells_in(version), "{event:?}");
    let mut out = [0xee; RECORD_ROOM];
    let length = encode(version, event, &mut out);
    (out, length)
}

/// Asserts that an event has this record in a version, and that the room after it stays.
fn expect_record(rt: &impl Abort, version: Version, event: &Event, record: &[u8]) {
    let wanted = (room_with(record), record.len());
    expect_eq_at(rt, event, encoded(rt, version, event), wanted);
}

/// Asserts of events and versions whether the one spells in the other.
fn expect_spells(rt: &impl Abort, cases: &[(Made, Version, bool)]) -> Result<(), Fail> {
    for (made, version, want) in cases {
        let event = (*made)?;
        expect_eq_at(rt, (event, version), event.spells_in(*version), *want);
    }
    Ok(())
}

/// Asserts that a text has these events, and this end where a read fails after it.
fn expect_fault(
    rt: &impl Abort,
    alloc: Global,
    text: &[u8],
    events: &[Event],
    end: End,
) -> Result<(), Fail> {
    expect_eq(rt, events_of(alloc, text, 0)?.as_slice(), events);
    expect_eq(rt, end_of_fault(rt, alloc, 1 << 24, text, 0)?, end);
    Ok(())
}

#[test]
fn cut_anywhere(rt: HostRuntime) -> Result<(), Fail> {
    let alloc = rt.alloc();
    let events = [malloc(0x1000, 5)?, store(4, 0x1004)?];
    let closed = an_end(Fate::Closed, 2, 36);
    let failed = an_end(Fate::ReadFailed, 1, 25);
    expect_cut_anywhere(&rt, alloc, &STREAM, &events, closed)?;
    expect_by_bytes(&rt, alloc, &STREAM, &events, closed)?;
    expect_fault(&rt, alloc, &STREAM[..STREAM_LENGTH], &events, closed)?;
    expect_fault(&rt, alloc, &STREAM[..30], &events[..1], failed)
}

#[test]
fn empty_and_header_alone(rt: HostRuntime) -> Result<(), Fail> {
    let mut other = HEADER;
    other[3] = 0x58;
    let ends = [
        (&HEADER[..0], an_end(Fate::Truncated, 0, 0)),
        (&HEADER[..], an_end(Fate::NoClose, 0, 8)),
        (&other[..], an_end(Fate::Malformed(Flaw::Header), 0, 0)),
        (&other[..7], an_end(Fate::Truncated, 0, 0)),
    ];
    expect_ends(&rt, rt.alloc(), 1, &ends)
}

/// Asserts how a text ends, wherever it is cut in two.
fn expect_end_anywhere(rt: &impl Abort, alloc: Global, text: &[u8], want: End) -> Result<(), Fail> {
    for cut in 0..=text.len() {
        let end = end_of(rt, alloc, 1 << 24, text, cut)?;
        expect_eq_at(rt, cut, end, want);
    }
    Ok(())
}

#[test]
fn unknown_code(rt: HostRuntime) -> Result<(), Fail> {
    let mut text = STREAM;
    text[25] = 9;
    let unknown = an_end(Fate::Malformed(Flaw::Code), 1, 25);
    expect_end_anywhere(&rt, rt.alloc(), &text, unknown)?;
    let end = end_of_fault(&rt, rt.alloc(), 1 << 24, &text[..26], 0)?;
    expect_eq(&rt, end, unknown);
    Ok(())
}

#[test]
fn record_limit(rt: HostRuntime) -> Result<(), Fail> {
    let mut closed = LOADS;
    closed[28] = CLOSE;
    let mut unknown = LOADS;
    unknown[28] = 9;
    let ends = [
        (&closed[..], an_end(Fate::Closed, 2, 29)),
        (&LOADS[..], an_end(Fate::TooMany, 2, 28)),
        (&unknown[..], an_end(Fate::TooMany, 2, 28)),
        (&LOADS[..28], an_end(Fate::NoClose, 2, 28)),
    ];
    expect_ends(&rt, rt.alloc(), 2, &ends)
}

#[test]
fn whole_records_are_read_ahead(rt: HostRuntime) -> Result<(), Fail> {
    let mut flawed = LOADS;
    flawed[19] = 3;
    let mut unknown = LOADS;
    unknown[18] = 9;
    let pieces: [(&[u8], u32, Ahead); 7] = [
        (&LOADS[8..38], 1 << 24, Ahead { count: 3, used: 30 }),
        (&LOADS[8..37], 1 << 24, Ahead { count: 2, used: 20 }),
        (&LOADS[8..], 1 << 24, Ahead { count: 3, used: 30 }),
        (&LOADS[8..], 2, Ahead { count: 2, used: 20 }),
        (&flawed[8..], 1 << 24, Ahead { count: 1, used: 10 }),
        (&unknown[8..], 1 << 24, Ahead { count: 1, used: 10 }),
        (&LOADS[8..8], 1 << 24, Ahead { count: 0, used: 0 }),
    ];
    for (piece, limit, want) in pieces {
        expect_eq(&rt, read_ahead(limit, piece)?, want);
    }
    Ok(())
}

/// A call of a decoder with the bytes of the stream from one place up to another, and the right
/// answer.
#[derive(Clone, Copy)]
enum Call {
    /// `next`, and what it makes of them.
    Next(usize, usize, Out),
    /// `next_events` where this many events have room, at most four, what it reads ahead, and the
    /// first of the events.
    Ahead(usize, usize, usize, Ahead, Option<Event>),
}

/// What a decoder reads ahead of a piece where this many events have room, at most four, and the
/// first of the events.
fn ahead_of(
    decoder: &mut Decoder,
    room: usize,
    piece: &[u8],
) -> Result<(Ahead, Option<Event>), Flaw> {
    let mut events = [load(1, 0)?; 4];
    let events = &mut events[..room.min(4)];
    let ahead = decoder.next_events(piece, events);
    match ahead.count {
        0 => Ok((ahead, None)),
        _ => Ok((ahead, events.first().copied())),
    }
}

/// Makes a call of this number, and compares the answer.
fn expect_answer(
    rt: &impl Abort,
    decoder: &mut Decoder,
    number: usize,
    call: Call,
) -> Result<(), Fail> {
    match call {
        Call::Next(from, to, out) => {
            let piece = STREAM.get(from..to).ok_or("no such piece")?;
            expect_eq_at(rt, number, next(decoder, piece).out, out);
        }
        Call::Ahead(room, from, to, ahead, first) => {
            let piece = STREAM.get(from..to).ok_or("no such piece")?;
            let answer = ahead_of(decoder, room, piece)?;
            expect_eq_at(rt, number, answer, (ahead, first));
        }
    }
    Ok(())
}

#[test]
fn reading_ahead_leaves_the_rest_for_next(rt: HostRuntime) -> Result<(), Fail> {
    let malloc = malloc(0x1000, 5)?;
    let store = store(4, 0x1004)?;
    let none = Ahead { count: 0, used: 0 };
    let one = Ahead { count: 1, used: 17 };
    let closed = Out::Stop(an_end(Fate::Closed, 2, 36));
    let calls = [
        Call::Ahead(1, 0, 56, none, None),
        Call::Next(0, 8, Out::Need),
        Call::Ahead(1, 8, 56, one, Some(malloc)),
        Call::Next(25, 30, Out::Need),
        Call::Ahead(4, 30, 56, none, None),
        Call::Next(30, 56, Out::Got(store)),
        Call::Ahead(4, 35, 56, none, None),
        Call::Next(35, 56, closed),
        Call::Ahead(4, 8, 56, none, None),
        Call::Next(0, 56, closed),
    ];
    let mut decoder = new_decoder(1 << 24)?;
    for (number, call) in calls.iter().enumerate() {
        expect_answer(&rt, &mut decoder, number, *call)?;
    }
    Ok(())
}

/// Asserts that an event has this record in each version, or in version 1 alone if it is a poison:
/// the record of one is another from version 2 on.
fn expect_record_in_each(rt: &impl Abort, event: Event, record: &[u8]) {
    expect_record(rt, Version::One, &event, record);
    if !matches!(event, Event::Poison(_)) {
        expect_record(rt, Version::Two, &event, record);
        expect_record(rt, Version::Three, &event, record);
    }
}

#[test]
fn encoded_events(rt: HostRuntime) -> Result<(), Fail> {
    let records: [(Made, &[u8]); 7] = [
        (
            malloc(0x1000, 5),
            &[3, 0, 0x10, 0, 0, 0, 0, 0, 0, 5, 0, 0, 0, 0, 0, 0, 0],
        ),
        (store(4, 0x1004), &[2, 4, 4, 0x10, 0, 0, 0, 0, 0, 0]),
        (
            load(8, 0x7fff_ffff_fff8),
            &[1, 8, 0xf8, 0xff, 0xff, 0xff, 0xff, 0x7f, 0, 0],
        ),
        (free(0x1000), &[4, 0, 0x10, 0, 0, 0, 0, 0, 0]),
        (
            poison(0, 0x2000, 10),
            &[5, 0, 0x20, 0, 0, 0, 0, 0, 0, 10, 0, 0, 0, 0, 0, 0, 0],
        ),
        (
            unpoison(0x2000, 3),
            &[6, 0, 0x20, 0, 0, 0, 0, 0, 0, 3, 0, 0, 0, 0, 0, 0, 0],
        ),
        (
            malloc(0x1004, 1 << 28),
            &[3, 4, 0x10, 0, 0, 0, 0, 0, 0, 0, 0, 0, 0x10, 0, 0, 0, 0],
        ),
    ];
    for (made, record) in &records {
        expect_record_in_each(&rt, (*made)?, record);
    }
    Ok(())
}

#[test]
fn refused_arguments(rt: HostRuntime) {
    for limit in [0, (1 << 24) + 1] {
        assert!(rt; Decoder::new(limit).is_none());
    }
    let flaws = [
        (load(3, 0x1000), Flaw::Width),
        (load(1, u64::MAX), Flaw::Range),
        (malloc(u64::MAX, 1), Flaw::Range),
        (malloc(u64::MAX, 1 << 32), Flaw::Range),
        (malloc(u64::MAX, (1 << 32) + 1), Flaw::Size),
        (free(1 << 47), Flaw::Range),
    ];
    for (event, flaw) in &flaws {
        expect_eq(&rt, *event, Err(*flaw));
    }
}

#[test]
fn texts_of_flaws(rt: HostRuntime) -> Result<(), Fail> {
    for (flaw, wanted) in [
        (Flaw::Header, "the first eight bytes are not the header"),
        (Flaw::Code, "a record begins with an unknown code"),
        (Flaw::Width, "the width of an access is not 1, 2, 4 or 8"),
        (
            Flaw::Size,
            "a region has more bytes than the version allows",
        ),
        (Flaw::Range, "a record reaches past the last address"),
        (Flaw::Kind, "the kind of a poison is none of 0, 1 and 2"),
    ] {
        let text = format!(in rt.alloc(); "{flaw}")?;
        expect_eq(&rt, text.as_str(), wanted);
    }
    Ok(())
}
