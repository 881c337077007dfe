//! Tests of feeds, and the tables of reads by which a feed is tested.

use super::expect_eq_at;
use std::alloc::{AllocError, Global};
use std::io;
use std::io::{Error, ErrorKind, Read, Write};
use std::process::Abort;
use std::test::Fail;
use trace_feed::{Feed, FeedFault, MemFeed, ReadFeed};

pub const TRACE: [u8; 36] = [
    // the header
    0x41, 0x53, 0x54, 0x52, 1, 0, 0, 0,
    // a block of 5 bytes at 0x1000
    3, 0x00, 0x10, 0, 0, 0, 0, 0, 0, 5, 0, 0, 0, 0, 0, 0, 0,
    // a store of 4 bytes at 0x1004
    2, 4, 0x04, 0x10, 0, 0, 0, 0, 0, 0,
    // the close
    7,
];

/// A read of a feed: how much room it is given, at most 64 bytes, which bytes it gives or that it
/// fails, and how many reads have failed then.
pub type Reading = (usize, Result<&'static [u8], FeedFault>, u64);

/// Reads once. No clause says what comes, here and in the helpers of the other tests, so the proof
/// of a test never has the clauses of the product in view.
fn read<F: Feed>(rt: &impl Abort, feed: &mut F, room: &mut [u8]) -> Result<usize, FeedFault> {
    assert!(rt; feed.faults() < u64::MAX);
    feed.next(room)
}

/// Makes these reads in order, and compares what comes.
pub fn expect_reads<F: Feed>(rt: &impl Abort, feed: &mut F, readings: &[Reading]) {
    for (number, (room, wanted, faults)) in readings.iter().enumerate() {
        let mut buf = [0u8; 64];
        let given = read(rt, feed, buf.get_mut(..*room).unwrap_or(&mut []));
        let given = given.map(|count| buf.get(..count).unwrap_or(&[]));
        expect_eq_at(rt, number, given, *wanted);
        expect_eq_at(rt, number, feed.faults(), *faults);
    }
}

/// A feed of the trace whose reads are cut at these places and fail at one.
fn feed_of(alloc: Global, cuts: &[u64], fail_at: Option<u64>) -> Result<MemFeed, AllocError> {
    Ok(MemFeed::new(TRACE.to_vec(alloc)?, cuts.to_vec(alloc)?, fail_at))
}

#[test]
fn cut_feed_with_a_failing_place(rt: HostRuntime) -> Result<(), Fail> {
    let readings = [
        (64, Ok(&TRACE[..10]), 0),
        (64, Ok(&TRACE[10..30]), 0),
        (64, Err(FeedFault), 1),
        (64, Err(FeedFault), 2),
    ];
    expect_reads(&rt, &mut feed_of(rt.alloc(), &[10], Some(30))?, &readings);
    Ok(())
}

#[test]
fn six_bytes_follow_the_failing_place(rt: HostRuntime) -> Result<(), Fail> {
    let readings = [
        (64, Ok(&TRACE[..10]), 0),
        (64, Ok(&TRACE[10..30]), 0),
        (64, Ok(&TRACE[30..]), 0),
        (64, Ok(&[]), 0),
    ];
    expect_reads(&rt, &mut feed_of(rt.alloc(), &[30, 10], None)?, &readings);
    Ok(())
}

#[test]
fn a_reader_gives_its_bytes_and_then_none(rt: HostRuntime) {
    let mut feed = ReadFeed::new(b"hello".as_slice());
    let readings = [
        (3, Ok(b"hel".as_slice()), 0),
        (3, Ok(b"lo"), 0),
        (3, Ok(b""), 0),
        (3, Ok(b""), 0),
    ];
    expect_reads(&rt, &mut feed, &readings);
}

#[test]
fn a_reader_is_asked_for_as_much_as_there_is_room_for(rt: HostRuntime) {
    let mut feed = ReadFeed::new([7; 5000].as_slice());
    for given in [4096, 904, 0] {
        let count = read(&rt, &mut feed, &mut [0; 4096]);
        expect_eq_at(&rt, given, count, Ok(given));
    }
}

/// The kinds of error that a read or a write may fail with.
pub const KINDS: [ErrorKind; 10] = [
    ErrorKind::Interrupted,
    ErrorKind::WouldBlock,
    ErrorKind::TimedOut,
    ErrorKind::ConnectionReset,
    ErrorKind::BrokenPipe,
    ErrorKind::UnexpectedEof,
    ErrorKind::WriteZero,
    ErrorKind::InvalidInput,
    ErrorKind::OutOfMemory,
    ErrorKind::Other,
];

/// A reader and a writer of which every second call fails, and each other one moves one byte.
#[derive(Drop)]
pub struct EverySecond {
    pub kind: ErrorKind,
    pub calls: u64,
}

impl EverySecond {
    ghost use Rattle.std.specs.Prelude.{◌≤◌, IfOk};

    fn turn(&mut self, room: usize) -> io::Result<usize>
        ensures { IfOk result (λ n. n ≤ room) }
    {
        self.calls = self.calls.saturating_add(1);
        if self.calls.is_multiple_of(2) {
            return Err(Error::from(self.kind));
        }
        Ok(room.min(1))
    }
}

impl Read for EverySecond {
    fn read(&mut self, buf: &mut [u8]) -> io::Result<usize> {
        self.turn(buf.len())
    }
}

impl Write for EverySecond {
    fn write(&mut self, buf: &[u8]) -> io::Result<usize> {
        self.turn(buf.len())
    }

    fn flush(&mut self) -> io::Result<()> {
        Ok(())
    }
}

#[test]
fn each_read_that_fails_is_one_fault(rt: HostRuntime) {
    // A read that moves a byte leaves it as it was.
    let readings = [
        (8, Ok([0].as_slice()), 0),
        (8, Err(FeedFault), 1),
        (8, Ok(&[0]), 1),
        (8, Err(FeedFault), 2),
    ];
    for kind in KINDS {
        let mut feed = ReadFeed::new(EverySecond { kind, calls: 0 });
        expect_reads(&rt, &mut feed, &readings);
    }
}
