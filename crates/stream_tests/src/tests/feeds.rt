//! Tests of `check_feed` over feeds that are cut, that fail and that end early.

ghost use Rattle.std.specs.Prelude.{◌≡◌, ◌≤◌};

use super::{expect_eq, expect_eq_at, outcome_of_feed, text_and_status};
use asan_stream::{BadOption, Options, Outcome, check_feed};
use std::alloc::Global;
use std::process::Abort;
use std::test::Fail;
use test_streams::{LENGTH, STREAM_AND_MORE, TEXT, feed_of};
use trace_feed::{Feed, FeedFault, MemFeed};
use trace_record::{End, Fate};

/// What is printed of the first process whose feed is this one, and the status.
fn printed(alloc: Global, feed: MemFeed, options: Options) -> Result<(String, u8), Fail>
    requires { feed.faults ≡ 0 }
{
    text_and_status(alloc, &[check_feed(alloc, feed, options)])
}

#[test]
fn printed_alike_wherever_it_is_cut(rt: HostRuntime) -> Result<(), Fail> {
    let alloc = rt.alloc();
    let options = Options::usual();
    for cut in 0..=56u64 {
        for (length, fail_at) in [
            (LENGTH, None),
            (STREAM_AND_MORE.len(), None),
            (STREAM_AND_MORE.len(), Some(36)),
        ] {
            let feed = feed_of(alloc, &STREAM_AND_MORE[..length], &[cut], fail_at)?;
            let (text, status) = printed(alloc, feed, options)?;
            expect_eq_at(&rt, cut, text.as_str(), TEXT);
            expect_eq(&rt, status, 1);
        }
    }
    let mut places = [0; LENGTH];
    for (index, place) in places.iter_mut().enumerate() {
        *place = index as u64;
    }
    let (text, _) = printed(
        alloc,
        feed_of(alloc, &STREAM_AND_MORE, &places, None)?,
        options,
    )?;
    expect_eq_at(&rt, "byte by byte", text.as_str(), TEXT);
    Ok(())
}

#[test]
fn unknown_code_ends_a_feed(rt: HostRuntime) -> Result<(), Fail> {
    let alloc = rt.alloc();
    let mut bytes = STREAM_AND_MORE;
    bytes[25] = 9;
    for cut in 0..=56u64 {
        for (length, fail_at) in [(26, None), (bytes.len(), None), (26, Some(26))] {
            let feed = feed_of(alloc, &bytes[..length], &[cut], fail_at)?;
            let (text, status) = printed(alloc, feed, Options::usual())?;
            expect_eq_at(
                &rt,
                cut,
                text.as_str(),
                "p0 end malformed code events 1 offset 25 reports 0\n",
            );
            expect_eq(&rt, status, 3);
        }
    }
    Ok(())
}

/// How the first bytes of the stream end where no more come, and how many reports they have.
fn end_of_first(length: usize) -> (End, usize) {
    let (fate, events, offset, reports) = match length {
        0..8 => (Fate::Truncated, 0, 0, 0),
        8 => (Fate::NoClose, 0, 8, 0),
        9..25 => (Fate::Truncated, 0, 8, 0),
        25 => (Fate::NoClose, 1, 25, 0),
        26..35 => (Fate::Truncated, 1, 25, 0),
        35 => (Fate::NoClose, 2, 35, 1),
        _ => (Fate::Closed, 2, 36, 1),
    };
    let end = End {
        fate,
        events,
        offset,
    };
    (end, reports)
}

/// How the first bytes of the stream end, where the read after them fails or no more come, and how
/// many reports and failed reads they have.
fn found_of_first(
    rt: &impl Abort,
    alloc: Global,
    length: usize,
    fails: bool,
) -> Result<(End, usize, u64), Fail>
    requires { length ≤ 36 }
{
    let feed = if fails {
        feed_of(alloc, &STREAM_AND_MORE, &[], Some(length as u64))?
    } else {
        feed_of(alloc, &STREAM_AND_MORE[..length], &[], None)?
    };
    match outcome_of_feed(alloc, feed, Options::usual()) {
        Outcome::Settled { feed, end, reports } => Ok((end, reports.len(), feed.faults())),
        _ => panic!(rt; "memory is ample"),
    }
}

#[test]
fn every_truncation(rt: HostRuntime) -> Result<(), Fail> {
    for length in 0..=LENGTH {
        let (mut wanted, count) = end_of_first(length);
        let found = found_of_first(&rt, rt.alloc(), length, false)?;
        expect_eq_at(&rt, length, found, (wanted, count, 0));
        let mut faults = 0;
        if length < LENGTH {
            wanted.fate = Fate::ReadFailed;
            faults = 1;
        }
        let found = found_of_first(&rt, rt.alloc(), length, true)?;
        expect_eq_at(&rt, length, found, (wanted, count, faults));
    }
    Ok(())
}

#[test]
fn refused_options(rt: HostRuntime) {
    for (quarantine, ring, workers, limit, bad) in [
        ((1 << 40) + 1, 0, 0, 0, Some(BadOption::Quarantine)),
        (0, 0, 0, 0, Some(BadOption::Ring)),
        (0, 65_537, 0, 0, Some(BadOption::Ring)),
        (0, 1, 0, 0, Some(BadOption::Workers)),
        (0, 1, 65, 0, Some(BadOption::Workers)),
        (0, 1, 1, 0, Some(BadOption::Limit)),
        (0, 1, 1, (1 << 24) + 1, Some(BadOption::Limit)),
        (0, 1, 1, 1, None),
        (1 << 40, 65_536, 64, 1 << 24, None),
    ] {
        expect_eq(
            &rt,
            Options::new(quarantine, ring, workers, limit).err(),
            bad,
        );
    }
}

#[test]
fn texts_of_refused_options(rt: HostRuntime) -> Result<(), Fail> {
    for (bad, wanted) in [
        (BadOption::Quarantine, "the quarantine is over 2^40 bytes"),
        (BadOption::Ring, "the ring is not of 1 to 65,536 items"),
        (BadOption::Workers, "the workers are not 1 to 64"),
        (BadOption::Limit, "the event limit is not 1 to 2^24"),
        (BadOption::Memory, "the memory is not 2^20 to 2^40 bytes"),
    ] {
        let text = format!(in rt.alloc(); "{bad}")?;
        expect_eq(&rt, text.as_str(), wanted);
    }
    Ok(())
}

/// A feed that counts its reads.
#[derive(Drop)]
struct Counted {
    feed: MemFeed,
    reads: u64,
}

impl Feed for Counted {
    ghost use Rattle.std.specs.Prelude.{None};

    ghost seen = { λ c. record { to_come = None; faults = c.feed.faults } };

    fn next(&mut self, buf: &mut [u8]) -> Result<usize, FeedFault> {
        self.reads = self.reads.saturating_add(1);
        self.feed.next(buf)
    }

    fn faults(&self) -> u64 {
        self.feed.faults()
    }
}

/// 1,000 frees at 0 and the close, of 9,009 bytes in all, come by three reads.
#[test]
fn few_reads_take_many_records(rt: HostRuntime) -> Result<(), Fail> {
    let mut bytes = STREAM_AND_MORE[..8].to_vec(rt.alloc())?;
    for _ in 0..1000 {
        bytes.extend_from_slice(&[4, 0, 0, 0, 0, 0, 0, 0, 0])?;
    }
    bytes.push(7)?;
    let feed = feed_of(rt.alloc(), &bytes, &[], None)?;
    let outcome = check_feed(rt.alloc(), Counted { feed, reads: 0 }, Options::usual());
    let Outcome::Settled { feed, end, .. } = outcome else {
        panic!(rt; "it was read");
    };
    expect_eq(&rt, (end.fate, end.events), (Fate::Closed, 1000));
    expect_eq(&rt, feed.reads, 3);
    Ok(())
}

/// How often a feed of the first bytes of the stream is asked, where the read after them fails or
/// no more come.
fn reads_of_first(rt: &impl Abort, alloc: Global, length: usize, fails: bool) -> Result<u64, Fail>
    requires { length ≤ 36 }
{
    let fail_at = if fails { Some(length as u64) } else { None };
    let feed = feed_of(alloc, &STREAM_AND_MORE[..length], &[], fail_at)?;
    match check_feed(alloc, Counted { feed, reads: 0 }, Options::usual()) {
        Outcome::Settled { feed, .. } => Ok(feed.reads),
        _ => panic!(rt; "memory is ample"),
    }
}

#[test]
fn a_feed_that_has_ended_is_not_asked_again(rt: HostRuntime) -> Result<(), Fail> {
    for fails in [false, true] {
        for (length, reads) in [(0, 1), (8, 2), (30, 2), (35, 2)] {
            let found = reads_of_first(&rt, rt.alloc(), length, fails)?;
            expect_eq_at(&rt, length, found, reads);
        }
    }
    Ok(())
}
