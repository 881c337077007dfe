//! Tests of many senders at once: doors that they come through, and what is printed of them.

ghost use Rattle.std.specs.Prelude.{◌≡◌, ◌≤◌, All, length};
ghost use Rattle.asan_stream.specs.Outcomes.{reports_of};
ghost use Rattle.asan_stream.specs.Ranges.{most_reports};
ghost use Rattle.asan_senders.specs.Ranges.{most_senders};

mod alone;
mod collect;
mod damage;
mod failures;
mod large;
mod live;
mod missing;
mod overlap;
mod own_memory;
mod patience;
mod reading;
mod refusals;
mod versions;

use asan_collect::{Options, Outcome, check_feed, exit_status, write_outcomes};
use std::alloc::Global;
use std::fmt::Debug;
use std::process::Abort;
use std::sync::atomic::{AtomicU64, Ordering};
use std::test::Fail;
use std::thread;
use test_streams::{STREAM, feed_of};
use trace_feed::{Arrival, Door, MemFeed};

/// How many turns something waits at most.
const MAX_TURNS: u32 = 10_000_000;

// What a macro writes is proved in each test that has it, so tests call these in place of std's
// asserts.

/// Asserts that a value is the one that is wanted.
fn expect_eq<T: Copy + PartialEq + Debug>(rt: &impl Abort, got: T, wanted: T) {
    assert_eq!(rt; got, wanted);
}

/// Asserts it at a place of a table, or in a turn of a loop, which a failure names.
fn expect_eq_at<P: Copy + Debug, T: Copy + PartialEq + Debug>(
    rt: &impl Abort,
    place: P,
    got: T,
    wanted: T,
) {
    assert_eq!(rt; got, wanted, "at {place:?}");
}

/// Asserts that something holds at a place of a table, or in a turn of a loop, which a failure
/// names.
fn expect_at<P: Copy + Debug>(rt: &impl Abort, place: P, holds: bool) {
    assert!(rt; holds, "at {place:?}");
}

/// Waits until the counter has come so far, yielding the processor in each turn, and answers
/// whether it has.
fn wait_until(counter: &AtomicU64, least: u64) -> bool {
    for _ in 0..MAX_TURNS {
        if counter.load(Ordering::SeqCst) >= least {
            return true;
        }
        thread::yield_now();
    }
    false
}

/// Waits until the flag is set, and answers whether it was.
fn wait_for(flag: &AtomicU64) -> bool {
    wait_until(flag, 1)
}

// What a call of the product promises stays in view of all that follows it in a body. These helpers
// say nothing of it, so that the tests are cheap to prove.

/// What becomes of a feed.
fn outcome_of_feed(alloc: Global, feed: MemFeed, options: Options) -> Outcome<MemFeed>
    requires { feed.faults ≡ 0 }
{
    check_feed(alloc, feed, options)
}

/// What is printed of these outcomes.
fn text_of<F>(alloc: Global, outcomes: &[Outcome<F>]) -> Result<String, Fail>
    requires senders { length outcomes.now ≤ most_senders }
    requires reports { All (λ o. length (reports_of o) ≤ most_reports) outcomes.now }
{
    let mut text = Vec::new(alloc);
    write_outcomes(alloc, &mut text, outcomes)?;
    Ok(String::from_utf8(text)?)
}

/// What is printed of these outcomes, and the status.
fn text_and_status<F>(alloc: Global, outcomes: &[Outcome<F>]) -> Result<(String, u8), Fail>
    requires senders { length outcomes.now ≤ most_senders }
    requires reports { All (λ o. length (reports_of o) ≤ most_reports) outcomes.now }
{
    Ok((text_of(alloc, outcomes)?, exit_status(outcomes, true)))
}

/// What a sender sends, and where a read of it fails. `None` is a sender that is refused.
type Sent<'a> = Option<(&'a [u8], Option<u64>)>;

/// A door of these senders, in order.
#[derive(Drop)]
struct Listed<'a> {
    alloc: Global,
    senders: &'a [Sent<'a>],
    arrived: usize,
    last: usize,
    refusals: u64,
}

impl<'a> Listed<'a> {
    ghost use Rattle.std.specs.Prelude.{IfSome};

    /// Nobody has arrived.
    fn new(alloc: Global, senders: &'a [Sent<'a>]) -> Listed<'a>
        ensures { result.refusals ≡ 0 }
    {
        Listed {
            alloc,
            senders,
            arrived: 0,
            last: senders.len(),
            refusals: 0,
        }
    }

    /// The feed of the sender of this number, or `None` if it is refused or there is no memory for
    /// it.
    fn feed(&self, number: usize) -> Option<MemFeed>
        ensures { IfSome result (λ f. f.faults ≡ 0) }
    {
        let (stream, fail_at) = (*self.senders.get(number)?)?;
        feed_of(self.alloc, stream, &[], fail_at).ok()
    }
}

impl<'a> Door for Listed<'a> {
    type Feed = MemFeed;

    ghost use Rattle.std.specs.Prelude.{None, nat_le};

    ghost seen = { λ d. record {
      to_arrive = None;
      left = None;
      refusals = d.refusals;
      is_shut = nat_le d.last d.arrived;
    } };

    fn next(&mut self) -> Arrival<MemFeed> {
        if self.last <= self.arrived {
            return Arrival::Over;
        }
        let number = self.arrived;
        self.arrived += 1;
        match self.feed(number) {
            Some(feed) => Arrival::Came(feed),
            None => {
                self.refusals += 1;
                Arrival::Refused
            }
        }
    }

    fn refusals(&self) -> u64 {
        self.refusals
    }
}

/// A whole stream, its first 30 bytes with a failing read after them, and no bytes.
static THREE: [Sent<'static>; 3] = [
    Some((&STREAM, None)),
    Some((&STREAM, Some(30))),
    Some((&[], None)),
];

/// A door of these three.
fn three_arrivals(alloc: Global) -> Listed<'static>
    ensures { result.refusals ≡ 0 }
{
    Listed::new(alloc, &THREE)
}

/// A door of senders that send these streams, in order, all cut at the same places.
#[derive(Drop)]
struct Senders<'a> {
    alloc: Global,
    streams: &'a [Vec<u8>],
    cuts: &'a [u64],
    arrived: usize,
    last: usize,
    refusals: u64,
}

impl<'a> Senders<'a> {
    ghost use Rattle.std.specs.Prelude.{IfSome};

    /// Nobody has arrived.
    fn new(alloc: Global, streams: &'a [Vec<u8>], cuts: &'a [u64]) -> Senders<'a>
        ensures { result.refusals ≡ 0 }
    {
        Senders {
            alloc,
            streams,
            cuts,
            arrived: 0,
            last: streams.len(),
            refusals: 0,
        }
    }

    /// The feed of the sender of this number, or `None` if there is no memory for it.
    fn feed(&self, number: usize) -> Option<MemFeed>
        ensures { IfSome result (λ f. f.faults ≡ 0) }
    {
        feed_of(self.alloc, self.streams.get(number)?, self.cuts, None).ok()
    }
}

impl<'a> Door for Senders<'a> {
    type Feed = MemFeed;

    ghost use Rattle.std.specs.Prelude.{None, nat_le};

    ghost seen = { λ d. record {
      to_arrive = None;
      left = None;
      refusals = d.refusals;
      is_shut = nat_le d.last d.arrived;
    } };

    fn next(&mut self) -> Arrival<MemFeed> {
        if self.last <= self.arrived {
            return Arrival::Over;
        }
        let number = self.arrived;
        self.arrived += 1;
        match self.feed(number) {
            Some(feed) => Arrival::Came(feed),
            None => {
                self.refusals += 1;
                Arrival::Refused
            }
        }
    }

    fn refusals(&self) -> u64 {
        self.refusals
    }
}
