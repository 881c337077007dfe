//! Tests of `collect`: doors of all kinds, each ring and each number of checkers.

ghost use Rattle.std.specs.Prelude.{◌≡◌, ◌≤◌, ◌^◌, All, IfOk, length};
ghost use Rattle.asan_senders.specs.Ranges.{most_senders};
ghost use Rattle.asan_stream.specs.Outcomes.{reports_of};
ghost use Rattle.asan_stream.specs.Ranges.{most_reports};

use super::{expect_at, expect_eq, expect_eq_at, outcome_of_feed, text_and_status, three_arrivals};
use asan_collect::{Gate, MAX_SENDERS, OpenGate, Options, Outcome, collect};
use refusing_allocator::RefusingAllocator;
use std::alloc::{AllocError, Allocator, Global};
use std::io::Write;
use std::process::Abort;
use std::sync::Wait;
use std::test::Fail;
use std::thread::Threads;
use std::time::Clock;
use test_streams::{LENGTH, LOADS, MISS, STREAM_AND_MORE, THREE_TEXTS, feed_of};
use trace_feed::{Arrival, Door, Feed, MemFeed};
use trace_record::Fate;

/// What becomes of the senders of a door. No more is said of it than writing it out needs.
pub(super) fn outcomes_of<D: Door, G: Gate + Sync, R: Threads + Wait + Clock + Sync>(
    rt: &R,
    alloc: Global,
    door: &mut D,
    gate: &G,
    options: Options,
) -> Result<Vec<Outcome<D::Feed>>, Fail>
where
    D::Feed: Send + Drop,
    requires { (D.seen door.old).refusals ≤ 2 ^ 32 }
    ensures senders { IfOk result (λ outcomes. length outcomes.items ≤ most_senders) }
    ensures reports { IfOk result (λ outcomes.
        All (λ o. length (reports_of o) ≤ most_reports) outcomes.items) }
{
    Ok(collect(rt, alloc, door, gate, options)?)
}

/// What is printed of the senders of a door, and the status.
pub(super) fn printed_of<D: Door, G: Gate + Sync, R: Threads + Wait + Clock + Sync>(
    rt: &R,
    alloc: Global,
    door: &mut D,
    gate: &G,
    options: Options,
) -> Result<(String, u8), Fail>
where
    D::Feed: Send + Drop,
    requires { (D.seen door.old).refusals ≤ 2 ^ 32 }
{
    text_and_status(alloc, &outcomes_of(rt, alloc, door, gate, options)?)
}

/// Asserts what is printed of the senders of a door, and the status. A failure names how many items
/// each lane had, and how many checkers there were.
pub(super) fn expect_printed<D: Door, R: Threads + Wait + Clock + Sync + Abort>(
    rt: &R,
    alloc: Global,
    door: &mut D,
    options: Options,
    wanted: (&str, u8),
) -> Result<(), Fail>
where
    D::Feed: Send + Drop,
    requires { (D.seen door.old).refusals ≤ 2 ^ 32 }
{
    let (text, status) = printed_of(rt, alloc, door, &OpenGate, options)?;
    let place = (options.ring, options.workers);
    expect_eq_at(rt, place, (text.as_str(), status), wanted);
    Ok(())
}

/// Asserts that two outcomes are printed alike.
pub(super) fn expect_same<A: Allocator + Copy>(
    rt: &impl Abort,
    outcome: &Outcome<MemFeed>,
    other: &Outcome<MemFeed, A>,
) {
    expect_eq(rt, outcome.ending(), other.ending());
    assert!(rt; outcome.reports() == other.reports());
}

#[test]
fn three_senders(rt: HostRuntime) -> Result<(), Fail> {
    for workers in [1, 2, 3, 64] {
        for ring in [1, 2, 1024] {
            let mut door = three_arrivals(rt.alloc());
            let options = Options::new(1 << 28, ring, workers, 1 << 24)?;
            expect_printed(&rt, rt.alloc(), &mut door, options, (THREE_TEXTS, 3))?;
            expect_eq(&rt, door.refusals(), 0);
        }
    }
    Ok(())
}

/// A door of a crowd: how its senders behave repeats after each ten.
#[derive(Drop)]
struct Crowd {
    alloc: Global,
    arrived: usize,
    last: usize,
    refusals: u64,
}

/// What the sender of this number sends, and where a read of it fails.
fn sent(number: usize) -> (&'static [u8], Option<u64>) {
    match number % 10 {
        1 => (&STREAM_AND_MORE[..30], None),
        2 => (&STREAM_AND_MORE, Some(30)),
        3 => (&[], None),
        4 => (b"no trace at all", None),
        5 => (&LOADS[..28], None),
        6 => (&STREAM_AND_MORE[..LENGTH - 1], None),
        7 => (&MISS, None),
        8 => (&LOADS, Some(0)),
        _ => (&STREAM_AND_MORE, None),
    }
}

/// The feed of the sender of this number, which comes in small pieces.
fn feed_of_sender(alloc: Global, number: usize) -> Result<MemFeed, AllocError>
    ensures { IfOk result (λ f. f.faults ≡ 0) }
{
    let (bytes, fail_at) = sent(number);
    feed_of(alloc, bytes, &[3, 11, 26], fail_at)
}

impl Door for Crowd {
    type Feed = MemFeed;

    ghost use Rattle.std.specs.Prelude.{None, Some, ◌-◌, nat_le};

    ghost seen = { λ d. record {
      to_arrive = None;
      left = Some (d.last - d.arrived);
      refusals = d.refusals;
      is_shut = nat_le d.last d.arrived;
    } };

    fn next(&mut self) -> Arrival<MemFeed> {
        if self.last <= self.arrived {
            return Arrival::Over;
        }
        let number = self.arrived;
        self.arrived += 1;
        match feed_of_sender(self.alloc, number) {
            Ok(feed) => Arrival::Came(feed),
            Err(_) => {
                self.refusals += 1;
                Arrival::Refused
            }
        }
    }

    fn refusals(&self) -> u64 {
        self.refusals
    }
}

/// A door of this many senders.
fn crowd_of(alloc: Global, last: usize) -> Crowd
    ensures { result.refusals ≡ 0 }
{
    Crowd {
        alloc,
        arrived: 0,
        last,
        refusals: 0,
    }
}

/// Asserts that each outcome of a crowd is that of its sender alone.
fn expect_each_alone(
    rt: &impl Abort,
    alloc: Global,
    options: Options,
    outcomes: &[Outcome<MemFeed>],
) -> Result<(), Fail> {
    for (number, outcome) in outcomes.iter().enumerate() {
        let alone = outcome_of_feed(alloc, feed_of_sender(alloc, number)?, options);
        expect_same(rt, outcome, &alone);
    }
    Ok(())
}

/// Asserts that each sender of a crowd of this many has its own outcome.
fn expect_crowd<R: Threads + Wait + Clock + Sync + Abort>(
    rt: &R,
    alloc: Global,
    senders: usize,
    options: Options,
) -> Result<(), Fail> {
    let outcomes = outcomes_of(rt, alloc, &mut crowd_of(alloc, senders), &OpenGate, options)?;
    expect_eq_at(rt, options.ring, outcomes.len(), senders);
    expect_each_alone(rt, alloc, options, &outcomes)
}

#[test]
fn each_of_a_crowd_has_its_own_outcome(rt: HostRuntime) -> Result<(), Fail> {
    for (senders, ring, workers) in [(12, 1, 5), (12, 1024, 5), (40, 2, 3), (256, 64, 64)] {
        let options = Options::new(1 << 28, ring, workers, 1 << 24)?;
        expect_crowd(&rt, rt.alloc(), senders, options)?;
    }
    Ok(())
}

/// What is printed of this many senders of a missed store.
fn text_of_misses(alloc: Global, senders: u8) -> Result<String, Fail> {
    let mut text = String::new(alloc);
    for process in 0..senders {
        write!(text, "p{process} end closed events 2 offset 36 reports 0\n")?;
    }
    Ok(text)
}

/// A door of senders that all send a missed store.
#[derive(Drop)]
pub(super) struct Repeated {
    pub(super) alloc: Global,
    pub(super) left: u32,
    pub(super) refusals: u64,
}

impl Door for Repeated {
    type Feed = MemFeed;

    ghost use Rattle.std.specs.Prelude.{None, Some, ◌==◌};

    ghost seen = { λ d. record {
      to_arrive = None;
      left = Some d.left;
      refusals = d.refusals;
      is_shut = d.left == 0;
    } };

    fn next(&mut self) -> Arrival<MemFeed> {
        if self.left == 0 {
            return Arrival::Over;
        }
        self.left -= 1;
        match feed_of(self.alloc, &MISS, &[], None) {
            Ok(feed) => Arrival::Came(feed),
            Err(_) => {
                self.refusals += 1;
                Arrival::Refused
            }
        }
    }

    fn refusals(&self) -> u64 {
        self.refusals
    }
}

/// A door of this many senders of a missed store.
pub(super) fn misses(alloc: Global, senders: u32) -> Repeated
    ensures { result.refusals ≡ 0 }
{
    Repeated {
        alloc,
        left: senders,
        refusals: 0,
    }
}

#[test]
fn twelve_senders_of_five_checkers(rt: HostRuntime) -> Result<(), Fail> {
    let alloc = rt.alloc();
    let wanted = text_of_misses(alloc, 12)?;
    for ring in [1, 1024] {
        let options = Options::new(1 << 28, ring, 5, 1 << 24)?;
        let wanted = (wanted.as_str(), 0);
        expect_printed(&rt, alloc, &mut misses(alloc, 12), options, wanted)?;
    }
    Ok(())
}

/// Asserts that a missed store was read and checked whole.
fn expect_miss(rt: &impl Abort, outcome: &Outcome<MemFeed>) {
    let Outcome::Settled { end, .. } = outcome else {
        panic!(rt; "it was not settled");
    };
    expect_eq(
        rt,
        (end.fate, end.events, end.offset),
        (Fate::Closed, 2, 36),
    );
}

#[test]
fn the_257th_sender_stays_at_the_door(rt: HostRuntime) -> Result<(), Fail> {
    let alloc = rt.alloc();
    for workers in [1, 3, 64] {
        let mut door = misses(alloc, 257);
        let options = Options::new(1 << 28, 2, workers, 1 << 24)?;
        let outcomes = outcomes_of(&rt, alloc, &mut door, &OpenGate, options)?;
        expect_eq_at(&rt, workers, outcomes.len(), MAX_SENDERS);
        for outcome in &outcomes {
            expect_miss(&rt, outcome);
        }
        expect_eq(&rt, door.left, 1);
    }
    Ok(())
}

/// Asserts that the senders stay at the door where this request for memory is refused.
fn expect_no_room<R: Threads + Wait + Clock + Sync + Abort>(
    rt: &R,
    alloc: Global,
    turn: u64,
    options: Options,
) -> Result<(), Fail> {
    let heap: &'static RefusingAllocator<Global> = Box::leak(Box::new(
        alloc,
        RefusingAllocator::at_turn(alloc, turn),
    )?);
    let mut door = misses(alloc, 3);
    let outcomes = collect(rt, heap, &mut door, &OpenGate, options);
    expect_at(rt, turn, outcomes.is_err());
    assert!(rt; heap.has_refused());
    expect_eq(rt, door.left, 3);
    Ok(())
}

#[test]
fn no_room_leaves_the_door_as_it_was(rt: HostRuntime) -> Result<(), Fail> {
    let options = Options::new(1 << 28, 1, 3, 1 << 24)?;
    for turn in 1..8u64 {
        expect_no_room(&rt, rt.alloc(), turn, options)?;
    }
    Ok(())
}
