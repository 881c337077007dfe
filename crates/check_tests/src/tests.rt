//! Events, and the calls of a checker that the tests share.
mod beside_the_model;
mod lines;
mod model;
mod passing;
mod queries;
mod refusals;

use asan_check::{Bound, Checker, Failed, Report};
use std::alloc::Allocator;
use std::fmt::Debug;
use std::process::Abort;
use trace_record::{Access, Event, Flaw, Place, Region, Shade};

// What a macro writes is proved in each test that has it, so tests call these in place of std's
// asserts.

/// Asserts that a value is the one that is wanted.
fn expect_eq<T: Copy + PartialEq + Debug>(rt: &impl Abort, got: T, wanted: T) {
    assert_eq!(rt; got, wanted);
}

/// Asserts it at a place of a table, or in a turn of a loop, which a failure names.
fn expect_eq_at<P: Copy + Debug, T: Copy + PartialEq + Debug>(
    rt: &impl Abort,
    place: P,
    got: T,
    wanted: T,
) {
    assert_eq!(rt; got, wanted, "at {place:?}");
}

/// Asserts that something holds at a place of a table, or in a turn of a loop, which a failure
/// names.
fn expect_at<P: Copy + Debug>(rt: &impl Abort, place: P, holds: bool) {
    assert!(rt; holds, "at {place:?}");
}

/// The bound on the quarantine that is usual, in bytes of spans.
const USUAL: u64 = 1 << 28;

/// The event of some numbers, or their first flaw. Tests put these into arrays as they are, since a
/// `?` for each makes a test far dearer to prove.
type Made = Result<Event, Flaw>;

fn load(width: u8, at: u64) -> Made {
    Ok(Event::Load(Access::new(at, width)?))
}

fn store(width: u8, at: u64) -> Made {
    Ok(Event::Store(Access::new(at, width)?))
}

fn malloc(at: u64, size: u64) -> Made {
    Ok(Event::Malloc(Region::new(at, size)?))
}

fn free(at: u64) -> Made {
    Ok(Event::Free(Place::new(at)?))
}

fn poison(at: u64, size: u64) -> Made {
    poison_of(0, at, size)
}

/// A poison of the kind with this number: 0 for a user's, 1 for the stack's, 2 for a global's.
fn poison_of(kind: u8, at: u64, size: u64) -> Made {
    Ok(Event::Poison(Shade::new(at, size, kind)?))
}

fn unpoison(at: u64, size: u64) -> Made {
    Ok(Event::Unpoison(Region::new(at, size)?))
}

// What a call of the product promises stays in view of all that follows it in a body. These helpers
// say nothing of it, so that the tests are cheap to prove.

/// A checker that has checked nothing.
fn new_checker<A: Allocator + Copy>(alloc: A, bound: u64) -> Result<Checker<A>, Bound> {
    Checker::new(alloc, bound)
}

/// How many events a checker has checked, and how many reports it has.
fn tally<A: Allocator + Copy>(checker: &Checker<A>) -> (u64, usize) {
    (checker.checked(), checker.reports().len())
}

/// The reports of a checker.
fn reports_of<A: Allocator + Copy>(checker: &Checker<A>) -> &[Report] {
    checker.reports()
}

/// Steps a checker of fewer events than it can count.
fn step<A: Allocator + Copy>(
    rt: &impl Abort,
    checker: &mut Checker<A>,
    event: &Event,
) -> Result<Option<Report>, Failed> {
    assert!(rt; checker.checked() < u64::MAX);
    checker.step(event)
}

/// Passes what is good at the front of some events, which are fewer than the checker can count.
fn pass<A: Allocator + Copy>(rt: &impl Abort, checker: &mut Checker<A>, events: &[Event]) -> usize {
    assert!(rt; checker.checked() < u64::MAX - events.len() as u64);
    checker.pass(events)
}
