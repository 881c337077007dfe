//! Tests of one stream: of a feed, of a bench and its lanes, and of what is written.

ghost use Rattle.std.specs.Prelude.{◌≡◌, ◌≤◌, All, IfOk, length};
ghost use Rattle.asan_stream.specs.Outcomes.{reports_of};
ghost use Rattle.asan_stream.specs.Ranges.{most_reports};
ghost use Rattle.asan_senders.specs.Ranges.{most_senders};

mod bench;
mod checker_refusals;
mod feeds;
mod reports;
mod rig;
mod writing;

use asan_senders::{exit_status, write_outcomes};
use asan_stream::{Options, Outcome, check_feed};
use std::alloc::{AllocError, Allocator, Global};
use std::fmt::Debug;
use std::process::Abort;
use std::test::Fail;
use test_streams::{STREAM_AND_MORE, feed_of};
use trace_feed::MemFeed;

// What a macro writes is proved in each test that has it, so tests call these in place of std's
// asserts.

/// Asserts that a value is the one that is wanted.
fn expect_eq<T: Copy + PartialEq + Debug>(rt: &impl Abort, got: T, wanted: T) {
    assert_eq!(rt; got, wanted);
}

/// Asserts it at a place of a table, or in a turn of a loop, which a failure names.
fn expect_eq_at<P: Copy + Debug, T: Copy + PartialEq + Debug>(
    rt: &impl Abort,
    place: P,
    got: T,
    wanted: T,
) {
    assert_eq!(rt; got, wanted, "at {place:?}");
}

/// Asserts that something holds at a place of a table, or in a turn of a loop, which a failure
/// names.
fn expect_at<P: Copy + Debug>(rt: &impl Abort, place: P, holds: bool) {
    assert!(rt; holds, "at {place:?}");
}

// What a call of the product promises stays in view of all that follows it in a body. These helpers
// say nothing of it, so that the tests are cheap to prove.

/// What becomes of a feed.
fn outcome_of_feed(alloc: Global, feed: MemFeed, options: Options) -> Outcome<MemFeed>
    requires { feed.faults ≡ 0 }
{
    check_feed(alloc, feed, options)
}

/// What is printed of these outcomes.
fn text_of<F>(alloc: Global, outcomes: &[Outcome<F>]) -> Result<String, Fail>
    requires senders { length outcomes.now ≤ most_senders }
    requires reports { All (λ o. length (reports_of o) ≤ most_reports) outcomes.now }
{
    let mut text = Vec::new(alloc);
    write_outcomes(alloc, &mut text, outcomes)?;
    Ok(String::from_utf8(text)?)
}

/// What is printed of these outcomes, and the status.
fn text_and_status<F>(alloc: Global, outcomes: &[Outcome<F>]) -> Result<(String, u8), Fail>
    requires senders { length outcomes.now ≤ most_senders }
    requires reports { All (λ o. length (reports_of o) ≤ most_reports) outcomes.now }
{
    Ok((text_of(alloc, outcomes)?, exit_status(outcomes, true)))
}

/// What becomes of a stream, where a read fails at a place or none does.
fn outcome_of_stream<A: Allocator + Copy>(
    bytes: Global,
    alloc: A,
    stream: &[u8],
    fail_at: Option<u64>,
) -> Result<Outcome<MemFeed, A>, AllocError>
    ensures { IfOk result (λ o. length (reports_of o) ≤ most_reports) }
{
    let feed = feed_of(bytes, stream, &[], fail_at)?;
    Ok(check_feed(alloc, feed, Options::usual()))
}

/// What becomes of the stream with more bytes after it, of its first 30 bytes with a failing read
/// after them, and of no bytes.
fn three_outcomes<A: Allocator + Copy>(
    bytes: Global,
    alloc: A,
) -> Result<[Outcome<MemFeed, A>; 3], AllocError>
    ensures few { IfOk result (λ outcomes.
        All (λ o. length (reports_of o) ≤ most_reports) outcomes) }
    ensures three { IfOk result (λ outcomes. length outcomes ≡ 3) }
{
    let whole = outcome_of_stream(bytes, alloc, &STREAM_AND_MORE, None)?;
    let failed = outcome_of_stream(bytes, alloc, &STREAM_AND_MORE, Some(30))?;
    Ok([whole, failed, outcome_of_stream(bytes, alloc, &[], None)?])
}
