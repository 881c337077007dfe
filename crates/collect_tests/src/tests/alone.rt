//! Tests of `Collector::collect_openly` and `Collector::collect_live_openly`: a sender that comes
//! alone.

ghost use Rattle.std.specs.Prelude.{◌≡◌, IfOk};

use super::{expect_eq, text_and_status};
use asan_collect::{Collector, Heaps, Live, Missing, OpenGate, Options};
use std::alloc::Global;
use std::process::Abort;
use std::test::Fail;
use test_streams::{STREAM_AND_MORE, TEXT, feed_of};
use trace_feed::{Arrival, ListDoor, MemFeed};

/// A door of one sender.
fn one_of_a_kind(alloc: Global) -> Result<ListDoor<MemFeed>, Fail>
    ensures { IfOk result (λ d. d.refusals ≡ 0) }
{
    let mut arrivals = Vec::new(alloc);
    arrivals.push(Arrival::Came(feed_of(alloc, &STREAM_AND_MORE, &[20, 30], None)?))?;
    Ok(ListDoor::new(arrivals))
}

/// Asserts that nothing is counted as missing.
fn expect_none_missing(rt: &impl Abort, missing: Missing) {
    let parts = (missing.lanes, missing.workers, missing.readers);
    expect_eq(rt, (parts, missing.ends), ((0, 0, 0), 0));
}

#[test]
fn one_sender_alone(rt: HostRuntime) -> Result<(), Fail> {
    let mut door = one_of_a_kind(rt.alloc())?;
    let collector = Collector {
        rt: &rt,
        gate: &OpenGate,
        heaps: Heaps::all_from(rt.alloc()),
        options: Options::usual(),
    };
    let (outcomes, missing) = collector.collect_openly(&mut door)?;
    expect_none_missing(&rt, missing);
    let (text, status) = text_and_status(rt.alloc(), &outcomes)?;
    expect_eq(&rt, (text.as_str(), status), (TEXT, 1));
    Ok(())
}

#[test]
fn lines_of_one_sender_alone(rt: HostRuntime) -> Result<(), Fail> {
    let mut door = one_of_a_kind(rt.alloc())?;
    let mut output = Vec::new(rt.alloc());
    let collector = Collector {
        rt: &rt,
        gate: &OpenGate,
        heaps: Heaps::all_from(rt.alloc()),
        options: Options::usual(),
    };
    let (live, missing) = collector.collect_live_openly(&mut door, &mut output)?;
    expect_none_missing(&rt, missing);
    let Live { outcomes, wrote } = live;
    assert!(rt; wrote.is_ok());
    expect_eq(&rt, String::from_utf8(output)?.as_str(), TEXT);
    let (text, _) = text_and_status(rt.alloc(), &outcomes)?;
    expect_eq(&rt, text.as_str(), TEXT);
    Ok(())
}
