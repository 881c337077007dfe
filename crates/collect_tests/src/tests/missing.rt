//! Tests of what is counted as missing: each lane that is refused its memory, and nothing else.

use super::{expect_at, expect_eq_at, three_arrivals};
use asan_collect::{Collector, Heaps, Live, Missing, OpenGate, Options, Outcome};
use refusing_allocator::RefusingAllocator;
use std::alloc::{Allocator, Global};
use std::process::Abort;
use std::sync::Wait;
use std::test::Fail;
use std::thread::Threads;
use std::time::Clock;
use trace_feed::MemFeed;

/// Asserts that as many lanes are counted as senders were not started, and that nothing else is.
fn expect_lanes_counted<A: Allocator + Copy>(
    rt: &impl Abort,
    turn: u64,
    outcomes: &[Outcome<MemFeed, A>],
    missing: Missing,
) {
    let mut not_started = 0u32;
    for outcome in outcomes {
        if matches!(outcome, Outcome::NotStarted) {
            not_started = not_started.saturating_add(1);
        }
    }
    let lanes = (missing.lanes, not_started);
    let others = (missing.workers, missing.readers, missing.ends);
    expect_eq_at(
        rt,
        turn,
        (lanes, others),
        ((not_started, missing.lanes), (0, 0, 0)),
    );
}

/// How many lanes are counted as missing in a collection whose memory is from this allocator, or
/// none where there was no room for its lists.
fn lanes_missing<R: Threads + Wait + Clock + Sync + Abort>(
    rt: &R,
    alloc: Global,
    turn: u64,
    is_live: bool,
    shared: &RefusingAllocator<Global>,
    options: Options,
) -> u32 {
    let mut door = three_arrivals(alloc);
    let heaps = Heaps::all_from(shared);
    let collector = Collector {
        rt,
        gate: &OpenGate,
        heaps,
        options,
    };
    if is_live {
        let mut text = Vec::new(alloc);
        let Ok((live, missing)) = collector.collect_live_counting(&mut door, &mut text) else {
            return 0;
        };
        let Live { outcomes, .. } = live;
        expect_lanes_counted(rt, turn, &outcomes, missing);
        return missing.lanes;
    }
    let Ok((outcomes, missing)) = collector.collect_counting(&mut door) else {
        return 0;
    };
    expect_lanes_counted(rt, turn, &outcomes, missing);
    missing.lanes
}

/// How many lanes are counted as missing if this request for memory is refused, or `None` where no
/// request was.
fn lanes_missing_at<R: Threads + Wait + Clock + Sync + Abort>(
    rt: &R,
    alloc: Global,
    turn: u64,
    is_live: bool,
    options: Options,
) -> Option<u32> {
    let heap = RefusingAllocator::at_turn(alloc, turn);
    let lanes = lanes_missing(rt, alloc, turn, is_live, &heap, options);
    heap.has_refused().then_some(lanes)
}

/// Refuses each request for memory in turn. Those for the lanes of three senders are among them:
/// one each, and with live printing two.
fn refuse_each<R: Threads + Wait + Clock + Sync + Abort>(
    rt: &R,
    alloc: Global,
    is_live: bool,
    least: u32,
) -> Result<(), Fail> {
    let options = Options::new(1 << 28, 1, 3, 1 << 24)?;
    let mut lanes = 0u32;
    for turn in 1..200u64 {
        match lanes_missing_at(rt, alloc, turn, is_live, options) {
            Some(more) => lanes = lanes.saturating_add(more),
            None => {
                expect_at(rt, lanes, lanes >= least);
                return Ok(());
            }
        }
    }
    panic!(rt; "always refused")
}

#[test]
fn a_refused_lane_is_counted(rt: HostRuntime) -> Result<(), Fail> {
    refuse_each(&rt, rt.alloc(), false, 3)
}

#[test]
fn a_refused_lane_is_counted_while_printing(rt: HostRuntime) -> Result<(), Fail> {
    refuse_each(&rt, rt.alloc(), true, 6)
}
