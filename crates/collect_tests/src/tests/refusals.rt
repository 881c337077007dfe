//! Tests that refuse each growth of `collect` and of `collect_live` in turn, over their threads.

ghost use Rattle.std.specs.Prelude.{◌≡◌};

use super::collect::outcomes_of;
use super::{Listed, expect_at, expect_eq, expect_eq_at, three_arrivals};
use asan_collect::{Live, OpenGate, Options, Outcome, Why, WriteFault, collect, collect_live};
use refusing_allocator::RefusingAllocator;
use std::alloc::{Allocator, Global};
use std::process::Abort;
use std::sync::Wait;
use std::test::Fail;
use std::thread::Threads;
use std::time::Clock;
use trace_feed::{Arrival, Door, MemFeed};

/// How many times each turn is made. Which thread asks first is not the same each time.
const REPEATS: u32 = 20;

/// Asserts that the outcome is that of ample memory, or one that a refused growth explains. Answers
/// whether it is that of ample memory.
fn is_ample<A: Allocator + Copy>(
    rt: &impl Abort,
    ample: &Outcome<MemFeed>,
    outcome: &Outcome<MemFeed, A>,
) -> bool {
    let Outcome::Settled {
        end: whole,
        reports: all,
        ..
    } = ample
    else {
        panic!(rt; "memory is ample");
    };
    match outcome {
        Outcome::Settled { end, reports, .. } => {
            expect_eq(rt, end, whole);
            assert!(rt; reports.as_slice() == all.as_slice());
            true
        }
        Outcome::NoMemory {
            end,
            checked,
            reports,
            ..
        } => {
            expect_eq(rt, end, whole);
            assert!(rt; *checked < end.events);
            assert!(rt; all.starts_with(reports));
            false
        }
        Outcome::NotStarted => false,
        Outcome::NotOpened | Outcome::Unsettled => panic!(rt; "no growth was refused to it"),
    }
}

/// Asserts that no sender was asked for.
fn expect_all_to_come(rt: &impl Abort, door: &mut Listed)
    requires { door.old.refusals ≡ 0 }
{
    for arrived in 0..4 {
        assert!(rt; door.refusals() == 0);
        let arrival = door.next();
        expect_eq(rt, matches!(arrival, Arrival::Came(_)), arrived < 3);
    }
    expect_eq(rt, door.refusals(), 0);
}

/// How many outcomes are not those of ample memory. Each has to be one that a refused growth
/// explains.
fn count_hit<A: Allocator + Copy>(
    rt: &impl Abort,
    ample: &[Outcome<MemFeed>],
    outcomes: &[Outcome<MemFeed, A>],
) -> u32 {
    expect_eq(rt, outcomes.len(), 3);
    let mut hit = 0u32;
    for (ample, outcome) in ample.iter().zip(outcomes) {
        if !is_ample(rt, ample, outcome) {
            hit = hit.saturating_add(1);
        }
    }
    hit
}

/// What is called where memory is refused.
#[derive(Clone, Copy)]
enum Way {
    Collect,
    CollectLive,
}

/// Calls `collect` where this request for memory is refused, and answers whether one was. So many
/// outcomes are hit as requests were refused. Where there is none, no sender was asked for.
fn refused_in_collect<R: Threads + Wait + Clock + Sync + Abort>(
    rt: &R,
    alloc: Global,
    turn: u64,
    options: Options,
    ample: &[Outcome<MemFeed>],
) -> Result<bool, Fail> {
    let heap = RefusingAllocator::at_turn(alloc, turn);
    let mut door = three_arrivals(alloc);
    match collect(rt, &heap, &mut door, &OpenGate, options) {
        Err(_) => {
            assert!(rt; heap.has_refused());
            expect_all_to_come(rt, &mut door);
        }
        Ok(outcomes) => {
            let hit = count_hit(rt, ample, &outcomes);
            expect_eq_at(rt, turn, hit, u32::from(heap.has_refused()));
        }
    }
    Ok(heap.has_refused())
}

/// How many lines are hit: one where a refusal ended the writing. So many bytes went out then.
fn count_unwritten(rt: &impl Abort, wrote: Result<(), WriteFault>, text: &[u8]) -> u32 {
    match wrote {
        Ok(()) => 0,
        Err(fault) => {
            expect_eq(rt, fault.why, Why::NoMemory);
            expect_eq(rt, fault.written, text.len() as u64);
            1
        }
    }
}

/// Does what [`refused_in_collect`] does with `collect_live`, where a line may be hit too.
fn refused_in_live<R: Threads + Wait + Clock + Sync + Abort>(
    rt: &R,
    alloc: Global,
    turn: u64,
    options: Options,
    ample: &[Outcome<MemFeed>],
) -> Result<bool, Fail> {
    let heap = RefusingAllocator::at_turn(alloc, turn);
    let mut door = three_arrivals(alloc);
    let mut text = Vec::new(alloc);
    match collect_live(rt, &heap, &mut door, &OpenGate, options, &mut text) {
        Err(_) => {
            assert!(rt; heap.has_refused());
            assert!(rt; text.is_empty());
            expect_all_to_come(rt, &mut door);
        }
        Ok(Live { outcomes, wrote }) => {
            let hit = count_hit(rt, ample, &outcomes);
            let hit = hit.saturating_add(count_unwritten(rt, wrote, &text));
            expect_eq_at(rt, turn, hit, u32::from(heap.has_refused()));
        }
    }
    Ok(heap.has_refused())
}

/// Repeats a turn, and answers whether a request was refused.
fn refused_at<R: Threads + Wait + Clock + Sync + Abort>(
    rt: &R,
    alloc: Global,
    way: Way,
    turn: u64,
    options: Options,
    ample: &[Outcome<MemFeed>],
) -> Result<bool, Fail> {
    let mut refused = false;
    for _ in 0..REPEATS {
        let now = match way {
            Way::Collect => refused_in_collect(rt, alloc, turn, options, ample)?,
            Way::CollectLive => refused_in_live(rt, alloc, turn, options, ample)?,
        };
        refused = refused || now;
    }
    Ok(refused)
}

/// Refuses each request for memory in turn.
fn refuse_each<R: Threads + Wait + Clock + Sync + Abort>(
    rt: &R,
    alloc: Global,
    way: Way,
) -> Result<(), Fail> {
    let options = Options::new(1 << 28, 1, 3, 1 << 24)?;
    let ample = outcomes_of(rt, alloc, &mut three_arrivals(alloc), &OpenGate, options)?;
    for turn in 1..200u64 {
        if !refused_at(rt, alloc, way, turn, options, &ample)? {
            expect_at(rt, turn, turn > 20);
            return Ok(());
        }
    }
    panic!(rt; "always refused")
}

#[test]
fn each_growth_refused_in_turn(rt: HostRuntime) -> Result<(), Fail> {
    refuse_each(&rt, rt.alloc(), Way::Collect)
}

#[test]
fn each_growth_refused_in_turn_while_printing(rt: HostRuntime) -> Result<(), Fail> {
    refuse_each(&rt, rt.alloc(), Way::CollectLive)
}
