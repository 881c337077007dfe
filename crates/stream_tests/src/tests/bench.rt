//! Tests of readers, benches and their settling, without `collect`.

ghost use Rattle.std.specs.Prelude.{◌≡◌, ◌≤◌, IfOk, IfSome, length};
ghost use Rattle.trace_lane.specs.Lanes.{end_lane, in_lane};
ghost use Rattle.asan_stream.specs.Ranges.{most_reports};
ghost use Rattle.asan_stream.specs.Outcomes.{reports_of};

use super::rig::{
    CLOSED, Rig, Step, ample_rig, benches_of, expect_step, expect_steps, good_load, good_malloc,
    plain_rig, run_all, run_rig,
};
use super::{expect_eq, expect_eq_at, text_and_status};
use asan_check::Checker;
use asan_stream::{Bench, Gate, Item, Outcome, ReaderDone, Turn, run_reader, settle};
use refusing_allocator::RefusingAllocator;
use std::alloc::{Allocator, Global};
use std::process::Abort;
use std::snapshot::Snapshot;
use std::sync::atomic::{AtomicU64, Ordering};
use std::sync::{Mutex, Wait};
use std::test::Fail;
use std::thread;
use std::thread::{Promise, Threads};
use std::time::Clock;
use test_streams::{STREAM_AND_MORE, THREE_TEXTS, feed_of};
use trace_feed::MemFeed;
use trace_lane::{LaneIn, lane};

#[test]
fn a_turn_takes_one_item(rt: HostRuntime) -> Result<(), Fail> {
    let load = good_load()?;
    let steps = [
        Step::Turn(Turn::Empty),
        Step::Put(load),
        Step::Turn(Turn::Took),
        Step::Put(load),
        Step::Turn(Turn::Took),
        Step::Put(CLOSED),
        Step::Turn(Turn::Took),
        Step::Heard(2),
        Step::Put(load),
        Step::Turn(Turn::Over),
        Step::Turn(Turn::Over),
        Step::Heard(2),
    ];
    let mut rig = ample_rig(rt.alloc(), 4)?;
    expect_steps(&rt, &mut rig, &steps);
    Ok(())
}

/// Puts these items into a rig one by one, each of which the bench takes, and then takes no more.
/// Gives how many events the gate heard of.
fn heard_of_each<A: Allocator + Copy>(rt: &impl Abort, rig: &mut Rig<A>, items: &[Item]) -> u64 {
    for item in items {
        expect_steps(rt, rig, &[Step::Put(*item), Step::Turn(Turn::Took)]);
    }
    expect_step(rt, rig, Step::Turn(Turn::Over));
    rig.gate.heard.load(Ordering::SeqCst)
}

/// How many events a gate hears of where this request for memory is refused, and whether one was,
/// or `None` where there was no lane.
fn heard_at(
    rt: &impl Abort,
    alloc: Global,
    turn: u64,
    items: &[Item],
) -> Result<Option<(u64, bool)>, Fail> {
    let heap = RefusingAllocator::at_turn(alloc, turn);
    let Some(mut rig) = plain_rig(&heap, 4)? else {
        return Ok(None);
    };
    let heard = heard_of_each(rt, &mut rig, items);
    Ok(Some((heard, heap.has_refused())))
}

#[test]
fn a_failed_checker_takes_and_drops(rt: HostRuntime) -> Result<(), Fail> {
    let load = good_load()?;
    let items = [load, good_malloc()?, load, CLOSED];
    for turn in 1..100u64 {
        match heard_at(&rt, rt.alloc(), turn, &items)? {
            None => {}
            Some((heard, true)) => expect_eq_at(&rt, turn, heard, 1),
            Some((heard, false)) => {
                expect_eq(&rt, heard, 3);
                return Ok(());
            }
        }
    }
    panic!(rt; "always refused")
}

/// A rig that holds this many loads and the end.
fn loaded_rig(rt: &impl Abort, alloc: Global, count: u64) -> Result<Rig, Fail> {
    let load = good_load()?;
    let mut rig = ample_rig(alloc, 256)?;
    for _ in 0..count {
        expect_step(rt, &mut rig, Step::Put(load));
    }
    expect_step(rt, &mut rig, Step::Put(CLOSED));
    Ok(rig)
}

/// Runs the checker of a rig that holds this many loads and the end: the gate hears of each load.
fn expect_each_announced<R: Wait + Clock + Abort>(
    rt: &R,
    alloc: Global,
    count: u64,
) -> Result<(), Fail> {
    let mut rig = loaded_rig(rt, alloc, count)?;
    assert!(rt; run_rig(rt, alloc, &mut rig)?);
    expect_steps(rt, &mut rig, &[Step::Heard(count), Step::Turn(Turn::Over)]);
    Ok(())
}

#[test]
fn each_event_of_a_batch_is_announced_in_order(rt: HostRuntime) -> Result<(), Fail> {
    for count in [0, 1, 63, 64, 65, 200u64] {
        expect_each_announced(&rt, rt.alloc(), count)?;
    }
    Ok(())
}

/// A gate that tries to put an item into a lane, and counts how often there is no room.
#[derive(Drop)]
struct Trying<'a, R> {
    rt: &'a R,
    into: Mutex<LaneIn<Item>>,
    full: AtomicU64,
}

impl<'a, R: Wait> Gate for Trying<'a, R> {
    fn checked(&self, _process: u32, _event: u64) {
        if self.into.lock(self.rt).put(CLOSED).is_err() {
            self.full.fetch_add(1, Ordering::SeqCst);
        }
    }
}

/// How often a gate that tries this lane finds no room there, where it hears of these benches.
fn full_of<R: Wait + Clock>(rt: &R, into: LaneIn<Item>, benches: Vec<Bench>) -> u64 {
    let gate = Trying {
        rt,
        into: Mutex::new(into),
        full: AtomicU64::new(0),
    };
    let _benches = run_all(rt, benches, &gate);
    gate.full.load(Ordering::SeqCst)
}

/// A rig whose lane has room for this many items, and has these.
fn rig_with(rt: &impl Abort, alloc: Global, room: usize, items: &[Item]) -> Result<Rig, Fail> {
    let mut rig = ample_rig(alloc, room)?;
    for item in items {
        expect_step(rt, &mut rig, Step::Put(*item));
    }
    Ok(rig)
}

#[test]
fn a_batch_is_announced_before_the_next_bench_takes(rt: HostRuntime) -> Result<(), Fail> {
    let mut first = rig_with(&rt, rt.alloc(), 4, &[good_load()?, CLOSED])?;
    let mut next = rig_with(&rt, rt.alloc(), 1, &[CLOSED])?;
    let benches = benches_of(rt.alloc(), &mut first, &mut next)?;
    expect_eq(&rt, full_of(&rt, next.into, benches), 1);
    Ok(())
}

/// How many events a gate hears of where a checker is given these items at once and this request
/// for memory is refused, and whether one was, or `None` where there was no lane or no list.
fn heard_in_a_batch<R: Wait + Clock + Abort>(
    rt: &R,
    alloc: Global,
    turn: u64,
    items: &[Item],
) -> Result<Option<(u64, bool)>, Fail> {
    let heap = RefusingAllocator::at_turn(alloc, turn);
    let Some(mut rig) = plain_rig(&heap, 8)? else {
        return Ok(None);
    };
    for item in items {
        expect_step(rt, &mut rig, Step::Put(*item));
    }
    if !run_rig(rt, &heap, &mut rig)? {
        return Ok(None);
    }
    expect_step(rt, &mut rig, Step::Turn(Turn::Over));
    let heard = rig.gate.heard.load(Ordering::SeqCst);
    Ok(Some((heard, heap.has_refused())))
}

#[test]
fn a_checker_that_fails_within_a_batch_announces_no_more(rt: HostRuntime) -> Result<(), Fail> {
    let load = good_load()?;
    let items = [load, load, good_malloc()?, load, CLOSED];
    for turn in 1..100u64 {
        match heard_in_a_batch(&rt, rt.alloc(), turn, &items)? {
            None => {}
            Some((heard, true)) => expect_eq_at(&rt, turn, heard, 2),
            Some((heard, false)) => {
                expect_eq(&rt, heard, 4);
                return Ok(());
            }
        }
    }
    panic!(rt; "always refused")
}

/// What a reader was given.
#[derive(Drop)]
struct Given {
    lane: Snapshot<LaneIn<Item>>,
}

impl Promise<ReaderDone<MemFeed>> for Given {
    ghost kept_by = { λ p r. IfSome r.lane_end (λ e. end_lane e ≡ in_lane p.lane.value) };
}

/// What becomes of a feed that is read on its own thread, into a lane with room for all of its
/// items. Its bench is settled once the reader was joined.
fn outcome_of<R: Threads + Wait + Clock + Send + Copy + 'static>(
    rt: R,
    alloc: Global,
    process: u32,
    feed: MemFeed,
) -> Result<Outcome<MemFeed>, Fail>
    requires { feed.faults ≡ 0 }
    ensures { IfOk result (λ o. length (reports_of o) ≤ most_reports) }
{
    let (into, out) = lane(alloc, 1024)?;
    let bench = Bench::new(process, out, Checker::new(alloc, 1 << 28)?);
    let given = Given {
        lane: Snapshot::of(&into),
    };
    let handle = thread::spawn_with(&rt, given, move || run_reader(&rt, feed, into, 1 << 24))?;
    Ok(settle(bench, handle.join(&rt)))
}

#[test]
fn three_senders_without_collect(rt: HostRuntime) -> Result<(), Fail> {
    let alloc = rt.alloc();
    let outcomes = [
        outcome_of(rt, alloc, 0, feed_of(alloc, &STREAM_AND_MORE, &[], None)?)?,
        outcome_of(
            rt,
            alloc,
            1,
            feed_of(alloc, &STREAM_AND_MORE, &[], Some(30))?,
        )?,
        outcome_of(rt, alloc, 2, feed_of(alloc, &[], &[], None)?)?,
    ];
    let (text, status) = text_and_status(alloc, &outcomes)?;
    expect_eq(&rt, text.as_str(), THREE_TEXTS);
    expect_eq(&rt, status, 3);
    Ok(())
}

#[test]
fn a_bench_that_is_gone_leaves_no_end(rt: HostRuntime) -> Result<(), Fail> {
    let (into, out) = lane::<Item, Global>(rt.alloc(), 1)?;
    drop(out);
    let feed = feed_of(rt.alloc(), &STREAM_AND_MORE, &[], None)?;
    let done = run_reader(&rt, feed, into, 1 << 24);
    assert!(rt; done.lane_end.is_none());
    Ok(())
}
