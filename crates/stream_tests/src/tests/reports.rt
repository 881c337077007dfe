//! Tests of benches that put their reports into report lanes.

use super::expect_eq;
use super::rig::{
    CLOSED, NO_MEMORY, Rig, Step, ample_rig, bad_free, benches_of, expect_step, expect_steps,
    good_load, reporting_rig, run_all, run_rig,
};
use asan_check::Report;
use asan_stream::{Gate, Item, Turn};
use std::alloc::{AllocError, Global};
use std::process::Abort;
use std::sync::atomic::{AtomicU64, Ordering};
use std::sync::{Mutex, Wait};
use std::test::Fail;
use std::time::Clock;
use trace_lane::{LaneIn, LaneOut};

/// A gate that takes a report at each call. It counts the calls for an event whose report it took.
#[derive(Drop)]
struct Taker<'a, R> {
    rt: &'a R,
    reports: Mutex<LaneOut<Report>>,
    found: AtomicU64,
}

impl<'a, R: Wait> Gate for Taker<'a, R> {
    fn checked(&self, _process: u32, event: u64) {
        if let Some(report) = self.reports.lock(self.rt).take() {
            if report.number == event {
                self.found.fetch_add(1, Ordering::SeqCst);
            }
        }
    }
}

#[test]
fn a_report_waits_for_room(rt: HostRuntime) -> Result<(), Fail> {
    let bad = bad_free()?;
    let steps = [
        Step::Put(bad),
        Step::Put(bad),
        Step::Put(good_load()?),
        Step::Put(CLOSED),
        Step::Turn(Turn::Took),
        Step::Heard(1),
        // There is no room for the second report: the gate is not called for its event.
        Step::Turn(Turn::Took),
        Step::Turn(Turn::Empty),
        Step::Turn(Turn::Empty),
        Step::Heard(1),
        Step::Report(Some(1)),
        Step::Turn(Turn::Took),
        Step::Heard(3),
        Step::Report(Some(2)),
        Step::Turn(Turn::Took),
        Step::Turn(Turn::Over),
        Step::Report(None),
    ];
    expect_steps(&rt, &mut reporting_rig(rt.alloc(), 1)?, &steps);
    Ok(())
}

#[test]
fn a_report_lane_that_was_left_is_let_go(rt: HostRuntime) -> Result<(), Fail> {
    let bad = bad_free()?;
    let steps = [
        Step::Put(bad),
        Step::Put(bad),
        Step::Put(bad),
        Step::Put(CLOSED),
        Step::Turn(Turn::Took),
        Step::Turn(Turn::Took),
        Step::Turn(Turn::Empty),
        Step::Leave,
        Step::Turn(Turn::Took),
        Step::Heard(3),
        Step::Turn(Turn::Took),
        Step::Turn(Turn::Over),
        Step::Finish(false),
    ];
    expect_steps(&rt, &mut reporting_rig(rt.alloc(), 1)?, &steps);
    Ok(())
}

#[test]
fn reports_are_finished_once(rt: HostRuntime) -> Result<(), Fail> {
    let bad = bad_free()?;
    let mut rig = reporting_rig(rt.alloc(), 4)?;
    let steps = [Step::Put(bad), Step::Put(bad), Step::Put(CLOSED)];
    expect_steps(&rt, &mut rig, &steps);
    assert!(rt; run_rig(&rt, rt.alloc(), &mut rig)?);
    let steps = [
        Step::Finish(true),
        Step::Finish(false),
        Step::Report(Some(1)),
        Step::Report(Some(2)),
        Step::Report(None),
    ];
    expect_steps(&rt, &mut rig, &steps);
    let mut plain = ample_rig(rt.alloc(), 1)?;
    expect_step(&rt, &mut plain, Step::Finish(false));
    Ok(())
}

/// Puts a report's event into a lane.
fn put_bad(rt: &impl Abort, into: &mut LaneIn<Item>) -> Result<(), Fail> {
    assert!(rt; into.put(bad_free()?).is_ok());
    Ok(())
}

/// How many events a gate heard of whose reports it took.
fn found_by<R>(gate: &Taker<'_, R>) -> u64 {
    gate.found.load(Ordering::SeqCst)
}

/// Gives a bench the event of a report and a turn, two times: the gate takes each report at its
/// call.
fn expect_found_in_turn<R: Wait + Abort>(
    rt: &R,
    rig: &mut Rig,
    gate: &Taker<'_, R>,
) -> Result<(), Fail> {
    let mut bench = rig.bench.take().ok_or(NO_MEMORY)?;
    for turn in 1..=2u64 {
        put_bad(rt, &mut rig.into)?;
        expect_eq(rt, bench.turn(gate), Turn::Took);
        expect_eq(rt, found_by(gate), turn);
    }
    rig.bench = Some(bench);
    Ok(())
}

/// Gives a bench two more of them and the end, and has its checker take all at once.
fn find_at_once<R: Wait + Clock + Abort>(
    rt: &R,
    alloc: Global,
    rig: &mut Rig,
    gate: &Taker<'_, R>,
) -> Result<(), Fail> {
    put_bad(rt, &mut rig.into)?;
    put_bad(rt, &mut rig.into)?;
    assert!(rt; rig.into.put(CLOSED).is_ok());
    let mut benches = Vec::new(alloc);
    benches.push(rig.bench.take().ok_or(NO_MEMORY)?)?;
    let _benches = run_all(rt, benches, gate);
    Ok(())
}

#[test]
fn a_report_is_put_before_its_event_is_announced(rt: HostRuntime) -> Result<(), Fail> {
    let mut rig = reporting_rig(rt.alloc(), 4)?;
    let gate = Taker {
        rt: &rt,
        reports: Mutex::new(rig.reports.take().ok_or(NO_MEMORY)?),
        found: AtomicU64::new(0),
    };
    expect_found_in_turn(&rt, &mut rig, &gate)?;
    find_at_once(&rt, rt.alloc(), &mut rig, &gate)?;
    expect_eq(&rt, found_by(&gate), 4);
    Ok(())
}

/// Runs the checkers of two rigs in turn on one thread, up to their ends.
fn run_two<R: Wait + Clock>(
    rt: &R,
    alloc: Global,
    first: &mut Rig,
    second: &mut Rig,
) -> Result<(), AllocError> {
    let benches = benches_of(alloc, first, second)?;
    let mut benches = run_all(rt, benches, &first.gate);
    second.bench = benches.pop();
    first.bench = benches.pop();
    Ok(())
}

/// Two rigs whose report lanes have room for one report. The first has the events of three reports,
/// and nobody takes its reports. The second has one.
fn left_and_other(rt: &impl Abort, alloc: Global) -> Result<(Rig, Rig), Fail> {
    let put = Step::Put(bad_free()?);
    let close = Step::Put(CLOSED);
    let mut left = reporting_rig(alloc, 1)?;
    expect_steps(rt, &mut left, &[put, put, put, close, Step::Leave]);
    let mut other = reporting_rig(alloc, 1)?;
    expect_steps(rt, &mut other, &[put, close]);
    Ok((left, other))
}

#[test]
fn a_report_lane_that_was_left_holds_up_no_other(rt: HostRuntime) -> Result<(), Fail> {
    let (mut left, mut other) = left_and_other(&rt, rt.alloc())?;
    run_two(&rt, rt.alloc(), &mut left, &mut other)?;
    expect_step(&rt, &mut left, Step::Finish(false));
    let rest = [
        Step::Finish(true),
        Step::Report(Some(1)),
        Step::Report(None),
    ];
    expect_steps(&rt, &mut other, &rest);
    Ok(())
}
