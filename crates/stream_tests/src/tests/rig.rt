//! A bench with the ends of its lanes and its gate, and tables of what is done with it.

use super::expect_eq;
use asan_check::{Checker, Report};
use asan_stream::{Bench, Gate, Item, Turn, run_checker};
use std::alloc::{AllocError, Allocator, Global};
use std::process::Abort;
use std::sync::Wait;
use std::sync::atomic::{AtomicU64, Ordering};
use std::test::Fail;
use std::time::Clock;
use trace_lane::{LaneIn, LaneOut, lane};
use trace_record::{Access, End, Event, Fate, Flaw, Place, Region};

/// What is wrong where a test has no memory.
pub const NO_MEMORY: &str = "memory is ample";

/// What a gate has heard of where an event came out of order, or twice.
pub const OUT_OF_ORDER: u64 = u64::MAX;

/// A gate of process 7. It counts the events that it hears of, as long as they come in order.
#[derive(Drop)]
pub struct Counter {
    pub heard: AtomicU64,
}

impl Gate for Counter {
    fn checked(&self, process: u32, event: u64) {
        let is_next = event == self.heard.load(Ordering::SeqCst).wrapping_add(1);
        let heard = if process == 7 && is_next {
            event
        } else {
            OUT_OF_ORDER
        };
        self.heard.store(heard, Ordering::SeqCst);
    }
}

/// A gate that has heard of no event.
pub fn new_counter() -> Counter {
    Counter {
        heard: AtomicU64::new(0),
    }
}

/// The end of a stream of two events that was closed.
pub const CLOSED: Item = Item::End(End {
    fate: Fate::Closed,
    events: 2,
    offset: 29,
});

/// A load of a byte, which is good.
pub fn good_load() -> Result<Item, Flaw> {
    Ok(Item::Event(Event::Load(Access::new(0x1000, 1)?)))
}

/// A malloc of 8 bytes, which is good and takes memory.
pub fn good_malloc() -> Result<Item, Flaw> {
    Ok(Item::Event(Event::Malloc(Region::new(0x1000, 8)?)))
}

/// A free where no block starts, which is reported.
pub fn bad_free() -> Result<Item, Flaw> {
    Ok(Item::Event(Event::Free(Place::new(0x2000)?)))
}

/// A bench of process 7, the end of its lane that items are put into, and its gate. Where it has a
/// report lane, the end that reports are taken from too. The bench is away while its checker runs.
#[derive(Drop)]
pub struct Rig<A: Allocator + Copy = Global> {
    pub into: LaneIn<Item, A>,
    pub bench: Option<Bench<A>>,
    pub reports: Option<LaneOut<Report, A>>,
    pub gate: Counter,
}

/// What is done with a rig, and what has to come of it.
#[derive(Clone, Copy)]
pub enum Step {
    /// An item is put into its lane, which has room.
    Put(Item),
    /// The bench takes a turn, which answers this.
    Turn(Turn),
    /// The gate has heard of this many events.
    Heard(u64),
    /// The report lane gives a report on the event of this number, or none.
    Report(Option<u64>),
    /// The end that reports are taken from is dropped.
    Leave,
    /// The reports are finished, and an end of their lane comes of it or none.
    Finish(bool),
}

/// A rig whose lane has room for this many items, without a report lane, or `None` if there is
/// no memory for the lane.
pub fn plain_rig<A: Allocator + Copy>(alloc: A, room: usize) -> Result<Option<Rig<A>>, Fail> {
    let Ok((into, out)) = lane(alloc, room) else {
        return Ok(None);
    };
    let bench = Bench::new(7, out, Checker::new(alloc, 0)?);
    Ok(Some(Rig {
        into,
        bench: Some(bench),
        reports: None,
        gate: new_counter(),
    }))
}

/// The same where memory is ample.
pub fn ample_rig(alloc: Global, room: usize) -> Result<Rig, Fail> {
    Ok(plain_rig(alloc, room)?.ok_or(NO_MEMORY)?)
}

/// A rig whose lane has room for eight items, and whose report lane has room for this many reports.
pub fn reporting_rig(alloc: Global, reports: usize) -> Result<Rig, Fail> {
    let (into, out) = lane(alloc, 8)?;
    let (reports_in, reports_out) = lane(alloc, reports)?;
    let bench = Bench::with_reports(7, out, Checker::new(alloc, 0)?, reports_in);
    Ok(Rig {
        into,
        bench: Some(bench),
        reports: Some(reports_out),
        gate: new_counter(),
    })
}

/// The number of the event that the next report of a rig is on.
fn next_report<A: Allocator + Copy>(rig: &mut Rig<A>) -> Option<u64> {
    match &mut rig.reports {
        Some(lane) => Some(lane.take()?.number),
        None => None,
    }
}

/// What a turn of a rig's bench answers.
fn turn_of<A: Allocator + Copy>(rig: &mut Rig<A>) -> Option<Turn> {
    Some(rig.bench.as_mut()?.turn(&rig.gate))
}

/// Whether an end of a rig's report lane comes of it where its reports are finished.
fn finish<A: Allocator + Copy>(rig: &mut Rig<A>) -> Option<bool> {
    Some(rig.bench.as_mut()?.finish_reports().is_some())
}

/// Takes a step, and asserts what comes of it.
pub fn expect_step<A: Allocator + Copy>(rt: &impl Abort, rig: &mut Rig<A>, step: Step) {
    match step {
        Step::Put(item) => assert!(rt; rig.into.put(item).is_ok()),
        Step::Turn(turn) => expect_eq(rt, turn_of(rig), Some(turn)),
        Step::Heard(count) => expect_eq(rt, rig.gate.heard.load(Ordering::SeqCst), count),
        Step::Report(number) => expect_eq(rt, next_report(rig), number),
        Step::Leave => rig.reports = None,
        Step::Finish(ends) => expect_eq(rt, finish(rig), Some(ends)),
    }
}

/// Takes these steps in order.
pub fn expect_steps<A: Allocator + Copy>(rt: &impl Abort, rig: &mut Rig<A>, steps: &[Step]) {
    for step in steps {
        expect_step(rt, rig, *step);
    }
}

/// Runs the checkers of some benches up to their ends.
pub fn run_all<A: Allocator + Copy, G: Gate, R: Wait + Clock>(
    rt: &R,
    benches: Vec<Bench<A>, A>,
    gate: &G,
) -> Vec<Bench<A>, A> {
    run_checker(rt, benches, gate)
}

/// Runs the checker of a rig up to its end, and answers whether there was memory for a list of its
/// bench.
pub fn run_rig<A: Allocator + Copy, R: Wait + Clock>(
    rt: &R,
    alloc: A,
    rig: &mut Rig<A>,
) -> Result<bool, AllocError> {
    let Ok(mut benches) = Vec::with_capacity(alloc, 1) else {
        return Ok(false);
    };
    if let Some(bench) = rig.bench.take() {
        benches.push(bench)?;
    }
    rig.bench = run_all(rt, benches, &rig.gate).pop();
    Ok(true)
}

/// The benches of two rigs, in this order.
pub fn benches_of(
    alloc: Global,
    first: &mut Rig,
    second: &mut Rig,
) -> Result<Vec<Bench>, AllocError> {
    let mut benches = Vec::new(alloc);
    if let Some(bench) = first.bench.take() {
        benches.push(bench)?;
    }
    if let Some(bench) = second.bench.take() {
        benches.push(bench)?;
    }
    Ok(benches)
}
