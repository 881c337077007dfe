//! Each growth of a checker refused in turn.
use super::{
    expect_at, expect_eq_at, free, load, malloc, new_checker, poison, reports_of, step, tally,
    unpoison,
};
use asan_check::{Checker, Failed, Report};
use refusing_allocator::RefusingAllocator;
use std::alloc::{Allocator, Global};
use std::process::Abort;
use std::test::Fail;
use trace_record::{Event, Flaw};

/// An address on whose two sides the shadow keeps nothing in common.
const FAR: u64 = 1 << 43;

/// Events most of which take memory.
fn growing() -> Result<[Event; 9], Flaw> {
    Ok([
        malloc(0x1000, 8)?,
        malloc(FAR, 8)?,
        poison(0x10_0000_0000, 8)?,
        // Takes away what the shadow keeps of the first block: its free takes memory for it again,
        // and its release too.
        unpoison(0, 1 << 28)?,
        free(0x1000)?,
        unpoison(0, 1 << 28)?,
        free(FAR)?,
        load(1, 0x1000)?,
        load(1, FAR)?,
    ])
}

/// What a checker says of some bytes of the first block.
fn said_of_bytes<A: Allocator + Copy>(checker: &Checker<A>) -> (Option<bool>, Option<Option<u64>>) {
    (
        checker.is_poisoned(0x1000),
        checker.first_poisoned(0x1000, 8),
    )
}

/// Steps a checker that may be refused memory, and answers whether it failed. Its answer has to be
/// the verdict that ample memory gave. Where it failed, it counts as before and says nothing of
/// bytes.
fn has_failed<A: Allocator + Copy>(
    rt: &impl Abort,
    checker: &mut Checker<A>,
    event: &Event,
    verdict: Option<Report>,
    turn: u64,
) -> bool {
    let before = tally(checker);
    match step(rt, checker, event) {
        Ok(report) => {
            expect_eq_at(rt, turn, report, verdict);
            false
        }
        Err(Failed) => {
            expect_eq_at(rt, turn, tally(checker), before);
            expect_eq_at(rt, turn, said_of_bytes(checker), (None, None));
            true
        }
    }
}

/// What ample memory comes to: the verdict on each event, and the reports.
#[derive(Drop)]
struct Ample {
    verdicts: Vec<Option<Report>>,
    reports: Vec<Report>,
}

/// What a checker of ample memory makes of some events.
fn ample_of(rt: &impl Abort, alloc: Global, events: &[Event]) -> Result<Ample, Fail> {
    let mut checker = new_checker(alloc, 72)?;
    let mut verdicts = Vec::new(alloc);
    for event in events {
        verdicts.push(step(rt, &mut checker, event)?)?;
    }
    let reports = checker.into_reports();
    Ok(Ample { verdicts, reports })
}

/// Steps a checker, whose memory may be refused once, through events, and answers whether it
/// failed. Once it has, it stays so, and its reports are the first of those of ample memory.
fn fails_once<A: Allocator + Copy>(
    rt: &impl Abort,
    checker: &mut Checker<A>,
    turn: u64,
    events: &[Event],
    ample: &Ample,
) -> bool {
    let mut failed = false;
    for (event, verdict) in events.iter().zip(&ample.verdicts) {
        let fails = has_failed(rt, checker, event, *verdict, turn);
        expect_at(rt, turn, fails || !failed);
        failed = fails;
    }
    let kept = reports_of(checker);
    expect_at(rt, turn, ample.reports.starts_with(kept));
    expect_at(rt, turn, failed || kept.len() == ample.reports.len());
    failed
}

/// Steps a checker through events, where this request for memory is refused, and answers whether
/// one was.
fn fails_at(
    rt: &impl Abort,
    alloc: Global,
    turn: u64,
    events: &[Event],
    ample: &Ample,
) -> Result<bool, Fail> {
    let heap = RefusingAllocator::at_turn(alloc, turn);
    let failed = fails_once(rt, &mut new_checker(&heap, 72)?, turn, events, ample);
    expect_eq_at(rt, turn, failed, heap.has_refused());
    Ok(failed)
}

#[test]
fn each_growth_in_a_step_refused_in_turn(rt: HostRuntime) -> Result<(), Fail> {
    let events = growing()?;
    let ample = ample_of(&rt, rt.alloc(), &events)?;
    for turn in 1..100u64 {
        if !fails_at(&rt, rt.alloc(), turn, &events, &ample)? {
            expect_at(&rt, turn, turn > 20);
            return Ok(());
        }
    }
    panic!(rt; "always refused")
}
