//! A checker and the plain model, driven by the same events.

use super::model::{Model, State, state_of};
use super::{
    USUAL, expect_at, expect_eq, expect_eq_at, free, load, malloc, new_checker, poison_of,
    reports_of, step, store, tally, unpoison,
};
use asan_check::{Checker, NoMemory, Report, report_text};
use std::alloc::Global;
use std::process::Abort;
use std::test::Fail;
use test_draws::Draws;
use trace_record::{Event, Flaw};

/// How many histories are drawn.
const HISTORIES: u64 = 60;

/// How many events are drawn for each.
const EVENTS: u64 = 70;

/// How many bytes the window has in which the addresses lie.
const WINDOW: u64 = 0x200;

/// The greatest size of most blocks and regions.
const MAX_SIZE: u64 = 40;

/// How far apart blocks start, most of them: by their sizes, spans of neighbours have room between
/// them, touch or meet.
const STRIDE: u64 = 80;

/// A size: a small one mostly, else one from a power of two on.
fn drawn_size(draws: &mut Draws) -> u64 {
    if draws.below(16) == 0 {
        let power = 1u64 << draws.below(33);
        power.saturating_add(draws.below(9))
    } else {
        draws.below(MAX_SIZE + 1)
    }
}

/// An event in the window from an address on, or a flaw where it would reach past the last
/// address, or is too large.
fn drawn_event(draws: &mut Draws, base: u64) -> Result<Event, Flaw> {
    if draws.below(32) == 0 {
        return Ok(Event::Anew);
    }
    let at = base.saturating_add(draws.below(WINDOW));
    let size = drawn_size(draws);
    let width = 1 << draws.below(4);
    let stray = if draws.below(8) == 0 {
        draws.below(STRIDE)
    } else {
        0
    };
    let block = base
        .saturating_add(draws.below(WINDOW / STRIDE) * STRIDE)
        .saturating_add(stray);
    match draws.below(16) {
        0..3 => load(width, at),
        3..6 => store(width, at),
        6..9 => malloc(block, size),
        9..12 => free(block),
        12..14 => poison_of(draws.below(3) as u8, at, size),
        _ => unpoison(at, size),
    }
}

/// Steps a checker and the model through drawn events from an address on, and asserts that they
/// agree. Gives the reports.
fn agreed_reports(
    rt: &impl Abort,
    checker: &mut Checker,
    model: &mut Model,
    draws: &mut Draws,
    base: u64,
) -> Result<Vec<Report>, Fail> {
    let mut reports = Vec::new(model.alloc);
    for _ in 0..EVENTS {
        if let Ok(event) = drawn_event(draws, base) {
            let report = step(rt, checker, &event)?;
            expect_eq_at(rt, event, report, model.step(event)?);
            if let Some(report) = report {
                reports.push(report)?;
            }
        }
    }
    let (checked, _) = tally(checker);
    expect_eq(rt, checked, model.events.len() as u64);
    expect_eq(rt, reports_of(checker), reports.as_slice());
    Ok(reports)
}

/// What a checker says of a byte.
fn is_poisoned(checker: &Checker, at: u64) -> Option<bool> {
    checker.is_poisoned(at)
}

/// What a checker says of the window from an address on.
fn first_of_window(rt: &impl Abort, checker: &Checker, base: u64) -> Option<Option<u64>> {
    assert!(rt; base <= (1 << 47) - WINDOW);
    checker.first_poisoned(base, WINDOW)
}

/// Asserts that a checker and the model agree on each byte of the window from an address on, and on
/// the first poisoned one.
fn expect_same_bytes(
    rt: &impl Abort,
    checker: &Checker,
    model: &Model,
    base: u64,
) -> Result<(), Fail> {
    let marks = model.marks()?;
    let mut first = None;
    for place in (0..WINDOW).rev() {
        let at = base.saturating_add(place);
        let poisoned = state_of(&marks, at) != State::Addressable;
        expect_eq_at(rt, at, is_poisoned(checker, at), Some(poisoned));
        if poisoned {
            first = Some(at);
        }
    }
    expect_eq(rt, first_of_window(rt, checker, base), Some(first));
    Ok(())
}

/// Adds the lines of some reports to a text.
fn add_reports(reports: &[Report], text: &mut String) -> Result<(), NoMemory> {
    for report in reports {
        report_text(0, report, text)?;
    }
    Ok(())
}

/// Drives a checker and the model by the same drawn events, and adds the lines of the reports to a
/// text.
fn add_history(
    rt: &impl Abort,
    alloc: Global,
    draws: &mut Draws,
    (bound, base): (u64, u64),
    text: &mut String,
) -> Result<(), Fail> {
    let mut checker = new_checker(alloc, bound)?;
    let events = Vec::new(alloc);
    let mut model = Model {
        alloc,
        bound,
        events,
    };
    let reports = agreed_reports(rt, &mut checker, &mut model, draws, base)?;
    add_reports(&reports, text)?;
    expect_same_bytes(rt, &checker, &model, base)
}

#[test]
fn checker_agrees_with_the_model(rt: HostRuntime) -> Result<(), Fail> {
    let bounds = [0, 71, 72, 200, 400, USUAL];
    let bases = [0x1000, 0, (1 << 47) - WINDOW];
    let mut draws = Draws::new();
    let mut text = String::new(rt.alloc());
    for history in 0..HISTORIES {
        let bound = bounds[(history / 3 % 6) as usize];
        let base = bases[(history % 3) as usize];
        add_history(&rt, rt.alloc(), &mut draws, (bound, base), &mut text)?;
    }
    for word in [
        "heap-buffer-overflow",
        "heap-use-after-free",
        "use-after-poison",
        "stack-buffer-overflow",
        "global-buffer-overflow",
        "unknown-crash",
        "double-free",
        "bad-free",
        "bad-malloc",
    ] {
        expect_at(&rt, word, text.contains(word));
    }
    Ok(())
}
