//! Tests that refuse each growth in turn.

use super::{expect_at, expect_eq, expect_eq_at, outcome_of_feed, three_outcomes};
use asan_check::{Report, end_text, report_text};
use asan_print::{Why, WriteFault};
use asan_senders::write_outcomes;
use asan_stream::{Options, Outcome, check_feed};
use refusing_allocator::RefusingAllocator;
use std::alloc::{AllocError, Allocator, Global};
use std::process::Abort;
use std::test::Fail;
use test_streams::{THREE_TEXTS, feed_of};
use trace_feed::MemFeed;
use trace_record::Fate;

/// Mallocs of 8 bytes at 0x1000 and at 0x2000, frees of both, a load of a byte of each, and the
/// close.
const FREES: [u8; 81] = [
    0x41, 0x53, 0x54, 0x52, 1, 0, 0, 0, 3, 0, 0x10, 0, 0, 0, 0, 0, 0, 8, 0, 0, 0, 0, 0, 0, 0, 3, 0,
    0x20, 0, 0, 0, 0, 0, 0, 8, 0, 0, 0, 0, 0, 0, 0, 4, 0, 0x10, 0, 0, 0, 0, 0, 0, 4, 0, 0x20, 0, 0,
    0, 0, 0, 0, 1, 1, 0, 0x10, 0, 0, 0, 0, 0, 0, 1, 1, 0, 0x20, 0, 0, 0, 0, 0, 0, 7,
];

/// Those of some reports that are on the first events, this many of them.
fn first_of(alloc: Global, reports: &[Report], checked: u64) -> Result<Vec<Report>, AllocError> {
    let mut first = Vec::new(alloc);
    for report in reports {
        if report.number <= checked {
            first.push(*report)?;
        }
    }
    Ok(first)
}

/// Asserts that these are the reports on the first events, this many of them, with ample memory.
fn expect_first_of(
    rt: &impl Abort,
    alloc: Global,
    ample: &[Report],
    checked: u64,
    reports: &[Report],
) -> Result<(), AllocError> {
    let first = first_of(alloc, ample, checked)?;
    assert!(rt; reports == first.as_slice());
    Ok(())
}

/// How many events were checked before memory ran out, or `None` where it did not. The end is that
/// of the stream, and the reports are those of ample memory on the events that were checked.
fn checked_of<A: Allocator + Copy>(
    rt: &impl Abort,
    alloc: Global,
    outcome: &Outcome<MemFeed, A>,
    ample: &[Report],
) -> Result<Option<u64>, Fail> {
    match outcome {
        Outcome::Settled { end, reports, .. } => {
            expect_eq(rt, (end.events, end.offset), (6, 81));
            assert!(rt; reports.as_slice() == ample);
            Ok(None)
        }
        Outcome::NoMemory {
            end,
            checked,
            reports,
            ..
        } => {
            expect_eq(
                rt,
                (end.fate, end.events, end.offset),
                (Fate::Closed, 6, 81),
            );
            assert!(rt; *checked < 6);
            expect_first_of(rt, alloc, ample, *checked, reports)?;
            Ok(Some(*checked))
        }
        _ => panic!(rt; "it was read"),
    }
}

/// How many events were checked where this request for memory is refused, or `None` where none was.
fn checked_at(
    rt: &impl Abort,
    alloc: Global,
    turn: u64,
    options: Options,
    ample: &[Report],
) -> Result<Option<u64>, Fail> {
    let heap = RefusingAllocator::at_turn(alloc, turn);
    let outcome = check_feed(&heap, feed_of(alloc, &FREES, &[], None)?, options);
    let checked = checked_of(rt, alloc, &outcome, ample)?;
    expect_eq_at(rt, turn, heap.has_refused(), checked.is_some());
    Ok(checked)
}

#[test]
fn each_growth_of_the_checker_refused_in_turn(rt: HostRuntime) -> Result<(), Fail> {
    let options = Options::new(72, 1024, 2, 1 << 24)?;
    let feed = feed_of(rt.alloc(), &FREES, &[], None)?;
    let ample = outcome_of_feed(rt.alloc(), feed, options);
    let ample = ample.reports();
    expect_eq(&rt, ample.len(), 2);
    let mut last = 0;
    for turn in 1..100u64 {
        let Some(checked) = checked_at(&rt, rt.alloc(), turn, options, ample)? else {
            expect_at(&rt, turn, turn > 4);
            // The last growth is that of the reports, at the fifth event.
            expect_eq(&rt, last, 4);
            return Ok(());
        };
        expect_at(&rt, turn, last <= checked);
        last = checked;
    }
    panic!(rt; "always refused")
}

/// What was written of the three outcomes where a request for memory may be refused.
#[derive(Drop)]
struct Written {
    text: Vec<u8>,
    result: Result<(), WriteFault>,
    refused: bool,
}

/// What is written of the three outcomes where this request for memory is refused.
fn written_at(alloc: Global, turn: u64) -> Result<Written, Fail> {
    let calm = RefusingAllocator::counting(alloc);
    let heap = RefusingAllocator::at_turn(alloc, turn);
    let outcomes = three_outcomes(alloc, &calm)?;
    let mut text = Vec::new(alloc);
    let result = write_outcomes(&heap, &mut text, &outcomes);
    let refused = heap.has_refused();
    Ok(Written {
        text,
        result,
        refused,
    })
}

/// A line of the text of the three outcomes, which was written to its own text.
#[derive(Clone, Copy)]
struct Line {
    /// How many requests for memory were made up to its end.
    requests: u64,
    /// How long the text was before it.
    before: usize,
}

/// The lines of an outcome, which are added to a text of a process with this number.
fn add_lines(
    heap: &RefusingAllocator<Global>,
    process: u32,
    outcome: &Outcome<MemFeed>,
    text: &mut String<&RefusingAllocator<Global>>,
    lines: &mut Vec<Line>,
) -> Result<(), Fail> {
    for report in outcome.reports() {
        let before = text.len();
        report_text(process, report, text)?;
        let requests = heap.requests_made();
        lines.push(Line { requests, before })?;
    }
    let before = text.len();
    end_text(process, &outcome.ending(), text)?;
    let requests = heap.requests_made();
    lines.push(Line { requests, before })?;
    Ok(())
}

/// The lines of the three outcomes.
fn lines_of_three(alloc: Global) -> Result<Vec<Line>, Fail> {
    let heap = RefusingAllocator::counting(alloc);
    let mut lines = Vec::new(alloc);
    let mut text = String::new(&heap);
    for (process, outcome) in three_outcomes(alloc, alloc)?.iter().enumerate() {
        add_lines(&heap, process as u32, outcome, &mut text, &mut lines)?;
    }
    Ok(lines)
}

/// How long the text is before the line that makes this request, or `None` where none does.
fn length_before(lines: &[Line], turn: u64) -> Option<usize> {
    for line in lines {
        if turn <= line.requests {
            return Some(line.before);
        }
    }
    None
}

/// Asserts that a fault is a refusal, and that all lines before that of this request went out.
fn expect_lines_before(rt: &impl Abort, lines: &[Line], turn: u64, written: &Written) {
    let Err(fault) = written.result else {
        panic!(rt; "turn {turn} was refused");
    };
    expect_eq(rt, fault.why, Why::NoMemory);
    expect_eq(rt, fault.written, written.text.len() as u64);
    expect_eq_at(
        rt,
        turn,
        length_before(lines, turn),
        Some(written.text.len()),
    );
    assert!(rt; THREE_TEXTS.as_bytes().starts_with(&written.text));
}

/// Whether this request for the text's memory is refused. If it is, the lines before that of the
/// request went out, and else all did.
fn is_refused_at(rt: &impl Abort, alloc: Global, lines: &[Line], turn: u64) -> Result<bool, Fail> {
    let written = written_at(alloc, turn)?;
    expect_eq_at(rt, turn, written.refused, written.result.is_err());
    if written.refused {
        expect_lines_before(rt, lines, turn, &written);
    } else {
        expect_eq(rt, length_before(lines, turn), None);
        assert!(rt; written.text.as_slice() == THREE_TEXTS.as_bytes());
    }
    Ok(written.refused)
}

#[test]
fn each_growth_of_the_text_refused_in_turn(rt: HostRuntime) -> Result<(), Fail> {
    let lines = lines_of_three(rt.alloc())?;
    expect_eq(&rt, lines.len(), 4);
    for turn in 1..100u64 {
        if !is_refused_at(&rt, rt.alloc(), &lines, turn)? {
            expect_at(&rt, turn, turn > 2);
            return Ok(());
        }
    }
    panic!(rt; "always refused")
}
