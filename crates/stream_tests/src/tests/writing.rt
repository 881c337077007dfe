//! Tests of what is written of outcomes, and of the status.

ghost use Rattle.std.specs.Prelude.{◌≤◌, IfOk, length};
ghost use Rattle.asan_stream.specs.Ranges.{most_reports};
ghost use Rattle.asan_stream.specs.Outcomes.{reports_of};

use super::{expect_at, expect_eq, outcome_of_feed, text_and_status, three_outcomes};
use asan_check::{Fault, Report};
use asan_print::{Why, WriteFault};
use asan_senders::{exit_status, write_outcomes};
use asan_stream::{Options, Outcome, check_feed};
use std::alloc::{AllocError, Global};
use std::io::Write;
use std::process::Abort;
use std::test::Fail;
use test_streams::{LOADS, STREAM_AND_MORE, TEXT, THREE_TEXTS, feed_of};
use test_writers::{FailsOnce, ShortWriter, WhenFull};
use trace_record::{End, Fate, Flaw};

#[test]
fn three_outcomes_are_written(rt: HostRuntime) -> Result<(), Fail> {
    let (text, status) = text_and_status(rt.alloc(), &three_outcomes(rt.alloc(), rt.alloc())?)?;
    expect_eq(&rt, text.as_str(), THREE_TEXTS);
    expect_eq(&rt, status, 3);
    Ok(())
}

/// Writes what becomes of a stream, and answers how the writing ended.
fn write_stream<W: Write>(
    alloc: Global,
    stream: &[u8],
    output: &mut W,
) -> Result<Result<(), WriteFault>, Fail> {
    let feed = feed_of(alloc, stream, &[], None)?;
    let outcomes = [check_feed(alloc, feed, Options::usual())];
    Ok(write_outcomes(alloc, output, &outcomes))
}

/// Asserts that a writer that takes a number of bytes, a few at a time, and then ends so, is
/// given the front of the stream's text.
fn expect_front(
    rt: &impl Abort,
    alloc: Global,
    room: usize,
    step: usize,
    when_full: WhenFull,
) -> Result<(), Fail> {
    let mut writer = ShortWriter {
        held: Vec::new(alloc),
        room,
        step,
        when_full,
        flushes: true,
    };
    let wanted = if room == 121 {
        Ok(())
    } else {
        Err(WriteFault {
            written: room as u64,
            why: Why::Write,
        })
    };
    expect_eq(
        rt,
        write_stream(alloc, &STREAM_AND_MORE, &mut writer)?,
        wanted,
    );
    expect_at(
        rt,
        room,
        TEXT.as_bytes().get(..room) == Some(writer.held.as_slice()),
    );
    Ok(())
}

#[test]
fn writer_fails_after_k_bytes(rt: HostRuntime) -> Result<(), Fail> {
    for step in [1, TEXT.len()] {
        for when_full in [WhenFull::Fails, WhenFull::TakesNone] {
            for room in 0..=TEXT.len() {
                expect_front(&rt, rt.alloc(), room, step, when_full)?;
            }
        }
    }
    Ok(())
}

/// A stream of a thousand reports, whose lines are about 80,000 bytes: a block of no bytes, and a
/// thousand loads at its address.
fn thousand_loads(alloc: Global) -> Result<Vec<u8>, AllocError> {
    let mut bytes = STREAM_AND_MORE[..25].to_vec(alloc)?;
    bytes[17] = 0;
    for _ in 0..1000 {
        bytes.extend_from_slice(&LOADS[8..18])?;
    }
    Ok(bytes)
}

#[test]
fn many_lines_go_out_at_one_write(rt: HostRuntime) -> Result<(), Fail> {
    let alloc = rt.alloc();
    let feed = feed_of(alloc, &thousand_loads(alloc)?, &[], None)?;
    expect_eq(
        &rt,
        outcome_of_feed(alloc, feed, Options::usual())
            .reports()
            .len(),
        1000,
    );
    let mut writer = writer_failing_at(alloc, 0);
    write_stream(alloc, &thousand_loads(alloc)?, &mut writer)??;
    expect_eq(&rt, writer.writes, 3);
    Ok(())
}

/// A writer whose write of this number fails, or none where it is 0.
fn writer_failing_at(alloc: Global, failing: u64) -> FailsOnce {
    FailsOnce {
        held: Vec::new(alloc),
        writes: 0,
        failing,
    }
}

/// Asserts that nothing is written of a stream after a write of this number failed, where this many
/// bytes of its text went out before.
fn expect_last_write(
    rt: &impl Abort,
    alloc: Global,
    text: &[u8],
    failing: u64,
    written: u64,
) -> Result<(), Fail> {
    let mut writer = writer_failing_at(alloc, failing);
    let result = write_stream(alloc, &thousand_loads(alloc)?, &mut writer)?;
    let fault = WriteFault {
        written,
        why: Why::Write,
    };
    expect_eq(rt, result, Err(fault));
    expect_eq(rt, writer.writes, failing);
    expect_eq(rt, writer.held.len() as u64, written);
    assert!(rt; text.starts_with(&writer.held));
    Ok(())
}

#[test]
fn a_failed_write_is_the_last(rt: HostRuntime) -> Result<(), Fail> {
    let alloc = rt.alloc();
    let mut text = Vec::new(alloc);
    write_stream(alloc, &thousand_loads(alloc)?, &mut text)??;
    // Each write but the last has the first lines that come to 32 KiB.
    for (failing, written) in [(1, 0), (2, 32_837), (3, 65_622)] {
        expect_last_write(&rt, alloc, &text, failing, written)?;
    }
    Ok(())
}

/// A report on the second event, as of the stream.
fn report() -> Report {
    Report {
        number: 2,
        fault: Fault::BadFree { at: 0x1004 },
    }
}

/// A settled outcome with this fate and this number of reports.
fn settled(alloc: Global, fate: Fate, reports: usize) -> Result<Outcome<()>, AllocError>
    requires { reports ≤ most_reports }
    ensures { IfOk result (λ o. length (reports_of o) ≤ most_reports) }
{
    let end = End {
        fate,
        events: 2,
        offset: 36,
    };
    Ok(Outcome::Settled {
        feed: (),
        end,
        reports: vec![in alloc; report(); reports]?,
    })
}

/// The outcome of a stream that memory ran out for after its seventh event, with one report.
fn refused(alloc: Global) -> Result<Outcome<()>, AllocError>
    ensures { IfOk result (λ o. length (reports_of o) ≤ most_reports) }
{
    let end = End {
        fate: Fate::Closed,
        events: 9,
        offset: 90,
    };
    Ok(Outcome::NoMemory {
        feed: (),
        end,
        checked: 7,
        reports: vec![in alloc; report(); 1]?,
    })
}

#[test]
fn statuses(rt: HostRuntime) -> Result<(), Fail> {
    let alloc = rt.alloc();
    let none: [Outcome<()>; 0] = [];
    let clean = [settled(alloc, Fate::Closed, 0)?];
    let reported = [
        settled(alloc, Fate::Closed, 0)?,
        settled(alloc, Fate::Closed, 1)?,
    ];
    let mixed = [
        settled(alloc, Fate::Closed, 1)?,
        settled(alloc, Fate::NoClose, 0)?,
    ];
    let malformed = [settled(alloc, Fate::Malformed(Flaw::Code), 0)?];
    let refused = [refused(alloc)?];
    for (outcomes, status) in [
        (&none[..], 0),
        (&clean[..], 0),
        (&reported[..], 1),
        (&mixed[..], 3),
        (&malformed[..], 3),
        (&refused[..], 3),
        (&[Outcome::NotOpened][..], 3),
        (&[Outcome::NotStarted][..], 3),
        (&[Outcome::Unsettled][..], 3),
    ] {
        expect_eq(&rt, exit_status(outcomes, true), status);
        expect_eq(&rt, exit_status(outcomes, false), 4);
    }
    Ok(())
}

#[test]
fn outcomes_without_a_whole_stream(rt: HostRuntime) -> Result<(), Fail> {
    let outcomes = [
        Outcome::NotOpened,
        Outcome::NotStarted,
        refused(rt.alloc())?,
        Outcome::Unsettled,
    ];
    let wanted = "\
p0 end not-opened
p1 end not-started
p2 #2 free at 000000001004 bad-free
p2 end no-memory checked 7 reports 1
p3 end unsettled
";
    let (text, _) = text_and_status(rt.alloc(), &outcomes)?;
    expect_eq(&rt, text.as_str(), wanted);
    Ok(())
}
