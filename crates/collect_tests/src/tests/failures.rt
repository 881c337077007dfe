//! Tests of one failure at each place: of a read beside other senders, and of an arrival.

ghost use Rattle.std.specs.Prelude.{◌≤◌, All, length};
ghost use Rattle.asan_senders.specs.Ranges.{most_senders};
ghost use Rattle.asan_stream.specs.Outcomes.{reports_of};
ghost use Rattle.asan_stream.specs.Ranges.{most_reports};

use super::collect::{expect_printed, outcomes_of};
use super::reading::end_of;
use super::{Listed, Sent, expect_eq, expect_eq_at, text_and_status};
use asan_collect::{OpenGate, Options, Outcome};
use std::alloc::Global;
use std::io::Write;
use std::process::Abort;
use std::sync::Wait;
use std::test::Fail;
use std::thread::Threads;
use std::time::Clock;
use test_streams::{MISS, STREAM};
use trace_feed::{Door, Feed, MemFeed};
use trace_record::{End, Fate};

/// What is printed of a sound sender.
const SOUND: &str = "end closed events 2 offset 36 reports 0";

/// What is printed of one whose store ends past its block.
const REPORT: &str = "#2 store 4 at 000000001004 bad 000000001005 heap-buffer-overflow shadow 05";

const REPORTED: &str = "end closed events 2 offset 36 reports 1";

/// What came of a sender between two others: its end, the faults of its feed and the number of its
/// reports, and the text and the status of all three.
#[derive(Drop)]
struct Between {
    end: End,
    faults: u64,
    reports: usize,
    text: String,
    status: u8,
}

/// What came of the sender between two others.
fn between_of(
    rt: &impl Abort,
    alloc: Global,
    outcomes: &[Outcome<MemFeed>],
) -> Result<Between, Fail>
    requires senders { length outcomes.now ≤ most_senders }
    requires reports { All (λ o. length (reports_of o) ≤ most_reports) outcomes.now }
{
    let (text, status) = text_and_status(alloc, outcomes)?;
    let [_, Outcome::Settled { feed, end, reports }, _] = outcomes else {
        panic!(rt; "it was not settled");
    };
    Ok(Between {
        end: *end,
        faults: feed.faults(),
        reports: reports.len(),
        text,
        status,
    })
}

/// What comes of a sender whose read fails at this place between two sound ones.
fn failing_at<R: Threads + Wait + Clock + Sync + Abort>(
    rt: &R,
    alloc: Global,
    place: usize,
    options: Options,
) -> Result<Between, Fail> {
    let senders = [
        Some((&MISS[..], None)),
        Some((&STREAM[..], Some(place as u64))),
        Some((&MISS[..], None)),
    ];
    let mut door = Listed::new(alloc, &senders);
    let outcomes = outcomes_of(rt, alloc, &mut door, &OpenGate, options)?;
    between_of(rt, alloc, &outcomes)
}

/// How the first bytes of the stream end, this many of them, where the read after them fails or the
/// stream ends there.
fn end_of_first(rt: &impl Abort, place: usize) -> End
    requires { place ≤ 36 }
{
    let mut end = end_of(rt, &STREAM[..place], 1 << 24);
    if place < STREAM.len() {
        end.fate = Fate::ReadFailed;
    }
    end
}

/// Asserts what came of a sender whose read failed at this place, if it is not the stream's end.
fn expect_failed_at(rt: &impl Abort, place: usize, between: &Between)
    requires { place ≤ 36 }
{
    let wanted = end_of_first(rt, place);
    let fails = place < STREAM.len();
    expect_eq_at(rt, place, between.end, wanted);
    expect_eq_at(rt, place, between.faults, u64::from(fails));
    // The second event is the bad store.
    expect_eq_at(rt, place, between.reports as u64, wanted.events / 2);
    expect_eq_at(rt, place, between.status, if fails { 3 } else { 1 });
}

#[test]
fn each_failing_read_beside_two_senders(rt: HostRuntime) -> Result<(), Fail> {
    let alloc = rt.alloc();
    let options = Options::new(1 << 28, 1, 2, 1 << 24)?;
    let front = format!(in alloc; "p0 {SOUND}\np1 ")?;
    let back = format!(in alloc; "\np2 {SOUND}\n")?;
    for place in 0..=STREAM.len() {
        let between = failing_at(&rt, alloc, place, options)?;
        expect_failed_at(&rt, place, &between);
        assert!(rt; between.text.starts_with(front.as_str()));
        assert!(rt; between.text.ends_with(back.as_str()));
    }
    Ok(())
}

/// Three senders, of which the one of this number is refused. The last one is sound, and each other
/// has a report.
fn one_refused(refused: usize) -> [Sent<'static>; 3] {
    let mut senders = [
        Some((&STREAM[..], None)),
        Some((&STREAM[..], None)),
        Some((&MISS[..], None)),
    ];
    for (number, sender) in senders.iter_mut().enumerate() {
        if number == refused {
            *sender = None;
        }
    }
    senders
}

/// What is printed of the sender of this number behind its name, where one is refused.
fn lines_of(number: usize, refused: usize) -> &'static [&'static str] {
    if number == refused {
        &["end not-opened"]
    } else if number == 2 {
        &[SOUND]
    } else {
        &[REPORT, REPORTED]
    }
}

/// What is printed of the three senders where the one of this number is refused.
fn text_where_refused(alloc: Global, refused: usize) -> Result<String, Fail> {
    let mut text = String::new(alloc);
    for number in 0..3 {
        for line in lines_of(number, refused) {
            write!(text, "p{number} {line}\n")?;
        }
    }
    Ok(text)
}

#[test]
fn a_refusal_at_each_place(rt: HostRuntime) -> Result<(), Fail> {
    let alloc = rt.alloc();
    for refused in 0..3 {
        let wanted = text_where_refused(alloc, refused)?;
        let senders = one_refused(refused);
        let mut door = Listed::new(alloc, &senders);
        let wanted = (wanted.as_str(), 3);
        expect_printed(&rt, alloc, &mut door, Options::usual(), wanted)?;
        expect_eq(&rt, door.refusals(), 1);
    }
    Ok(())
}
