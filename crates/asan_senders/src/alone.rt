//! A sender that came alone: its feed is read and checked on the calling thread.

ghost use Rattle.std.specs.Prelude.{◌≡◌, ◌≢◌, ◌≤◌, ◌∷◌, ℕ, [], IfErr, IfOk, List, Option, vec_capacity};
ghost use Rattle.trace_feed.specs.declared.door.Arrival.TheVariants as arrival;
ghost use Rattle.asan_print.specs.Logs.{Adds, Printed, report_lines};
ghost use Rattle.asan_stream.specs.Outcomes.{IsOutcomeOf, reports_of};
ghost use Rattle.asan_senders.specs.Arrivals.{IsAnswerTo, Pairwise};
ghost use Rattle.asan_senders.specs.Collected.{IsReadIfAlone};
ghost use Rattle.asan_senders.specs.Live.{ArePrinted};

use crate::heaps::Heaps;
use crate::live::Live;
use asan_print::LivePrinter;
use asan_stream::{Options, Outcome, Replay, check_feed};
use std::alloc::Allocator;
use std::io::Write;
use trace_feed::{Arrival, Feed};

/// The feed of the only sender that came.
///
/// # Errors
///
/// The arrivals, where no sender came, or several, or one that could not be let in.
pub fn only_feed<F: Drop, A: Allocator + Copy>(
    arrivals: Vec<Arrival<F>, A>,
) -> Result<F, Vec<Arrival<F>, A>>
    ensures only { IfOk result (λ feed. arrivals.items ≡ arrival.Came feed ∷ []) }
    ensures others { IfErr result (λ all. all ≡ arrivals) }
    ensures not_alone { IfErr result (λ _.
        (feed : F) → arrivals.items ≢ arrival.Came feed ∷ []) }
{
    if !matches!(arrivals.as_slice(), [Arrival::Came(_)]) {
        return Err(arrivals);
    }
    let mut arrivals = arrivals;
    match arrivals.pop() {
        Some(Arrival::Came(feed)) => Ok(feed),
        _ => unreachable!(),
    }
}

/// What became of the only sender that came, which has this feed. There is room for its outcome.
pub fn check_alone<F: Feed + Drop, A: Allocator + Copy>(
    heaps: &Heaps<'_, A>,
    feed: F,
    options: Options,
    room: Vec<Outcome<F, A>, A>,
) -> Vec<Outcome<F, A>, A>
    requires fresh { (F.seen feed).faults ≡ 0 }
    requires empty { room.items ≡ [] }
    requires room { 1 ≤ vec_capacity room }
    ensures answers { Pairwise (IsAnswerTo F.seen options) (arrival.Came feed ∷ []) result.items }
    ensures read { IsReadIfAlone result.items }
{
    let mut outcomes = room;
    let outcome = check_feed(heaps.of_checker(0), feed, options);
    outcomes.push_reserved(outcome);
    outcomes
}

/// What became of the only sender that came, which has this feed, and whether its lines went out.
/// Each of its reports is printed once the batch of its event is checked. There is room for the
/// outcome.
pub fn check_alone_live<F: Feed + Drop, W: Write, A: Allocator + Copy>(
    heaps: &Heaps<'_, A>,
    feed: F,
    options: Options,
    w: &mut W,
    room: Vec<Outcome<F, A>, A>,
) -> Live<F, A>
    requires fresh { (F.seen feed).faults ≡ 0 }
    requires empty { room.items ≡ [] }
    requires room { 1 ≤ vec_capacity room }
    ensures answers { Pairwise (IsAnswerTo F.seen options)
        (arrival.Came feed ∷ []) result.outcomes.items }
    ensures read { IsReadIfAlone result.outcomes.items }
    ensures printed { ArePrinted (W.contents w.old) (W.contents w.new)
        result.outcomes.items result.wrote }
{
    let mut printer = LivePrinter::new(heaps.shared);
    let outcome = check_showing(heaps.of_checker(0), feed, options, &mut printer, w);
    printer.close(w, 0, &[], &outcome.ending());
    let wrote = printer.finish(w);
    let mut outcomes = room;
    outcomes.push_reserved(outcome);
    Live { outcomes, wrote }
}

/// Reads and checks a feed, and prints the lines of its reports as those of process 0: after each
/// batch the reports on it.
fn check_showing<F: Feed, W: Write, A: Allocator + Copy>(
    own: A,
    feed: F,
    options: Options,
    printer: &mut LivePrinter<A>,
    w: &mut W,
) -> Outcome<F, A>
    requires fresh { (F.seen feed).faults ≡ 0 }
    ensures outcome { IsOutcomeOf F.seen options feed result }
    ensures shown { (start : Option (List ℕ)) → Printed start (W.contents w.old) printer.old [] →
        Adds start (W.contents w.new) printer.new 0 (report_lines 0 (reports_of result)) [] }
{
    let mut replay = Replay::new(own, feed, options);
    let mut shown = 0;
    loop {
        let is_more = replay.check_more();
        let reports = replay.reports();
        printer.show(w, 0, &reports[shown..]);
        shown = reports.len();
        if !is_more {
            return replay.into_outcome();
        }
    }
}
