//! Settling a sender whose reader is done.

ghost use Rattle.std.specs.Prelude.{◌≡◌, ◌≤◌, ◌↔◌, List, length, take, IfSome, IsTrue, None};
ghost use Rattle.trace_record.specs.declared.event.Event.{Event as AnEvent};
ghost use Rattle.trace_lane.specs.Lanes.{end_lane, end_list};
ghost use Rattle.asan_check.specs.Standing.{reports_of as checker_reports};
ghost use Rattle.asan_stream.specs.Benches.{lane_of, bench_bound, checker_of};
ghost use Rattle.asan_stream.specs.Items.{items_of};
ghost use Rattle.asan_stream.specs.Outcomes.{HasResults, is_read};
ghost use Rattle.asan_stream.specs.Ranges.{most_events, most_reports};
ghost use Rattle.asan_stream.specs.Outcomes.{reports_of};

use crate::bench::Bench;
use crate::outcome::Outcome;
use crate::reader::ReaderDone;
use crate::replay::outcome_of;
use std::alloc::Allocator;

/// What became of a sender whose reader is done. Takes what is left of the sender's lane and checks
/// the events of it, in all at most 2^24, and takes no memory but that of the checker. The end of
/// the lane has to be one of the bench's lane.
///
/// The outcome is `Unsettled` where the lane has no end. Else it is `Settled`, or `NoMemory` where
/// a growth of the checker was refused, now or before.
pub fn settle<F: Drop, A: Allocator + Copy>(
    bench: Bench<A>,
    done: ReaderDone<F, A>,
) -> Outcome<F, A>
    requires { IfSome done.lane_end (λ e. end_lane e ≡ lane_of bench) }
    ensures settled { IfSome done.lane_end (λ e.
        (events : List AnEvent) → end_list e ≡ items_of events done.end →
        length events ≤ most_events →
        HasResults (bench_bound bench) events done.feed done.end result) }
    ensures unsettled { result ≡ Outcome.Unsettled ↔ done.lane_end ≡ None }
    ensures read { IfSome done.lane_end (λ _. IsTrue (is_read result)) }
    ensures begins { IfSome done.lane_end (λ _.
        take (length (checker_reports (checker_of bench))) (reports_of result)
        ≡ checker_reports (checker_of bench)) }
    ensures few { length (reports_of result) ≤ most_reports }
{
    let ReaderDone {
        feed,
        end,
        lane_end,
    } = done;
    let Some(lane_end) = lane_end else {
        return Outcome::Unsettled;
    };
    let (checker, events) = bench.drain(lane_end);
    outcome_of(feed, end, checker, u64::from(events))
}
