//! The way of a bench's reports to a printer.

ghost use Rattle.std.specs.Prelude.{◌≡◌, ◌↔◌, List, [], IsTrue, IfSome, None, Some, slice_get};
ghost use Rattle.trace_lane.specs.Lanes.{put_list, end_lane, end_list};
ghost use Rattle.asan_check.specs.declared.report.Report.{Report as AReport};

use asan_check::Report;
use std::alloc::Allocator;
use trace_lane::{LaneEnd, LaneIn};

/// The putting end of a report lane, if there is one, and how many of a checker's reports were
/// put into it.
#[derive(Drop)]
pub(crate) struct Outbox<A: Allocator + Copy> {
    /// It is let go once nobody takes from it any more.
    pub lane: Option<LaneIn<Report, A>>,
    pub put: usize,
}

impl<A: Allocator + Copy> Outbox<A> {
    ghost use Rattle.asan_stream.specs.Outboxes.{Holds, HasPut, KeepsLane, lane_into, put_into};

    /// An outbox without a report lane: no report waits in it.
    pub fn closed() -> Outbox<A>
        ensures lane { result.lane ≡ None }
        ensures none { Holds result [] }
    {
        Outbox { lane: None, put: 0 }
    }

    /// An outbox whose reports go into this report lane.
    pub fn open(lane: LaneIn<Report, A>) -> Outbox<A>
        requires { put_list lane ≡ [] }
        ensures lane { result.lane ≡ Some lane }
        ensures none { Holds result [] }
    {
        Outbox {
            lane: Some(lane),
            put: 0,
        }
    }

    /// Puts the reports that wait, as many as there is room for. These are all reports so far. The
    /// answer says whether none waits any more.
    pub fn send(&mut self, reports: &[Report]) -> bool
        requires { Holds self.old reports.now }
        ensures holds { Holds self.new reports.now }
        ensures lane { KeepsLane (lane_into self.old.lane) (lane_into self.new.lane) }
        ensures all { IsTrue result ↔ HasPut self.new reports.now }
        ensures stays { (some : List AReport) → HasPut self.old some → HasPut self.new some }
    {
        let Some(lane) = &mut self.lane else {
            return true;
        };
        self.put += lane.put_some(&reports[self.put..]);
        if self.put == reports.len() {
            return true;
        }
        if lane.is_left() {
            *self = Outbox::closed();
            return true;
        }
        false
    }

    /// The first report that waits: the one after those that were put. None waits if there is
    /// no report lane.
    pub fn first_waiting(&self, reports: &[Report]) -> Option<Report>
        ensures first { IfSome self.now.lane
            (λ _. result ≡ slice_get reports.now self.now.put) }
        ensures none { self.now.lane ≡ None → result ≡ None }
    {
        if self.lane.is_none() {
            return None;
        }
        reports.get(self.put).copied()
    }

    /// Ends the report lane. `None` if there is none, or if nobody takes from it any more.
    pub fn finish(&mut self) -> Option<LaneEnd<Report, A>>
        ensures closed { self.new.lane ≡ None }
        ensures none { Holds self.new [] }
        ensures lane { IfSome result (λ end. lane_into self.old.lane ≡ Some (end_lane end)) }
        ensures all { IfSome result (λ end. end_list end ≡ put_into self.old.lane) }
    {
        self.put = 0;
        self.lane.take()?.finish()
    }
}
