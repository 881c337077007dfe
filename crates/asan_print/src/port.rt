//! The taking end of a report lane.

ghost use Rattle.std.specs.Prelude.{◌≡◌, length};
ghost use Rattle.trace_lane.specs.Lanes.{taken_list};

use asan_check::Report;
use std::alloc::{Allocator, Global};
use trace_lane::{LaneEnd, LaneOut};

/// The taking end of the lane that a process's reports come through. It counts what is taken.
#[derive(Drop)]
pub struct Port<A: Allocator + Copy = Global> {
    lane: LaneOut<Report, A>,
    taken: u64,
    ghost counted: { taken ≡ length (taken_list lane) },
}

impl<A: Allocator + Copy> Port<A> {
    ghost use Rattle.std.specs.Prelude.{◌+◌, ◌<◌, ◌^◌, [], ◌∷◌, ◌++◌, IfSome, IfNone, IsSome, take};
    ghost use Rattle.trace_lane.specs.Lanes.{out_lane, end_lane, end_list, waiting};
    ghost use Rattle.asan_print.specs.Ports.{port_lane, port_waiting, taken_from};

    /// A port at a lane from which nothing was taken.
    pub fn new(lane: LaneOut<Report, A>) -> Port<A>
        requires { taken_list lane ≡ [] }
        ensures lane { port_lane result ≡ out_lane lane }
        ensures taken { taken_from result ≡ [] }
        ensures waiting { port_waiting result ≡ waiting lane }
    {
        Port { lane, taken: 0 }
    }

    /// Takes the oldest report, or `None` where it finds none. A later call may find one.
    ///
    /// Where reports are known to wait, it takes the first of them, as long as the number of all
    /// that were taken stays below 2^64.
    pub fn take(&mut self) -> Option<Report>
        ensures lane { port_lane self.new ≡ port_lane self.old }
        ensures some { IfSome result (λ report.
            taken_from self.new ≡ taken_from self.old ++ report ∷ []) }
        ensures none { IfNone result (taken_from self.new ≡ taken_from self.old) }
        ensures known { 0 < length (port_waiting self.old) →
            IfSome result (λ report. port_waiting self.old ≡ report ∷ port_waiting self.new) }
        ensures waits { IfNone result (port_waiting self.new ≡ port_waiting self.old) }
        ensures succeeds { 0 < length (port_waiting self.old) →
            length (taken_from self.old) + 1 < 2 ^ 64 → IsSome result }
    {
        let taken = self.taken.checked_add(1)?;
        let report = self.lane.take()?;
        self.taken = taken;
        Some(report)
    }

    /// How many reports were taken, now that the lane was finished: the first of all that were put.
    pub fn settle(self, end: LaneEnd<Report, A>) -> u64
        requires { end_lane end ≡ port_lane self }
        ensures count { result ≡ length (taken_from self) }
        ensures front { take result (end_list end) ≡ taken_from self }
    {
        let Port { lane, taken } = self;
        let mut lane = lane;
        lane.settle(end);
        taken
    }
}
