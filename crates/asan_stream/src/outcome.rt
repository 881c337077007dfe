//! What became of one sender.

ghost use Rattle.std.specs.Prelude.{◌≡◌};
ghost use Rattle.asan_stream.specs.Outcomes.{reports_of, ending_of};

use asan_check::{Ending, Report};
use std::alloc::{Allocator, Global};
use trace_record::End;

/// What became of one sender. The feed of a sender that was read comes back in it, as the last read
/// left it.
#[derive(Drop)]
pub enum Outcome<F, A: Allocator + Copy = Global> {
    /// Its stream was read to its end, and all of its events were checked.
    Settled {
        feed: F,
        end: End,
        /// The reports on its events, in their order.
        reports: Vec<Report, A>,
    },
    /// Its stream was read to its end, but memory ran out after its first `checked` events were
    /// checked.
    NoMemory {
        feed: F,
        end: End,
        /// How many events were checked, which is less than all.
        checked: u64,
        /// The reports on the events that were checked, in their order.
        reports: Vec<Report, A>,
    },
    /// Its feed could not be opened.
    NotOpened,
    /// A thread or a lane was missing.
    NotStarted,
    /// It was started, but its bench, the end of its lane or, with live printing, the end of its
    /// report lane was missing: a thread was gone.
    Unsettled,
}

impl<F, A: Allocator + Copy> Outcome<F, A> {
    /// Its reports in the order of their events; none where it was not read.
    pub fn reports(&self) -> &[Report]
        ensures { result.now ≡ reports_of self.now }
    {
        match self {
            Outcome::Settled { reports, .. } | Outcome::NoMemory { reports, .. } => reports,
            Outcome::NotOpened | Outcome::NotStarted | Outcome::Unsettled => &[],
        }
    }

    /// How its end is printed.
    pub fn ending(&self) -> Ending
        ensures { result ≡ ending_of self.now }
    {
        match self {
            Outcome::Settled { end, reports, .. } => Ending::Ran {
                end: *end,
                reports: reports.len() as u64,
            },
            Outcome::NoMemory {
                checked,
                reports,
                ..
            } => Ending::NoMemory {
                checked: *checked,
                reports: reports.len() as u64,
            },
            Outcome::NotOpened => Ending::NotOpened,
            Outcome::NotStarted => Ending::NotStarted,
            Outcome::Unsettled => Ending::Unsettled,
        }
    }
}
