//! The status that a program ends with.

ghost use Rattle.std.specs.Prelude.{◌≡◌};
ghost use Rattle.std.specs.List.{list_all, list_any};
ghost use Rattle.asan_senders.specs.Statuses.{status_of, is_closed as is_closed_of};
ghost use Rattle.asan_senders.specs.Statuses.{has_report as has_report_of};

use asan_stream::Outcome;
use std::alloc::Allocator;
use trace_record::Fate;

/// The status where every stream was checked up to its close, and there is no report.
const CLEAN: u8 = 0;

/// The status where every stream was checked up to its close, and there is a report.
const REPORTED: u8 = 1;

/// The status where some stream was not checked up to its close, and of a program that could not
/// begin.
pub const UNCHECKED: u8 = 3;

/// The status where not everything was written.
pub const UNWRITTEN: u8 = 4;

/// The status that a program ends with after these outcomes: 4 if not everything was written, else
/// 3 if some stream was not checked up to its close, else 1 if there is a report, else 0. Takes no
/// memory.
pub fn exit_status<F, A: Allocator + Copy>(outcomes: &[Outcome<F, A>], wrote: bool) -> u8
    ensures { result ≡ status_of outcomes.now wrote }
{
    if !wrote {
        UNWRITTEN
    } else if !are_closed(outcomes) {
        UNCHECKED
    } else if have_report(outcomes) {
        REPORTED
    } else {
        CLEAN
    }
}

/// Whether every stream was checked up to its close.
fn are_closed<F, A: Allocator + Copy>(outcomes: &[Outcome<F, A>]) -> bool
    ensures { result ≡ list_all is_closed_of outcomes.now }
{
    outcomes.iter().all(|outcome| is_closed(outcome))
}

/// Whether some stream has a report.
fn have_report<F, A: Allocator + Copy>(outcomes: &[Outcome<F, A>]) -> bool
    ensures { result ≡ list_any has_report_of outcomes.now }
{
    outcomes.iter().any(|outcome| has_report(outcome))
}

/// Whether all of a sender's events were checked, up to its close.
fn is_closed<F, A: Allocator + Copy>(outcome: &Outcome<F, A>) -> bool
    ensures { result ≡ is_closed_of outcome.now }
{
    match outcome {
        Outcome::Settled { end, .. } => matches!(end.fate, Fate::Closed),
        _ => false,
    }
}

/// Whether there is a report.
fn has_report<F, A: Allocator + Copy>(outcome: &Outcome<F, A>) -> bool
    ensures { result ≡ has_report_of outcome.now }
{
    !outcome.reports().is_empty()
}
