//! Laws of outcomes: what the bytes say does not depend on how they came. Each is a function that
//! does nothing: its contract is the law.

ghost use Rattle.std.specs.Prelude.{◌≡◌, ◌++◌, ℕ, IsTrue, List, Some};
ghost use Rattle.trace_record.specs.declared.event.Event.{Event};
ghost use Rattle.trace_record.specs.declared.end.End.{End};
ghost use Rattle.asan_check.specs.declared.report.Report.{Report};
ghost use Rattle.trace_feed.specs.Feeds.{FeedState};
ghost use Rattle.asan_stream.specs.declared.outcome.Outcome.{Outcome as AnOutcome};
ghost use Rattle.asan_stream.specs.Agreement.{IsOutcomeOfBytes, NoReadFailed, end_of, is_settled};
ghost use Rattle.asan_stream.specs.Outcomes.{IsSpelled, reports_of};

use std::alloc::Allocator;

/// The same bytes under one event limit spell one end of one list of events, in whatever pieces
/// they come and however many of them were taken, as long as no read failed. Where one failed, the
/// events are the first of these.
pub fn bytes_spell_one_end()
    ensures same { (limit : ℕ) (bytes : List ℕ) (before after other_before other_after : FeedState)
        (events others : List Event) (end other : End) →
        before.to_come ≡ Some bytes → other_before.to_come ≡ Some bytes →
        IsSpelled limit before after events end →
        IsSpelled limit other_before other_after others other →
        NoReadFailed end → NoReadFailed other → (events ≡ others) × (end ≡ other) }
    ensures first { (limit : ℕ) (bytes : List ℕ) (before after other_before other_after : FeedState)
        (events others : List Event) (end other : End) →
        before.to_come ≡ Some bytes → other_before.to_come ≡ Some bytes →
        IsSpelled limit before after events end →
        IsSpelled limit other_before other_after others other →
        NoReadFailed other → (later : List Event) × (others ≡ events ++ later) }
{}

/// Two outcomes of the same bytes under one event limit have the same end, if no read failed of
/// either, and the same reports too, if both are settled and had one bound on the quarantine.
///
/// Whatever became of the one, by a failed read or because memory ran out, its reports are the
/// first ones of the other, if that is settled and no read of it failed.
pub fn outcomes_agree<F, G, A: Allocator + Copy, B: Allocator + Copy>()
    ensures ends { (limit bound other_bound : ℕ) (bytes : List ℕ)
        (outcome : AnOutcome F A) (other : AnOutcome G B) (end other_end : End) →
        IsOutcomeOfBytes limit bound bytes outcome →
        IsOutcomeOfBytes limit other_bound bytes other →
        end_of outcome ≡ Some end → end_of other ≡ Some other_end →
        NoReadFailed end → NoReadFailed other_end → end ≡ other_end }
    ensures reports { (limit bound : ℕ) (bytes : List ℕ)
        (outcome : AnOutcome F A) (other : AnOutcome G B) (end other_end : End) →
        IsOutcomeOfBytes limit bound bytes outcome → IsOutcomeOfBytes limit bound bytes other →
        end_of outcome ≡ Some end → end_of other ≡ Some other_end →
        NoReadFailed end → NoReadFailed other_end →
        IsTrue (is_settled outcome) → IsTrue (is_settled other) →
        reports_of outcome ≡ reports_of other }
    ensures first_reports { (limit bound : ℕ) (bytes : List ℕ)
        (outcome : AnOutcome F A) (other : AnOutcome G B) (other_end : End) →
        IsOutcomeOfBytes limit bound bytes outcome → IsOutcomeOfBytes limit bound bytes other →
        end_of other ≡ Some other_end → NoReadFailed other_end → IsTrue (is_settled other) →
        (later : List Report) × (reports_of other ≡ reports_of outcome ++ later) }
{}
