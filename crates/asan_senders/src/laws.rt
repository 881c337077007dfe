//! The law of what `collect` answers: a function that does nothing, whose contract is the law.

ghost use Rattle.std.specs.Prelude.{◌≡◌, ℕ, IsTrue, List, Some};
ghost use Rattle.trace_feed.specs.Feeds.{FeedState};
ghost use Rattle.trace_feed.specs.declared.door.Arrival.TheVariants as arrival;
ghost use Rattle.asan_stream.specs.declared.options.Options.{Options as AnOptions};
ghost use Rattle.asan_stream.specs.declared.outcome.Outcome.{Outcome as AnOutcome};
ghost use Rattle.asan_stream.specs.Agreement.{IsOutcomeOfBytes};
ghost use Rattle.asan_senders.specs.Arrivals.{IsAnswerTo};
ghost use Rattle.asan_stream.specs.Outcomes.{is_read};

use std::alloc::Allocator;

/// What `collect` answers for a feed that came, if the feed was read to the end of its stream, is
/// an outcome of the feed's bytes. So the other laws speak of it too, and it agrees with what
/// `check_feed` makes of the same bytes.
pub fn answers_are_outcomes<F, A: Allocator + Copy>()
    ensures { (seen : F → FeedState) (options : AnOptions) (bytes : List ℕ) (feed : F)
        (outcome : AnOutcome F A) → (seen feed).to_come ≡ Some bytes →
        IsAnswerTo seen options (arrival.Came feed) outcome → IsTrue (is_read outcome) →
        IsOutcomeOfBytes options.limit options.quarantine bytes outcome }
{}
