//! The trait of doors: senders that arrive one after the other.

ghost use Rattle.std.specs.Prelude.{◌≡◌, ◌-◌, ◌<◌, ◌^◌, IsTrue};
ghost use Rattle.trace_feed.specs.Doors.{Arrives, CountsDown, DoorState, IfCame};
ghost use Rattle.trace_feed.specs.Doors.{is_over, refusals_after};

use crate::feed::Feed;

/// What a door answers.
#[derive(Drop)]
pub enum Arrival<F> {
    /// A sender came in: this is its feed.
    Came(F),
    /// A sender could not be let in.
    Refused,
    /// No more senders come.
    Over,
}

/// Senders that arrive one after the other, and a count of those that could not be let in.
pub trait Door {
    type Feed: Feed;

    // What is seen of the door.
    ghost seen: { Self → DoorState Self.Feed };

    /// Waits for the next arrival.
    ///
    /// `Refused` raises the count by one, and the other answers leave it. No read has failed of a
    /// feed that came. After an `Over` each call answers `Over`. The count has to be below
    /// `u64::MAX` before the call.
    fn next(&mut self) -> Arrival<Self::Feed>
        requires { (seen self.old).refusals < 2 ^ 64 - 1 }
        ensures order { Arrives (seen self.old).to_arrive (seen self.new).to_arrive result }
        ensures turn { CountsDown (seen self.old).left (seen self.new).left result }
        ensures count { (seen self.new).refusals ≡ refusals_after result (seen self.old).refusals }
        ensures fresh { IfCame (λ f. (Self.Feed.seen f).faults ≡ 0) result }
        ensures over { IsTrue (is_over result) → IsTrue (seen self.new).is_shut }
        ensures stays { IsTrue (seen self.old).is_shut → IsTrue (is_over result) };

    /// How many senders were refused.
    fn refusals(&self) -> u64
        ensures { result ≡ (seen self.now).refusals };
}
