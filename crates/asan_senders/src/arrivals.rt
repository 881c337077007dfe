//! Asking a door for the senders of one call.

ghost use Rattle.std.specs.Prelude.{◌≡◌, ◌+◌, ◌≤◌, ◌⊎◌, ◌^◌, [], All, IsTrue, length, vec_capacity};
ghost use Rattle.asan_senders.specs.Arrivals.{Arrived, IsAllThatCame, IsArrived};
ghost use Rattle.asan_senders.specs.Counts.{refused_among};
ghost use Rattle.asan_senders.specs.Ranges.{most_senders};

use std::alloc::Allocator;
use trace_feed::{Arrival, Door};

/// The most senders that one call takes.
pub const MAX_SENDERS: usize = 256;

/// Asks the door until it is over or has given 256 other answers, which are these. There is room
/// for all of them.
pub fn ask<D: Door, A: Allocator + Copy>(
    door: &mut D,
    room: Vec<Arrival<D::Feed>, A>,
) -> Vec<Arrival<D::Feed>, A>
    requires empty { room.items ≡ [] }
    requires room { most_senders ≤ vec_capacity room }
    requires few_refused { (D.seen door.old).refusals ≤ 2 ^ 32 }
    ensures arrived { Arrived (D.seen door.old).to_arrive (D.seen door.new).to_arrive result.items }
    ensures fresh { All (IsArrived D.Feed.seen) result.items }
    ensures refused { (D.seen door.new).refusals
        ≡ refused_among result.items + (D.seen door.old).refusals }
    ensures all { IsTrue (D.seen door.new).is_shut ⊎ (length result.items ≡ most_senders) }
    ensures count { IsAllThatCame (D.seen door.old).left (length result.items) }
    ensures few { length result.items ≤ most_senders }
{
    let mut arrivals = room;
    for _ in 0..MAX_SENDERS {
        let arrival = match door.next() {
            Arrival::Came(feed) => Arrival::Came(feed),
            Arrival::Refused => Arrival::Refused,
            Arrival::Over => break,
        };
        arrivals.push_reserved(arrival);
    }
    arrivals
}
