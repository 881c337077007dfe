//! A door over arrivals in memory.

ghost use Rattle.std.specs.Prelude.{◌≡◌, ◌==◌, IsTrue, Some, length};
ghost use Rattle.trace_feed.specs.Doors.{all_fresh, before_over};

use crate::door::{Arrival, Door};
use crate::feed::Feed;
use std::alloc::{Allocator, Global};
use std::collections::VecDeque;
use std::marker::Model;

/// A door over arrivals in memory, which its contract knows. It takes no memory.
#[derive(Drop)]
pub struct ListDoor<F: Feed, A: Allocator + Copy = Global> {
    rest: VecDeque<Arrival<F>, A>,
    refusals: u64,
}

impl<F: Feed, A: Allocator + Copy> Model for ListDoor<F, A> {
    ghost use Rattle.std.specs.Prelude.{IsTrue};
    ghost use Rattle.trace_feed.specs.Doors.{Arrivals, all_fresh, before_over};

    ghost Value = { Arrivals F };

    ghost view = { λ d. record { to_arrive = before_over d.rest.items; refusals = d.refusals } };

    ghost invariant = { λ d. IsTrue (all_fresh F.seen d.rest.items) };
}

impl<F: Feed, A: Allocator + Copy> ListDoor<F, A> {
    /// A door through which these arrive, in order. An `Over` in the list ends it.
    ///
    /// No read may have failed yet of any feed in the list.
    pub fn new(arrivals: Vec<Arrival<F>, A>) -> ListDoor<F, A>
        requires { IsTrue (all_fresh F.seen arrivals.items) }
        ensures arrivals { result.to_arrive ≡ before_over arrivals.items }
        ensures none_refused { result.refusals ≡ 0 }
    {
        ListDoor {
            rest: VecDeque::from(arrivals),
            refusals: 0,
        }
    }
}

impl<F: Feed + Drop, A: Allocator + Copy> Door for ListDoor<F, A> {
    type Feed = F;

    ghost seen = { λ d. record {
      to_arrive = Some d.to_arrive;
      left = Some (length d.to_arrive);
      refusals = d.refusals;
      is_shut = length d.to_arrive == 0;
    } };

    fn next(&mut self) -> Arrival<F> {
        match self.rest.pop_front() {
            Some(Arrival::Came(feed)) => Arrival::Came(feed),
            Some(Arrival::Refused) => {
                self.refusals += 1;
                Arrival::Refused
            }
            Some(Arrival::Over) => {
                self.rest.clear();
                Arrival::Over
            }
            None => Arrival::Over,
        }
    }

    fn refusals(&self) -> u64 {
        self.refusals
    }
}
