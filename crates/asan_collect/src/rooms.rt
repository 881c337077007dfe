//! Room for the lists of a collection.

ghost use Rattle.std.specs.Prelude.{◌≡◌, IfOk, vec_len};

use crate::NoMemory;
use asan_senders::{MAX_SENDERS, Seats, WorkerThread};
use asan_stream::{Options, Outcome};
use std::alloc::Allocator;
use trace_feed::Feed;

/// Room for all that a collection makes of its senders.
#[derive(Drop)]
pub(crate) struct Rooms<F: Feed, A: Allocator + Copy> {
    pub seats: Seats<F, A>,
    pub workers: Vec<WorkerThread<A>, A>,
    pub outcomes: Vec<Outcome<F, A>, A>,
}

impl<F: Feed + Drop, A: Allocator + Copy> Rooms<F, A> {
    ghost use Rattle.asan_collect.specs.Rooms.{AreEmptyRooms};

    /// Room for 256 senders, and no sender yet. There is a share for each worker.
    pub(crate) fn new(alloc: A, options: Options) -> Result<Rooms<F, A>, NoMemory>
        ensures room { IfOk result AreEmptyRooms }
        ensures workers { IfOk result (λ r. vec_len r.seats.shares ≡ options.workers) }
    {
        let seats = Seats::new(alloc, options)?;
        let workers = Vec::with_capacity(alloc, seats.shares.len())?;
        let outcomes = Vec::with_capacity(alloc, MAX_SENDERS)?;
        Ok(Rooms {
            seats,
            workers,
            outcomes,
        })
    }
}
