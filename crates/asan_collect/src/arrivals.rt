//! The senders that come through a door, once there is room for them.

ghost use Rattle.std.specs.Prelude.{◌≡◌, ◌≤◌, ◌^◌, IfOk, OnErr, vec_len};
ghost use Rattle.asan_collect.specs.Came.{HaveCome};
ghost use Rattle.asan_collect.specs.Rooms.{AreEmptyRooms};

use crate::NoMemory;
use crate::rooms::Rooms;
use asan_senders::{MAX_SENDERS, ask};
use asan_stream::Options;
use std::alloc::Allocator;
use trace_feed::{Arrival, Door};

/// Makes room for 256 senders, and then asks the door until it is over or has given 256 other
/// answers, which are these.
///
/// # Errors
///
/// `NoMemory` where there was no room. The door was not asked then.
pub(crate) fn let_in<D: Door, A: Allocator + Copy>(
    alloc: A,
    door: &mut D,
    options: Options,
) -> Result<(Vec<Arrival<D::Feed>, A>, Rooms<D::Feed, A>), NoMemory>
where
    D::Feed: Drop,
    requires { (D.seen door.old).refusals ≤ 2 ^ 32 }
    ensures came { IfOk result (λ both.
        HaveCome D.Feed.seen (D.seen door.old) (D.seen door.new) both.0.items) }
    ensures room { IfOk result (λ both. AreEmptyRooms both.1) }
    ensures workers { IfOk result (λ both. vec_len both.1.seats.shares ≡ options.workers) }
    ensures unasked { OnErr result (door.new ≡ door.old) }
{
    let room = Vec::with_capacity(alloc, MAX_SENDERS)?;
    let rooms = Rooms::new(alloc, options)?;
    Ok((ask(door, room), rooms))
}
