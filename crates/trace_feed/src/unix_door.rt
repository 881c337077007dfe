//! A door over the peers that connect to a Unix socket.

ghost use Rattle.std.specs.Prelude.{◌≡◌, ◌==◌, ◌-◌, ◌<◌, ◌^◌, ◌↔◌, IsTrue, None, Some};
ghost use Rattle.trace_feed.specs.Doors.{CountsDown, IfCame, is_over, refusals_after};

use crate::door::{Arrival, Door};
use crate::read_feed::ReadFeed;
use std::marker::Model;
use std::os::unix::net::{UnixListener, UnixStream};

/// A door over a Unix socket, which accepts one peer for each arrival, up to a given count.
///
/// It owns the listener, and each feed owns its peer's connection. The end of a feed is where its
/// peer has closed the connection. The socket's file stays when the door is dropped.
#[derive(Drop)]
pub struct UnixDoor {
    listener: UnixListener,
    left: u32,
    refusals: u64,
}

impl Model for UnixDoor {
    ghost use Rattle.trace_feed.specs.Doors.{Peers};

    ghost Value = { Peers };

    ghost view = { λ d. record { left = d.left; refusals = d.refusals } };
}

impl UnixDoor {
    /// A door that accepts a peer of `listener` `count` times. It accepts none yet.
    pub fn new(listener: UnixListener, count: u32) -> UnixDoor
        ensures left { result.left ≡ count }
        ensures none_refused { result.refusals ≡ 0 }
    {
        UnixDoor {
            listener,
            left: count,
            refusals: 0,
        }
    }
}

impl Door for UnixDoor {
    type Feed = ReadFeed<UnixStream>;

    ghost seen = { λ d. record {
      to_arrive = None;
      left = Some d.left;
      refusals = d.refusals;
      is_shut = d.left == 0;
    } };

    /// Waits for the next peer and accepts it. Where that fails, the answer is `Refused`.
    ///
    /// Each call uses up one of the count, a failed one too, until none is left. After that each
    /// call answers `Over` at once. The listener's own settings hold: where it does not block, a
    /// call that finds no peer fails.
    fn next(&mut self) -> Arrival<ReadFeed<UnixStream>>
        requires { self.old.refusals < 2 ^ 64 - 1 }
        ensures turn { CountsDown (Some self.old.left) (Some self.new.left) result }
        ensures count { self.new.refusals ≡ refusals_after result self.old.refusals }
        ensures fresh { IfCame (λ f. f.faults ≡ 0) result }
        ensures over { IsTrue (is_over result) → IsTrue (self.new.left == 0) }
        ensures stays { IsTrue (self.old.left == 0) → IsTrue (is_over result) }

        ensures ends { IsTrue (is_over result) ↔ (self.old.left ≡ 0) }
        ensures in_turn { self.new.left ≡ self.old.left - 1 }
    {
        if self.left == 0 {
            return Arrival::Over;
        }
        self.left -= 1;
        match self.listener.accept() {
            Ok((stream, _)) => Arrival::Came(ReadFeed::new(stream)),
            Err(_) => {
                self.refusals += 1;
                Arrival::Refused
            }
        }
    }

    fn refusals(&self) -> u64 {
        self.refusals
    }
}
