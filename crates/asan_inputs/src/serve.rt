//! The socket that senders connect to.

ghost use Rattle.std.specs.Prelude.{◌≡◌, ◌<◌, ◌≤◌, ◌↔◌, [], IfOk, IsErr, IsTrue, string_bytes};
ghost use Rattle.asan_senders.specs.Ranges.{most_senders};

use asan_senders::MAX_SENDERS;
use asan_stream::Options;
use std::net::Net;
use std::os::unix::net::UnixListener;
use std::rt::Files;
use std::{fs, io};
use thiserror::Error;
use trace_feed::UnixDoor;

/// Which socket to serve, and how.
#[derive(Drop)]
pub struct Serving {
    /// The path of the socket, which is to be made.
    pub socket: String,
    /// How many connections to accept, 1 to 256.
    pub count: u32,
    /// The path of the file to make once the socket listens.
    pub ready: Option<String>,
    /// How their traces are checked.
    pub options: Options,
    /// Whether to print each report when it is found.
    pub is_live: bool,
    pub ghost some_sender: { 0 < count },
    pub ghost count_in_range: { count ≤ most_senders },
}

/// Whether a call may accept this many connections: 1 to 256.
pub fn is_sender_count(count: u32) -> bool
    ensures { IsTrue result ↔ ((0 < count) × (count ≤ most_senders)) }
{
    0 < count && count <= MAX_SENDERS as u32
}

/// The socket can't be bound, or the file that says that it listens can't be made.
#[derive(Debug, Drop, Error)]
#[error("cannot serve")]
pub struct CannotServe;

impl From<io::Error> for CannotServe {
    fn from(_error: io::Error) -> CannotServe {
        CannotServe
    }
}

/// Makes the socket, and then the file that says that it listens, where one is asked for. The door
/// that it answers has accepted no connection yet.
///
/// A path that exists can't be bound, nor can an empty one. A file that is there already is
/// emptied. Neither the socket nor the file is removed again, not even after an error.
pub fn listen<R: Files + Net>(rt: &R, serving: &Serving) -> Result<UnixDoor, CannotServe>
    ensures named { string_bytes serving.now.socket ≡ [] → IsErr result }
    ensures count { IfOk result (λ door. door.left ≡ serving.now.count) }
    ensures none_refused { IfOk result (λ door. door.refusals ≡ 0) }
{
    if serving.socket.is_empty() {
        return Err(CannotServe);
    }
    let listener = UnixListener::bind(rt, serving.socket.as_str())?;
    if let Some(ready) = &serving.ready {
        fs::write(rt, ready.as_str(), "")?;
    }
    Ok(UnixDoor::new(listener, serving.count))
}
