//! The standard streams that were closed when the program started.

use std::fs::File;
use std::os::fd::AsRawFd;
use std::rt::Files;

/// The greatest descriptor of a standard stream: that of standard error.
const LAST_STREAM: i32 = 2;

/// What stands in the place of the standard streams that were closed when the program started.
///
/// The system gives what is opened next the lowest descriptor that is free, and a file or a peer
/// would be taken for the stream. So each of these descriptors is held by a folder: a read of it
/// fails, and so does a write, as it would on the closed stream.
#[derive(Drop)]
pub struct ClosedStreams {
    held: [Option<File>; 3],
}

impl ClosedStreams {
    /// Holds the descriptors of the standard streams that are closed, before anything is opened.
    pub fn hold<R: Files<File = File>>(rt: &R) -> ClosedStreams {
        ClosedStreams {
            held: [folder(rt), folder(rt), folder(rt)],
        }
    }
}

/// A folder that has the descriptor of a standard stream, or `None` where all three are taken.
fn folder<R: Files<File = File>>(rt: &R) -> Option<File> {
    File::open(rt, "/")
        .ok()
        .filter(|folder| folder.as_raw_fd() <= LAST_STREAM)
}
