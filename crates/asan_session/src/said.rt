//! What is said where no trace is checked, and the status that goes with it.

ghost use Rattle.std.specs.Prelude.{◌≡◌};
ghost use Rattle.asan_senders.specs.Statuses.{unchecked};

use asan_collect::UNCHECKED;
use std::fmt::Display;
use std::io::Write;

/// Says that there is no memory to read the command line or to start, and gives the status to end
/// with.
pub fn no_memory<E: Write>(stderr: &mut E) -> u8
    ensures { result ≡ unchecked }
{
    say(stderr, &"no memory", UNCHECKED)
}

/// Says what is wrong, in one line, and gives the status to end with, whether or not the
/// line could be written.
pub fn say<E: Write, T: Display>(stderr: &mut E, text: &T, status: u8) -> u8
    ensures { result ≡ status }
{
    let _ = writeln!(stderr, "{text}");
    status
}
