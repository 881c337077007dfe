//! What the arguments ask for.

ghost use Rattle.std.specs.Prelude.{◌≤◌, length};
ghost use Rattle.asan_senders.specs.Ranges.{most_senders};

use asan_inputs::Serving;
use asan_stream::Options;

/// What to do.
#[derive(Drop)]
pub enum Request {
    /// Check the trace on standard input with the usual options.
    Input,
    /// Check the traces in some files.
    Files(TraceFiles),
    /// Check the traces that come through a socket.
    Serve(Serving),
}

/// The files to check, no more than one call takes, and how they are checked.
#[derive(Drop)]
pub struct TraceFiles {
    /// Their names, in order. `-` is standard input, and is there at most once.
    pub names: Vec<String>,
    pub options: Options,
    /// Whether to say at the end what became of each file.
    pub verbose: bool,
    /// Whether to print each report when it is found.
    pub is_live: bool,
    pub ghost few: { length names.items ≤ most_senders },
}
