//! The program `asancol`, over any runtime, a reader and two writers.
#![tactic(auto)]

mod arguments;
mod closed_streams;
mod entry;
mod program;

pub use closed_streams::ClosedStreams;
pub use entry::start;
pub use program::run;
