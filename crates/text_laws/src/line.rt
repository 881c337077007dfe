//! What a line says.

use asan_check::{Ending, Report};

/// What a line says of a process.
#[derive(Clone, Copy)]
pub enum Line {
    /// The report on one of its events.
    Report { process: u32, report: Report },
    /// How it ended.
    End { process: u32, ending: Ending },
}
