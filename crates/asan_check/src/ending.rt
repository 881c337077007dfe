//! How a process ended.
use trace_record::End;

/// How a process ended, as it is printed.
#[derive(Clone, Copy, Debug, PartialEq, Eq)]
pub enum Ending {
    /// Its stream ended so, with this number of reports.
    Ran { end: End, reports: u64 },
    /// Memory ran out. These are the numbers of events that were checked, and of their reports.
    NoMemory { checked: u64, reports: u64 },
    /// Its stream could not be opened.
    NotOpened,
    /// A thread or a lane was missing.
    NotStarted,
    /// Its lane came without its end.
    Unsettled,
}
