//! What is known of a process.

/// How a trace ended, by its end line.
#[derive(Clone, Copy, PartialEq, Eq)]
pub enum Fate {
    Closed,
    NoClose,
    Truncated,
    /// A file whose last record zeros follow.
    Unwritten,
    Malformed,
    TooMany,
    NoMemory,
    /// Its checker has printed no end line.
    NotChecked,
    /// Any other, as a read that failed.
    Other,
}

/// How the process ended, by its recorder.
#[derive(Clone, Copy, PartialEq, Eq)]
pub enum Ending {
    /// Nothing says it.
    Unheard,
    Exit,
    Exec,
    Signal,
    Lost,
    Segment,
    /// A process may say anything.
    Other,
}

/// What else is known.
#[derive(Clone, Copy)]
pub struct Facts {
    /// `--wait` was over.
    pub by_wait: bool,
    /// `--timeout` was over.
    pub by_timeout: bool,
    /// A signal has ended its checker.
    pub killed: bool,
    /// An event found no room.
    pub limit: bool,
    /// Some events were counted past the limit.
    pub left_out: bool,
    /// It may have one segment alone.
    pub one_segment: bool,
    /// A call of the recorder's own has ended it.
    pub own_call: bool,
    /// It does not run any more, or not this program.
    pub gone: bool,
    /// Another program runs in its place.
    pub replaced: bool,
    /// By its own word, each event that may be bad was counted.
    pub none_missing: bool,
    /// An event that may be bad was not counted.
    pub bad_missing: bool,
    /// The trace has all up to an end that the recorder saw.
    pub all_came: bool,
    /// It has code that asancol-cc compiled.
    pub checks: bool,
    /// It came as far as its main.
    pub main: bool,
    /// Its trace is a file, and nobody knows if it still runs.
    pub file_alone: bool,
    /// There was no room for a finding.
    pub findings_lost: bool,
    /// Leaks count, and were not looked for.
    pub leaks_missed: bool,
    /// The recorder's own code has met a fault.
    pub inside: bool,
    /// It has closed the descriptor of its stream.
    pub closed_off: bool,
    /// Another process has ended it, and it has no report.
    pub by_others: bool,
    /// Something stands beside its trace.
    pub beside: bool,
    /// What stands there contradicts itself.
    pub contradiction: bool,
}
