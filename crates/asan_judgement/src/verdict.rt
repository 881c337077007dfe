//! What is said of a process.

/// What a process counts as.
#[derive(Clone, Copy, PartialEq, Eq)]
pub enum Answer {
    Complete,
    /// It ended abruptly, and was seen up to there. It counts as complete.
    UpToThere,
    /// A signal, or an abrupt end, came before its main.
    BeforeMain,
    /// No code of it is checked.
    Unchecked,
    Incomplete,
}

/// Why, which is a row of run/judgement_rows.h.
#[derive(Clone, Copy, PartialEq, Eq)]
pub enum Why {
    StillRan,
    TimedOut,
    CheckerKilled,
    CheckerFailed,
    DiedInside,
    LeftOutOfOneSegment,
    LeftOut,
    AtLimit,
    OwnCall,
    FindingsLost,
    LeaksMissed,
    Contradiction,
    GoneUnchecked,
    Replaced,
    ReplacedBeforeMain,
    Abrupt,
    AbruptByOthers,
    AbruptBeforeMain,
    CheckerHadNoMemory,
    CheckerAtLimit,
    ClosedOffWithBadMissing,
    ClosedOffInOneSegment,
    RecordingLost,
    AbruptWithBadMissing,
    MayStillRun,
    LastNotSeen,
    BadMissing,
    EndedAsFate,
    NothingBeside,
    Unchecked,
    BySignal,
    BySignalOfOthers,
    BySignalBeforeMain,
    /// It needs no reason.
    Seen,
}

#[derive(Clone, Copy)]
pub struct Verdict {
    pub answer: Answer,
    pub why: Why,
}
