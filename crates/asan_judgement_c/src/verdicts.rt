//! The verdict on a process.

use asan_judgement::{Answer, Ending, Facts, Fate, Why, judge};

/// The fates in the order of run/judgement_rows.h.
fn fate_of(number: u32) -> Fate {
    match number {
        0 => Fate::Closed,
        1 => Fate::NoClose,
        2 => Fate::Truncated,
        3 => Fate::Unwritten,
        4 => Fate::Malformed,
        5 => Fate::TooMany,
        6 => Fate::NoMemory,
        7 => Fate::NotChecked,
        _ => Fate::Other,
    }
}

/// The endings in the order of common/format.h.
fn ending_of(number: u32) -> Ending {
    match number {
        0 => Ending::Unheard,
        1 => Ending::Exit,
        2 => Ending::Exec,
        3 => Ending::Signal,
        4 => Ending::Lost,
        5 => Ending::Segment,
        _ => Ending::Other,
    }
}

fn has(bits: u32, bit: u32) -> bool {
    bits & bit != 0
}

/// The facts as the bits of run/judgement_rows.h.
fn facts_of(bits: u32) -> Facts {
    Facts {
        by_wait: has(bits, 1),
        by_timeout: has(bits, 2),
        killed: has(bits, 4),
        limit: has(bits, 8),
        left_out: has(bits, 16),
        one_segment: has(bits, 32),
        own_call: has(bits, 64),
        gone: has(bits, 128),
        replaced: has(bits, 256),
        none_missing: has(bits, 512),
        bad_missing: has(bits, 1024),
        all_came: has(bits, 2048),
        checks: has(bits, 4096),
        main: has(bits, 8192),
        file_alone: has(bits, 16_384),
        findings_lost: has(bits, 32_768),
        leaks_missed: has(bits, 65_536),
        inside: has(bits, 131_072),
        closed_off: has(bits, 262_144),
        by_others: has(bits, 524_288),
        beside: has(bits, 1_048_576),
        contradiction: has(bits, 2_097_152),
    }
}

fn answer_number(answer: Answer) -> u32 {
    match answer {
        Answer::Complete => 0,
        Answer::UpToThere => 1,
        Answer::BeforeMain => 2,
        Answer::Unchecked => 3,
        Answer::Incomplete => 4,
    }
}

/// Which row of run/judgement_rows.h the reason is.
fn row_number(why: Why) -> u32 {
    match why {
        Why::StillRan => 0,
        Why::TimedOut => 1,
        Why::CheckerKilled => 2,
        Why::CheckerFailed => 3,
        Why::DiedInside => 4,
        Why::LeftOutOfOneSegment => 5,
        Why::LeftOut => 6,
        Why::AtLimit => 7,
        Why::OwnCall => 8,
        Why::FindingsLost => 9,
        Why::LeaksMissed => 10,
        Why::Contradiction => 11,
        Why::GoneUnchecked => 12,
        Why::Replaced => 13,
        Why::ReplacedBeforeMain => 14,
        Why::Abrupt => 15,
        Why::AbruptByOthers => 16,
        Why::AbruptBeforeMain => 17,
        Why::CheckerHadNoMemory => 18,
        Why::CheckerAtLimit => 19,
        Why::ClosedOffWithBadMissing => 20,
        Why::ClosedOffInOneSegment => 21,
        Why::RecordingLost => 22,
        Why::AbruptWithBadMissing => 23,
        Why::MayStillRun => 24,
        Why::LastNotSeen => 25,
        Why::BadMissing => 26,
        Why::EndedAsFate => 27,
        Why::NothingBeside => 28,
        Why::Unchecked => 29,
        Why::BySignal => 30,
        Why::BySignalOfOthers => 31,
        Why::BySignalBeforeMain => 32,
        Why::Seen => 33,
    }
}

/// The answer, and 256 times the row.
#[unsafe(no_mangle)]
pub extern "C" fn asan_judgement_verdict(fate: u32, ending: u32, facts: u32) -> u32 {
    let verdict = judge(fate_of(fate), ending_of(ending), &facts_of(facts));
    row_number(verdict.why) << 8 | answer_number(verdict.answer)
}
