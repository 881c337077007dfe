//! The judgement of a process.

ghost use Rattle.std.specs.Prelude.{◌≡◌, ◌≢◌, true, false, IfSome, IfNone, IsSome};
ghost use Rattle.asan_judgement.specs.Complete.{is_cut_off, is_complete, IsComplete};
ghost use Rattle.asan_judgement.specs.Complete.{LacksNothing, WasChecked, WasSeen, IsInTime, HasBegun};
ghost use Rattle.asan_judgement.specs.Complete.{HasAllByAnEnd, WasSeenUpToThere};
ghost use Rattle.asan_judgement.specs.Reasons.{IsTrueOf, IsGoneAbruptly, answer_for};
ghost use Rattle.asan_judgement.specs.declared.facts.Fate.TheVariants.{NotChecked, NoMemory, TooMany};
ghost use Rattle.asan_judgement.specs.declared.facts.Ending.TheVariants.{Unheard, Signal};
ghost use Rattle.asan_judgement.specs.declared.verdict.Answer.TheVariants.{UpToThere, Unchecked, Incomplete};

use crate::facts::{Ending, Facts, Fate};
use crate::verdict::{Answer, Verdict, Why};

/// Whether the trace breaks off.
fn is_cut_off(fate: Fate) -> bool
    ensures { result ≡ is_cut_off fate }
{
    matches!(fate, Fate::NoClose | Fate::Truncated | Fate::Unwritten)
}

/// What a process counts as, and why.
pub fn judge(fate: Fate, ending: Ending, facts: &Facts) -> Verdict
    ensures seen { is_complete result.answer ≡ true → WasSeen fate ending facts.now }
    ensures lacks { is_complete result.answer ≡ true → LacksNothing facts.now }
    ensures checks { is_complete result.answer ≡ true → facts.now.checks ≡ true }
    ensures checked { is_complete result.answer ≡ true → WasChecked fate }
    ensures in_time { is_complete result.answer ≡ true → IsInTime fate ending facts.now }
    ensures begun { is_complete result.answer ≡ true → HasBegun ending facts.now }
    ensures whole { HasAllByAnEnd fate ending facts.now → IsComplete fate ending facts.now
        → is_complete result.answer ≡ true }
    ensures replaced { ending ≡ Unheard → facts.now.replaced ≡ true → result.answer ≢ UpToThere }
    ensures unchecked { result.answer ≡ Unchecked → facts.now.checks ≡ false }
    ensures lacks_checks_alone { result.answer ≡ Unchecked → LacksNothing facts.now }
    ensures why { IsTrueOf result.why fate ending facts.now }
    ensures answer { result.answer ≡ answer_for result.why }
{
    if let Some(why) = what_was_lost(fate, ending, facts) {
        return incomplete(why);
    }
    if is_cut_off(fate) && ending == Ending::Unheard && facts.gone && facts.none_missing {
        return judge_gone(fate, ending, facts);
    }
    if let Some(why) = what_did_not_come(fate, ending, facts) {
        return incomplete(why);
    }
    judge_seen(fate, ending, facts)
}

fn incomplete(why: Why) -> Verdict
    ensures { result ≡ record { answer = Incomplete; why = why } }
{
    Verdict {
        answer: Answer::Incomplete,
        why,
    }
}

/// What makes a process incomplete, however its trace ended.
fn what_was_lost(fate: Fate, ending: Ending, facts: &Facts) -> Option<Why>
    ensures why { IfSome result (λ it. IsTrueOf it fate ending facts.now) }
    ensures answer { IfSome result (λ it. answer_for it ≡ Incomplete) }
    ensures some { IsSome result → IsComplete fate ending facts.now → ⊥ }
    ensures lacks { IfNone result (LacksNothing facts.now) }
    ensures in_time { IfNone result (IsInTime fate ending facts.now) }
    ensures line { IfNone result (fate ≢ NotChecked) }
{
    let has_open_end = matches!(
        ending,
        Ending::Unheard | Ending::Signal | Ending::Lost | Ending::Segment
    );
    if facts.by_wait && !facts.all_came {
        return Some(Why::StillRan);
    }
    if facts.by_timeout && fate != Fate::Closed && has_open_end {
        return Some(Why::TimedOut);
    }
    if fate == Fate::NotChecked {
        return Some(if facts.killed {
            Why::CheckerKilled
        } else {
            Why::CheckerFailed
        });
    }
    if facts.inside {
        return Some(Why::DiedInside);
    }
    if facts.limit {
        return Some(match (facts.left_out, facts.one_segment) {
            (true, true) => Why::LeftOutOfOneSegment,
            (true, false) => Why::LeftOut,
            (false, _) => Why::AtLimit,
        });
    }
    if facts.own_call {
        return Some(Why::OwnCall);
    }
    if facts.findings_lost {
        return Some(Why::FindingsLost);
    }
    if facts.leaks_missed {
        return Some(Why::LeaksMissed);
    }
    if facts.contradiction {
        return Some(Why::Contradiction);
    }
    None
}

/// Of one that is gone abruptly, and nothing bad of it is missing.
fn judge_gone(fate: Fate, ending: Ending, facts: &Facts) -> Verdict
    requires gone { IsGoneAbruptly fate ending facts.now }
    ensures checks { is_complete result.answer ≡ true → facts.now.checks ≡ true }
    ensures seen { is_complete result.answer ≡ true → WasSeenUpToThere fate ending facts.now }
    ensures whole { facts.now.checks ≡ true → WasSeenUpToThere fate ending facts.now
        → is_complete result.answer ≡ true }
    ensures replaced { facts.now.replaced ≡ true → result.answer ≢ UpToThere }
    ensures unchecked { result.answer ≡ Unchecked → facts.now.checks ≡ false }
    ensures why { IsTrueOf result.why fate ending facts.now }
    ensures answer { result.answer ≡ answer_for result.why }
{
    let (answer, why) = if !facts.checks {
        (Answer::Unchecked, Why::GoneUnchecked)
    } else if facts.replaced && facts.main {
        (Answer::Complete, Why::Replaced)
    } else if facts.replaced {
        (Answer::BeforeMain, Why::ReplacedBeforeMain)
    } else if facts.main {
        (Answer::UpToThere, Why::Abrupt)
    } else if facts.by_others {
        (Answer::UpToThere, Why::AbruptByOthers)
    } else {
        (Answer::BeforeMain, Why::AbruptBeforeMain)
    };
    Verdict { answer, why }
}

/// What is missing up to the end of the process.
fn what_did_not_come(fate: Fate, ending: Ending, facts: &Facts) -> Option<Why>
    ensures why { IfSome result (λ it. IsTrueOf it fate ending facts.now) }
    ensures answer { IfSome result (λ it. answer_for it ≡ Incomplete) }
    ensures some { IsSome result → HasAllByAnEnd fate ending facts.now → WasChecked fate
        → facts.now.all_came ≡ true → facts.now.beside ≡ true → ⊥ }
    ensures all { IfNone result (facts.now.all_came ≡ true) }
    ensures beside { IfNone result (facts.now.beside ≡ true) }
    ensures memory { IfNone result (fate ≢ NoMemory) }
    ensures limit { IfNone result (fate ≢ TooMany) }
{
    let has_no_end = (is_cut_off(fate) || fate == Fate::Malformed) && ending == Ending::Unheard;
    if fate == Fate::NoMemory {
        return Some(Why::CheckerHadNoMemory);
    }
    if fate == Fate::TooMany {
        return Some(Why::CheckerAtLimit);
    }
    if facts.closed_off && facts.bad_missing && !facts.all_came {
        return Some(Why::ClosedOffWithBadMissing);
    }
    if ending == Ending::Lost && !facts.all_came {
        return Some(if facts.closed_off {
            Why::ClosedOffInOneSegment
        } else {
            Why::RecordingLost
        });
    }
    if has_no_end && facts.bad_missing {
        return Some(Why::AbruptWithBadMissing);
    }
    if fate == Fate::Unwritten && ending == Ending::Unheard && facts.file_alone {
        return Some(Why::MayStillRun);
    }
    if has_no_end && !facts.file_alone {
        return Some(Why::LastNotSeen);
    }
    if facts.bad_missing && !facts.all_came {
        return Some(Why::BadMissing);
    }
    if !facts.all_came {
        return Some(Why::EndedAsFate);
    }
    if !facts.beside {
        return Some(Why::NothingBeside);
    }
    None
}

/// Of one whose end was seen.
fn judge_seen(fate: Fate, ending: Ending, facts: &Facts) -> Verdict
    requires all { facts.now.all_came ≡ true }
    ensures checks { is_complete result.answer ≡ true → facts.now.checks ≡ true }
    ensures begun { is_complete result.answer ≡ true → HasBegun ending facts.now }
    ensures whole { facts.now.checks ≡ true → HasBegun ending facts.now
        → is_complete result.answer ≡ true }
    ensures abrupt { result.answer ≡ UpToThere → ending ≡ Signal }
    ensures unchecked { result.answer ≡ Unchecked → facts.now.checks ≡ false }
    ensures why { IsTrueOf result.why fate ending facts.now }
    ensures answer { result.answer ≡ answer_for result.why }
{
    let (answer, why) = if !facts.checks {
        (Answer::Unchecked, Why::Unchecked)
    } else if ending != Ending::Signal {
        (Answer::Complete, Why::Seen)
    } else if facts.main {
        (Answer::Complete, Why::BySignal)
    } else if facts.by_others {
        (Answer::UpToThere, Why::BySignalOfOthers)
    } else {
        (Answer::BeforeMain, Why::BySignalBeforeMain)
    };
    Verdict { answer, why }
}
