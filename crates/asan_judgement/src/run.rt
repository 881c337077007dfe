//! The status of a run.

ghost use Rattle.std.specs.Prelude.{◌≡◌, ◌≢◌, ◌⊎◌, true, false};
ghost use Rattle.std.specs.List.{list_all, list_any};
ghost use Rattle.asan_judgement.specs.Runs.{was_complete, was_unchecked, was_complete_or_unchecked};
ghost use Rattle.asan_judgement.specs.Runs.{has_report, all_seen, is_report_counted};
ghost use Rattle.asan_judgement.specs.Runs.{AreUsual, NoReportSays};

use crate::verdict::Answer;

/// What came of a process.
#[derive(Clone, Copy)]
pub struct Process {
    pub answer: Answer,
    pub reports: u64,
}

/// What asancol-report has said at the end: a suppression or a baseline changes this, and nothing
/// else.
#[derive(Clone, Copy)]
pub enum Said {
    /// No report counts.
    Clean,
    /// A report counts.
    Counts,
    /// No report counts, and something was not seen.
    Incomplete,
    /// It has failed, so each report counts.
    Nothing,
}

/// What a run came to, apart from its processes.
#[derive(Clone, Copy)]
pub struct Run {
    /// The status of the command: 0 if it ended well.
    pub command: u8,
    pub said: Said,
    /// Nothing was recorded.
    pub is_empty: bool,
    /// Something was not seen that is no process here: one that still runs, or did not come.
    pub is_cut_short: bool,
}

/// The statuses that were asked for, where 0 leaves the command's.
#[derive(Clone, Copy)]
pub struct Statuses {
    /// `--exitcode`
    pub reports: u8,
    /// `--incomplete-exitcode`
    pub incomplete: u8,
    /// `--nothing-exitcode`
    pub nothing: u8,
}

fn is_complete(process: &Process) -> bool
    ensures { result ≡ was_complete process.now }
{
    matches!(process.answer, Answer::Complete | Answer::UpToThere)
}

fn is_unchecked(process: &Process) -> bool
    ensures { result ≡ was_unchecked process.now }
{
    matches!(process.answer, Answer::Unchecked)
}

fn is_complete_or_unchecked(process: &Process) -> bool
    ensures { result ≡ was_complete_or_unchecked process.now }
{
    is_complete(process) || is_unchecked(process)
}

fn has_report(process: &Process) -> bool
    ensures { result ≡ has_report process.now }
{
    process.reports != 0
}

fn are_complete(processes: &[Process]) -> bool
    ensures { result ≡ list_all was_complete processes.now }
{
    processes.iter().all(|it| is_complete(it))
}

fn are_complete_or_unchecked(processes: &[Process]) -> bool
    ensures { result ≡ list_all was_complete_or_unchecked processes.now }
{
    processes.iter().all(|it| is_complete_or_unchecked(it))
}

fn have_report(processes: &[Process]) -> bool
    ensures { result ≡ list_any has_report processes.now }
{
    processes.iter().any(|it| has_report(it))
}

/// Whether a report counts.
fn is_report_counted(said: Said, processes: &[Process]) -> bool
    ensures { result ≡ is_report_counted said processes.now }
{
    match said {
        Said::Clean | Said::Incomplete => false,
        Said::Counts => true,
        Said::Nothing => have_report(processes),
    }
}

/// Whether all was seen. Where nothing was recorded, a process without checks lacks nothing.
fn is_all_seen(processes: &[Process], run: &Run) -> bool
    ensures { result ≡ all_seen run.now processes.now }
{
    let is_missed = match run.said {
        Said::Clean | Said::Counts => false,
        Said::Incomplete => !run.is_empty,
        Said::Nothing => true,
    };
    if run.is_cut_short || is_missed {
        false
    } else if run.is_empty {
        are_complete_or_unchecked(processes)
    } else {
        are_complete(processes)
    }
}

/// The status of a run.
pub fn status_of(processes: &[Process], run: &Run, statuses: &Statuses) -> u8
    ensures complete { AreUsual statuses.now → result ≡ 0
        → list_all was_complete processes.now ≡ true }
    ensures quiet { AreUsual statuses.now → result ≡ 0
        → is_report_counted run.now.said processes.now ≡ false }
    ensures well { AreUsual statuses.now → result ≡ 0 → run.now.command ≡ 0 }
    ensures some { AreUsual statuses.now → result ≡ 0 → run.now.is_empty ≡ false }
    ensures seen { AreUsual statuses.now → result ≡ 0 → all_seen run.now processes.now ≡ true }
    ensures reports { is_report_counted run.now.said processes.now ≡ true
        → statuses.now.reports ≢ 0 → result ≡ statuses.now.reports }
    ensures incomplete { NoReportSays statuses.now run.now processes.now
        → all_seen run.now processes.now ≡ false
        → statuses.now.incomplete ≢ 0 → result ≡ statuses.now.incomplete }
    ensures nothing { NoReportSays statuses.now run.now processes.now
        → all_seen run.now processes.now ≡ true → run.now.is_empty ≡ true → run.now.command ≡ 0
        → statuses.now.nothing ≢ 0 → result ≡ statuses.now.nothing }
    ensures failed { NoReportSays statuses.now run.now processes.now
        → run.now.is_empty ≡ true → run.now.command ≢ 0
        → statuses.now.nothing ≢ 0 → statuses.now.incomplete ≢ 0
        → result ≡ statuses.now.incomplete }
    ensures command { NoReportSays statuses.now run.now processes.now
        → all_seen run.now processes.now ≡ true → run.now.is_empty ≡ false
        → result ≡ run.now.command }
    ensures incomplete_unasked { NoReportSays statuses.now run.now processes.now
        → (all_seen run.now processes.now ≡ false) ⊎ (run.now.command ≢ 0)
        → statuses.now.incomplete ≡ 0 → result ≡ run.now.command }
    ensures nothing_unasked { NoReportSays statuses.now run.now processes.now
        → all_seen run.now processes.now ≡ true
        → statuses.now.nothing ≡ 0 → result ≡ run.now.command }
{
    let is_all_seen = is_all_seen(processes, run);
    let is_nothing = run.is_empty && statuses.nothing != 0;
    if is_report_counted(run.said, processes) && statuses.reports != 0 {
        return statuses.reports;
    }
    if is_nothing && run.command == 0 && is_all_seen {
        return statuses.nothing;
    }
    if (!is_all_seen || is_nothing) && statuses.incomplete != 0 {
        return statuses.incomplete;
    }
    run.command
}
