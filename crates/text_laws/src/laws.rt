//! What the definitions of lines and texts come to, in the words of somebody who reads them. Each
//! function does nothing: its contract is the law.

ghost use Rattle.std.specs.Prelude.{◌≡◌, ◌≢◌, [], ◌∷◌, ◌++◌, ◌<◌, ◌≤◌, ◌^◌, ℕ, All, List, length, map};
ghost use Rattle.asan_check.specs.Lines.{end_line, report_line};
ghost use Rattle.asan_check.specs.declared.ending.Ending.{Ending as AnEnding};
ghost use Rattle.asan_check.specs.declared.report.Report.{Report as AReport};
ghost use Rattle.asan_senders.specs.Texts.{texts_from};
ghost use Rattle.asan_stream.specs.Outcomes.{ending_of, reports_of};
ghost use Rattle.asan_stream.specs.declared.outcome.Outcome.{Outcome as AnOutcome};
ghost use Rattle.text_laws.specs.Numbers.{EndingFits, OutcomeFits, ReportFits};
ghost use Rattle.text_laws.specs.Texts.{LineFits, line_of, text_of_lines};
ghost use Rattle.text_laws.specs.declared.line.Line.{Line as ALine};

use crate::Line;
use std::alloc::Allocator;

/// The numbers of each line fit into 64 bits, as the other laws ask.
pub fn lines_fit(line: Line)
    ensures { LineFits line }
{}

/// A line has one reading, whatever follows it: the number of its process, and the report or the
/// end. No report's line is an end line, or begins one.
pub fn lines_have_one_reading()
    ensures report { (process other : ℕ) (report that : AReport) (more rest : List ℕ) →
        process < 2 ^ 64 → other < 2 ^ 64 → ReportFits report → ReportFits that →
        report_line process report ++ more ≡ report_line other that ++ rest →
        (process ≡ other) × (report ≡ that) × (more ≡ rest) }
    ensures end { (process other : ℕ) (end that : AnEnding) (more rest : List ℕ) →
        process < 2 ^ 64 → other < 2 ^ 64 → EndingFits end → EndingFits that →
        end_line process end ++ more ≡ end_line other that ++ rest →
        (process ≡ other) × (end ≡ that) × (more ≡ rest) }
    ensures apart { (process other : ℕ) (report : AReport) (end : AnEnding) (more rest : List ℕ) →
        process < 2 ^ 64 → other < 2 ^ 64 →
        report_line process report ++ more ≢ end_line other end ++ rest }
{}

/// A line has one line feed, its last byte. So a text of lines is cut into them at its line feeds.
pub fn lines_end_with_their_line_feed()
    ensures { (line : ALine) → LineFits line →
        (text : List ℕ) × (line_of line ≡ text ++ 10 ∷ []) × All (λ byte. byte ≢ 10) text }
{}

/// A text of lines has one reading, in whatever order the lines of several processes stand.
pub fn printed_texts_have_one_reading()
    ensures { (lines others : List ALine) → All LineFits lines → All LineFits others →
        text_of_lines lines ≡ text_of_lines others → lines ≡ others }
{}

/// The text of some outcomes has one reading: the end and the reports of each of them.
pub fn outcomes_have_one_reading<F, A: Allocator + Copy, G, B: Allocator + Copy>()
    ensures { (outcomes : List (AnOutcome F A)) (others : List (AnOutcome G B)) →
        length outcomes ≤ 2 ^ 64 → All OutcomeFits outcomes → All OutcomeFits others →
        texts_from 0 outcomes ≡ texts_from 0 others →
        (map ending_of outcomes ≡ map ending_of others)
        × (map reports_of outcomes ≡ map reports_of others) }
{}
