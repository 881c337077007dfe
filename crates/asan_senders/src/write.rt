//! Writing the text of all outcomes.

ghost use Rattle.std.specs.Prelude.{◌+◌, ◌<◌, ◌≤◌, ◌^◌, All, IfErr, OnOk, length, take};
ghost use Rattle.std.specs.Io.KnownBytes.{Appends};
ghost use Rattle.asan_print.specs.Printing.{Prints, BreaksOff, printed_of};
ghost use Rattle.asan_stream.specs.Ranges.{most_reports};
ghost use Rattle.asan_senders.specs.Ranges.{most_senders};
ghost use Rattle.asan_stream.specs.Outcomes.{reports_of};
ghost use Rattle.asan_senders.specs.Texts.{longest_text, outcome_text, texts_from};

use asan_print::{Printer, WriteFault};
use asan_stream::Outcome;
use std::alloc::Allocator;
use std::io::Write;

/// Prints the lines of a process: its reports, and then its end.
fn print_outcome<W: Write, F, A: Allocator + Copy>(
    printer: &mut Printer<A>,
    w: &mut W,
    process: u32,
    outcome: &Outcome<F, A>,
) -> Result<(), WriteFault>
    requires few { length (reports_of outcome.now) ≤ most_reports }
    requires room { printed_of printer.old + longest_text < 2 ^ 64 }
    ensures ok { OnOk result (Prints (W.contents w.old) (W.contents w.new)
        printer.old printer.new (outcome_text process outcome.now)) }
    ensures grows { OnOk result (printed_of printer.new ≤ printed_of printer.old + longest_text) }
    ensures fault { IfErr result (λ e. BreaksOff (W.contents w.old) (W.contents w.new)
        printer.old (outcome_text process outcome.now) e.written) }
{
    for report in outcome.reports() {
        printer.report(w, process, report)?;
    }
    printer.end(w, process, &outcome.ending())
}

/// Writes, for each process in order, the lines of its reports and then the line of its end. The
/// processes are numbered from 0, as their outcomes stand.
///
/// At most 256 outcomes, of at most 2^24 reports each, are written by one call. It holds back up to
/// about 32 KiB of text, so that a line is not a write. On `Ok` all of the text went out; the
/// writer isn't flushed.
///
/// # Errors
///
/// `WriteFault` where a write failed, an interrupted one too, or took no byte, or where a growth
/// for a line was refused. Exactly the first `written` bytes of the text went out then, which are
/// not all. No write follows one that failed: that is tested.
pub fn write_outcomes<W: Write, F, A: Allocator + Copy>(
    alloc: A,
    w: &mut W,
    outcomes: &[Outcome<F, A>],
) -> Result<(), WriteFault>
    requires senders { length outcomes.now ≤ most_senders }
    requires reports { All (λ o. length (reports_of o) ≤ most_reports) outcomes.now }
    ensures ok { OnOk result
        (Appends (W.contents w.old) (W.contents w.new) (texts_from 0 outcomes.now)) }
    ensures fault { IfErr result (λ e.
        Appends (W.contents w.old) (W.contents w.new)
        (take e.written (texts_from 0 outcomes.now))) }
    ensures short { IfErr result (λ e. e.written < length (texts_from 0 outcomes.now)) }
{
    let mut printer = Printer::new(alloc);
    for (process, outcome) in outcomes.iter().enumerate() {
        print_outcome(&mut printer, w, process as u32, outcome)?;
    }
    printer.send(w)
}
