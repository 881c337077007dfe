//! The end of a sender with live printing: it is settled, and its last lines are printed.

ghost use Rattle.std.specs.Prelude.{◌≡◌, ℕ, List, Option, IfSome, Some};
ghost use Rattle.asan_print.specs.Logs.{Line, Printed, lines_of, report_lines};
ghost use Rattle.asan_print.specs.Ports.{port_lane, taken_at};
ghost use Rattle.asan_senders.specs.Closings.{Closes};
ghost use Rattle.asan_senders.specs.ReportLanes.{Fits};
ghost use Rattle.asan_senders.specs.Senders.{Gets, IsJoined, SaysHowFar};

use crate::returns::{Answer, settle_sender};
use crate::sender::Sender;
use asan_print::{LivePrinter, Port};
use asan_stream::Outcome;
use std::alloc::Allocator;
use std::io::Write;
use trace_feed::Feed;

/// What became of a sender, whose last lines are printed.
pub fn close<F: Feed + Drop, W: Write, A: Allocator + Copy>(
    printer: &mut LivePrinter<A>,
    w: &mut W,
    process: u32,
    sender: Sender<F, A>,
    port: Option<Port<A>>,
) -> Outcome<F, A>
    requires joined { IsJoined sender }
    requires port { IfSome port (λ p. Fits (Some (port_lane p)) sender) }
    ensures outcome { Gets F.seen sender result }
    ensures far { SaysHowFar port sender result }
    ensures lines { (start : Option (List ℕ)) (log : List Line) →
        Printed start (W.contents w.old) printer.old log →
        lines_of process log ≡ report_lines process (taken_at port) →
        Closes start (W.contents w.new) printer.new process result log }
{
    let Answer { outcome, printed } = settle_sender(sender, port);
    let reports = outcome.reports();
    // An unsettled sender has none of the reports that were printed.
    let printed = (printed as usize).min(reports.len());
    printer.close(w, process, &reports[printed..], &outcome.ending());
    outcome
}
