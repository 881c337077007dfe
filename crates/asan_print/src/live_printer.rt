//! Printing lines of several processes as they come.

ghost use Rattle.std.specs.Prelude.{◌≡◌, ℕ, ◌+◌, ◌<◌, ◌^◌, ◌∷◌, ◌++◌, List, [], Option, OnOk};
ghost use Rattle.std.specs.Prelude.{◌≢◌, IfErr, IsTrue, false, length, slice_index_or, take};
ghost use Rattle.std.specs.Io.KnownBytes.{Appends};
ghost use Rattle.asan_check.specs.Lines.{report_line, end_line};

use crate::counted::Counted;
use crate::fault::WriteFault;
use crate::port::Port;
use asan_check::{Ending, Report};
use std::alloc::Allocator;
use std::io::Write;

/// How many reports are taken from one lane at most before the next lane's turn.
const MAX_AT_ONCE: usize = 64;

/// Prints lines of several processes to a writer as they come. After the first line that can't be
/// printed it prints nothing more, and keeps why.
#[derive(Drop)]
pub enum LivePrinter<A: Allocator + Copy> {
    /// No line was lost so far.
    Prints(Counted<A>),
    /// A line was lost.
    Broken(WriteFault),
}

impl<A: Allocator + Copy> LivePrinter<A> {
    ghost use Rattle.asan_print.specs.declared.live_printer.LivePrinter.TheVariants as live;
    ghost use Rattle.asan_print.specs.Logs.{Line, Printed, Adds, joined, lines_of, report_lines};
    ghost use Rattle.asan_print.specs.Logs.{HoldsNothing, IsBroken, StaysBroken};
    ghost use Rattle.asan_print.specs.Ports.{Follows, SameLanes, lane_at, taken_at, reports_taken};
    ghost use Rattle.asan_print.specs.Ports.{EachTakesMore, HasReport, TakesMore};

    /// A printer that has printed nothing.
    pub fn new(alloc: A) -> LivePrinter<A>
        ensures { (start : Option (List ℕ)) → Printed start start result [] }
    {
        LivePrinter::Prints(Counted::new(alloc))
    }

    /// Prints the line of a report.
    pub fn report<W: Write>(&mut self, w: &mut W, process: u32, report: &Report)
        ensures prints { (start : Option (List ℕ)) (log : List Line) →
            Printed start (W.contents w.old) self.old log → Printed start (W.contents w.new)
            self.new (log ++ (process, report_line process report.now) ∷ []) }
        ensures broken { StaysBroken w.old w.new self.old self.new }
    {
        let printer = match self {
            LivePrinter::Prints(printer) => printer,
            LivePrinter::Broken(_) => return,
        };
        if let Err(fault) = printer.report(w, process, report) {
            *self = LivePrinter::Broken(fault);
        }
    }

    /// Prints the line of an end.
    fn end<W: Write>(&mut self, w: &mut W, process: u32, ending: &Ending)
        ensures prints { (start : Option (List ℕ)) (log : List Line) →
            Printed start (W.contents w.old) self.old log → Printed start (W.contents w.new)
            self.new (log ++ (process, end_line process ending.now) ∷ []) }
        ensures broken { StaysBroken w.old w.new self.old self.new }
    {
        let printer = match self {
            LivePrinter::Prints(printer) => printer,
            LivePrinter::Broken(_) => return,
        };
        if let Err(fault) = printer.end(w, process, ending) {
            *self = LivePrinter::Broken(fault);
        }
    }

    /// Writes the lines that are held back.
    fn flush<W: Write>(&mut self, w: &mut W)
        ensures lines { (start : Option (List ℕ)) (log : List Line) →
            Printed start (W.contents w.old) self.old log →
            Printed start (W.contents w.new) self.new log }
        ensures sent { HoldsNothing self.new }
        ensures broken { StaysBroken w.old w.new self.old self.new }
    {
        let printer = match self {
            LivePrinter::Prints(printer) => printer,
            LivePrinter::Broken(_) => return,
        };
        if let Err(fault) = printer.send(w) {
            *self = LivePrinter::Broken(fault);
        }
    }

    /// Prints the lines of reports that wait at the ports of processes 0, 1 and so on, at most 64
    /// from each, and then writes what is held back. Whether there were any.
    pub fn round<W: Write>(&mut self, w: &mut W, ports: &mut [Option<Port<A>>]) -> bool
        requires few { length ports.old < 2 ^ 32 }
        ensures lanes { SameLanes ports.old ports.new }
        ensures takes { EachTakesMore ports.old ports.new }
        ensures none { result ≡ false → reports_taken ports.new ≡ reports_taken ports.old }
        ensures some { IsTrue result → reports_taken ports.new ≢ reports_taken ports.old }
        ensures finds { (i : ℕ) (d : Option (Port A)) → i < length ports.old →
            HasReport (slice_index_or ports.old i d) →
            length (taken_at (slice_index_or ports.old i d)) <
            length (taken_at (slice_index_or ports.new i d)) }
        ensures lines { (start : Option (List ℕ)) →
            Follows start (W.contents w.old) self.old ports.old →
            Follows start (W.contents w.new) self.new ports.new }
        ensures sent { HoldsNothing self.new }
        ensures broken { StaysBroken w.old w.new self.old self.new }
    {
        let mut any = false;
        for process in 0..ports.len() {
            if self.print_from(w, process as u32, &mut ports[process]) {
                any = true;
            }
        }
        self.flush(w);
        any
    }

    /// Prints the lines of reports that wait at the port of a process, at most 64. Whether there
    /// were any.
    fn print_from<W: Write>(&mut self, w: &mut W, process: u32, port: &mut Option<Port<A>>) -> bool
        ensures lane { lane_at port.new ≡ lane_at port.old }
        ensures takes { TakesMore port.old port.new }
        ensures none { result ≡ false → taken_at port.new ≡ taken_at port.old }
        ensures some { IsTrue result → length (taken_at port.old) < length (taken_at port.new) }
        ensures finds { HasReport port.old → IsTrue result }
        ensures lines { (start : Option (List ℕ)) (log : List Line) →
            Printed start (W.contents w.old) self.old log →
            lines_of process log ≡ report_lines process (taken_at port.old) →
            Adds start (W.contents w.new) self.new process
            (report_lines process (taken_at port.new)) log }
        ensures broken { StaysBroken w.old w.new self.old self.new }
    {
        let Some(port) = port else {
            return false;
        };
        for count in 0..MAX_AT_ONCE {
            let Some(report) = port.take() else {
                return count > 0;
            };
            self.report(w, process, &report);
        }
        true
    }

    /// Prints the lines of some reports of a process.
    fn report_all<W: Write>(&mut self, w: &mut W, process: u32, reports: &[Report])
        ensures adds { (start : Option (List ℕ)) (log : List Line) (lines : List (List ℕ)) →
            Printed start (W.contents w.old) self.old log → lines_of process log ≡ lines →
            Adds start (W.contents w.new) self.new process
            (lines ++ report_lines process reports.now) log }
        ensures broken { StaysBroken w.old w.new self.old self.new }
    {
        for report in reports {
            self.report(w, process, report);
        }
    }

    /// Prints the lines of some reports of a process, and then writes what is held back.
    pub fn show<W: Write>(&mut self, w: &mut W, process: u32, reports: &[Report])
        ensures adds { (start : Option (List ℕ)) (log : List Line) (lines : List (List ℕ)) →
            Printed start (W.contents w.old) self.old log → lines_of process log ≡ lines →
            Adds start (W.contents w.new) self.new process
            (lines ++ report_lines process reports.now) log }
        ensures sent { HoldsNothing self.new }
        ensures broken { StaysBroken w.old w.new self.old self.new }
    {
        self.report_all(w, process, reports);
        self.flush(w);
    }

    /// Prints the last lines of a process: those of the reports that were not printed yet, and the
    /// line of its end.
    pub fn close<W: Write>(&mut self, w: &mut W, process: u32, rest: &[Report], ending: &Ending)
        ensures adds { (start : Option (List ℕ)) (log : List Line) (lines : List (List ℕ)) →
            Printed start (W.contents w.old) self.old log → lines_of process log ≡ lines →
            Adds start (W.contents w.new) self.new process
            ((lines ++ report_lines process rest.now) ++ end_line process ending.now ∷ []) log }
        ensures broken { StaysBroken w.old w.new self.old self.new }
    {
        self.report_all(w, process, rest);
        self.end(w, process, ending);
    }

    /// Writes what is held back, and answers whether all lines went out.
    ///
    /// # Errors
    ///
    /// `WriteFault` where a line was lost. Exactly the first `written` bytes of the lines went out
    /// then, which are not all.
    pub fn finish<W: Write>(self, w: &mut W) -> Result<(), WriteFault>
        ensures ok { OnOk result ((start : Option (List ℕ)) (log : List Line) →
            Printed start (W.contents w.old) self log →
            Appends start (W.contents w.new) (joined log)) }
        ensures fault { IfErr result (λ e. (start : Option (List ℕ)) (log : List Line) →
            Printed start (W.contents w.old) self log →
            Appends start (W.contents w.new) (take e.written (joined log))) }
        ensures short { IfErr result (λ e. (start : Option (List ℕ)) (log : List Line) →
            Printed start (W.contents w.old) self log →
            e.written < length (joined log)) }
        ensures broken { IsBroken self → w.new ≡ w.old }
        ensures same { (fault : WriteFault) → self ≡ live.Broken fault → result ≡ Err fault }
    {
        match self {
            LivePrinter::Prints(mut printer) => printer.send(w),
            LivePrinter::Broken(fault) => Err(fault),
        }
    }
}
