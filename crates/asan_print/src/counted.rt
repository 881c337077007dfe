//! A printer of which every byte can be counted.

ghost use Rattle.std.specs.Prelude.{◌≡◌, ◌<◌, ◌^◌, [], IfErr, OnOk};
ghost use Rattle.asan_check.specs.Lines.{report_line, end_line};
ghost use Rattle.asan_print.specs.Printing.{printed_of};

use crate::fault::{Why, WriteFault};
use crate::printer::Printer;
use asan_check::{Ending, Report};
use std::alloc::Allocator;
use std::io::Write;

/// A printer that has printed fewer than 2^64 bytes. A line that could go past that is lost.
#[derive(Drop)]
pub struct Counted<A: Allocator + Copy> {
    printer: Printer<A>,
    ghost counts: { printed_of printer < 2 ^ 64 },
}

impl<A: Allocator + Copy> Counted<A> {
    ghost use Rattle.asan_print.specs.Printing.{BreaksOff, Prints, held_back, written_of};

    /// A printer that has printed nothing.
    pub fn new(alloc: A) -> Counted<A>
        ensures held { held_back result.printer ≡ [] }
        ensures written { written_of result.printer ≡ 0 }
    {
        Counted {
            printer: Printer::new(alloc),
        }
    }

    /// Writes what is held back.
    pub fn send<W: Write>(&mut self, w: &mut W) -> Result<(), WriteFault>
        ensures ok { OnOk result (Prints (W.contents w.old) (W.contents w.new)
            self.old.printer self.new.printer [] × (held_back self.new.printer ≡ [])) }
        ensures fault { IfErr result (λ e.
            BreaksOff (W.contents w.old) (W.contents w.new) self.old.printer [] e.written) }
    {
        self.printer.send(w)
    }

    /// Prints the line of a report.
    pub fn report<W: Write>(
        &mut self,
        w: &mut W,
        process: u32,
        report: &Report,
    ) -> Result<(), WriteFault>
        ensures ok { OnOk result (Prints (W.contents w.old) (W.contents w.new)
            self.old.printer self.new.printer (report_line process report.now)) }
        ensures fault { IfErr result (λ e. BreaksOff (W.contents w.old) (W.contents w.new)
            self.old.printer (report_line process report.now) e.written) }
    {
        if !self.printer.has_room() {
            return Err(self.no_room());
        }
        self.printer.report(w, process, report)
    }

    /// Prints the line of an end.
    pub fn end<W: Write>(
        &mut self,
        w: &mut W,
        process: u32,
        ending: &Ending,
    ) -> Result<(), WriteFault>
        ensures ok { OnOk result (Prints (W.contents w.old) (W.contents w.new)
            self.old.printer self.new.printer (end_line process ending.now)) }
        ensures fault { IfErr result (λ e. BreaksOff (W.contents w.old) (W.contents w.new)
            self.old.printer (end_line process ending.now) e.written) }
    {
        if !self.printer.has_room() {
            return Err(self.no_room());
        }
        self.printer.end(w, process, ending)
    }

    /// Answers that the bytes of a line can't be counted.
    fn no_room(&self) -> WriteFault
        ensures { result.written ≡ written_of self.now.printer }
    {
        WriteFault {
            written: self.printer.written(),
            why: Why::Write,
        }
    }
}
