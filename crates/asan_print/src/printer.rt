//! Printing lines to a writer, many at a write.

ghost use Rattle.std.specs.Prelude.{◌≡◌, ℕ, ◌+◌, ◌<◌, ◌≤◌, ◌^◌, List, [], OnOk, IfErr, length};
ghost use Rattle.std.specs.Prelude.{◌↔◌, IsTrue};
ghost use Rattle.asan_check.specs.Lines.{report_line, end_line, longest_line};

use crate::fault::{Why, WriteFault};
use asan_check::{Ending, Report, end_text, report_text};
use std::alloc::Allocator;
use std::io::Write;
use trace_feed::put_all;

/// How much text is held back before it is written.
const HELD_BACK: usize = 1 << 15;

/// No line is longer, in bytes.
const MAX_LINE: u64 = 200;

/// Prints lines to a writer, many at a write: the text that is held back, and how many bytes went
/// out before it.
#[derive(Drop)]
pub struct Printer<A: Allocator + Copy> {
    text: String<A>,
    sent: u64,
}

impl<A: Allocator + Copy> Printer<A> {
    ghost use Rattle.asan_print.specs.Printing.{Prints, BreaksOff};
    ghost use Rattle.asan_print.specs.Printing.{held_back, printed_of, written_of};

    /// A printer that has printed nothing.
    pub fn new(alloc: A) -> Printer<A>
        ensures held { held_back result ≡ [] }
        ensures written { written_of result ≡ 0 }
    {
        Printer {
            text: String::new(alloc),
            sent: 0,
        }
    }

    /// How many bytes went out, without those that are held back.
    pub fn written(&self) -> u64
        ensures { result ≡ written_of self.now }
    {
        self.sent
    }

    /// Whether the number of bytes printed, with those of one more line, is below 2^64.
    pub fn has_room(&self) -> bool
        ensures { IsTrue result ↔ printed_of self.now + longest_line < 2 ^ 64 }
    {
        self.written().saturating_add(self.text.len() as u64) <= u64::MAX - MAX_LINE
    }

    /// Writes what is held back.
    pub fn send<W: Write>(&mut self, w: &mut W) -> Result<(), WriteFault>
        requires room { printed_of self.old < 2 ^ 64 }
        ensures ok { OnOk result (Prints (W.contents w.old) (W.contents w.new) self.old self.new []
            × (held_back self.new ≡ [])) }
        ensures fault { IfErr result (λ e.
            BreaksOff (W.contents w.old) (W.contents w.new) self.old [] e.written) }
        ensures grows { printed_of self.new ≡ printed_of self.old }
    {
        let Printer { text, sent } = self;
        match put_all(w, text.as_bytes()) {
            Ok(()) => {
                *sent += text.len() as u64;
                text.clear();
                Ok(())
            }
            Err(fault) => Err(WriteFault {
                written: *sent + fault.written as u64,
                why: Why::Write,
            }),
        }
    }

    /// Prints the line of a report.
    pub fn report<W: Write>(
        &mut self,
        w: &mut W,
        process: u32,
        report: &Report,
    ) -> Result<(), WriteFault>
        requires room { printed_of self.old + longest_line < 2 ^ 64 }
        ensures ok { OnOk result (Prints (W.contents w.old) (W.contents w.new)
            self.old self.new (report_line process report.now)) }
        ensures grows { printed_of self.new ≤ printed_of self.old + longest_line }
        ensures fault { IfErr result (λ e. BreaksOff (W.contents w.old) (W.contents w.new)
            self.old (report_line process report.now) e.written) }
    {
        match report_text(process, report, &mut self.text) {
            Ok(()) => self.send_if_long(w),
            Err(_) => Err(self.no_memory(w)),
        }
    }

    /// Prints the line of an end.
    pub fn end<W: Write>(
        &mut self,
        w: &mut W,
        process: u32,
        ending: &Ending,
    ) -> Result<(), WriteFault>
        requires room { printed_of self.old + longest_line < 2 ^ 64 }
        ensures ok { OnOk result (Prints (W.contents w.old) (W.contents w.new)
            self.old self.new (end_line process ending.now)) }
        ensures grows { printed_of self.new ≤ printed_of self.old + longest_line }
        ensures fault { IfErr result (λ e. BreaksOff (W.contents w.old) (W.contents w.new)
            self.old (end_line process ending.now) e.written) }
    {
        match end_text(process, ending, &mut self.text) {
            Ok(()) => self.send_if_long(w),
            Err(_) => Err(self.no_memory(w)),
        }
    }

    /// Writes what is held back if it has become long.
    fn send_if_long<W: Write>(&mut self, w: &mut W) -> Result<(), WriteFault>
        requires room { printed_of self.old < 2 ^ 64 }
        ensures ok { OnOk result
            (Prints (W.contents w.old) (W.contents w.new) self.old self.new []) }
        ensures fault { IfErr result (λ e.
            BreaksOff (W.contents w.old) (W.contents w.new) self.old [] e.written) }
        ensures grows { printed_of self.new ≡ printed_of self.old }
    {
        if self.text.len() < HELD_BACK {
            return Ok(());
        }
        self.send(w)
    }

    /// Answers that there was no memory for a line, once what stands before it is written.
    fn no_memory<W: Write>(&mut self, w: &mut W) -> WriteFault
        requires room { printed_of self.old < 2 ^ 64 }
        ensures breaks { (line : List ℕ) → 0 < length line →
            BreaksOff (W.contents w.old) (W.contents w.new) self.old line result.written }
        ensures grows { printed_of self.new ≡ printed_of self.old }
    {
        match self.send(w) {
            Ok(()) => WriteFault {
                written: self.written(),
                why: Why::NoMemory,
            },
            Err(fault) => fault,
        }
    }
}
