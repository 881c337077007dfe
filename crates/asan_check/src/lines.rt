//! The lines of text of reports and of ends.
mod hex;
mod pieces;

ghost use Rattle.std.specs.Prelude.{◌≡◌, ◌+◌, ◌<◌, ◌≤◌, ◌++◌, length, OnErr, OnOk, string_bytes};
ghost use Rattle.std.specs.Prelude.{string_capacity, string_len};
ghost use Rattle.asan_check.specs.Appending.{AppendsPiece};
ghost use Rattle.asan_check.specs.Lines.{end_line, ending_text as text_of_ending, fate_text};
ghost use Rattle.asan_check.specs.Lines.{fault_text, longest_line, report_line};

use crate::{Ending, Fault, NoMemory, Report};
use pieces::{
    class_word, flaw_word, kind_word, push_address, push_number, push_shadow, push_words,
};
use std::alloc::Allocator;
use trace_record::Fate;

/// Appends the line of a report of a process, up to its line feed.
///
/// The text grows where it lacks room for the line. Where a growth is refused, the answer is
/// `NoMemory` and the text has the bytes that it had.
pub fn report_text<A: Allocator>(
    process: u32,
    report: &Report,
    text: &mut String<A>,
) -> Result<(), NoMemory>
    ensures ok { OnOk result
        (string_bytes text.new ≡ string_bytes text.old ++ report_line process report.now) }
    ensures err { OnErr result (string_bytes text.new ≡ string_bytes text.old) }

    // A text that has room for the line is not refused, and none loses room.
    ensures full { OnErr result
        (string_capacity text.old < string_len text.old + length (report_line process report.now)) }
    ensures short { OnOk result (length (report_line process report.now) ≤ longest_line) }
    ensures capacity { string_capacity text.old ≤ string_capacity text.new }
{
    let before = text.len();
    let answer = push_report(process, report, text);
    if answer.is_err() {
        text.truncate(before);
    }
    answer
}

/// Appends the line of the end of a process, up to its line feed.
///
/// The text grows where it lacks room for the line. Where a growth is refused, the answer is
/// `NoMemory` and the text has the bytes that it had.
pub fn end_text<A: Allocator>(
    process: u32,
    ending: &Ending,
    text: &mut String<A>,
) -> Result<(), NoMemory>
    ensures ok { OnOk result
        (string_bytes text.new ≡ string_bytes text.old ++ end_line process ending.now) }
    ensures err { OnErr result (string_bytes text.new ≡ string_bytes text.old) }

    // A text that has room for the line is not refused, and none loses room.
    ensures full { OnErr result
        (string_capacity text.old < string_len text.old + length (end_line process ending.now)) }
    ensures short { OnOk result (length (end_line process ending.now) ≤ longest_line) }
    ensures capacity { string_capacity text.old ≤ string_capacity text.new }
{
    let before = text.len();
    let answer = push_end(process, ending, text);
    if answer.is_err() {
        text.truncate(before);
    }
    answer
}

/// Appends what became of a process: what its line has after `end`.
///
/// The text grows where it lacks room for it. Where a growth is refused, the answer is `NoMemory`
/// and the text has the bytes that it had.
pub fn ending_text<A: Allocator>(ending: &Ending, text: &mut String<A>) -> Result<(), NoMemory>
    ensures ok { OnOk result
        (string_bytes text.new ≡ string_bytes text.old ++ text_of_ending ending.now) }
    ensures err { OnErr result (string_bytes text.new ≡ string_bytes text.old) }

    // A text that has room for it is not refused, and none loses room.
    ensures full { OnErr result
        (string_capacity text.old < string_len text.old + length (text_of_ending ending.now)) }
    ensures short { OnOk result (length (text_of_ending ending.now) ≤ longest_line) }
    ensures capacity { string_capacity text.old ≤ string_capacity text.new }
{
    let before = text.len();
    let answer = push_ending(ending, text);
    if answer.is_err() {
        text.truncate(before);
    }
    answer
}

/// Appends the line of a report.
fn push_report<A: Allocator>(
    process: u32,
    report: &Report,
    text: &mut String<A>,
) -> Result<(), NoMemory>
    ensures appends { AppendsPiece (report_line process report.now) text.old text.new result }
    ensures short { OnOk result (length (report_line process report.now) ≤ longest_line) }
{
    push_number("p", u64::from(process), text)?;
    push_number(" #", report.number, text)?;
    push_fault(&report.fault, text)?;
    text.push_str("\n")
}

/// Appends what stands after the event's number.
fn push_fault<A: Allocator>(fault: &Fault, text: &mut String<A>) -> Result<(), NoMemory>
    ensures appends { AppendsPiece (fault_text fault.now) text.old text.new result }
    ensures short { OnOk result (length (fault_text fault.now) ≤ 150) }
{
    match *fault {
        Fault::Access {
            store,
            width,
            at,
            bad,
            class,
            shadow,
        } => {
            push_number(kind_word(store), u64::from(width), text)?;
            push_address(" at ", at, text)?;
            push_address(" bad ", bad, text)?;
            push_words(" ", class_word(class), text)?;
            push_shadow(" shadow ", shadow, text)
        }
        Fault::DoubleFree { at } => {
            push_address(" free at ", at, text)?;
            text.push_str(" double-free")
        }
        Fault::BadFree { at } => {
            push_address(" free at ", at, text)?;
            text.push_str(" bad-free")
        }
        Fault::BadMalloc { at, size } => {
            push_number(" malloc ", size, text)?;
            push_address(" at ", at, text)?;
            text.push_str(" bad-malloc")
        }
    }
}

/// Appends the line of an end.
fn push_end<A: Allocator>(
    process: u32,
    ending: &Ending,
    text: &mut String<A>,
) -> Result<(), NoMemory>
    ensures appends { AppendsPiece (end_line process ending.now) text.old text.new result }
    ensures short { OnOk result (length (end_line process ending.now) ≤ longest_line) }
{
    push_number("p", u64::from(process), text)?;
    text.push_str(" end ")?;
    push_ending(ending, text)?;
    text.push_str("\n")
}

/// Appends what stands after `end`.
fn push_ending<A: Allocator>(ending: &Ending, text: &mut String<A>) -> Result<(), NoMemory>
    ensures appends { AppendsPiece (text_of_ending ending.now) text.old text.new result }
    ensures short { OnOk result (length (text_of_ending ending.now) ≤ 110) }
{
    match *ending {
        Ending::Ran { end, reports } => {
            push_fate(end.fate, text)?;
            push_number(" events ", end.events, text)?;
            push_number(" offset ", end.offset, text)?;
            push_number(" reports ", reports, text)
        }
        Ending::NoMemory { checked, reports } => {
            push_number("no-memory checked ", checked, text)?;
            push_number(" reports ", reports, text)
        }
        Ending::NotOpened => text.push_str("not-opened"),
        Ending::NotStarted => text.push_str("not-started"),
        Ending::Unsettled => text.push_str("unsettled"),
    }
}

/// Appends how a stream ended.
fn push_fate<A: Allocator>(fate: Fate, text: &mut String<A>) -> Result<(), NoMemory>
    ensures appends { AppendsPiece (fate_text fate) text.old text.new result }
    ensures short { OnOk result (length (fate_text fate) ≤ 16) }
{
    match fate {
        Fate::Closed => text.push_str("closed"),
        Fate::Malformed(flaw) => push_words("malformed ", flaw_word(flaw), text),
        Fate::Truncated => text.push_str("truncated"),
        Fate::NoClose => text.push_str("no-close"),
        Fate::ReadFailed => text.push_str("read-failed"),
        Fate::TooMany => text.push_str("too-many"),
    }
}
