//! Lines, and texts that have no room for one.
use super::{expect_eq, expect_eq_at};
use asan_check::{Class, Ending, Fault, NoMemory, Report, end_text, ending_text, report_text};
use refusing_allocator::RefusingAllocator;
use std::alloc::{Allocator, Global};
use std::process::Abort;
use std::test::Fail;
use trace_record::{End, Fate, Flaw};

/// A bad access of an event number.
fn access(
    number: u64,
    store: bool,
    width: u8,
    at: u64,
    bad: u64,
    class: Class,
    shadow: u8,
) -> Report {
    let fault = Fault::Access {
        store,
        width,
        at,
        bad,
        class,
        shadow,
    };
    Report { number, fault }
}

/// A second free of an event number.
fn double_free(number: u64, at: u64) -> Report {
    let fault = Fault::DoubleFree { at };
    Report { number, fault }
}

/// A free of an event number where no block starts.
fn bad_free(number: u64, at: u64) -> Report {
    let fault = Fault::BadFree { at };
    Report { number, fault }
}

/// A malloc of an event number that is not admitted.
fn bad_malloc(number: u64, at: u64, size: u64) -> Report {
    let fault = Fault::BadMalloc { at, size };
    Report { number, fault }
}

/// Asserts that these reports of a process have these lines.
fn expect_lines(
    rt: &impl Abort,
    alloc: Global,
    process: u32,
    reports: &[Report],
    lines: &str,
) -> Result<(), Fail> {
    let mut text = String::new(alloc);
    for report in reports {
        report_text(process, report, &mut text)?;
    }
    expect_eq(rt, text.as_str(), lines);
    Ok(())
}

/// Asserts that these ends of a process have these lines.
fn expect_ends(
    rt: &impl Abort,
    alloc: Global,
    process: u32,
    endings: &[Ending],
    lines: &str,
) -> Result<(), Fail> {
    let mut text = String::new(alloc);
    for ending in endings {
        end_text(process, ending, &mut text)?;
    }
    expect_eq(rt, text.as_str(), lines);
    Ok(())
}

#[test]
fn bad_accesses(rt: HostRuntime) -> Result<(), Fail> {
    let reports = [
        access(2, true, 4, 0x1004, 0x1005, Class::HeapBufferOverflow, 0x05),
        access(2, false, 8, 0x1004, 0x1005, Class::HeapBufferOverflow, 0x05),
        access(3, false, 1, 0x2000, 0x2000, Class::UseAfterPoison, 0xf7),
        access(
            3,
            false,
            1,
            0x2008,
            0x2008,
            Class::StackBufferOverflow,
            0xf2,
        ),
        access(
            4,
            true,
            4,
            0x2010,
            0x2010,
            Class::GlobalBufferOverflow,
            0xf9,
        ),
        access(6, false, 1, 0x2003, 0x2003, Class::UnknownCrash, 0x03),
        access(6, false, 1, 0x2000, 0x2000, Class::HeapUseAfterFree, 0xfd),
        access(
            2,
            false,
            1,
            0x7fff_ffff_fffe,
            0x7fff_ffff_fffe,
            Class::UnknownCrash,
            0x04,
        ),
    ];
    let lines = "\
p0 #2 store 4 at 000000001004 bad 000000001005 heap-buffer-overflow shadow 05
p0 #2 load 8 at 000000001004 bad 000000001005 heap-buffer-overflow shadow 05
p0 #3 load 1 at 000000002000 bad 000000002000 use-after-poison shadow f7
p0 #3 load 1 at 000000002008 bad 000000002008 stack-buffer-overflow shadow f2
p0 #4 store 4 at 000000002010 bad 000000002010 global-buffer-overflow shadow f9
p0 #6 load 1 at 000000002003 bad 000000002003 unknown-crash shadow 03
p0 #6 load 1 at 000000002000 bad 000000002000 heap-use-after-free shadow fd
p0 #2 load 1 at 7ffffffffffe bad 7ffffffffffe unknown-crash shadow 04
";
    expect_lines(&rt, rt.alloc(), 0, &reports, lines)
}

#[test]
fn bad_frees_and_mallocs(rt: HostRuntime) -> Result<(), Fail> {
    let reports = [
        double_free(3, 0x1000),
        bad_free(2, 0x1004),
        bad_malloc(5, 0x3004, 8),
        bad_malloc(1, 0x1004, 268_435_456),
        bad_malloc(4, 0x8000_0000_0000, 0),
    ];
    let lines = "\
p0 #3 free at 000000001000 double-free
p0 #2 free at 000000001004 bad-free
p0 #5 malloc 8 at 000000003004 bad-malloc
p0 #1 malloc 268435456 at 000000001004 bad-malloc
p0 #4 malloc 0 at 800000000000 bad-malloc
";
    expect_lines(&rt, rt.alloc(), 0, &reports, lines)
}

#[test]
fn numbers_at_their_greatest(rt: HostRuntime) -> Result<(), Fail> {
    let reports = [
        bad_free(1, 0x1_0000_0000_0000),
        bad_free(1, 0xffff_ffff_ffff),
        bad_free(u64::MAX, u64::MAX),
    ];
    let lines = "\
p4294967295 #1 free at 1000000000000 bad-free
p4294967295 #1 free at ffffffffffff bad-free
p4294967295 #18446744073709551615 free at ffffffffffffffff bad-free
";
    expect_lines(&rt, rt.alloc(), u32::MAX, &reports, lines)
}

/// How a stream that ran ends, with one report.
fn ran(fate: Fate, events: u64, offset: u64) -> Ending {
    let end = End {
        fate,
        events,
        offset,
    };
    Ending::Ran { end, reports: 1 }
}

#[test]
fn ends_of_streams(rt: HostRuntime) -> Result<(), Fail> {
    let endings = [
        ran(Fate::Closed, 2, 36),
        ran(Fate::Malformed(Flaw::Header), 0, 0),
        ran(Fate::Malformed(Flaw::Code), 1, 25),
        ran(Fate::Malformed(Flaw::Width), 0, 8),
        ran(Fate::Malformed(Flaw::Size), 0, 8),
        ran(Fate::Malformed(Flaw::Range), 0, 8),
        ran(Fate::Malformed(Flaw::Kind), 0, 8),
        ran(Fate::Truncated, 0, 0),
        ran(Fate::NoClose, 0, 8),
        ran(Fate::ReadFailed, 1, 25),
        ran(Fate::TooMany, 2, 28),
    ];
    let lines = "\
p1 end closed events 2 offset 36 reports 1
p1 end malformed header events 0 offset 0 reports 1
p1 end malformed code events 1 offset 25 reports 1
p1 end malformed width events 0 offset 8 reports 1
p1 end malformed size events 0 offset 8 reports 1
p1 end malformed range events 0 offset 8 reports 1
p1 end malformed kind events 0 offset 8 reports 1
p1 end truncated events 0 offset 0 reports 1
p1 end no-close events 0 offset 8 reports 1
p1 end read-failed events 1 offset 25 reports 1
p1 end too-many events 2 offset 28 reports 1
";
    expect_ends(&rt, rt.alloc(), 1, &endings, lines)
}

#[test]
fn ends_without_a_stream(rt: HostRuntime) -> Result<(), Fail> {
    let endings = [
        Ending::NoMemory {
            checked: 7,
            reports: 2,
        },
        Ending::NotStarted,
        Ending::Unsettled,
        Ending::NotOpened,
    ];
    let lines = "\
p0 end no-memory checked 7 reports 2
p0 end not-started
p0 end unsettled
p0 end not-opened
";
    expect_ends(&rt, rt.alloc(), 0, &endings, lines)
}

#[test]
fn what_became_of_a_process(rt: HostRuntime) -> Result<(), Fail> {
    let mut text = String::new(rt.alloc());
    ending_text(&ran(Fate::Malformed(Flaw::Code), 2, 36), &mut text)?;
    text.push_str(", ")?;
    ending_text(&Ending::NotOpened, &mut text)?;
    expect_eq(
        &rt,
        text.as_str(),
        "malformed code events 2 offset 36 reports 1, not-opened",
    );
    Ok(())
}

/// Adds a line of a report, one of an end and what became of a process to a text.
fn add_lines<A: Allocator + Copy>(bad: &Report, text: &mut String<A>) -> Result<(), NoMemory> {
    report_text(0, bad, text)?;
    end_text(0, &Ending::Unsettled, text)?;
    ending_text(&Ending::NotStarted, text)
}

#[test]
fn each_growth_of_a_line_refused_in_turn(rt: HostRuntime) -> Result<(), Fail> {
    let bad = access(2, true, 4, 0x1004, 0x1005, Class::HeapBufferOverflow, 0x05);
    for turn in 1..20u64 {
        let heap = RefusingAllocator::at_turn(rt.alloc(), turn);
        let mut text = String::new(&heap);
        let answer = add_lines(&bad, &mut text);
        expect_eq_at(&rt, turn, answer.is_err(), heap.has_refused());
        if answer.is_ok() {
            assert!(rt; turn > 1);
            return Ok(());
        }
    }
    panic!(rt; "always refused")
}
