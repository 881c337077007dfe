//! Tests of reports that are printed as they come.

ghost use Rattle.std.specs.Prelude.{◌≡◌, ◌≤◌, ◌^◌};
ghost use Rattle.trace_feed.specs.Doors.{IfCame};

use super::{Listed, expect_eq, text_and_status, three_arrivals, wait_for};
use asan_collect::{Gate, Live, OpenGate, Options, Why, WriteFault, collect_live};
use std::alloc::Global;
use std::io;
use std::io::Write;
use std::process::Abort;
use std::sync::Wait;
use std::sync::atomic::{AtomicU64, Ordering};
use std::test::Fail;
use std::thread::Threads;
use std::time::Clock;
use test_streams::STREAM;
use test_writers::{FailsOnce, ShortWriter, WhenFull};
use trace_feed::{Arrival, Door, Feed, FeedFault, ListDoor};

/// What a gate has heard of where an event came out of order, or twice.
const OUT_OF_ORDER: u64 = u64::MAX;

/// What is printed of each of the three senders.
const THREE_TEXTS: [&str; 3] = [
    "\
p0 #2 store 4 at 000000001004 bad 000000001005 heap-buffer-overflow shadow 05
p0 end closed events 2 offset 36 reports 1
",
    "p1 end read-failed events 1 offset 25 reports 0\n",
    "p2 end truncated events 0 offset 0 reports 0\n",
];

/// Asserts that the lines that begin so are these, in order.
fn expect_lines(rt: &impl Abort, text: &str, prefix: &str, wanted: &str) {
    let mut wanted = wanted.lines();
    for line in text.lines() {
        if line.starts_with(prefix) {
            expect_eq(rt, Some(line), wanted.next());
        }
    }
    assert!(rt; wanted.next().is_none());
}

/// Asserts that the lines of each of the three senders are these, in order.
fn expect_three(rt: &impl Abort, text: &str) {
    for (prefix, wanted) in ["p0 ", "p1 ", "p2 "].iter().zip(&THREE_TEXTS) {
        expect_lines(rt, text, prefix, wanted);
    }
}

/// What came of senders whose lines were printed as they came.
#[derive(Drop)]
struct Printed {
    /// How the writing ended.
    wrote: Result<(), WriteFault>,
    /// How many outcomes there are.
    senders: usize,
    /// What `write_outcomes` writes of them.
    text: String,
}

/// Collects from a door, and prints each line as it comes.
fn print_live<D: Door, G: Gate + Sync, W: Write, R: Threads + Wait + Clock + Sync>(
    rt: &R,
    alloc: Global,
    door: &mut D,
    gate: &G,
    options: Options,
    output: &mut W,
) -> Result<Printed, Fail>
where
    D::Feed: Send + Drop,
    requires { (D.seen door.old).refusals ≤ 2 ^ 32 }
{
    let Live { outcomes, wrote } = collect_live(rt, alloc, door, gate, options, output)?;
    let (text, _) = text_and_status(alloc, &outcomes)?;
    Ok(Printed {
        wrote,
        senders: outcomes.len(),
        text,
    })
}

/// Collects from the three senders with a ring of this many events and this many workers, and
/// prints each line as it comes.
fn print_three<W: Write, R: Threads + Wait + Clock + Sync>(
    rt: &R,
    alloc: Global,
    ring: u32,
    workers: u32,
    output: &mut W,
) -> Result<Printed, Fail> {
    let options = Options::new(1 << 28, ring, workers, 1 << 24)?;
    print_live(
        rt,
        alloc,
        &mut three_arrivals(alloc),
        &OpenGate,
        options,
        output,
    )
}

/// A fault of a writer that took this many bytes.
fn fault_after(written: u64) -> Result<(), WriteFault> {
    Err(WriteFault {
        written,
        why: Why::Write,
    })
}

#[test]
fn live_lines_of_each_process(rt: HostRuntime) -> Result<(), Fail> {
    for ring in [1, 1024] {
        for workers in [1, 3] {
            let mut text = Vec::new(rt.alloc());
            let printed = print_three(&rt, rt.alloc(), ring, workers, &mut text)?;
            expect_eq(&rt, printed.wrote, Ok(()));
            expect_eq(&rt, printed.senders, 3);
            let text = String::from_utf8(text)?;
            expect_eq(&rt, text.lines().count(), 4);
            expect_three(&rt, text.as_str());
        }
    }
    Ok(())
}

#[test]
fn an_output_that_takes_no_more(rt: HostRuntime) -> Result<(), Fail> {
    for ring in [1, 1024] {
        for workers in [1, 3] {
            let mut output = ShortWriter {
                held: Vec::new(rt.alloc()),
                room: 10,
                step: 10,
                when_full: WhenFull::Fails,
                flushes: true,
            };
            let printed = print_three(&rt, rt.alloc(), ring, workers, &mut output)?;
            expect_eq(&rt, printed.wrote, fault_after(10));
            assert!(rt; output.held.as_slice() == &THREE_TEXTS[0].as_bytes()[..10]);
            expect_three(&rt, printed.text.as_str());
        }
    }
    Ok(())
}

/// Asserts that nothing is written after a write of this number failed, where this many bytes went
/// out before.
fn expect_last_write<R: Threads + Wait + Clock + Sync + Abort>(
    rt: &R,
    alloc: Global,
    workers: u32,
    failing: u64,
    written: u64,
) -> Result<(), Fail> {
    let mut output = FailsOnce {
        held: Vec::new(alloc),
        writes: 0,
        failing,
    };
    let printed = print_three(rt, alloc, 1, workers, &mut output)?;
    expect_eq(rt, printed.wrote, fault_after(written));
    expect_eq(rt, output.writes, failing);
    expect_eq(rt, output.held.len() as u64, written);
    assert!(rt;
        test_streams::THREE_TEXTS
            .as_bytes()
            .starts_with(&output.held)
    );
    expect_eq(rt, printed.text.as_str(), test_streams::THREE_TEXTS);
    Ok(())
}

#[test]
fn a_failed_live_write_is_the_last(rt: HostRuntime) -> Result<(), Fail> {
    for workers in [1, 3] {
        // The line of the report goes out by itself, and the end lines after it.
        for (failing, written) in [(1, 0), (2, 78)] {
            expect_last_write(&rt, rt.alloc(), workers, failing, written)?;
        }
    }
    Ok(())
}

/// A feed that gives the first bytes of the stream, if it is to give any, and the rest only once a
/// line was printed. Where it waits in vain, the read fails.
#[derive(Drop)]
struct Patient<'a> {
    /// How many bytes it gives before it waits.
    first: usize,
    place: usize,
    printed: &'a AtomicU64,
    faults: u64,
}

impl<'a> Feed for Patient<'a> {
    ghost use Rattle.std.specs.Prelude.{None};

    ghost seen = { λ p. record { to_come = None; faults = p.faults } };

    fn next(&mut self, buf: &mut [u8]) -> Result<usize, FeedFault> {
        let waits = self.first <= self.place;
        if waits && !wait_for(self.printed) {
            self.faults += 1;
            return Err(FeedFault);
        }
        let stop = if waits { STREAM.len() } else { self.first };
        let piece = STREAM.get(self.place..stop).unwrap_or(&[]);
        let count = piece.len().min(buf.len());
        buf[..count].copy_from_slice(&piece[..count]);
        self.place = stop;
        Ok(count)
    }

    fn faults(&self) -> u64 {
        self.faults
    }
}

/// A writer that sets a flag when it is given the end of a line.
#[derive(Drop)]
struct Noticing<'a> {
    text: Vec<u8>,
    printed: &'a AtomicU64,
}

impl<'a> Write for Noticing<'a> {
    fn write(&mut self, buf: &[u8]) -> io::Result<usize> {
        self.text.extend_from_slice(buf)?;
        if buf.contains(&b'\n') {
            self.printed.store(1, Ordering::SeqCst);
        }
        Ok(buf.len())
    }

    fn flush(&mut self) -> io::Result<()> {
        Ok(())
    }
}

/// A sender whose feed gives this many bytes before it waits for the first line.
fn sender_of(first: usize, printed: &AtomicU64) -> Arrival<Patient<'_>>
    ensures { IfCame (λ p. p.faults ≡ 0) result }
{
    Arrival::Came(Patient {
        first,
        place: 0,
        printed,
        faults: 0,
    })
}

/// What is printed of three senders, the middle one of which gives its first event at once, by so
/// many checkers.
fn noticed_of<R: Threads + Wait + Clock + Sync + Abort>(
    rt: &R,
    alloc: Global,
    first: usize,
    workers: u32,
) -> Result<String, Fail> {
    let printed = AtomicU64::new(0);
    let mut arrivals = Vec::new(alloc);
    arrivals.push(sender_of(first, &printed))?;
    arrivals.push(sender_of(35, &printed))?;
    arrivals.push(sender_of(first, &printed))?;
    let mut door = ListDoor::new(arrivals);
    let mut output = Noticing {
        text: Vec::new(alloc),
        printed: &printed,
    };
    let options = Options::new(1 << 28, 1024, workers, 1 << 24)?;
    let live = print_live(rt, alloc, &mut door, &OpenGate, options, &mut output)?;
    expect_eq(rt, live.wrote, Ok(()));
    Ok(String::from_utf8(output.text)?)
}

#[test]
fn printed_before_the_end(rt: HostRuntime) -> Result<(), Fail> {
    for (first, workers) in [(35, 1), (35, 2), (0, 1), (0, 2)] {
        let text = noticed_of(&rt, rt.alloc(), first, workers)?;
        expect_lines(&rt, text.as_str(), "p0 ", THREE_TEXTS[0]);
        for prefix in ["p1 end closed ", "p2 end closed "] {
            assert!(rt; text.lines().any(|line| line.starts_with(prefix)));
        }
    }
    Ok(())
}

/// A stream of this many frees where no block starts.
fn frees(alloc: Global, count: u32) -> Result<Vec<u8>, Fail> {
    let mut bytes = STREAM[..8].to_vec(alloc)?;
    for _ in 0..count {
        bytes.extend_from_slice(&[4, 0, 0x10, 0, 0, 0, 0, 0, 0])?;
    }
    bytes.push(7)?;
    Ok(bytes)
}

/// A gate that counts the events that it hears of for each of three processes, as long as they come
/// in order.
#[derive(Drop)]
struct Counters {
    heard: [AtomicU64; 3],
}

impl Gate for Counters {
    fn checked(&self, process: u32, event: u64) {
        let Some(heard) = self.heard.get(process as usize) else {
            return;
        };
        let is_next = event == heard.load(Ordering::SeqCst).wrapping_add(1);
        let heard_of = if is_next { event } else { OUT_OF_ORDER };
        heard.store(heard_of, Ordering::SeqCst);
    }
}

/// Asserts that two texts have the same lines that begin so, in the same order.
fn expect_same_lines(rt: &impl Abort, text: &str, wanted: &str, prefix: &str) {
    let mut lines = text.lines().filter(|line| line.starts_with(prefix));
    for line in wanted.lines().filter(|line| line.starts_with(prefix)) {
        expect_eq(rt, lines.next(), Some(line));
    }
    assert!(rt; lines.next().is_none());
}

#[test]
fn many_reports_through_small_lanes(rt: HostRuntime) -> Result<(), Fail> {
    let alloc = rt.alloc();
    let bytes = frees(alloc, 1000)?;
    let senders = [Some((bytes.as_slice(), None)); 3];
    let mut door = Listed::new(alloc, &senders);
    let options = Options::new(1 << 28, 1, 2, 1 << 24)?;
    let mut text = Vec::new(alloc);
    let gate = Counters {
        heard: [AtomicU64::new(0), AtomicU64::new(0), AtomicU64::new(0)],
    };
    let printed = print_live(&rt, alloc, &mut door, &gate, options, &mut text)?;
    expect_eq(&rt, printed.wrote, Ok(()));
    // The last reports waited for room after the end was taken, and the gate's calls with them.
    for heard in &gate.heard {
        expect_eq(&rt, heard.load(Ordering::SeqCst), 1000);
    }
    let text = String::from_utf8(text)?;
    expect_eq(&rt, text.lines().count(), 3003);
    for prefix in ["p0 ", "p1 ", "p2 "] {
        expect_same_lines(&rt, text.as_str(), printed.text.as_str(), prefix);
    }
    Ok(())
}
