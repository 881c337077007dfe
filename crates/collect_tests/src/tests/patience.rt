//! Tests that no thread gives another up, however often it looks in vain, and that a lane has the
//! room that it was asked for.

ghost use Rattle.std.specs.Prelude.{◌≡◌, IfOk};

use super::collect::printed_of;
use super::{expect_eq, wait_until};
use asan_collect::{Gate, Options, collect_live};
use std::alloc::Global;
use std::io::Write;
use std::process::Abort;
use std::sync::Wait;
use std::sync::atomic::{AtomicU64, Ordering};
use std::test::Fail;
use std::thread::Threads;
use std::time::{Clock, Duration};
use std::{io, thread};
use test_streams::feed_of;
use trace_feed::{Arrival, Feed, FeedFault, ListDoor, MemFeed};

/// How often the threads that wait look in vain at least.
const LOOKS: u64 = 100_000;

/// How many events a stream has.
const EVENTS: u32 = 400;

/// A runtime whose clock does not sleep. It counts how often it was to.
#[derive(Drop)]
struct Restless<'a, R> {
    rt: &'a R,
    sleeps: &'a AtomicU64,
}

impl<'a, R: Wait> Wait for Restless<'a, R> {}

impl<'a, R: Threads> Threads for Restless<'a, R> {}

impl<'a, R: Clock> Clock for Restless<'a, R> {
    fn monotonic(&self) -> io::Result<Duration> {
        self.rt.monotonic()
    }

    fn since_1970(&self) -> io::Result<Duration> {
        self.rt.since_1970()
    }

    fn sleep(&self, _duration: Duration) {
        self.sleeps.fetch_add(1, Ordering::SeqCst);
        thread::yield_now();
    }
}

/// The header and 400 frees where no block starts, without a close. It is less than a read takes.
fn frees(alloc: Global) -> Result<Vec<u8>, Fail> {
    let mut bytes = b"ASTR\x01\0\0\0".to_vec(alloc)?;
    for _ in 0..EVENTS {
        bytes.extend_from_slice(&[4, 0, 0x10, 0, 0, 0, 0, 0, 0])?;
    }
    Ok(bytes)
}

/// What is printed of them and a close, where they are those of the only sender.
fn text_of_frees(alloc: Global) -> Result<String, Fail> {
    let mut text = String::new(alloc);
    for event in 1..=EVENTS {
        write!(text, "p0 #{event} free at 000000001000 bad-free\n")?;
    }
    write!(text, "p0 end closed events 400 offset 3609 reports 400\n")?;
    Ok(text)
}

/// What something waits for: that a counter has come so far.
#[derive(Clone, Copy)]
struct Until<'a> {
    counter: &'a AtomicU64,
    least: u64,
    /// Counts how often it waited in vain.
    missed: &'a AtomicU64,
}

impl<'a> Until<'a> {
    fn wait(&self) {
        if !wait_until(self.counter, self.least) {
            self.missed.fetch_add(1, Ordering::SeqCst);
        }
    }
}

/// A feed whose second read gives the close, once it has waited. It counts its reads.
#[derive(Drop)]
struct Late<'a> {
    bytes: Vec<u8>,
    reads: &'a AtomicU64,
    until: Until<'a>,
}

impl<'a> Feed for Late<'a> {
    ghost use Rattle.std.specs.Prelude.{None};

    ghost seen = { λ l. record { to_come = None; faults = 0 } };

    fn next(&mut self, buf: &mut [u8]) -> Result<usize, FeedFault> {
        let before = self.reads.fetch_add(1, Ordering::SeqCst);
        if before == 1 {
            self.until.wait();
        }
        let piece = match before {
            0 => self.bytes.as_slice(),
            1 => b"\x07",
            _ => &[],
        };
        let count = piece.len().min(buf.len());
        buf[..count].copy_from_slice(&piece[..count]);
        Ok(count)
    }

    fn faults(&self) -> u64 {
        0
    }
}

/// A gate that waits at the first event, and keeps the number of the last one.
#[derive(Drop)]
struct Slow<'a> {
    last: &'a AtomicU64,
    until: Until<'a>,
}

impl<'a> Gate for Slow<'a> {
    fn checked(&self, _process: u32, event: u64) {
        self.last.store(event, Ordering::SeqCst);
        if event == 1 {
            self.until.wait();
        }
    }
}

/// A writer that waits at its first write.
#[derive(Drop)]
struct SlowOutput<'a> {
    text: Vec<u8>,
    until: Until<'a>,
}

impl<'a> Write for SlowOutput<'a> {
    fn write(&mut self, buf: &[u8]) -> io::Result<usize> {
        if self.text.is_empty() {
            self.until.wait();
        }
        self.text.extend_from_slice(buf)?;
        Ok(buf.len())
    }

    fn flush(&mut self) -> io::Result<()> {
        Ok(())
    }
}

/// The counters of a test.
#[derive(Drop)]
struct Counters {
    sleeps: AtomicU64,
    reads: AtomicU64,
    last: AtomicU64,
    missed: AtomicU64,
}

impl Counters {
    fn new() -> Counters {
        Counters {
            sleeps: AtomicU64::new(0),
            reads: AtomicU64::new(0),
            last: AtomicU64::new(0),
            missed: AtomicU64::new(0),
        }
    }

    /// That a counter has come so far.
    fn until<'a>(&'a self, counter: &'a AtomicU64, least: u64) -> Until<'a> {
        Until {
            counter,
            least,
            missed: &self.missed,
        }
    }
}

/// A door of one sender, whose second read waits.
fn late_door<'a>(
    alloc: Global,
    counters: &'a Counters,
    until: Until<'a>,
) -> Result<ListDoor<Late<'a>>, Fail>
    ensures { IfOk result (λ d. d.refusals ≡ 0) }
{
    let mut arrivals = Vec::new(alloc);
    arrivals.push(Arrival::Came(Late {
        bytes: frees(alloc)?,
        reads: &counters.reads,
        until,
    }))?;
    Ok(ListDoor::new(arrivals))
}

/// A lane of this many items: with one more event taken, all events but the last have room.
fn options_of(ring: u32) -> Result<Options, Fail> {
    Ok(Options::new(1 << 28, ring, 1, 1 << 24)?)
}

/// What is printed of one sender, over a lane of this many items, where its second read and the
/// gate wait.
fn printed_late<'a, R: Threads + Wait + Clock + Sync>(
    rt: &R,
    alloc: Global,
    ring: u32,
    counters: &'a Counters,
    feed: Until<'a>,
    gate: Until<'a>,
) -> Result<String, Fail> {
    let mut door = late_door(alloc, counters, feed)?;
    let gate = Slow {
        last: &counters.last,
        until: gate,
    };
    Ok(printed_of(rt, alloc, &mut door, &gate, options_of(ring)?)?.0)
}

/// Asserts that nothing waited in vain, and what was printed.
fn expect_waited(
    rt: &impl Abort,
    alloc: Global,
    counters: &Counters,
    text: &str,
) -> Result<(), Fail> {
    let wanted = text_of_frees(alloc)?;
    expect_eq(rt, text, wanted.as_str());
    expect_eq(rt, counters.missed.load(Ordering::SeqCst), 0);
    Ok(())
}

#[test]
fn a_slow_feed_is_waited_for(rt: HostRuntime) -> Result<(), Fail> {
    let counters = Counters::new();
    let restless = Restless {
        rt: &rt,
        sleeps: &counters.sleeps,
    };
    let (many, now) = (
        counters.until(&counters.sleeps, LOOKS),
        counters.until(&counters.sleeps, 0),
    );
    let text = printed_late(&restless, rt.alloc(), 1, &counters, many, now)?;
    expect_waited(&rt, rt.alloc(), &counters, text.as_str())
}

#[test]
fn a_slow_checker_is_waited_for(rt: HostRuntime) -> Result<(), Fail> {
    let counters = Counters::new();
    let restless = Restless {
        rt: &rt,
        sleeps: &counters.sleeps,
    };
    let (many, now) = (
        counters.until(&counters.sleeps, LOOKS),
        counters.until(&counters.sleeps, 0),
    );
    let text = printed_late(&restless, rt.alloc(), 1, &counters, now, many)?;
    expect_waited(&rt, rt.alloc(), &counters, text.as_str())
}

#[test]
fn a_lane_has_its_room(rt: HostRuntime) -> Result<(), Fail> {
    let counters = Counters::new();
    let (second_read, now) = (
        counters.until(&counters.reads, 2),
        counters.until(&counters.reads, 0),
    );
    let text = printed_late(&rt, rt.alloc(), EVENTS - 1, &counters, now, second_read)?;
    expect_waited(&rt, rt.alloc(), &counters, text.as_str())
}

/// A door of one sender, who sends the frees and the close.
fn early_door(alloc: Global) -> Result<ListDoor<MemFeed>, Fail>
    ensures { IfOk result (λ d. d.refusals ≡ 0) }
{
    let mut bytes = frees(alloc)?;
    bytes.push(7)?;
    let mut arrivals = Vec::new(alloc);
    arrivals.push(Arrival::Came(feed_of(alloc, &bytes, &[], None)?))?;
    Ok(ListDoor::new(arrivals))
}

/// What is printed of one sender as it comes, over lanes of this many items, where the first write
/// waits.
fn printed_slowly<'a, R: Threads + Wait + Clock + Sync>(
    rt: &R,
    alloc: Global,
    ring: u32,
    counters: &'a Counters,
    until: Until<'a>,
) -> Result<String, Fail> {
    let mut door = early_door(alloc)?;
    let gate = Slow {
        last: &counters.last,
        until: counters.until(&counters.last, 0),
    };
    let mut output = SlowOutput {
        text: Vec::new(alloc),
        until,
    };
    let options = options_of(ring)?;
    collect_live(rt, alloc, &mut door, &gate, options, &mut output)?.wrote?;
    Ok(String::from_utf8(output.text)?)
}

#[test]
fn a_slow_output_is_waited_for(rt: HostRuntime) -> Result<(), Fail> {
    let counters = Counters::new();
    let restless = Restless {
        rt: &rt,
        sleeps: &counters.sleeps,
    };
    let many = counters.until(&counters.sleeps, LOOKS);
    let text = printed_slowly(&restless, rt.alloc(), 1, &counters, many)?;
    expect_waited(&rt, rt.alloc(), &counters, text.as_str())
}

#[test]
fn a_report_lane_has_its_room(rt: HostRuntime) -> Result<(), Fail> {
    let counters = Counters::new();
    let all = counters.until(&counters.last, u64::from(EVENTS));
    let text = printed_slowly(&rt, rt.alloc(), EVENTS - 1, &counters, all)?;
    expect_waited(&rt, rt.alloc(), &counters, text.as_str())
}
