//! Tests that work overlaps: senders, a reader and its checker, and two checkers.
//!
//! A feed or a gate here waits for another thread, at most 10,000,000 turns, in each of which it
//! yields its processor, and counts a miss where it waited in vain. What waits would miss if the
//! work were done in turn.

use super::collect::printed_of;
use super::{expect_eq, expect_eq_at, wait_for};
use asan_collect::{Gate, Options};
use std::alloc::Global;
use std::sync::Wait;
use std::sync::atomic::{AtomicU64, Ordering};
use std::test::Fail;
use std::thread::Threads;
use std::time::Clock;
use test_streams::{MISS, STREAM_AND_MORE, feed_of};
use trace_feed::{Arrival, Feed, FeedFault, ListDoor};

/// A feed whose second read waits for a flag, and its first one too if `waits_first`. Where it
/// waits in vain, the read fails. It sets its own flag when its second read begins.
#[derive(Drop)]
struct Waiting<'a> {
    bytes: &'static [u8],
    /// How many bytes the first read gives.
    cut: usize,
    place: usize,
    waits_first: bool,
    flag: &'a AtomicU64,
    began: &'a AtomicU64,
    faults: u64,
}

impl<'a> Feed for Waiting<'a> {
    ghost use Rattle.std.specs.Prelude.{None};

    ghost seen = { λ w. record { to_come = None; faults = w.faults } };

    fn next(&mut self, buf: &mut [u8]) -> Result<usize, FeedFault> {
        let is_first = self.place == 0;
        if !is_first {
            self.began.store(1, Ordering::SeqCst);
        }
        if (self.waits_first || !is_first) && !wait_for(self.flag) {
            self.faults += 1;
            return Err(FeedFault);
        }
        let stop = if is_first { self.cut } else { self.bytes.len() };
        let piece = self.bytes.get(self.place..stop).unwrap_or(&[]);
        let count = piece.len().min(buf.len());
        buf[..count].copy_from_slice(&piece[..count]);
        self.place = stop;
        Ok(count)
    }

    fn faults(&self) -> u64 {
        self.faults
    }
}

/// A flag that is not set.
fn flag() -> AtomicU64 {
    AtomicU64::new(0)
}

/// A gate that sets a flag at the first event of each of two processes.
#[derive(Drop)]
struct Marking<'a> {
    first: &'a AtomicU64,
    second: &'a AtomicU64,
}

impl<'a> Gate for Marking<'a> {
    fn checked(&self, process: u32, event: u64) {
        if event == 1 {
            let flag = if process == 0 {
                self.first
            } else {
                self.second
            };
            flag.store(1, Ordering::SeqCst);
        }
    }
}

/// What is printed of two senders: one gives nothing until the first event of the other was
/// checked, and that one gives only its first event until the first event of the one was.
fn printed_of_two<R: Threads + Wait + Clock + Sync>(
    rt: &R,
    alloc: Global,
    swapped: bool,
    workers: u32,
) -> Result<String, Fail> {
    let (first, second, began) = (flag(), flag(), flag());
    let silent = Waiting {
        bytes: &STREAM_AND_MORE,
        cut: 25,
        place: 0,
        waits_first: true,
        flag: if swapped { &first } else { &second },
        began: &began,
        faults: 0,
    };
    let eager = Waiting {
        bytes: &STREAM_AND_MORE,
        cut: 25,
        place: 0,
        waits_first: false,
        flag: if swapped { &second } else { &first },
        began: &began,
        faults: 0,
    };
    let (one, other) = if swapped {
        (eager, silent)
    } else {
        (silent, eager)
    };
    let mut arrivals = Vec::new(alloc);
    arrivals.push(Arrival::Came(one))?;
    arrivals.push(Arrival::Came(other))?;
    let gate = Marking {
        first: &first,
        second: &second,
    };
    let options = Options::new(1 << 28, 1024, workers, 1 << 24)?;
    let (text, _) = printed_of(rt, alloc, &mut ListDoor::new(arrivals), &gate, options)?;
    Ok(text)
}

#[test]
fn senders_overlap(rt: HostRuntime) -> Result<(), Fail> {
    let wanted = "\
p0 #2 store 4 at 000000001004 bad 000000001005 heap-buffer-overflow shadow 05
p0 end closed events 2 offset 36 reports 1
p1 #2 store 4 at 000000001004 bad 000000001005 heap-buffer-overflow shadow 05
p1 end closed events 2 offset 36 reports 1
";
    for workers in [1, 2] {
        for swapped in [false, true] {
            let text = printed_of_two(&rt, rt.alloc(), swapped, workers)?;
            expect_eq_at(&rt, workers, text.as_str(), wanted);
        }
    }
    Ok(())
}

/// A gate where each of two processes, at its first event, waits for the first event of the other.
#[derive(Drop)]
struct Meeting<'a> {
    first: &'a AtomicU64,
    second: &'a AtomicU64,
    missed: &'a AtomicU64,
}

impl<'a> Gate for Meeting<'a> {
    fn checked(&self, process: u32, event: u64) {
        if event == 1 {
            let (mine, other) = if process == 0 {
                (self.first, self.second)
            } else {
                (self.second, self.first)
            };
            mine.store(1, Ordering::SeqCst);
            if !wait_for(other) {
                self.missed.fetch_add(1, Ordering::SeqCst);
            }
        }
    }
}

#[test]
fn checkers_overlap(rt: HostRuntime) -> Result<(), Fail> {
    let alloc = rt.alloc();
    let (first, second, missed) = (flag(), flag(), flag());
    let mut arrivals = Vec::new(alloc);
    arrivals.push(Arrival::Came(feed_of(alloc, &MISS, &[], None)?))?;
    arrivals.push(Arrival::Came(feed_of(alloc, &MISS, &[], None)?))?;
    let gate = Meeting {
        first: &first,
        second: &second,
        missed: &missed,
    };
    let options = Options::new(1 << 28, 1024, 2, 1 << 24)?;
    let (text, _) = printed_of(&rt, alloc, &mut ListDoor::new(arrivals), &gate, options)?;
    expect_eq(&rt, missed.load(Ordering::SeqCst), 0);
    let wanted = "\
p0 end closed events 2 offset 36 reports 0
p1 end closed events 2 offset 36 reports 0
";
    expect_eq(&rt, text.as_str(), wanted);
    Ok(())
}

/// Four loads of a byte at 0x1000, and the close. The header and three loads are 38 bytes.
const FOUR_LOADS: [u8; 49] = [
    0x41, 0x53, 0x54, 0x52, 1, 0, 0, 0, 1, 1, 0, 0x10, 0, 0, 0, 0, 0, 0, 1, 1, 0, 0x10, 0, 0, 0, 0,
    0, 0, 1, 1, 0, 0x10, 0, 0, 0, 0, 0, 0, 1, 1, 0, 0x10, 0, 0, 0, 0, 0, 0, 7,
];

/// What is printed of them.
const FOUR_LOADS_TEXT: &str = "p0 end closed events 4 offset 49 reports 0\n";

/// What is printed of one sender of them, over a lane of this many items. Its second read waits for
/// a flag, and sets another when it begins.
fn printed_of_four<G: Gate + Sync, R: Threads + Wait + Clock + Sync>(
    rt: &R,
    alloc: Global,
    ring: u32,
    flag: &AtomicU64,
    began: &AtomicU64,
    gate: &G,
) -> Result<String, Fail> {
    let mut arrivals = Vec::new(alloc);
    arrivals.push(Arrival::Came(Waiting {
        bytes: &FOUR_LOADS,
        cut: 38,
        place: 0,
        waits_first: false,
        flag,
        began,
        faults: 0,
    }))?;
    let options = Options::new(1 << 28, ring, 1, 1 << 24)?;
    Ok(printed_of(rt, alloc, &mut ListDoor::new(arrivals), gate, options)?.0)
}

#[test]
fn reader_and_checker_overlap(rt: HostRuntime) -> Result<(), Fail> {
    for ring in [1, 1024] {
        let (first, second, began) = (flag(), flag(), flag());
        let gate = Marking {
            first: &first,
            second: &second,
        };
        let text = printed_of_four(&rt, rt.alloc(), ring, &first, &began, &gate)?;
        expect_eq_at(&rt, ring, text.as_str(), FOUR_LOADS_TEXT);
    }
    Ok(())
}

/// A gate that holds the first event until a flag is set.
#[derive(Drop)]
struct Holding<'a> {
    flag: &'a AtomicU64,
    missed: &'a AtomicU64,
}

impl<'a> Gate for Holding<'a> {
    fn checked(&self, _process: u32, event: u64) {
        if event == 1 && !wait_for(self.flag) {
            self.missed.fetch_add(1, Ordering::SeqCst);
        }
    }
}

#[test]
fn reader_runs_ahead(rt: HostRuntime) -> Result<(), Fail> {
    let (began, set, missed) = (flag(), AtomicU64::new(1), flag());
    let gate = Holding {
        flag: &began,
        missed: &missed,
    };
    let text = printed_of_four(&rt, rt.alloc(), 1024, &set, &began, &gate)?;
    expect_eq(&rt, text.as_str(), FOUR_LOADS_TEXT);
    expect_eq(&rt, missed.load(Ordering::SeqCst), 0);
    Ok(())
}
