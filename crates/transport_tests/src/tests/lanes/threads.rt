//! A test of a lane between two threads.

use crate::tests::{expect_at, expect_eq};
use std::alloc::{AllocError, Global};
use std::process::Abort;
use std::sync::Wait;
use std::test::Fail;
use std::thread;
use trace_lane::{LaneIn, LaneOut, lane};

/// How many numbers go through a lane.
const COUNT: u32 = 100_000;

/// The numbers that go through a lane.
fn numbers(alloc: Global) -> Result<Vec<u32>, AllocError> {
    let mut numbers = Vec::with_capacity(alloc, COUNT as usize)?;
    for number in 0..COUNT {
        numbers.push(number)?;
    }
    Ok(numbers)
}

/// Puts these numbers by slices of up to 100. Answers whether the lane was finished.
fn put_all(rt: &impl Wait, into: LaneIn<u32>, numbers: &[u32]) -> bool {
    let mut into = into;
    let mut done = 0usize;
    for _ in rt.forever() {
        let Some(rest) = numbers.get(done..) else {
            break;
        };
        if rest.is_empty() {
            break;
        }
        let put = into.put_some(&rest[..rest.len().min(100)]);
        if put == 0 {
            thread::yield_now();
        }
        done = done.saturating_add(put);
    }
    into.finish().is_some()
}

/// Takes the next item, once there is one.
fn take_waiting(rt: &impl Wait, out: &mut LaneOut<u32>) -> u32 {
    for _ in rt.forever() {
        if let Some(item) = out.take() {
            return item;
        }
        thread::yield_now();
    }
    unreachable!()
}

/// Takes all numbers in order, once they come.
fn expect_numbers<R: Wait + Abort>(rt: &R, out: &mut LaneOut<u32>) {
    for number in 0..COUNT {
        expect_eq(rt, take_waiting(rt, out), number);
    }
}

/// Asserts that the putting end is gone and that no item is left.
fn expect_left(rt: &impl Abort, out: &mut LaneOut<u32>) {
    assert!(rt; out.is_left());
    expect_eq(rt, out.take(), None);
}

#[test]
fn numbers_come_in_order_to_another_thread(rt: HostRuntime) -> Result<(), Fail> {
    for capacity in [2, 64, 1_024] {
        let (into, mut out) = lane(rt.alloc(), capacity)?;
        let numbers = numbers(rt.alloc())?;
        let producer = thread::spawn(&rt, move || put_all(&rt, into, &numbers))
            .ok()
            .expect(&rt, "a thread starts");
        expect_numbers(&rt, &mut out);
        expect_at(&rt, capacity, producer.join(&rt));
        expect_left(&rt, &mut out);
    }
    Ok(())
}
