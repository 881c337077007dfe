//! Tests of an allocator that two threads share: its counts and its refusals are those of one list
//! of requests, however the threads run.

use super::{expect_held, expect_refused, expect_requests};
use crate::RefusingAllocator;
use std::alloc::{AllocError, Global};
use std::process::Abort;
use std::sync::Wait;
use std::sync::atomic::{AtomicU64, Ordering};
use std::test::Fail;
use std::thread;

/// How many requests each thread makes of an allocator with a bound.
const REQUESTS: u64 = 200_000;

/// How many requests each thread makes of an allocator that refuses one.
const REQUESTS_OF_ONE: u64 = 20;

/// How many allocators refuse one request each.
const ALLOCATORS: usize = 2_000;

/// Comes back once both threads have called it this many times.
fn meet(rt: &impl Wait, arrivals: &AtomicU64, times: u64) {
    arrivals.fetch_add(1, Ordering::SeqCst);
    for _ in rt.forever() {
        if arrivals.load(Ordering::SeqCst) >= times.saturating_mul(2) {
            return;
        }
        thread::yield_now();
    }
}

/// Takes a block and gives it back, many times. `taken` is what both threads hold by their own
/// account. Answers how many requests were granted, and the most bytes that were held at once, by
/// either account.
fn take_and_give_back(heap: &RefusingAllocator<Global>, taken: &AtomicU64) -> (u64, u64) {
    let (mut granted, mut most) = (0u64, 0u64);
    for _ in 0..REQUESTS {
        if let Ok(block) = Box::new(heap, [0u8; 60]) {
            let before = taken.fetch_add(60, Ordering::SeqCst);
            granted = granted.saturating_add(1);
            most = most.max(before.saturating_add(60)).max(heap.held());
            taken.fetch_sub(60, Ordering::SeqCst);
            drop(block);
        }
    }
    (granted, most)
}

/// Compares what two threads saw of an allocator with a bound of 100 bytes with what it counted.
fn expect_bound_kept(
    rt: &impl Abort,
    heap: &RefusingAllocator<Global>,
    one: (u64, u64),
    other: (u64, u64),
) {
    let granted = one.0.saturating_add(other.0);
    assert!(rt; granted > 0);
    assert!(rt; one.1.max(other.1) <= 100, "{} and {}", one.1, other.1);
    expect_held(rt, heap, 0);
    expect_requests(rt, heap, 2 * REQUESTS, 2 * REQUESTS * 60);
    expect_refused(rt, heap, granted < 2 * REQUESTS);
}

#[test]
fn two_threads_hold_no_more_than_the_bound(rt: HostRuntime) {
    let heap = RefusingAllocator::with_bound(rt.alloc(), 100);
    let (arrivals, taken) = (AtomicU64::new(0), AtomicU64::new(0));
    let run = || {
        meet(&rt, &arrivals, 1);
        take_and_give_back(&heap, &taken)
    };
    let (one, other) = thread::join(&rt, &run, &run);
    expect_bound_kept(&rt, &heap, one, other);
}

/// An allocator that refuses one request, and how many of its requests were refused.
#[derive(Drop)]
struct Turned {
    heap: RefusingAllocator<Global>,
    refusals: AtomicU64,
}

/// Makes requests of each allocator beside another thread.
fn ask_each(rt: &impl Wait, arrivals: &AtomicU64, each: &[Turned]) {
    for (place, turned) in each.iter().enumerate() {
        meet(rt, arrivals, place as u64 + 1);
        for number in 0..REQUESTS_OF_ONE {
            if Box::new(&turned.heap, number).is_err() {
                turned.refusals.fetch_add(1, Ordering::SeqCst);
            }
        }
    }
}

/// Allocators that refuse one request each, the same of each.
fn allocators(alloc: Global) -> Result<Vec<Turned>, AllocError> {
    let mut each = Vec::with_capacity(alloc, ALLOCATORS)?;
    for _ in 0..ALLOCATORS {
        each.push(Turned {
            heap: RefusingAllocator::at_turn(alloc, REQUESTS_OF_ONE),
            refusals: AtomicU64::new(0),
        })?;
    }
    Ok(each)
}

/// Compares what an allocator counted of two threads with the requests that they made.
fn expect_one_refused(rt: &impl Abort, turned: &Turned) {
    let Turned { heap, refusals } = turned;
    assert_eq!(rt; refusals.load(Ordering::SeqCst), 1);
    expect_refused(rt, heap, true);
    expect_held(rt, heap, 0);
    expect_requests(rt, heap, 2 * REQUESTS_OF_ONE, 2 * REQUESTS_OF_ONE * 8);
}

#[test]
fn one_request_of_two_threads_is_refused(rt: HostRuntime) -> Result<(), Fail> {
    let each = allocators(rt.alloc())?;
    let arrivals = AtomicU64::new(0);
    let run = || ask_each(&rt, &arrivals, &each);
    thread::join(&rt, &run, &run);
    for turned in &each {
        expect_one_refused(&rt, turned);
    }
    Ok(())
}
