//! Tests of the making of lanes.

use super::{Ends, Step, ends_of, expect_steps, put_some, settle, take};
use crate::tests::{expect_at, expect_eq, expect_eq_at};
use refusing_allocator::RefusingAllocator;
use std::alloc::{Allocator, Global};
use std::process::Abort;
use std::test::Fail;
use trace_lane::{LaneError, lane};

/// Why no lane of numbers is made with this capacity, or `None` where one is.
fn refusal_of<A: Allocator + Copy>(alloc: A, capacity: usize) -> Option<LaneError> {
    lane::<u32, A>(alloc, capacity).err()
}

#[test]
fn capacities(rt: HostRuntime) {
    for (capacity, refused) in [
        (0, Some(LaneError::Capacity)),
        (1, None),
        (65_536, None),
        (65_537, Some(LaneError::Capacity)),
        (usize::MAX, Some(LaneError::Capacity)),
    ] {
        expect_eq_at(&rt, capacity, refusal_of(rt.alloc(), capacity), refused);
    }
}

#[test]
fn the_buffer_of_a_long_lane_is_short(rt: HostRuntime) {
    // The ring takes 262,144 bytes, and a buffer as long would take as many.
    let heap = RefusingAllocator::with_bound(rt.alloc(), 300_000);
    expect_eq(&rt, refusal_of(&heap, 65_536), None);
}

#[test]
fn texts_of_errors(rt: HostRuntime) -> Result<(), Fail> {
    for (error, wanted) in [
        (LaneError::Capacity, "a lane holds 1 to 65,536 items"),
        (LaneError::NoMemory, "there was no memory for a lane"),
    ] {
        let text = format!(in rt.alloc(); "{error}")?;
        expect_eq(&rt, text.as_str(), wanted);
    }
    Ok(())
}

/// Makes a lane where this request for memory is refused, and gives whether one was. There is no
/// lane then, for that reason.
fn is_refused_at(rt: &impl Abort, alloc: Global, capacity: usize, turn: u64) -> bool {
    let heap = RefusingAllocator::at_turn(alloc, turn);
    let refusal = refusal_of(&heap, capacity);
    let wanted = if heap.has_refused() {
        Some(LaneError::NoMemory)
    } else {
        None
    };
    expect_eq_at(rt, (capacity, turn), refusal, wanted);
    heap.has_refused()
}

/// How many requests for memory the making of a lane has, of which each is refused in turn.
fn count_refusals(rt: &impl Abort, alloc: Global, capacity: usize) -> u64 {
    for turn in 1..=10 {
        if !is_refused_at(rt, alloc, capacity, turn) {
            return turn - 1;
        }
    }
    10
}

#[test]
fn each_allocation_refused_in_turn(rt: HostRuntime) {
    for capacity in [1, 64, 65_536] {
        let refusals = count_refusals(&rt, rt.alloc(), capacity);
        // the ring and the buffer, at least, and never all ten
        expect_at(&rt, capacity, (2..10).contains(&refusals));
    }
}

#[test]
fn refused_memory_is_not_asked_for_a_wrong_capacity(rt: HostRuntime) {
    let heap = RefusingAllocator::at_turn(rt.alloc(), 1);
    expect_eq(&rt, refusal_of(&heap, 0), Some(LaneError::Capacity));
    expect_eq(&rt, heap.requests_made(), 0);
}

/// How many requests were made of an allocator, and for how many bytes.
fn asked_of(heap: &RefusingAllocator<Global>) -> (u64, u64) {
    (heap.requests_made(), heap.bytes_asked())
}

/// Puts sevens into a lane with room for 200 of them, and takes all that it was given.
fn move_sevens<A: Allocator + Copy>(rt: &impl Abort, ends: &mut Ends<u32, A>) {
    let items = [7; 300];
    let steps = [
        Step::PutSome(&items, 200),
        Step::GiveBack(8),
        Step::Take(Some(7)),
        Step::Take(Some(7)),
    ];
    expect_steps(rt, ends, &steps);
    assert!(rt; put_some(rt, ends, &items) > 0);
    let ending = [
        Step::IsTakerGone(false),
        Step::IsPutterGone(false),
        Step::Finish(true),
    ];
    expect_steps(rt, ends, &ending);
    for _ in 0..settle(rt, ends) {
        assert_eq!(rt; take(rt, ends), Some(7));
    }
    assert_eq!(rt; take(rt, ends), None);
}

#[test]
fn only_the_making_takes_memory(rt: HostRuntime) -> Result<(), Fail> {
    let heap = RefusingAllocator::counting(rt.alloc());
    let mut ends = ends_of(&heap, 200)?;
    let asked = asked_of(&heap);
    move_sevens(&rt, &mut ends);
    expect_eq(&rt, asked_of(&heap), asked);
    Ok(())
}
