//! Tests of items that move through a lane on one thread.

use super::{
    Ends, Step, ends_of, expect_of_new, expect_steps, finish, put, put_some, settle, take,
    take_some,
};
use crate::tests::{expect_at, expect_eq, expect_eq_at};
use std::alloc::Global;
use std::ops::Range;
use std::process::Abort;
use std::test::Fail;

/// The numbers from 0 on.
fn numbers() -> [u32; 1_000] {
    let mut numbers = [0; 1_000];
    for (place, number) in numbers.iter_mut().zip(0..1_000) {
        *place = number;
    }
    numbers
}

/// Puts these numbers, in order.
fn put_numbers(rt: &impl Abort, ends: &mut Ends<u32>, numbers: Range<u32>) {
    for number in numbers {
        expect_eq(rt, put(rt, ends, number), Ok(()));
    }
}

/// Takes these numbers, in order.
fn take_numbers(rt: &impl Abort, ends: &mut Ends<u32>, numbers: Range<u32>) {
    for number in numbers {
        expect_eq(rt, take(rt, ends), Some(number));
    }
}

/// Takes these numbers together, into this room.
fn take_into(rt: &impl Abort, ends: &mut Ends<u32>, room: &mut [u32], numbers: Range<u32>) {
    expect_eq(rt, take_some(rt, ends, room), numbers.len());
    for (place, number) in numbers.enumerate() {
        expect_eq(rt, room.get(place), Some(&number));
    }
}

/// Takes these numbers together, at most 100 of them.
fn take_together(rt: &impl Abort, ends: &mut Ends<u32>, numbers: Range<u32>) {
    take_into(rt, ends, &mut [0; 100], numbers);
}

/// Fills a new lane with the first of some items, as many as it has room for, and takes one.
fn filled(
    rt: &impl Abort,
    alloc: Global,
    capacity: usize,
    items: &[u32],
) -> Result<Ends<u32>, Fail> {
    let half = capacity / 2;
    let (front, back) = items.split_at_checked(half).ok_or("too few items")?;
    let steps = [
        Step::PutSome(&[], 0),
        Step::PutSome(front, half),
        Step::PutSome(back, capacity - half),
        Step::PutSome(items, 0),
        Step::GiveBack(9),
        Step::Take(Some(0)),
    ];
    let mut ends = ends_of(alloc, capacity)?;
    expect_steps(rt, &mut ends, &steps);
    Ok(ends)
}

/// Puts more items into that lane, and takes all that are in it.
fn expect_more(rt: &impl Abort, ends: &mut Ends<u32>, capacity: usize, items: &[u32]) {
    let more = put_some(rt, ends, items.get(capacity..).unwrap_or(&[]));
    // The take made room for one item at least, and for no more than the ring holds.
    expect_at(rt, capacity, (1..=capacity).contains(&more));
    for item in items.iter().take(capacity.saturating_add(more)).skip(1) {
        expect_eq_at(rt, capacity, take(rt, ends), Some(*item));
    }
    expect_eq_at(rt, capacity, take(rt, ends), None);
}

#[test]
fn as_many_are_put_as_there_is_room_for(rt: HostRuntime) -> Result<(), Fail> {
    let items = numbers();
    for capacity in [1, 2, 64, 65, 200] {
        let mut ends = filled(&rt, rt.alloc(), capacity, &items)?;
        expect_more(&rt, &mut ends, capacity, &items);
    }
    Ok(())
}

/// Puts the first of some items, one by one and by a slice, in a way that the round says. Gives how
/// many.
fn put_in_round(rt: &impl Abort, ends: &mut Ends<u32>, items: &[u32], round: usize) -> usize {
    let Some((&item, _)) = items.split_first() else {
        return put_some(rt, ends, items);
    };
    let done = usize::from(put(rt, ends, item).is_ok());
    let rest = &items[done..];
    done.saturating_add(put_some(rt, ends, &rest[..rest.len().min(round % 70)]))
}

/// Takes some items, one by one and by a slice, in a way that the round says.
fn take_in_round(
    rt: &impl Abort,
    ends: &mut Ends<u32>,
    taken: &mut Vec<u32>,
    round: usize,
) -> Result<(), Fail> {
    for _ in 0..round % 40 {
        if let Some(item) = take(rt, ends) {
            taken.push(item)?;
        }
    }
    let mut some = [0; 50];
    let count = take_some(rt, ends, &mut some[..round % 50]);
    taken.extend_from_slice(some.get(..count).ok_or("more than there is room for")?)?;
    Ok(())
}

/// Puts the items and takes some of them, by turns in a fixed order, one by one and by slices, and
/// gives those taken.
fn by_turns(
    rt: &impl Abort,
    alloc: Global,
    ends: &mut Ends<u32>,
    items: &[u32],
) -> Result<Vec<u32>, Fail> {
    let mut taken = Vec::new(alloc);
    let mut rest = items;
    for round in 0..2_000usize {
        let count = put_in_round(rt, ends, rest, round);
        rest = rest.get(count..).ok_or("more than there are")?;
        take_in_round(rt, ends, &mut taken, round)?;
        if rest.is_empty() {
            break;
        }
    }
    Ok(taken)
}

/// Finishes a lane, takes what is left of it, and adds it to what was taken before.
fn take_rest(rt: &impl Abort, ends: &mut Ends<u32>, taken: &mut Vec<u32>) -> Result<(), Fail> {
    assert!(rt; finish(rt, ends));
    for _ in 0..settle(rt, ends) {
        taken.push(take(rt, ends).ok_or("an item is left")?)?;
    }
    expect_eq(rt, take(rt, ends), None);
    Ok(())
}

/// What was taken of these items, which went through a lane with room for this many.
fn taken_of(
    rt: &impl Abort,
    alloc: Global,
    capacity: usize,
    items: &[u32],
) -> Result<Vec<u32>, Fail> {
    let mut ends = ends_of(alloc, capacity)?;
    let mut taken = by_turns(rt, alloc, &mut ends, items)?;
    take_rest(rt, &mut ends, &mut taken)?;
    Ok(taken)
}

#[test]
fn what_was_taken_is_what_was_put(rt: HostRuntime) -> Result<(), Fail> {
    let items = numbers();
    for capacity in [1, 2, 64, 65_536] {
        let taken = taken_of(&rt, rt.alloc(), capacity, &items)?;
        expect_at(&rt, capacity, taken.as_slice() == items.as_slice());
    }
    Ok(())
}

#[test]
fn buffer_and_ring_are_left_in_order(rt: HostRuntime) -> Result<(), Fail> {
    // A capacity, the number up to which is put, then taken, then put, then taken, and how many
    // are left.
    for (capacity, first, taken, second, again, left) in [
        (1, 1, 0, 1, 0, 1),
        (1, 1, 1, 2, 1, 1),
        (8, 5, 1, 7, 1, 6),
        (8, 5, 2, 13, 3, 10),
        (65, 65, 1, 129, 4, 125),
        (200, 100, 70, 200, 70, 130),
        (200, 100, 10, 200, 70, 130),
    ] {
        let mut ends = ends_of(rt.alloc(), capacity)?;
        put_numbers(&rt, &mut ends, 0..first);
        take_numbers(&rt, &mut ends, 0..taken);
        put_numbers(&rt, &mut ends, first..second);
        take_numbers(&rt, &mut ends, taken..again);
        expect_steps(&rt, &mut ends, &[Step::Finish(true), Step::Settle(left)]);
        take_numbers(&rt, &mut ends, again..second);
        expect_steps(&rt, &mut ends, &[Step::Take(None), Step::Take(None)]);
    }
    Ok(())
}

/// Fills a lane with room for this many items, and takes some of them together.
fn expect_some(rt: &impl Abort, alloc: Global, capacity: u32) -> Result<(), Fail> {
    let mut ends = ends_of(alloc, capacity as usize)?;
    take_together(rt, &mut ends, 0..0);
    put_numbers(rt, &mut ends, 0..capacity);
    expect_eq_at(rt, capacity, take_some(rt, &mut ends, &mut []), 0);
    take_into(rt, &mut ends, &mut [0; 30], 0..capacity.min(30));
    take_together(rt, &mut ends, capacity.min(30)..capacity.min(130));
    Ok(())
}

#[test]
fn some_are_taken_in_order(rt: HostRuntime) -> Result<(), Fail> {
    for capacity in [1, 64, 200] {
        expect_some(&rt, rt.alloc(), capacity)?;
    }
    Ok(())
}

#[test]
fn what_waits_is_taken_first(rt: HostRuntime) -> Result<(), Fail> {
    let mut ends = ends_of(rt.alloc(), 200)?;
    put_numbers(&rt, &mut ends, 0..200);
    // The take leaves 64 in the buffer, which are taken alone.
    take_numbers(&rt, &mut ends, 0..1);
    take_together(&rt, &mut ends, 1..65);
    take_numbers(&rt, &mut ends, 65..66);
    expect_steps(&rt, &mut ends, &[Step::Finish(true), Step::Settle(134)]);
    take_together(&rt, &mut ends, 66..166);
    take_together(&rt, &mut ends, 166..200);
    take_together(&rt, &mut ends, 200..200);
    expect_eq(&rt, take(&rt, &mut ends), None);
    Ok(())
}

#[test]
fn items_may_have_no_size(rt: HostRuntime) -> Result<(), Fail> {
    let steps = [
        Step::PutSome(&[(); 5], 3),
        Step::Take(Some(())),
        Step::Finish(true),
        Step::Settle(2),
        Step::Take(Some(())),
        Step::Take(Some(())),
        Step::Take(None),
    ];
    expect_of_new(&rt, rt.alloc(), 3, &steps)?;
    Ok(())
}
