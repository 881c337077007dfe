//! Tests of an allocator with a bound: what it counts, what it refuses, and what a refusal leaves.

use super::{
    boxed, expect_held, expect_numbers, expect_refused, expect_requests, is_growth_refused,
    is_refused, push_each, with_room,
};
use crate::RefusingAllocator;

#[test]
fn held_bytes_are_counted(rt: HostRuntime) {
    let heap = RefusingAllocator::with_bound(rt.alloc(), 1000);
    assert_eq!(rt; heap.bound(), Some(1000));
    expect_held(&rt, &heap, 0);
    let block = boxed(&rt, &heap, [1u8; 100]);
    let numbers = with_room(&rt, &heap, 10);
    expect_held(&rt, &heap, 180);
    drop(block);
    expect_held(&rt, &heap, 80);
    drop(numbers);
    expect_held(&rt, &heap, 0);
}

#[test]
fn bound_is_reached_and_not_passed(rt: HostRuntime) {
    let heap = RefusingAllocator::with_bound(rt.alloc(), 100);
    let most = boxed(&rt, &heap, [1u8; 60]);
    expect_refused(&rt, &heap, false);
    assert!(rt; is_refused(&heap, [2u8; 41]));
    expect_held(&rt, &heap, 60);
    let rest = boxed(&rt, &heap, [3u8; 40]);
    expect_held(&rt, &heap, 100);
    assert!(rt; is_refused(&heap, 4u8));
    expect_refused(&rt, &heap, true);
    // The refused requests count among those that were made, and not among the bytes held.
    expect_requests(&rt, &heap, 4, 60 + 41 + 40 + 1);
    drop(most);
    expect_held(&rt, &heap, 40);
    let again = boxed(&rt, &heap, [5u8; 60]);
    expect_held(&rt, &heap, 100);
    assert_eq!(rt; (again[59], rest[39]), (5, 3));
}

#[test]
fn refused_growth_keeps_the_items(rt: HostRuntime) {
    let heap = RefusingAllocator::with_bound(rt.alloc(), 47);
    let mut numbers = with_room(&rt, &heap, 2);
    push_each(&rt, &mut numbers, &[10, 20]);
    // The old block counts until the new one, of 32 bytes, is there.
    assert!(rt; is_growth_refused(&mut numbers, 30));
    expect_held(&rt, &heap, 16);
    expect_numbers(&rt, &numbers, &[10, 20]);
}

#[test]
fn refusal_of_the_inner_allocator_takes_nothing(rt: HostRuntime) {
    let inner = RefusingAllocator::with_bound(rt.alloc(), 10);
    let heap = RefusingAllocator::with_bound(&inner, 100);
    assert!(rt; is_refused(&heap, [1u8; 50]));
    expect_held(&rt, &heap, 0);
    expect_refused(&rt, &heap, false);
    expect_held(&rt, &inner, 0);
    expect_refused(&rt, &inner, true);
    let block = boxed(&rt, &heap, [1u8; 10]);
    expect_held(&rt, &heap, 10);
    expect_held(&rt, &inner, 10);
    drop(block);
    expect_held(&rt, &inner, 0);
}

#[test]
fn least_and_greatest_bound(rt: HostRuntime) {
    let none = RefusingAllocator::with_bound(rt.alloc(), 0);
    assert!(rt; is_refused(&none, 1u8));
    let all = RefusingAllocator::with_bound(rt.alloc(), u64::MAX);
    let block = boxed(&rt, &all, [1u8; 64]);
    expect_held(&rt, &all, 64);
    drop(block);
    expect_held(&rt, &all, 0);
}
