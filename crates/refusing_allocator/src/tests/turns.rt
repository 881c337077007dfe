//! Tests of an allocator that refuses one request: which one it is, and what is counted.

use super::{
    boxed, expect_held, expect_numbers, expect_refused, expect_requests, is_growth_refused,
    is_refused, push_each, with_room,
};
use crate::RefusingAllocator;

#[test]
fn second_growth_is_refused(rt: HostRuntime) {
    let heap = RefusingAllocator::at_turn(rt.alloc(), 2);
    let mut numbers = with_room(&rt, &heap, 2);
    push_each(&rt, &mut numbers, &[10, 20]);
    expect_refused(&rt, &heap, false);
    assert!(rt; is_growth_refused(&mut numbers, 30));
    expect_refused(&rt, &heap, true);
    expect_numbers(&rt, &numbers, &[10, 20]);
    push_each(&rt, &mut numbers, &[30]);
    expect_numbers(&rt, &numbers, &[10, 20, 30]);
}

#[test]
fn none_is_refused_where_requests_are_counted(rt: HostRuntime) {
    let heap = RefusingAllocator::counting(rt.alloc());
    let mut numbers = Vec::new(&heap);
    for number in 0..100u64 {
        push_each(&rt, &mut numbers, &[number]);
    }
    expect_refused(&rt, &heap, false);
    assert_eq!(rt; heap.bound(), None);
}

#[test]
fn requests_and_bytes_are_counted(rt: HostRuntime) {
    let heap = RefusingAllocator::at_turn(rt.alloc(), 3);
    let mut numbers = with_room(&rt, &heap, 2);
    push_each(&rt, &mut numbers, &[10]);
    let block = boxed(&rt, &heap, [1u8; 100]);
    assert!(rt; is_refused(&heap, 7u32));
    expect_held(&rt, &heap, 16 + 100);
    drop(block);
    expect_held(&rt, &heap, 16);
    expect_requests(&rt, &heap, 3, 16 + 100 + 4);
}
