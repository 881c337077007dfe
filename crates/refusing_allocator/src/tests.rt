//! Tests of an allocator that refuses.

mod bounds;
mod threads;
mod turns;

use crate::RefusingAllocator;
use std::alloc::Allocator;
use std::process::Abort;

/// Puts a value into a block of an allocator, which grants it. No clause says what is in the block,
/// so the proof of a test has none in view.
fn boxed<'h, T: Drop, B: Allocator>(
    rt: &impl Abort,
    heap: &'h RefusingAllocator<B>,
    value: T,
) -> Box<T, &'h RefusingAllocator<B>> {
    match Box::new(heap, value) {
        Ok(block) => block,
        Err(_) => panic!(rt; "refused"),
    }
}

/// Whether an allocator refuses a block for a value.
fn is_refused<T: Drop, B: Allocator>(heap: &RefusingAllocator<B>, value: T) -> bool {
    Box::new(heap, value).is_err()
}

/// A vector of numbers with room for this many, which an allocator grants.
fn with_room<'h, B: Allocator>(
    rt: &impl Abort,
    heap: &'h RefusingAllocator<B>,
    room: usize,
) -> Vec<u64, &'h RefusingAllocator<B>> {
    match Vec::with_capacity(heap, room) {
        Ok(numbers) => numbers,
        Err(_) => panic!(rt; "refused"),
    }
}

/// Pushes numbers, each of which finds room or is granted more.
fn push_each<B: Allocator>(
    rt: &impl Abort,
    numbers: &mut Vec<u64, &RefusingAllocator<B>>,
    added: &[u64],
) {
    for number in added {
        assert!(rt; numbers.push(*number).is_ok(), "{number}");
    }
}

/// Whether a vector is refused the room for one more number.
fn is_growth_refused<B: Allocator>(
    numbers: &mut Vec<u64, &RefusingAllocator<B>>,
    number: u64,
) -> bool {
    numbers.push(number).is_err()
}

/// Compares how many bytes an allocator holds.
fn expect_held<B: Allocator>(rt: &impl Abort, heap: &RefusingAllocator<B>, held: u64) {
    assert_eq!(rt; heap.held(), held);
}

/// Compares how many requests were made of an allocator, and for how many bytes.
fn expect_requests<B: Allocator>(
    rt: &impl Abort,
    heap: &RefusingAllocator<B>,
    requests: u64,
    bytes: u64,
) {
    assert_eq!(rt;
        (heap.requests_made(), heap.bytes_asked()),
        (requests, bytes)
    );
}

/// Compares whether an allocator refused a request.
fn expect_refused<B: Allocator>(rt: &impl Abort, heap: &RefusingAllocator<B>, refused: bool) {
    assert_eq!(rt; heap.has_refused(), refused);
}

/// Compares the numbers of a vector.
fn expect_numbers<B: Allocator>(
    rt: &impl Abort,
    numbers: &Vec<u64, &RefusingAllocator<B>>,
    wanted: &[u64],
) {
    assert_eq!(rt; numbers.as_slice(), wanted);
}
