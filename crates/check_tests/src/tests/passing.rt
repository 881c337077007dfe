//! Which events a checker passes at once.
use super::{
    Made, USUAL, expect_eq, free, load, malloc, new_checker, pass, poison, step, store, tally,
    unpoison,
};
use asan_check::{Checker, Failed};
use refusing_allocator::RefusingAllocator;
use std::alloc::Allocator;
use std::process::Abort;
use std::test::Fail;
use trace_record::Event;

/// A load and a store that are good once five bytes at 0x1000 are a block.
fn good_accesses() -> Result<[Event; 2], Fail> {
    Ok([load(1, 0x1000)?, store(4, 0x1000)?])
}

/// Asserts that a checker passes two good accesses before an event, and none from that on.
fn expect_two_passed(rt: &impl Abort, checker: &mut Checker, other: Made) -> Result<(), Fail> {
    let [load, store] = good_accesses()?;
    let events = [load, store, other?, load];
    expect_eq(rt, pass(rt, checker, &events), 2);
    expect_eq(rt, pass(rt, checker, &events[2..]), 0);
    Ok(())
}

#[test]
fn good_accesses_are_passed(rt: HostRuntime) -> Result<(), Fail> {
    let mut checker = new_checker(rt.alloc(), USUAL)?;
    step(&rt, &mut checker, &malloc(0x1000, 5)?)?;
    for other in [
        store(4, 0x1004),
        load(1, 0x1005),
        malloc(0x2000, 8),
        free(0x1000),
        free(0x3000),
        poison(0x1000, 8),
        unpoison(0x1000, 8),
        Ok(Event::Anew),
    ] {
        expect_two_passed(&rt, &mut checker, other)?;
    }
    expect_eq(&rt, pass(&rt, &mut checker, &good_accesses()?), 2);
    expect_eq(&rt, pass(&rt, &mut checker, &[]), 0);
    expect_eq(&rt, tally(&checker), (19, 0));
    Ok(())
}

/// Asserts that a checker passes a good load until it is refused memory for a block, and none from
/// then on.
fn expect_passed_once<A: Allocator + Copy>(
    rt: &impl Abort,
    checker: &mut Checker<A>,
) -> Result<(), Fail> {
    let good = [load(1, 0x1000)?];
    expect_eq(rt, pass(rt, checker, &good), 1);
    expect_eq(rt, step(rt, checker, &malloc(0x1000, 8)?), Err(Failed));
    expect_eq(rt, pass(rt, checker, &good), 0);
    let (checked, _) = tally(checker);
    expect_eq(rt, checked, 1);
    Ok(())
}

#[test]
fn nothing_is_passed_after_a_refusal(rt: HostRuntime) -> Result<(), Fail> {
    let heap = RefusingAllocator::at_turn(rt.alloc(), 1);
    expect_passed_once(&rt, &mut new_checker(&heap, USUAL)?)
}
