//! The calls of a shadow, and the end of the memory.
mod calls;
mod granules;
mod large;
mod leaves;
mod memory;
mod model;
mod refusals;

use super::expect_eq;
use calls::{Mark, bad_byte, cause, expect, first_poisoned, mark_each, unpoisoned, value};
use shadow_map::Shadow;
use std::alloc::Allocator;
use std::test::Fail;

/// Codes as a checker gives them.
const FREED: u8 = 0xfd;

const USER_POISON: u8 = 0xf7;

const STACK_REDZONE: u8 = 0xf2;

const GLOBAL_REDZONE: u8 = 0xf9;

/// The shadow bytes of `COUNT` granules from one on.
fn values<const COUNT: usize, A: Allocator + Copy>(shadow: &Shadow<A>, first: u64) -> [u8; COUNT] {
    let mut values = [0; COUNT];
    for (granule, value) in (first..u64::MAX).zip(&mut values) {
        *value = shadow.value(granule);
    }
    values
}

#[test]
fn shadow_calls(rt: HostRuntime) -> Result<(), Fail> {
    let mut shadow = Shadow::new(rt.alloc());
    mark_each(&rt, &mut shadow, &[Mark::Block(0x1000, 5)])?;
    expect_eq(
        &rt,
        values(&shadow, 0x1fb),
        [0, 0xfa, 0xfa, 0xfa, 0xfa, 0x05, 0xfa, 0xfa, 0xfa, 0xfa, 0],
    );
    let cases = [
        first_poisoned(0x1000, 8, Some(0x1005)),
        first_poisoned(0x1000, 5, None),
        first_poisoned(0xfd0, 64, Some(0xfe0)),
        bad_byte(0x1006, 1, Some(0x1006)),
        cause(0x1006, 0x05, 0xfa),
        cause(0x1008, 0xfa, 0xfa),
        unpoisoned(0x1004),
    ];
    expect(&rt, &shadow, &cases);
    let marks = [
        (Mark::Unpoison(0x1006, 1), 0x07),
        (Mark::Poison(0x1000, 8, USER_POISON), 0xf7),
        (Mark::Fill(0x1000, 0x1008, FREED), 0xfd),
    ];
    for (mark, after) in marks {
        mark_each(&rt, &mut shadow, &[mark])?;
        expect(&rt, &shadow, &[value(0x200, after)]);
    }
    Ok(())
}

#[test]
fn marks_in_the_last_granule(rt: HostRuntime) -> Result<(), Fail> {
    let mut shadow = Shadow::new(rt.alloc());
    let poison = Mark::Poison(0x7fff_ffff_fffc, 4, USER_POISON);
    mark_each(&rt, &mut shadow, &[poison])?;
    let cases = [
        value(0xfff_ffff_ffff, 0x04),
        value(1 << 44, 0),
        value(u64::MAX, 0),
        bad_byte(0x7fff_ffff_fffe, 1, Some(0x7fff_ffff_fffe)),
        first_poisoned(0x7fff_ffff_ff00, 0x100, Some(0x7fff_ffff_fffc)),
        first_poisoned(1 << 47, 0, None),
        unpoisoned(1 << 47),
        unpoisoned(u64::MAX),
    ];
    expect(&rt, &shadow, &cases);
    Ok(())
}

/// The bad bytes of accesses of 8 bytes at these addresses, found by one reader, in order.
fn bad_in_turn<const COUNT: usize>(shadow: &Shadow, places: &[u64; COUNT]) -> [Option<u64>; COUNT] {
    let mut reader = shadow.reader();
    let mut bad = [None; COUNT];
    for (at, bad) in places.iter().zip(&mut bad) {
        *bad = reader.bad_byte((*at).min((1 << 47) - 8), 8);
    }
    bad
}

#[test]
fn a_reader_finds_bad_bytes(rt: HostRuntime) -> Result<(), Fail> {
    // A reader remembers 512 MiB. The second block starts where the second of these do.
    let mut shadow = Shadow::new(rt.alloc());
    let marks = [
        Mark::Block(0x1000, 5),
        Mark::Block(1 << 29, 24),
        Mark::Poison(1 << 40, 16, USER_POISON),
    ];
    mark_each(&rt, &mut shadow, &marks)?;
    expect_eq(
        &rt,
        bad_in_turn(&shadow, &[0xfd8, 0xff8, 0x1000, 0x1008, 0x1028]),
        [None, Some(0xff8), Some(0x1005), Some(0x1008), None],
    );
    expect_eq(
        &rt,
        bad_in_turn(&shadow, &[(1 << 29) - 8, 1 << 29, (1 << 29) + 24, 0x1000]),
        [
            Some((1 << 29) - 8),
            None,
            Some((1 << 29) + 24),
            Some(0x1005),
        ],
    );
    expect_eq(
        &rt,
        bad_in_turn(&shadow, &[1 << 40, (1 << 40) + 16, (1 << 47) - 8, 1 << 29]),
        [Some(1 << 40), None, None, None],
    );
    Ok(())
}
