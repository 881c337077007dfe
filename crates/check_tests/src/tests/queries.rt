//! What a checker answers about bytes, which bounds it refuses, and a long run.
use super::{USUAL, expect_eq, expect_eq_at, load, malloc, new_checker, step, store, tally};
use asan_check::{Bound, Checker, Failed};
use std::process::Abort;
use std::test::Fail;
use trace_record::Event;

#[test]
fn refused_bound_of_a_checker(rt: HostRuntime) {
    for (bound, refusal) in [(1 << 40, None), ((1 << 40) + 1, Some(Bound))] {
        expect_eq(&rt, Checker::new(rt.alloc(), bound).err(), refusal);
    }
}

/// What a checker says of a byte.
fn is_poisoned(checker: &Checker, at: u64) -> Option<bool> {
    checker.is_poisoned(at)
}

/// Asserts what a checker says of these bytes.
fn expect_poisoned(rt: &impl Abort, checker: &Checker, bytes: &[(u64, bool)]) {
    for (at, poisoned) in bytes {
        expect_eq_at(rt, at, is_poisoned(checker, *at), Some(*poisoned));
    }
}

/// Asserts which byte of each of these regions a checker says to be the first poisoned one.
fn expect_first_poisoned(rt: &impl Abort, checker: &Checker, regions: &[(u64, u64, Option<u64>)]) {
    for (at, size, first) in regions {
        assert!(rt; *size <= 64 && *at <= (1 << 47) - *size);
        let found = checker.first_poisoned(*at, *size);
        expect_eq_at(rt, (size, at), found, Some(*first));
    }
}

#[test]
fn queries(rt: HostRuntime) -> Result<(), Fail> {
    let mut checker = new_checker(rt.alloc(), USUAL)?;
    expect_poisoned(&rt, &checker, &[(0x1005, false)]);
    expect_first_poisoned(&rt, &checker, &[(0xfd0, 64, None)]);
    step(&rt, &mut checker, &malloc(0x1000, 5)?)?;
    let bytes = [
        (0xfdf, false),
        (0xfe0, true),
        (0x1004, false),
        (0x1005, true),
        (0x1027, true),
        (0x1028, false),
        (1 << 47, false),
        (u64::MAX, false),
    ];
    expect_poisoned(&rt, &checker, &bytes);
    let regions = [
        (0x1000, 8, Some(0x1005)),
        (0x1000, 5, None),
        (0xfd0, 64, Some(0xfe0)),
        (1 << 47, 0, None),
    ];
    expect_first_poisoned(&rt, &checker, &regions);
    Ok(())
}

/// Steps a checker, and answers the number of its report.
fn number_of_report(
    rt: &impl Abort,
    checker: &mut Checker,
    event: &Event,
) -> Result<Option<u64>, Failed> {
    Ok(step(rt, checker, event)?.map(|report| report.number))
}

/// Steps a checker through loads and stores, of which each 32nd is bad, up to this number.
fn run_long(
    rt: &impl Abort,
    checker: &mut Checker,
    [good, bad]: &[Event; 2],
    last: u64,
) -> Result<(), Failed> {
    for number in 2..=last {
        let (event, wanted) = if number % 32 == 0 {
            (bad, Some(number))
        } else {
            (good, None)
        };
        expect_eq(rt, number_of_report(rt, checker, event)?, wanted);
    }
    Ok(())
}

/// A long run with a large block and many reports never runs out of memory.
#[test]
fn long_run(rt: HostRuntime) -> Result<(), Fail> {
    let mut checker = new_checker(rt.alloc(), USUAL)?;
    step(&rt, &mut checker, &malloc(0x1000, 1 << 28)?)?;
    let events = [load(8, 0x1000)?, store(1, 0xfff)?];
    run_long(&rt, &mut checker, &events, 80_000)?;
    expect_eq(&rt, tally(&checker), (80_000, 2_500));
    Ok(())
}
