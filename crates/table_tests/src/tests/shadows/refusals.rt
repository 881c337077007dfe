//! A growth that is refused.
use super::calls::Mark;
use super::{FREED, USER_POISON, values};
use crate::tests::{expect_at, expect_eq};
use refusing_allocator::RefusingAllocator;
use shadow_map::{HEAP_REDZONE, NoMemory, Shadow};
use std::alloc::{Allocator, Global};
use std::process::Abort;
use std::test::Fail;

/// An end of branches of each level, but for the one that has all memory: what lies on both sides
/// of it asks for memory twice.
const END: u64 = 1 << 43;

/// The first of the granules that are looked at.
const FIRST: u64 = END / 8 - 16;

/// Their shadow bytes.
type Values = [u8; 32];

/// A block of 2^32 bytes that lies over that end, and whose own ends cut leaves in two: its address
/// and its end.
const LARGE: (u64, u64) = (END - 0x7fff_f7f8, END + 0x8000_0808);

/// Calls that a test makes in turn.
#[derive(Clone, Copy)]
enum Calls {
    /// Calls that mark a granule, and a poison of many granules.
    Small,
    /// The marks of a large block. Whole branches are poisoned and unpoisoned in between, so that
    /// the next mark takes memory again.
    Large,
}

impl Calls {
    /// How many they are.
    fn count(self) -> usize {
        match self {
            Calls::Small => 5,
            Calls::Large => 7,
        }
    }

    /// The call at a place.
    fn mark(self, place: usize) -> Mark {
        let (at, end) = LARGE;
        match (self, place) {
            (Calls::Small, 0) => Mark::Block(END, 5),
            (Calls::Small, 1) => Mark::Unpoison(END + 6, 1),
            (Calls::Small, 2) => Mark::Poison(END, 8, USER_POISON),
            (Calls::Small, 3) => Mark::Fill(END, END + 8, FREED),
            (Calls::Small, _) => Mark::Poison(END - 0x7e, 0xfc, USER_POISON),
            (Calls::Large, 0) => Mark::Block(at, 1 << 32),
            (Calls::Large, 1) => Mark::Poison(END - (1 << 32), 1 << 32, USER_POISON),
            (Calls::Large, 2) => Mark::Poison(END, 1 << 32, USER_POISON),
            (Calls::Large, 3) => Mark::Fill(at, end, FREED),
            (Calls::Large, 4) => Mark::Unpoison(END - (1 << 32), 1 << 32),
            (Calls::Large, 5) => Mark::Unpoison(END, 1 << 32),
            (Calls::Large, _) => Mark::Fill(at - 32, end + 32, HEAP_REDZONE),
        }
    }

    /// The shadow bytes of the granules that are looked at, in their order: of a large block those
    /// near its start, near the end that it lies over, and near its own end.
    fn values<A: Allocator + Copy>(self, shadow: &Shadow<A>) -> Values {
        let Calls::Large = self else {
            return values(shadow, FIRST);
        };
        let mut values = [0; 32];
        for (place, value) in (0..32u64).zip(&mut values) {
            let first = match place {
                0..12 => LARGE.0 / 8 - 6,
                12..20 => END / 8 - 16,
                _ => LARGE.1 / 8 - 26,
            };
            *value = shadow.value(first.saturating_add(place));
        }
        values
    }
}

/// Whether the granules below some place are as after a call, and the others as before it.
fn is_done_in_part(now: &Values, before: &Values, after: &Values) -> bool {
    for place in 0..=now.len() {
        if now[..place] == after[..place] && now[place..] == before[place..] {
            return true;
        }
    }
    false
}

/// How calls came out that may be refused memory.
#[derive(Drop)]
struct Outcome {
    refused: bool,
    right: bool,
}

/// Makes a call in a shadow that may be refused memory, and in one that has ample. It is right
/// where it is done whole, or in part and then whole when it is made again.
fn call_both<A: Allocator + Copy>(
    rt: &impl Abort,
    shadow: &mut Shadow<A>,
    ample: &mut Shadow,
    calls: Calls,
    place: usize,
) -> Result<Outcome, NoMemory> {
    let mark = calls.mark(place);
    let before = calls.values(shadow);
    mark.make(rt, ample)?;
    let after = calls.values(ample);
    let refused = mark.make(rt, shadow).is_err();
    let in_part = is_done_in_part(&calls.values(shadow), &before, &after);
    if refused {
        mark.make(rt, shadow)?;
    }
    let whole = calls.values(shadow) == after;
    Ok(Outcome {
        refused,
        right: in_part && whole,
    })
}

/// Makes all calls in both shadows, one after another.
fn call_each<A: Allocator + Copy>(
    rt: &impl Abort,
    shadow: &mut Shadow<A>,
    ample: &mut Shadow,
    calls: Calls,
) -> Result<Outcome, NoMemory> {
    let (mut refused, mut right) = (false, true);
    for place in 0..calls.count() {
        let outcome = call_both(rt, shadow, ample, calls, place)?;
        refused |= outcome.refused;
        right &= outcome.right;
    }
    Ok(Outcome { refused, right })
}

/// Makes all calls where one request is refused.
fn calls_refused_at(
    rt: &impl Abort,
    alloc: Global,
    calls: Calls,
    turn: u64,
) -> Result<Outcome, NoMemory> {
    let heap = RefusingAllocator::at_turn(alloc, turn);
    let mut shadow = Shadow::new(&heap);
    let mut ample = Shadow::new(alloc);
    let Outcome { refused, right } = call_each(rt, &mut shadow, &mut ample, calls)?;
    Ok(Outcome {
        refused,
        right: right && refused == heap.has_refused(),
    })
}

/// How many growths the calls have, each of which was refused in turn.
fn growths(rt: &impl Abort, alloc: Global, calls: Calls) -> Result<u64, Fail> {
    for turn in 1..100u64 {
        let outcome = calls_refused_at(rt, alloc, calls, turn)?;
        expect_at(rt, turn, outcome.right);
        if !outcome.refused {
            return Ok(turn - 1);
        }
    }
    panic!(rt; "always refused")
}

#[test]
fn each_growth_of_a_shadow_refused_in_turn(rt: HostRuntime) -> Result<(), Fail> {
    // From turn 7 on, the left redzone is marked, and the block after it isn't.
    expect_eq(&rt, growths(&rt, rt.alloc(), Calls::Small)?, 11);
    // As many for the block, which has nothing around it, and six for its free and its release.
    expect_eq(&rt, growths(&rt, rt.alloc(), Calls::Large)?, 23);
    Ok(())
}
