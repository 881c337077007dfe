//! A growth that is refused.
use super::{WIDTHS, insert, live, remove};
use crate::tests::expect_at;
use line_map::{LineMap, Slot};
use refusing_allocator::RefusingAllocator;
use std::alloc::{AllocError, Allocator, Global};
use std::test::Fail;

/// What a map has before and after the ends of its nodes, of each level.
type Seen = [[Option<(u64, Slot)>; 3]; 8];

/// What a map answers at these places.
fn seen<A: Allocator + Copy>(map: &LineMap<A>) -> Seen {
    let mut seen = [[None; 3]; 8];
    for (width, seen) in WIDTHS.iter().zip(&mut seen) {
        *seen = [
            map.last_before(width.saturating_sub(64)),
            map.last_before(*width),
            map.last_before(width.saturating_add(64)),
        ];
    }
    seen
}

/// How calls came out that may be refused memory.
#[derive(Drop)]
struct Outcome {
    refused: bool,
    right: bool,
}

/// Puts a slot into a map that may be refused memory, and into one that has ample. It is right if a
/// refusal leaves the map as it was, and if the map is as the other one when the call was made
/// again.
fn insert_both<A: Allocator + Copy>(
    map: &mut LineMap<A>,
    ample: &mut LineMap,
    at: u64,
) -> Result<Outcome, AllocError> {
    let before = seen(map);
    insert(ample, at, live(at))?;
    let refused = insert(map, at, live(at)).is_err();
    let unchanged = !refused || seen(map) == before;
    if refused {
        insert(map, at, live(at))?;
    }
    Ok(Outcome {
        refused,
        right: unchanged && seen(map) == seen(ample),
    })
}

/// Puts slots on both sides of the ends of nodes of each level into both maps, from the first ones
/// on or from the last ones.
fn insert_each<A: Allocator + Copy>(
    map: &mut LineMap<A>,
    ample: &mut LineMap,
    is_upward: bool,
) -> Result<Outcome, AllocError> {
    let (mut refused, mut right) = (false, true);
    for place in 0..WIDTHS.len() {
        let width = WIDTHS[if is_upward {
            place
        } else {
            WIDTHS.len() - 1 - place
        }];
        for at in [width - 8, width] {
            let outcome = insert_both(map, ample, at)?;
            refused |= outcome.refused;
            right &= outcome.right;
        }
    }
    Ok(Outcome { refused, right })
}

/// Takes those slots out again. Whether the map has none then.
fn is_emptied<A: Allocator + Copy>(map: &mut LineMap<A>) -> bool {
    for width in WIDTHS {
        remove(map, width - 8);
        remove(map, width);
    }
    map.last_before(u64::MAX).is_none()
}

/// Puts slots into a map and takes them out again, where one request is refused.
fn calls_refused_at(alloc: Global, turn: u64, is_upward: bool) -> Result<Outcome, AllocError> {
    let heap = RefusingAllocator::at_turn(alloc, turn);
    let mut map = LineMap::new(&heap);
    let mut ample = LineMap::new(alloc);
    let Outcome { refused, right } = insert_each(&mut map, &mut ample, is_upward)?;
    let is_emptied = is_emptied(&mut map);
    Ok(Outcome {
        refused,
        right: right && is_emptied && refused == heap.has_refused(),
    })
}

#[test]
fn each_growth_of_a_map_refused_in_turn(rt: HostRuntime) -> Result<(), Fail> {
    for is_upward in [true, false] {
        let mut refusals = 0;
        for turn in 1..200u64 {
            let outcome = calls_refused_at(rt.alloc(), turn, is_upward)?;
            expect_at(&rt, turn, outcome.right);
            if outcome.refused {
                refusals = turn;
            }
        }
        expect_at(&rt, refusals, refusals > 40 && refusals < 199);
    }
    Ok(())
}
