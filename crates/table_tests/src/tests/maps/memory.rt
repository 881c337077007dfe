//! What a call asks memory for, and that it is given back.
ghost use Rattle.std.specs.Prelude.{◌^◌, ◌≤◌};

use super::{WIDTHS, insert, live, remove};
use crate::tests::{expect_at, expect_eq, expect_eq_at};
use line_map::LineMap;
use refusing_allocator::RefusingAllocator;
use std::alloc::{AllocError, Global};
use std::process::Abort;
use std::test::Fail;

/// How many levels of branches a map has.
const LEVELS: u64 = 5;

/// How many nodes a branch has room for at most.
const NODES: u64 = 128;

/// How many bytes an entry of a leaf takes.
const ENTRY: u64 = 12;

/// How many bytes a leaf asks for with its first entry: it makes room for four.
const ENTRIES: u64 = 4 * ENTRY;

/// How many bytes a node takes besides its own, in these tests: those of a handle on the test's
/// allocator. The handle on the program's has none.
const HANDLE: u64 = 8;

/// How many bytes a leaf takes in the branch over it.
const LEAF: u64 = 32 + HANDLE;

/// How many bytes a branch takes in the branch over it.
const BRANCH: u64 = 32 + HANDLE;

/// The last line.
const END: u64 = (1 << 47) - 64;

/// How many bytes a new leaf asks for, and that many levels of new branches over it.
fn chain(levels: u64) -> u64
    requires { levels ≤ 5 }
    ensures { result ≤ 2 ^ 16 }
{
    if levels == 0 {
        ENTRIES
    } else {
        ENTRIES + LEAF + (levels - 1) * BRANCH
    }
}

/// How many requests for memory it takes to put a slot at an address, and for how many bytes.
fn asked(
    heap: &RefusingAllocator<Global>,
    map: &mut LineMap<&RefusingAllocator<Global>>,
    at: u64,
) -> Result<(u64, u64), AllocError> {
    let (requests, bytes) = (heap.requests_made(), heap.bytes_asked());
    insert(map, at, live(8))?;
    Ok((
        heap.requests_made().wrapping_sub(requests),
        heap.bytes_asked().wrapping_sub(bytes),
    ))
}

/// What happens to a map.
#[derive(Clone, Copy, Debug)]
enum Step {
    /// A slot is put at an address.
    Inserted(u64),
    /// The same, which makes that many requests for memory, of that many bytes.
    Asks(u64, (u64, u64)),
    /// The same, which is refused memory.
    Refused(u64),
    /// The slot at an address is taken out.
    Removed(u64),
}

/// Takes steps in order with a map that has no slots, and compares what they ask for.
fn expect(
    rt: &impl Abort,
    heap: &RefusingAllocator<Global>,
    steps: &[Step],
) -> Result<(), AllocError> {
    let mut map = LineMap::new(heap);
    for step in steps {
        match *step {
            Step::Inserted(at) => {
                asked(heap, &mut map, at)?;
            }
            Step::Asks(at, wanted) => {
                expect_eq_at(rt, step, asked(heap, &mut map, at)?, wanted);
            }
            Step::Refused(at) => expect_at(rt, step, asked(heap, &mut map, at).is_err()),
            Step::Removed(at) => remove(&mut map, at),
        }
    }
    Ok(())
}

/// The same where no request is refused.
fn expect_granted(rt: &impl Abort, alloc: Global, steps: &[Step]) -> Result<(), AllocError> {
    let heap = RefusingAllocator::counting(alloc);
    expect(rt, &heap, steps)
}

#[test]
fn memory_of_a_lone_slot(rt: HostRuntime) -> Result<(), Fail> {
    for width in WIDTHS {
        for at in [width.saturating_sub(64), width.min(END)] {
            let steps = [Step::Asks(at, (LEVELS + 1, chain(LEVELS)))];
            expect_granted(&rt, rt.alloc(), &steps)?;
        }
    }
    expect_eq(&rt, chain(LEVELS), 208 + LEVELS * HANDLE);
    Ok(())
}

#[test]
fn memory_of_a_slot_past_an_end(rt: HostRuntime) -> Result<(), Fail> {
    for levels in 0..LEVELS {
        // The line before an end of nodes of a level has a slot. The line after it asks for a leaf
        // and a branch of each level below the node that has both, and that one makes room for a
        // second node.
        let end = WIDTHS[(levels + 1) as usize];
        let node = if levels == 0 { LEAF } else { BRANCH };
        let steps = [
            Step::Inserted(end.saturating_sub(64)),
            Step::Asks(end, (levels + 2, 2 * node + chain(levels))),
            Step::Asks(end.saturating_add(64), (0, 0)),
        ];
        expect_granted(&rt, rt.alloc(), &steps)?;
    }
    Ok(())
}

#[test]
fn memory_of_a_leaf(rt: HostRuntime) -> Result<(), Fail> {
    let mut steps = [Step::Inserted(0); 64];
    let mut room = 4;
    for line in 1..64u64 {
        // Where there is no room for an entry more, the leaf makes room for twice as many.
        let more = if line == room { 2 * room } else { 0 };
        room = room.max(more);
        let wanted = (u64::from(more > 0), more * ENTRY);
        steps[line as usize] = Step::Asks(line * 64, wanted);
    }
    expect_granted(&rt, rt.alloc(), &steps)?;
    Ok(())
}

#[test]
fn memory_of_a_slot_that_makes_a_branch_grow(rt: HostRuntime) -> Result<(), Fail> {
    // One slot is in the first node of the branch over all the others, and one in its last.
    for (first, second) in [(0, END), (END, 0)] {
        let wanted = (LEVELS + 1, NODES * BRANCH + chain(LEVELS - 1));
        let steps = [Step::Inserted(first), Step::Asks(second, wanted)];
        expect_granted(&rt, rt.alloc(), &steps)?;
    }
    expect_eq(
        &rt,
        NODES * BRANCH + chain(LEVELS - 1),
        4_272 + (NODES + LEVELS - 1) * HANDLE,
    );
    Ok(())
}

#[test]
fn memory_of_what_has_no_slots_is_given_back(rt: HostRuntime) -> Result<(), Fail> {
    // A leaf that had one slot is asked for again, and so is the way to the only one.
    let steps = [
        Step::Inserted(0x1000),
        Step::Inserted(0x2000),
        Step::Removed(0x2000),
        Step::Asks(0x2000, (1, ENTRIES)),
        Step::Removed(0x1000),
        Step::Removed(0x2000),
        Step::Asks(0x1000, (LEVELS + 1, chain(LEVELS))),
    ];
    expect_granted(&rt, rt.alloc(), &steps)?;
    Ok(())
}

#[test]
fn memory_of_a_refused_slot_is_given_back(rt: HostRuntime) -> Result<(), Fail> {
    for turn in 1..=LEVELS + 1 {
        let heap = RefusingAllocator::at_turn(rt.alloc(), turn);
        let steps = [
            Step::Refused(0x1000),
            Step::Asks(0x1000, (LEVELS + 1, chain(LEVELS))),
        ];
        expect(&rt, &heap, &steps)?;
    }
    Ok(())
}

#[test]
fn memory_is_given_back_in_any_order(rt: HostRuntime) -> Result<(), Fail> {
    // On both sides of the ends of nodes of each level, taken out from the first on or the last.
    for is_upward in [true, false] {
        let mut steps = Vec::new(rt.alloc());
        for width in WIDTHS {
            steps.push(Step::Inserted(width.saturating_sub(64)))?;
            steps.push(Step::Inserted(width.min(END)))?;
        }
        for place in 0..WIDTHS.len() {
            let width = WIDTHS[if is_upward {
                place
            } else {
                WIDTHS.len() - 1 - place
            }];
            steps.push(Step::Removed(width.saturating_sub(64)))?;
            steps.push(Step::Removed(width.min(END)))?;
        }
        steps.push(Step::Asks(0x1000, (LEVELS + 1, chain(LEVELS))))?;
        expect_granted(&rt, rt.alloc(), &steps)?;
    }
    Ok(())
}

#[test]
fn room_is_kept_round_one_slot(rt: HostRuntime) -> Result<(), Fail> {
    let mut steps = Vec::new(rt.alloc());
    steps.push(Step::Inserted(0))?;
    for levels in 1..=LEVELS {
        let last = WIDTHS[(levels + 1) as usize].saturating_sub(64);
        let node = if levels == 1 { LEAF } else { BRANCH };
        steps.push(Step::Asks(last, (levels + 1, NODES * node + chain(levels - 1))))?;
        steps.push(Step::Removed(last))?;
    }
    for levels in 1..=LEVELS {
        let last = WIDTHS[(levels + 1) as usize].saturating_sub(64);
        steps.push(Step::Asks(last, (levels, chain(levels - 1))))?;
        steps.push(Step::Removed(last))?;
    }
    expect_granted(&rt, rt.alloc(), &steps)?;
    Ok(())
}
