//! The shadow beside the plain model, at the ends of leaves and branches.
use super::calls::{Mark, bad_byte, expect, first_poisoned, mark_each};
use super::model::Both;
use super::{FREED, USER_POISON, values};
use crate::tests::{expect_eq, expect_eq_at};
use shadow_map::{HEAP_REDZONE, NoMemory, Shadow};
use std::alloc::Global;
use std::test::Fail;

/// How many granules an eighth of a leaf has, a leaf, a branch of each level over the leaves, and
/// the whole memory.
const WIDTHS: [u64; 7] = [1 << 9, 1 << 12, 1 << 19, 1 << 26, 1 << 33, 1 << 40, 1 << 44];

/// Granules, counted from one that lies 1,024 before the end of a leaf or a branch: on, one before
/// and one after that end, and the same 512 granules before it and after it.
const ENDS: [u64; 9] = [511, 512, 513, 1023, 1024, 1025, 1535, 1536, 1537];

/// Fills from each of the ends up to each later one, counted from a granule, in turn. The first
/// granule of which the shadow byte is wrong after one of the fills.
fn first_wrong(alloc: Global, low: u64) -> Result<Option<u64>, NoMemory> {
    let mut both = Both::new(alloc);
    for to in ENDS {
        for from in ENDS {
            let (from, to) = (
                low.saturating_add(from),
                low.saturating_add(to).min(1 << 44),
            );
            if from < to {
                both.fill(from, to)?;
                let wrong = both.difference(low.saturating_add(510), low.saturating_add(1539));
                if wrong.is_some() {
                    return Ok(wrong);
                }
            }
        }
    }
    Ok(None)
}

#[test]
fn ends_of_leaves_and_branches(rt: HostRuntime) -> Result<(), Fail> {
    for width in WIDTHS {
        let wrong = first_wrong(rt.alloc(), width.max(1024) - 1024)?;
        expect_eq_at(&rt, width, wrong, None);
    }
    Ok(())
}

/// Fills from a granule and each of the next two up to another and each of the next two, in turn.
/// The first granule there of which the shadow byte is wrong after one of the fills.
fn first_wrong_of_whole(alloc: Global, low: u64, high: u64) -> Result<Option<u64>, NoMemory> {
    let mut both = Both::new(alloc);
    for more in 0..3 {
        for less in 0..3 {
            let (from, to) = (
                low.saturating_add(less),
                high.saturating_add(more).min(1 << 44),
            );
            if from < to {
                both.fill(from, to)?;
                let wrong = both.difference(low, high.saturating_add(3));
                if wrong.is_some() {
                    return Ok(wrong);
                }
            }
        }
    }
    Ok(None)
}

#[test]
fn whole_leaves_and_branches(rt: HostRuntime) -> Result<(), Fail> {
    for width in [1 << 12, 1 << 19u64] {
        let wrong = first_wrong_of_whole(rt.alloc(), width - 1, width * 2 - 1)?;
        expect_eq_at(&rt, width, wrong, None);
    }
    Ok(())
}

/// The widest poison that a record can ask for.
#[test]
fn widest_poison(rt: HostRuntime) -> Result<(), Fail> {
    let mut shadow = Shadow::new(rt.alloc());
    let poison = Mark::Poison(0x4000_0000, 1 << 32, USER_POISON);
    mark_each(&rt, &mut shadow, &[poison])?;
    expect_eq(&rt, values(&shadow, 0x27ff_ffff), [0xf7, 0]);
    let cases = [
        bad_byte(0x1_3fff_ffff, 1, Some(0x1_3fff_ffff)),
        bad_byte(0x1_4000_0000, 1, None),
        first_poisoned(0x3fff_ff00, 0x200, Some(0x4000_0000)),
    ];
    expect(&rt, &shadow, &cases);
    Ok(())
}

/// The largest block that a record can ask for: its first and last byte and the one past it, while
/// it is live, when it is freed and when it is released.
#[test]
fn largest_block(rt: HostRuntime) -> Result<(), Fail> {
    let (at, end) = (0x4000_0000, 0x1_4000_0000);
    let mut shadow = Shadow::new(rt.alloc());
    mark_each(&rt, &mut shadow, &[Mark::Block(at, 1 << 32)])?;
    let cases = [
        bad_byte(at, 8, None),
        bad_byte(end - 1, 1, None),
        bad_byte(end, 1, Some(end)),
        first_poisoned(at, 1 << 32, None),
        first_poisoned(at, (1 << 32) + 1, Some(end)),
    ];
    expect(&rt, &shadow, &cases);
    mark_each(&rt, &mut shadow, &[Mark::Fill(at, end, FREED)])?;
    expect_eq(&rt, values(&shadow, at / 8 - 1), [HEAP_REDZONE, FREED]);
    expect_eq(&rt, values(&shadow, end / 8 - 1), [FREED, HEAP_REDZONE]);
    let released = Mark::Fill(at - 32, end + 32, HEAP_REDZONE);
    mark_each(&rt, &mut shadow, &[released])?;
    expect_eq(&rt, values(&shadow, at / 8 - 5), [0, HEAP_REDZONE]);
    expect_eq(&rt, values(&shadow, end / 8 + 3), [HEAP_REDZONE, 0]);
    Ok(())
}

/// The search for the first poisoned byte goes over all memory at once.
#[test]
fn first_poisoned_of_all_memory(rt: HostRuntime) -> Result<(), Fail> {
    let mut shadow = Shadow::new(rt.alloc());
    expect(&rt, &shadow, &[first_poisoned(0, 1 << 47, None)]);
    let poison = Mark::Poison(0x7fff_ffff_fffc, 4, USER_POISON);
    mark_each(&rt, &mut shadow, &[poison])?;
    let cases = [
        first_poisoned(0, 1 << 47, Some(0x7fff_ffff_fffc)),
        first_poisoned(3, 0x7fff_ffff_fff9, None),
    ];
    expect(&rt, &shadow, &cases);
    let marks = [
        Mark::Unpoison(0x1000_0000, 1 << 28),
        Mark::Poison(0x4000_1007, 1, USER_POISON),
    ];
    mark_each(&rt, &mut shadow, &marks)?;
    let all_but_one = first_poisoned(1, (1 << 47) - 1, Some(0x4000_1007));
    expect(&rt, &shadow, &[all_but_one]);
    Ok(())
}
