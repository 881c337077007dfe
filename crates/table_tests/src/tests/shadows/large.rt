//! The shadow beside the plain model, where marks have the most bytes that a record can speak of.
ghost use Rattle.std.specs.Prelude.{◌+◌, ◌^◌, ◌≤◌};

use super::model::Both;
use crate::tests::expect_eq;
use shadow_map::NoMemory;
use std::alloc::Global;
use std::test::Fail;

/// How many granules the largest region has, and half of it.
const LARGEST: u64 = 1 << 29;

const HALF: u64 = LARGEST / 2;

/// The first granule whose shadow byte is wrong, of those near the ends and the middles of largest
/// regions that lie before a granule, over it and after it.
fn wrong_near(both: &Both, end: u64) -> Option<u64>
    requires low { 2 ^ 29 + 16 ≤ end }
    requires high { end + 2 ^ 29 + 16 ≤ 2 ^ 44 }
{
    for halves in 0..5u64 {
        let near = end - LARGEST + halves * HALF;
        let wrong = both.difference(near - 8, near + 8);
        if wrong.is_some() {
            return wrong;
        }
    }
    None
}

/// Marks the largest regions that end, have their middle and start at a granule, the one before it
/// and the one after it: as a block, and by a fill. The first granule whose shadow byte is wrong
/// after one of these.
fn first_wrong(alloc: Global, end: u64) -> Result<Option<u64>, NoMemory>
    requires low { 2 ^ 29 + 16 ≤ end }
    requires high { end + 2 ^ 29 + 16 ≤ 2 ^ 44 }
{
    let mut both = Both::new(alloc);
    for halves in 0..3u64 {
        for more in 0..3u64 {
            let from = end - LARGEST + halves * HALF + more - 1;
            both.block(from, from + LARGEST)?;
            let wrong = wrong_near(&both, end);
            if wrong.is_some() {
                return Ok(wrong);
            }
            both.fill(from, from + LARGEST)?;
            let wrong = wrong_near(&both, end);
            if wrong.is_some() {
                return Ok(wrong);
            }
        }
    }
    Ok(None)
}

#[test]
fn largest_regions_at_ends_of_leaves_and_branches(rt: HostRuntime) -> Result<(), Fail> {
    // An end of an eighth of a leaf, of a leaf, and of a branch of each level, of no level above.
    expect_eq(
        &rt,
        [
            first_wrong(rt.alloc(), (1 << 43) + (1 << 9))?,
            first_wrong(rt.alloc(), (1 << 43) + (1 << 12))?,
            first_wrong(rt.alloc(), (1 << 43) + (1 << 19))?,
            first_wrong(rt.alloc(), (1 << 43) + (1 << 26))?,
            first_wrong(rt.alloc(), (1 << 43) + (1 << 33))?,
            first_wrong(rt.alloc(), (1 << 43) + (1 << 40))?,
        ],
        [None; 6],
    );
    Ok(())
}
