//! A map beside a plain ordered map, to which the same drawn calls are made.

use super::{WIDTHS, insert, live, remove};
use crate::tests::{expect_at, expect_eq};
use line_map::{LineMap, Slot};
use std::alloc::{AllocError, Global};
use std::collections::BTreeMap;
use std::test::Fail;
use test_draws::Draws;

/// How many calls are drawn.
const CALLS: u64 = 20_000;

/// An address at most two lines from an end of a node of some level, mostly below 2^47.
fn drawn_address(draws: &mut Draws) -> u64 {
    let width = WIDTHS[draws.below(WIDTHS.len() as u64) as usize];
    let end = width.wrapping_mul(draws.below(4) + 1);
    let line = end.wrapping_add(draws.below(4) * 64).wrapping_sub(128);
    line.wrapping_add(draws.below(2) * draws.below(64))
}

/// The two maps.
#[derive(Drop)]
struct Both {
    lines: LineMap,
    plain: BTreeMap<u64, Slot>,
}

impl Both {
    fn new(alloc: Global) -> Both {
        Both {
            lines: LineMap::new(alloc),
            plain: BTreeMap::new(alloc),
        }
    }

    /// Makes the call in both that the slot at an address leads to: one that is live is freed, and
    /// one that was freed goes. Where there is none, one comes in, if its line has none.
    fn call(&mut self, at: u64, size: u64) -> Result<(), AllocError> {
        match self.lines.get(at) {
            Some(slot) => {
                if slot.live {
                    let freed = Slot { size, live: false };
                    self.lines.set(at, freed);
                    self.plain.insert(at, freed)?;
                } else {
                    self.lines.remove(at);
                    self.plain.remove(&at);
                }
            }
            None => {
                if insert(&mut self.lines, at, live(size))? {
                    self.plain.insert(at, live(size))?;
                }
            }
        }
        Ok(())
    }

    /// The last slot before an address, by the plain map.
    fn last_before(&self, end: u64) -> Option<(u64, Slot)> {
        let (at, slot) = self.plain.range(..end).next_back()?;
        Some((*at, *slot))
    }

    /// Whether both answer the same at an address.
    fn agree(&self, at: u64) -> bool {
        self.lines.get(at) == self.plain.get(&at).copied()
            && self.lines.last_before(at) == self.last_before(at)
    }
}

#[test]
fn map_agrees_with_a_plain_one(rt: HostRuntime) -> Result<(), Fail> {
    let mut draws = Draws::new();
    let mut both = Both::new(rt.alloc());
    let mut most = 0;
    for call in 0..CALLS {
        let at = drawn_address(&mut draws);
        let size = draws.below(1 << 32);
        both.call(at, size)?;
        most = both.plain.len().max(most);
        for near in [at, drawn_address(&mut draws), drawn_address(&mut draws)] {
            expect_at(&rt, (call, near), both.agree(near));
        }
    }
    // The draws filled most of the lines that they reach, and emptied them again.
    assert!(rt; most > 85);
    for _ in 0..most {
        match both.last_before(u64::MAX) {
            Some((at, _)) => {
                both.plain.remove(&at);
                remove(&mut both.lines, at);
                expect_at(&rt, at, both.agree(at) && both.agree(u64::MAX));
            }
            None => {}
        }
    }
    expect_eq(&rt, both.lines.last_before(u64::MAX), None);
    Ok(())
}
