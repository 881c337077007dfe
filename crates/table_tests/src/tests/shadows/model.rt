//! A plain model of the shadow: the fills that were made.
ghost use Rattle.std.specs.Prelude.{◌+◌, ◌^◌, ◌≤◌};

use super::{FREED, USER_POISON};
use shadow_map::{HEAP_REDZONE, NoMemory, Shadow};
use std::alloc::Global;

/// A shadow byte that the granules from one up to another were given.
#[derive(Clone, Copy, Drop)]
struct Fill {
    from: u64,
    to: u64,
    value: u8,
}

/// The shadow byte of each granule is that of the last fill that it lies in, and 0 where it lies in
/// none.
#[derive(Drop)]
struct Model {
    fills: Vec<Fill>,
}

impl Model {
    fn value(&self, granule: u64) -> u8 {
        for fill in self.fills.iter().rev() {
            if fill.from <= granule && granule < fill.to {
                return fill.value;
            }
        }
        0
    }
}

/// A shadow and its model.
#[derive(Drop)]
pub struct Both {
    shadow: Shadow,
    model: Model,
}

impl Both {
    pub fn new(alloc: Global) -> Both {
        Both {
            shadow: Shadow::new(alloc),
            model: Model {
                fills: Vec::new(alloc),
            },
        }
    }

    /// Fills whole granules of both by the next of four calls.
    pub fn fill(&mut self, from: u64, to: u64) -> Result<(), NoMemory>
        requires order { from ≤ to }
        requires end { to ≤ 2 ^ 44 }
    {
        let (at, end) = (from * 8, to * 8);
        let value = match self.model.fills.len() % 4 {
            0 => {
                self.shadow.mark(at, end, HEAP_REDZONE)?;
                HEAP_REDZONE
            }
            1 => {
                self.shadow.poison(at, end - at, USER_POISON)?;
                USER_POISON
            }
            2 => {
                self.shadow.unpoison(at, end - at)?;
                0
            }
            _ => {
                self.shadow.mark(at, end, FREED)?;
                FREED
            }
        };
        self.model.fills.push(Fill { from, to, value })?;
        Ok(())
    }

    /// Marks a block of both, of the granules from one up to another.
    pub fn block(&mut self, from: u64, to: u64) -> Result<(), NoMemory>
        requires order { from ≤ to }
        requires low { 4 ≤ from }
        requires end { to + 4 ≤ 2 ^ 44 }
    {
        self.shadow.block(from * 8, (to - from) * 8)?;
        self.model.fills.push(Fill {
            from: from - 4,
            to: to + 4,
            value: HEAP_REDZONE,
        })?;
        self.model.fills.push(Fill { from, to, value: 0 })?;
        Ok(())
    }

    /// The first of these granules of which the two have different shadow bytes.
    pub fn difference(&self, from: u64, to: u64) -> Option<u64> {
        for granule in from..to {
            if self.shadow.value(granule) != self.model.value(granule) {
                return Some(granule);
            }
        }
        None
    }
}
