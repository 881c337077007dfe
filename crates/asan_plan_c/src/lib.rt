//! What `asan_plan` states, for C: recorder/tests/said.c compares the recorder with it.
#![tactic(auto)]

ghost use Rattle.std.specs.Prelude.{IfSome};
ghost use Rattle.heap_book.specs.Spans.{IsPlaced};
ghost use Rattle.asan_check.specs.History.{block_of};

use asan_plan::{Around, Said, Shading, Stated, say_access, say_free};
use asan_units::{ADDRESS_END, GRANULE, GRANULES, REDZONE, round_up};
use trace_record::{Kind, Region};

/// The most statements.
const MOST: usize = 3;

/// What is answered where nothing can be asked so.
const REFUSED: u32 = 4;

/// What was found.
#[repr(C)]
#[derive(Clone, Copy)]
pub struct Asked {
    pub granule: u64,
    /// The block, unless `block` is 0.
    pub at: u64,
    pub size: u64,
    /// The shadow bytes of the granule and of the next one.
    pub here: u8,
    pub next: u8,
    /// 0: there is none; 1: it is live; 2: it is held.
    pub block: u8,
}

/// A record, by its code: 3 a malloc, 4 a free, 5 a poison, 6 an unpoison.
#[repr(C)]
#[derive(Clone, Copy)]
pub struct Statement {
    pub address: u64,
    pub size: u64,
    pub code: u8,
    /// Of a poison.
    pub kind: u8,
}

fn code_of(shading: &Shading) -> Statement {
    match *shading {
        Shading::Nothing => Statement {
            address: 0,
            size: 0,
            code: 0,
            kind: 0,
        },
        Shading::Poison(shade) => Statement {
            address: shade.at(),
            size: shade.size(),
            code: 5,
            kind: match shade.kind() {
                Kind::User => 0,
                Kind::Stack => 1,
                Kind::Global => 2,
            },
        },
        Shading::Unpoison(region) => Statement {
            address: region.at(),
            size: region.size(),
            code: 6,
            kind: 0,
        },
    }
}

fn malloc_of(region: &Region) -> Statement {
    Statement {
        address: region.at(),
        size: region.size(),
        code: 3,
        kind: 0,
    }
}

/// Puts what is stated, in its order, and answers how much that is.
fn tell(said: &Said, statements: &mut [Statement]) -> u32 {
    if statements.len() < MOST {
        return REFUSED;
    }
    let mut count = 0_usize;
    match said.block {
        Stated::Nothing => {}
        Stated::Live(region) => {
            statements[0] = malloc_of(&region);
            count = 1;
        }
        Stated::Held(region, place) => {
            statements[0] = malloc_of(&region);
            statements[1] = Statement {
                address: place.at(),
                size: 0,
                code: 4,
                kind: 0,
            };
            count = 2;
        }
    }
    let last = code_of(&said.shading);
    if last.code != 0 {
        statements[count] = last;
        count += 1;
    }
    count as u32
}

/// The block, or `None` where it has no place.
fn block_of(asked: &Asked) -> Option<Around>
    ensures { IfSome result (λ b. IsPlaced (block_of b.region)) }
{
    let region = Region::new(asked.at, asked.size).ok()?;
    let to = region.at() + round_up(region.size()) + REDZONE;
    if !region.at().is_multiple_of(GRANULE) || region.at() < REDZONE || to > ADDRESS_END {
        return None;
    }
    Some(Around {
        region,
        is_held: asked.block == 2,
    })
}

/// What is stated before a bad access: how many statements, or 4 where the granule is too near an
/// end of memory, or the block has no place.
#[unsafe(no_mangle)]
pub extern "C" fn asan_plan_access(asked: &Asked, statements: &mut [Statement]) -> u32 {
    if asked.granule < 4 || asked.granule > GRANULES - 10 {
        return REFUSED;
    }
    let found = block_of(asked);
    if found.is_none() && asked.block != 0 {
        return REFUSED;
    }
    let block = if asked.block == 0 { None } else { found };
    tell(
        &say_access(asked.granule, asked.here, asked.next, block),
        statements,
    )
}

/// The same before a bad free.
#[unsafe(no_mangle)]
pub extern "C" fn asan_plan_free(asked: &Asked, statements: &mut [Statement]) -> u32 {
    if asked.block == 0 {
        return tell(&say_free(None), statements);
    }
    let found = block_of(asked);
    if found.is_none() {
        return REFUSED;
    }
    tell(&say_free(found), statements)
}
