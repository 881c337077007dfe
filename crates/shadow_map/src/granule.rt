//! One granule: its shadow byte, and what a call makes of it.
ghost use Rattle.std.specs.Prelude.{◌≡◌, ◌-◌, ◌*◌, ◌<◌, ◌≤◌, min};
ghost use Rattle.shadow_map.specs.Granules.{front_of, poisoned_byte, unpoisoned_byte, changed_byte};
ghost use Rattle.shadow_map.specs.Granules.{inside_byte};
ghost use Rattle.asan_units.specs.Units.{granule_size, granule_count, first_byte};

use asan_units::GRANULE;

/// How many bytes of a granule are addressable where all are.
const WHOLE: u8 = GRANULE as u8;

/// The least shadow byte that is a code. A granule with a code has no addressable byte.
pub const MIN_CODE: u8 = 0x80;

/// The shadow byte of a granule whose bytes are a redzone of a block on the heap.
pub const HEAP_REDZONE: u8 = 0xfa;

/// How many bytes of a granule are addressable, by its shadow byte. They are its first ones.
#[inline]
pub fn front(shadow: u8) -> u8
    ensures { result ≡ front_of shadow }
{
    match shadow {
        0 => WHOLE,
        1..WHOLE => shadow,
        _ => 0,
    }
}

/// How many bytes of a granule lie before an address.
pub fn part(address: u64, granule: u64) -> u8
    requires { granule < granule_count }
    ensures { result ≡ min granule_size (address - first_byte granule) }
{
    address.saturating_sub(GRANULE * granule).min(GRANULE) as u8
}

/// What a call makes of a region: poison of a code, or addressable bytes.
#[derive(Clone, Copy)]
pub enum Change {
    Poisoned(u8),
    Unpoisoned,
}

impl Change {
    /// The shadow byte of a granule that lies in the region.
    pub fn inside(self) -> u8
        ensures { result ≡ inside_byte self }
    {
        match self {
            Change::Poisoned(code) => code,
            Change::Unpoisoned => 0,
        }
    }

    /// The shadow byte of a granule whose bytes from one place up to another lie in the region, by
    /// the one before.
    pub fn byte(self, shadow: u8, from: u8, to: u8) -> u8
        requires { to ≤ granule_size }
        ensures { result ≡ changed_byte self shadow from to }
    {
        match self {
            Change::Poisoned(code) => poisoned(code, shadow, from, to),
            Change::Unpoisoned => unpoisoned(shadow, from, to),
        }
    }
}

/// The shadow byte after poison, of a code, of the bytes from one place up to another.
fn poisoned(code: u8, shadow: u8, from: u8, to: u8) -> u8
    requires { to ≤ granule_size }
    ensures { result ≡ poisoned_byte code shadow from to }
{
    let front = front(shadow);
    if from == 0 && to == WHOLE {
        code
    } else if front <= to && from < front && from < to {
        if from == 0 { code } else { from }
    } else {
        shadow
    }
}

/// The shadow byte after the bytes from one place up to another, and those before them, are
/// addressable.
fn unpoisoned(shadow: u8, from: u8, to: u8) -> u8
    requires { to ≤ granule_size }
    ensures { result ≡ unpoisoned_byte shadow from to }
{
    if from < to && front(shadow) < to {
        if to == WHOLE { 0 } else { to }
    } else {
        shadow
    }
}
