//! The functions of `asan_shades`, for C: recorder/tests/shades.c compares the recorder with them.
#![tactic(auto)]

ghost use Rattle.std.specs.Prelude.{◌+◌, ◌≤◌, ◌<◌};
ghost use Rattle.asan_units.specs.Units.{address_end, granule_count, redzone, round_up};
ghost use Rattle.asan_units.specs.Units.{IsGranuleStart};

/// Of a width of at most 8.
#[unsafe(no_mangle)]
pub extern "C" fn asan_shades_is_bad(shadow: u8, at: u64, width: u8) -> bool
    requires width { width ≤ 8 }
{
    asan_shades::is_bad(shadow, at, width)
}

/// Of a granule below 2^44, as those below.
#[unsafe(no_mangle)]
pub extern "C" fn asan_shades_poisoned(code: u8, at: u64, end: u64, shadow: u8, granule: u64) -> u8
    requires granule { granule < granule_count }
{
    asan_shades::poisoned(code, at, end, shadow, granule)
}

#[unsafe(no_mangle)]
pub extern "C" fn asan_shades_unpoisoned(at: u64, end: u64, shadow: u8, granule: u64) -> u8
    requires granule { granule < granule_count }
{
    asan_shades::unpoisoned(at, end, shadow, granule)
}

/// Of a block that begins at a granule, with room for its redzones.
#[unsafe(no_mangle)]
pub extern "C" fn asan_shades_left_byte(
    at: u64,
    size: u64,
    is_held: bool,
    shadow: u8,
    granule: u64,
) -> u8
    requires start { IsGranuleStart at }
    requires room { redzone ≤ at }
    requires end { at + round_up size + redzone ≤ address_end }
    requires granule { granule < granule_count }
{
    asan_shades::left_byte(at, size, is_held, shadow, granule)
}
