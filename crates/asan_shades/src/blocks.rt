//! What a block leaves in the shadow.

ghost use Rattle.std.specs.Prelude.{◌≡◌, ◌+◌, ◌≤◌, ◌<◌};
ghost use Rattle.asan_units.specs.Units.{address_end, granule_count, redzone, round_up};
ghost use Rattle.asan_units.specs.Units.{IsGranuleStart};
ghost use Rattle.asan_shades.specs.Blocks.{left_byte};

use asan_units::{GRANULE, REDZONE, round_up};

/// The shadow byte of a granule once a block was laid, live or held.
pub fn left_byte(at: u64, size: u64, is_held: bool, shadow: u8, granule: u64) -> u8
    requires start { IsGranuleStart at }
    requires room { redzone ≤ at }
    requires end { at + round_up size + redzone ≤ address_end }
    requires granule { granule < granule_count }
    ensures { result ≡ left_byte at size is_held shadow granule }
{
    let address = granule * GRANULE;
    let end = at + round_up(size);
    if address < at - REDZONE || end + REDZONE <= address {
        return shadow;
    }
    if address < at || end <= address {
        return 0xfa;
    }
    if is_held {
        return 0xfd;
    }
    let left = at + size - address;
    if left < GRANULE { left as u8 } else { 0 }
}
