//! Poison and unpoison of a region.

ghost use Rattle.std.specs.Prelude.{◌≡◌, ◌<◌};
ghost use Rattle.asan_units.specs.Units.{granule_count};
ghost use Rattle.shadow_map.specs.Granules.{front_of, place_in, changed_in};
ghost use Rattle.shadow_map.specs.declared.granule.Change.TheVariants.{Poisoned, Unpoisoned};

use asan_units::GRANULE;

/// How many of a granule's first bytes are addressable.
fn front(shadow: u8) -> u8
    ensures { result ≡ front_of shadow }
{
    match shadow {
        0 => 8,
        1..8 => shadow,
        _ => 0,
    }
}

/// Where in a granule an address lies: 0 before it, and 8 past it.
fn place(granule: u64, address: u64) -> u8
    requires granule { granule < granule_count }
    ensures { result ≡ place_in granule address }
{
    let first = granule * GRANULE;
    if address <= first {
        0
    } else if address < first + GRANULE {
        (address - first) as u8
    } else {
        8
    }
}

/// The shadow byte of a granule after the bytes from one address up to another are poisoned, by the
/// poison's code.
pub fn poisoned(code: u8, at: u64, end: u64, shadow: u8, granule: u64) -> u8
    requires granule { granule < granule_count }
    ensures { result ≡ changed_in (Poisoned code) at end shadow granule }
{
    let from = place(granule, at);
    let to = place(granule, end);
    let front = front(shadow);
    if from == 0 && to == 8 {
        code
    } else if front <= to && from < front && from < to {
        if from == 0 { code } else { from }
    } else {
        shadow
    }
}

/// The shadow byte of a granule after the bytes from one address up to another are unpoisoned.
pub fn unpoisoned(at: u64, end: u64, shadow: u8, granule: u64) -> u8
    requires granule { granule < granule_count }
    ensures { result ≡ changed_in Unpoisoned at end shadow granule }
{
    let from = place(granule, at);
    let to = place(granule, end);
    if from < to && front(shadow) < to {
        if to == 8 { 0 } else { to }
    } else {
        shadow
    }
}
