//! What poison and unpoison make of a granule, beside rules that say it byte by byte.
ghost use Rattle.std.specs.Prelude.{◌≤◌};
ghost use Rattle.shadow_map.specs.States.{IsCode};

use super::{FREED, GLOBAL_REDZONE, STACK_REDZONE, USER_POISON, values};
use crate::tests::expect_eq_at;
use shadow_map::{HEAP_REDZONE, NoMemory, Shadow};
use std::alloc::Global;
use std::test::Fail;

/// The shadow bytes that a granule can have.
const SHADOWS: [u8; 13] = [0, 1, 2, 3, 4, 5, 6, 7, 0xfa, 0xfd, 0xf7, 0xf2, 0xf9];

/// How many codes poison can have.
const POISONS: u64 = 3;

/// The codes of poison, in turn.
fn poison_code(number: u64) -> u8
    ensures { IsCode result }
{
    match number % POISONS {
        0 => USER_POISON,
        1 => STACK_REDZONE,
        _ => GLOBAL_REDZONE,
    }
}

/// A shadow whose granule at 0x1000 has one of these shadow bytes, between two that are
/// addressable.
fn shadow_of_granule(alloc: Global, byte: u8) -> Result<Shadow, NoMemory> {
    let mut shadow = Shadow::new(alloc);
    match byte {
        0 => {}
        HEAP_REDZONE => shadow.mark(0x1000, 0x1008, HEAP_REDZONE)?,
        USER_POISON => shadow.mark(0x1000, 0x1008, USER_POISON)?,
        STACK_REDZONE => shadow.mark(0x1000, 0x1008, STACK_REDZONE)?,
        GLOBAL_REDZONE => shadow.mark(0x1000, 0x1008, GLOBAL_REDZONE)?,
        FREED => shadow.mark(0x1000, 0x1008, FREED)?,
        front => {
            shadow.mark(0x1000, 0x1008, FREED)?;
            shadow.unpoison(0x1000, front as u64)?;
        }
    }
    Ok(shadow)
}

/// How many first bytes of a granule with this shadow byte are addressable.
fn front(byte: u8) -> u8 {
    match byte {
        0 => 8,
        1..8 => byte,
        _ => 0,
    }
}

/// The shadow byte after poison, of a code, of the bytes from one place of a granule up to another.
fn poisoned(code: u8, byte: u8, from: u8, to: u8) -> u8 {
    match (from, to) {
        (0, 8) => code,
        _ if to < front(byte) => byte,
        _ if from >= front(byte) => byte,
        (0, _) => code,
        _ => from,
    }
}

/// The same after they are unpoisoned.
fn unpoisoned(byte: u8, to: u8) -> u8 {
    match to {
        _ if to <= front(byte) => byte,
        8 => 0,
        _ => to,
    }
}

/// Whether poison, of each code, of the bytes from one place of such a granule up to another gives
/// the right shadow bytes, and unpoison of them too, to the granule and to its neighbours.
fn is_right(alloc: Global, byte: u8, from: u8, to: u8) -> Result<bool, NoMemory>
    requires order { from ≤ to }
    requires end { to ≤ 8 }
{
    let (at, size) = (0x1000 + from as u64, (to - from) as u64);
    for number in 0..POISONS {
        let code = poison_code(number);
        let mut shadow = shadow_of_granule(alloc, byte)?;
        if values(&shadow, 0x1ff) != [0, byte, 0] {
            return Ok(false);
        }
        shadow.poison(at, size, code)?;
        if values(&shadow, 0x1ff) != [0, poisoned(code, byte, from, to), 0] {
            return Ok(false);
        }
    }
    let mut shadow = shadow_of_granule(alloc, byte)?;
    shadow.unpoison(at, size)?;
    Ok(values(&shadow, 0x1ff) == [0, unpoisoned(byte, to), 0])
}

/// The first places for which that is not so.
fn wrong_places(alloc: Global, byte: u8) -> Result<Option<(u8, u8)>, NoMemory> {
    for to in 1..=8u8 {
        for from in 0..to {
            if !is_right(alloc, byte, from, to)? {
                return Ok(Some((from, to)));
            }
        }
    }
    Ok(None)
}

#[test]
fn one_granule(rt: HostRuntime) -> Result<(), Fail> {
    for byte in SHADOWS {
        expect_eq_at(&rt, byte, wrong_places(rt.alloc(), byte)?, None);
    }
    Ok(())
}

/// How many bytes, from 0x2000 on, are kept beside their shadow: the code of each, or 0 where it is
/// addressable.
const BYTES: usize = 48;

/// Poisons bytes with a code by the rule, each by itself.
fn poison_bytes(bytes: &mut [u8; BYTES], from: usize, to: usize, code: u8) {
    let before = *bytes;
    for (place, byte) in bytes.iter_mut().enumerate() {
        let whole = from <= place / 8 * 8 && place / 8 * 8 + 8 <= to;
        let inside = from <= place && place < to;
        let none_past = before.iter().enumerate().all(|(other, state)| other / 8 != place / 8
            || other < to
            || *state != 0);
        if whole || inside && *byte == 0 && none_past {
            *byte = code;
        }
    }
}

/// Unpoisons bytes by the rule, each by itself.
fn unpoison_bytes(bytes: &mut [u8; BYTES], from: usize, to: usize) {
    for (place, byte) in bytes.iter_mut().enumerate() {
        if (place..place / 8 * 8 + 8).any(|later| from <= later && later < to) {
            *byte = 0;
        }
    }
}

/// The shadow byte of a granule's bytes.
fn shadow_byte(bytes: &[u8]) -> u8 {
    match bytes.iter().zip(0..8u8).find(|(byte, _)| **byte != 0) {
        Some((code, 0)) => *code,
        Some((_, front)) => front,
        None => 0,
    }
}

/// The shadow bytes of the bytes' granules.
fn shadow_bytes(bytes: &[u8; BYTES]) -> [u8; BYTES / 8] {
    let mut shadows = [0; BYTES / 8];
    for (part, shadow) in bytes.chunks(8).zip(&mut shadows) {
        *shadow = shadow_byte(part);
    }
    shadows
}

/// Poisons or unpoisons the bytes from one place up to another, in the shadow and each by itself.
fn change_both(
    shadow: &mut Shadow,
    bytes: &mut [u8; BYTES],
    from: usize,
    to: usize,
) -> Result<(), NoMemory>
    requires order { from ≤ to }
    requires end { to ≤ 48 }
{
    let (at, size) = (0x2000 + from as u64, (to - from) as u64);
    if (to + from * 5) % 3 == 0 {
        unpoison_bytes(bytes, from, to);
        shadow.unpoison(at, size)
    } else {
        let code = poison_code(to as u64);
        poison_bytes(bytes, from, to, code);
        shadow.poison(at, size, code)
    }
}

#[test]
fn ragged_regions(rt: HostRuntime) -> Result<(), Fail> {
    let mut shadow = Shadow::new(rt.alloc());
    let mut bytes = [0; BYTES];
    for to in 0..=BYTES {
        for from in 0..=to {
            change_both(&mut shadow, &mut bytes, from, to)?;
            expect_eq_at(
                &rt,
                (from, to),
                values(&shadow, 0x400),
                shadow_bytes(&bytes),
            );
        }
    }
    Ok(())
}
