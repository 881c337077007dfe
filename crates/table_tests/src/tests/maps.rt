//! Calls of a map, and what its tests have in common.
ghost use Rattle.std.specs.Prelude.{◌≡◌, ℕ, ◌/◌, ◌<◌, true, None};
ghost use Rattle.asan_units.specs.Units.{address_end};
ghost use Rattle.line_map.specs.Maps.{slot_at};

mod beside;
mod memory;
mod refusals;

use super::expect_eq_at;
use line_map::{LineMap, Slot};
use std::alloc::{AllocError, Allocator, Global};
use std::process::Abort;
use std::test::Fail;

/// How many bytes the nodes of a map have: a line, a leaf, and a branch of each level, of which the
/// last is the whole map.
const WIDTHS: [u64; 7] = [1 << 6, 1 << 12, 1 << 19, 1 << 26, 1 << 33, 1 << 40, 1 << 47];

/// The slot of a live block of that many bytes.
fn live(size: u64) -> Slot
    ensures { result ≡ record { size = size; live = true } }
{
    Slot { size, live: true }
}

/// Whether the line of an address has no slot.
fn is_alone<A: Allocator + Copy>(map: &LineMap<A>, at: u64) -> bool
    requires { at < address_end }
    ensures { result ≡ true → (other : ℕ) → other / 64 ≡ at / 64 → slot_at map.now other ≡ None }
{
    let line = at - at % 64;
    match map.last_before(line + 64) {
        Some((last, _)) => last < line,
        None => true,
    }
}

/// Puts a slot at an address, if its line has none. Whether it did.
fn insert<A: Allocator + Copy>(
    map: &mut LineMap<A>,
    at: u64,
    slot: Slot,
) -> Result<bool, AllocError> {
    if at < 1 << 47 && is_alone(map, at) {
        map.insert(at, slot)?;
        return Ok(true);
    }
    Ok(false)
}

/// Takes out the slot at an address, if it has one.
fn remove<A: Allocator + Copy>(map: &mut LineMap<A>, at: u64) {
    match map.get(at) {
        Some(_) => map.remove(at),
        None => {}
    }
}

/// A call of a map.
#[derive(Clone, Copy, Debug)]
enum Call {
    Insert(u64, Slot),
    Set(u64, Slot),
    Remove(u64),
    Fetch(u64),
    Get(u64),
    LastBefore(u64),
}

/// What a map answers to a call.
#[derive(Clone, Copy, Debug, PartialEq, Eq)]
enum Answer {
    /// Whether a call that changes the map could be made.
    Made(bool),
    Slot(Option<Slot>),
    Last(Option<(u64, Slot)>),
}

/// A call, and the right answer.
type Case = (Call, Answer);

/// A slot is put at an address.
fn inserted(at: u64, slot: Slot) -> Case {
    (Call::Insert(at, slot), Answer::Made(true))
}

/// The slot at an address changes.
fn set(at: u64, slot: Slot) -> Case {
    (Call::Set(at, slot), Answer::Made(true))
}

/// The slot at an address is taken out.
fn removed(at: u64) -> Case {
    (Call::Remove(at), Answer::Made(true))
}

/// What is at an address is brought near.
fn fetched(at: u64) -> Case {
    (Call::Fetch(at), Answer::Made(true))
}

/// An address has this slot, or none.
fn has(at: u64, slot: Option<Slot>) -> Case {
    (Call::Get(at), Answer::Slot(slot))
}

/// This is the last slot before an address.
fn last(end: u64, last: Option<(u64, Slot)>) -> Case {
    (Call::LastBefore(end), Answer::Last(last))
}

/// Makes a call. No clause says what it answers, so the proof of a test never has the clauses of a
/// map in view.
fn ask(map: &mut LineMap, call: Call) -> Result<Answer, AllocError> {
    match call {
        Call::Insert(at, slot) => Ok(Answer::Made(insert(map, at, slot)?)),
        Call::Set(at, slot) => {
            let is_there = map.get(at).is_some();
            if is_there {
                map.set(at, slot);
            }
            Ok(Answer::Made(is_there))
        }
        Call::Remove(at) => {
            let is_there = map.get(at).is_some();
            remove(map, at);
            Ok(Answer::Made(is_there))
        }
        Call::Fetch(at) => {
            map.fetch(&[at]);
            Ok(Answer::Made(true))
        }
        Call::Get(at) => Ok(Answer::Slot(map.get(at))),
        Call::LastBefore(end) => Ok(Answer::Last(map.last_before(end))),
    }
}

/// Makes calls of a map that has no slots, in order, and compares what it answers.
fn expect(rt: &impl Abort, alloc: Global, cases: &[Case]) -> Result<(), AllocError> {
    let mut map = LineMap::new(alloc);
    for (call, answer) in cases {
        expect_eq_at(rt, call, ask(&mut map, *call)?, *answer);
    }
    Ok(())
}

#[test]
fn map_calls(rt: HostRuntime) -> Result<(), Fail> {
    let freed = Slot {
        size: 1 << 32,
        live: false,
    };
    let cases = [
        last(u64::MAX, None),
        inserted(0x1038, live(8)),
        has(0x1038, Some(live(8))),
        // The same line, the next one, and addresses past the last line.
        has(0x1030, None),
        has(0x1078, None),
        has(1 << 47, None),
        has(u64::MAX, None),
        last(0x1038, None),
        last(0x1039, Some((0x1038, live(8)))),
        set(0x1038, freed),
        has(0x1038, Some(freed)),
        set(0x1038, live(u64::MAX)),
        has(0x1038, Some(live(u64::MAX))),
        set(0x1038, freed),
        last(u64::MAX, Some((0x1038, freed))),
        removed(0x1038),
        has(0x1038, None),
        last(u64::MAX, None),
    ];
    expect(&rt, rt.alloc(), &cases)?;
    Ok(())
}

#[test]
fn freed_slot_is_put(rt: HostRuntime) -> Result<(), Fail> {
    let freed = Slot {
        size: 8,
        live: false,
    };
    let cases = [inserted(0x1038, freed), has(0x1038, Some(freed))];
    expect(&rt, rt.alloc(), &cases)?;
    Ok(())
}

#[test]
fn fetching_changes_nothing(rt: HostRuntime) -> Result<(), Fail> {
    let cases = [
        fetched(0x1038),
        inserted(0x1038, live(8)),
        fetched(0x1038),
        fetched(0x1000),
        fetched(0x5000),
        fetched(1 << 47),
        fetched(u64::MAX),
        has(0x1038, Some(live(8))),
        last(u64::MAX, Some((0x1038, live(8)))),
    ];
    expect(&rt, rt.alloc(), &cases)?;
    Ok(())
}

#[test]
fn two_in_neighbouring_lines(rt: HostRuntime) -> Result<(), Fail> {
    for width in WIDTHS {
        let end = width.min((1 << 47) - 64);
        let cases = [
            inserted(end - 1, live(1)),
            inserted(end, live(2)),
            (Call::Insert(end + 63, live(3)), Answer::Made(false)),
            last(end - 1, None),
            last(end, Some((end - 1, live(1)))),
            last(end + 1, Some((end, live(2)))),
            removed(end - 1),
            last(end, None),
            last(u64::MAX, Some((end, live(2)))),
        ];
        expect(&rt, rt.alloc(), &cases)?;
    }
    Ok(())
}
