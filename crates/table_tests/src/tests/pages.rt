//! Runs beside a fill for each of them, and fills of any width.
ghost use Rattle.std.specs.Prelude.{◌≡◌, ◌+◌, ◌≤◌};
ghost use Rattle.asan_units.specs.Units.{granule_count};

use super::{expect_eq, expect_eq_at};
use asan_units::GRANULES;
use page_table::{PageTable, Run};
use std::alloc::{AllocError, Global};
use std::process::Abort;
use std::test::Fail;

/// A run of `length` granules that get `byte`.
fn run(length: u64, byte: u8) -> Run
    ensures length { result.length ≡ length }
{
    Run { length, byte }
}

/// Fills the granules from one up to another, which a table has. No clause says what is in it then,
/// so the proof of a test never has the clauses of a table in view.
fn fill(
    rt: &impl Abort,
    table: &mut PageTable,
    from: u64,
    to: u64,
    byte: u8,
) -> Result<(), AllocError> {
    assert!(rt; from <= to && to <= GRANULES);
    table.fill(from, to, byte)
}

/// The byte of each of these granules, which a table has.
fn bytes<const COUNT: usize>(
    rt: &impl Abort,
    table: &PageTable,
    granules: &[u64; COUNT],
) -> [u8; COUNT] {
    let mut bytes = [0; COUNT];
    for (granule, byte) in granules.iter().zip(&mut bytes) {
        assert!(rt; *granule < GRANULES);
        *byte = table.byte(*granule);
    }
    bytes
}

/// The first granule from two before one on at which two tables differ, of 22.
fn difference(one: &PageTable, other: &PageTable, from: u64) -> Option<u64>
    requires low { 2 ≤ from }
    requires high { from + 20 ≤ granule_count }
{
    for granule in from - 2..from + 20 {
        if one.byte(granule) != other.byte(granule) {
            return Some(granule);
        }
    }
    None
}

/// Fills runs from a granule on.
fn fill_runs(table: &mut PageTable, from: u64) -> Result<(), AllocError>
    requires { from + 18 ≤ granule_count }
{
    let redzone = run(4, 0xfa);
    table.fill_runs(from, &[redzone, run(0, 1), run(9, 0), run(1, 5), redzone])
}

/// Where each of those runs that has granules starts and ends, counted from that granule, and its
/// byte.
const FILLS: [(u64, u64, u8); 4] = [(0, 4, 0xfa), (4, 13, 0), (13, 14, 5), (14, 18, 0xfa)];

/// Fills the same runs from a granule on, from the next and from the one after it: in nothing, and
/// then in leaves that have bytes of their own. Gives the first granule where it is not as if each
/// run had been filled by itself.
fn first_difference(rt: &impl Abort, alloc: Global, first: u64) -> Result<Option<u64>, AllocError> {
    assert!(rt; first >= 2 && first <= GRANULES - 24);
    let mut one = PageTable::new(alloc);
    let mut other = PageTable::new(alloc);
    for from in first..first + 3 {
        fill_runs(&mut one, from)?;
        for (start, end, byte) in FILLS {
            fill(rt, &mut other, from + start, from + end, byte)?;
        }
        if let Some(granule) = difference(&one, &other, from) {
            return Ok(Some(granule));
        }
    }
    Ok(None)
}

#[test]
fn runs_are_fills(rt: HostRuntime) -> Result<(), Fail> {
    // Within a leaf, over the ends of a leaf and of branches of each level, and before
    // the end of the memory.
    let places = [
        0x20,
        (1 << 9) - 9,
        (1 << 12) - 9,
        (1 << 19) - 9,
        (1 << 26) - 9,
        (1 << 33) - 9,
        (1 << 40) - 9,
        (1 << 43) - 9,
        (1 << 44) - 24,
    ];
    for first in places {
        expect_eq_at(&rt, first, first_difference(&rt, rt.alloc(), first)?, None);
    }
    Ok(())
}

#[test]
fn runs_without_granules(rt: HostRuntime) -> Result<(), Fail> {
    let mut table = PageTable::new(rt.alloc());
    table.fill_runs(1 << 44, &[])?;
    table.fill_runs(1 << 44, &[run(0, 3), run(0, 5)])?;
    table.fill_runs(0, &[run(0, 3), run(1 << 44, 5)])?;
    expect_eq(&rt, bytes(&rt, &table, &[0, (1 << 44) - 1]), [5, 5]);
    Ok(())
}

/// The bytes of the granules on both sides of the two ends of a fill, from granule 1 up to another.
fn around_fill(rt: &impl Abort, alloc: Global, width: u64) -> Result<[u8; 4], AllocError> {
    assert!(rt; width >= 2);
    let mut table = PageTable::new(alloc);
    fill(rt, &mut table, 1, width, 7)?;
    Ok(bytes(rt, &table, &[0, 1, width - 1, width]))
}

#[test]
fn fills_of_any_width(rt: HostRuntime) -> Result<(), Fail> {
    let widths = [
        2,
        1 << 10,
        1 << 20,
        (1 << 25) + 8,
        1 << 30,
        1 << 40,
        (1 << 44) - 1,
    ];
    for width in widths {
        expect_eq_at(
            &rt,
            width,
            around_fill(&rt, rt.alloc(), width)?,
            [0, 7, 7, 0],
        );
    }
    let mut table = PageTable::new(rt.alloc());
    fill(&rt, &mut table, 0, 1 << 44, 7)?;
    expect_eq(&rt, bytes(&rt, &table, &[0, (1 << 44) - 1]), [7, 7]);
    Ok(())
}

/// The bytes of these granules, read by one reader, in order.
fn read_in_turn<const COUNT: usize>(table: &PageTable, granules: &[u64; COUNT]) -> [u8; COUNT] {
    let mut reader = table.reader();
    let mut bytes = [0; COUNT];
    for (granule, byte) in granules.iter().zip(&mut bytes) {
        *byte = reader.byte(*granule % (1 << 44));
    }
    bytes
}

#[test]
fn a_reader_goes_from_part_to_part(rt: HostRuntime) -> Result<(), Fail> {
    // A part has 2^26 granules. The first two keep bytes, the fourth is one byte, and of the
    // others all but one were never filled.
    let mut table = PageTable::new(rt.alloc());
    fill(&rt, &mut table, (1 << 26) - 2, (1 << 26) + 2, 7)?;
    fill(&rt, &mut table, 3 << 26, 4 << 26, 9)?;
    fill(&rt, &mut table, 1 << 43, (1 << 43) + 1, 5)?;
    let last_of_first = (1 << 26) - 1;
    expect_eq(
        &rt,
        read_in_turn(
            &table,
            &[last_of_first - 2, last_of_first - 1, last_of_first],
        ),
        [0, 7, 7],
    );
    expect_eq(
        &rt,
        read_in_turn(
            &table,
            &[last_of_first, 1 << 26, (1 << 26) + 1, (1 << 26) + 2, 0],
        ),
        [7, 7, 7, 0, 0],
    );
    expect_eq(
        &rt,
        read_in_turn(&table, &[2 << 26, 3 << 26, (4 << 26) - 1, 4 << 26, 1 << 26]),
        [0, 9, 9, 0, 7],
    );
    expect_eq(
        &rt,
        read_in_turn(
            &table,
            &[
                1 << 43,
                (1 << 43) + 1,
                (1 << 44) - 1,
                last_of_first,
                1 << 43,
            ],
        ),
        [5, 0, 0, 7, 5],
    );
    Ok(())
}
