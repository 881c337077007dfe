//! What one record asks memory for, in the states and at the places where it asks for the most.

use super::calls::{Mark, mark_each};
use super::{FREED, USER_POISON};
use crate::tests::{expect_at, expect_eq_at};
use refusing_allocator::RefusingAllocator;
use shadow_map::{NoMemory, Shadow};
use std::alloc::{Allocator, Global};
use std::process::Abort;
use std::test::Fail;

/// How many bytes one record of version 1 can mark.
const LARGEST_1: u64 = 1 << 28;

/// How many bytes one record of version 2 can mark.
const LARGEST_2: u64 = 1 << 32;

/// An end of branches of each level, but for the one that has all memory. The dearest marks lie
/// over it.
const END: u64 = 1 << 43;

/// What was asked for: the memory of a number of branches over branches, of a number of branches
/// over leaves, and of a number of leaves.
type Asked = (u8, u8, u8);

/// How many bytes a branch over branches asks for: 32 for each of its 128 nodes.
const BRANCH: u64 = 128 * 32;

/// How many bytes a branch over leaves asks for: 16 for each of its 128 nodes.
const LOWEST_BRANCH: u64 = 128 * 16;

/// How many bytes a leaf asks for.
const LEAF: u64 = 4096;

/// How many bytes a branch asks for besides, in these tests: for each of its nodes the 8 bytes
/// of a handle on the test's allocator. The handle on the program's has none.
const HANDLES: u64 = 128 * 8;

/// The states and the records that `prepare` and `mark_of` know, and what the records ask for.
const RECORDS: [Asked; 19] = [
    // A load, a store.
    (0, 0, 0),
    // A malloc: one redzone lies over `END`, the other one over an end of branches of the lowest
    // level.
    (7, 4, 4),
    // A free of a block that was just marked.
    (0, 0, 0),
    // The most that a free asks for: the block was poisoned since, with all that is round it.
    (0, 2, 2),
    // A poison whose ends cut leaves in two.
    (7, 2, 2),
    // One of whole branches, over `END`.
    (7, 0, 0),
    // An unpoison whose ends cut leaves in two, where whole branches were poisoned.
    (0, 2, 2),
    // The same where nothing is marked.
    (0, 0, 0),
    // A poison of one leaf, which is kept as one byte.
    (4, 1, 0),
    // A poison of a part of it, once more.
    (0, 0, 0),
    // In version 2: a malloc, one of whose redzones lies over `END`, and the other one over an end
    // of branches of the second level.
    (9, 4, 4),
    // A free of such a block that was just marked.
    (0, 0, 0),
    // The most that a free asks for: what is round each end of the block was poisoned since.
    (2, 2, 2),
    // A poison whose ends cut leaves in two, over `END`.
    (7, 2, 2),
    // One whose ends are ends of branches of the lowest level.
    (7, 0, 0),
    // One of whole branches of the second level.
    (5, 0, 0),
    // An unpoison whose ends cut leaves in two, where whole branches were poisoned.
    (2, 2, 2),
    // One there whose ends are ends of branches of the lowest level.
    (2, 0, 0),
    // A malloc both of whose redzones lie over ends of branches of the second level, where those of
    // the levels above are kept.
    (4, 4, 4),
];

/// Marks what stands before a record.
fn prepare<A: Allocator + Copy>(
    rt: &impl Abort,
    shadow: &mut Shadow<A>,
    record: usize,
) -> Result<(), NoMemory> {
    let block_1 = Mark::Block(0x4000_0808, 0xfff_0000);
    let block_2 = Mark::Block(END - 0x7fff_f7f8, LARGEST_2);
    let below_1 = Mark::Poison(END - LARGEST_1, LARGEST_1, USER_POISON);
    let below_2 = Mark::Poison(END - LARGEST_2, LARGEST_2, USER_POISON);
    let above_1 = Mark::Poison(END, LARGEST_1, USER_POISON);
    let above_2 = Mark::Poison(END, LARGEST_2, USER_POISON);
    let over_block_1 = Mark::Poison(0x4000_0000, LARGEST_1, USER_POISON);
    match record {
        2 => mark_each(rt, shadow, &[block_1]),
        3 => mark_each(rt, shadow, &[block_1, over_block_1]),
        6 => mark_each(rt, shadow, &[below_1, above_1]),
        9 => mark_each(
            rt,
            shadow,
            &[Mark::Poison(0x4000_8000, 0x8000, USER_POISON)],
        ),
        11 => mark_each(rt, shadow, &[block_2]),
        12 => mark_each(rt, shadow, &[block_2, below_2, above_2]),
        16 | 17 => mark_each(rt, shadow, &[below_2, above_2]),
        18 => mark_each(
            rt,
            shadow,
            &[Mark::Poison(END + 0x8_0000_0000, 8, USER_POISON)],
        ),
        _ => Ok(()),
    }
}

/// What a record marks, if anything.
fn mark_of(record: usize) -> Option<Mark> {
    let mark = match record {
        1 => Mark::Block(END + 8, 0x7ff_fff0),
        2 | 3 => Mark::Fill(0x4000_0808, 0x4fff_0808, FREED),
        4 => Mark::Poison(END - 0x7ff_f7fd, LARGEST_1, USER_POISON),
        5 => Mark::Poison(END - 0x800_0000, LARGEST_1, USER_POISON),
        6 | 7 => Mark::Unpoison(END - 0x7ff_f7fd, LARGEST_1),
        8 => Mark::Poison(0x4000_8000, 0x8000, USER_POISON),
        9 => Mark::Poison(0x4000_8008, 8, USER_POISON),
        10 => Mark::Block(END + 8, LARGEST_2 - 16),
        11 | 12 => Mark::Fill(END - 0x7fff_f7f8, END + 0x8000_0808, FREED),
        13 => Mark::Poison(END - 0x7fff_f7fd, LARGEST_2, USER_POISON),
        14 => Mark::Poison(END - 0x7fc0_0000, LARGEST_2, USER_POISON),
        15 => Mark::Poison(END - 0x8000_0000, LARGEST_2, USER_POISON),
        16 => Mark::Unpoison(END - 0x7fff_f7fd, LARGEST_2),
        17 => Mark::Unpoison(END - 0x7fc0_0000, LARGEST_2),
        18 => Mark::Block(END + 0x2000_0008, 0x4000_0000 - 16),
        _ => return None,
    };
    Some(mark)
}

/// Makes the call of a record: a mark, or the look that a load or a store takes.
fn make_record<A: Allocator + Copy>(
    rt: &impl Abort,
    shadow: &mut Shadow<A>,
    record: usize,
) -> Result<(), NoMemory> {
    match mark_of(record) {
        Some(mark) => mark.make(rt, shadow),
        None => {
            let _ = (shadow.bad_byte(END, 8), shadow.value(0));
            Ok(())
        }
    }
}

/// How many requests for memory a record makes, and for how many bytes.
fn asked(rt: &impl Abort, alloc: Global, record: usize) -> Result<(u64, u64), NoMemory> {
    let heap = RefusingAllocator::counting(alloc);
    let mut shadow = Shadow::new(&heap);
    prepare(rt, &mut shadow, record)?;
    let (requests, bytes) = (heap.requests_made(), heap.bytes_asked());
    make_record(rt, &mut shadow, record)?;
    Ok((
        heap.requests_made().wrapping_sub(requests),
        heap.bytes_asked().wrapping_sub(bytes),
    ))
}

#[test]
fn memory_of_a_record(rt: HostRuntime) -> Result<(), Fail> {
    for (record, (branches, lowest, leaves)) in RECORDS.iter().enumerate() {
        let (branches, lowest, leaves) = (*branches as u64, *lowest as u64, *leaves as u64);
        let bytes = branches * BRANCH + lowest * LOWEST_BRANCH + leaves * LEAF;
        expect_eq_at(
            &rt,
            record,
            asked(&rt, rt.alloc(), record)?,
            (
                branches + lowest + leaves,
                bytes + (branches + lowest) * HANDLES,
            ),
        );
        expect_at(&rt, record, bytes <= 64 * 1024);
    }
    Ok(())
}

/// Whether a request of a poison of whole branches is refused, by its number.
fn poison_is_refused_at(rt: &impl Abort, alloc: Global, turn: u64) -> bool {
    let heap = RefusingAllocator::at_turn(alloc, turn);
    let mut shadow = Shadow::new(&heap);
    let poison = Mark::Poison(0x4000_0000, LARGEST_1, USER_POISON);
    poison.make(rt, &mut shadow).is_err()
}

#[test]
fn no_poison_makes_many_requests(rt: HostRuntime) {
    assert!(rt; poison_is_refused_at(&rt, rt.alloc(), 4));
    assert!(rt; !poison_is_refused_at(&rt, rt.alloc(), 100_000));
}

/// How many requests a poison of a part of a leaf makes after a larger region was filled whole.
fn asked_after(rt: &impl Abort, alloc: Global, size: u64) -> Result<u64, NoMemory> {
    let heap = RefusingAllocator::counting(alloc);
    let mut shadow = Shadow::new(&heap);
    let poison = Mark::Poison(0x4000_0008, 8, USER_POISON);
    let marks = [poison, Mark::Unpoison(0x4000_0000, size)];
    mark_each(rt, &mut shadow, &marks)?;
    let before = heap.requests_made();
    poison.make(rt, &mut shadow)?;
    Ok(heap.requests_made().wrapping_sub(before))
}

#[test]
fn memory_of_what_was_filled_whole_is_given_back(rt: HostRuntime) -> Result<(), Fail> {
    // A part of a leaf stays in its bytes; a leaf gives them back; a branch gives back its nodes
    // too, and so does one of the second level.
    for (size, requests) in [(0x1000, 0), (0x8000, 1), (0x40_0000, 2), (0x2000_0000, 3)] {
        expect_eq_at(&rt, size, asked_after(&rt, rt.alloc(), size)?, requests);
    }
    Ok(())
}
