//! Calls of a book on worked examples, and a book whose memory is refused.

use super::{expect_eq, expect_eq_at};
use asan_units::ADDRESS_END;
use heap_book::{Admit, Block, Book, Bound, Freed, NoMemory};
use refusing_allocator::RefusingAllocator;
use std::alloc::{Allocator, Global};
use std::process::Abort;
use std::test::Fail;

/// A call of a book.
#[derive(Clone, Copy, Debug)]
enum Call {
    Admit(u64, u64),
    Free(u64),
    Evict,
}

/// What a book answers to a call.
#[derive(Clone, Copy, Debug, PartialEq, Eq)]
enum Answer {
    Admit(Admit),
    Free(Freed),
    Evict(Option<Block>),
}

/// A call, and the right answer.
type Case = (Call, Answer);

/// A block is admitted.
fn admitted(block: Block) -> Case {
    let call = Call::Admit(block.at(), block.size());
    (call, Answer::Admit(Admit::Admitted(block)))
}

/// The free of a block is taken in.
fn held(block: Block) -> Case {
    (Call::Free(block.at()), Answer::Free(Freed::Held(block)))
}

/// A block is let go of.
fn released(block: Block) -> Case {
    (Call::Evict, Answer::Evict(Some(block)))
}

/// No block is let go of.
const NONE_RELEASED: Case = (Call::Evict, Answer::Evict(None));

/// Asks a book to admit a block, which ends at 2^47 at most. No clause says what it answers, here
/// and in `ask`, so the proof of a test never has the clauses of a book in view.
fn admit<A: Allocator + Copy>(
    rt: &impl Abort,
    book: &mut Book<A>,
    at: u64,
    size: u64,
) -> Result<Admit, NoMemory> {
    assert!(rt; size <= ADDRESS_END && at <= ADDRESS_END - size);
    book.admit(at, size)
}

/// Makes a call.
fn ask<A: Allocator + Copy>(
    rt: &impl Abort,
    book: &mut Book<A>,
    call: Call,
) -> Result<Answer, NoMemory> {
    match call {
        Call::Admit(at, size) => Ok(Answer::Admit(admit(rt, book, at, size)?)),
        Call::Free(at) => Ok(Answer::Free(book.free(at)?)),
        Call::Evict => Ok(Answer::Evict(book.evict())),
    }
}

/// Makes calls of a book in order, and compares what it answers.
fn expect(rt: &impl Abort, book: &mut Book, cases: &[Case]) -> Result<(), NoMemory> {
    for (call, answer) in cases {
        expect_eq_at(rt, call, ask(rt, book, *call)?, *answer);
    }
    Ok(())
}

/// The same of a book with this bound that holds nothing.
fn expect_of_new(rt: &impl Abort, alloc: Global, bound: u64, cases: &[Case]) -> Result<(), Fail> {
    let mut book = Book::new(alloc, bound)?;
    expect(rt, &mut book, cases)?;
    Ok(())
}

/// The block of that many bytes at an address, which an empty book admits.
fn block(rt: &impl Abort, alloc: Global, at: u64, size: u64) -> Result<Block, Fail> {
    let mut book = Book::new(alloc, 0)?;
    if let Admit::Admitted(block) = admit(rt, &mut book, at, size)? {
        if block.at() == at && block.size() == size {
            return Ok(block);
        }
    }
    Err("no such block")?
}

#[test]
fn refused_bound(rt: HostRuntime) {
    assert!(rt; Book::new(rt.alloc(), 1 << 40).is_ok());
    expect_eq(&rt, Book::new(rt.alloc(), (1 << 40) + 1).err(), Some(Bound));
}

/// The ends of a block's span, if an empty book admits it.
fn span_of(rt: &impl Abort, alloc: Global, at: u64, size: u64) -> Result<Option<(u64, u64)>, Fail> {
    let mut book = Book::new(alloc, 0)?;
    match admit(rt, &mut book, at, size)? {
        Admit::Admitted(block) => Ok(Some((block.from(), block.to()))),
        Admit::Ignored | Admit::Refused => Ok(None),
    }
}

#[test]
fn spans(rt: HostRuntime) -> Result<(), Fail> {
    let cases = [
        // A block of no bytes has its redzones; other sizes count as whole granules.
        (0x1000, 0, Some((0xfe0, 0x1020))),
        (0x1000, 5, Some((0xfe0, 0x1028))),
        (0x1000, 8, Some((0xfe0, 0x1028))),
        (0x1000, 13, Some((0xfe0, 0x1030))),
        // The first and the last place, and the next ones that have no room.
        (32, 8, Some((0, 72))),
        (24, 8, None),
        (0x7fff_ffff_ffd8, 8, Some((0x7fff_ffff_ffb8, 1 << 47))),
        (0x7fff_ffff_ffe0, 8, None),
        (1 << 47, 0, None),
        // A block starts at a granule.
        (0x1004, 8, None),
    ];
    for (at, size, span) in cases {
        expect_eq_at(&rt, (size, at), span_of(&rt, rt.alloc(), at, size)?, span);
    }
    Ok(())
}

/// A book that holds nothing admits a block of a size, at the first place where one can be, takes
/// in its free, and lets go of it.
fn expect_kept(rt: &impl Abort, alloc: Global, size: u64) -> Result<(), Fail> {
    let kept = block(rt, alloc, 32, size)?;
    let cases = [admitted(kept), held(kept), released(kept), NONE_RELEASED];
    expect_of_new(rt, alloc, 0, &cases)
}

#[test]
fn blocks_of_any_size(rt: HostRuntime) -> Result<(), Fail> {
    for size in [137, 1 << 20, 1 << 28, 1 << 32, (1 << 47) - 64] {
        expect_kept(&rt, rt.alloc(), size)?;
    }
    Ok(())
}

#[test]
fn book_calls(rt: HostRuntime) -> Result<(), Fail> {
    let first = block(&rt, rt.alloc(), 0x1000, 8)?;
    let second = block(&rt, rt.alloc(), 0x1048, 8)?;
    let cases = [
        admitted(first),
        (Call::Admit(0x1040, 8), Answer::Admit(Admit::Refused)),
        // The spans touch.
        admitted(second),
        held(first),
        NONE_RELEASED,
        held(second),
        released(first),
        NONE_RELEASED,
        (Call::Free(0x1000), Answer::Free(Freed::Stranger)),
        (Call::Free(0x1048), Answer::Free(Freed::Twice)),
        (Call::Free(0), Answer::Free(Freed::Ignored)),
        (Call::Admit(0, 16), Answer::Admit(Admit::Ignored)),
        admitted(first),
    ];
    expect_of_new(&rt, rt.alloc(), 72, &cases)
}

#[test]
fn one_free_releases_several(rt: HostRuntime) -> Result<(), Fail> {
    let one = block(&rt, rt.alloc(), 0x1000, 8)?;
    let two = block(&rt, rt.alloc(), 0x2000, 8)?;
    let three = block(&rt, rt.alloc(), 0x3000, 8)?;
    // The span of 200 bytes leaves room for none of the three of 72.
    let large = block(&rt, rt.alloc(), 0x4000, 136)?;
    let cases = [
        admitted(one),
        held(one),
        NONE_RELEASED,
        admitted(two),
        held(two),
        NONE_RELEASED,
        admitted(three),
        held(three),
        NONE_RELEASED,
        admitted(large),
        held(large),
        released(one),
        released(two),
        released(three),
        NONE_RELEASED,
    ];
    expect_of_new(&rt, rt.alloc(), 216, &cases)
}

#[test]
fn span_over_the_bound_is_not_held(rt: HostRuntime) -> Result<(), Fail> {
    let freed = block(&rt, rt.alloc(), 0x1000, 8)?;
    let beside = block(&rt, rt.alloc(), 0x1008, 8)?;
    let cases = [
        admitted(freed),
        held(freed),
        (Call::Admit(0x1008, 8), Answer::Admit(Admit::Refused)),
        released(freed),
        NONE_RELEASED,
        (Call::Free(0x1000), Answer::Free(Freed::Stranger)),
        admitted(beside),
    ];
    expect_of_new(&rt, rt.alloc(), 71, &cases)
}

/// The largest quarantine holds 256 blocks whose spans have 2^32 bytes, side by side.
#[test]
fn largest_quarantine_of_large_blocks(rt: HostRuntime) -> Result<(), Fail> {
    let mut book = Book::new(rt.alloc(), 1 << 40)?;
    let size = (1 << 32) - 64;
    for number in 0..256u64 {
        let large = block(&rt, rt.alloc(), (number << 32) + 32, size)?;
        expect(
            &rt,
            &mut book,
            &[admitted(large), held(large), NONE_RELEASED],
        )?;
    }
    let first = block(&rt, rt.alloc(), 32, size)?;
    let one_more = block(&rt, rt.alloc(), (1 << 40) + 32, 0)?;
    let cases = [
        admitted(one_more),
        held(one_more),
        released(first),
        NONE_RELEASED,
        (Call::Free(32), Answer::Free(Freed::Stranger)),
    ];
    expect(&rt, &mut book, &cases)?;
    Ok(())
}

/// What a book answers to a call, which is made again where it is refused memory, and whether it
/// was.
fn ask_again<A: Allocator + Copy>(
    rt: &impl Abort,
    book: &mut Book<A>,
    call: Call,
) -> Result<(Answer, bool), NoMemory> {
    match ask(rt, book, call) {
        Ok(given) => Ok((given, false)),
        Err(NoMemory) => Ok((ask(rt, book, call)?, true)),
    }
}

/// Makes calls of two books, of which one has ample memory. A call that the other is refused is
/// made again, and it and all later ones answer as if there had been memory. Gives whether one was
/// refused.
fn ask_both<A: Allocator + Copy>(
    rt: &impl Abort,
    book: &mut Book<A>,
    ample: &mut Book,
    turn: u64,
    calls: &[Call],
) -> Result<bool, NoMemory> {
    let mut refused = false;
    for call in calls {
        let wanted = ask(rt, ample, *call)?;
        let (given, is_refused) = ask_again(rt, book, *call)?;
        refused |= is_refused;
        expect_eq_at(rt, (turn, call), given, wanted);
    }
    Ok(refused)
}

/// Refuses the growth of a book that has this turn, if there is one. Gives whether it was refused.
fn refuse_one(rt: &impl Abort, alloc: Global, turn: u64, calls: &[Call]) -> Result<bool, Fail> {
    let heap = RefusingAllocator::at_turn(alloc, turn);
    let mut book = Book::new(&heap, 72)?;
    let mut ample = Book::new(alloc, 72)?;
    let refused = ask_both(rt, &mut book, &mut ample, turn, calls)?;
    expect_eq_at(rt, turn, refused, heap.has_refused());
    Ok(refused)
}

/// Refuses each growth of a book in turn, and gives the number of refusals.
fn refuse_each(rt: &impl Abort, alloc: Global, calls: &[Call]) -> Result<u64, Fail> {
    for turn in 1..100u64 {
        if !refuse_one(rt, alloc, turn, calls)? {
            return Ok(turn - 1);
        }
    }
    panic!(rt; "always refused")
}

#[test]
fn each_growth_of_a_book_refused_in_turn(rt: HostRuntime) -> Result<(), Fail> {
    let calls = [
        Call::Admit(0x1000, 8),
        Call::Admit(0x1040, 8),
        Call::Admit(0x1048, 8),
        Call::Free(0x1000),
        Call::Evict,
        Call::Free(0x1048),
        Call::Evict,
        Call::Evict,
        Call::Free(0x1000),
        Call::Free(0x1048),
        Call::Free(0),
        Call::Admit(0, 16),
        Call::Admit(0x1000, 8),
    ];
    assert!(rt; refuse_each(&rt, rt.alloc(), &calls)? > 1);
    let oldest_released = [
        Call::Admit(0x1000, 8),
        Call::Admit(0x2000, 8),
        Call::Free(0x1000),
        Call::Evict,
        Call::Free(0x2000),
        Call::Evict,
        Call::Evict,
    ];
    assert!(rt; refuse_each(&rt, rt.alloc(), &oldest_released)? > 1);
    let four_gigabytes = [
        Call::Admit(0x1_0000_0000, 1 << 32),
        Call::Admit(0x2_0000_0038, 1 << 32),
        Call::Admit(0x2_0000_0040, 1 << 32),
        Call::Free(0x1_0000_0000),
        Call::Free(0x2_0000_0040),
        Call::Evict,
        Call::Evict,
        Call::Evict,
    ];
    assert!(rt; refuse_each(&rt, rt.alloc(), &four_gigabytes)? > 1);
    // So many that the map and the queue grow again.
    let mut many = Vec::new(rt.alloc());
    for number in 1..20u64 {
        many.push(Call::Admit(number * 0x1000, 8))?;
    }
    for number in 1..20u64 {
        many.push(Call::Free(number * 0x1000))?;
    }
    for _ in 0..20 {
        many.push(Call::Evict)?;
    }
    assert!(rt; refuse_each(&rt, rt.alloc(), &many)? > 4);
    Ok(())
}
