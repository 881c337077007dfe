//! Calls of a shadow in tables. Those that mark memory, and those that ask for what is marked, each
//! with the right answer. No clause says what a call here does, so the proof of a test never has
//! the clauses of a shadow in view.
ghost use Rattle.std.specs.Prelude.{◌≡◌, ◌+◌, ◌≤◌, true};
ghost use Rattle.asan_units.specs.Units.{address_end};

use crate::tests::expect_eq_at;
use asan_units::{ADDRESS_END, GRANULE, REDZONE, is_width, round_up};
use shadow_map::{Cause, NoMemory, Shadow};
use std::alloc::Allocator;
use std::process::Abort;

/// A call that marks memory.
#[derive(Clone, Copy, Debug)]
pub enum Mark {
    /// A block of this many bytes at an address.
    Block(u64, u64),
    /// A code for the granules from one address up to another.
    Fill(u64, u64, u8),
    /// Poison of this many bytes from an address on, with a code.
    Poison(u64, u64, u8),
    /// An unpoison of this many bytes from an address on.
    Unpoison(u64, u64),
}

/// Whether this many bytes from an address on are in the memory.
fn is_in_memory(at: u64, size: u64) -> bool
    ensures { result ≡ true → at + size ≤ address_end }
{
    size <= ADDRESS_END && at <= ADDRESS_END - size
}

impl Mark {
    /// Makes the call, of memory that there is.
    pub fn make<A: Allocator + Copy>(
        self,
        rt: &impl Abort,
        shadow: &mut Shadow<A>,
    ) -> Result<(), NoMemory> {
        match self {
            Mark::Block(at, size) => {
                assert!(rt; at % GRANULE == 0 && at >= REDZONE);
                assert!(rt; is_in_memory(at, size));
                assert!(rt; is_in_memory(at, round_up(size) + REDZONE));
                shadow.block(at, size)
            }
            Mark::Fill(from, to, code) => {
                assert!(rt; from % GRANULE == 0 && to % GRANULE == 0);
                assert!(rt; from <= to && to <= ADDRESS_END && code >= 0x80);
                shadow.mark(from, to, code)
            }
            Mark::Poison(at, size, code) => {
                assert!(rt; is_in_memory(at, size) && code >= 0x80);
                shadow.poison(at, size, code)
            }
            Mark::Unpoison(at, size) => {
                assert!(rt; is_in_memory(at, size));
                shadow.unpoison(at, size)
            }
        }
    }
}

/// Makes calls that mark memory, in order.
pub fn mark_each<A: Allocator + Copy>(
    rt: &impl Abort,
    shadow: &mut Shadow<A>,
    marks: &[Mark],
) -> Result<(), NoMemory> {
    for mark in marks {
        mark.make(rt, shadow)?;
    }
    Ok(())
}

/// A question about a shadow.
#[derive(Clone, Copy, Debug)]
pub enum Question {
    Value(u64),
    BadByte(u64, u8),
    FirstPoisoned(u64, u64),
    Cause(u64),
    IsPoisoned(u64),
}

/// The answer to one.
#[derive(Clone, Copy, Debug, PartialEq, Eq)]
pub enum Answer {
    Value(u8),
    Byte(Option<u64>),
    Cause(Cause),
    IsPoisoned(bool),
}

/// A question, and the right answer.
pub type Case = (Question, Answer);

/// A granule has this shadow byte.
pub fn value(granule: u64, value: u8) -> Case {
    (Question::Value(granule), Answer::Value(value))
}

/// This is the bad byte of an access of this many bytes.
pub fn bad_byte(at: u64, width: u8, bad: Option<u64>) -> Case {
    (Question::BadByte(at, width), Answer::Byte(bad))
}

/// This is the first poisoned one of this many bytes.
pub fn first_poisoned(at: u64, size: u64, first: Option<u64>) -> Case {
    (Question::FirstPoisoned(at, size), Answer::Byte(first))
}

/// These shadow bytes say why an access is bad.
pub fn cause(at: u64, own: u8, deciding: u8) -> Case {
    let cause = Cause { own, deciding };
    (Question::Cause(at), Answer::Cause(cause))
}

/// A byte is not poisoned.
pub fn unpoisoned(at: u64) -> Case {
    (Question::IsPoisoned(at), Answer::IsPoisoned(false))
}

/// What a shadow answers, to a question about memory that there is.
fn ask(rt: &impl Abort, shadow: &Shadow, question: Question) -> Answer {
    match question {
        Question::Value(granule) => Answer::Value(shadow.value(granule)),
        Question::BadByte(at, width) => {
            assert!(rt; is_width(width) && is_in_memory(at, width as u64));
            Answer::Byte(shadow.bad_byte(at, width))
        }
        Question::FirstPoisoned(at, size) => {
            assert!(rt; is_in_memory(at, size));
            Answer::Byte(shadow.first_poisoned(at, size))
        }
        Question::Cause(at) => Answer::Cause(shadow.cause(at)),
        Question::IsPoisoned(at) => Answer::IsPoisoned(shadow.is_poisoned(at)),
    }
}

/// Asks a shadow each question, and compares what it answers.
pub fn expect(rt: &impl Abort, shadow: &Shadow, cases: &[Case]) {
    for (question, answer) in cases {
        expect_eq_at(rt, question, ask(rt, shadow, *question), *answer);
    }
}
