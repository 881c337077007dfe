//! Tests of each table by itself.
mod books;
mod maps;
mod pages;
mod shadows;

use std::fmt::Debug;
use std::process::Abort;

// What a macro writes is proved in each test that has it, so tests call these in place of std's
// asserts.

/// Asserts that a value is the one that is wanted.
fn expect_eq<T: Copy + PartialEq + Debug>(rt: &impl Abort, got: T, wanted: T) {
    assert_eq!(rt; got, wanted);
}

/// Asserts it at a place of a table, or in a turn of a loop, which a failure names.
fn expect_eq_at<P: Copy + Debug, T: Copy + PartialEq + Debug>(
    rt: &impl Abort,
    place: P,
    got: T,
    wanted: T,
) {
    assert_eq!(rt; got, wanted, "at {place:?}");
}

/// Asserts that something holds at a place of a table, or in a turn of a loop, which a failure
/// names.
fn expect_at<P: Copy + Debug>(rt: &impl Abort, place: P, holds: bool) {
    assert!(rt; holds, "at {place:?}");
}
