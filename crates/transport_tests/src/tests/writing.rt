//! Tests of writing that knows how far it got.

use super::expect_eq;
use super::feeds::{EverySecond, KINDS};
use std::alloc::Global;
use std::io::Write;
use std::process::Abort;
use std::test::Fail;
use test_writers::{ShortWriter, WhenFull};
use trace_feed::{PutFault, put_all};

const TEXT: &[u8; 11] = b"hello world";

/// Writes all of some bytes. No clause says how far it got.
fn put<W: Write>(writer: &mut W, bytes: &[u8]) -> Result<(), PutFault> {
    put_all(writer, bytes)
}

#[test]
fn no_write_follows_one_that_fails(rt: HostRuntime) {
    for kind in KINDS {
        let mut writer = EverySecond { kind, calls: 0 };
        expect_eq(&rt, put(&mut writer, TEXT), Err(PutFault { written: 1 }));
        expect_eq(&rt, writer.calls, 2);
    }
}

/// Asserts that a writer that takes a number of bytes, a few at a time, and then ends so, is given
/// the front of the text.
fn expect_front(rt: &impl Abort, alloc: Global, room: usize, step: usize, when_full: WhenFull) {
    let mut writer = ShortWriter {
        held: Vec::new(alloc),
        room,
        step,
        when_full,
        flushes: true,
    };
    let wanted = if room < TEXT.len() {
        Err(PutFault { written: room })
    } else {
        Ok(())
    };
    expect_eq(rt, put(&mut writer, TEXT), wanted);
    assert!(rt; TEXT.get(..room) == Some(writer.held.as_slice()));
}

#[test]
fn the_first_bytes_go_out(rt: HostRuntime) {
    for (step, when_full) in [
        (1, WhenFull::Fails),
        (1, WhenFull::TakesNone),
        (100, WhenFull::Fails),
        (100, WhenFull::TakesNone),
    ] {
        for room in 0..=TEXT.len() {
            expect_front(&rt, rt.alloc(), room, step, when_full);
        }
    }
}

#[test]
fn all_goes_out_to_a_vec(rt: HostRuntime) {
    let mut bytes = Vec::new(rt.alloc());
    for part in ["hello ", "", "world"] {
        expect_eq(&rt, put(&mut bytes, part.as_bytes()), Ok(()));
    }
    assert!(rt; bytes.as_slice() == TEXT.as_slice());
}
