//! Tests of damaged streams: each has one outcome, in whatever pieces it comes and on however many
//! threads, and ends as a slow reading of the whole stream says.

use super::collect::{expect_same, outcomes_of};
use super::reading::end_of;
use super::versions::FORGOTTEN;
use super::{Senders, expect_eq, expect_eq_at, outcome_of_feed};
use asan_check::Ending;
use asan_collect::{OpenGate, Options, Outcome};
use std::alloc::{AllocError, Global};
use std::process::Abort;
use std::sync::Wait;
use std::test::Fail;
use std::thread::Threads;
use std::time::Clock;
use test_draws::Draws;
use test_streams::{POISON, STREAM, feed_of};
use trace_feed::MemFeed;

/// Each place of the longest stream.
fn each_place() -> [u64; POISON.len()] {
    let mut places = [0; POISON.len()];
    for (index, place) in places.iter_mut().enumerate() {
        *place = index as u64;
    }
    places
}

/// Asserts that `check_feed` makes of this stream, cut at these places, what was made of it before.
fn expect_alone<R: Abort>(
    rt: &R,
    alloc: Global,
    stream: &[u8],
    cuts: &[u64],
    options: Options,
    outcome: &Outcome<MemFeed>,
) -> Result<(), AllocError> {
    let alone = outcome_of_feed(alloc, feed_of(alloc, stream, cuts, None)?, options);
    expect_same(rt, outcome, &alone);
    Ok(())
}

/// Asserts that a stream has this outcome by `check_feed` too, whole, byte by byte and cut at these
/// places, and that its end is that of the slow reading.
fn expect_outcome<R: Abort>(
    rt: &R,
    alloc: Global,
    stream: &[u8],
    cuts: &[u64],
    options: Options,
    outcome: &Outcome<MemFeed>,
) -> Result<(), AllocError> {
    let wanted = Ending::Ran {
        end: end_of(rt, stream, u64::from(options.limit)),
        reports: outcome.reports().len() as u64,
    };
    expect_eq_at(rt, stream, outcome.ending(), wanted);
    for cuts in [&[], &each_place()[..], cuts] {
        expect_alone(rt, alloc, stream, cuts, options, outcome)?;
    }
    Ok(())
}

/// Asserts that each of these streams has its outcome by `check_feed` too.
fn expect_outcomes<R: Abort>(
    rt: &R,
    alloc: Global,
    streams: &[Vec<u8>],
    cuts: &[u64],
    options: Options,
    outcomes: &[Outcome<MemFeed>],
) -> Result<(), AllocError> {
    expect_eq(rt, outcomes.len(), streams.len());
    for (stream, outcome) in streams.iter().zip(outcomes) {
        expect_outcome(rt, alloc, stream, cuts, options, outcome)?;
    }
    Ok(())
}

/// Asserts that each of these streams has one outcome: by `collect`, where all of them are sent at
/// once and each ring holds one event, and by `check_feed`. Some are cut at drawn places.
fn expect_one_outcome<R: Threads + Wait + Clock + Sync + Abort>(
    rt: &R,
    alloc: Global,
    streams: &[Vec<u8>],
    draws: &mut Draws,
) -> Result<(), Fail> {
    for limit in [1, 1 << 24] {
        let options = Options::new(1 << 28, 1, 2, limit)?;
        let cuts = [draws.below(36), draws.below(36), draws.below(36)];
        let mut door = Senders::new(alloc, streams, &cuts);
        let outcomes = outcomes_of(rt, alloc, &mut door, &OpenGate, options)?;
        expect_outcomes(rt, alloc, streams, &cuts, options, &outcomes)?;
    }
    Ok(())
}

/// Asserts that each prefix of the stream has one outcome.
fn expect_of_each_prefix<R: Threads + Wait + Clock + Sync + Abort>(
    rt: &R,
    alloc: Global,
    stream: &[u8],
) -> Result<(), Fail> {
    let mut prefixes = Vec::new(alloc);
    for length in 0..=stream.len() {
        prefixes.push(stream[..length].to_vec(alloc)?)?;
    }
    expect_one_outcome(rt, alloc, &prefixes, &mut Draws::new())
}

#[test]
fn each_prefix_has_one_outcome(rt: HostRuntime) -> Result<(), Fail> {
    expect_of_each_prefix(&rt, rt.alloc(), &STREAM)
}

#[test]
fn each_prefix_of_version_2_has_one_outcome(rt: HostRuntime) -> Result<(), Fail> {
    expect_of_each_prefix(&rt, rt.alloc(), &POISON)
}

#[test]
fn each_prefix_of_version_3_has_one_outcome(rt: HostRuntime) -> Result<(), Fail> {
    expect_of_each_prefix(&rt, rt.alloc(), &FORGOTTEN)
}

/// A stream with the byte at one place set to each of its 255 other values.
fn damaged(alloc: Global, sound: &[u8], place: usize) -> Result<Vec<Vec<u8>>, AllocError> {
    let mut streams = Vec::new(alloc);
    for value in 0..=u8::MAX {
        if sound.get(place) != Some(&value) {
            let mut stream = sound.to_vec(alloc)?;
            if let Some(byte) = stream.get_mut(place) {
                *byte = value;
            }
            streams.push(stream)?;
        }
    }
    Ok(streams)
}

/// Asserts that each stream with one byte of this one damaged has one outcome, for the bytes from
/// one place to another.
fn expect_of_each_damaged<R: Threads + Wait + Clock + Sync + Abort>(
    rt: &R,
    alloc: Global,
    sound: &[u8],
    from: usize,
    to: usize,
) -> Result<(), Fail> {
    let mut draws = Draws::new();
    for place in from..to {
        let streams = damaged(alloc, sound, place)?;
        expect_eq(rt, streams.len(), 255);
        expect_one_outcome(rt, alloc, &streams, &mut draws)?;
    }
    Ok(())
}

// A test may take a minute, so each stream has two, and that of version 3, which begins like the
// first, has the second.

/// Where the first event ends.
const HALF: usize = 25;

#[test]
fn damage_up_to_the_first_event(rt: HostRuntime) -> Result<(), Fail> {
    expect_of_each_damaged(&rt, rt.alloc(), &STREAM, 0, HALF)
}

#[test]
fn damage_after_the_first_event(rt: HostRuntime) -> Result<(), Fail> {
    expect_of_each_damaged(&rt, rt.alloc(), &STREAM, HALF, STREAM.len())
}

#[test]
fn damage_of_version_2_up_to_the_first_event(rt: HostRuntime) -> Result<(), Fail> {
    expect_of_each_damaged(&rt, rt.alloc(), &POISON, 0, HALF)
}

#[test]
fn damage_of_version_2_after_the_first_event(rt: HostRuntime) -> Result<(), Fail> {
    expect_of_each_damaged(&rt, rt.alloc(), &POISON, HALF, POISON.len())
}

#[test]
fn damage_of_version_3_after_the_first_event(rt: HostRuntime) -> Result<(), Fail> {
    expect_of_each_damaged(&rt, rt.alloc(), &FORGOTTEN, HALF, FORGOTTEN.len())
}
