//! Tests of doors over a list and over files, and the tables of arrivals by which a door is tested.

use super::expect_eq_at;
use super::feeds::{TRACE, expect_reads};
use std::process::Abort;
use std::test::Fail;
use std::{env, fs, process};
use trace_feed::{Arrival, Door, Feed, FeedFault, ListDoor, PathDoor, ReadFeed};

/// What a door has to answer.
#[derive(Clone, Copy)]
pub enum Coming {
    /// A sender comes in, whose feed gives these bytes, at most 8, and then its end.
    Came(&'static [u8]),
    Refused,
    Over,
}

/// Asks a door for the next arrival. No clause says which one comes.
fn next_of<D: Door>(rt: &impl Abort, door: &mut D) -> Arrival<D::Feed> {
    assert!(rt; door.refusals() < u64::MAX);
    door.next()
}

/// The feed of the sender that comes in.
pub fn came<D: Door>(rt: &impl Abort, door: &mut D) -> D::Feed
where
    D::Feed: Drop,
{
    match next_of(rt, door) {
        Arrival::Came(feed) => feed,
        _ => panic!(rt; "no sender came in"),
    }
}

/// Asserts that an arrival is this one.
fn expect_arrival<F: Feed + Drop>(rt: &impl Abort, arrival: Arrival<F>, coming: Coming) {
    match (arrival, coming) {
        (Arrival::Came(mut feed), Coming::Came(bytes)) => {
            expect_reads(rt, &mut feed, &[(8, Ok(bytes), 0), (8, Ok(&[]), 0)]);
        }
        (Arrival::Refused, Coming::Refused) | (Arrival::Over, Coming::Over) => {}
        _ => panic!(rt; "something else came"),
    }
}

/// Asserts that these arrive, in order, and how many senders were refused after each of them.
pub fn expect_arrivals<D: Door>(rt: &impl Abort, door: &mut D, comings: &[(Coming, u64)])
where
    D::Feed: Drop,
{
    for (number, (coming, refusals)) in comings.iter().enumerate() {
        expect_arrival(rt, next_of(rt, door), *coming);
        expect_eq_at(rt, number, door.refusals(), *refusals);
    }
}

#[test]
fn senders_of_a_list_come_in_order(rt: HostRuntime) -> Result<(), Fail> {
    let arrivals = [
        Arrival::Came(ReadFeed::new(b"one".as_slice())),
        Arrival::Refused,
        Arrival::Came(ReadFeed::new(b"three".as_slice())),
    ];
    let mut door = ListDoor::new(Vec::from_array(rt.alloc(), arrivals)?);
    let comings = [
        (Coming::Came(b"one"), 0),
        (Coming::Refused, 1),
        (Coming::Came(b"three"), 1),
        (Coming::Over, 1),
    ];
    expect_arrivals(&rt, &mut door, &comings);
    Ok(())
}

#[test]
fn over_in_a_list_ends_it(rt: HostRuntime) -> Result<(), Fail> {
    let arrivals = [
        Arrival::Over,
        Arrival::Came(ReadFeed::new(b"late".as_slice())),
    ];
    let mut door = ListDoor::new(Vec::from_array(rt.alloc(), arrivals)?);
    let comings = [(Coming::Over, 0), (Coming::Over, 0)];
    expect_arrivals(&rt, &mut door, &comings);
    Ok(())
}

#[test]
fn files_come_where_they_open(rt: HostRuntime) -> Result<(), Fail> {
    let folder = format!(in rt.alloc(); "{}", env::temp_dir(&rt)?.display())?;
    // Its name ends with a space, without which there is no file.
    let path = format!(in rt.alloc(); "{folder}/trace_feed_{} ", process::id(rt.process()))?;
    let missing = format!(in rt.alloc(); "{path}_missing")?;
    fs::write(&rt, path.as_str(), TRACE.as_slice())?;
    let paths = Vec::from_array(rt.alloc(), [path.clone()?, missing, folder])?;
    let mut door = PathDoor::new(&rt, paths);
    let mut file = came(&rt, &mut door);
    fs::remove_file(&rt, path.as_str())?;
    expect_reads(&rt, &mut file, &[(64, Ok(&TRACE), 0), (64, Ok(&[]), 0)]);
    expect_arrivals(&rt, &mut door, &[(Coming::Refused, 1)]);
    // A folder opens, and reads of it fail.
    let mut folder = came(&rt, &mut door);
    expect_reads(&rt, &mut folder, &[(64, Err(FeedFault), 1)]);
    expect_arrivals(&rt, &mut door, &[(Coming::Over, 1), (Coming::Over, 1)]);
    Ok(())
}
