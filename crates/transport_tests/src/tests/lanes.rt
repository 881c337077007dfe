//! Tests of lanes: a lane with its ends, and tables of what is done with it.

ghost use Rattle.std.specs.Prelude.{◌≡◌};
ghost use Rattle.std.specs.Option.{ForSome};
ghost use Rattle.trace_lane.specs.Lanes.{end_lane, in_lane, out_lane};

mod leaving;
mod making;
mod moving;
mod threads;

use super::expect_eq_at;
use std::alloc::{Allocator, Global};
use std::fmt::Debug;
use std::process::Abort;
use std::test::Fail;
use trace_lane::{LaneEnd, LaneError, LaneIn, LaneOut, lane};

/// The ends of one lane that are there, and what is left of the putting end once it was finished.
#[derive(Drop)]
pub struct Ends<T: Copy + Send, A: Allocator + Copy = Global> {
    into: Option<LaneIn<T, A>>,
    end: Option<LaneEnd<T, A>>,
    out: Option<LaneOut<T, A>>,
    ghost puts_to: { ForSome into (λ i. ForSome out (λ o. in_lane i ≡ out_lane o)) },
    ghost ends_at: { ForSome end (λ e. ForSome out (λ o. end_lane e ≡ out_lane o)) },
}

/// A new lane. No clause says what a call answers, here and below, so the proof of a test never has
/// the clauses of a lane in view.
fn ends_of<T: Copy + Send, A: Allocator + Copy>(
    alloc: A,
    capacity: usize,
) -> Result<Ends<T, A>, LaneError> {
    let (into, out) = lane(alloc, capacity)?;
    Ok(Ends {
        into: Some(into),
        end: None,
        out: Some(out),
    })
}

/// Puts an item. The putting end has to be there.
fn put<T: Copy + Send, A: Allocator + Copy>(
    rt: &impl Abort,
    ends: &mut Ends<T, A>,
    item: T,
) -> Result<(), T> {
    match &mut ends.into {
        Some(into) => into.put(item),
        None => panic!(rt; "nothing can be put"),
    }
}

/// Puts the first of some items, and gives how many.
fn put_some<T: Copy + Send, A: Allocator + Copy>(
    rt: &impl Abort,
    ends: &mut Ends<T, A>,
    items: &[T],
) -> usize {
    match &mut ends.into {
        Some(into) => into.put_some(items),
        None => panic!(rt; "nothing can be put"),
    }
}

/// Takes the next item, if there is one. The taking end has to be there.
fn take<T: Copy + Send, A: Allocator + Copy>(rt: &impl Abort, ends: &mut Ends<T, A>) -> Option<T> {
    match &mut ends.out {
        Some(out) => out.take(),
        None => panic!(rt; "nothing can be taken"),
    }
}

/// Takes some items into this room, and gives how many.
fn take_some<T: Copy + Send, A: Allocator + Copy>(
    rt: &impl Abort,
    ends: &mut Ends<T, A>,
    room: &mut [T],
) -> usize {
    match &mut ends.out {
        Some(out) => out.take_some(room),
        None => panic!(rt; "nothing can be taken"),
    }
}

/// Whether the putting end finds that the taking end is gone.
fn is_taker_gone<T: Copy + Send, A: Allocator + Copy>(
    rt: &impl Abort,
    ends: &mut Ends<T, A>,
) -> bool {
    match &mut ends.into {
        Some(into) => into.is_left(),
        None => panic!(rt; "the putting end is gone"),
    }
}

/// Whether the taking end finds that the putting end is gone.
fn is_putter_gone<T: Copy + Send, A: Allocator + Copy>(
    rt: &impl Abort,
    ends: &mut Ends<T, A>,
) -> bool {
    match &mut ends.out {
        Some(out) => out.is_left(),
        None => panic!(rt; "the taking end is gone"),
    }
}

/// Finishes the lane, and keeps what is left of the putting end. Gives whether anything is.
fn finish<T: Copy + Send, A: Allocator + Copy>(rt: &impl Abort, ends: &mut Ends<T, A>) -> bool {
    match ends.into.take() {
        Some(into) => {
            ends.end = into.finish();
            ends.end.is_some()
        }
        None => panic!(rt; "it was finished"),
    }
}

/// Settles a lane that was finished, and gives how many items are left.
fn settle<T: Copy + Send, A: Allocator + Copy>(rt: &impl Abort, ends: &mut Ends<T, A>) -> usize {
    match (ends.end.take(), &mut ends.out) {
        (Some(end), Some(out)) => out.settle(end),
        _ => panic!(rt; "nothing can be settled"),
    }
}

/// What is done with a lane, and what has to come of it.
#[derive(Drop)]
enum Step<'a, T> {
    /// An item is put.
    Put(T),
    /// An item is given back, since there is no room for it.
    GiveBack(T),
    /// Of some items the first are put, this many.
    PutSome(&'a [T], usize),
    /// This is the next item, or there is none.
    Take(Option<T>),
    /// Whether the putting end finds that the taking end is gone.
    IsTakerGone(bool),
    /// Whether the taking end finds that the putting end is gone.
    IsPutterGone(bool),
    /// The taking end is dropped.
    DropTaker,
    /// The putting end is dropped.
    DropPutter,
    /// The lane is finished, and something is left of the putting end or nothing.
    Finish(bool),
    /// The lane is settled, and this many items are left.
    Settle(usize),
}

/// Takes the step of this number, and asserts what comes of it.
fn expect_step<T: Copy + Send + PartialEq + Debug, A: Allocator + Copy>(
    rt: &impl Abort,
    ends: &mut Ends<T, A>,
    number: usize,
    step: &Step<'_, T>,
) {
    match step {
        Step::Put(item) => expect_eq_at(rt, number, put(rt, ends, *item), Ok(())),
        Step::GiveBack(item) => expect_eq_at(rt, number, put(rt, ends, *item), Err(*item)),
        Step::PutSome(items, count) => {
            expect_eq_at(rt, number, put_some(rt, ends, items), *count);
        }
        Step::Take(item) => expect_eq_at(rt, number, take(rt, ends), *item),
        Step::IsTakerGone(is) => expect_eq_at(rt, number, is_taker_gone(rt, ends), *is),
        Step::IsPutterGone(is) => expect_eq_at(rt, number, is_putter_gone(rt, ends), *is),
        Step::DropTaker => ends.out = None,
        Step::DropPutter => ends.into = None,
        Step::Finish(is_left) => expect_eq_at(rt, number, finish(rt, ends), *is_left),
        Step::Settle(left) => expect_eq_at(rt, number, settle(rt, ends), *left),
    }
}

/// Takes these steps in order.
fn expect_steps<T: Copy + Send + PartialEq + Debug, A: Allocator + Copy>(
    rt: &impl Abort,
    ends: &mut Ends<T, A>,
    steps: &[Step<'_, T>],
) {
    for (number, step) in steps.iter().enumerate() {
        expect_step(rt, ends, number, step);
    }
}

/// The same of a new lane with room for this many items.
fn expect_of_new<T: Copy + Send + PartialEq + Debug>(
    rt: &impl Abort,
    alloc: Global,
    capacity: usize,
    steps: &[Step<'_, T>],
) -> Result<(), LaneError> {
    let mut ends = ends_of(alloc, capacity)?;
    expect_steps(rt, &mut ends, steps);
    Ok(())
}

#[test]
fn lane_calls(rt: HostRuntime) -> Result<(), Fail> {
    let steps = [
        Step::Put('A'),
        Step::Put('B'),
        Step::GiveBack('C'),
        Step::Take(Some('A')),
        Step::Put('C'),
        Step::Finish(true),
        Step::Settle(2),
        Step::Take(Some('B')),
        Step::Take(Some('C')),
        Step::Take(None),
    ];
    expect_of_new(&rt, rt.alloc(), 2, &steps)?;
    Ok(())
}
