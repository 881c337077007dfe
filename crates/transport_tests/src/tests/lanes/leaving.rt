//! Tests of what an end sees once the other end is gone.

use super::{Step, expect_of_new};
use std::test::Fail;

#[test]
fn putting_end_sees_that_the_taking_end_is_gone(rt: HostRuntime) -> Result<(), Fail> {
    let steps = [
        Step::Put('A'),
        Step::IsTakerGone(false),
        Step::DropTaker,
        Step::IsTakerGone(true),
        Step::Finish(false),
    ];
    expect_of_new(&rt, rt.alloc(), 4, &steps)?;
    Ok(())
}

#[test]
fn items_put_before_the_putting_end_was_dropped_are_taken(rt: HostRuntime) -> Result<(), Fail> {
    let steps = [
        Step::PutSome(&['A', 'B', 'C'], 3),
        Step::Take(Some('A')),
        Step::IsPutterGone(false),
        Step::DropPutter,
        Step::IsPutterGone(true),
        Step::Take(Some('B')),
        Step::Take(Some('C')),
        Step::Take(None),
        Step::IsPutterGone(true),
    ];
    expect_of_new(&rt, rt.alloc(), 4, &steps)?;
    Ok(())
}

#[test]
fn finished_lane_is_left_and_its_items_are_taken(rt: HostRuntime) -> Result<(), Fail> {
    let steps = [
        Step::Put('A'),
        Step::IsPutterGone(false),
        Step::Finish(true),
        Step::IsPutterGone(true),
        Step::Take(Some('A')),
        Step::Settle(0),
        Step::Take(None),
    ];
    expect_of_new(&rt, rt.alloc(), 4, &steps)?;
    Ok(())
}
