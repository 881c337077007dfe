//! A lane between two threads: one end puts items, the other takes them in the order in which they
//! were put.
//!
//! [`lane`] makes both ends. They belong to one lane, and each may move to another thread.
//!
//! - **Nothing waits.** A put that finds no room gives the item back, and a take that finds no item
//!   gives `None`. The caller says how to wait.
//! - **Only `lane` takes memory**, for the ring and for the buffer of the taking end.
//! - **Where items are.** A put moves an item into the ring. Where its buffer is empty, a take
//!   moves items out of the ring into the buffer, up to 64 of them, so that the next takes touch
//!   nothing that the threads share. `take_some` moves items to where the caller wants them.
//! - **The end.** `finish` drops the putting end and gives a `LaneEnd`, which knows all that was
//!   put. With it `settle` says how many items are left, and that many takes then succeed: every
//!   item that was put is taken.
#![tactic(auto, unfolding(
// what contracts say of the putting end
crate::specs::Lanes::in_lane, crate::specs::Lanes::put_list,
// of the taking end
crate::specs::Lanes::out_lane, crate::specs::Lanes::taken_list, crate::specs::Lanes::waiting,
// and of what is left of the putting end
crate::specs::Lanes::end_lane, crate::specs::Lanes::end_list))]

mod lane_end;
mod lane_in;
mod lane_out;
mod make;

pub use lane_end::LaneEnd;
pub use lane_in::LaneIn;
pub use lane_out::LaneOut;
pub use make::{LaneError, MAX_ITEMS, lane};
