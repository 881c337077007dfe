//! A map from addresses to slots, with at most one slot in each line of 64 bytes.
//!
//! A line is 64 bytes side by side: line `l` has the addresses from `64 * l` on. A leaf has 64
//! lines side by side, and is found through a tree, five branches deep, by the number of a line.
//! One way down this tree finds the slot at an address, the place for a new one, or the last slot
//! before an address; if this slot lies in another leaf, two short ways more. A leaf or a branch
//! without slots holds no memory.
#![tactic(auto)]

mod ahead;
mod branch;
mod leaf;
mod map;
mod node;
mod packed_tag;
mod tag;
mod tree;

pub use ahead::MAX_FETCHED;
pub use map::LineMap;
pub use tag::Slot;
