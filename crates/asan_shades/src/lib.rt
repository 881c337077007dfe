//! What the recorder's shadow says, and what it becomes: for one granule, by its byte before.
//!
//! The definitions are those of `shadow_map`, by which the collector judges. So where the recorder
//! does the same, its shadow is what the collector makes of the events.
#![tactic(auto)]

mod access;
mod blocks;
mod regions;

pub use access::is_bad;
pub use blocks::left_byte;
pub use regions::{poisoned, unpoisoned};
