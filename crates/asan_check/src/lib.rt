//! The checker of one process's events, and the lines that are printed of it.
#![tactic(auto)]

mod checker;
mod codes;
mod ending;
mod fetched;
mod lines;
mod report;

pub use checker::{Checker, Failed};
pub use ending::Ending;
pub use heap_book::{Bound, MAX_FETCHED};
pub use lines::{end_text, ending_text, report_text};
pub use report::{Class, Fault, Report};
pub use std::alloc::AllocError as NoMemory;
