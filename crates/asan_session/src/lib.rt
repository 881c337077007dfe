//! A session of the program: the traces of a door, or one feed, are checked, what became of them is
//! printed, and the status to end with follows from it.
#![tactic(auto)]

mod memory;
mod print;
mod said;
mod session;

pub use print::report_feed;
pub use said::{no_memory, say};
pub use session::{Checking, Session};
