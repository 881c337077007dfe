//! Printing the lines of processes to a writer, many at a write: whole texts, and lines of several
//! processes as they come.
#![tactic(auto)]

mod counted;
mod fault;
mod live_printer;
mod port;
mod printer;

pub use fault::{Why, WriteFault};
pub use live_printer::LivePrinter;
pub use port::Port;
pub use printer::Printer;
