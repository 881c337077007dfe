//! One sender's stream: its bytes are read and checked, and its outcome says what became of it.
//!
//! On one thread that is [`check_feed`], or a [`Replay`] where the reports are seen as they are
//! found. Over two threads a reader, [`run_reader`], puts the events into a lane, a checker,
//! [`run_checker`], takes them at a [`Bench`], and [`settle`] makes the outcome when the reader is
//! done.
#![tactic(auto)]

mod bench;
mod decode;
mod gate;
mod item;
mod laws;
mod options;
mod outbox;
mod outcome;
mod pause;
mod piece;
mod reader;
mod replay;
mod room;
mod settlement;
mod source;
mod worker;

pub use bench::{Bench, Turn};
pub use gate::{Gate, OpenGate};
pub use item::Item;
pub use laws::{bytes_spell_one_end, outcomes_agree};
pub use options::{BadOption, MAX_EVENTS, MAX_MEMORY, MAX_RING, MAX_WORKERS, MIN_MEMORY, Options};
pub use outcome::Outcome;
pub use pause::Pause;
pub use reader::{ReaderDone, run_reader};
pub use replay::{Replay, check_feed};
pub use settlement::settle;
pub use worker::run_checker;
