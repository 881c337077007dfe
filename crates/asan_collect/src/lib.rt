//! Many senders at once: each is read and checked over threads, or the only one on the calling
//! thread.
#![tactic(auto)]

mod arrivals;
mod at_work;
mod closing;
mod collector;
mod crew;
mod live;
mod printing;
mod reader_threads;
mod rooms;
mod threads;
mod worker_threads;

pub use asan_print::{Why, WriteFault};
pub use asan_senders::{
    Heaps, Live, MAX_SENDERS, Missing, UNCHECKED, UNWRITTEN, answers_are_outcomes, exit_status,
    write_outcomes,
};
pub use asan_stream::{
    BadOption, Bench, Gate, Item, MAX_EVENTS, MAX_MEMORY, MAX_RING, MAX_WORKERS, MIN_MEMORY,
    OpenGate, Options, Outcome, ReaderDone, Turn, bytes_spell_one_end, check_feed, outcomes_agree,
    run_checker, run_reader, settle,
};
pub use collector::{Collector, collect};
pub use live::collect_live;
pub use std::alloc::AllocError as NoMemory;
