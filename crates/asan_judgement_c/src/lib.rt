//! `judge` and `status_of` of `asan_judgement`, for C: run/tests/judged.c compares asancol-run with
//! them on all inputs.
#![tactic(auto)]

mod processes;
mod verdicts;

pub use processes::{Asked, asan_judgement_status};
pub use verdicts::asan_judgement_verdict;
