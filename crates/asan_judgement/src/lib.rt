//! Whether a process counts as complete, and why not; and the status of a run.
//!
//! [`judge`] takes what is known of a process: its fate, which the end line of its trace says; the
//! ending that stands beside the trace; and the facts. [`status_of`] takes the processes of a run.
#![tactic(auto)]

mod facts;
mod judging;
mod laws;
mod run;
mod verdict;

pub use facts::{Ending, Facts, Fate};
pub use judging::judge;
pub use laws::worse_facts_make_nothing_complete;
pub use run::{Process, Run, Said, Statuses, status_of};
pub use verdict::{Answer, Verdict, Why};
