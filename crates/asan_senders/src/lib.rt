//! The senders of a collection, from their arrival to their outcomes: all that needs no thread of
//! its own. Then the text of all outcomes, and the status.
#![tactic(auto)]

mod alone;
mod arrivals;
mod closing;
mod heaps;
mod joining;
mod lanes;
mod laws;
mod live;
mod missing;
mod printers;
mod reading;
mod returns;
mod sender;
mod status;
mod worker_thread;
mod write;

pub use alone::{check_alone, check_alone_live, only_feed};
pub use arrivals::{MAX_SENDERS, ask};
pub use closing::close;
pub use heaps::Heaps;
pub use joining::join_all;
pub use lanes::{Seats, open_all};
pub use laws::answers_are_outcomes;
pub use live::Live;
pub use missing::{Missing, Part, missing_among};
pub use printers::Printers;
pub use reading::Reading;
pub use returns::{place_all, settle_all};
pub use sender::Sender;
pub use status::{UNCHECKED, UNWRITTEN, exit_status};
pub use std::alloc::AllocError as NoMemory;
pub use worker_thread::{WorkerThread, Working, give_up_senders};
pub use write::write_outcomes;
