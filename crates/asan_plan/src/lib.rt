//! What a recorder has to state before a bad access or a bad free, so that the collector finds
//! there what the process has found: decided by the shadow bytes and the block that were found
//! there, alone. Each such group of records is a history of its own.
#![tactic(auto)]

mod recording;
mod saying;

pub use recording::a_recording_in_groups_has_the_reports_of_the_run;
pub use saying::{Around, Said, Shading, Stated, say_access, say_free};
