//! Writers for tests: one takes a set number of bytes, and one fails once.
#![tactic(auto)]

mod fails_once;
mod short_writer;

pub use fails_once::FailsOnce;
pub use short_writer::{ShortWriter, WhenFull};
