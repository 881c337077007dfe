//! The command line: the arguments that it may have, and what they ask for.
#![tactic(auto)]

mod arguments;
mod command_line;
mod refusal;
mod request;
mod settings;

pub use command_line::read_arguments;
pub use refusal::Refusal;
pub use request::{Request, TraceFiles};
