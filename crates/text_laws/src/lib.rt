//! Laws of the texts that are printed: what a line says can be got back from it, and so can what a
//! text says. No program calls a function of this crate.
#![tactic(auto)]

mod laws;
mod line;

pub use laws::{
    lines_end_with_their_line_feed, lines_fit, lines_have_one_reading, outcomes_have_one_reading,
    printed_texts_have_one_reading,
};
pub use line::Line;
