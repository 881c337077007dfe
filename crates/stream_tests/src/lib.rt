//! Tests of one stream: of a feed, of a bench and its lanes, and of what is written.
#![tactic(auto)]

#[cfg(test)]
mod tests;
