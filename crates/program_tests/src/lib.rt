//! Tests of the program over a reader and two writers.
#![tactic(auto)]

#[cfg(test)]
mod tests;
