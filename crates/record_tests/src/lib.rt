//! Tests of the decoder and the encoder of records.
#![tactic(auto)]

#[cfg(test)]
mod tests;
