//! Tests of many senders at once: damaged streams, and each failure in turn.
#![tactic(auto)]

#[cfg(test)]
mod tests;
