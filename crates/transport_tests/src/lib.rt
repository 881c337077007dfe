//! Tests of what moves bytes and items: feeds, doors, writing that knows how far it got, and lanes.
#![tactic(auto)]

#[cfg(test)]
mod tests;
