//! Tests of a checker and of the lines that are printed of it: what it answers about bytes, which
//! events it passes, refused memory, and a slow model beside it.
#![tactic(auto)]

#[cfg(test)]
mod tests;
