//! Tests of the tables below a checker: maps of lines, page tables, shadows and books of blocks.
#![tactic(auto)]

#[cfg(test)]
mod tests;
