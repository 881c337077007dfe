//! A byte for each of 2^44 granules, kept in a tree.
//!
//! A leaf has 4,096 granules, and leaf n has those from 4,096 n on. It is found through a tree,
//! five branches deep, by the number of a granule. A leaf or a branch that was filled whole, at
//! once, is kept as that one byte, whatever its size. So a fill takes memory only along the ways to
//! its two ends, and what was never filled takes none.
#![tactic(auto)]

mod branch;
mod leaf;
mod node;
mod reader;
mod run;
mod table;

pub use reader::Reader;
pub use run::Run;
pub use table::PageTable;
