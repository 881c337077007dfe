//! Reading ahead: what a tree keeps of some lines, for the processor to have it at hand. No clause
//! speaks of what is read.
ghost use Rattle.std.specs.Prelude.{◌≡◌, ◌≤◌, length};

use crate::branch::NODES;
use crate::leaf::{LINES, Leaf};
use crate::map::LINE;
use crate::tree::{Part, Tree};
use std::alloc::Allocator;

/// How many lines are read at once at most.
pub const MAX_FETCHED: usize = 32;

/// How many lines a part has.
const PART: u64 = 1 << 27;

/// Reads what a tree keeps of the lines of some addresses, of the first ones if they are more than
/// 32, and answers some number that depends on it.
///
/// All leaves are read before the first entry, so that the processor waits for all of them at the
/// same time, and then for all entries.
pub fn read_lines<A: Allocator + Copy>(tree: &Tree<A>, addresses: &[u64]) -> u64 {
    let mut found = [None; MAX_FETCHED];
    let leaves = &mut found[..];
    let count = addresses.len().min(MAX_FETCHED);
    let read = find_leaves(tree, &addresses[..count], leaves);
    read ^ read_entries(&addresses[..count], leaves)
}

/// Finds the leaf of each address, and reads which of its lines have an entry.
#[inline]
fn find_leaves<'t, A: Allocator + Copy>(
    tree: &'t Tree<A>,
    addresses: &[u64],
    leaves: &mut [Option<&'t Leaf<A>>],
) -> u64
    requires { length addresses.now ≤ length leaves.old }
    ensures { length leaves.new ≡ length leaves.old }
{
    let mut read = 0;
    // Most addresses lie in one part.
    let mut number = u64::MAX;
    let mut part = None;
    for i in 0..addresses.len() {
        let line = addresses[i] / LINE;
        if line / PART != number {
            number = line / PART;
            part = tree.part(number);
        }
        leaves[i] = match part {
            Some(part) => leaf_of(part, line),
            None => None,
        };
        match leaves[i] {
            Some(leaf) => read ^= leaf.lines(),
            None => {}
        }
    }
    read
}

/// Reads the entry of each address, if it has a leaf.
#[inline]
fn read_entries<A: Allocator + Copy>(addresses: &[u64], leaves: &[Option<&Leaf<A>>]) -> u64
    requires { length addresses.now ≤ length leaves.now }
{
    let mut read = 0;
    for i in 0..addresses.len() {
        match leaves[i] {
            Some(leaf) => read ^= u64::from(leaf.number(addresses[i] / LINE % LINES as u64)),
            None => {}
        }
    }
    read
}

/// The leaf of a line of a part, if it is kept.
#[inline]
fn leaf_of<A: Allocator + Copy>(part: &Part<A>, line: u64) -> Option<&Leaf<A>> {
    let nodes = NODES as u64;
    let number = line / LINES as u64;
    let level2 = part.node(number / nodes / nodes % nodes)?;
    level2.node(number / nodes % nodes)?.node(number % nodes)
}
