//! A leaf of a table.
ghost use Rattle.std.specs.Prelude.{◌≡◌, ℕ, ◌+◌, ◌-◌, ◌<◌, ◌≤◌, ◌&&◌, nat_le, nat_lt};
ghost use Rattle.std.specs.Prelude.{if◌then◌else◌, IfOk, slice_index};
ghost use Rattle.page_table.specs.declared.leaf.TheConstants.{LEAF};
ghost use Rattle.page_table.specs.Nodes.{IsWidth, HasRuns};
ghost use Rattle.page_table.specs.Runs.{length_of};

use crate::node::Node;
use crate::run::Run;
use std::alloc::{AllocError, Allocator, Global};

/// How many bytes a leaf has.
const LEAF: usize = 4096;

/// Bytes side by side. A leaf that was filled whole, at once, is kept as that one byte.
#[derive(Drop)]
pub enum Leaf<A: Allocator = Global> {
    /// The byte at each index.
    Whole(u8),
    /// The bytes.
    Bytes(Box<[u8; LEAF], A>),
}

impl<A: Allocator + Copy> Node<A> for Leaf<A> {
    ghost use Rattle.page_table.specs.Leaves.{leaf_byte};

    ghost width = { LEAF };

    ghost fits = { IsWidth LEAF };

    ghost byte_at = { leaf_byte };

    #[inline]
    fn width() -> u64 {
        LEAF as u64
    }

    #[inline]
    fn same(_alloc: A, byte: u8) -> Self {
        Leaf::Whole(byte)
    }

    #[inline]
    fn byte(&self, index: u64) -> u8 {
        match self {
            Leaf::Whole(byte) => *byte,
            Leaf::Bytes(bytes) => bytes[index as usize],
        }
    }

    fn first_nonzero(&self, from: u64, to: u64) -> Option<u64> {
        let bytes = match self {
            Leaf::Whole(byte) => return (from < to && *byte != 0).then_some(from),
            Leaf::Bytes(bytes) => bytes,
        };
        for index in from..to {
            if bytes[index as usize] != 0 {
                return Some(index);
            }
        }
        None
    }

    fn fill(&mut self, alloc: A, from: u64, to: u64, byte: u8) -> Result<(), AllocError> {
        let (from, to) = (from as usize, to as usize);
        if to - from == LEAF {
            *self = Leaf::Whole(byte);
            return Ok(());
        }
        match self {
            Leaf::Bytes(bytes) => fill_bytes(bytes, from, to, byte),
            Leaf::Whole(old) if *old == byte => {}
            Leaf::Whole(old) => {
                let mut bytes = same_bytes(alloc, *old)?;
                fill_bytes(&mut bytes, from, to, byte);
                *self = Leaf::Bytes(bytes);
            }
        }
        Ok(())
    }

    #[inline]
    fn write_runs(&mut self, from: u64, to: u64, runs: &[Run]) -> bool {
        match self {
            Leaf::Bytes(bytes) if to - from < LEAF as u64 => {
                fill_runs(bytes, from as usize, runs);
                true
            }
            _ => false,
        }
    }

    ghost is_width = { λ fits. fits };
}

/// The bytes of a leaf that has one byte at each index.
#[inline(never)]
fn same_bytes<A: Allocator + Copy>(alloc: A, byte: u8) -> Result<Box<[u8; LEAF], A>, AllocError>
    ensures { IfOk result (λ bytes.
        (index : ℕ) → index < LEAF → slice_index bytes.value index ≡ byte) }
{
    Ok(Box::new(alloc, [byte; LEAF])?)
}

/// Sets the bytes from an index up to another.
#[inline]
fn fill_bytes(bytes: &mut [u8; LEAF], from: usize, to: usize, byte: u8)
    requires order { from ≤ to }
    requires end { to ≤ LEAF }
    ensures { (index : ℕ) → slice_index bytes.new index
        ≡ (if nat_le from index && nat_lt index to then byte else slice_index bytes.old index) }
{
    bytes[from..to].fill(byte);
}

/// Sets the bytes from an index on, run after run.
fn fill_runs(bytes: &mut [u8; LEAF], from: usize, runs: &[Run])
    requires end { from + length_of runs.now ≤ LEAF }
    ensures { HasRuns LEAF
        (λ index. slice_index bytes.old index)
        (λ index. slice_index bytes.new index) from runs.now }
{
    let mut at = from;
    for run in runs {
        let next = at + run.length as usize;
        fill_bytes(bytes, at, next, run.byte);
        at = next;
    }
}
