//! What the leaves and the branches of a table have in common.
ghost use Rattle.std.specs.Prelude.{◌≡◌, ℕ, ◌+◌, ◌<◌, ◌≤◌, IsTrue, false, OnOk, OnErr};
ghost use Rattle.page_table.specs.Nodes.{IsWidth, IsFilled, IsFilledInPart};
ghost use Rattle.page_table.specs.Nodes.{HasRuns, HasRunsBelow};
ghost use Rattle.page_table.specs.Nodes.{IsFirstNonzero};
ghost use Rattle.page_table.specs.Runs.{length_of};

use crate::run::Run;
use std::alloc::{AllocError, Allocator};

/// A node of a table: a byte at each index from 0 up to its width.
pub trait Node<A: Allocator + Copy>: Drop {
    ghost width: { ℕ };

    // Its width, and those of the nodes in it, are widths that a node may have.
    ghost fits: { Type 0 };

    ghost byte_at: { Self → ℕ → ℕ };

    /// How many indices it has.
    fn width() -> u64
        requires { fits }
        ensures { result ≡ width };

    /// The node that has one byte at all indices. Takes no memory.
    fn same(alloc: A, byte: u8) -> Self
        ensures { (index : ℕ) → byte_at result index ≡ byte };

    /// The byte at an index.
    fn byte(&self, index: u64) -> u8
        requires fits { fits }
        requires within { index < width }
        ensures { result ≡ byte_at self.now index };

    /// The first index from one on, below another, whose byte is not 0.
    fn first_nonzero(&self, from: u64, to: u64) -> Option<u64>
        requires fits { fits }
        requires end { to ≤ width }
        ensures { IsFirstNonzero (byte_at self.now) from to result };

    /// Sets the bytes at the indices from one up to another. Where memory is refused, those below
    /// some index are set, and the others are as they were.
    fn fill(&mut self, alloc: A, from: u64, to: u64, byte: u8) -> Result<(), AllocError>
        requires fits { fits }
        requires order { from < to }
        requires end { to ≤ width }
        ensures ok { OnOk result (IsFilled width (byte_at self.old)
            (byte_at self.new) from to byte) }
        ensures err { OnErr result (IsFilledInPart width (byte_at self.old)
            (byte_at self.new) from to byte) };

    /// Sets the bytes at the indices from one up to another, run after run, if these are a part of
    /// one leaf that has its own bytes, and says whether it did. Takes no memory.
    fn write_runs(&mut self, from: u64, to: u64, runs: &[Run]) -> bool
        requires fits { fits }
        requires length { to ≡ from + length_of runs.now }
        requires end { to ≤ width }
        ensures done { IsTrue result →
            HasRuns width (byte_at self.old) (byte_at self.new) from runs.now }
        ensures other { result ≡ false →
            (index : ℕ) → index < width → byte_at self.new index ≡ byte_at self.old index };

    ghost is_width: { fits → IsWidth width };
}

/// Sets the bytes from an index on, run after run, each by one fill.
#[inline(never)]
pub fn fill_each_run<S: Node<A>, A: Allocator + Copy>(
    node: &mut S,
    alloc: A,
    from: u64,
    runs: &[Run],
) -> Result<(), AllocError>
    requires fits { S.fits }
    requires end { from + length_of runs.now ≤ S.width }
    ensures ok { OnOk result
        (HasRuns S.width (S.byte_at node.old) (S.byte_at node.new) from runs.now) }
    ensures err { OnErr result
        (HasRunsBelow S.width (S.byte_at node.old) (S.byte_at node.new) from runs.now) }
{
    let mut at = from;
    for run in runs {
        let next = at + run.length;
        if at < next {
            node.fill(alloc, at, next, run.byte)?;
        }
        at = next;
    }
    Ok(())
}
