//! A branch of a table.
ghost use Rattle.std.specs.Prelude.{◌≡◌, ℕ, ◌+◌, ◌-◌, ◌*◌, ◌/◌, ◌%◌, ◌<◌, ◌≤◌, IfSome, OnOk};
ghost use Rattle.std.specs.Prelude.{OnErr, vec_len};
ghost use Rattle.page_table.specs.declared.branch.TheConstants.{NODES};
ghost use Rattle.page_table.specs.Nodes.{IsWidth};

use crate::node::Node;
use crate::run::Run;
use std::alloc::{AllocError, Allocator, Global};

/// How many nodes a branch has.
pub const NODES: usize = 128;

/// Nodes of one width, side by side. Those that are not kept have one byte.
#[derive(Drop)]
pub struct Branch<S, A: Allocator = Global> {
    // The first nodes.
    kept: Vec<S, A>,

    // The byte at each index of the others.
    rest: u8,
}

impl<S: Node<A>, A: Allocator + Copy> Node<A> for Branch<S, A> {
    ghost use Rattle.page_table.specs.Branches.{branch_byte};

    ghost width = { NODES * S.width };

    ghost fits = { IsWidth (NODES * S.width) × S.fits };

    ghost byte_at = { branch_byte S.byte_at S.width };

    #[inline]
    fn width() -> u64 {
        NODES as u64 * S::width()
    }

    #[inline]
    fn same(alloc: A, byte: u8) -> Self {
        Branch {
            kept: Vec::new(alloc),
            rest: byte,
        }
    }

    #[inline]
    fn byte(&self, index: u64) -> u8 {
        let width = S::width();
        let place = (index / width) as usize;
        if place < self.kept.len() {
            self.kept[place].byte(index % width)
        } else {
            self.rest
        }
    }

    fn first_nonzero(&self, from: u64, to: u64) -> Option<u64> {
        let width = S::width();
        let mut index = from;
        while index < to {
            let place = (index / width) as usize;
            if place >= self.kept.len() {
                return if self.rest == 0 { None } else { Some(index) };
            }
            let start = index - index % width;
            let next = to.min(start + width);
            if let Some(found) = self.kept[place].first_nonzero(index - start, next - start) {
                return Some(start + found);
            }
            index = next;
        }
        None
    }

    #[inline]
    fn fill(&mut self, alloc: A, from: u64, to: u64, byte: u8) -> Result<(), AllocError> {
        if to - from == Self::width() {
            self.fill_whole(alloc, byte);
            Ok(())
        } else if to <= from - from % S::width() + S::width() {
            self.fill_within_node(alloc, from, to, byte)
        } else {
            self.fill_across_nodes(alloc, from, to, byte)
        }
    }

    #[inline]
    fn write_runs(&mut self, from: u64, to: u64, runs: &[Run]) -> bool {
        let width = S::width();
        let place = (from / width) as usize;
        let first = from % width;
        let end = first + (to - from);
        place < self.kept.len() && end <= width && self.kept[place].write_runs(first, end, runs)
    }

    ghost is_width = { λ fits. fits.0 };
}

impl<S: Node<A>, A: Allocator + Copy> Branch<S, A> {
    ghost use Rattle.page_table.specs.Branches.{branch_byte, FillsBranch, FillsBranchBelow};

    /// The node at a place, if it is kept.
    #[inline]
    pub fn node(&self, place: u64) -> Option<&S>
        ensures { IfSome result (λ node. (index : ℕ) → index / S.width ≡ place →
            branch_byte S.byte_at S.width self.now index
            ≡ S.byte_at node.now (index % S.width)) }
    {
        self.kept.get(place as usize)
    }

    /// Sets the bytes at all indices. Gives back the memory of the nodes.
    #[inline(never)]
    fn fill_whole(&mut self, alloc: A, byte: u8)
        ensures { (index : ℕ) → branch_byte S.byte_at S.width self.new index ≡ byte }
    {
        *self = Branch::same(alloc, byte);
    }

    /// Sets the bytes at the indices from one up to another, node by node.
    #[inline(never)]
    fn fill_across_nodes(
        &mut self,
        alloc: A,
        from: u64,
        to: u64,
        byte: u8,
    ) -> Result<(), AllocError>
        requires width { IsWidth (NODES * S.width) }
        requires fits { S.fits }
        requires order { from < to }
        requires end { to ≤ NODES * S.width }
        ensures ok { OnOk result
            (FillsBranch S.byte_at S.width self.old self.new from to byte) }
        ensures err { OnErr result
            (FillsBranchBelow S.byte_at S.width self.old self.new from to byte) }
    {
        let width = S::width();
        let mut at = from;
        while at < to {
            let next = to.min(at - at % width + width);
            self.fill_within_node(alloc, at, next, byte)?;
            at = next;
        }
        Ok(())
    }

    /// Sets the bytes at the indices from one up to another, which lie in one node. A node
    /// that is not kept and has the byte already stays so.
    #[inline]
    fn fill_within_node(&mut self, alloc: A, from: u64, to: u64, byte: u8) -> Result<(), AllocError>
        requires fits { S.fits }
        requires order { from < to }
        requires within { to ≤ from - from % S.width + S.width }
        requires end { to ≤ NODES * S.width }
        ensures ok { OnOk result
            (FillsBranch S.byte_at S.width self.old self.new from to byte) }
        ensures err { OnErr result
            (FillsBranchBelow S.byte_at S.width self.old self.new from to byte) }
    {
        let width = S::width();
        let place = (from / width) as usize;
        if place >= self.kept.len() {
            if self.rest == byte {
                return Ok(());
            }
            self.keep(alloc, place + 1)?;
        }
        let first = from % width;
        self.kept[place].fill(alloc, first, first + (to - from), byte)
    }

    /// Keeps at least this number of nodes. Takes memory once, for all nodes of the branch.
    #[inline(never)]
    fn keep(&mut self, alloc: A, count: usize) -> Result<(), AllocError>
        ensures ok { OnOk result (count ≤ vec_len self.new.kept) }
        ensures same { (index : ℕ) →
            branch_byte S.byte_at S.width self.new index
            ≡ branch_byte S.byte_at S.width self.old index }
    {
        if self.kept.is_empty() {
            self.kept = Vec::with_capacity(alloc, NODES)?;
        }
        for _place in self.kept.len()..count {
            self.kept.push(S::same(alloc, self.rest))?;
        }
        Ok(())
    }
}
