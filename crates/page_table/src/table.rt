//! The table.
ghost use Rattle.std.specs.Prelude.{◌≡◌, ℕ, ◌+◌, ◌<◌, ◌≤◌, IfSome, OnOk, OnErr};
ghost use Rattle.asan_units.specs.Units.{granule_count};
ghost use Rattle.page_table.specs.Runs.{length_of};
ghost use Rattle.page_table.specs.Nodes.{IsFirstNonzero};
ghost use Rattle.page_table.specs.Tables.{byte_of, Fills, FillsBelow, FillsRuns, FillsRunsBelow};
ghost use Rattle.page_table.specs.Tables.{IsArea, IsPart};

use crate::branch::{Branch, NODES};
use crate::leaf::Leaf;
use crate::node::{Node, fill_each_run};
use crate::reader::Reader;
use crate::run::{Run, total_length};
use std::alloc::{AllocError, Allocator, Global};

/// The branches by how many levels of them there are: each has 128 times the granules of one of the
/// level below.
type Level1<A> = Branch<Leaf<A>, A>;

type Level2<A> = Branch<Level1<A>, A>;

type Level3<A> = Branch<Level2<A>, A>;

type Level4<A> = Branch<Level3<A>, A>;

type Level5<A> = Branch<Level4<A>, A>;

/// What a reader remembers of a table: 2^26 granules, the first of which has a number that 2^26
/// divides.
pub(crate) type Part<A> = Level2<A>;

/// What it remembers beside: 2^33 granules, the first of which has a number that 2^33 divides.
pub(crate) type Area<A> = Level3<A>;

// What 128 nodes of a branch take: 2,048 bytes where they are leaves, and 4,096 where they are
// branches.
const _: () = prove!(size_of::<Leaf>() == 16);

const _: () = prove!(size_of::<Level1<Global>>() == 32);

const _: () = prove!(size_of::<Level5<Global>>() == 32);

/// A byte for each granule below 2^44.
///
/// A fill takes memory only along the ways to its two ends, for what is not there yet: for each end
/// at most a leaf (4,096 bytes), the leaves beside it (2,048) and a branch of each level above
/// (4,096 each).
#[derive(Drop)]
pub struct PageTable<A: Allocator + Copy = Global> {
    root: Level5<A>,
    alloc: A,
}

impl<A: Allocator + Copy> PageTable<A> {
    ghost use Rattle.page_table.specs.Readers.{table_of};

    /// The table whose bytes are all 0. Takes no memory.
    #[tactic(auto, unfolding(crate::specs::Tables::byte_of))]
    pub fn new(alloc: A) -> PageTable<A>
        ensures { (granule : ℕ) → byte_of result granule ≡ 0 }
    {
        PageTable {
            root: Branch::same(alloc, 0),
            alloc,
        }
    }

    /// Sets all bytes to 0, and gives back the memory of what was kept.
    #[tactic(auto, unfolding(crate::specs::Tables::byte_of))]
    pub fn clear(&mut self)
        ensures { (granule : ℕ) → byte_of self.new granule ≡ 0 }
    {
        self.root = Branch::same(self.alloc, 0);
    }

    /// The byte of a granule: six array steps at most.
    #[inline]
    #[tactic(auto, unfolding(crate::specs::Tables::byte_of))]
    pub fn byte(&self, granule: u64) -> u8
        requires { granule < granule_count }
        ensures { result ≡ byte_of self.now granule }
    {
        self.root.byte(granule)
    }

    /// The part of the granules from 2^26 `number` on, if the table keeps it.
    #[inline]
    #[tactic(auto, unfolding(crate::specs::Tables::byte_of))]
    pub(crate) fn part(&self, number: u64) -> Option<&Part<A>>
        ensures { IfSome result (λ part. IsPart self.now number part.now) }
    {
        let nodes = NODES as u64;
        let level4 = self.root.node(number / nodes / nodes)?;
        let level3 = level4.node(number / nodes % nodes)?;
        level3.node(number % nodes)
    }

    /// The area of the granules from 2^33 `number` on, if the table keeps it.
    #[inline]
    #[tactic(auto, unfolding(crate::specs::Tables::byte_of))]
    pub(crate) fn area(&self, number: u64) -> Option<&Area<A>>
        ensures { IfSome result (λ area. IsArea self.now number area.now) }
    {
        let nodes = NODES as u64;
        let level4 = self.root.node(number / nodes)?;
        level4.node(number % nodes)
    }

    /// A reader of the bytes.
    #[inline]
    pub fn reader(&self) -> Reader<'_, A>
        ensures { table_of result ≡ self.now }
    {
        Reader::new(self)
    }

    /// The first granule from one on, below another, whose byte is not 0. What is kept as one byte
    /// costs one step, however large it is.
    #[tactic(auto, unfolding(crate::specs::Tables::byte_of))]
    pub fn first_nonzero(&self, from: u64, to: u64) -> Option<u64>
        requires { to ≤ granule_count }
        ensures { IsFirstNonzero (byte_of self.now) from to result }
    {
        self.root.first_nonzero(from, to)
    }

    /// Sets the bytes of the granules from one up to another. A fill that changes nothing where
    /// nothing is kept takes no memory. Where memory is refused, the granules below some place are
    /// set, and the others are as they were.
    #[tactic(auto, unfolding(crate::specs::Tables::byte_of))]
    pub fn fill(&mut self, from: u64, to: u64, byte: u8) -> Result<(), AllocError>
        requires order { from ≤ to }
        requires end { to ≤ granule_count }
        ensures ok { OnOk result (Fills self.old self.new from to byte) }
        ensures err { OnErr result (FillsBelow self.old self.new from to byte) }
    {
        let run = Run {
            length: to - from,
            byte,
        };
        if from < to && !self.root.write_runs(from, to, &[run]) {
            self.root.fill(self.alloc, from, to, byte)?;
        }
        Ok(())
    }

    /// Sets the bytes of the granules from one on, run after run. It takes no more memory than a
    /// fill for each run does, and is faster where all runs lie in one leaf that has bytes of its
    /// own. Where memory is refused, the granules below some place are set, and the others are as
    /// they were.
    #[tactic(auto, unfolding(crate::specs::Tables::byte_of))]
    pub fn fill_runs(&mut self, from: u64, runs: &[Run]) -> Result<(), AllocError>
        requires end { from + length_of runs.now ≤ granule_count }
        ensures ok { OnOk result (FillsRuns self.old self.new from runs.now) }
        ensures err { OnErr result (FillsRunsBelow self.old self.new from runs.now) }
    {
        if !self.root.write_runs(from, from + total_length(runs), runs) {
            fill_each_run(&mut self.root, self.alloc, from, runs)?;
        }
        Ok(())
    }
}
