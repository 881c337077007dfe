//! The tree of lines: five levels of branches over the leaves.
ghost use Rattle.std.specs.Prelude.{◌≡◌, ℕ, ◌<◌, Some, None, IsSome, OnOk, OnErr};
ghost use Rattle.line_map.specs.Entries.{line_count};
ghost use Rattle.line_map.specs.Nodes.{IsPut, IsLastBeforePlace};
ghost use Rattle.line_map.specs.Trees.{tree_tag};

use crate::branch::{Branch, NODES};
use crate::leaf::Leaf;
use crate::node::Node;
use crate::tag::Tag;
use std::alloc::{AllocError, Allocator, Global};

// The branches, by how many levels of them there are. Each has 128 times the lines of one of the
// level below.
type Level1<A> = Branch<Leaf<A>, A>;

type Level2<A> = Branch<Level1<A>, A>;

type Level3<A> = Branch<Level2<A>, A>;

type Level4<A> = Branch<Level3<A>, A>;

type Level5<A> = Branch<Level4<A>, A>;

/// A part of a tree: 2^27 lines, the first of which has a number that 2^27 divides.
pub type Part<A> = Level3<A>;

// What a node takes where it stands, without what it holds.
const _: () = prove!(size_of::<Leaf>() == 32);

const _: () = prove!(size_of::<Level1<Global>>() == 32);

/// A tag or none for each line below 2^41.
#[derive(Drop)]
pub struct Tree<A: Allocator + Copy = Global> {
    root: Level5<A>,
}

impl<A: Allocator + Copy> Tree<A> {
    /// The tree with no tags. Takes no memory.
    #[tactic(auto, unfolding(crate::specs::Trees::tree_tag))]
    pub fn empty(alloc: A) -> Tree<A>
        ensures { (line : ℕ) → tree_tag result line ≡ None }
    {
        Tree {
            root: Branch::empty(alloc),
        }
    }

    /// The tag of a line.
    #[inline]
    #[tactic(auto, unfolding(crate::specs::Trees::tree_tag))]
    pub fn get(&self, line: u64) -> Option<Tag>
        requires { line < line_count }
        ensures { result ≡ tree_tag self.now line }
    {
        Some(self.root.get(line)?.tag())
    }

    /// The part with a number, if the tree keeps it. No clause speaks of it.
    #[inline]
    pub fn part(&self, number: u64) -> Option<&Part<A>> {
        let nodes = NODES as u64;
        self.root.node(number / nodes)?.node(number % nodes)
    }

    /// The last tag before an offset of a line, with its line.
    #[inline]
    #[tactic(auto, unfolding(crate::specs::Trees::tree_tag))]
    pub fn before(&self, line: u64, offset: u8) -> Option<(u64, Tag)>
        requires { line < line_count }
        ensures { IsLastBeforePlace (tree_tag self.now) line offset result }
    {
        let (line, entry) = self.root.before(line, offset)?;
        Some((line, entry.tag()))
    }

    /// Gives a line a tag.
    ///
    /// # Errors
    ///
    /// `AllocError` if memory is refused. The tags are then as they were.
    #[inline]
    #[tactic(auto, unfolding(crate::specs::Trees::tree_tag))]
    pub fn put(&mut self, alloc: A, line: u64, tag: Tag) -> Result<(), AllocError>
        requires { line < line_count }
        ensures ok { OnOk result
            (IsPut line_count (tree_tag self.old) (tree_tag self.new) line (Some tag)) }
        ensures err { OnErr result
            ((line : ℕ) → tree_tag self.new line ≡ tree_tag self.old line) }
    {
        self.root.put(alloc, line, tag)
    }

    /// Gives a line that has a tag another one.
    #[inline]
    #[tactic(auto, unfolding(crate::specs::Trees::tree_tag))]
    pub fn set(&mut self, line: u64, tag: Tag)
        requires within { line < line_count }
        requires there { IsSome (tree_tag self.old line) }
        ensures { IsPut line_count (tree_tag self.old) (tree_tag self.new) line (Some tag) }
    {
        self.root.set(line, tag);
    }

    /// Takes a line's tag, if it has one. Gives back the memory of the leaf and the branches that
    /// have none then.
    #[inline]
    #[tactic(auto, unfolding(crate::specs::Trees::tree_tag))]
    pub fn remove(&mut self, alloc: A, line: u64)
        requires { line < line_count }
        ensures { IsPut line_count (tree_tag self.old) (tree_tag self.new) line None }
    {
        self.root.remove(alloc, line);
    }
}
