//! A leaf of a map: lines side by side, some of which have a tag.
ghost use Rattle.std.specs.Prelude.{◌≡◌, ◌-◌, ◌^◌, ◌<◌, ◌≤◌, count_ones, length, option_map};
ghost use Rattle.line_map.specs.declared.leaf.TheConstants.{LINES};
ghost use Rattle.line_map.specs.Tags.{tag_of};
ghost use Rattle.line_map.specs.Nodes.{IsWidth, IsLastBelow};

use crate::node::{Node, entry_before};
use crate::packed_tag::PackedTag;
use crate::tag::Tag;
use std::alloc::{AllocError, Allocator, Global};

/// How many lines a leaf has.
pub const LINES: usize = 64;

/// Lines side by side. Those that have a tag have an entry, and nothing else takes memory.
#[derive(Drop)]
pub struct Leaf<A: Allocator = Global> {
    /// Which lines have an entry: a bit for each line, the lowest for the first.
    lines: u64,
    /// The entries, in the order of their lines.
    entries: Vec<PackedTag, A>,
    ghost counted: { count_ones lines ≡ length entries.items },
}

/// The bit of a line.
#[inline]
fn bit(line: u64) -> u64
    requires { line < LINES }
    ensures { result ≡ 2 ^ line }
{
    1 << line
}

/// The bits of the lines below one.
#[inline]
fn bits_below(end: u64) -> u64
    requires { end ≤ LINES }
    ensures { result ≡ 2 ^ end - 1 }
{
    if end < LINES as u64 {
        bit(end) - 1
    } else {
        u64::MAX
    }
}

impl<A: Allocator + Copy> Leaf<A> {
    ghost use Rattle.line_map.specs.Leaves.{has_entry, entries_below, leaf_tag};

    /// Which lines have an entry.
    #[inline]
    pub fn lines(&self) -> u64 {
        self.lines
    }

    /// Some number of the entry at a line's place, and 0 if there is none.
    #[inline]
    pub fn number(&self, line: u64) -> u32
        requires { line < LINES }
    {
        match self.entries.get(self.place_of(line)) {
            Some(entry) => entry.number(),
            None => 0,
        }
    }

    /// Whether a line has an entry.
    #[inline]
    fn has(&self, line: u64) -> bool
        requires { line < LINES }
        ensures { result ≡ has_entry self.now.lines line }
    {
        self.lines & bit(line) != 0
    }

    /// The last entry of the lines below one, with its line.
    #[inline]
    fn last_entry(&self, end: u64) -> Option<(u64, &PackedTag)>
        requires { end ≤ LINES }
        ensures { IsLastBelow (leaf_tag self.now) end
            (option_map (λ found. (found.0, tag_of found.1.now)) result) }
    {
        let line = self.last(end)?;
        let entry = self.get(line)?;
        Some((line, entry))
    }

    /// The place of a line's entry: how many entries the lines below it have.
    #[inline]
    fn place_of(&self, line: u64) -> usize
        requires { line < LINES }
        ensures { result ≡ entries_below self.now.lines line }
    {
        (self.lines & (bit(line) - 1)).count_ones() as usize
    }
}

impl<A: Allocator + Copy> Node<A> for Leaf<A> {
    ghost use Rattle.line_map.specs.Leaves.{leaf_tag};

    ghost width = { LINES };

    ghost fits = { IsWidth LINES };

    ghost tag_at = { leaf_tag };

    #[inline]
    fn width() -> u64 {
        LINES as u64
    }

    #[inline]
    fn empty(alloc: A) -> Self {
        Leaf {
            lines: 0,
            entries: Vec::new(alloc),
        }
    }

    #[inline]
    fn is_empty(&self) -> bool {
        self.lines == 0
    }

    #[inline]
    fn get(&self, line: u64) -> Option<&PackedTag> {
        if self.has(line) {
            Some(&self.entries[self.place_of(line)])
        } else {
            None
        }
    }

    #[inline]
    fn last(&self, end: u64) -> Option<u64> {
        let below = self.lines & bits_below(end);
        Some(u64::from(below.checked_ilog2()?))
    }

    #[inline]
    fn before(&self, line: u64, offset: u8) -> Option<(u64, &PackedTag)> {
        match entry_before(self.get(line), offset) {
            Some(entry) => Some((line, entry)),
            None => self.last_entry(line),
        }
    }

    #[inline]
    fn put(&mut self, _alloc: A, line: u64, tag: Tag) -> Result<(), AllocError> {
        let place = self.place_of(line);
        if self.has(line) {
            self.entries[place] = PackedTag::new(tag);
        } else {
            self.entries.insert(place, PackedTag::new(tag))?;
            self.lines |= bit(line);
        }
        Ok(())
    }

    #[inline]
    fn set(&mut self, line: u64, tag: Tag) {
        let place = self.place_of(line);
        self.entries[place] = PackedTag::new(tag);
    }

    #[inline]
    fn remove(&mut self, alloc: A, line: u64) {
        if self.has(line) {
            let place = self.place_of(line);
            let _ = self.entries.remove(place);
            self.lines ^= bit(line);
            if self.lines == 0 {
                *self = Leaf::empty(alloc);
            }
        }
    }

    ghost is_width = { λ fits. fits };
}
