//! A branch of a map: nodes side by side.
ghost use Rattle.std.specs.Prelude.{◌≡◌, ℕ, ◌+◌, ◌*◌, ◌/◌, ◌<◌, ◌≤◌, true};
ghost use Rattle.std.specs.Prelude.{None, IfOk, IfSome, IfNone, option_map, vec_len};
ghost use Rattle.line_map.specs.declared.branch.TheConstants.{NODES};
ghost use Rattle.line_map.specs.Tags.{tag_of};
ghost use Rattle.line_map.specs.Nodes.{IsWidth, IsLastLine, IsLastBelow};

use crate::node::Node;
use crate::packed_tag::PackedTag;
use crate::tag::Tag;
use std::alloc::{AllocError, Allocator, Global};

/// How many nodes a branch has.
pub const NODES: usize = 128;

/// Nodes of one width, side by side. Those that are not kept have no tags.
#[derive(Drop)]
pub struct Branch<S, A: Allocator = Global> {
    /// The number of the first node that is kept.
    first: usize,
    /// The nodes from that one on: none where no line has a tag.
    kept: Vec<S, A>,
}

impl<S: Node<A>, A: Allocator + Copy> Node<A> for Branch<S, A> {
    ghost use Rattle.line_map.specs.Branches.{branch_tag};

    ghost width = { NODES * S.width };

    ghost fits = { IsWidth (NODES * S.width) × S.fits };

    ghost tag_at = { branch_tag S.tag_at S.width };

    #[inline]
    fn width() -> u64 {
        NODES as u64 * S::width()
    }

    #[inline]
    fn empty(alloc: A) -> Self {
        Branch {
            first: 0,
            kept: Vec::new(alloc),
        }
    }

    #[inline]
    fn is_empty(&self) -> bool {
        self.kept.is_empty()
    }

    #[inline]
    fn get(&self, line: u64) -> Option<&PackedTag> {
        let width = S::width();
        match self.place_of((line / width) as usize) {
            Some(place) => self.kept[place].get(line % width),
            None => None,
        }
    }

    #[inline]
    fn last(&self, end: u64) -> Option<u64> {
        let width = S::width();
        let node = (end / width) as usize;
        match self.place_of(node) {
            Some(place) => match self.kept[place].last(end % width) {
                Some(line) => return Some(node as u64 * width + line),
                None => {}
            },
            None => {}
        }
        self.last_of(node)
    }

    #[inline]
    fn before(&self, line: u64, offset: u8) -> Option<(u64, &PackedTag)> {
        let width = S::width();
        let node = (line / width) as usize;
        match self.place_of(node) {
            Some(place) => match self.kept[place].before(line % width, offset) {
                Some((found, entry)) => return Some((node as u64 * width + found, entry)),
                None => {}
            },
            None => {}
        }
        self.last_entry(node)
    }

    #[inline]
    fn put(&mut self, alloc: A, line: u64, tag: Tag) -> Result<(), AllocError> {
        let width = S::width();
        let node = (line / width) as usize;
        let place = match self.place_of(node) {
            Some(place) => place,
            None => self.keep(alloc, node)?,
        };
        match self.kept[place].put(alloc, line % width, tag) {
            Ok(()) => Ok(()),
            Err(refused) => {
                self.give_back(alloc);
                Err(refused)
            }
        }
    }

    #[inline]
    fn set(&mut self, line: u64, tag: Tag) {
        let width = S::width();
        match self.place_of((line / width) as usize) {
            Some(place) => self.kept[place].set(line % width, tag),
            None => {}
        }
    }

    #[inline]
    fn remove(&mut self, alloc: A, line: u64) {
        let width = S::width();
        match self.place_of((line / width) as usize) {
            Some(place) => {
                self.kept[place].remove(alloc, line % width);
                if self.kept[place].is_empty() {
                    self.give_back(alloc);
                }
            }
            None => {}
        }
    }

    ghost is_width = { λ fits. fits.0 };
}

impl<S: Node<A>, A: Allocator + Copy> Branch<S, A> {
    ghost use Rattle.line_map.specs.Branches.{branch_tag};

    /// A node, by its number, if it is kept. No clause speaks of it.
    #[inline]
    pub fn node(&self, number: u64) -> Option<&S> {
        self.kept.get((number as usize).checked_sub(self.first)?)
    }

    /// The place of a node, by its number, among those that are kept.
    #[inline]
    fn place_of(&self, node: usize) -> Option<usize>
        ensures some { IfSome result (λ place.
            (node ≡ self.now.first + place) × (place < vec_len self.now.kept)) }
        ensures none { IfNone result ((line : ℕ) → line / S.width ≡ node →
            branch_tag S.tag_at S.width self.now line ≡ None) }
    {
        let place = node.checked_sub(self.first)?;
        if place < self.kept.len() {
            Some(place)
        } else {
            None
        }
    }

    /// The last line that has a tag, of the nodes below one.
    #[inline(never)]
    fn last_of(&self, end: usize) -> Option<u64>
        requires fits { S.fits }
        requires width { IsWidth (NODES * S.width) }
        requires end { end ≤ NODES }
        ensures { IsLastLine (branch_tag S.tag_at S.width self.now) (end * S.width) result }
    {
        let width = S::width();
        let mut place = end.saturating_sub(self.first).min(self.kept.len());
        while place > 0 {
            place -= 1;
            let node = &self.kept[place];
            if !node.is_empty() {
                match node.last(width) {
                    Some(line) => return Some((self.first + place) as u64 * width + line),
                    None => {}
                }
            }
        }
        None
    }

    /// The last entry of the nodes below one, with its line.
    #[inline(never)]
    fn last_entry(&self, end: usize) -> Option<(u64, &PackedTag)>
        requires fits { S.fits }
        requires width { IsWidth (NODES * S.width) }
        requires end { end ≤ NODES }
        ensures { IsLastBelow (branch_tag S.tag_at S.width self.now) (end * S.width)
            (option_map (λ found. (found.0, tag_of found.1.now)) result) }
    {
        let line = self.last_of(end)?;
        let entry = self.get(line)?;
        Some((line, entry))
    }

    /// Keeps a node, by its number, and those between it and the ones that are kept. Gives its
    /// place among them. Takes memory once, or not at all.
    ///
    /// # Errors
    ///
    /// `AllocError` if memory is refused.
    #[inline(never)]
    fn keep(&mut self, alloc: A, node: usize) -> Result<usize, AllocError>
        requires { node < NODES }
        ensures ok { IfOk result (λ place.
            (node ≡ self.new.first + place) × (place < vec_len self.new.kept)) }
        ensures same { (line : ℕ) → branch_tag S.tag_at S.width self.new line
            ≡ branch_tag S.tag_at S.width self.old line }
    {
        if self.kept.is_empty() {
            self.first = node;
        }
        let count = if node < self.first {
            (self.first - node).saturating_add(self.kept.len())
        } else {
            node - self.first + 1
        };
        let room = count.min(NODES).next_power_of_two();
        self.kept
            .reserve_exact(room.saturating_sub(self.kept.len()))?;
        while node < self.first {
            self.kept.insert(0, S::empty(alloc))?;
            self.first -= 1;
        }
        let place = node - self.first;
        for _place in self.kept.len()..place + 1 {
            self.kept.push(S::empty(alloc))?;
        }
        Ok(place)
    }

    /// Gives back the memory of the nodes, if none of them holds any.
    #[inline(never)]
    fn give_back(&mut self, alloc: A)
        ensures { (line : ℕ) → branch_tag S.tag_at S.width self.new line
            ≡ branch_tag S.tag_at S.width self.old line }
    {
        if self.are_empty() {
            *self = Branch::empty(alloc);
        }
    }

    /// Whether none of the nodes holds memory.
    #[inline]
    fn are_empty(&self) -> bool
        ensures { result ≡ true → (line : ℕ) →
            branch_tag S.tag_at S.width self.now line ≡ None }
    {
        for node in &self.kept {
            if !node.is_empty() {
                return false;
            }
        }
        true
    }
}
