//! The map: slots by address.
ghost use Rattle.std.specs.Prelude.{◌≡◌, ℕ, ◌+◌, ◌*◌, ◌/◌, ◌<◌, ◌≤◌, None, Some, []};
ghost use Rattle.std.specs.Prelude.{IsSome, OnOk, OnErr, min};
ghost use Rattle.std.specs.Map.{set_value, remove_entry};
ghost use Rattle.std.specs.BTreeMap.{insert_entry, is_at};
ghost use Rattle.std.specs.Ordering.{nat_cmp};
ghost use Rattle.asan_units.specs.Units.{address_end};
ghost use Rattle.line_map.specs.Entries.{line_count, line_size};
ghost use Rattle.line_map.specs.Maps.{slot_at, IsLastBefore};

use crate::ahead::read_lines;
use crate::tag::{Slot, Tag};
use crate::tree::Tree;
use asan_units::ADDRESS_END;
use std::alloc::{AllocError, Allocator, Global};
use std::marker::Model;

/// How many bytes a line has.
pub const LINE: u64 = 64;

/// How many lines a map has.
const ALL: u64 = ADDRESS_END / LINE;

/// The line of an address, and its offset in it. That of an address past the last line is the end
/// of the last line.
#[inline]
fn place_of(at: u64) -> (u64, u8)
    ensures line { result.0 < line_count }
    ensures offset { result.1 ≤ line_size }
    ensures place { result.0 * line_size + result.1 ≡ min at address_end }
{
    if at < ADDRESS_END {
        (at / LINE, (at % LINE) as u8)
    } else {
        (ALL - 1, LINE as u8)
    }
}

/// Slots by address, at most one in each line of 64 bytes. Contracts see a map as the list of its
/// addresses and their slots, in the order of the addresses.
///
/// A map without slots takes no memory. The first slot that is put into one takes 208 bytes: room
/// for four entries of its leaf, and for one node in each branch over the leaf. Any other takes
/// at most 4,272 bytes: room for 128 nodes in one branch, and what lies below it, which is new.
#[derive(Drop)]
pub struct LineMap<A: Allocator + Copy = Global> {
    tree: Tree<A>,
    alloc: A,
    /// What [`fetch`](LineMap::fetch) has read, all together: without a place for it, the compiler
    /// would leave the reads out.
    fetched: u64,
}

impl<A: Allocator + Copy> Model for LineMap<A> {
    ghost use Rattle.std.specs.Prelude.{ℕ, List};
    ghost use Rattle.line_map.specs.declared.tag.Slot.{Slot};

    ghost Value = { List (ℕ × Slot) };

    ghost use Rattle.line_map.specs.Entries.{entries_of, AreInLine};
    ghost use Rattle.line_map.specs.Trees.{tree_tag};

    ghost view = { λ m. entries_of (tree_tag m.tree) };

    ghost invariant = { λ m. AreInLine (tree_tag m.tree) };
}

impl<A: Allocator + Copy> LineMap<A> {
    /// The map without slots. Takes no memory.
    pub fn new(alloc: A) -> LineMap<A>
        ensures { result ≡ [] }
    {
        LineMap {
            tree: Tree::empty(alloc),
            alloc,
            fetched: 0,
        }
    }

    /// Removes all slots, and gives back their memory.
    pub fn clear(&mut self)
        ensures { self.new ≡ [] }
    {
        self.tree = Tree::empty(self.alloc);
    }

    /// Reads what the map keeps of the lines of some addresses, so that the processor has it at
    /// hand if calls on these addresses follow. They may be any numbers. Of more than 32 it reads
    /// the first ones.
    #[inline]
    pub fn fetch(&mut self, addresses: &[u64])
        ensures { self.new ≡ self.old }
    {
        self.fetched ^= read_lines(&self.tree, addresses);
    }

    /// The slot at an address, which may be any number.
    #[inline]
    pub fn get(&self, at: u64) -> Option<Slot>
        ensures { result ≡ slot_at self.now at }
    {
        let tree = &self.tree;
        let line = at / LINE;
        if line >= ALL {
            return None;
        }
        match tree.get(line) {
            Some(tag) => {
                if u64::from(tag.offset) == at % LINE {
                    Some(tag.slot)
                } else {
                    None
                }
            }
            None => None,
        }
    }

    /// The last slot before an address, with its own address: of those at addresses below `end`,
    /// the one at the greatest.
    #[inline]
    pub fn last_before(&self, end: u64) -> Option<(u64, Slot)>
        ensures { IsLastBefore self.now end result }
    {
        let (line, offset) = place_of(end);
        match self.tree.before(line, offset) {
            Some((line, tag)) => Some((line * LINE + u64::from(tag.offset), tag.slot)),
            None => None,
        }
    }

    /// Puts a slot at an address below 2^47, in whose line there is none.
    ///
    /// # Errors
    ///
    /// `AllocError` if memory is refused. The map is then as it was.
    #[inline]
    pub fn insert(&mut self, at: u64, slot: Slot) -> Result<(), AllocError>
        requires within { at < address_end }
        requires alone { (other : ℕ) → other / line_size ≡ at / line_size →
            slot_at self.old other ≡ None }
        ensures ok { OnOk result (self.new ≡ insert_entry nat_cmp self.old at slot) }
        ensures err { OnErr result (self.new ≡ self.old) }
    {
        let offset = (at % LINE) as u8;
        self.tree.put(self.alloc, at / LINE, Tag { offset, slot })
    }

    /// Puts another slot at an address that has one. Takes no memory.
    #[inline]
    pub fn set(&mut self, at: u64, slot: Slot)
        requires { IsSome (slot_at self.old at) }
        ensures { self.new ≡ set_value (is_at (nat_cmp at)) self.old slot }
    {
        let offset = (at % LINE) as u8;
        self.tree.set(at / LINE, Tag { offset, slot });
    }

    /// Takes out the slot at an address that has one. Gives back the memory of the leaf and the
    /// branches that have no slots then.
    #[inline]
    pub fn remove(&mut self, at: u64)
        requires { IsSome (slot_at self.old at) }
        ensures { self.new ≡ remove_entry (is_at (nat_cmp at)) self.old }
    {
        self.tree.remove(self.alloc, at / LINE);
    }
}
