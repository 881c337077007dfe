//! What the leaves and the branches of a map have in common.
ghost use Rattle.std.specs.Prelude.{◌≡◌, ℕ, ◌<◌, ◌≤◌, true};
ghost use Rattle.std.specs.Prelude.{Option, None, Some, IsSome, IfSome, IfNone, OnOk, OnErr};
ghost use Rattle.std.specs.Prelude.{option_map};
ghost use Rattle.line_map.specs.declared.tag.Tag.{Tag};
ghost use Rattle.line_map.specs.Tags.{tag_of};
ghost use Rattle.line_map.specs.Nodes.{IsWidth, IsPut, IsLastLine, IsLastBeforePlace, StandsFrom};

use crate::packed_tag::PackedTag;
use crate::tag::Tag;
use std::alloc::{AllocError, Allocator};

/// A node of a map: lines from 0 up to its width, each of which has a tag or none.
pub trait Node<A: Allocator + Copy>: Drop {
    ghost width: { ℕ };

    // Its width, and those of the nodes in it, are widths that a node may have.
    ghost fits: { Type 0 };

    ghost tag_at: { Self → ℕ → Option Tag };

    /// How many lines it has.
    fn width() -> u64
        requires { fits }
        ensures { result ≡ width };

    /// The node with no tags. Takes no memory.
    fn empty(alloc: A) -> Self
        ensures { (line : ℕ) → tag_at result line ≡ None };

    /// Whether it holds no memory, and so has no tags.
    fn is_empty(&self) -> bool
        ensures { result ≡ true → (line : ℕ) → tag_at self.now line ≡ None };

    /// The entry of a line, which stands for its tag.
    fn get(&self, line: u64) -> Option<&PackedTag>
        requires fits { fits }
        requires within { line < width }
        ensures { option_map (λ entry. tag_of entry.now) result ≡ tag_at self.now line };

    /// The last line that has a tag, of those below one.
    fn last(&self, end: u64) -> Option<u64>
        requires fits { fits }
        requires end { end ≤ width }
        ensures { IsLastLine (tag_at self.now) end result };

    /// The entry of the last tag before an offset of a line, with its line.
    fn before(&self, line: u64, offset: u8) -> Option<(u64, &PackedTag)>
        requires fits { fits }
        requires within { line < width }
        ensures { IsLastBeforePlace (tag_at self.now) line offset
            (option_map (λ found. (found.0, tag_of found.1.now)) result) };

    /// Gives a line a tag.
    ///
    /// # Errors
    ///
    /// `AllocError` if memory is refused. The tags are then as they were.
    fn put(&mut self, alloc: A, line: u64, tag: Tag) -> Result<(), AllocError>
        requires fits { fits }
        requires within { line < width }
        ensures ok { OnOk result
            (IsPut width (tag_at self.old) (tag_at self.new) line (Some tag)) }
        ensures err { OnErr result
            ((line : ℕ) → tag_at self.new line ≡ tag_at self.old line) };

    /// Gives a line that has a tag another one.
    fn set(&mut self, line: u64, tag: Tag)
        requires fits { fits }
        requires within { line < width }
        requires there { IsSome (tag_at self.old line) }
        ensures { IsPut width (tag_at self.old) (tag_at self.new) line (Some tag) };

    /// Takes a line's tag, if it has one. Gives back the memory of what has no tags then.
    fn remove(&mut self, alloc: A, line: u64)
        requires fits { fits }
        requires within { line < width }
        ensures { IsPut width (tag_at self.old) (tag_at self.new) line None };

    ghost is_width: { fits → IsWidth width };
}

/// The entry of a line, if there is one and it stands before an offset of the line.
#[inline]
pub fn entry_before(own: Option<&PackedTag>, offset: u8) -> Option<&PackedTag>
    ensures some { IfSome result (λ found. (found.now.offset < offset)
        × (option_map (λ entry. tag_of entry.now) own.entry ≡ Some (tag_of found.now))) }
    ensures none { IfNone result
        (StandsFrom offset (option_map (λ entry. tag_of entry.now) own.entry)) }
{
    match own {
        Some(entry) => {
            if entry.offset() < offset {
                Some(entry)
            } else {
                None
            }
        }
        None => None,
    }
}
