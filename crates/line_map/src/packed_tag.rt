//! An entry of a leaf: what it keeps of a tag.
ghost use Rattle.std.specs.Prelude.{◌≡◌};

use crate::tag::{Slot, Tag};

/// How many values a half of a size has.
const HALF: u64 = 1 << 32;

/// The tag of a line. The size is in two halves, so that an entry takes 12 bytes.
#[derive(Clone, Copy)]
pub struct PackedTag {
    size_low: u32,
    size_high: u32,
    offset: u8,
    live: bool,
}

const _: () = prove!(size_of::<PackedTag>() == 12);

impl PackedTag {
    ghost use Rattle.line_map.specs.Tags.{tag_of};

    #[inline]
    pub fn new(tag: Tag) -> PackedTag
        ensures { tag_of result ≡ tag }
    {
        PackedTag {
            size_low: (tag.slot.size % HALF) as u32,
            size_high: (tag.slot.size / HALF) as u32,
            offset: tag.offset,
            live: tag.slot.live,
        }
    }

    /// One of its numbers, for a caller that only wants it read.
    #[inline]
    pub fn number(&self) -> u32 {
        self.size_low
    }

    /// The offset of its tag.
    #[inline]
    pub fn offset(&self) -> u8
        ensures { result ≡ self.now.offset }
    {
        self.offset
    }

    #[inline]
    pub fn tag(&self) -> Tag
        ensures { result ≡ tag_of self.now }
    {
        Tag {
            offset: self.offset,
            slot: Slot {
                size: u64::from(self.size_high) * HALF + u64::from(self.size_low),
                live: self.live,
            },
        }
    }
}
