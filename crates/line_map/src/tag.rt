//! What a line has: a slot, and where in the line its address is.

/// What a map has at an address: a block's size, and whether the block is live.
#[derive(Clone, Copy, Debug, PartialEq, Eq)]
pub struct Slot {
    /// How many bytes the block has.
    pub size: u64,
    /// Whether it is live. One that is not was freed.
    pub live: bool,
}

/// A slot, and where it is in its line.
#[derive(Clone, Copy, Debug, PartialEq, Eq)]
pub struct Tag {
    /// How many bytes its address is past the line's first one: below 64.
    pub offset: u8,
    /// The slot at that address.
    pub slot: Slot,
}
