//! Whether a span meets none of those of a map's blocks.
ghost use Rattle.std.specs.Prelude.{◌≡◌, not};
ghost use Rattle.std.specs.List.{list_any};
ghost use Rattle.heap_book.specs.Spans.{meets};
ghost use Rattle.heap_book.specs.Slots.{FollowFrom, IsLastBefore, blocks_of};

use crate::block::Block;
use asan_units::REDZONE;
use line_map::LineMap;
use std::alloc::Allocator;

/// The last block of a map that starts before an address.
fn last_before<A: Allocator + Copy>(blocks: &LineMap<A>, end: u64) -> Option<Block>
    requires { FollowFrom 0 blocks.now }
    ensures { IsLastBefore blocks.now end result }
{
    let (at, slot) = blocks.last_before(end)?;
    Some(Block::from_parts(at, slot.size))
}

/// Whether a block's span meets none of those of a map's blocks.
///
/// Spans that never meet are in the order of their addresses. So of those that begin before this
/// span's end, the last one reaches furthest, and it alone is looked at.
pub(crate) fn is_free<A: Allocator + Copy>(blocks: &LineMap<A>, block: &Block) -> bool
    requires { FollowFrom 0 blocks.now }
    ensures { result ≡ not (list_any (meets block.now) (blocks_of blocks.now)) }
{
    match last_before(blocks, block.to() + REDZONE) {
        Some(last) => last.to() <= block.from(),
        None => true,
    }
}
