//! The memory that checking takes.

ghost use Rattle.std.specs.Prelude.{◌≡◌, IfOk, Some, length};
ghost use Rattle.asan_senders.specs.Ranges.{most_senders};

use asan_collect::MAX_SENDERS;
use refusing_allocator::RefusingAllocator;
use std::alloc::{AllocError, Global};

/// Memory in which each checker has a bound: an allocator for the checker of each sender of a call,
/// and one without a bound for what they share.
#[derive(Drop)]
pub struct BoundedHeaps {
    pub shared: RefusingAllocator<Global>,
    pub own: Vec<RefusingAllocator<Global>>,
    pub ghost each_has_one: { length own.items ≡ most_senders },
}

impl BoundedHeaps {
    ghost use Rattle.asan_session.specs.Bounds.{AreBounded};

    /// Allocators with this bound.
    pub fn new(alloc: Global, bound: u64) -> Result<BoundedHeaps, AllocError>
        ensures bound { IfOk result (AreBounded (Some bound)) }
    {
        let mut own = Vec::with_capacity(alloc, MAX_SENDERS)?;
        for _ in 0..MAX_SENDERS {
            own.push(RefusingAllocator::with_bound(alloc, bound))?;
        }
        let shared = RefusingAllocator::counting(alloc);
        Ok(BoundedHeaps { shared, own })
    }
}
