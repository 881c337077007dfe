//! Where the parts of a collection take their memory.

use std::alloc::Allocator;

/// Where the parts of a collection take their memory: the checker of sender i from `own[i]`, if
/// there is one, and all else from `shared`.
///
/// No contract says which allocator was asked: tests show it.
#[derive(Clone, Copy)]
pub struct Heaps<'a, A: Allocator + Copy> {
    pub shared: A,
    pub own: &'a [A],
}

impl<'a, A: Allocator + Copy> Heaps<'a, A> {
    /// One allocator for all parts.
    pub fn all_from(alloc: A) -> Heaps<'a, A> {
        Heaps {
            shared: alloc,
            own: &[],
        }
    }

    /// The allocator for the checker of sender `process`.
    pub fn of_checker(&self, process: usize) -> A {
        self.own.get(process).copied().unwrap_or(self.shared)
    }
}
